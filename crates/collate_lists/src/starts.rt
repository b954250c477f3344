//! The ranks at which lists begin, in blocks: many are moved at once by moving the base of their block.

ghost use Rattle.std.specs.Prelude.{◌≡◌, ℕ, ◌+◌, ◌*◌, ◌/◌, ◌%◌, ◌^◌, ◌<◌, ◌≤◌, [], All, drop, length, insert, remove, OnOk, slice_index, vec_capacity};
ghost use Rattle.collate_lists.specs.Lists.{raised, lowered};
ghost use Rattle.collate_lists.specs.Starts.{AreBased, HasSpace, IsAround, ranks_from, ranks_of};

use std::alloc::{AllocError, Global};

/// How many ranks a block has.
pub(crate) const BLOCK: usize = 128;

/// Ranks in a row.
#[derive(Drop)]
pub(crate) struct Starts {
    /// What is added to the offsets of each block.
    pub(crate) bases: Vec<usize>,
    /// The offsets, one for each rank.
    pub(crate) offsets: Vec<usize>,
}

/// The base of the block of a rank; zero past the last block.
fn base_of(bases: &[usize], index: usize) -> usize
    ensures { result ≡ slice_index bases.now (index / BLOCK) }
{
    let block = index / BLOCK;
    if block < bases.len() { bases[block] } else { 0 }
}

/// Adds to the values from an index up to another one; sums wrap.
fn add_to(values: &mut Vec<usize>, from: usize, upto: usize, amount: usize)
    requires from { from ≤ upto }
    requires upto { upto ≤ length values.old.items }
    ensures count { length values.new.items ≡ length values.old.items }
    ensures before { (k : ℕ) → k < from → slice_index values.new.items k ≡ slice_index values.old.items k }
    ensures added { (k : ℕ) → from ≤ k → k < upto → slice_index values.new.items k ≡ (slice_index values.old.items k + amount) % 2 ^ 64 }
    ensures behind { (k : ℕ) → upto ≤ k → slice_index values.new.items k ≡ slice_index values.old.items k }
    ensures memory { vec_capacity values.new ≡ vec_capacity values.old }
{
    'values: for index in from..upto {
        values[index] = values[index].wrapping_add(amount);
    }
}

/// Adds to each offset the base of its block.
fn add_bases(offsets: &mut Vec<usize>, bases: &[usize])
    ensures ranks { offsets.new.items ≡ ranks_from bases.now 0 offsets.old.items }
    ensures memory { vec_capacity offsets.new ≡ vec_capacity offsets.old }
{
    'offsets: for index in 0..offsets.len() {
        offsets[index] = offsets[index].wrapping_add(base_of(bases, index));
    }
}

/// Makes a block with a base of zero, if the blocks are full of so many ranks.
fn add_block(bases: &mut Vec<usize>, count: usize) -> Result<(), AllocError>
    requires { count ≤ BLOCK * length bases.old.items }
    ensures same { (k : ℕ) → slice_index bases.new.items k ≡ slice_index bases.old.items k }
    ensures upto { count ≤ BLOCK * length bases.new.items }
    ensures room { OnOk result (count < BLOCK * length bases.new.items) }
{
    if count / BLOCK >= bases.len() {
        bases.push(0)?;
    }
    Ok(())
}

/// Where the block of an index ends, of so many ranks.
fn block_end(index: usize, count: usize) -> usize
    requires { index ≤ count }
    ensures from { index ≤ result }
    ensures upto { result ≤ count }
    ensures inside { (k : ℕ) → index ≤ k → k < result → k / BLOCK ≡ index / BLOCK }
    ensures behind { (k : ℕ) → result ≤ k → k < count → index / BLOCK + 1 ≤ k / BLOCK }
{
    let left = BLOCK - index % BLOCK;
    if count - index < left {
        count
    } else {
        index + left
    }
}

impl Starts {
    /// No ranks.
    pub(crate) fn new(alloc: Global) -> Starts
        ensures none { ranks_of result ≡ [] }
        ensures based { AreBased result }
    {
        Starts {
            bases: Vec::new(alloc),
            offsets: Vec::new(alloc),
        }
    }

    /// How many there are.
    pub(crate) fn len(&self) -> usize
        ensures { result ≡ length (ranks_of self.now) }
    {
        self.offsets.len()
    }

    /// A rank.
    pub(crate) fn at(&self, index: usize) -> usize
        requires { index < length (ranks_of self.now) }
        ensures { result ≡ slice_index (ranks_of self.now) index }
    {
        self.offsets[index].wrapping_add(base_of(self.bases.as_slice(), index))
    }

    /// Makes room for one rank more.
    pub(crate) fn reserve(&mut self) -> Result<(), AllocError>
        requires { AreBased self.old }
        ensures same { ranks_of self.new ≡ ranks_of self.old }
        ensures based { AreBased self.new }
        ensures room { OnOk result (HasSpace self.new) }
    {
        add_block(&mut self.bases, self.offsets.len())?;
        self.offsets.reserve(1)
    }

    /// Gives memory back that is more than four times what the ranks need.
    pub(crate) fn shrink(&mut self)
        requires { AreBased self.old }
        ensures same { ranks_of self.new ≡ ranks_of self.old }
        ensures based { AreBased self.new }
    {
        if self.offsets.capacity() / 4 > self.offsets.len() {
            self.offsets.shrink_to_fit();
        }
    }

    /// Makes each offset its rank, and each base zero.
    fn settle(&mut self)
        ensures offsets { self.new.offsets.items ≡ ranks_of self.old }
        ensures bases { All (λ base. base ≡ 0) self.new.bases.items }
        ensures count { length self.new.bases.items ≡ length self.old.bases.items }
        ensures memory { vec_capacity self.new.offsets ≡ vec_capacity self.old.offsets }
    {
        add_bases(&mut self.offsets, self.bases.as_slice());
        self.bases.fill(0);
    }

    /// Puts a rank at an index. There is room.
    pub(crate) fn insert(&mut self, index: usize, rank: usize)
        requires room { HasSpace self.old }
        requires index { index ≤ length (ranks_of self.old) }
        ensures ranks { ranks_of self.new ≡ insert (ranks_of self.old) index rank }
        ensures based { AreBased self.new }
    {
        self.settle();
        let _ = self.offsets.insert(index, rank);
    }

    /// Takes the rank at an index out.
    pub(crate) fn remove(&mut self, index: usize)
        requires based { AreBased self.old }
        requires index { index < length (ranks_of self.old) }
        ensures ranks { ranks_of self.new ≡ remove (ranks_of self.old) index }
        ensures based { AreBased self.new }
    {
        self.settle();
        let _ = self.offsets.remove(index);
    }

    /// Adds to the ranks from an index on; sums wrap.
    fn shift(&mut self, index: usize, amount: usize)
        requires based { AreBased self.old }
        requires index { index ≤ length (ranks_of self.old) }
        ensures count { length (ranks_of self.new) ≡ length (ranks_of self.old) }
        ensures before { (k : ℕ) → k < index → slice_index (ranks_of self.new) k ≡ slice_index (ranks_of self.old) k }
        ensures added { (k : ℕ) → index ≤ k → k < length (ranks_of self.old) → slice_index (ranks_of self.new) k ≡ (slice_index (ranks_of self.old) k + amount) % 2 ^ 64 }
        ensures based { AreBased self.new }
    {
        let block = index / BLOCK;
        let end = block_end(index, self.offsets.len());
        add_to(&mut self.offsets, index, end, amount);
        if block < self.bases.len() {
            let blocks = self.bases.len();
            add_to(&mut self.bases, block + 1, blocks, amount);
        }
    }

    /// Moves the ranks from an index on by one up.
    pub(crate) fn raise(&mut self, index: usize)
        requires based { AreBased self.old }
        requires within { index ≤ length (ranks_of self.old) }
        requires space { All (λ start. start < usize.MAX) (drop index (ranks_of self.old)) }
        ensures ranks { ranks_of self.new ≡ raised index (ranks_of self.old) }
        ensures based { AreBased self.new }
    {
        self.shift(index, 1);
    }

    /// Moves the ranks from an index on by one down.
    pub(crate) fn lower(&mut self, index: usize)
        requires based { AreBased self.old }
        requires within { index ≤ length (ranks_of self.old) }
        requires space { All (λ start. 0 < start) (drop index (ranks_of self.old)) }
        ensures ranks { ranks_of self.new ≡ lowered index (ranks_of self.old) }
        ensures based { AreBased self.new }
    {
        self.shift(index, usize::MAX);
    }

    /// A rank that is this one or below: the one at this index, or else the first.
    fn first_before(&self, rank: usize, index: usize) -> usize
        requires any { 0 < length (ranks_of self.now) }
        requires first { slice_index (ranks_of self.now) 0 ≤ rank }
        ensures within { result < length (ranks_of self.now) }
        ensures from { slice_index (ranks_of self.now) result ≤ rank }
    {
        if index < self.len() && self.at(index) <= rank {
            index
        } else {
            0
        }
    }

    /// An index past another one whose rank is above this one: the given one, or else how many there are.
    fn last_behind(&self, rank: usize, low: usize, index: usize) -> usize
        requires low { low < length (ranks_of self.now) }
        ensures past { low < result }
        ensures within { result ≤ length (ranks_of self.now) }
        ensures behind { result < length (ranks_of self.now) → rank < slice_index (ranks_of self.now) result }
    {
        if low < index && index < self.len() && rank < self.at(index) {
            index
        } else {
            self.len()
        }
    }

    /// The list that begins at a rank or before it, where the next one begins after it. It is looked for between two
    /// lists first.
    pub(crate) fn around(&self, rank: usize, first: usize, last: usize) -> usize
        requires any { 0 < length (ranks_of self.now) }
        requires first { slice_index (ranks_of self.now) 0 ≤ rank }
        ensures { IsAround (ranks_of self.now) rank result }
    {
        let mut low = self.first_before(rank, first);
        let mut high = self.last_behind(rank, low, last);
        'lists: while low + 1 < high {
            let middle = low + (high - low) / 2;
            if self.at(middle) <= rank {
                low = middle;
            } else {
                high = middle;
            }
        }
        low
    }
}

//! Lists in a row that are seen as one, with the rank at which each begins.

ghost use Rattle.std.specs.Prelude.{◌≡◌, ℕ, ◌+◌, ◌-◌, ◌++◌, ◌<◌, ◌≤◌, ◌∷◌, [], All, IsTrue, length, Some, OnOk, insert, remove, slice_get, slice_index};
ghost use Rattle.collate_lists.specs.Lists.{joined, lengths, rank_of, renumbered};
ghost use Rattle.collate_lists.specs.Parts.{IsSound, HasRoom, IsSame, IsIndexOf, IsFreeFor, AreJoinable};
ghost use Rattle.collate_lists.specs.Windows.{shows};

use crate::list_rows::{FULL, HALF, halve, join, let_go, put, renumber, take_out};
use crate::starts::Starts;
use crate::windows::{FrontedSlot, Window};
use std::alloc::{AllocError, Global};
use std::mem;

/// How many values two lists next to each other hold at most together, if they are made one.
const JOINED: usize = 384;

/// Lists in a row.
#[derive(Drop)]
pub(crate) struct Parts {
    pub(crate) lists: Vec<Vec<FrontedSlot>>,
    /// The rank at which each list begins.
    pub(crate) starts: Starts,
    /// The next list, with nothing in it.
    pub(crate) spare: Vec<FrontedSlot>,
    /// How many values there are.
    pub(crate) count: usize,
}

impl Parts {
    /// No lists.
    pub(crate) fn new(alloc: Global) -> Parts
        ensures sound { IsSound result }
        ensures values { joined result.lists.items ≡ [] }
    {
        Parts {
            lists: Vec::new(alloc),
            starts: Starts::new(alloc),
            spare: Vec::new(alloc),
            count: 0,
        }
    }

    /// Makes room for one value more, wherever it goes.
    pub(crate) fn reserve(&mut self) -> Result<(), AllocError>
        requires { IsSound self.old }
        ensures ok { OnOk result (HasRoom self.new) }
        ensures same { IsSame self.old self.new }
    {
        if self.count == usize::MAX {
            return Err(AllocError);
        }
        self.spare.reserve_exact(FULL)?;
        self.lists.reserve(1)?;
        self.starts.reserve()
    }

    /// Gives memory back that is more than four times what the lists need.
    pub(crate) fn shrink(&mut self)
        requires { IsSound self.old }
        ensures { IsSame self.old self.new }
    {
        if self.lists.capacity() / 4 > self.lists.len() {
            self.lists.shrink_to_fit();
        }
        self.starts.shrink();
    }

    /// The list and the index in it of a rank.
    fn find(&self, rank: usize) -> (usize, usize)
        requires sound { IsSound self.now }
        requires any { 0 < length self.now.lists.items }
        requires rank { rank ≤ self.now.count }
        ensures index { IsIndexOf self.now.lists.items rank result.0 result.1 }
        ensures inside { rank < self.now.count → result.1 < slice_index (lengths self.now.lists.items) result.0 }
    {
        let part = self.starts.around(rank, 0, usize::MAX);
        (part, rank - self.starts.at(part))
    }

    /// The value at a rank.
    pub(crate) fn at(&self, rank: usize) -> FrontedSlot
        requires sound { IsSound self.now }
        requires rank { rank < self.now.count }
        ensures { slice_get (joined self.now.lists.items) rank ≡ Some result }
    {
        let (part, index) = self.find(rank);
        let list = &self.lists[part];
        list[index]
    }

    /// The list of a rank, which is looked for between two lists first.
    pub(crate) fn around(&self, rank: usize, first: usize, last: usize) -> Window<'_>
        requires sound { IsSound self.now }
        requires rank { rank < self.now.count }
        ensures shown { shows (joined self.now.lists.items) result.start result.slots.now }
        ensures from { result.start ≤ rank }
        ensures before { rank < result.start + length result.slots.now }
    {
        let part = self.starts.around(rank, first, last);
        let start = self.starts.at(part);
        let list = &self.lists[part];
        let slots = list.as_slice();
        Window { part, start, slots }
    }

    /// Takes the spare list for the last.
    fn append(&mut self)
        requires sound { IsSound self.old }
        requires room { HasRoom self.old }
        ensures sound { IsSound self.new }
        ensures values { joined self.new.lists.items ≡ joined self.old.lists.items }
        ensures free { IsFreeFor self.new.lists.items self.old.count (length self.old.lists.items) 0 }
        ensures count { self.new.count ≡ self.old.count }
    {
        let list = mem::replace(&mut self.spare, Vec::new(*self.lists.allocator()));
        let part = self.lists.len();
        self.lists.push_reserved(list);
        self.starts.insert(part, self.count);
    }

    /// Makes a full list two, the second of them the spare one.
    fn split(&mut self, part: usize)
        requires sound { IsSound self.old }
        requires room { HasRoom self.old }
        requires part { part < length self.old.lists.items }
        requires full { slice_index (lengths self.old.lists.items) part ≡ FULL }
        ensures sound { IsSound self.new }
        ensures values { joined self.new.lists.items ≡ joined self.old.lists.items }
        ensures lower { (rank index : ℕ) → IsIndexOf self.old.lists.items rank part index → index ≤ HALF → IsFreeFor self.new.lists.items rank part index }
        ensures upper { (rank index : ℕ) → IsIndexOf self.old.lists.items rank part index → HALF < index → IsFreeFor self.new.lists.items rank (part + 1) (index - HALF) }
        ensures count { self.new.count ≡ self.old.count }
    {
        let empty = mem::replace(&mut self.spare, Vec::new(*self.lists.allocator()));
        halve(&mut self.lists, part, empty);
        let start = self.starts.at(part) + HALF;
        self.starts.insert(part + 1, start);
    }

    /// The list and the index in it where a value goes that is put at a rank. That list isn't full.
    fn free_index(&mut self, rank: usize) -> (usize, usize)
        requires sound { IsSound self.old }
        requires room { HasRoom self.old }
        requires rank { rank ≤ self.old.count }
        ensures sound { IsSound self.new }
        ensures values { joined self.new.lists.items ≡ joined self.old.lists.items }
        ensures free { IsFreeFor self.new.lists.items rank result.0 result.1 }
        ensures count { self.new.count ≡ self.old.count }
    {
        if self.lists.is_empty() {
            self.append();
            return (0, 0);
        }
        let (part, index) = self.find(rank);
        if self.lists[part].len() < FULL {
            return (part, index);
        }
        self.split(part);
        if index <= HALF {
            (part, index)
        } else {
            (part + 1, index - HALF)
        }
    }

    /// Puts a value at an index of a list, which isn't full.
    fn put_at(&mut self, part: usize, index: usize, value: FrontedSlot)
        requires sound { IsSound self.old }
        requires count { self.old.count < usize.MAX }
        requires rank { rank_of self.old.lists.items part index ≤ self.old.count }
        requires free { IsFreeFor self.old.lists.items (rank_of self.old.lists.items part index) part index }
        ensures sound { IsSound self.new }
        ensures values { joined self.new.lists.items ≡ insert (joined self.old.lists.items) (rank_of self.old.lists.items part index) value }
    {
        put(&mut self.lists, part, index, value);
        self.starts.raise(part + 1);
        self.count += 1;
    }

    /// Puts a value at a rank. There is room.
    pub(crate) fn insert(&mut self, rank: usize, value: FrontedSlot)
        requires sound { IsSound self.old }
        requires room { HasRoom self.old }
        requires rank { rank ≤ self.old.count }
        ensures sound { IsSound self.new }
        ensures values { joined self.new.lists.items ≡ insert (joined self.old.lists.items) rank value }
    {
        let (part, index) = self.free_index(rank);
        self.put_at(part, index, value);
    }

    /// The last list and the index in it where a value goes after all others. That list isn't full: where the last is, it
    /// is a new one.
    fn last_index(&mut self) -> (usize, usize)
        requires sound { IsSound self.old }
        requires room { HasRoom self.old }
        ensures sound { IsSound self.new }
        ensures values { joined self.new.lists.items ≡ joined self.old.lists.items }
        ensures free { IsFreeFor self.new.lists.items self.new.count result.0 result.1 }
        ensures count { self.new.count ≡ self.old.count }
    {
        let lists = self.lists.len();
        if lists > 0 {
            let index = self.lists[lists - 1].len();
            if index < FULL {
                return (lists - 1, index);
            }
        }
        self.append();
        (lists, 0)
    }

    /// Puts a value after all others. There is room.
    pub(crate) fn push(&mut self, value: FrontedSlot)
        requires sound { IsSound self.old }
        requires room { HasRoom self.old }
        ensures sound { IsSound self.new }
        ensures values { joined self.new.lists.items ≡ joined self.old.lists.items ++ value ∷ [] }
    {
        let (part, index) = self.last_index();
        self.put_at(part, index, value);
    }

    /// Takes the value at a rank out, and answers it.
    pub(crate) fn remove(&mut self, rank: usize) -> FrontedSlot
        requires sound { IsSound self.old }
        requires rank { rank < self.old.count }
        ensures sound { IsSound self.new }
        ensures value { slice_get (joined self.old.lists.items) rank ≡ Some result }
        ensures values { joined self.new.lists.items ≡ remove (joined self.old.lists.items) rank }
    {
        let (part, index) = self.find(rank);
        let value = take_out(&mut self.lists, part, index);
        self.starts.lower(part + 1);
        self.count -= 1;
        self.tidy(part);
        value
    }

    /// Lets go of a list with no values, and makes it one with the list after it or before it if they hold few.
    fn tidy(&mut self, part: usize)
        requires sound { IsSound self.old }
        requires part { part < length self.old.lists.items }
        ensures sound { IsSound self.new }
        ensures values { joined self.new.lists.items ≡ joined self.old.lists.items }
    {
        if self.lists[part].is_empty() {
            let_go(&mut self.lists, part);
            self.starts.remove(part);
        } else if self.are_few(part) {
            self.join(part);
        } else if part > 0 && self.are_few(part - 1) {
            self.join(part - 1);
        }
    }

    /// Whether a list and the one after it hold few values.
    fn are_few(&self, part: usize) -> bool
        requires sound { IsSound self.now }
        requires part { part < length self.now.lists.items }
        ensures { IsTrue result → AreJoinable self.now.lists.items part }
    {
        part + 1 < self.lists.len() && self.lists[part].len() + self.lists[part + 1].len() <= JOINED
    }

    /// Makes a list one with the list after it.
    fn join(&mut self, part: usize)
        requires sound { IsSound self.old }
        requires few { AreJoinable self.old.lists.items part }
        ensures sound { IsSound self.new }
        ensures values { joined self.new.lists.items ≡ joined self.old.lists.items }
    {
        join(&mut self.lists, part);
        self.starts.remove(part + 1);
    }

    /// Puts in place of each value the number that stands at it.
    pub(crate) fn renumber(&mut self, numbers: &[usize])
        requires sound { IsSound self.old }
        requires numbers { All (λ value. value.slot < length numbers.now) (joined self.old.lists.items) }
        ensures sound { IsSound self.new }
        ensures values { joined self.new.lists.items ≡ renumbered numbers.now (joined self.old.lists.items) }
    {
        renumber(&mut self.lists, numbers);
    }
}

//! Where the tables of a built trie have each part.
ghost use Rattle.std.specs.Prelude.{◌≡◌, ℕ, ◌+◌, ◌-◌, ◌*◌, ◌/◌, ◌^◌, ◌<◌, ◌≤◌, ◌⊎◌, [], map, length, slice_index, IfOk, IfErr};
ghost use Rattle.icu_codepointtrie.specs.Slots.{fast_limit};
ghost use Rattle.icu_codepointtrie.specs.Blocks.{HasMore};
ghost use Rattle.icu_codepointtrie.specs.DataCells.{Stands};
ghost use Rattle.icu_codepointtrie.specs.Layouts.{AreBounded, IsLayout, IsLastRun, AreFew, second_start, small_room, third_start, index_cell, HasCells, HasIndex};
ghost use Rattle.icu_codepointtrie.specs.declared.builder.compaction.CodePointTrieBuildError.TheVariants.{TooLarge, Memory};

use super::super::trie::{CodePointTrieHeader, TrieType};
use super::super::value::TrieValue;
use super::blocks::{has_only, number_at};
use super::cells::{items_at, put_value, slots_of};
use super::compaction::{CodePointTrieBuildError, Compaction};
use super::thirds::third_blocks;
use std::alloc::{AllocError, Global};

/// How many blocks of 512 there are up to 10FFFF (hex).
const WIDE_BLOCKS: usize = 0x880;

/// What the index of a trie is made of.
#[derive(Drop)]
pub(super) struct Layout {
    trie_type: TrieType,
    /// How many blocks of 512 there are before the last run of one value.
    wide_end: usize,
    /// Where the blocks of 64 from the third on up to the fast limit stand.
    fast: Vec<usize>,
    /// The second cell of each block of 512 from the fast limit on.
    seconds: Vec<usize>,
    /// The cells of the third blocks.
    thirds: Vec<u16>,
}

/// How many blocks of 512 there are up to the last run of one value, at least those below the limit.
fn end_of_blocks<T: TrieValue>(values: &[T], limit: usize) -> usize
    requires values { length values.now ≡ 0x110000 }
    requires limit { limit / 512 * 512 ≡ limit }
    requires inside { limit ≤ 0x110000 }
    ensures from { limit / 512 ≤ result }
    ensures to { result ≤ 0x880 }
    ensures run { IsLastRun (map T.number values.now) result }
    ensures least { (n : ℕ) → limit / 512 ≤ n → IsLastRun (map T.number values.now) n → result ≤ n }
{
    let last = number_at(values, 0x10_FFFF);
    for back in 0..WIDE_BLOCKS - limit / 512 {
        let block = WIDE_BLOCKS - 1 - back;
        if !has_only(values, 512, block, last) {
            return block + 1;
        }
    }
    limit / 512
}

/// Puts the first two blocks of 64. The only error is `AllocError`.
fn put_first_blocks<T: TrieValue>(cells: &mut Vec<T>, values: &[T]) -> Result<(), AllocError>
    requires none { cells.old.items ≡ [] }
    requires values { 128 ≤ length values.now }
    ensures count { IfOk result (λ _. length cells.new.items ≡ 128) }
    ensures stand { IfOk result (λ _. Stands (map T.number values.now) 0 (map T.number cells.new.items) 0 128) }
{
    for slot in 0..128 {
        put_value(cells, values, slot)?;
    }
    Ok(())
}

/// Where the second cells begin.
fn second_start(trie_type: TrieType, wide_end: usize) -> usize
    requires { wide_end ≤ 0x880 }
    ensures { result ≡ second_start trie_type wide_end }
{
    trie_type.first_step() + (wide_end + 31) / 32
}

/// Where the third blocks begin.
fn third_start(trie_type: TrieType, wide_end: usize) -> usize
    requires from { fast_limit trie_type / 512 ≤ wide_end }
    requires to { wide_end ≤ 0x880 }
    ensures { result ≡ third_start trie_type wide_end }
{
    second_start(trie_type, wide_end) + (wide_end - trie_type.fast_limit() as usize / 512)
}

/// How many different blocks of 16 there may be from the fast limit on: 12,000, and all below U+10000.
fn small_room(trie_type: TrieType) -> usize
    ensures { result ≡ small_room trie_type }
{
    match trie_type {
        TrieType::Fast => 12_000,
        TrieType::Small => 15_840,
    }
}

impl Layout {
    /// Puts the values of all code points among the cells, equal blocks once. Refused as `TooLarge`
    /// where more than 800 blocks of 512 are different, or more than 12,000 of 16 from U+10000 on, or
    /// as `Memory`.
    pub(super) fn new<T: TrieValue>(
        alloc: Global,
        cells: &mut Vec<T>,
        values: &[T],
        trie_type: TrieType,
    ) -> Result<Layout, CodePointTrieBuildError>
        requires none { cells.old.items ≡ [] }
        requires all { length values.now ≡ 0x110000 }
        ensures layout { IfOk result (IsLayout (map T.number values.now) (map T.number cells.new.items)) }
        ensures bounds { IfOk result AreBounded }
        ensures trie_type { IfOk result (λ layout. layout.trie_type ≡ trie_type) }
        ensures few { IfOk result (λ layout. AreFew (map T.number values.now) trie_type layout.wide_end (length cells.new.items)) }
        ensures refused { IfErr result (λ e. (e ≡ Memory) ⊎ ((e ≡ TooLarge) × (HasMore 512 (map T.number values.now) (fast_limit trie_type / 512) 0x880 800 ⊎ HasMore 16 (map T.number values.now) (fast_limit trie_type / 16) 0x1_1000 (small_room trie_type)))) }
    {
        let limit = trie_type.fast_limit() as usize;
        put_first_blocks(cells, values)?;
        let fast = slots_of(alloc, cells, values, 64, 2, limit / 64, limit / 64 - 2)?;
        let wide_end = end_of_blocks(values, limit);
        let wide = Compaction::new(alloc, values, 512, limit / 512, wide_end, 800)?;
        let room = small_room(trie_type);
        let small = slots_of(alloc, cells, values, 16, limit / 16, 32 * wide_end, room)?;
        let start = third_start(trie_type, wide_end);
        let blocks = third_blocks(
            alloc,
            start,
            small.as_slice(),
            limit / 512,
            wide.kept.as_slice(),
        )?;
        let seconds = items_at(alloc, blocks.entries.as_slice(), wide.slots.as_slice())?;
        Ok(Layout {
            trie_type,
            wide_end,
            fast,
            seconds,
            thirds: blocks.cells,
        })
    }

    /// The index cell at a slot before the third blocks.
    #[tactic(auto, unfolding(crate::specs::Layouts::index_cell))]
    fn index_cell(&self, slot: usize) -> u16
        requires bounds { AreBounded self.now }
        requires slot { slot < third_start self.now.trie_type self.now.wide_end }
        ensures { result ≡ index_cell self.now slot }
    {
        let limit = self.trie_type.fast_limit() as usize;
        let second = second_start(self.trie_type, self.wide_end);
        let cell = if slot < limit / 64 {
            if slot < 2 {
                64 * slot
            } else {
                self.fast[slot - 2]
            }
        } else if slot < second {
            second - limit / 512 + 32 * (slot - self.trie_type.first_step())
        } else {
            self.seconds[slot - second]
        };
        cell as u16
    }

    /// The index cells before the third blocks. The only error is `AllocError`.
    fn head(&self) -> Result<Vec<u16>, AllocError>
        requires { AreBounded self.now }
        ensures { IfOk result (λ head. HasCells self.now head.items) }
    {
        let mut head = Vec::new(*self.thirds.allocator());
        for slot in 0..third_start(self.trie_type, self.wide_end) {
            head.push(self.index_cell(slot))?;
        }
        Ok(head)
    }

    /// The index cells. The only error is `AllocError`.
    pub(super) fn index(&self) -> Result<Vec<u16>, AllocError>
        requires { AreBounded self.now }
        ensures { IfOk result (λ index. HasIndex self.now index.items) }
    {
        let mut index = self.head()?;
        index.extend_from_slice(self.thirds.as_slice())?;
        Ok(index)
    }

    /// The header of the trie, which has no null blocks.
    pub(super) fn header(&self, null_value: u32) -> CodePointTrieHeader
        requires { AreBounded self.now }
        ensures high_start { result.high_start ≡ self.now.wide_end * 512 }
        ensures shifted { result.shifted12_high_start ≡ (result.high_start + 4095) / 4096 }
        ensures null_value { result.null_value ≡ null_value }
        ensures trie_type { result.trie_type ≡ self.now.trie_type }
    {
        CodePointTrieHeader {
            high_start: (self.wide_end * 512) as u32,
            shifted12_high_start: ((self.wide_end + 7) / 8) as u16,
            index3_null_offset: 0x7fff,
            data_null_offset: 0xf_ffff,
            null_value,
            trie_type: self.trie_type,
        }
    }
}

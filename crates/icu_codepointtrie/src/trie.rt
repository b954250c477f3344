//! The trie itself: its tables, and the cell of a code point.
ghost use Rattle.std.specs.Prelude.{◌≡◌, ℕ, ◌+◌, ◌*◌, ◌/◌, ◌%◌, ◌^◌, ◌<◌, ◌≤◌, IsTrue, List, length, slice_get, IfOk, IfSome, Some, option_map, MatchResult, ◌↔◌};
ghost use Rattle.std.specs.Prelude.{◌&&◌, nat_eq};
ghost use Rattle.std.specs.Cmp.{and_per, on_per, partial_equiv_from_equiv, nat_eq_equiv};
ghost use Rattle.std.specs.Cmp.Lexicographic.{pointwise, lists_per};
ghost use Rattle.icu_codepointtrie.specs.contracts.trie.CodePointTrieHeaderPartialEq.TheImpl.Laws.{laws-law};
ghost use Rattle.icu_codepointtrie.specs.Slots.{fast_limit, first_step, fast_slot, wide_offset, data_offset, small_slot, named_slot, has_cell, value_at, HasFastCells, IsTrie, IsRefused};

use super::value::TrieValue;
use icu_packed_vector::PackedVec;
use std::alloc::{AllocError, Global};
use std::marker::Model;
use thiserror::Error;

/// Which trade between speed and size a trie makes.
#[derive(Clone, Copy, Debug, PartialEq, Eq)]
pub enum TrieType {
    /// Code points below 10000 (hex) are found by one index cell.
    Fast,
    /// Code points below 1000 (hex) are found by one index cell.
    Small,
}

/// What the cells of a trie do not say themselves.
#[derive(Clone, Copy, Debug, PartialEq, Eq)]
pub struct CodePointTrieHeader {
    /// From this code point up to 10FFFF (hex) the value is that of the last cell but one.
    pub high_start: u32,
    /// `high_start` divided by 4,096, rounded up.
    pub shifted12_high_start: u16,
    /// Where the null block of third index cells begins.
    pub index3_null_offset: u16,
    /// Where the null block of data cells begins.
    pub data_null_offset: u32,
    /// The number of the null blocks' value.
    pub null_value: u32,
    /// The trie's type.
    pub trie_type: TrieType,
}

/// Why tables are not those of a trie.
#[derive(Clone, Copy, Debug, PartialEq, Eq, Error)]
pub enum CodePointTrieError {
    /// There is no data cell.
    #[error("no data cell")]
    EmptyDataVector,
    /// There are fewer index cells than the fast limit divided by 64.
    #[error("too few index cells for the code points below the fast limit")]
    IndexTooShortForFastAccess,
    /// A block of 64 below the fast limit ends past the last data cell.
    #[error("a block below the fast limit ends past the last data cell")]
    DataTooShortForFastAccess,
}

/// A map from code points to values, as ICU4X has it. It answers from its cells for any number,
/// past 10FFFF (hex) too.
#[derive(Debug)]
pub struct CodePointTrie<'a, T: TrieValue> {
    header: CodePointTrieHeader,
    index: PackedVec<'a, u16>,
    cells: PackedVec<'a, T>,
}

// (let go of as one, and not part by part, so that what owns one is proved sooner)
impl<T: TrieValue> Drop for CodePointTrie<'_, T> {
    fn drop(self) {
        let CodePointTrie {
            header: _,
            index: _,
            cells: _,
        } = self;
    }
}

impl<'a, T: TrieValue> Model for CodePointTrie<'a, T> {
    ghost use Rattle.icu_codepointtrie.specs.Slots.{TrieTables, IsTrie};

    ghost Value = { TrieTables T };

    ghost view = { λ inside. record { header = inside.header; index = inside.index; cells = inside.cells } };

    ghost invariant = { λ inside. IsTrie (record { header = inside.header; index = inside.index; cells = inside.cells }) };
}

impl TrieType {
    /// From this code point on a slot is found in three steps.
    #[inline]
    pub(super) fn fast_limit(self) -> u32
        ensures { result ≡ fast_limit self }
    {
        match self {
            TrieType::Fast => 0x1_0000,
            TrieType::Small => 0x1000,
        }
    }

    /// Where the first of the three steps begins.
    #[inline]
    pub(super) fn first_step(self) -> usize
        ensures { result ≡ first_step self }
    {
        match self {
            TrieType::Fast => 1020,
            TrieType::Small => 64,
        }
    }
}

/// The slot of a code point below the fast limit.
#[tactic(auto, unfolding(crate::specs::Slots::fast_slot))]
#[inline]
fn fast_slot(index: &PackedVec<'_, u16>, code_point: u32) -> Option<usize>
    ensures { result ≡ fast_slot index.now code_point }
{
    let start = index.get((code_point >> 6) as usize)?;
    Some(start as usize + (code_point & 63) as usize)
}

/// The offset of the data block with this number of eight groups of four blocks, of 18 bits.
#[inline]
fn wide_offset(index: &PackedVec<'_, u16>, groups: usize, number: usize) -> Option<usize>
    requires groups { groups < 2 ^ 15 }
    requires number { number < 32 }
    ensures offset { result ≡ wide_offset index.now groups number }
    ensures bound { IfSome result (λ offset. offset < 2 ^ 18) }
{
    let group = groups + number / 8 * 9;
    let within = number % 8;
    let lower = index.get(group + 1 + within)? as usize;
    let upper = index.at(group) as usize;
    Some((upper >> (14 - 2 * within)) % 4 * 0x1_0000 + lower)
}

/// The offset of the data block with this number of 32.
#[inline]
fn data_offset(index: &PackedVec<'_, u16>, block: u16, number: usize) -> Option<usize>
    requires { number < 32 }
    ensures offset { result ≡ data_offset index.now block number }
    ensures bound { IfSome result (λ offset. offset < 2 ^ 18) }
{
    if block < 0x8000 {
        let offset = index.get(block as usize + number)?;
        Some(offset as usize)
    } else {
        wide_offset(index, (block & 0x7fff) as usize, number)
    }
}

/// The slot of a code point from the fast limit on.
#[tactic(auto, unfolding(crate::specs::Slots::small_slot))]
#[inline]
fn small_slot(trie_type: TrieType, index: &PackedVec<'_, u16>, code_point: u32) -> Option<usize>
    ensures { result ≡ small_slot trie_type index.now code_point }
{
    let second = index.get((code_point >> 14) as usize + trie_type.first_step())?;
    let block = index.get(second as usize + ((code_point >> 9) & 31) as usize)?;
    let start = data_offset(index, block, ((code_point >> 4) & 31) as usize)?;
    Some(start + (code_point & 15) as usize)
}

/// Whether all cells below the fast limit are among the first `count`.
fn has_fast_cells(index: &PackedVec<'_, u16>, blocks: usize, count: usize) -> bool
    requires { blocks ≤ length index.now }
    ensures { IsTrue result ↔ HasFastCells index.now blocks count }
{
    for block in 0..blocks {
        if let Some(start) = index.get(block) {
            if start as usize + 63 >= count {
                return false;
            }
        }
    }
    true
}

impl<'a, T: TrieValue> CodePointTrie<'a, T> {
    /// The trie of these tables. Refused, in this order, as `EmptyDataVector` without a data cell,
    /// as `IndexTooShortForFastAccess` with fewer index cells than the fast limit divided by 64,
    /// and as `DataTooShortForFastAccess` where one of these index cells, plus 63, is past the last
    /// data cell.
    pub fn try_new(
        header: CodePointTrieHeader,
        index: PackedVec<'a, u16>,
        cells: PackedVec<'a, T>,
    ) -> Result<CodePointTrie<'a, T>, CodePointTrieError>
        ensures { MatchResult result
            (λ trie. (trie ≡ record { header = header; index = index.entry; cells = cells.entry }) × IsTrie trie)
            (IsRefused (record { header = header; index = index.entry; cells = cells.entry })) }
    {
        if cells.is_empty() {
            return Err(CodePointTrieError::EmptyDataVector);
        }
        let blocks = (header.trie_type.fast_limit() / 64) as usize;
        if index.len() < blocks {
            return Err(CodePointTrieError::IndexTooShortForFastAccess);
        }
        if !has_fast_cells(&index, blocks, cells.len()) {
            return Err(CodePointTrieError::DataTooShortForFastAccess);
        }
        Ok(CodePointTrie {
            header,
            index,
            cells,
        })
    }

    /// The trie of tables that are a trie's.
    pub(super) fn from_tables(
        header: CodePointTrieHeader,
        index: PackedVec<'a, u16>,
        cells: PackedVec<'a, T>,
    ) -> CodePointTrie<'a, T>
        requires { IsTrie (record { header = header; index = index; cells = cells }) }
        ensures { result ≡ record { header = header; index = index.entry; cells = cells.entry } }
    {
        CodePointTrie {
            header,
            index,
            cells,
        }
    }

    /// The slot that header and index name from the fast limit on, of a trie of this type.
    #[inline]
    fn upper_slot(&self, trie_type: TrieType, code_point: u32) -> Option<usize>
        requires trie_type { self.now.header.trie_type ≡ trie_type }
        requires upper { fast_limit trie_type ≤ code_point }
        ensures { result ≡ named_slot self.now.header self.now.index (length self.now.cells) code_point }
    {
        let count = self.cells.len();
        if code_point > 0x10_FFFF {
            Some(count - 1)
        } else if code_point < self.header.high_start {
            small_slot(trie_type, &self.index, code_point)
        } else if count < 2 {
            None
        } else {
            Some(count - 2)
        }
    }

    /// The slot that header and index name.
    #[inline]
    fn named_slot(&self, code_point: u32) -> Option<usize>
        ensures { result ≡ named_slot self.now.header self.now.index (length self.now.cells) code_point }
    {
        let trie_type = self.header.trie_type;
        if code_point < trie_type.fast_limit() {
            fast_slot(&self.index, code_point)
        } else {
            self.upper_slot(trie_type, code_point)
        }
    }

    /// The value of a number below the fast limit: all such slots are inside, so none is checked.
    #[inline]
    fn fast_value(&self, code_point: u32) -> T
        requires { code_point < fast_limit self.now.header.trie_type }
        ensures value { Some result ≡ value_at self.now code_point }
        ensures is_value { T.is_value result }
    {
        let start = self.index.at((code_point / 64) as usize);
        self.cells.at(start as usize + (code_point % 64) as usize)
    }

    /// The value of a number from the fast limit on, in a trie of this type.
    #[inline]
    fn upper_value(&self, trie_type: TrieType, code_point: u32) -> T
        requires trie_type { self.now.header.trie_type ≡ trie_type }
        requires upper { fast_limit trie_type ≤ code_point }
        ensures value { Some result ≡ value_at self.now code_point }
        ensures is_value { T.is_value result }
    {
        let last = self.cells.len() - 1;
        let slot = match self.upper_slot(trie_type, code_point) {
            Some(slot) if slot <= last => slot,
            _ => last,
        };
        self.cells.at(slot)
    }

    /// The value of a number in a trie of this type. Where the type is a constant, nothing is asked
    /// of it when this runs.
    #[inline]
    pub(super) fn typed_value(&self, trie_type: TrieType, code_point: u32) -> T
        requires { self.now.header.trie_type ≡ trie_type }
        ensures value { Some result ≡ value_at self.now code_point }
        ensures is_value { T.is_value result }
    {
        if code_point < trie_type.fast_limit() {
            self.fast_value(code_point)
        } else {
            self.upper_value(trie_type, code_point)
        }
    }

    /// Whether the trie has a cell for the number: true past 10FFFF (hex). Where it is false,
    /// `get32` answers from the last cell.
    #[inline]
    pub fn has_cell(&self, code_point: u32) -> bool
        ensures { result ≡ has_cell self.now code_point }
    {
        match self.named_slot(code_point) {
            Some(slot) => slot < self.cells.len(),
            None => false,
        }
    }

    /// The value of a number, the last cell's past 10FFFF (hex) and where the trie has no cell.
    #[inline]
    pub fn get32(&self, code_point: u32) -> T
        ensures value { Some result ≡ value_at self.now code_point }
        ensures is_value { T.is_value result }
    {
        self.typed_value(self.header.trie_type, code_point)
    }

    /// The value of a character. What comes below the fast limit is put in place where it is called.
    #[inline(always)]
    pub fn get(&self, character: char) -> T
        ensures value { Some result ≡ value_at self.now character }
        ensures is_value { T.is_value result }
    {
        let code_point = character as u32;
        if code_point < self.header.trie_type.fast_limit() {
            self.fast_value(code_point)
        } else {
            self.distant_value(code_point)
        }
    }

    /// The value of a number from the fast limit on.
    #[inline(never)]
    fn distant_value(&self, code_point: u32) -> T
        requires { fast_limit self.now.header.trie_type ≤ code_point }
        ensures value { Some result ≡ value_at self.now code_point }
        ensures is_value { T.is_value result }
    {
        self.upper_value(self.header.trie_type, code_point)
    }

    /// The number of the value of a number.
    pub fn get32_u32(&self, code_point: u32) -> u32
        ensures { option_map T.number (value_at self.now code_point) ≡ Some result }
    {
        self.get32(code_point).to_u32()
    }

    /// The same trie: borrowed tables are borrowed again, others copied. The only error is
    /// `AllocError`.
    pub fn clone(&self, alloc: Global) -> Result<CodePointTrie<'a, T>, AllocError>
        ensures { IfOk result (λ trie. trie ≡ self.now) }
    {
        let index = self.index.clone(alloc)?;
        let cells = self.cells.clone(alloc)?;
        Ok(CodePointTrie {
            header: self.header,
            index,
            cells,
        })
    }

    /// The trie's type.
    pub(super) fn trie_type(&self) -> TrieType
        ensures { result ≡ self.now.header.trie_type }
    {
        self.header.trie_type
    }

    /// The trie's header.
    pub(super) fn header(&self) -> CodePointTrieHeader
        ensures { result ≡ self.now.header }
    {
        self.header
    }

    /// The trie's index cells.
    pub(super) fn index(&self) -> &PackedVec<'a, u16>
        ensures { result.now ≡ self.now.index }
    {
        &self.index
    }

    /// The trie's data cells.
    pub(super) fn cells(&self) -> &PackedVec<'a, T>
        ensures { result.now ≡ self.now.cells }
    {
        &self.cells
    }
}

impl<T: TrieValue> PartialEq for CodePointTrie<'_, T> {
    ghost eq = { λ a b. (⟦<CodePointTrieHeader as PartialEq>⟧.eq a.header b.header && pointwise nat_eq a.index b.index) && pointwise T.PartialEq.eq a.cells b.cells };

    ghost laws = { and_per
        (and_per (on_per (λ t. t.header) laws-law) (on_per (λ t. t.index) (lists_per (partial_equiv_from_equiv nat_eq_equiv))))
        (on_per (λ t. t.cells) (lists_per T.PartialEq.laws)) };

    fn eq(&self, other: &Self) -> bool {
        self.header == other.header && self.index == other.index && self.cells == other.cells
    }
}

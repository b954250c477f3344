//! The third index blocks of a trie in the making.
ghost use Rattle.std.specs.Prelude.{◌≡◌, ℕ, ◌+◌, ◌-◌, ◌*◌, ◌^◌, ◌<◌, ◌≤◌, ◌↔◌, IsTrue, length, slice_index, IfOk};
ghost use Rattle.icu_codepointtrie.specs.DataCells.{Stands, Grows};
ghost use Rattle.icu_codepointtrie.specs.IndexBlocks.{upper_cell, wide_cell, HasWide, Gives};

use std::alloc::{AllocError, AllocFailed, Global};

/// The third blocks, one for each kept block of 512.
#[derive(Drop)]
pub(super) struct Thirds {
    /// What the second cells have for a block.
    pub(super) entries: Vec<usize>,
    /// The cells of all blocks.
    pub(super) cells: Vec<u16>,
}

/// Whether each of 32 slots fits a cell of 16 bits.
fn are_narrow(slots: &[usize], first: usize) -> bool
    requires { first + 32 ≤ length slots.now }
    ensures { IsTrue result ↔ ((i : ℕ) → i < 32 → slice_index slots.now (first + i) < 2 ^ 16) }
{
    for i in 0..32 {
        if slots[first + i] > 0xffff {
            return false;
        }
    }
    true
}

/// Puts a block of 32 cells. The only error is `AllocError`.
fn put_narrow(cells: &mut Vec<u16>, slots: &[usize], first: usize) -> Result<(), AllocError>
    requires slots { first + 32 ≤ length slots.now }
    requires narrow { (i : ℕ) → i < 32 → slice_index slots.now (first + i) < 2 ^ 16 }
    ensures stands { IfOk result (λ _. Stands slots.now first cells.new.items (length cells.old.items) 32) }
    ensures grown { IfOk result (λ _. Grows cells.old.items cells.new.items 32) }
{
    for i in 0..32 {
        cells.push(slots[first + i] as u16)?;
    }
    Ok(())
}

/// The cell with the upper two bits of eight slots.
fn upper_cell(slots: &[usize], first: usize) -> usize
    requires slots { first + 8 ≤ length slots.now }
    requires small { (i : ℕ) → i < length slots.now → slice_index slots.now i < 2 ^ 18 }
    ensures cell { result ≡ upper_cell slots.now first }
    ensures bound { result < 2 ^ 16 }
{
    let mut cell = 0;
    for number in 0..8 {
        cell = cell * 4 + (slots[first + number] >> 16);
    }
    cell
}

/// A cell of a block of 36.
fn wide_cell(slots: &[usize], first: usize, number: usize) -> usize
    requires number { number < 36 }
    requires slots { first + 32 ≤ length slots.now }
    requires small { (i : ℕ) → i < length slots.now → slice_index slots.now i < 2 ^ 18 }
    ensures cell { result ≡ wide_cell slots.now first number }
    ensures bound { result < 2 ^ 16 }
{
    let group = first + number / 9 * 8;
    match number % 9 {
        0 => upper_cell(slots, group),
        within => slots[group + (within - 1)] % 0x1_0000,
    }
}

/// Puts a block of 36 cells. The only error is `AllocError`.
fn put_wide(cells: &mut Vec<u16>, slots: &[usize], first: usize) -> Result<(), AllocError>
    requires slots { first + 32 ≤ length slots.now }
    requires small { (i : ℕ) → i < length slots.now → slice_index slots.now i < 2 ^ 18 }
    ensures { IfOk result (λ _. HasWide slots.now first cells.old.items cells.new.items 36) }
{
    for number in 0..36 {
        cells.push(wide_cell(slots, first, number) as u16)?;
    }
    Ok(())
}

/// Puts a block, and tells what names it where the blocks begin at `start` in the index. The only
/// error is `AllocError`.
fn put_third(
    cells: &mut Vec<u16>,
    start: usize,
    slots: &[usize],
    first: usize,
) -> Result<usize, AllocError>
    requires slots { first + 32 ≤ length slots.now }
    requires small { (i : ℕ) → i < length slots.now → slice_index slots.now i < 2 ^ 18 }
    requires room { start + length cells.old.items + 36 ≤ 0x8000 }
    ensures gives { IfOk result (λ entry. Gives start cells.new.items entry slots.now first) }
    ensures grown { IfOk result (λ _. Grows cells.old.items cells.new.items 36) }
{
    let entry = start + cells.len();
    if are_narrow(slots, first) {
        put_narrow(cells, slots, first)?;
        Ok(entry)
    } else {
        put_wide(cells, slots, first)?;
        Ok(0x8000 + entry)
    }
}

/// The third blocks of the kept blocks of 512. The slots are those of the blocks of 16 from the
/// first block of 512 on. The only error is `AllocError`.
pub(super) fn third_blocks(
    alloc: Global,
    start: usize,
    slots: &[usize],
    first: usize,
    kept: &[usize],
) -> Result<Thirds, AllocError>
    requires from { (n : ℕ) → n < length kept.now → first ≤ slice_index kept.now n }
    requires slots { (n : ℕ) → n < length kept.now → (slice_index kept.now n - first) * 32 + 32 ≤ length slots.now }
    requires small { (i : ℕ) → i < length slots.now → slice_index slots.now i < 2 ^ 18 }
    requires room { start + 36 * length kept.now ≤ 0x8000 }
    ensures count { IfOk result (λ thirds. length thirds.entries.items ≡ length kept.now) }
    ensures gives { IfOk result (λ thirds. (n : ℕ) → n < length kept.now → Gives start thirds.cells.items (slice_index thirds.entries.items n) slots.now ((slice_index kept.now n - first) * 32)) }
    ensures few { IfOk result (λ thirds. length thirds.cells.items ≤ 36 * length kept.now) }
{
    let mut entries = Vec::new(alloc);
    let mut cells = Vec::new(alloc);
    for block in kept {
        let entry = put_third(&mut cells, start, slots, (*block - first) * 32)?;
        entries.push(entry)?;
    }
    Ok(Thirds { entries, cells })
}

//! The data cells of a trie in the making: blocks of values, each at a slot of its own or where its
//! values stand already.
ghost use Rattle.std.specs.Prelude.{◌≡◌, ℕ, ◌+◌, ◌-◌, ◌*◌, ◌<◌, ◌≤◌, ◌⊎◌, ◌∷◌, [], ◌++◌, IsTrue, ◌↔◌, map, length, slice_index, IfOk, IfErr, IfSome};
ghost use Rattle.icu_codepointtrie.specs.Blocks.{HasMore};
ghost use Rattle.icu_codepointtrie.specs.DataCells.{Stands, Grows, AllStand, TakeFew};
ghost use Rattle.icu_codepointtrie.specs.declared.builder.compaction.CodePointTrieBuildError.TheVariants.{TooLarge, Memory};

use super::super::value::TrieValue;
use super::blocks::number_at;
use super::compaction::{CodePointTrieBuildError, Compaction};
use std::alloc::{AllocError, AllocFailed, Global};

/// Whether `width` cells from the slot on have the values from the first on.
fn stands_at<T: TrieValue>(
    cells: &[T],
    slot: usize,
    values: &[T],
    first: usize,
    width: usize,
) -> bool
    requires { first + width ≤ length values.now }
    ensures { IsTrue result ↔ Stands (map T.number values.now) first (map T.number cells.now) slot width }
{
    if cells.len() < width || cells.len() - width < slot {
        return false;
    }
    for i in 0..width {
        if number_at(cells, slot + i) != number_at(values, first + i) {
            return false;
        }
    }
    true
}

/// How many of the last cells have the values from the first on, at most the width.
fn overlap<T: TrieValue>(cells: &[T], values: &[T], first: usize, width: usize) -> usize
    requires { first + width ≤ length values.now }
    ensures width { result ≤ width }
    ensures cells { result ≤ length cells.now }
    ensures stands { Stands (map T.number values.now) first (map T.number cells.now) (length cells.now - result) result }
    ensures most { (count : ℕ) → result < count → count ≤ width → count ≤ length cells.now → Stands (map T.number values.now) first (map T.number cells.now) (length cells.now - count) count → ⊥ }
{
    let most = width.min(cells.len());
    for missing in 0..most {
        let count = most - missing;
        if stands_at(cells, cells.len() - count, values, first, count) {
            return count;
        }
    }
    0
}

/// The slot of the values from the first on among the first cells, where ASCII stands.
fn front_slot<T: TrieValue>(cells: &[T], values: &[T], first: usize, width: usize) -> Option<usize>
    requires { first + width ≤ length values.now }
    ensures { IfSome result (λ slot. Stands (map T.number values.now) first (map T.number cells.now) slot width) }
{
    if stands_at(cells, 0, values, first, width) {
        return Some(0);
    }
    if stands_at(cells, 64, values, first, width) {
        return Some(64);
    }
    None
}

/// Puts a value after the cells. The only error is `AllocError`.
pub(super) fn put_value<T: TrieValue>(
    cells: &mut Vec<T>,
    values: &[T],
    slot: usize,
) -> Result<(), AllocError>
    requires { slot < length values.now }
    ensures { IfOk result (λ _. map T.number cells.new.items ≡ map T.number cells.old.items ++ slice_index (map T.number values.now) slot ∷ []) }
{
    cells.push(values[slot])?;
    Ok(())
}

/// Puts the values from the first on after the cells, the last `common` of which have the first of
/// them already. The only error is `AllocError`.
fn put_after<T: TrieValue>(
    cells: &mut Vec<T>,
    values: &[T],
    first: usize,
    width: usize,
    common: usize,
) -> Result<usize, AllocError>
    requires values { first + width ≤ length values.now }
    requires common { common ≤ width }
    requires cells { common ≤ length cells.old.items }
    requires stands { Stands (map T.number values.now) first (map T.number cells.old.items) (length cells.old.items - common) common }
    ensures stands { IfOk result (λ slot. Stands (map T.number values.now) first (map T.number cells.new.items) slot width) }
    ensures grown { IfOk result (λ _. Grows (map T.number cells.old.items) (map T.number cells.new.items) width) }
{
    let slot = cells.len() - common;
    for i in common..width {
        put_value(cells, values, first + i)?;
    }
    Ok(slot)
}

/// The slot where the values from the first on stand among the cells. Unless the
/// first cells have them, they are put after the cells, whose end they overlap as far as it agrees.
/// The only error is `AllocError`.
fn put<T: TrieValue>(
    cells: &mut Vec<T>,
    values: &[T],
    first: usize,
    width: usize,
) -> Result<usize, AllocError>
    requires { first + width ≤ length values.now }
    ensures stands { IfOk result (λ slot. Stands (map T.number values.now) first (map T.number cells.new.items) slot width) }
    ensures grown { IfOk result (λ _. Grows (map T.number cells.old.items) (map T.number cells.new.items) width) }
{
    if let Some(slot) = front_slot(cells.as_slice(), values, first, width) {
        return Ok(slot);
    }
    let common = overlap(cells.as_slice(), values, first, width);
    put_after(cells, values, first, width, common)
}

/// Puts blocks, and tells the slot of each. The only error is `AllocError`.
fn put_blocks<T: TrieValue>(
    alloc: Global,
    cells: &mut Vec<T>,
    values: &[T],
    width: usize,
    blocks: &[usize],
) -> Result<Vec<usize>, AllocError>
    requires { (i : ℕ) → i < length blocks.now → slice_index blocks.now i * width + width ≤ length values.now }
    ensures count { IfOk result (λ slots. length slots.items ≡ length blocks.now) }
    ensures stand { IfOk result (λ slots. (i : ℕ) → i < length blocks.now → Stands (map T.number values.now) (slice_index blocks.now i * width) (map T.number cells.new.items) (slice_index slots.items i) width) }
    ensures grown { IfOk result (λ _. Grows (map T.number cells.old.items) (map T.number cells.new.items) (width * length blocks.now)) }
{
    let mut slots = Vec::new(alloc);
    for block in blocks {
        let slot = put(cells, values, *block * width, width)?;
        slots.push(slot)?;
    }
    Ok(slots)
}

/// For each number the item at that slot. The only error is `AllocError`.
pub(super) fn items_at(
    alloc: Global,
    items: &[usize],
    slots: &[usize],
) -> Result<Vec<usize>, AllocError>
    requires { (i : ℕ) → i < length slots.now → slice_index slots.now i < length items.now }
    ensures { IfOk result (λ each. each.items ≡ map (slice_index items.now) slots.now) }
{
    let mut each = Vec::new(alloc);
    for slot in slots {
        each.push(items[*slot])?;
    }
    Ok(each)
}

/// Puts the blocks of a width from the first to before the end, equal ones once, and tells the slot
/// of each. Refused as `TooLarge` where more than the limit are different, or as `Memory`.
pub(super) fn slots_of<T: TrieValue>(
    alloc: Global,
    cells: &mut Vec<T>,
    values: &[T],
    width: usize,
    first: usize,
    end: usize,
    limit: usize,
) -> Result<Vec<usize>, CodePointTrieBuildError>
    requires order { first ≤ end }
    requires whole { (b : ℕ) → b < end → b * width + width ≤ length values.now }
    ensures count { IfOk result (λ slots. length slots.items ≡ end - first) }
    ensures stand { IfOk result (λ slots. AllStand width (map T.number values.now) first end (map T.number cells.new.items) slots.items) }
    ensures grown { IfOk result (λ _. Grows (map T.number cells.old.items) (map T.number cells.new.items) (width * limit)) }
    ensures few { IfOk result (λ _. TakeFew width (map T.number values.now) first end limit (length cells.new.items - length cells.old.items)) }
    ensures refused { IfErr result (λ e. (e ≡ Memory) ⊎ ((e ≡ TooLarge) × HasMore width (map T.number values.now) first end limit)) }
{
    let blocks = Compaction::new(alloc, values, width, first, end, limit)?;
    let slots = put_blocks(alloc, cells, values, width, blocks.kept.as_slice())?;
    Ok(items_at(alloc, slots.as_slice(), blocks.slots.as_slice())?)
}

//! Slots in order, and of those with one key the first.

ghost use Rattle.std.specs.Prelude.{◌≡◌, IfNone, IfSome, OnErr, OnOk, length};
ghost use Rattle.collate_lists.specs.Names.{in_order};
ghost use Rattle.collate_keyed_lines.specs.KeyedLines.{AreInOrder, IsFirstUnordered, is_same, may_follow, turned};
ghost use Rattle.collate_keyed_lines.specs.Slots.{slot_order};
ghost use Rattle.std.specs.List.{dedup};
ghost use Rattle.collate_lists.specs.Names.{is_equal};

use crate::direction::Direction;
use crate::slots::{Bounds, Slot, compare};
use std::alloc::AllocError;
use std::cmp::Ordering;

/// Puts slots in order, those that are equal as they came. Of more than twenty it takes a buffer as long as they are.
///
/// Errors: `AllocError` where memory is refused; they then stand as before.
pub fn sort_slots(
    bytes: &[u8],
    bounds: &[Bounds],
    slots: &mut Vec<Slot>,
    direction: Direction,
) -> Result<(), AllocError>
    ensures sorted { OnOk result (slots.new.items ≡ in_order (turned direction (slot_order bytes.now bounds.now)) slots.old.items) }
    ensures unchanged { OnErr result (slots.new.items ≡ slots.old.items) }
{
    match direction {
        Direction::Ascending => slots.sort_by(|slot, other| compare(bytes, bounds, slot, other)),
        Direction::Descending => slots.sort_by(|slot, other| compare(bytes, bounds, other, slot)),
    }
}

/// Keeps of slots in a row that are equal the first.
pub fn keep_first(bytes: &[u8], bounds: &[Bounds], slots: &mut Vec<Slot>)
    ensures { slots.new.items ≡ dedup (is_same (slot_order bytes.now bounds.now)) slots.old.items }
{
    slots.dedup_by(|slot, kept| says_equal(compare(bytes, bounds, slot, kept)));
}

/// Whether an answer says that two are equal.
fn says_equal(ordering: Ordering) -> bool
    ensures { result ≡ is_equal ordering }
{
    match ordering {
        Ordering::Equal => true,
        Ordering::Less | Ordering::Greater => false,
    }
}

/// The index of the first slot that may not stand after the one before it.
pub fn first_unordered(
    bytes: &[u8],
    bounds: &[Bounds],
    slots: &[Slot],
    direction: Direction,
    unique: bool,
) -> Option<usize>
    ensures none { IfNone result (AreInOrder unique (turned direction (slot_order bytes.now bounds.now)) slots.now (length slots.now)) }
    ensures first { IfSome result (IsFirstUnordered unique (turned direction (slot_order bytes.now bounds.now)) slots.now) }
{
    for index in 1..slots.len() {
        let ordering = compare_in(bytes, bounds, direction, &slots[index - 1], &slots[index]);
        if !follows(unique, ordering) {
            return Some(index);
        }
    }
    None
}

/// How two slots compare where the greater may stand first.
fn compare_in(
    bytes: &[u8],
    bounds: &[Bounds],
    direction: Direction,
    slot: &Slot,
    other: &Slot,
) -> Ordering
    ensures { result ≡ turned direction (slot_order bytes.now bounds.now) slot.now other.now }
{
    match direction {
        Direction::Ascending => compare(bytes, bounds, slot, other),
        Direction::Descending => compare(bytes, bounds, other, slot),
    }
}

/// Whether one may stand after another that compares so with it.
fn follows(unique: bool, ordering: Ordering) -> bool
    ensures { result ≡ may_follow unique ordering }
{
    match ordering {
        Ordering::Less => true,
        Ordering::Equal => !unique,
        Ordering::Greater => false,
    }
}

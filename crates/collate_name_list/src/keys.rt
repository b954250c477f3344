//! Keys among slots: changed for others, and the slots with other keys put among those that keep their order.

ghost use Rattle.std.specs.Prelude.{◌≡◌, ◌+◌, ◌++◌, ◌<◌, ◌∷◌, [], IfOk, OnErr, OnOk, filter, length};
ghost use Rattle.collate_name_list.specs.Keys.{has_kept, is_at_kept, key_before, keys_before, settled_by_key, slot_with_key, slots_with_keys};
ghost use Rattle.collate_name_list.specs.Slots.{AreFronted, slots_of, slots_by_key};

use crate::index_key::IndexKey;
use crate::slots::{Sought, Stored, rank_of_sought, slot_in, stored_in, window_around};
use collate_lists::slot_list::SlotList;
use collate_lists::windows::FrontedSlot;
use std::alloc::{AllocError, Global};
use std::mem;

/// Puts a key, if there is one, in the place of that of a full slot, and that one in its place.
fn swap_key(slot: &mut Option<Stored>, key: &mut Option<IndexKey>)
    ensures slot { slot.new ≡ slot_with_key slot.old key.old }
    ensures key { key.new ≡ key_before slot.old key.old }
{
    if let Some(stored) = slot {
        if let Some(other) = key {
            mem::swap(&mut stored.key, other);
        }
    }
}

/// The same for each slot and the key that is given for it.
fn swap_keys(slots: &mut Vec<Option<Stored>>, keys: &mut Vec<Option<IndexKey>>)
    requires { length slots.old.items ≡ length keys.old.items }
    ensures slots { slots.new.items ≡ slots_with_keys slots.old.items keys.old.items }
    ensures keys { keys.new.items ≡ keys_before slots.old.items keys.old.items }
{
    'slots: for slot in 0..slots.len() {
        swap_key(&mut slots[slot], &mut keys[slot]);
    }
}

/// Whether a slot has the key that it had, where the keys are given that others had.
fn has_kept(keys: &[Option<IndexKey>], slot: usize) -> bool
    ensures { result ≡ has_kept keys.now slot }
{
    match keys.get(slot) {
        Some(key) => key.is_none(),
        None => true,
    }
}

/// Puts a slot after others, if it has the key that it had. An error if memory is refused.
fn keep(
    ranked: &mut SlotList,
    placed: FrontedSlot,
    keys: &[Option<IndexKey>],
) -> Result<(), AllocError>
    ensures { OnOk result (ranked.new ≡ ranked.old ++ filter (is_at_kept keys.now) (placed ∷ [])) }
{
    if has_kept(keys, placed.slot) {
        ranked.push(placed)
    } else {
        Ok(())
    }
}

/// The slots that have the keys that they had, in their order. An error if memory is refused.
fn kept_slots(
    alloc: Global,
    by_key: &SlotList,
    keys: &[Option<IndexKey>],
) -> Result<SlotList, AllocError>
    ensures { IfOk result (λ ranked. ranked ≡ filter (is_at_kept keys.now) by_key.now) }
{
    let mut ranked = SlotList::new(alloc);
    let mut window = by_key.around(0, 0, usize::MAX);
    'ranks: for rank in 0..by_key.len() {
        window = window_around(by_key, window, rank, window.part, usize::MAX);
        let placed = slot_in(window.slots, window.start, rank);
        keep(&mut ranked, placed, keys)?;
    }
    Ok(ranked)
}

/// Puts a slot among others in the order of their keys and themselves, if it is full and hasn't the key that it had. An error
/// if memory is refused.
fn put_in_order(
    slots: &[Option<Stored>],
    slot: usize,
    keys: &[Option<IndexKey>],
    ranked: &mut SlotList,
    count: &mut usize,
) -> Result<(), AllocError>
    requires within { slot < length slots.now }
    requires order { slots_of ranked.old ≡ settled_by_key slots.now keys.now slot }
    requires fronts { AreFronted slots.now ranked.old }
    ensures order { OnOk result (slots_of ranked.new ≡ settled_by_key slots.now keys.now (slot + 1)) }
    ensures fronts { OnOk result (AreFronted slots.now ranked.new) }
{
    if has_kept(keys, slot) {
        return Ok(());
    }
    match stored_in(slots, slot) {
        Some(stored) => {
            let sought = Sought::Slot(&stored.key, slot);
            let rank = rank_of_sought(slots, ranked, &sought, true, count);
            let front = stored.key.front();
            ranked.insert(rank, FrontedSlot { front, slot })
        }
        None => Ok(()),
    }
}

/// The full slots in order of their keys, where that order is given which they had when some had other keys, which are given
/// too. Slots are compared with those alone whose keys changed. An error if memory is refused. The count goes up by one for
/// each comparison of keys.
fn ordered(
    alloc: Global,
    slots: &[Option<Stored>],
    keys: &[Option<IndexKey>],
    by_key: &SlotList,
    count: &mut usize,
) -> Result<SlotList, AllocError>
    requires order { slots_of by_key.now ≡ slots_by_key (slots_with_keys slots.now keys.now) }
    requires fronts { AreFronted (slots_with_keys slots.now keys.now) by_key.now }
    ensures order { IfOk result (λ ranked. slots_of ranked ≡ slots_by_key slots.now) }
    ensures fronts { IfOk result (λ ranked. AreFronted slots.now ranked) }
{
    let mut ranked = kept_slots(alloc, by_key, keys)?;
    'slots: for slot in 0..slots.len() {
        put_in_order(slots, slot, keys, &mut ranked, count)?;
    }
    Ok(ranked)
}

/// Gives slots the keys that are given for them, and answers their new order, which is made beside the old one. An error if
/// memory is refused; the slots are then as before.
pub fn reorder(
    alloc: Global,
    slots: &mut Vec<Option<Stored>>,
    keys: Vec<Option<IndexKey>>,
    by_key: &SlotList,
    count: &mut usize,
) -> Result<SlotList, AllocError>
    requires length { length slots.old.items ≡ length keys.items }
    requires order { slots_of by_key.now ≡ slots_by_key slots.old.items }
    requires fronts { AreFronted slots.old.items by_key.now }
    ensures slots { OnOk result (slots.new.items ≡ slots_with_keys slots.old.items keys.items) }
    ensures order { IfOk result (λ ranked. slots_of ranked ≡ slots_by_key slots.new.items) }
    ensures fronts { IfOk result (λ ranked. AreFronted slots.new.items ranked) }
    ensures unchanged { OnErr result (slots.new.items ≡ slots.old.items) }
{
    let mut keys = keys;
    swap_keys(slots, &mut keys);
    match ordered(alloc, slots.as_slice(), keys.as_slice(), by_key, count) {
        Ok(ranked) => Ok(ranked),
        Err(error) => {
            swap_keys(slots, &mut keys);
            Err(error)
        }
    }
}

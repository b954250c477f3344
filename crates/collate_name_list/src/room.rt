//! Room among slots: the empty ones dropped, and the full ones numbered anew.

ghost use Rattle.std.specs.Prelude.{◌≡◌, ◌+◌, ◌<◌, IfOk, filter, is_some, if◌then◌else◌};
ghost use Rattle.collate_name_list.specs.Room.{numbers_from};

use crate::slots::Stored;
use std::alloc::{AllocError, Global};

/// For each slot, how many before it are full: the slot's number once the empty ones are dropped.
pub fn numbers_of(alloc: Global, slots: &[Option<Stored>]) -> Result<Vec<usize>, AllocError>
    ensures { IfOk result (λ numbers. numbers.items ≡ numbers_from 0 slots.now) }
{
    let mut numbers = Vec::with_capacity(alloc, slots.len())?;
    let mut number = 0;
    for slot in slots {
        numbers.push(number)?;
        number = next_number(number, slot);
    }
    Ok(numbers)
}

/// The number of the slot after one.
fn next_number(number: usize, slot: &Option<Stored>) -> usize
    requires { number < usize.MAX }
    ensures { result ≡ (if is_some slot.now then number + 1 else number) }
{
    if slot.is_some() { number + 1 } else { number }
}

/// Drops the empty slots, and gives their memory back, unless memory for the others is refused.
pub fn drop_empty(slots: &mut Vec<Option<Stored>>)
    ensures { slots.new.items ≡ filter is_some slots.old.items }
{
    slots.retain(|slot| slot.is_some());
    slots.shrink_to_fit();
}

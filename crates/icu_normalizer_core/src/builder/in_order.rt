//! Numbers in the order of their keys, the first of each key.

ghost use Rattle.std.specs.Prelude.{◌≡◌, ◌+◌, ◌/◌, ◌<◌, ◌≤◌, ◌==◌, ℕ, Some, None, cond, length, IfOk, OnOk};
ghost use Rattle.std.specs.BTreeMap.{btree_map_len, get, values, IsOrdered};
ghost use Rattle.std.specs.Option.{option_or};
ghost use Rattle.std.specs.Ordering.{nat_cmp};
ghost use Rattle.icu_normalizer_core.specs.InOrder.{AreFirstsInOrder, HasFirsts};

use std::alloc::{AllocError, Global};
use std::collections::BTreeMap;

/// Notes a number as the first of its key, unless another one is. Fails only if memory is refused.
fn note_first(firsts: &mut BTreeMap<u64, u64>, n: u64, divisor: u64) -> Result<(), AllocError>
    requires { 0 < divisor }
    ensures noted { OnOk result ((key : ℕ) → get nat_cmp firsts.new key ≡ option_or (get nat_cmp firsts.old key) (cond (n / divisor == key) (Some n) None)) }
    ensures few { OnOk result (btree_map_len firsts.new ≤ btree_map_len firsts.old + 1) }
{
    let key = n / divisor;
    if firsts.get(&key).is_none() {
        firsts.insert(key, n)?;
    }
    Ok(())
}

/// The first number of each key. Fails only if memory is refused.
fn first_numbers(
    alloc: Global,
    numbers: &[u64],
    divisor: u64,
) -> Result<BTreeMap<u64, u64>, AllocError>
    requires { 0 < divisor }
    ensures firsts { IfOk result (HasFirsts divisor numbers.now) }
    ensures few { IfOk result (λ firsts. btree_map_len firsts ≤ length numbers.now) }
{
    let mut firsts = BTreeMap::new(alloc);
    for n in numbers {
        note_first(&mut firsts, *n, divisor)?;
    }
    Ok(firsts)
}

/// The values of a map, in the order of their keys. Fails only if memory is refused.
fn values_of(alloc: Global, map: &BTreeMap<u64, u64>) -> Result<Vec<u64>, AllocError>
    ensures values { IfOk result (λ list. list.items ≡ values map.now) }
    ensures ordered { IsOrdered nat_cmp map.now }
{
    map.values().copied().collect(alloc)
}

/// The first number of each key, in the order of the keys. Fails only if memory is refused.
pub(super) fn in_order(alloc: Global, numbers: &[u64], divisor: u64) -> Result<Vec<u64>, AllocError>
    requires { 1 < divisor }
    ensures { IfOk result (λ sorted. AreFirstsInOrder divisor numbers.now sorted.items) }
{
    let firsts = first_numbers(alloc, numbers, divisor)?;
    let sorted = values_of(alloc, &firsts)?;
    Ok(sorted)
}

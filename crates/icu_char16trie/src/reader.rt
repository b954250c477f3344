//! The keys and values of a unit trie, read in order.
ghost use Rattle.std.specs.Prelude.{◌≡◌, ℕ, ℤ, List, true, IsTrue, ◌↔◌, IfOk, Err, map};
ghost use Rattle.icu_char16trie.specs.UnitMaps.{at_node, MapsKey};
ghost use Rattle.icu_char16trie.specs.UnitGrammar.{IsListing, IsUnitTrie, IsWithin};
ghost use Rattle.icu_char16trie.specs.UnitReadingOrder.{StopsAt};
ghost use Rattle.icu_char16trie.specs.declared.reader.error.ReadUnitsError.TheVariants.{BadUnits};

use super::cells::unit_at;
use icu_packed_vector::PackedVec;
use std::alloc::Global;

mod entry_test;
mod error;
mod folds;
mod part;
mod queue;

pub use entry_test::EntryTest;
pub use error::ReadUnitsError;
pub use folds::{KeyFold, fold_keys};
use part::Part;
use queue::Queue;

/// The keys and values in the units of a unit trie, sorted by the units of the keys. No units
/// give the empty list. `BadUnits` where the units break the grammar, where the first node has a
/// value, and where a key has more than `limit` units; the index is that of the value, of the unit
/// that does not rise in its branch or that makes a key too long, or else the end of the units.
/// `Memory` when out of memory: jumps may share nodes, so the list may be far longer than the units.
pub fn read_units(
    alloc: Global,
    units: &PackedVec<'_, u16>,
    limit: usize,
) -> Result<Vec<(Vec<u16>, i32)>, ReadUnitsError>
    ensures listing { IfOk result (λ list. IsListing units.now limit (map (λ entry. (entry.0.items, entry.1)) list.items)) }
    ensures refused { (index : ℕ) → result ≡ Err (BadUnits index) → IsUnitTrie units.now → IsWithin units.now limit → ⊥ }
    ensures index { (index : ℕ) → result ≡ Err (BadUnits index) → StopsAt units.now limit index }
{
    let Some(lead) = unit_at(units, 0) else {
        return Ok(Vec::new(alloc));
    };
    if lead >= 0x40 {
        return Err(ReadUnitsError::BadUnits(0));
    }
    let mut queue = Queue::new(alloc);
    queue.put(Vec::new(alloc), Some(Part::Node(0)))?;
    if let Err(error) = queue.take_all(units, limit) {
        return Err(error);
    }
    Ok(queue.into_entries())
}

/// Whether all keys and values in the units of a unit trie pass a test. No list of them is made. The
/// errors are those of `read_units`.
pub fn all_pass<T: EntryTest>(
    alloc: Global,
    units: &PackedVec<'_, u16>,
    limit: usize,
    test: &T,
) -> Result<bool, ReadUnitsError>
    ensures passed { IfOk result (λ all. IsTrue all ↔ ((key : List ℕ) (number : ℤ) → MapsKey units.now (at_node 0) key number → IsTrue (T.test test.now key number))) }
    ensures grammar { IfOk result (λ all. IsUnitTrie units.now) }
    ensures bound { IfOk result (λ all. IsWithin units.now limit) }
    ensures refused { (index : ℕ) → result ≡ Err (BadUnits index) → IsUnitTrie units.now → IsWithin units.now limit → ⊥ }
    ensures index { (index : ℕ) → result ≡ Err (BadUnits index) → StopsAt units.now limit index }
{
    let Some(lead) = unit_at(units, 0) else {
        return Ok(true);
    };
    if lead >= 0x40 {
        return Err(ReadUnitsError::BadUnits(0));
    }
    let mut queue = Queue::new(alloc);
    queue.put(Vec::new(alloc), Some(Part::Node(0)))?;
    match queue.test_all(units, limit, test) {
        Ok(all) => Ok(all),
        Err(error) => Err(error),
    }
}

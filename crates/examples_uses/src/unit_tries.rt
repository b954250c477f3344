//! Maps from texts: writing keys as a unit trie, and following it by a cursor.
ghost use Rattle.std.specs.Prelude.{◌≡◌, ◌↔◌, ◌<◌, ℕ, ℤ, List, length, Some, IfOk};
ghost use Rattle.icu_collections.specs.Cursors.{IsEntry, IsEntryFrom, IsWholeTrie, units_of};
ghost use Rattle.icu_collections.specs.UnitMaps.{HasValue};
ghost use Rattle.icu_collections.specs.UnitPairs.{Has};
ghost use Rattle.icu_collections.specs.WrittenUnits.{keyed};

use icu_collections::char16trie::{
    Char16Trie, Char16TrieIterator, TrieResult, WriteUnitsError, write_units,
};
use icu_collections_sets::packed_vector::PackedVec;
use std::alloc::Global;

/// The trie of these keys, given in UTF-16 units and rising, with their values.
pub fn trie_of_pairs(
    alloc: Global,
    pairs: &[(&[u16], i32)],
) -> Result<Char16Trie<'static>, WriteUnitsError>
    ensures entries { IfOk result (λ trie. (key : List ℕ) (number : ℤ) → IsEntry trie key number ↔ Has (keyed pairs.now) key number) }
    ensures whole { IfOk result (λ trie. 0 < length pairs.now → IsWholeTrie trie) }
{
    let units = write_units(alloc, pairs)?;
    let packed = PackedVec::from_slice(alloc, units.as_slice())?;
    Ok(Char16Trie::new(packed))
}

/// The value that an answer gives, if it gives one.
fn value_of(answer: TrieResult) -> Option<i32>
    ensures { (number : ℤ) → result ≡ Some number ↔ HasValue answer number }
{
    match answer {
        TrieResult::Intermediate(value) | TrieResult::FinalValue(value) => Some(value),
        TrieResult::NoValue | TrieResult::NoMatch => None,
    }
}

/// The value of the key that is one character, if it is a key. It takes no memory.
pub fn value_of_char(trie: &Char16Trie<'_>, character: char) -> Option<i32>
    ensures { (number : ℤ) → result ≡ Some number ↔ IsEntry trie.now (units_of character) number }
{
    let mut cursor = trie.iter();
    value_of(cursor.next(character))
}

/// The value of a character among the pairs, by way of a trie of them.
pub fn value_through(
    alloc: Global,
    pairs: &[(&[u16], i32)],
    character: char,
) -> Result<Option<i32>, WriteUnitsError>
    ensures { IfOk result (λ value. (number : ℤ) → value ≡ Some number ↔ Has (keyed pairs.now) (units_of character) number) }
{
    let trie = trie_of_pairs(alloc, pairs)?;
    Ok(value_of_char(&trie, character))
}

/// The value of a key of one unit or more from where a cursor stands, if it is a key there. The calls
/// go as deep as the key is long.
fn value_from(mut cursor: Char16TrieIterator<'_>, key: &[u16]) -> Option<i32>
    ensures { 0 < length key.now → (number : ℤ) → result ≡ Some number ↔ IsEntryFrom cursor.entry key.now number }
{
    match key {
        [] => None,
        [unit] => value_of(cursor.next16(*unit)),
        [unit, rest @ ..] => {
            cursor.next16(*unit);
            value_from(cursor, rest)
        }
    }
}

/// The value of a key of one unit or more, if it is a key. It takes no memory.
pub fn value_of_key(trie: &Char16Trie<'_>, key: &[u16]) -> Option<i32>
    ensures { 0 < length key.now → (number : ℤ) → result ≡ Some number ↔ IsEntry trie.now key.now number }
{
    value_from(trie.iter(), key)
}

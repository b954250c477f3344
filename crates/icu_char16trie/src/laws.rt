//! Laws of unit tries.
ghost use Rattle.std.specs.Prelude.{◌≡◌, ◌≢◌, ◌<◌, ℕ, ℤ, ◌↔◌, List, [], ◌++◌, length, Some};
ghost use Rattle.icu_char16trie.specs.Cursors.{Follows, answered, cursor_state, cursor_units, value_of_key};
ghost use Rattle.icu_char16trie.specs.UnitMaps.{at_node, at_state, MapsKey};
ghost use Rattle.icu_char16trie.specs.UnitSteps.{start};
ghost use Rattle.icu_char16trie.specs.UnitGrammar.{IsListing, IsUnitTrie, IsWithin};
ghost use Rattle.icu_char16trie.specs.declared.Char16TrieIterator.{Char16TrieIterator};
ghost use Rattle.icu_char16trie.specs.declared.TrieResult.{TrieResult};
ghost use Rattle.icu_char16trie.specs.UnitPairs.{Has};
ghost use Rattle.icu_char16trie.specs.WrittenUnits.{AreShort, AreWritten};

/// Units that map just the keys that were written, as those of `write_units` do, are read as these
/// pairs and no others, in their order.
pub fn written_pairs_are_read()
    ensures { (pairs list : List (List ℕ × ℤ)) (units : List ℕ) (limit : ℕ)
        → ((key : List ℕ) (number : ℤ) → MapsKey units (at_node 0) key number ↔ Has pairs key number)
        → AreWritten pairs → IsListing units limit list → list ≡ pairs }
{}

/// Such units are not refused by `read_units` for a key that is too long where no key that was
/// written is.
pub fn written_keys_are_within_the_limit()
    ensures { (pairs : List (List ℕ × ℤ)) (units : List ℕ) (limit : ℕ)
        → ((key : List ℕ) (number : ℤ) → MapsKey units (at_node 0) key number ↔ Has pairs key number)
        → AreShort limit pairs → IsWithin units limit }
{}

/// `value_of_key` is the value of the map: from where a cursor starts, and from the first node of
/// units that keep the grammar.
pub fn values_are_those_of_the_map()
    ensures followed { (units key : List ℕ) (number : ℤ) → (value_of_key units key ≡ Some number) ↔ MapsKey units (at_state (start units)) key number }
    ensures spelled { (units key : List ℕ) (number : ℤ) → IsUnitTrie units → (value_of_key units key ≡ Some number) ↔ MapsKey units (at_node 0) key number }
{}

/// A cursor that starts before the first unit, and was given all the units of a key, answers its value.
pub fn cursors_answer_values()
    ensures { (cursor after : Char16TrieIterator) (key : List ℕ) (answer : TrieResult)
        → cursor_state cursor ≡ start (cursor_units cursor) → Follows cursor key answer after → answered answer ≡ value_of_key (cursor_units cursor) key }
{}

/// A cursor that was given one key and then another was given both as one.
pub fn cursors_follow_on()
    ensures { (first second third : Char16TrieIterator) (key rest : List ℕ) (answer last : TrieResult)
        → 0 < length rest → Follows first key answer second → Follows second rest last third → Follows first (key ++ rest) last third }
{}

/// Units that keep the grammar, at least one, keep it and the value of each key when other units
/// follow them.
pub fn values_stay_in_longer_units()
    ensures grammar { (units more : List ℕ) → IsUnitTrie units → units ≢ [] → IsUnitTrie (units ++ more) }
    ensures values { (units more key : List ℕ) → IsUnitTrie units → units ≢ [] → value_of_key (units ++ more) key ≡ value_of_key units key }
{}

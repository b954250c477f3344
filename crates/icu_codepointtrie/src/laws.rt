//! Laws of tries.
ghost use Rattle.std.specs.Prelude.{◌≡◌, ℕ, List, None, Some};
ghost use Rattle.std.specs.Iterator.{YieldsThen};
ghost use Rattle.icu_codepointtrie.specs.CodePointMaps.{CodePointMap, mapped};
ghost use Rattle.icu_codepointtrie.specs.BuiltTries.{IsTrieOf};
ghost use Rattle.icu_codepointtrie.specs.RangeIterators.{ranges_trie, ranges_start};
ghost use Rattle.icu_codepointtrie.specs.MaximalRanges.{AreMaximalFrom, IsRangeStep};
ghost use Rattle.icu_codepointtrie.specs.Slots.{TrieTables, IsTrie, IsRefused};
ghost use Rattle.icu_codepointtrie.specs.TomlTables.{tables_of_text, IsTomlRefused};
ghost use Rattle.icu_codepointtrie.specs.declared.ranges.CodePointMapRange.{CodePointMapRange};
ghost use Rattle.icu_codepointtrie.specs.declared.iterators.CodePointMapRangeIterator.{CodePointMapRangeIterator};
ghost use Rattle.icu_codepointtrie.specs.declared.trie.CodePointTrieError.{CodePointTrieError};
ghost use Rattle.icu_codepointtrie.specs.declared.toml_text.CodePointTrieTomlError.{CodePointTrieTomlError};
ghost use Rattle.icu_codepointtrie.specs.declared.toml_text.CodePointTrieTomlError.TheVariants.{Memory};

use super::value::TrieValue;

/// A walk over all ranges of a built trie gives the maximal ranges of the map: the first begins at
/// 0, the last ends at 10FFFF (hex), none leaves a gap, each has the map's value, and neighbours
/// differ.
pub fn ranges_of_built_tries<T: TrieValue>()
    ensures { (map : CodePointMap T) (start end : CodePointMapRangeIterator T) (ranges : List (CodePointMapRange T)) →
        IsTrieOf map (ranges_trie start) → ranges_start start ≡ 0 → YieldsThen IsRangeStep start ranges None end →
        AreMaximalFrom (mapped map) 0 ranges }
{}

/// The tables of a trie have none of the faults by which `try_new` refuses tables.
pub fn a_trie_is_not_refused<T: TrieValue>()
    ensures { (tables : TrieTables T) (fault : CodePointTrieError) → IsTrie tables → IsRefused tables fault → ⊥ }
{}

/// A text that spells the tables of a trie, as that of `to_toml` does, is refused by `from_toml`
/// only when out of memory.
pub fn the_text_of_a_trie_is_not_refused<T: TrieValue>()
    ensures { (tables : TrieTables T) (text : List ℕ) (error : CodePointTrieTomlError) → IsTrie tables
        → tables_of_text T.of_number text ≡ Some tables → IsTomlRefused (tables_of_text T.of_number text) error → error ≡ Memory }
{}

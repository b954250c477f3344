//! A caller of the law on the ranges of built tries.
ghost use Rattle.std.specs.Prelude.{IfOk};
ghost use Rattle.icu_collections.specs.CodePointMaps.{CodePointMap, mapped};
ghost use Rattle.icu_collections.specs.BuiltTries.{IsTrieOf};
ghost use Rattle.icu_collections.specs.MaximalRanges.{AreMaximalFrom};

use icu_collections::codepointtrie::laws::ranges_of_built_tries;
use icu_collections::codepointtrie::{CodePointMapRange, CodePointTrie, TrieValue};
use std::alloc::{AllocError, Global};

/// The ranges of a trie, in a vector. Of a trie that was built of a map they are the map's maximal
/// ranges: the first begins at 0, the last ends at 10FFFF (hex), none leaves a gap, each has the
/// map's value, and neighbours differ.
pub fn ranges_of<T: TrieValue>(
    alloc: Global,
    trie: &CodePointTrie<'_, T>,
) -> Result<Vec<CodePointMapRange<T>>, AllocError>
    ensures { IfOk result (λ ranges. (map : CodePointMap T) → IsTrieOf map trie.now → AreMaximalFrom (mapped map) 0 ranges.items) }
{
    ranges_of_built_tries::<T>();
    let ranges: Vec<CodePointMapRange<T>> = trie.iter_ranges().collect(alloc)?;
    Ok(ranges)
}

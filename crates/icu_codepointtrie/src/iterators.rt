//! Iterators over the ranges of a trie: all of them, those of one value, or those of one image.

use super::trie::CodePointTrie;
use super::value::TrieValue;
use std::fmt;

mod of_map;
mod of_mapped;
mod of_value;

/// The ranges of one value of a trie in order, from 0 to 10FFFF (hex), each as far as it goes.
#[derive(Debug, Drop)]
pub struct CodePointMapRangeIterator<'a, T: TrieValue> {
    trie: &'a CodePointTrie<'a, T>,
    start: u32,
}

/// The ranges that have one value of a trie in order, each as far as it goes.
#[derive(Debug, Drop)]
pub struct CodePointRangesForValue<'a, T: TrieValue> {
    trie: &'a CodePointTrie<'a, T>,
    value: T,
    start: u32,
}

/// The ranges of a trie whose values a function maps to one, in order, each as far as it goes.
#[derive(Drop)]
pub struct CodePointMappedRanges<'a, T: TrieValue, F> {
    trie: &'a CodePointTrie<'a, T>,
    map: F,
    start: u32,
}

/// Shows the trie and where the next range begins; a function has nothing to show.
impl<T: TrieValue + fmt::Debug, F> fmt::Debug for CodePointMappedRanges<'_, T, F> {
    fn fmt<W: fmt::Write>(&self, f: &mut fmt::Formatter<W>) -> fmt::Result {
        f.debug_struct("CodePointMappedRanges")
            .field("trie", &self.trie)
            .field("start", &self.start)
            .finish_non_exhaustive()
    }
}

//! The walk over all ranges of a trie.
ghost use Rattle.std.specs.Prelude.{◌≡◌, ◌-◌, ◌+◌};
ghost use Rattle.std.specs.Iterator.{at_most};
ghost use Rattle.icu_codepointtrie.specs.Ranges.{IsNextRange};
ghost use Rattle.icu_codepointtrie.specs.RangeIterators.{ranges_trie, ranges_start};

use super::super::ranges::CodePointMapRange;
use super::super::trie::CodePointTrie;
use super::super::value::TrieValue;
use super::CodePointMapRangeIterator;

impl<'a, T: TrieValue> CodePointTrie<'a, T> {
    /// The ranges of one value from 0 to 10FFFF (hex), each as far as it goes.
    pub fn iter_ranges(&self) -> CodePointMapRangeIterator<'_, T>
        ensures trie { ranges_trie result ≡ self.now }
        ensures start { ranges_start result ≡ 0 }
    {
        CodePointMapRangeIterator {
            trie: self,
            start: 0,
        }
    }
}

impl<T: TrieValue> Iterator for CodePointMapRangeIterator<'_, T> {
    type Item = CodePointMapRange<T>;

    ghost next_gives = { λ s r t. (ranges_trie t ≡ ranges_trie s) × IsNextRange (ranges_trie s) (ranges_start s) r (ranges_start t) };

    ghost remaining = { λ s. at_most (0x110000 - ranges_start s) };

    fn next(&mut self) -> Option<CodePointMapRange<T>> {
        let found = self.trie.get_range(self.start)?;
        self.start = found.range.end() + 1;
        Some(found)
    }
}

//! The walk over the ranges of a trie that have one value.
ghost use Rattle.std.specs.Prelude.{◌≡◌, ◌-◌, ◌≤◌, ◌+◌, Some, IfOk, MatchOption};
ghost use Rattle.std.specs.Iterator.{at_most};
ghost use Rattle.icu_codepointtrie.specs.Slots.{value_at};
ghost use Rattle.icu_codepointtrie.specs.Ranges.{IsAbsent, IsNextRangeOf, IsPreimage};
ghost use Rattle.icu_codepointtrie.specs.RangeIterators.{for_value_trie, for_value_value, for_value_start};

use super::super::trie::CodePointTrie;
use super::super::value::TrieValue;
use super::CodePointRangesForValue;
use icu_collections_sets::codepointinvlist::{
    CodePointInversionList, CodePointInversionListBuilder,
};
use std::alloc::{AllocError, Global};
use std::ops::RangeInclusive;

impl<'a, T: TrieValue> CodePointTrie<'a, T> {
    /// The ranges that have this value, each as far as it goes.
    pub fn iter_ranges_for_value(&self, value: T) -> CodePointRangesForValue<'_, T>
        ensures trie { for_value_trie result ≡ self.now }
        ensures value { for_value_value result ≡ value }
        ensures start { for_value_start result ≡ 0 }
    {
        CodePointRangesForValue {
            trie: self,
            value,
            start: 0,
        }
    }

    /// The set of the code points that have this value. The only error is `AllocError`.
    pub fn get_set_for_value(
        &self,
        alloc: Global,
        value: T,
    ) -> Result<CodePointInversionList<'static>, AllocError>
        ensures { IfOk result (IsPreimage self.now value) }
    {
        let mut builder = CodePointInversionListBuilder::new(alloc);
        for range in self.iter_ranges_for_value(value) {
            builder.add_range32(range)?;
        }
        builder.build()
    }

    /// The first code point from this one on that has the value.
    fn first_with_value(&self, start: u32, value: T) -> Option<u32>
        ensures { MatchOption result (IsAbsent self.now start 0x110000 value)
            (λ first. (start ≤ first) × (first ≤ 0x10FFFF) × (value_at self.now first ≡ Some value) × IsAbsent self.now start first value) }
    {
        let mut next = start;
        while next < 0x11_0000 {
            let found = self.get32(next);
            if found.to_u32() == value.to_u32() {
                return Some(next);
            }
            next = self.end_of_range(next, found) + 1;
        }
        None
    }
}

impl<T: TrieValue> Iterator for CodePointRangesForValue<'_, T> {
    type Item = RangeInclusive<u32>;

    ghost next_gives = { λ s r t. (for_value_trie t ≡ for_value_trie s) × (for_value_value t ≡ for_value_value s)
        × IsNextRangeOf (for_value_trie s) (for_value_value s) (for_value_start s) r (for_value_start t) };

    ghost remaining = { λ s. at_most (0x110000 - for_value_start s) };

    fn next(&mut self) -> Option<RangeInclusive<u32>> {
        let Some(first) = self.trie.first_with_value(self.start, self.value) else {
            self.start = 0x11_0000;
            return None;
        };
        let last = self.trie.end_of_range(first, self.value);
        self.start = last + 1;
        Some(RangeInclusive::new(first, last))
    }
}

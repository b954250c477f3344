//! The walk over the ranges of a trie whose values a function maps to one.
ghost use Rattle.std.specs.Prelude.{◌≡◌, ℕ, ◌-◌, ◌≤◌, ◌+◌};
ghost use Rattle.std.specs.Iterator.{at_most};
ghost use Rattle.icu_codepointtrie.specs.MappedRanges.{IsAlike, IsEndOfMapped, IsNextMapped};
ghost use Rattle.icu_codepointtrie.specs.RangeIterators.{mapped_trie, mapped_map, mapped_start};

use super::super::ranges::CodePointMapRange;
use super::super::trie::CodePointTrie;
use super::super::value::TrieValue;
use super::CodePointMappedRanges;
use std::ops::RangeInclusive;

impl<'a, T: TrieValue> CodePointTrie<'a, T> {
    /// The ranges whose values the function maps to one, from 0 to 10FFFF (hex), each as far as it
    /// goes. The function is called up to three times for each range of one value.
    pub fn iter_ranges_mapped<U, F: Fn(T) -> U>(&self, map: F) -> CodePointMappedRanges<'_, T, F>
        requires { F.IsAlwaysCallable map }
        ensures trie { mapped_trie result ≡ self.now }
        ensures map { mapped_map result ≡ map }
        ensures start { mapped_start result ≡ 0 }
    {
        CodePointMappedRanges {
            trie: self,
            map,
            start: 0,
        }
    }

    /// Whether the function maps the value of the code point to what equals this.
    fn is_mapped_alike<U: PartialEq + Drop, F: Fn(T) -> U>(
        &self,
        map: &F,
        code_point: u32,
        mapped: &U,
    ) -> bool
        requires { F.IsAlwaysCallable map.now }
        ensures { IsAlike self.now (F.post map.now) U.eq code_point mapped.now result }
    {
        map(self.get32(code_point)) == *mapped
    }

    /// The last code point that is reached from this one through code points whose values the
    /// function maps to this.
    fn end_of_mapped<U: PartialEq + Drop, F: Fn(T) -> U>(
        &self,
        map: &F,
        start: u32,
        mapped: &U,
    ) -> u32
        requires callable { F.IsAlwaysCallable map.now }
        requires start { start ≤ 0x10FFFF }
        ensures { IsEndOfMapped self.now (F.post map.now) U.eq start mapped.now result }
    {
        let mut end = start;
        while end < 0x10_FFFF {
            if !self.is_mapped_alike(map, end + 1, mapped) {
                return end;
            }
            end = self.end_of_range(end + 1, self.get32(end + 1));
        }
        end
    }
}

impl<T: TrieValue, U: PartialEq + Drop, F: Fn(T) -> U> Iterator
    for CodePointMappedRanges<'_, T, F> {
    type Item = CodePointMapRange<U>;

    ghost can_next = { λ s. F.IsAlwaysCallable (mapped_map s) };

    ghost next_gives = { λ s r t. (mapped_trie t ≡ mapped_trie s) × (mapped_map t ≡ mapped_map s)
        × IsNextMapped (mapped_trie s) (F.post (mapped_map s)) U.eq (mapped_start s) r (mapped_start t) };

    ghost remaining = { λ s. at_most (0x110000 - mapped_start s) };

    fn next(&mut self) -> Option<CodePointMapRange<U>> {
        let start = self.start;
        if start > 0x10_FFFF {
            return None;
        }
        let value = (self.map)(self.trie.get32(start));
        let end = self.trie.end_of_mapped(&self.map, start, &value);
        self.start = end + 1;
        Some(CodePointMapRange {
            range: RangeInclusive::new(start, end),
            value,
        })
    }
}

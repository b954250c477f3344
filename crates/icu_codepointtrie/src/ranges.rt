//! The ranges of code points that have one value.
ghost use Rattle.std.specs.Prelude.{◌≡◌, ◌≤◌, ◌<◌, ◌+◌, Some, IsTrue, ◌↔◌, MatchOption};
ghost use Rattle.icu_codepointtrie.specs.Slots.{TrieTables, value_at};
ghost use Rattle.icu_codepointtrie.specs.Ranges.{IsConstant, IsRangeFrom, IsEndOfRange};

use super::shared_blocks::key_width;
use super::trie::CodePointTrie;
use super::value::TrieValue;
use std::ops::RangeInclusive;

/// Code points one after another with one value.
#[derive(Debug, PartialEq, Eq, Drop)]
pub struct CodePointMapRange<T> {
    /// The code points, from the first to the last.
    pub range: RangeInclusive<u32>,
    /// Their value.
    pub value: T,
}

impl<'a, T: TrieValue> CodePointTrie<'a, T> {
    /// Whether the number has this value.
    pub(super) fn has_value(&self, code_point: u32, value: T) -> bool
        ensures { IsTrue result ↔ (value_at self.now code_point ≡ Some value) }
    {
        self.get32(code_point).to_u32() == value.to_u32()
    }

    /// The last code point that is reached from this one through code points of this value. Of
    /// consecutive blocks that share their index cell one is read.
    pub(super) fn end_of_range(&self, start: u32, value: T) -> u32
        requires start { start ≤ 0x10FFFF }
        requires has_value { value_at self.now start ≡ Some value }
        ensures { IsEndOfRange self.now start value result }
    {
        let limit = self.tail_start();
        let mut next = start + 1;
        let mut uniform = None;
        while next < limit {
            let key = self.block_key(next);
            let end = match key {
                Some(key) => next + key_width(key),
                None => (next / 64 * 64 + 64).min(limit),
            };
            if key.is_none() || key != uniform {
                let stop = self.first_without(next, end, value);
                if stop < end {
                    return stop - 1;
                }
                uniform = key;
            }
            next = end;
        }
        if next > 0x10_FFFF || self.has_value(next, value) {
            0x10_FFFF
        } else {
            next - 1
        }
    }

    /// The range of one value that begins at this code point and goes as far as it can, or `None`
    /// past 10FFFF (hex).
    pub fn get_range(&self, start: u32) -> Option<CodePointMapRange<T>>
        ensures { MatchOption result (0x10FFFF < start) (IsRangeFrom self.now start) }
    {
        if start > 0x10_FFFF {
            return None;
        }
        let value = self.get32(start);
        let end = self.end_of_range(start, value);
        Some(CodePointMapRange {
            range: RangeInclusive::new(start, end),
            value,
        })
    }
}

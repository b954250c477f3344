//! Blocks of code points that are found through one cell of the index: their values are alike, so
//! that a walk reads one of them.
ghost use Rattle.std.specs.Prelude.{◌≡◌, ◌≤◌, ◌<◌, IfSome};
ghost use Rattle.icu_codepointtrie.specs.Slots.{fast_limit};
ghost use Rattle.icu_codepointtrie.specs.SharedBlocks.{key_width, IsKey, IsTail, IsCellTail, IsFirstWithout};

use super::trie::CodePointTrie;
use super::value::TrieValue;

/// How many code points a block with this key has.
pub(super) fn key_width(key: u32) -> u32
    ensures { result ≡ key_width key }
{
    if key < 0x1_0000 { 64 } else { 512 }
}

impl<'a, T: TrieValue> CodePointTrie<'a, T> {
    /// The key of the block that begins at this code point and is found whole through one cell of
    /// the index, or `None` where there is no such block.
    pub(super) fn block_key(&self, code_point: u32) -> Option<u32>
        requires { code_point ≤ 0x10FFFF }
        ensures { IfSome result (IsKey self.now code_point) }
    {
        if code_point < self.trie_type().fast_limit() {
            self.fast_key(code_point)
        } else {
            self.upper_key(code_point)
        }
    }

    /// The key of a block of 64 below the fast limit.
    fn fast_key(&self, code_point: u32) -> Option<u32>
        requires { code_point < fast_limit self.now.header.trie_type }
        ensures { IfSome result (IsKey self.now code_point) }
    {
        if code_point % 64 != 0 {
            return None;
        }
        let start = self.index().get((code_point / 64) as usize)?;
        Some(start as u32)
    }

    /// The key of a block of 512 from the fast limit on, all of it below `high_start`.
    fn upper_key(&self, code_point: u32) -> Option<u32>
        requires from { fast_limit self.now.header.trie_type ≤ code_point }
        requires to { code_point ≤ 0x10FFFF }
        ensures { IfSome result (IsKey self.now code_point) }
    {
        if code_point % 512 != 0 || self.header().high_start < code_point + 512 {
            return None;
        }
        let first = (code_point / 0x4000) as usize + self.trie_type().first_step();
        let second = self.index().get(first)?;
        let block = self
            .index()
            .get(second as usize + (code_point / 512 % 32) as usize)?;
        Some(0x1_0000 + block as u32)
    }

    /// From here on all code points up to 10FFFF (hex) have one value, and the trie has a cell for each
    /// of them or for none: at most 110000 (hex).
    pub fn tail_start(&self) -> u32
        ensures tail { IsTail self.now result }
        ensures cells { IsCellTail self.now result }
        ensures bound { result ≤ 0x110000 }
    {
        self.header()
            .high_start
            .max(self.trie_type().fast_limit())
            .min(0x11_0000)
    }

    /// The first of these code points that does not have the value, or the end.
    pub(super) fn first_without(&self, start: u32, end: u32, value: T) -> u32
        requires { start ≤ end }
        ensures { IsFirstWithout self.now start end value result }
    {
        for code_point in start..end {
            if !self.has_value(code_point, value) {
                return code_point;
            }
        }
        end
    }
}

//! Runs of code points of one value that all have a cell, or of which none has one.
ghost use Rattle.std.specs.Prelude.{◌≡◌, ◌≢◌, ℕ, ◌+◌, ◌<◌, ◌≤◌, true, None, Some, IfSome, IsTrue, ◌↔◌};
ghost use Rattle.icu_codepointtrie.specs.CellRuns.{IsAsSaid, IsFirstOther, IsEndOfCells};
ghost use Rattle.icu_codepointtrie.specs.SharedBlocks.{key_width, IsKey};

use super::shared_blocks::key_width;
use super::trie::CodePointTrie;
use super::value::TrieValue;

/// Whether a block has a key, which is that of the block that was read.
fn is_read(key: Option<u32>, read: Option<u32>) -> bool
    ensures some { result ≡ true → key ≢ None }
    ensures same { result ≡ true → key ≡ read }
{
    match key {
        Some(key) => match read {
            Some(other) => key == other,
            None => false,
        },
        None => false,
    }
}

impl<'a, T: TrieValue> CodePointTrie<'a, T> {
    /// Whether the number has this value, and a cell or none as `owned` says.
    fn is_as_said(&self, code_point: u32, value: T, owned: bool) -> bool
        ensures { IsTrue result ↔ IsAsSaid self.now value owned code_point }
    {
        self.has_value(code_point, value) && self.has_cell(code_point) == owned
    }

    /// The first of these code points that hasn't this value, or has a cell where `owned` says none or none where it
    /// says one; the end where there is no such code point.
    fn first_other(&self, start: u32, end: u32, value: T, owned: bool) -> u32
        requires { start ≤ end }
        ensures { IsFirstOther self.now value owned start end result }
    {
        for code_point in start..end {
            if !self.is_as_said(code_point, value, owned) {
                return code_point;
            }
        }
        end
    }

    /// The end of the block that begins at this code point: that of its key, or else the next multiple of 64 or the
    /// limit, where that comes first.
    fn block_end(&self, key: Option<u32>, start: u32, limit: u32) -> u32
        requires key { IfSome key (IsKey self.now start) }
        requires from { start < limit }
        requires to { limit ≤ 0x110000 }
        ensures after { start < result }
        ensures within { result ≤ 0x110000 }
        ensures width { (k : ℕ) → key ≡ Some k → result ≡ start + key_width k }
    {
        match key {
            Some(key) => start + key_width(key),
            None => (start / 64 * 64 + 64).min(limit),
        }
    }

    /// The end of the longest run from this code point on whose code points have its value, and a cell as it has one
    /// or none: the first code point behind the run, 110000 (hex) where the run goes to the last. Of consecutive
    /// blocks that share their index cell one is read.
    pub fn cells_end(&self, start: u32) -> u32
        requires { start ≤ 0x10FFFF }
        ensures { IsEndOfCells self.now start result }
    {
        let value = self.get32(start);
        let owned = self.has_cell(start);
        let limit = self.tail_start();
        let mut next = start + 1;
        let mut uniform = None;
        while next < limit {
            let key = self.block_key(next);
            let end = self.block_end(key, next, limit);
            if !is_read(key, uniform) {
                let stop = self.first_other(next, end, value, owned);
                if stop < end {
                    return stop;
                }
                uniform = key;
            }
            next = end;
        }
        if next >= 0x11_0000 {
            return next;
        }
        if self.is_as_said(next, value, owned) {
            return 0x11_0000;
        }
        next
    }
}

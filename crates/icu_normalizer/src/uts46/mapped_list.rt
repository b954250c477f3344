//! What one character becomes.

ghost use Rattle.std.specs.Prelude.{◌≡◌, ◌+◌, ◌≤◌, length, option_to_list, take, drop};
ghost use Rattle.std.specs.Iterator.{YieldsFirst, item_count};
ghost use Rattle.icu_normalizer.specs.Uts46.{list_index, list_count};

use icu_packed_vector::PackedVec;
use std::marker::Model;

/// What one character becomes, seen as the list of the characters that are left. Nothing is allocated.
#[derive(Debug, Drop)]
pub(super) struct MappedList<'t> {
    one: Option<char>,
    items: &'t PackedVec<'t, char>,
    next: usize,
    end: usize,
}

impl<'t> Model for MappedList<'t> {
    ghost use Rattle.std.specs.Prelude.{ℕ, ◌-◌, ◌≤◌, List, ◌++◌, length, option_to_list, take, drop};

    ghost Value = { List ℕ };

    ghost view = { λ it. option_to_list it.one ++ take (it.end - it.next) (drop it.next it.items.now) };

    ghost invariant = { λ it. (it.next ≤ it.end) × (it.end ≤ length it.items.now) };
}

impl<'t> MappedList<'t> {
    /// A list of one character, or of none.
    #[inline]
    pub(super) fn one(items: &'t PackedVec<'t, char>, one: Option<char>) -> MappedList<'t>
        ensures { result ≡ option_to_list one }
    {
        MappedList {
            one,
            items,
            next: 0,
            end: 0,
        }
    }

    /// The list that a word names an index of.
    #[inline]
    pub(super) fn listed(items: &'t PackedVec<'t, char>, word: u32) -> MappedList<'t>
        requires { list_index word + list_count word ≤ length items.now }
        ensures { result ≡ take (list_count word) (drop (list_index word) items.now) }
    {
        let next = (word >> 13) as usize;
        let end = next + ((word >> 8) & 0x1f) as usize;
        MappedList {
            one: None,
            items,
            next,
            end,
        }
    }
}

impl Iterator for MappedList<'_> {
    type Item = char;

    ghost next_gives = { YieldsFirst (λ rest. rest) };

    ghost remaining = { item_count (λ rest. rest) };

    #[inline]
    fn next(&mut self) -> Option<char> {
        if let Some(c) = self.one {
            self.one = None;
            return Some(c);
        }
        if self.next == self.end {
            return None;
        }
        let index = self.next;
        self.next = index + 1;
        Some(self.items.at(index))
    }
}

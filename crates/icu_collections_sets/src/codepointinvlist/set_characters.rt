//! The iterator over the characters of a set.
ghost use Rattle.std.specs.Prelude.{◌≡◌, ℕ, ◌<◌, ◌≤◌, ◌%◌, [], ◌∷◌, length, nat_le, nat_lt, ◌&&◌, if◌then◌else◌, MatchOption};
ghost use Rattle.std.specs.Iterator.{YieldsFirst, item_count};
ghost use Rattle.icu_collections_sets.specs.CodePoints.{IsInversionList};
ghost use Rattle.icu_collections_sets.specs.Characters.{characters_of};

use crate::packed_vector::PackedIter;
use std::iter::FusedIterator;
use std::marker::Model;

/// The characters of a set in order, surrogates left out, seen as the list of those that are left.
#[derive(Drop)]
pub struct Chars<'a> {
    // What is left of the current range, and the ranges after it.
    start: u32,
    end: u32,
    edges: PackedIter<'a, u32>,
}

impl<'a> Model for Chars<'a> {
    ghost use Rattle.std.specs.Prelude.{ℕ, List};
    ghost use Rattle.icu_collections_sets.specs.Characters.{characters_left, IsLeft};

    ghost Value = { List ℕ };

    ghost view = { λ inside. characters_left inside.start inside.end inside.edges };

    ghost invariant = { λ inside. IsLeft inside.start inside.end inside.edges };
}

impl<'a> Chars<'a> {
    /// The characters of this inversion list.
    pub(super) fn new(edges: PackedIter<'a, u32>) -> Chars<'a>
        requires { IsInversionList edges }
        ensures { result ≡ characters_of edges.entry }
    {
        Chars {
            start: 0,
            end: 0,
            edges,
        }
    }
}

/// The first code point from this one on that is no surrogate.
fn past_surrogates(code_point: u32) -> u32
    ensures { result ≡ (if nat_le 0xD800 code_point && nat_lt code_point 0xE000 then 0xE000 else code_point) }
{
    if 0xD800 <= code_point && code_point < 0xE000 {
        0xE000
    } else {
        code_point
    }
}

/// The next range, by its edges.
fn next_range(edges: &mut PackedIter<'_, u32>) -> Option<(u32, u32)>
    requires { length edges.old % 2 ≡ 0 }
    ensures { MatchOption result ((edges.old ≡ []) × (edges.new ≡ [])) (λ range. edges.old ≡ range.0 ∷ range.1 ∷ edges.new) }
{
    let start = edges.next()?;
    let end = edges.next()?;
    Some((start, end))
}

impl Iterator for Chars<'_> {
    type Item = char;

    ghost next_gives = { YieldsFirst (λ rest. rest) };

    ghost remaining = { item_count (λ rest. rest) };

    fn next(&mut self) -> Option<char> {
        while past_surrogates(self.start) >= self.end {
            (self.start, self.end) = next_range(&mut self.edges)?;
        }
        let first = past_surrogates(self.start);
        self.start = first + 1;
        char::from_u32(first)
    }
}

impl FusedIterator for Chars<'_> {}

//! The iterators over the ranges of a set.
ghost use Rattle.std.specs.Prelude.{◌≡◌, ℕ, ◌<◌, ◌≤◌, length};
ghost use Rattle.std.specs.Iterator.{YieldsFirstBy, item_count};
ghost use Rattle.icu_collections_sets.specs.CodePoints.{IsInversionList, ranges_of, ends_of};

use crate::packed_vector::PackedIter;
use std::iter::FusedIterator;
use std::marker::Model;
use std::ops::RangeInclusive;

/// The ranges of a set in order, seen as the list of those that are left, each by its first and its
/// last code point.
#[derive(Drop)]
pub struct CodePointRanges<'a> {
    edges: PackedIter<'a, u32>,
}

impl<'a> Model for CodePointRanges<'a> {
    ghost use Rattle.std.specs.Prelude.{ℕ, List, length, ◌≡◌, ◌%◌};
    ghost use Rattle.icu_collections_sets.specs.CodePoints.{Rises, ranges_of};

    ghost Value = { List (ℕ × ℕ) };

    ghost view = { λ inside. ranges_of inside.edges };

    ghost invariant = { λ inside. (length inside.edges % 2 ≡ 0) × Rises 0 inside.edges };
}

impl<'a> CodePointRanges<'a> {
    /// The ranges of this inversion list.
    pub(super) fn new(edges: PackedIter<'a, u32>) -> CodePointRanges<'a>
        requires { IsInversionList edges }
        ensures { result ≡ ranges_of edges.entry }
    {
        CodePointRanges { edges }
    }
}

impl Iterator for CodePointRanges<'_> {
    type Item = RangeInclusive<u32>;

    ghost next_gives = { YieldsFirstBy ends_of (λ rest. rest) };

    ghost remaining = { item_count (λ rest. rest) };

    fn next(&mut self) -> Option<RangeInclusive<u32>> {
        let start = self.edges.next()?;
        let end = self.edges.next()?;
        Some(start..=end - 1)
    }
}

impl FusedIterator for CodePointRanges<'_> {}

impl ExactSizeIterator for CodePointRanges<'_> {
    fn len(&self) -> usize {
        self.edges.len() / 2
    }
}

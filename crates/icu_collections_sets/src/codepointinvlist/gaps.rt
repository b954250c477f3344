//! The iterator over the ranges that a set leaves out.
ghost use Rattle.std.specs.Prelude.{◌≡◌, ℕ, ◌<◌, ◌≤◌, ◌&&◌, nat_lt, not, length, ◌∷◌, ◌%◌, true};
ghost use Rattle.std.specs.Iterator.{YieldsFirstBy, item_count};
ghost use Rattle.icu_collections_sets.specs.CodePoints.{IsInversionList, holds, in_ranges, ends_of};
ghost use Rattle.icu_collections_sets.specs.Gaps.{start_from, AreGapsOf};

use crate::packed_vector::PackedIter;
use std::iter::FusedIterator;
use std::marker::Model;
use std::ops::RangeInclusive;

/// The ranges of code points that a set doesn't hold, in order, seen as the list of those that are
/// left, each by its first and its last code point.
#[derive(Drop)]
pub struct ComplementedRanges<'a> {
    // Where the next range begins, or `None` where none is left.
    start: Option<u32>,
    edges: PackedIter<'a, u32>,
    // Whether the set holds the last code point, so that no range is left after the last edge.
    holds_last: bool,
}

impl<'a> Model for ComplementedRanges<'a> {
    ghost use Rattle.std.specs.Prelude.{ℕ, List};
    ghost use Rattle.icu_collections_sets.specs.Gaps.{gaps, AreGapsFrom, IsLastHeld};

    ghost Value = { List (ℕ × ℕ) };

    ghost view = { λ inside. gaps inside.start inside.edges };

    ghost invariant = { λ inside. AreGapsFrom inside.start inside.edges × IsLastHeld inside.start inside.edges inside.holds_last };
}

/// Where the range begins that a set leaves out after this edge, if there is one.
fn start_of(edge: u32) -> Option<u32>
    ensures { result ≡ start_from edge }
{
    if edge < 0x11_0000 { Some(edge) } else { None }
}

/// Passes the edge where a range of the set ends, and says where the range begins after it that the
/// set leaves out.
fn next_start(edges: &mut PackedIter<'_, u32>) -> Option<u32>
    requires { length edges.old % 2 ≡ 1 }
    ensures { (till : ℕ) × (edges.old ≡ till ∷ edges.new) × (result ≡ start_from till) }
{
    let till = edges.next()?;
    start_of(till)
}

/// The same after the first range of a set that holds the first code point.
fn first_start(edges: &mut PackedIter<'_, u32>) -> Option<u32>
    requires list { IsInversionList edges.old }
    requires first { holds edges.old 0 ≡ true }
    ensures { (till : ℕ) × (edges.old ≡ 0 ∷ till ∷ edges.new) × (result ≡ start_from till) }
{
    let _ = edges.next()?;
    next_start(edges)
}

impl<'a> ComplementedRanges<'a> {
    /// The ranges that this inversion list leaves out.
    pub(super) fn new(
        mut edges: PackedIter<'a, u32>,
        holds_first: bool,
        holds_last: bool,
    ) -> ComplementedRanges<'a>
        requires list { IsInversionList edges }
        requires first { holds_first ≡ holds edges 0 }
        requires last { holds_last ≡ holds edges 0x10FFFF }
        ensures members { (c : ℕ) → in_ranges result c ≡ (nat_lt c 0x110000 && not (holds edges.entry c)) }
        ensures ranges { AreGapsOf edges.entry result }
    {
        if holds_first {
            let start = first_start(&mut edges);
            return ComplementedRanges {
                start,
                edges,
                holds_last,
            };
        }
        ComplementedRanges {
            start: Some(0),
            edges,
            holds_last,
        }
    }
}

impl Iterator for ComplementedRanges<'_> {
    type Item = RangeInclusive<u32>;

    ghost next_gives = { YieldsFirstBy ends_of (λ rest. rest) };

    ghost remaining = { item_count (λ rest. rest) };

    fn next(&mut self) -> Option<RangeInclusive<u32>> {
        let start = self.start?;
        let Some(from) = self.edges.next() else {
            self.start = None;
            return Some(start..=0x10_FFFF);
        };
        self.start = next_start(&mut self.edges);
        Some(start..=from - 1)
    }
}

impl FusedIterator for ComplementedRanges<'_> {}

impl ExactSizeIterator for ComplementedRanges<'_> {
    fn len(&self) -> usize {
        match self.start {
            Some(_) if self.holds_last => self.edges.len() / 2,
            Some(_) => self.edges.len() / 2 + 1,
            None => 0,
        }
    }
}

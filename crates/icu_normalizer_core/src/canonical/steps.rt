//! The mappings of tables: triples of numbers in rising order.

ghost use Rattle.std.specs.Prelude.{◌≡◌, ◌+◌, ◌*◌, ◌^◌, ◌<◌, ◌↔◌, IsTrue, length, slice_index, MatchOption, IfSome};
ghost use Rattle.icu_normalizer_core.specs.CanonicalLists.{AreTriples, listed_step, mapping};
ghost use Rattle.icu_normalizer_core.specs.Triples.{IsUnlisted, IsTripleOf};
ghost use Rattle.icu_normalizer_core.specs.Properties.{mapped_to};

use super::search::first_past;
use crate::decomposed::Decomposed;
use icu_packed_vector::PackedVec;

/// In the place of the second character of a mapping that has but one.
pub(crate) const NO_SECOND: u32 = 0x11_0000;

/// The triple of a character among so many.
pub(crate) fn triple_of(steps: &PackedVec<'_, u32>, c: u32) -> Option<usize>
    requires { AreTriples steps.now }
    ensures index { MatchOption result (IsUnlisted steps.now c) (IsTripleOf steps.now c) }
    ensures fits { IfSome result (λ index. 3 * index + 2 < 2 ^ 64) }
{
    let count = steps.len() / 3;
    let index = first_past(
        count,
        |i|
            requires inside { 3 * i < length steps.now }
            requires fits { 3 * i < 2 ^ 64 }
            ensures { IsTrue result ↔ (slice_index steps.entry.now (3 * i) < c) }
        { steps.at(3 * i) < c },
    );
    if index < count && steps.at(3 * index) == c {
        Some(index)
    } else {
        None
    }
}

/// The mapping that a triple states.
pub(super) fn mapping_at(steps: &PackedVec<'_, u32>, index: usize) -> Decomposed
    requires triples { AreTriples steps.now }
    requires index { 3 * index + 2 < length steps.now }
    requires fits { 3 * index + 2 < 2 ^ 64 }
    ensures { mapped_to result ≡ mapping (slice_index steps.now (3 * index + 1)) (slice_index steps.now (3 * index + 2)) }
{
    let first = steps.at(3 * index + 1);
    let second = steps.at(3 * index + 2);
    let first = char::from_u32(first).unwrap();
    if second == NO_SECOND {
        Decomposed::Singleton(first)
    } else {
        Decomposed::Expansion(first, char::from_u32(second).unwrap())
    }
}

/// The mapping of a character.
pub(super) fn listed_step(steps: &PackedVec<'_, u32>, c: u32) -> Decomposed
    requires { AreTriples steps.now }
    ensures { mapped_to result ≡ listed_step steps.now c }
{
    match triple_of(steps, c) {
        Some(index) => mapping_at(steps, index),
        None => Decomposed::Default,
    }
}

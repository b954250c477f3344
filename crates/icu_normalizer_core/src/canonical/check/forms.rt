//! Whether mappings are triples and pairs are pairs, in rising order.

ghost use Rattle.std.specs.Prelude.{◌+◌, ◌-◌, ◌*◌, ◌/◌, ◌^◌, ◌<◌, ◌↔◌, IsTrue, length};
ghost use Rattle.std.specs.Char.{IsScalar};
ghost use Rattle.icu_normalizer_core.specs.CanonicalLists.{AreTriples, ArePairs};
ghost use Rattle.icu_normalizer_core.specs.Triples.{IsTripleAt, IsPairAt};

use crate::canonical::packing::CODE_LIMIT;
use crate::canonical::steps::NO_SECOND;
use icu_packed_vector::PackedVec;

/// Whether the number is that of a character.
fn is_character(code: u32) -> bool
    ensures { IsTrue result ↔ IsScalar code }
{
    char::from_u32(code).is_some()
}

/// Whether three numbers from an index on are a triple of characters, above the one before.
fn is_triple(steps: &PackedVec<'_, u32>, index: usize) -> bool
    requires inside { 3 * index + 2 < length steps.now }
    requires fits { 3 * index + 2 < 2 ^ 64 }
    ensures { IsTrue result ↔ IsTripleAt steps.now index }
{
    let key = steps.at(3 * index);
    let second = steps.at(3 * index + 2);
    is_character(key)
        && is_character(steps.at(3 * index + 1))
        && (second == NO_SECOND || is_character(second))
        && (index == 0 || steps.at(3 * index - 3) < key)
}

/// Whether mappings are whole triples of characters, which rise.
pub(super) fn are_triples(steps: &PackedVec<'_, u32>) -> bool
    ensures { IsTrue result ↔ AreTriples steps.now }
{
    let count = steps.len() / 3;
    if steps.len() % 3 != 0 {
        return false;
    }
    for index in 0..count {
        if !is_triple(steps, index) {
            return false;
        }
    }
    true
}

/// Whether the number at an index is that of three characters, and its pair's above the one before.
fn is_pair(pairs: &PackedVec<'_, u64>, index: usize) -> bool
    requires { index < length pairs.now }
    ensures { IsTrue result ↔ IsPairAt pairs.now index }
{
    let pair = pairs.at(index);
    let first = pair >> 42;
    let second = (pair >> 21) % CODE_LIMIT;
    let composed = pair % CODE_LIMIT;
    is_character(first as u32)
        && is_character(second as u32)
        && is_character(composed as u32)
        && (index == 0 || pairs.at(index - 1) >> 21 < pair >> 21)
}

/// Whether pairs are three characters each, which rise, no two of one pair.
pub(super) fn are_pairs(pairs: &PackedVec<'_, u64>) -> bool
    ensures { IsTrue result ↔ ArePairs pairs.now }
{
    for index in 0..pairs.len() {
        if !is_pair(pairs, index) {
            return false;
        }
    }
    true
}

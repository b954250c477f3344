//! What the check of canonical tables refuses.

use assertions::assert_same;
use icu_normalizer_core::canonical::{
    CanonicalData, CanonicalDataError, CanonicalFault, CanonicalTables,
};
use icu_packed_vector::PackedVec;
use samples_icu_normalizer::tables::{PAIRS, STEPS, pair, tables};
use std::alloc::Global;

/// Whether tables are refused for this, or accepted where it is `None`.
fn is_judged(alloc: Global, tables: CanonicalTables<'_>, expected: Option<CanonicalFault>) -> bool {
    match CanonicalData::try_new(alloc, tables) {
        Ok(_) => expected.is_none(),
        Err(CanonicalDataError::Fault(fault)) => expected == Some(fault),
        Err(CanonicalDataError::Memory) => false,
    }
}

/// Whether such tables are.
fn are_judged(
    alloc: Global,
    words: &[(u32, u32)],
    steps: &[u32],
    pairs: &[u64],
    expected: Option<CanonicalFault>,
) -> bool {
    match tables(alloc, words, steps, pairs) {
        Some(tables) => is_judged(alloc, tables, expected),
        None => false,
    }
}

/// Words, and what tables with them are refused for.
const WORDS: [((u32, u32), Option<CanonicalFault>); 9] = [
    ((0xe1, 0x180_8061), None),
    ((0xe1, 0xd8ff), Some(CanonicalFault::BadValue('\u{e1}'))),
    ((0xe1, 0), Some(CanonicalFault::BadList('\u{e1}'))),
    ((0xac00, 0), Some(CanonicalFault::BuiltIn('\u{ac00}'))),
    ((0xac01, 0), Some(CanonicalFault::BuiltIn('\u{ac01}'))),
    ((0x10_ffff, 1), Some(CanonicalFault::BadValue('\u{10ffff}'))),
    (
        (0x10_ffff, 0x61),
        Some(CanonicalFault::BadList('\u{10ffff}')),
    ),
    ((0x2ff, 0xd8e6), Some(CanonicalFault::BuiltIn('\u{2ff}'))),
    ((0x308, 0xd8dc), Some(CanonicalFault::BuiltIn('\u{308}'))),
];

/// The first word that is judged otherwise.
fn first_word_judged_otherwise(alloc: Global) -> Option<(u32, u32)> {
    for (word, expected) in WORDS {
        if !are_judged(alloc, &[word], &STEPS, &PAIRS, expected) {
            return Some(word);
        }
    }
    None
}

#[test]
fn words_that_are_refused(rt: HostRuntime) {
    assert_same!(rt; first_word_judged_otherwise(rt.alloc()), None);
}

/// The tables of the worked rows with a word of U+FFFD which says that its list has two characters, where one is left:
/// that which is built in.
fn cut_tables(alloc: Global) -> Option<CanonicalTables<'static>> {
    let mut cut = tables(alloc, &[(0xfffd, 0x1_0001)], &STEPS, &PAIRS)?;
    cut.scalars24 = PackedVec::from_slice(alloc, &['\u{fffd}']).ok()?;
    Some(cut)
}

/// Whether they are refused for this.
fn cut_are_judged(alloc: Global, expected: Option<CanonicalFault>) -> bool {
    match cut_tables(alloc) {
        Some(cut) => is_judged(alloc, cut, expected),
        None => false,
    }
}

#[test]
fn built_in_list_that_ends_outside(rt: HostRuntime) {
    assert!(rt; cut_are_judged(rt.alloc(), Some(CanonicalFault::BuiltIn('\u{fffd}'))));
}

/// Mappings, and what tables with them are refused for.
const MAPPINGS: [(&[u32], CanonicalFault); 4] = [
    (
        &[
            0x61, 0xe1, 0x11_0000, 0xe1, 0x61, 0x301, 0x1ea1, 0x61, 0x323,
        ],
        CanonicalFault::Loop('a'),
    ),
    (
        &[0xe1, 0x61, 0x301, 0x1ea1, 0x61],
        CanonicalFault::BadList('\0'),
    ),
    (
        &[0x1ea1, 0x61, 0x323, 0xe1, 0x61, 0x301],
        CanonicalFault::BadList('\0'),
    ),
    (&[0xe1, 0x61, 0x301], CanonicalFault::BadList('\u{1ea1}')),
];

/// The number of the first of them that are judged otherwise.
fn first_mappings_judged_otherwise(alloc: Global) -> Option<usize> {
    for (number, (steps, expected)) in MAPPINGS.iter().enumerate() {
        if !are_judged(alloc, &[], steps, &PAIRS, Some(*expected)) {
            return Some(number);
        }
    }
    None
}

#[test]
fn mappings_that_are_refused(rt: HostRuntime) {
    assert_same!(rt; first_mappings_judged_otherwise(rt.alloc()), None);
}

/// Pairs that are exchanged, twice the same, of another character, built in, one left out, and the other.
fn pairs_are_judged(alloc: Global) -> bool {
    let other = [PAIRS[0], pair(0x61, 0x323, 0x1ea2)];
    let built_in = [PAIRS[0], pair(0x308, 0x301, 0x344)];
    let order = Some(CanonicalFault::BadPair('\0'));
    has_pairs_judged(alloc, &[PAIRS[1], PAIRS[0]], order)
        && has_pairs_judged(alloc, &[PAIRS[0], PAIRS[0]], order)
        && has_pairs_judged(alloc, &other, Some(CanonicalFault::BadPair('\u{1ea2}')))
        && has_pairs_judged(alloc, &built_in, Some(CanonicalFault::BadPair('\u{344}')))
        && has_pairs_judged(alloc, &PAIRS[1..], Some(CanonicalFault::BadPair('\u{e1}')))
        && has_pairs_judged(alloc, &PAIRS[..1], None)
}

/// Whether tables with these pairs are refused for this, or accepted where it is `None`.
fn has_pairs_judged(alloc: Global, pairs: &[u64], expected: Option<CanonicalFault>) -> bool {
    are_judged(alloc, &[], &STEPS, pairs, expected)
}

#[test]
fn pairs_that_are_refused(rt: HostRuntime) {
    assert!(rt; pairs_are_judged(rt.alloc()));
}

/// Whether tables are accepted, `None` where memory is refused.
fn is_accepted(alloc: Global, tables: CanonicalTables<'_>) -> Option<bool> {
    match CanonicalData::try_new(alloc, tables) {
        Ok(_) => Some(true),
        Err(CanonicalDataError::Fault(_)) => Some(false),
        Err(CanonicalDataError::Memory) => None,
    }
}

/// Whether such tables are.
fn are_accepted(alloc: Global, words: &[(u32, u32)], steps: &[u32], pairs: &[u64]) -> Option<bool> {
    is_accepted(alloc, tables(alloc, words, steps, pairs)?)
}

/// The first bit of a word of which it isn't so that the word is refused when it is inverted, if it is one of the 30 that
/// say something, and accepted if not.
fn first_bit_judged_otherwise(alloc: Global, code_point: u32, word: u32) -> Option<u32> {
    for bit in 0..32u32 {
        let damaged = (code_point, word ^ (1 << bit));
        if are_accepted(alloc, &[damaged], &STEPS, &PAIRS) != Some(bit >= 30) {
            return Some(bit);
        }
    }
    None
}

#[test]
fn words_with_a_bit_inverted(rt: HostRuntime) {
    for (code_point, word) in [(0x61, 0), (0xe1, 0x180_8061), (0x301, 0xd8e6), (0xac00, 1)] {
        assert_same!(rt; first_bit_judged_otherwise(rt.alloc(), code_point, word), None);
    }
}

/// Whether tables are refused where this bit of this number of the mappings is inverted.
fn is_step_refused(alloc: Global, index: usize, bit: u32) -> bool {
    let mut steps = STEPS;
    if let Some(step) = steps.get_mut(index) {
        *step ^= 1u32.wrapping_shl(bit);
    }
    are_accepted(alloc, &[], &steps, &PAIRS) == Some(false)
}

/// Whether they are for each number and bit.
fn each_step_counts(alloc: Global) -> bool {
    for index in 0..6 {
        for bit in 0..32u32 {
            if !is_step_refused(alloc, index, bit) {
                return false;
            }
        }
    }
    true
}

#[test]
fn mappings_with_a_bit_inverted(rt: HostRuntime) {
    assert!(rt; each_step_counts(rt.alloc()));
}

/// Whether tables are refused where this bit of this pair is inverted.
fn is_pair_refused(alloc: Global, index: usize, bit: u32) -> bool {
    let mut pairs = PAIRS;
    if let Some(pair) = pairs.get_mut(index) {
        *pair ^= 1u64.wrapping_shl(bit);
    }
    are_accepted(alloc, &[], &STEPS, &pairs) == Some(false)
}

/// Whether they are for each pair and bit.
fn each_pair_counts(alloc: Global) -> bool {
    for index in 0..2 {
        for bit in 0..64u32 {
            if !is_pair_refused(alloc, index, bit) {
                return false;
            }
        }
    }
    true
}

#[test]
fn pairs_with_a_bit_inverted(rt: HostRuntime) {
    assert!(rt; each_pair_counts(rt.alloc()));
}

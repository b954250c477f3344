//! Keys that ICU4X's own tests ask for, over weights of the root.

use crate::root_weights::ROOT_WEIGHTS;
use assertions::assert_same;
use icu_codepointtrie::TrieType;
use icu_collator::{Collator, KeyError, TooSmall};
use icu_collator_types::options::{CaseLevel, CollatorOptions, CollatorPreferences, Strength};
use samples_icu_collator::compiled::held_tables;
use samples_icu_collator::held::HeldCollation;
use std::alloc::Global;

/// All levels, and the characters.
const IDENTICAL: CollatorOptions = CollatorOptions {
    strength: Some(Strength::Identical),
    alternate_handling: None,
    max_variable: None,
    case_level: None,
};

/// Three levels, and one for case.
const WITH_CASE: CollatorOptions = CollatorOptions {
    strength: Some(Strength::Tertiary),
    case_level: Some(CaseLevel::On),
    ..IDENTICAL
};

/// The key of a text in UTF-16, over a provider's tables.
fn key_over(
    alloc: Global,
    held: &HeldCollation<'static>,
    options: CollatorOptions,
    units: &[u16],
) -> Option<Vec<u8>> {
    let mut key = Vec::new(alloc);
    match Collator::try_new_unstable(alloc, held, CollatorPreferences::default(), options) {
        Ok(collator) => collator
            .as_borrowed()
            .write_sort_key_utf16_to(alloc, units, &mut key)
            .ok()?,
        Err(_) => return None,
    };
    Some(key)
}

/// Whether the key of each text is below that of the next, at the highest strength.
fn keys_rise(alloc: Global, held: &HeldCollation<'static>, texts: &[&[u16]]) -> bool {
    let mut last = Vec::new(alloc);
    for units in texts {
        let Some(key) = key_over(alloc, held, IDENTICAL, units) else {
            return false;
        };
        if last.as_slice() >= key.as_slice() {
            return false;
        }
        last = key;
    }
    true
}

/// What the slice of four bytes answers that the key of a text is written to, over a provider's tables.
fn outcome_over(
    alloc: Global,
    held: &HeldCollation<'static>,
    units: &[u16],
) -> Option<Result<usize, KeyError<TooSmall>>> {
    let mut bytes = [0; 4];
    let mut slice = &mut bytes[..];
    match Collator::try_new_unstable(alloc, held, CollatorPreferences::default(), IDENTICAL) {
        Ok(collator) => Some(
            collator
                .as_borrowed()
                .write_sort_key_utf16_to(alloc, units, &mut slice),
        ),
        Err(_) => None,
    }
}

/// The length that it tells, where it is too short.
fn length_told(alloc: Global, units: &[u16]) -> Option<usize> {
    let held = held_tables(alloc, ROOT_WEIGHTS, TrieType::Small)?;
    match outcome_over(alloc, &held, units) {
        Some(Err(KeyError::Sink(error))) => Some(error.length),
        _ => None,
    }
}

#[test]
fn sort_key_utf16_slice_too_small(rt: HostRuntime) {
    let hello = [0x68, 0x65, 0x6c, 0x6c, 0x6f];
    assert_same!(rt; length_told(rt.alloc(), &hello), Some(24));
}

/// The key of the empty text, over those weights.
fn empty_key(alloc: Global, options: CollatorOptions) -> Option<Vec<u8>> {
    let held = held_tables(alloc, ROOT_WEIGHTS, TrieType::Small)?;
    key_over(alloc, &held, options, &[])
}

#[test]
fn sort_key_case_level_empty(rt: HostRuntime) {
    let key = empty_key(rt.alloc(), WITH_CASE);
    assert!(rt; key.is_some_and(|key| key.as_slice() == [1, 1, 1, 1, 1].as_slice()));
}

/// Whether keys rise in each of some rows of texts, over those weights.
fn rows_rise(alloc: Global, rows: &[&[&[u16]]]) -> bool {
    let Some(held) = held_tables(alloc, ROOT_WEIGHTS, TrieType::Small) else {
        return false;
    };
    for texts in rows {
        if !keys_rise(alloc, &held, texts) {
            return false;
        }
    }
    true
}

#[test]
fn sort_key_fffe_bug_6811(rt: HostRuntime) {
    let among_three: [&[u16]; 4] = [
        &[0xfffe, 1, 2, 3],
        &[1, 0xfffe, 2, 3],
        &[1, 2, 0xfffe, 3],
        &[1, 2, 3, 0xfffe],
    ];
    let among_zeros: [&[u16]; 3] = [&[0xfffe, 0, 0], &[0, 0xfffe, 0], &[0, 0, 0xfffe]];
    let rows: [&[&[u16]]; 2] = [&among_three, &among_zeros];
    assert!(rt; rows_rise(rt.alloc(), &rows));
}

//! The relations that the README of ICU4X's collator states of its options, over records written for them: the weights
//! of its root.

use crate::root_weights::ROOT_WEIGHTS;
use icu_codepointtrie::TrieType;
use icu_collator::Collator;
use icu_collator_types::options::{
    AlternateHandling, CaseLevel, CollatorOptions, CollatorPreferences, Strength,
};
use samples_icu_collator::compiled::held_tables;
use samples_icu_collator::held::HeldCollation;
use std::alloc::Global;
use std::cmp::Ordering;
use std::cmp::Ordering::{Equal, Less};

/// Two texts and how they compare.
type Relation<'a> = (&'a str, &'a str, Ordering);

/// Options that ask for a strength.
const fn at_strength(strength: Strength) -> CollatorOptions {
    CollatorOptions {
        strength: Some(strength),
        alternate_handling: None,
        max_variable: None,
        case_level: None,
    }
}

/// Options that ask for a strength, and what becomes of spaces and punctuation.
const fn with_alternates(strength: Strength, handling: AlternateHandling) -> CollatorOptions {
    CollatorOptions {
        alternate_handling: Some(handling),
        ..at_strength(strength)
    }
}

/// Options that ask for a strength, and whether case has a level of its own.
const fn with_case_level(strength: Strength, case_level: CaseLevel) -> CollatorOptions {
    CollatorOptions {
        case_level: Some(case_level),
        ..at_strength(strength)
    }
}

/// Whether relations hold of a collator over a provider's tables.
fn hold_over(
    alloc: Global,
    held: &HeldCollation<'static>,
    options: CollatorOptions,
    relations: &[Relation<'_>],
) -> bool {
    let preferences = CollatorPreferences::default();
    let Ok(collator) = Collator::try_new_unstable(alloc, held, preferences, options) else {
        return false;
    };
    for (left, right, order) in relations {
        if collator.as_borrowed().compare(alloc, left, right) != Ok(*order) {
            return false;
        }
    }
    true
}

/// Whether relations hold over those weights, each group with its options.
fn hold(alloc: Global, groups: &[(CollatorOptions, &[Relation<'_>])]) -> bool {
    let Some(held) = held_tables(alloc, ROOT_WEIGHTS, TrieType::Fast) else {
        return false;
    };
    for (options, relations) in groups {
        if !hold_over(alloc, &held, *options, relations) {
            return false;
        }
    }
    true
}

#[test]
fn strengths_tell_letters_then_accents_then_case(rt: HostRuntime) {
    let primary: [Relation<'_>; 6] = [
        ("a", "b", Less),
        ("as", "às", Equal),
        ("às", "at", Less),
        ("ao", "Ao", Equal),
        ("Ao", "aò", Equal),
        ("A", "Ⓐ", Equal),
    ];
    let secondary: [Relation<'_>; 6] = [
        ("a", "b", Less),
        ("as", "às", Less),
        ("às", "at", Less),
        ("ao", "Ao", Equal),
        ("Ao", "aò", Less),
        ("A", "Ⓐ", Equal),
    ];
    let tertiary: [Relation<'_>; 6] = [
        ("a", "b", Less),
        ("as", "às", Less),
        ("às", "at", Less),
        ("ao", "Ao", Less),
        ("Ao", "aò", Less),
        ("A", "Ⓐ", Less),
    ];
    let groups: [(CollatorOptions, &[Relation<'_>]); 3] = [
        (at_strength(Strength::Primary), &primary),
        (at_strength(Strength::Secondary), &secondary),
        (at_strength(Strength::Tertiary), &tertiary),
    ];
    assert!(rt; hold(rt.alloc(), &groups));
}

#[test]
fn shifted_tells_spaces_at_the_fourth_level_alone(rt: HostRuntime) {
    let counted: [Relation<'_>; 4] = [
        ("di Silva", "Di Silva", Less),
        ("Di Silva", "diSilva", Less),
        ("diSilva", "U.S.A.", Less),
        ("U.S.A.", "USA", Less),
    ];
    let ignored: [Relation<'_>; 4] = [
        ("di Silva", "diSilva", Equal),
        ("diSilva", "Di Silva", Less),
        ("Di Silva", "U.S.A.", Less),
        ("U.S.A.", "USA", Equal),
    ];
    let told: [Relation<'_>; 4] = [
        ("di Silva", "diSilva", Less),
        ("diSilva", "Di Silva", Less),
        ("Di Silva", "U.S.A.", Less),
        ("U.S.A.", "USA", Less),
    ];
    let plain = with_alternates(Strength::Tertiary, AlternateHandling::NonIgnorable);
    let shifted = with_alternates(Strength::Tertiary, AlternateHandling::Shifted);
    let shifted_to_four = with_alternates(Strength::Quaternary, AlternateHandling::Shifted);
    let groups: [(CollatorOptions, &[Relation<'_>]); 3] = [
        (plain, &counted),
        (shifted, &ignored),
        (shifted_to_four, &told),
    ];
    assert!(rt; hold(rt.alloc(), &groups));
}

#[test]
fn the_case_level_tells_case_behind_accents(rt: HostRuntime) {
    let neither: [Relation<'_>; 3] = [
        ("ⓓⓔⓐⓛ", "DEAL", Equal),
        ("dejavu", "dejAvu", Equal),
        ("dejavu", "déjavu", Equal),
    ];
    let case_alone: [Relation<'_>; 3] = [
        ("ⓓⓔⓐⓛ", "DEAL", Less),
        ("dejavu", "dejAvu", Less),
        ("dejavu", "déjavu", Equal),
    ];
    let both: [Relation<'_>; 3] = [
        ("ⓓⓔⓐⓛ", "DEAL", Less),
        ("dejavu", "dejAvu", Less),
        ("dejavu", "déjavu", Less),
    ];
    let groups: [(CollatorOptions, &[Relation<'_>]); 4] = [
        (with_case_level(Strength::Primary, CaseLevel::Off), &neither),
        (
            with_case_level(Strength::Primary, CaseLevel::On),
            &case_alone,
        ),
        (with_case_level(Strength::Secondary, CaseLevel::On), &both),
        (with_case_level(Strength::Tertiary, CaseLevel::Off), &both),
    ];
    assert!(rt; hold(rt.alloc(), &groups));
}

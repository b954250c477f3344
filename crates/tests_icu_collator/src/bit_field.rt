//! What setters, defaults and conversions do to options with notes, seen through the getters.

use icu_collator_types::options::{
    AlternateHandling, CaseLevel, CollationCaseFirst, CollationNumericOrdering, CollatorOptions,
    CollatorOptionsBitField, CollatorPreferences, MaxVariable, ResolvedCollatorOptions, Strength,
};
use std::process::Abort;

/// The first strength, of each other option the second value, all given.
fn first_given() -> CollatorOptionsBitField {
    let mut options = CollatorOptionsBitField::default();
    options.set_strength(Some(Strength::Primary));
    options.set_max_variable(Some(MaxVariable::Punctuation));
    options.set_alternate_handling(Some(AlternateHandling::Shifted));
    options.set_case_level(Some(true));
    options.set_case_first(Some(CollationCaseFirst::Lower));
    options.set_backward_second_level(Some(true));
    options.set_numeric(Some(true));
    options
}

/// All options given, each of another value than in `first_given`.
fn second_given() -> CollatorOptionsBitField {
    let mut options = CollatorOptionsBitField::default();
    options.set_strength(Some(Strength::Secondary));
    options.set_max_variable(Some(MaxVariable::Symbol));
    options.set_alternate_handling(Some(AlternateHandling::NonIgnorable));
    options.set_case_level(Some(false));
    options.set_case_first(Some(CollationCaseFirst::Upper));
    options.set_backward_second_level(Some(false));
    options.set_numeric(Some(false));
    options
}

/// Which options differ in value, in the order of the fields.
fn differences(a: CollatorOptionsBitField, b: CollatorOptionsBitField) -> [bool; 7] {
    [
        a.strength() != b.strength(),
        a.max_variable() != b.max_variable(),
        a.alternate_handling() != b.alternate_handling(),
        a.case_level() != b.case_level(),
        a.case_first() != b.case_first(),
        a.backward_second_level() != b.backward_second_level(),
        a.numeric() != b.numeric(),
    ]
}

/// Which options have no note: those that take the value of the defaults.
fn without_note(options: CollatorOptionsBitField) -> [bool; 7] {
    let (mut a, mut b) = (options, options);
    a.set_defaults(first_given());
    b.set_defaults(second_given());
    differences(a, b)
}

/// Asserts that options differ in value at most at an index, that they have a note there exactly if
/// `is_given`, and that the other notes are the same.
fn changes_one(
    rt: &impl Abort,
    index: usize,
    before: CollatorOptionsBitField,
    after: CollatorOptionsBitField,
    is_given: bool,
) {
    let values = differences(before, after);
    let (old_notes, new_notes) = (without_note(before), without_note(after));
    for at in 0..7 {
        if at == index {
            assert!(rt; new_notes[at] != is_given, "{index}");
        } else {
            assert!(rt; !values[at], "{index} {at}");
            assert!(rt; old_notes[at] == new_notes[at], "{index} {at}");
        }
    }
}

/// Sets one option, and asserts that it alone changes.
fn sets_strength(rt: &impl Abort, before: CollatorOptionsBitField, value: Option<Strength>) {
    let mut after = before;
    after.set_strength(value);
    assert!(rt; after.strength() == value.unwrap_or(Strength::Primary));
    changes_one(rt, 0, before, after, value.is_some());
}

#[test]
fn strength_changes_alone(rt: HostRuntime) {
    let values = [
        None,
        Some(Strength::Primary),
        Some(Strength::Secondary),
        Some(Strength::Tertiary),
        Some(Strength::Quaternary),
        Some(Strength::Identical),
    ];
    for value in values {
        sets_strength(&rt, CollatorOptionsBitField::default(), value);
        sets_strength(&rt, first_given(), value);
    }
}

/// Sets one option, and asserts that it alone changes.
fn sets_max_variable(rt: &impl Abort, before: CollatorOptionsBitField, value: Option<MaxVariable>) {
    let mut after = before;
    after.set_max_variable(value);
    assert!(rt; after.max_variable() == value.unwrap_or(MaxVariable::Space));
    changes_one(rt, 1, before, after, value.is_some());
}

#[test]
fn max_variable_changes_alone(rt: HostRuntime) {
    let values = [
        None,
        Some(MaxVariable::Space),
        Some(MaxVariable::Punctuation),
        Some(MaxVariable::Symbol),
        Some(MaxVariable::Currency),
    ];
    for value in values {
        sets_max_variable(&rt, CollatorOptionsBitField::default(), value);
        sets_max_variable(&rt, first_given(), value);
    }
}

/// Sets one option, and asserts that it alone changes.
fn sets_alternate_handling(
    rt: &impl Abort,
    before: CollatorOptionsBitField,
    value: Option<AlternateHandling>,
) {
    let mut after = before;
    after.set_alternate_handling(value);
    assert!(rt; after.alternate_handling() == value.unwrap_or(AlternateHandling::NonIgnorable));
    changes_one(rt, 2, before, after, value.is_some());
}

#[test]
fn alternate_handling_changes_alone(rt: HostRuntime) {
    let values = [
        None,
        Some(AlternateHandling::NonIgnorable),
        Some(AlternateHandling::Shifted),
    ];
    for value in values {
        sets_alternate_handling(&rt, CollatorOptionsBitField::default(), value);
        sets_alternate_handling(&rt, first_given(), value);
    }
}

/// Sets one option, and asserts that it alone changes.
fn sets_case_level(rt: &impl Abort, before: CollatorOptionsBitField, value: Option<CaseLevel>) {
    let mut after = before;
    after.set_case_level_from_enum(value);
    assert!(rt; after.case_level() == (value == Some(CaseLevel::On)));
    changes_one(rt, 3, before, after, value.is_some());
}

#[test]
fn case_level_changes_alone(rt: HostRuntime) {
    let values = [None, Some(CaseLevel::Off), Some(CaseLevel::On)];
    for value in values {
        sets_case_level(&rt, CollatorOptionsBitField::default(), value);
        sets_case_level(&rt, first_given(), value);
    }
}

/// Sets one option, and asserts that it alone changes.
fn sets_case_first(
    rt: &impl Abort,
    before: CollatorOptionsBitField,
    value: Option<CollationCaseFirst>,
) {
    let mut after = before;
    after.set_case_first(value);
    assert!(rt; after.case_first() == value.unwrap_or(CollationCaseFirst::False));
    changes_one(rt, 4, before, after, value.is_some());
}

#[test]
fn case_first_changes_alone(rt: HostRuntime) {
    let values = [
        None,
        Some(CollationCaseFirst::False),
        Some(CollationCaseFirst::Lower),
        Some(CollationCaseFirst::Upper),
    ];
    for value in values {
        sets_case_first(&rt, CollatorOptionsBitField::default(), value);
        sets_case_first(&rt, first_given(), value);
    }
}

/// Sets one option, and asserts that it alone changes.
fn sets_backward_second_level(
    rt: &impl Abort,
    before: CollatorOptionsBitField,
    value: Option<bool>,
) {
    let mut after = before;
    after.set_backward_second_level(value);
    assert!(rt; after.backward_second_level() == value.unwrap_or(false));
    changes_one(rt, 5, before, after, value.is_some());
}

#[test]
fn backward_second_level_changes_alone(rt: HostRuntime) {
    let values = [None, Some(false), Some(true)];
    for value in values {
        sets_backward_second_level(&rt, CollatorOptionsBitField::default(), value);
        sets_backward_second_level(&rt, first_given(), value);
    }
}

/// Sets one option, and asserts that it alone changes.
fn sets_numeric(
    rt: &impl Abort,
    before: CollatorOptionsBitField,
    value: Option<CollationNumericOrdering>,
) {
    let mut after = before;
    after.set_numeric_from_enum(value);
    assert!(rt; after.numeric() == (value == Some(CollationNumericOrdering::True)));
    changes_one(rt, 6, before, after, value.is_some());
}

#[test]
fn numeric_changes_alone(rt: HostRuntime) {
    let values = [
        None,
        Some(CollationNumericOrdering::False),
        Some(CollationNumericOrdering::True),
    ];
    for value in values {
        sets_numeric(&rt, CollatorOptionsBitField::default(), value);
        sets_numeric(&rt, first_given(), value);
    }
}

#[test]
fn options_that_ask_for_nothing_take_the_defaults(rt: HostRuntime) {
    let mut options = CollatorOptionsBitField::from(CollatorOptions::default());
    assert!(rt; options.strength() == Strength::Primary);
    options.set_defaults(CollatorOptionsBitField::default());
    assert!(rt; options.strength() == Strength::Tertiary);
}

#[test]
fn masks_follow_strength_and_case(rt: HostRuntime) {
    let mut options = CollatorOptionsBitField::default();
    assert!(rt; options.tertiary_mask() == Some(0x3F3F) && !options.upper_first());
    options.set_case_first(Some(CollationCaseFirst::Lower));
    assert!(rt; options.tertiary_mask() == Some(0xFF3F));
    assert!(rt; !options.upper_first());
    options.set_case_first(Some(CollationCaseFirst::Upper));
    assert!(rt; options.upper_first());
    options.set_case_level(Some(true));
    assert!(rt; options.tertiary_mask() == Some(0x3F3F));
    options.set_strength(Some(Strength::Secondary));
    assert!(rt; options.tertiary_mask() == None);
}

#[test]
fn resolved_options_come_out_again(rt: HostRuntime) {
    let resolved = ResolvedCollatorOptions::from(first_given());
    let asked = CollatorOptions::from(resolved);
    let preferences = CollatorPreferences::from(resolved);
    assert!(rt; asked.strength == Some(Strength::Primary));
    assert!(rt; asked.alternate_handling == Some(AlternateHandling::Shifted));
    assert!(rt; asked.max_variable == Some(MaxVariable::Punctuation));
    assert!(rt; asked.case_level == Some(CaseLevel::On));
    assert!(rt; preferences.locale.is_empty() && preferences.collation_type.is_none());
    assert!(rt; preferences.case_first == Some(CollationCaseFirst::Lower));
    assert!(rt; preferences.numeric_ordering == Some(CollationNumericOrdering::True));
}

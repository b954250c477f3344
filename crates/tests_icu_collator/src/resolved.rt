//! What options resolve to, and the numbers of strengths.

use assertions::assert_same;
use icu_collator_types::options::{
    AlternateHandling, CaseLevel, CollationCaseFirst, CollationNumericOrdering, CollatorOptions,
    CollatorPreferences, FileSettings, MaxVariable, ResolvedCollatorOptions, Strength,
};
use std::process::Abort;

const ASKED: CollatorOptions = CollatorOptions {
    strength: Some(Strength::Identical),
    alternate_handling: Some(AlternateHandling::NonIgnorable),
    max_variable: Some(MaxVariable::Punctuation),
    case_level: Some(CaseLevel::On),
};

const SHIFTED: FileSettings = FileSettings {
    alternate_handling: AlternateHandling::Shifted,
    case_first: CollationCaseFirst::Lower,
    max_variable: MaxVariable::Currency,
};

// Asserts what a caller's options and preferences and a file's settings resolve to.
fn resolves_to(
    rt: &impl Abort,
    options: &CollatorOptions,
    preferences: &CollatorPreferences<'_>,
    settings: &FileSettings,
    want: &ResolvedCollatorOptions,
) {
    let resolved = ResolvedCollatorOptions::resolve(options, preferences, settings);
    let is_same = resolved.strength == want.strength
        && resolved.alternate_handling == want.alternate_handling
        && resolved.case_first == want.case_first
        && resolved.max_variable == want.max_variable
        && resolved.case_level == want.case_level
        && resolved.numeric == want.numeric;
    assert!(rt; is_same, "{resolved:?}");
}

#[test]
fn defaults_resolve_to_tertiary_and_off(rt: HostRuntime) {
    let preferences: CollatorPreferences<'_> = Default::default();
    assert!(rt; preferences.locale.is_empty() && preferences.collation_type.is_none());
    let want = ResolvedCollatorOptions {
        strength: Strength::Tertiary,
        alternate_handling: AlternateHandling::NonIgnorable,
        case_first: CollationCaseFirst::False,
        max_variable: MaxVariable::Space,
        case_level: CaseLevel::Off,
        numeric: CollationNumericOrdering::False,
    };
    resolves_to(
        &rt,
        &CollatorOptions::default(),
        &preferences,
        &Default::default(),
        &want,
    );
}

#[test]
fn the_file_counts_where_nothing_is_asked(rt: HostRuntime) {
    let options: CollatorOptions = Default::default();
    let want = ResolvedCollatorOptions {
        strength: Strength::Tertiary,
        alternate_handling: AlternateHandling::Shifted,
        case_first: CollationCaseFirst::Lower,
        max_variable: MaxVariable::Currency,
        case_level: CaseLevel::Off,
        numeric: CollationNumericOrdering::False,
    };
    resolves_to(&rt, &options, &Default::default(), &SHIFTED, &want);
}

#[test]
fn what_is_asked_counts_before_the_file(rt: HostRuntime) {
    let preferences = CollatorPreferences {
        locale: "da",
        collation_type: None,
        case_first: Some(CollationCaseFirst::Upper),
        numeric_ordering: Some(CollationNumericOrdering::True),
    };
    let want = ResolvedCollatorOptions {
        strength: Strength::Identical,
        alternate_handling: AlternateHandling::NonIgnorable,
        case_first: CollationCaseFirst::Upper,
        max_variable: MaxVariable::Punctuation,
        case_level: CaseLevel::On,
        numeric: CollationNumericOrdering::True,
    };
    resolves_to(&rt, &ASKED, &preferences, &SHIFTED, &want);
}

#[test]
fn strengths_have_their_numbers(rt: HostRuntime) {
    assert_same!(rt; Strength::Primary as u8, 0);
    assert_same!(rt; Strength::Quaternary as u8, 3);
    assert_same!(rt; Strength::Identical as u8, 7);
    assert!(rt; Strength::Identical.is_at_least(Strength::Quaternary));
    assert!(rt; Strength::Secondary.is_at_least(Strength::Secondary));
    assert!(rt; !Strength::Primary.is_at_least(Strength::Secondary));
    assert!(rt; AlternateHandling::NonIgnorable < AlternateHandling::Shifted);
}

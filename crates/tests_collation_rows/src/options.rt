//! The options of a collator, in words with commas between them.

use icu_collator_types::options::{
    AlternateHandling, CaseLevel, CollationCaseFirst, CollationNumericOrdering, CollatorOptions,
    CollatorPreferences, MaxVariable, Strength,
};

/// The strength that a word is.
fn strength(word: &str) -> Option<Strength> {
    match word {
        "primary" => Some(Strength::Primary),
        "secondary" => Some(Strength::Secondary),
        "tertiary" => Some(Strength::Tertiary),
        "quaternary" => Some(Strength::Quaternary),
        "identical" => Some(Strength::Identical),
        _ => None,
    }
}

/// The last variable group that a word is.
fn max_variable(word: &str) -> Option<MaxVariable> {
    match word {
        "space" => Some(MaxVariable::Space),
        "punctuation" => Some(MaxVariable::Punctuation),
        "symbol" => Some(MaxVariable::Symbol),
        "currency" => Some(MaxVariable::Currency),
        _ => None,
    }
}

/// Which case a word says comes first.
fn case_first(word: &str) -> Option<CollationCaseFirst> {
    match word {
        "off" => Some(CollationCaseFirst::False),
        "lower" => Some(CollationCaseFirst::Lower),
        "upper" => Some(CollationCaseFirst::Upper),
        _ => None,
    }
}

/// What words ask of a collator in its options. Other words are for the preferences.
pub fn options_of(words: &str) -> CollatorOptions {
    let mut options = CollatorOptions::default();
    for word in words.split(',') {
        options.strength = strength(word).or(options.strength);
        options.max_variable = max_variable(word).or(options.max_variable);
        match word {
            "shifted" => options.alternate_handling = Some(AlternateHandling::Shifted),
            "nonignorable" => options.alternate_handling = Some(AlternateHandling::NonIgnorable),
            "caselevel" => options.case_level = Some(CaseLevel::On),
            _ => {}
        }
    }
    options
}

/// What words ask of a collator in its preferences.
pub fn preferences_of(words: &str) -> CollatorPreferences<'static> {
    let mut preferences = CollatorPreferences::default();
    for word in words.split(',') {
        preferences.case_first = case_first(word).or(preferences.case_first);
        if word == "numeric" {
            preferences.numeric_ordering = Some(CollationNumericOrdering::True);
        }
    }
    preferences
}

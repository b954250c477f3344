//! The words that give options.

ghost use Rattle.std.specs.Prelude.{◌≡◌, ◌≢◌, MatchOption};
ghost use Rattle.icu_collator_types.specs.declared.options.AlternateHandling.{AlternateHandling};
ghost use Rattle.icu_collator_types.specs.declared.options.CaseLevel.{CaseLevel};
ghost use Rattle.icu_collator_types.specs.declared.options.CollationCaseFirst.{CollationCaseFirst};
ghost use Rattle.icu_collator_types.specs.declared.options.CollationNumericOrdering.{CollationNumericOrdering};
ghost use Rattle.icu_collator_types.specs.declared.options.MaxVariable.{MaxVariable};
ghost use Rattle.icu_collator_types.specs.declared.options.Strength.{Strength};
ghost use Rattle.collate_choice.specs.OptionWords.{case_first_word, case_level_word, handling_word, option_word, ordering_word, strength_word, variable_word};
ghost use Rattle.collate_choice.specs.declared.option_words.GivenOption.{GivenOption};

use icu_collator_types::options::{
    AlternateHandling, CaseLevel, CollationCaseFirst, CollationNumericOrdering, MaxVariable,
    Strength,
};

/// An option with its value, as one word gives it.
#[derive(Clone, Copy)]
pub(crate) enum GivenOption {
    GivenStrength(Strength),
    GivenHandling(AlternateHandling),
    GivenVariable(MaxVariable),
    GivenCaseLevel(CaseLevel),
    GivenCaseFirst(CollationCaseFirst),
    GivenOrdering(CollationNumericOrdering),
}

/// The option that a word gives, if it gives one.
pub(crate) fn parse_option(word: &str) -> Option<GivenOption>
    ensures { MatchOption result
        ((option : GivenOption) → word.now ≢ option_word option)
        (λ option. word.now ≡ option_word option) }
{
    if let Some(strength) = parse_strength(word) {
        Some(GivenOption::GivenStrength(strength))
    } else if let Some(handling) = parse_handling(word) {
        Some(GivenOption::GivenHandling(handling))
    } else if let Some(variable) = parse_variable(word) {
        Some(GivenOption::GivenVariable(variable))
    } else if let Some(level) = parse_case_level(word) {
        Some(GivenOption::GivenCaseLevel(level))
    } else if let Some(first) = parse_case_first(word) {
        Some(GivenOption::GivenCaseFirst(first))
    } else if let Some(ordering) = parse_ordering(word) {
        Some(GivenOption::GivenOrdering(ordering))
    } else {
        None
    }
}

/// The strength that a word gives.
fn parse_strength(word: &str) -> Option<Strength>
    ensures { MatchOption result
        ((strength : Strength) → word.now ≢ strength_word strength)
        (λ strength. word.now ≡ strength_word strength) }
{
    match word {
        "strength=primary" => Some(Strength::Primary),
        "strength=secondary" => Some(Strength::Secondary),
        "strength=tertiary" => Some(Strength::Tertiary),
        "strength=quaternary" => Some(Strength::Quaternary),
        "strength=identical" => Some(Strength::Identical),
        _ => None,
    }
}

/// The alternate handling that a word gives.
fn parse_handling(word: &str) -> Option<AlternateHandling>
    ensures { MatchOption result
        ((handling : AlternateHandling) → word.now ≢ handling_word handling)
        (λ handling. word.now ≡ handling_word handling) }
{
    match word {
        "alternate=nonignorable" => Some(AlternateHandling::NonIgnorable),
        "alternate=shifted" => Some(AlternateHandling::Shifted),
        _ => None,
    }
}

/// The last variable group that a word gives.
fn parse_variable(word: &str) -> Option<MaxVariable>
    ensures { MatchOption result
        ((variable : MaxVariable) → word.now ≢ variable_word variable)
        (λ variable. word.now ≡ variable_word variable) }
{
    match word {
        "maxvariable=space" => Some(MaxVariable::Space),
        "maxvariable=punctuation" => Some(MaxVariable::Punctuation),
        "maxvariable=symbol" => Some(MaxVariable::Symbol),
        "maxvariable=currency" => Some(MaxVariable::Currency),
        _ => None,
    }
}

/// The case level that a word gives.
fn parse_case_level(word: &str) -> Option<CaseLevel>
    ensures { MatchOption result
        ((level : CaseLevel) → word.now ≢ case_level_word level)
        (λ level. word.now ≡ case_level_word level) }
{
    match word {
        "caselevel=off" => Some(CaseLevel::Off),
        "caselevel=on" => Some(CaseLevel::On),
        _ => None,
    }
}

/// Which case comes first, as a word gives it.
fn parse_case_first(word: &str) -> Option<CollationCaseFirst>
    ensures { MatchOption result
        ((first : CollationCaseFirst) → word.now ≢ case_first_word first)
        (λ first. word.now ≡ case_first_word first) }
{
    match word {
        "casefirst=off" => Some(CollationCaseFirst::False),
        "casefirst=lower" => Some(CollationCaseFirst::Lower),
        "casefirst=upper" => Some(CollationCaseFirst::Upper),
        _ => None,
    }
}

/// The numeric ordering that a word gives.
fn parse_ordering(word: &str) -> Option<CollationNumericOrdering>
    ensures { MatchOption result
        ((ordering : CollationNumericOrdering) → word.now ≢ ordering_word ordering)
        (λ ordering. word.now ≡ ordering_word ordering) }
{
    match word {
        "numeric=off" => Some(CollationNumericOrdering::False),
        "numeric=on" => Some(CollationNumericOrdering::True),
        _ => None,
    }
}

//! Options, as they are given one by one.

ghost use Rattle.std.specs.Prelude.{◌≡◌, MatchOption, map, string_bytes};
ghost use Rattle.collate_choice.specs.GivenOptions.{AreWordsOf, has_value, with_value};
ghost use Rattle.collate_choice.specs.declared.given.GivenOptions.{GivenOptions};

use crate::option_words::{GivenOption, parse_option};
use icu_collator_types::options::{
    AlternateHandling, CaseLevel, CollationCaseFirst, CollationNumericOrdering, MaxVariable,
    Strength,
};

/// The values of the options that are given.
#[derive(Clone, Copy)]
pub(crate) struct GivenOptions {
    pub(crate) strength: Option<Strength>,
    pub(crate) alternate_handling: Option<AlternateHandling>,
    pub(crate) max_variable: Option<MaxVariable>,
    pub(crate) case_level: Option<CaseLevel>,
    pub(crate) case_first: Option<CollationCaseFirst>,
    pub(crate) numeric_ordering: Option<CollationNumericOrdering>,
}

/// No option at all.
const NO_OPTIONS: GivenOptions = GivenOptions {
    strength: None,
    alternate_handling: None,
    max_variable: None,
    case_level: None,
    case_first: None,
    numeric_ordering: None,
};

/// The options that words give; `None` where one gives no option, or one that another gave.
pub(crate) fn options_given(words: &[String]) -> Option<GivenOptions>
    ensures { MatchOption result
        ((given : GivenOptions) → ¬ AreWordsOf given (map string_bytes words.now))
        (λ given. AreWordsOf given (map string_bytes words.now)) }
{
    let mut given = NO_OPTIONS;
    for word in words {
        let Some(option) = parse_option(word) else {
            return None;
        };
        if has_value(&given, option) {
            return None;
        }
        given = with_value(given, option);
    }
    Some(given)
}

/// Whether an option has a value already.
fn has_value(given: &GivenOptions, option: GivenOption) -> bool
    ensures { result ≡ has_value given.now option }
{
    match option {
        GivenOption::GivenStrength(_) => given.strength.is_some(),
        GivenOption::GivenHandling(_) => given.alternate_handling.is_some(),
        GivenOption::GivenVariable(_) => given.max_variable.is_some(),
        GivenOption::GivenCaseLevel(_) => given.case_level.is_some(),
        GivenOption::GivenCaseFirst(_) => given.case_first.is_some(),
        GivenOption::GivenOrdering(_) => given.numeric_ordering.is_some(),
    }
}

/// Options with a value more.
fn with_value(given: GivenOptions, option: GivenOption) -> GivenOptions
    ensures { result ≡ with_value given option }
{
    match option {
        GivenOption::GivenStrength(strength) => GivenOptions {
            strength: Some(strength),
            ..given
        },
        GivenOption::GivenHandling(handling) => GivenOptions {
            alternate_handling: Some(handling),
            ..given
        },
        GivenOption::GivenVariable(variable) => GivenOptions {
            max_variable: Some(variable),
            ..given
        },
        GivenOption::GivenCaseLevel(level) => GivenOptions {
            case_level: Some(level),
            ..given
        },
        GivenOption::GivenCaseFirst(first) => GivenOptions {
            case_first: Some(first),
            ..given
        },
        GivenOption::GivenOrdering(ordering) => GivenOptions {
            numeric_ordering: Some(ordering),
            ..given
        },
    }
}

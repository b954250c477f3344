//! What the words ask for that the program `collate` was given after its name: a records file, and options.
#![tactic(auto)]

ghost use Rattle.std.specs.Prelude.{◌≡◌, MatchOption, map, string_bytes};

mod given;
mod option_words;

use given::options_given;
use icu_collator_types::options::{CollatorOptions, CollatorPreferences};

/// What the words of the program ask for: a records file, and options.
#[derive(Clone, Copy, Debug)]
pub struct Choice<'a> {
    /// The path of the records file.
    pub file: &'a str,
    /// The preferences, of which case first and numeric ordering may be given.
    pub prefs: CollatorPreferences<'a>,
    /// The options.
    pub options: CollatorOptions,
}

impl<'a> Choice<'a> {
    ghost use Rattle.collate_choice.specs.Choices.{IsChoice};
    ghost use Rattle.collate_choice.specs.declared.Choice.{Choice};

    /// Reads the words of the program: FILE, then words `OPTION=VALUE` in any order, of which each option has at most one
    /// (README.md, "The program"). `None` for any other words. It takes no memory.
    pub fn read(words: &'a [String]) -> Option<Choice<'a>>
        ensures { MatchOption result
            ((choice : Choice) → ¬ IsChoice (map string_bytes words.now) choice)
            (IsChoice (map string_bytes words.now)) }
    {
        let (file, rest) = words.split_first()?;
        let Some(given) = options_given(rest) else {
            return None;
        };
        Some(Choice {
            file: file.as_str(),
            prefs: CollatorPreferences {
                locale: "",
                collation_type: None,
                case_first: given.case_first,
                numeric_ordering: given.numeric_ordering,
            },
            options: CollatorOptions {
                strength: given.strength,
                alternate_handling: given.alternate_handling,
                max_variable: given.max_variable,
                case_level: given.case_level,
            },
        })
    }
}

//! Each word of the program that gives an option, alone: what is chosen by it.

use crate::commands::words_of;
use assertions::assert_same;
use collate_run::choice::Choice;
use icu_collator_types::options::{
    AlternateHandling, CaseLevel, CollationCaseFirst, CollationNumericOrdering, CollatorOptions,
    MaxVariable, Strength,
};
use std::alloc::Global;
use std::test::Fail;

/// The options that a word chooses after FILE.
fn options_by(alloc: Global, word: &str) -> Result<CollatorOptions, Fail> {
    let words = words_of(alloc, &["a.records", word])?;
    let choice = Choice::read(&words).ok_or("no choice")?;
    Ok(choice.options)
}

#[test]
fn each_strength_and_variable_has_a_word(rt: HostRuntime) -> Result<(), Fail> {
    let strengths = [
        ("strength=primary", Strength::Primary),
        ("strength=secondary", Strength::Secondary),
        ("strength=tertiary", Strength::Tertiary),
        ("strength=quaternary", Strength::Quaternary),
        ("strength=identical", Strength::Identical),
    ];
    for (word, strength) in strengths {
        let options = options_by(rt.alloc(), word)?;
        assert_same!(rt; options.strength, Some(strength));
        assert_same!(rt; options.max_variable, None);
    }
    let variables = [
        ("maxvariable=space", MaxVariable::Space),
        ("maxvariable=punctuation", MaxVariable::Punctuation),
        ("maxvariable=symbol", MaxVariable::Symbol),
        ("maxvariable=currency", MaxVariable::Currency),
    ];
    for (word, variable) in variables {
        let options = options_by(rt.alloc(), word)?;
        assert_same!(rt; options.max_variable, Some(variable));
        assert_same!(rt; options.strength, None);
    }
    Ok(())
}

#[test]
fn each_handling_and_case_level_has_a_word(rt: HostRuntime) -> Result<(), Fail> {
    let handlings = [
        ("alternate=nonignorable", AlternateHandling::NonIgnorable),
        ("alternate=shifted", AlternateHandling::Shifted),
    ];
    for (word, handling) in handlings {
        let options = options_by(rt.alloc(), word)?;
        assert_same!(rt; options.alternate_handling, Some(handling));
    }
    for (word, level) in [
        ("caselevel=off", CaseLevel::Off),
        ("caselevel=on", CaseLevel::On),
    ] {
        let options = options_by(rt.alloc(), word)?;
        assert_same!(rt; options.case_level, Some(level));
    }
    Ok(())
}

#[test]
fn each_case_and_ordering_has_a_word(rt: HostRuntime) -> Result<(), Fail> {
    let cases = [
        ("casefirst=off", CollationCaseFirst::False),
        ("casefirst=lower", CollationCaseFirst::Lower),
        ("casefirst=upper", CollationCaseFirst::Upper),
    ];
    for (word, case) in cases {
        let words = words_of(rt.alloc(), &["a.records", word])?;
        let choice = Choice::read(&words).ok_or("no choice")?;
        assert_same!(rt; choice.prefs.case_first, Some(case));
    }
    let orderings = [
        ("numeric=off", CollationNumericOrdering::False),
        ("numeric=on", CollationNumericOrdering::True),
    ];
    for (word, ordering) in orderings {
        let words = words_of(rt.alloc(), &["a.records", word])?;
        let choice = Choice::read(&words).ok_or("no choice")?;
        assert_same!(rt; choice.prefs.numeric_ordering, Some(ordering));
    }
    Ok(())
}

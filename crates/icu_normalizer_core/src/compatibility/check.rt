//! The check of compatibility tables: one walk over the code points finds the least character of each kind of fault.

ghost use Rattle.std.specs.Prelude.{MatchOption};
ghost use Rattle.icu_normalizer_core.specs.CanonicalFaults.{IsAccepted};
ghost use Rattle.icu_normalizer_core.specs.CanonicalMeaning.{lists_of};
ghost use Rattle.icu_normalizer_core.specs.CompatibilityFaults.{AreAcceptedWords, IsFirstWordFault};
ghost use Rattle.icu_normalizer_core.specs.Words.{word_lists};

mod fixed;
mod full_list_tests;
pub(super) mod steady;
mod values;
mod walk;

use crate::canonical::canonical_words::Words;
use crate::canonical::{CanonicalFault, CanonicalTables};
use walk::faults_of;

/// What the words are to be refused for, `None` where they pass every check.
pub(crate) fn first_fault(tables: &CanonicalTables<'_>, words: Words<'_>) -> Option<CanonicalFault>
    requires { IsAccepted (lists_of tables.now) }
    ensures { MatchOption result (AreAcceptedWords (lists_of tables.now) (word_lists words.entry)) (IsFirstWordFault (lists_of tables.now) (word_lists words.entry)) }
{
    let faults = match faults_of(tables, words) {
        Ok(faults) => faults,
        Err(c) => return Some(CanonicalFault::BadValue(c)),
    };
    match faults.full_list {
        Some(c) => Some(CanonicalFault::BadList(c)),
        None => match faults.built_in {
            Some(c) => Some(CanonicalFault::BuiltIn(c)),
            None => None,
        },
    }
}

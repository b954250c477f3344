//! The characters that composing leaves alone, of tables that pass every check.

ghost use Rattle.std.specs.Prelude.{◌≢◌, ℕ, ◌≤◌, length, IfOk, IsTrue};
ghost use Rattle.icu_normalizer_core.specs.Boundaries.{IsSteady};
ghost use Rattle.icu_normalizer_core.specs.CanonicalFaults.{IsAccepted};
ghost use Rattle.icu_normalizer_core.specs.CanonicalLists.{ArePairs};
ghost use Rattle.icu_normalizer_core.specs.CanonicalMeaning.{lists_of, meaning};
ghost use Rattle.icu_normalizer_core.specs.Plain.{Tells};
ghost use Rattle.icu_normalizer_core.specs.SteadyAnswers.{SaysYes, AreSteady, AreNoSeconds, AreUnlisted, AreNoLetters, AreAmong};

use super::full_start::full_start;
use super::marks::class_of;
use super::own::is_own;
use crate::canonical::packing::CODE_LIMIT;
use crate::canonical::steady::{SteadyCharacters, says_yes};
use crate::canonical::tables::CanonicalTables;
use icu_packed_vector::PackedVec;
use std::alloc::{AllocError, Global};

/// Makes the answer for a code point no.
fn refuse(answers: &mut [bool], code: u32)
    ensures { (c : ℕ) → SaysYes answers.new c → SaysYes answers.old c × (c ≢ code) }
{
    let index = code as usize;
    if index < answers.len() {
        answers[index] = false;
    }
}

/// Makes the answer no for the jamo that are the second of a Hangul syllable's pair.
fn refuse_letters(answers: &mut [bool])
    ensures { AreNoLetters answers.new }
{
    for code in 0x1161..0x1200u32 {
        refuse(answers, code);
    }
}

/// Makes the answer no for the second of each pair.
fn refuse_seconds(pairs: &PackedVec<'_, u64>, answers: &mut [bool])
    ensures among { AreAmong answers.old answers.new }
    ensures unlisted { AreUnlisted pairs.now answers.new }
{
    for index in 0..pairs.len() {
        let second = (pairs.at(index) >> 21) % CODE_LIMIT;
        refuse(answers, second as u32);
    }
}

/// Whether a character is found to be steady, where a yes is no pair's second.
fn is_found_steady(tables: &CanonicalTables<'_>, answers: &[bool], c: char) -> bool
    requires pairs { ArePairs tables.now.pairs }
    requires short { length ((meaning tables.now).full c) ≤ 8 }
    requires seconds { AreNoSeconds (meaning tables.now) answers.now }
    ensures { IsTrue result → IsSteady (meaning tables.now) c }
{
    let full = full_start(tables, c);
    if full.count == 0 {
        return false;
    }
    let first = full.characters[0];
    class_of(tables, first) == 0 && says_yes(answers, first) && is_own(tables, c)
}

/// Makes the answer for a character no, unless it is found to be steady.
fn refuse_unsteady(tables: &CanonicalTables<'_>, answers: &mut [bool], c: char)
    requires pairs { ArePairs tables.now.pairs }
    requires short { length ((meaning tables.now).full c) ≤ 8 }
    requires seconds { AreNoSeconds (meaning tables.now) answers.old }
    ensures among { AreAmong answers.old answers.new }
    ensures steady { SaysYes answers.new c → IsSteady (meaning tables.now) c }
{
    let code = c as u32;
    if says_yes(answers, code) && !is_found_steady(tables, answers, c) {
        refuse(answers, code);
    }
}

/// Makes the answer no for each character of a list that isn't found to be steady. The list has all that tables or
/// what is built in say something of, and any other that isn't a pair's second is steady.
fn refuse_told(tables: &CanonicalTables<'_>, told: &[u32], answers: &mut [bool])
    requires accepted { IsAccepted (lists_of tables.now) }
    requires tells { Tells (lists_of tables.now) told.now }
    requires seconds { AreNoSeconds (meaning tables.now) answers.old }
    ensures { AreSteady (meaning tables.now) answers.new }
{
    for code in told {
        if let Some(c) = char::from_u32(*code) {
            refuse_unsteady(tables, answers, c);
        }
    }
}

/// Leaves the answer yes for steady characters alone.
fn refuse_others(tables: &CanonicalTables<'_>, told: &[u32], answers: &mut [bool])
    requires accepted { IsAccepted (lists_of tables.now) }
    requires tells { Tells (lists_of tables.now) told.now }
    ensures { AreSteady (meaning tables.now) answers.new }
{
    refuse_letters(answers);
    refuse_seconds(&tables.pairs, answers);
    refuse_told(tables, told, answers);
}

/// The characters below U+10000 that are found to be steady. Fails only if memory is refused.
pub(crate) fn steady_characters(
    alloc: Global,
    tables: &CanonicalTables<'_>,
    told: &[u32],
) -> Result<SteadyCharacters, AllocError>
    requires accepted { IsAccepted (lists_of tables.now) }
    requires tells { Tells (lists_of tables.now) told.now }
    ensures { IfOk result (λ steady. AreSteady (meaning tables.now) steady.answers.items) }
{
    let mut answers = vec![in alloc; true; 0x1_0000]?;
    refuse_others(tables, told, answers.as_mut_slice());
    Ok(SteadyCharacters { answers })
}

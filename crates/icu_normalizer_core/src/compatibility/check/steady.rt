//! The characters that composing leaves alone by compatibility data too.

ghost use Rattle.std.specs.Prelude.{◌≡◌, ◌≤◌, length, IfOk, IsTrue};
ghost use Rattle.std.specs.Char.{IsScalar};
ghost use Rattle.icu_normalizer_core.specs.Boundaries.{IsSteady};
ghost use Rattle.icu_normalizer_core.specs.CanonicalMeaning.{lists_of, meaning};
ghost use Rattle.icu_normalizer_core.specs.Compatibility.{compatibility_of};
ghost use Rattle.icu_normalizer_core.specs.SteadyAnswers.{AreSteady};
ghost use Rattle.icu_normalizer_core.specs.Words.{word_lists, full_in};

use crate::canonical::canonical_words::Words;
use crate::canonical::steady::SteadyCharacters;
use crate::canonical::{CanonicalData, CanonicalTables};
use std::alloc::{AllocError, Global};

/// Whether the full list of a character is its canonical one.
fn has_canonical_list(tables: &CanonicalTables<'_>, words: Words<'_>, c: char) -> bool
    requires { length ((meaning tables.now).full c) ≤ 8 }
    ensures { IsTrue result → full_in (word_lists words.entry) c ≡ (meaning tables.now).full c }
{
    // Of most characters neither word says anything.
    if words.word(c) == 0 && tables.word(c) == 0 {
        return true;
    }
    tables.words().full_start(c).is(&words.full_start(c))
}

/// Whether a character is known to be steady canonically, and has its canonical full list: then it is steady.
fn is_found_steady(canonical: &CanonicalData<'_>, words: Words<'_>, c: char) -> bool
    ensures { IsTrue result → IsSteady (compatibility_of (lists_of canonical.now) (word_lists words.entry)) c }
{
    canonical.as_borrowed().is_steady(c) && has_canonical_list(canonical.tables(), words, c)
}

/// Whether a code point is a character that is found to be steady.
fn is_steady_code(canonical: &CanonicalData<'_>, words: Words<'_>, code: u32) -> bool
    ensures { IsScalar code → IsTrue result → IsSteady (compatibility_of (lists_of canonical.now) (word_lists words.entry)) code }
{
    match char::from_u32(code) {
        Some(c) => is_found_steady(canonical, words, c),
        None => false,
    }
}

/// The characters below U+10000 that are found to be steady. Fails only if memory is refused.
pub(in crate::compatibility) fn steady_characters(
    alloc: Global,
    canonical: &CanonicalData<'_>,
    words: Words<'_>,
) -> Result<SteadyCharacters, AllocError>
    ensures { IfOk result (λ steady. AreSteady (compatibility_of (lists_of canonical.now) (word_lists words.entry)) steady.answers.items) }
{
    let mut answers = Vec::with_capacity(alloc, 0x1_0000)?;
    for code in 0..0x1_0000u32 {
        answers.push(is_steady_code(canonical, words, code))?;
    }
    Ok(SteadyCharacters { answers })
}

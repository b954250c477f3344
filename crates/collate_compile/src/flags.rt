//! What is true of the suffixes of a character.

ghost use Rattle.std.specs.Prelude.{◌≡◌, map};
ghost use Rattle.std.specs.List.{list_all, list_any};
ghost use Rattle.icu_normalizer_core.specs.BorrowedMeaning.{borrowed_meaning};
ghost use Rattle.icu_collator_core.specs.ContextRules.{begins_with_mark, ends_in_mark, holds_starter};
ghost use Rattle.collate_words.specs.Entries.{said_beside};
ghost use Rattle.collate_words.specs.Sayings.{texts_beside};

use collate_words::entry::{Beside, SuffixFlags};
use icu_normalizer_core::canonical::CanonicalBorrowed;

/// Whether characters begin with a mark.
fn begins_with_mark(canonical: &CanonicalBorrowed<'_>, characters: &[char]) -> bool
    ensures { result ≡ begins_with_mark (borrowed_meaning canonical.now) characters.now }
{
    match characters.first() {
        Some(first) => !canonical.is_starter(*first),
        None => false,
    }
}

/// Whether characters end in a mark.
fn ends_in_mark(canonical: &CanonicalBorrowed<'_>, characters: &[char]) -> bool
    ensures { result ≡ ends_in_mark (borrowed_meaning canonical.now) characters.now }
{
    match characters.split_last() {
        Some((last, _)) => !canonical.is_starter(*last),
        None => false,
    }
}

/// Whether one of the characters is a starter.
fn holds_starter(canonical: &CanonicalBorrowed<'_>, characters: &[char]) -> bool
    ensures { result ≡ holds_starter (borrowed_meaning canonical.now) characters.now }
{
    for character in characters {
        if canonical.is_starter(*character) {
            return true;
        }
    }
    false
}

/// Whether all suffixes begin with a mark.
fn all_begin(canonical: &CanonicalBorrowed<'_>, suffixes: &[Beside<'_>]) -> bool
    ensures { result
        ≡ list_all (begins_with_mark (borrowed_meaning canonical.now)) (texts_beside (map said_beside suffixes.now)) }
{
    for suffix in suffixes {
        if !begins_with_mark(canonical, suffix.characters) {
            return false;
        }
    }
    true
}

/// Whether one of the suffixes ends in a mark.
fn one_ends(canonical: &CanonicalBorrowed<'_>, suffixes: &[Beside<'_>]) -> bool
    ensures { result
        ≡ list_any (ends_in_mark (borrowed_meaning canonical.now)) (texts_beside (map said_beside suffixes.now)) }
{
    for suffix in suffixes {
        if ends_in_mark(canonical, suffix.characters) {
            return true;
        }
    }
    false
}

/// Whether one of the suffixes holds a starter.
fn one_holds(canonical: &CanonicalBorrowed<'_>, suffixes: &[Beside<'_>]) -> bool
    ensures { result
        ≡ list_any (holds_starter (borrowed_meaning canonical.now)) (texts_beside (map said_beside suffixes.now)) }
{
    for suffix in suffixes {
        if holds_starter(canonical, suffix.characters) {
            return true;
        }
    }
    false
}

/// What is true of suffixes.
pub(crate) fn flags_of(canonical: &CanonicalBorrowed<'_>, suffixes: &[Beside<'_>]) -> SuffixFlags
    ensures all_begin { result.all_begin
        ≡ list_all (begins_with_mark (borrowed_meaning canonical.now)) (texts_beside (map said_beside suffixes.now)) }
    ensures one_ends { result.one_ends
        ≡ list_any (ends_in_mark (borrowed_meaning canonical.now)) (texts_beside (map said_beside suffixes.now)) }
    ensures one_holds { result.one_holds
        ≡ list_any (holds_starter (borrowed_meaning canonical.now)) (texts_beside (map said_beside suffixes.now)) }
{
    SuffixFlags {
        all_begin: all_begin(canonical, suffixes),
        one_ends: one_ends(canonical, suffixes),
        one_holds: one_holds(canonical, suffixes),
    }
}

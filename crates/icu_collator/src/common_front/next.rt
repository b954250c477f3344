//! What stands next in a text, by its next character.

ghost use Rattle.std.specs.Prelude.{◌≡◌, [], ◌∷◌, ℕ, true, IfSome, List, MatchOption};
ghost use Rattle.icu_normalizer_core.specs.BorrowedMeaning.{borrowed_meaning};
ghost use Rattle.icu_normalizer_core.specs.Canonical.{IsDecomposing};
ghost use Rattle.icu_collator_core.specs.UnsafeCharacters.{IsSafe};
ghost use Rattle.icu_collator.specs.Boundaries.{IsPlain};
ghost use Rattle.icu_collator.specs.Collators.{source_collation};
ghost use Rattle.icu_collator.specs.NextCharacters.{IsNext};

use super::deciding::NextCharacter;
use icu_collator_core::checked::CheckedTables;
use icu_collator_types::elements::CollationElement;
use icu_normalizer_core::canonical::CanonicalBorrowed;

/// Whether the reading of a text may begin at a character.
pub(super) fn is_safe(checked: &CheckedTables<'_>, c: char) -> bool
    ensures safe { result ≡ true → IsSafe (source_collation checked.now).canonical (source_collation checked.now).weights c }
    ensures decomposing { IsDecomposing (source_collation checked.now).canonical }
{
    checked.canonical().keep_promise();
    !checked.is_unsafe(c)
}

/// The first character of a full list.
pub(super) fn first_of_full(canonical: CanonicalBorrowed<'_>, c: char) -> Option<char>
    ensures { MatchOption result ((borrowed_meaning canonical.entry).full c ≡ []) (λ first. (rest : List ℕ) × ((borrowed_meaning canonical.entry).full c ≡ first ∷ rest)) }
{
    let mut list = canonical.full_list(c);
    list.next()
}

/// The element of a plain character, where its note tells it.
#[inline]
fn noted_element(checked: &CheckedTables<'_>, c: char) -> Option<CollationElement>
    ensures { IfSome result (λ bits. IsPlain (source_collation checked.now) c bits) }
{
    checked.canonical().keep_promise();
    let element = checked.boundary_element(c)?;
    Some(element)
}

/// The element of a plain character, by its full list; `None` for one that isn't plain, and for some that are.
fn find_plain_element(checked: &CheckedTables<'_>, c: char) -> Option<CollationElement>
    ensures { IfSome result (λ bits. IsPlain (source_collation checked.now) c bits) }
{
    if !is_safe(checked, c) {
        return None;
    }
    let first = first_of_full(checked.canonical(), c)?;
    if first == '\u{303}' {
        return None;
    }
    let element = checked.alone_element(first)?;
    Some(element)
}

/// The element of a plain character; `None` for one that isn't plain, and for some that are.
#[inline]
fn plain_element(checked: &CheckedTables<'_>, c: char) -> Option<CollationElement>
    ensures { IfSome result (λ bits. IsPlain (source_collation checked.now) c bits) }
{
    if let Some(element) = noted_element(checked, c) {
        return Some(element);
    }
    if c < '\u{800}' || checked.is_noted_dependent(c) {
        return None;
    }
    find_plain_element(checked, c)
}

/// What stands next in a text, by its next character: `None` at its end.
pub(super) fn next_character(checked: &CheckedTables<'_>, next: Option<char>) -> NextCharacter
    ensures { IsNext (source_collation checked.now) next result }
{
    match next {
        Some(c) => match plain_element(checked, c) {
            Some(element) => NextCharacter::Plain(element),
            None => NextCharacter::Other,
        },
        None => NextCharacter::End,
    }
}

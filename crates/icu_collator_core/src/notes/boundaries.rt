//! Notes of characters that are read as they are by themselves wherever a boundary follows, as those that begin a contraction.

ghost use Rattle.std.specs.Prelude.{◌≡◌, ◌∷◌, ℕ, [], false, true, IfOk, IfSome, None, Option, is_some};
ghost use lib.Utf8.{scalars};
ghost use Rattle.icu_collator_core.specs.Boundaries.{is_accent};
ghost use Rattle.icu_collator_core.specs.FlatNotes.{IsBoundaryApart, IsBoundaryNote, IsFlatNote, IsNoteOf, IsSteady, IsUncounted, note_by};
ghost use Rattle.icu_collator_core.specs.ReadSources.{canonical_by};

use super::flat_note::{BEFORE_BOUNDARY, FlatNote};
use crate::reading::checked_words::checked_word;
use crate::reading::lists::list_elements;
use crate::reading::next::find_alone;
use crate::sound::SoundTables;
use icu_collator_types::elements::CollationElement;
use smallvec::SmallVec;
use std::alloc::{AllocError, Global};

/// Whether a character is a grave, an acute or a tilde, before which a dot above may be dropped.
fn is_accent(c: char) -> bool
    ensures { result ≡ is_accent c }
{
    c == '\u{300}' || c == '\u{301}' || c == '\u{303}'
}

/// Whether a character of a decomposed list is a boundary: what stands before it is read without it, and it without that.
pub(super) fn is_boundary(sound: &SoundTables<'_>, c: char) -> bool
    ensures { result ≡ true → (numeric : Option ℕ) → IsUncounted sound.now numeric c → IsBoundaryApart sound.now numeric c }
{
    if is_accent(c) {
        return false;
    }
    !sound.is_unsafe_itself(c)
}

/// The element of a boundary that is its own full list, if nothing that stands before or after it changes it.
pub(super) fn boundary_element(sound: &SoundTables<'_>, c: char) -> Option<CollationElement>
    ensures { IfSome result (λ bits. IsBoundaryNote sound.now c bits) }
{
    if is_accent(c) || !sound.find_own_beginning(c) {
        return None;
    }
    let element = find_alone(sound, c)?;
    Some(element)
}

/// Whether a character of a decomposed list is no digit, and no prefix is recorded with it.
fn is_steady(sound: &SoundTables<'_>, c: char) -> bool
    ensures { result ≡ true → IsSteady sound.now c }
{
    let word = checked_word(sound, c);
    if !word.is_unprefixed() {
        return false;
    }
    word.digit().is_none()
}

/// The note of a character that has these elements wherever a boundary follows.
fn note_of_elements(elements: &[CollationElement]) -> FlatNote
    ensures { result ≡ note_by elements.now }
{
    if elements.len() == 1 {
        return FlatNote::One(elements[0], BEFORE_BOUNDARY, BEFORE_BOUNDARY);
    }
    if elements.len() == 2 {
        return FlatNote::Two(elements[0], elements[1], BEFORE_BOUNDARY, BEFORE_BOUNDARY);
    }
    FlatNote::Other
}

/// The note of a character whose full list is this, by the elements of the list. Fails only if memory is refused.
fn note_of_list(
    alloc: Global,
    sound: &SoundTables<'_>,
    list: SmallVec<char, 64>,
) -> Result<FlatNote, AllocError>
    requires { scalars list.items ≡ true }
    ensures { IfOk result (λ note. IsNoteOf sound.now list.items note) }
{
    let elements = list_elements(alloc, sound, None, list)?;
    Ok(note_of_elements(elements.as_slice()))
}

/// What is to be noted of a character whose full list is one. Fails only if memory is refused.
fn note_of_first(
    alloc: Global,
    sound: &SoundTables<'_>,
    first: char,
) -> Result<FlatNote, AllocError>
    ensures { IfOk result (λ note. (c : ℕ) → (canonical_by sound.now).full c ≡ first ∷ [] → IsFlatNote sound.now c note) }
{
    if !is_boundary(sound, first) || !is_steady(sound, first) {
        return Ok(FlatNote::Other);
    }
    let mut list = SmallVec::new(alloc);
    list.push(first)?;
    let note = note_of_list(alloc, sound, list)?;
    Ok(note)
}

/// What is to be noted of a character whose full list is these two. Fails only if memory is refused.
fn note_of_both(
    alloc: Global,
    sound: &SoundTables<'_>,
    first: char,
    second: char,
) -> Result<FlatNote, AllocError>
    ensures { IfOk result (λ note. (c : ℕ) → (canonical_by sound.now).full c ≡ first ∷ second ∷ [] → IsFlatNote sound.now c note) }
{
    if !is_boundary(sound, first) || !is_steady(sound, first) || !is_steady(sound, second) {
        return Ok(FlatNote::Other);
    }
    let mut list = SmallVec::new(alloc);
    list.push(first)?;
    list.push(second)?;
    let note = note_of_list(alloc, sound, list)?;
    Ok(note)
}

/// What is to be noted of a character that begins with a boundary, by what its full list is by itself. Fails only if memory
/// is refused.
pub(super) fn note_before_boundary(
    alloc: Global,
    sound: &SoundTables<'_>,
    c: char,
) -> Result<FlatNote, AllocError>
    ensures { IfOk result (λ note. IsFlatNote sound.now c note) }
{
    let mut list = sound.canonical().full_list(c);
    let Some(first) = list.next() else {
        return Ok(FlatNote::Other);
    };
    let Some(second) = list.next() else {
        return note_of_first(alloc, sound, first);
    };
    if list.next().is_some() {
        return Ok(FlatNote::Other);
    }
    note_of_both(alloc, sound, first, second)
}

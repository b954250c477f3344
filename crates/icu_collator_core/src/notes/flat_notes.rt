//! Notes of low characters by which texts are read flat: found once for all, and looked up by one read.

ghost use Rattle.std.specs.Prelude.{◌≡◌, ◌∷◌, ◌≤◌, ◌==◌, ◌&&◌, ◌||◌, ℕ, [], true, IfOk, IfSome, Option, None, is_some};
ghost use Rattle.icu_collator_core.specs.Defaults.{special_primary};
ghost use Rattle.icu_collator_core.specs.FlatNotes.{AreFlatNotes, IsFlatNote, IsReadFlat, IsUncounted, MayBegin, MayFollow};
ghost use Rattle.icu_collator_core.specs.ReadSources.{canonical_by};
ghost use Rattle.icu_collator_core.specs.TableSettings.{has_bit};

use super::boundaries::{boundary_element, is_boundary, note_before_boundary};
use super::flat_note::{BEFORE_BOUNDARY, FlatNote};
use crate::reading::checked_words::checked_word;
use crate::sound::SoundTables;
use crate::table_words::defaults::special_primary;
use icu_collator_types::elements::CollationElement;
use std::alloc::{AllocError, Global};

/// The characters of which there are notes end before this one: all of one or two bytes in UTF-8 have one.
pub(super) const FLAT_END: u32 = 0x800;

/// Whether a character is special, or a dot above that may be dropped.
pub(super) fn is_kept_apart(sound: &SoundTables<'_>, c: char) -> bool
    ensures { result ≡ (is_some (special_primary c) || (has_bit 6 sound.now.tables.metadata.bits && (c == 0x307))) }
{
    special_primary(c as u32).is_some()
        || sound.tables().metadata.lithuanian_dot_above() && c == '\u{307}'
}

/// The element of a character, if nothing that stands before or after it changes it.
fn flat_element(sound: &SoundTables<'_>, c: char) -> Option<CollationElement>
    ensures { IfSome result (λ bits. (numeric : Option ℕ) → IsReadFlat sound.now numeric c bits) }
{
    if is_kept_apart(sound, c) {
        return None;
    }
    let element = checked_word(sound, c).alone_element(c)?;
    Some(element)
}

/// The element of a digit, if nothing that stands before or after it changes it where numbers aren't read.
fn flat_digit(sound: &SoundTables<'_>, c: char) -> Option<CollationElement>
    ensures { IfSome result (λ bits. IsReadFlat sound.now None c bits) }
{
    if is_kept_apart(sound, c) {
        return None;
    }
    let element = checked_word(sound, c).digit_element()?;
    Some(element)
}

/// Whether a mark of a class may stand after a character of another; a starter after any.
fn may_follow(before: u8, class: u8) -> bool
    ensures { result ≡ true → MayFollow before class }
{
    class == 0 || before <= class
}

/// The highest class after which a character of a decomposed list may stand: any after which is a starter, 256 for a boundary,
/// else its own.
fn highest_before(sound: &SoundTables<'_>, c: char) -> u16
    ensures { (numeric : Option ℕ) (before : ℕ) → before ≤ result → IsUncounted sound.now numeric c → MayBegin sound.now numeric before c }
{
    let class = sound.canonical().class(c);
    if class != 0 {
        return class as u16;
    }
    if is_boundary(sound, c) {
        BEFORE_BOUNDARY
    } else {
        BEFORE_BOUNDARY - 1
    }
}

/// What is to be noted of a character whose full list is one.
fn note_of_one(sound: &SoundTables<'_>, first: char) -> FlatNote
    ensures { (c : ℕ) → (canonical_by sound.now).full c ≡ first ∷ [] → IsFlatNote sound.now c result }
{
    let class = sound.canonical().class(first);
    own_note(sound, first, class)
}

/// The same, where the class of that one is known.
#[inline(always)]
pub(super) fn own_note(sound: &SoundTables<'_>, first: char, class: u8) -> FlatNote
    requires { (canonical_by sound.now).class first ≡ class }
    ensures { (c : ℕ) → (canonical_by sound.now).full c ≡ first ∷ [] → IsFlatNote sound.now c result }
{
    let lead = highest_before(sound, first);
    let class = class as u16;
    match flat_element(sound, first) {
        Some(element) => FlatNote::One(element, lead, class),
        None => match flat_digit(sound, first) {
            Some(element) => FlatNote::Digit(element, lead, class),
            None => FlatNote::Other,
        },
    }
}

/// What is to be noted of a character whose full list is these two.
fn note_of_two(sound: &SoundTables<'_>, first: char, second: char) -> FlatNote
    ensures { (c : ℕ) → (canonical_by sound.now).full c ≡ first ∷ second ∷ [] → IsFlatNote sound.now c result }
{
    let class = sound.canonical().class(first);
    let trail = sound.canonical().class(second);
    if !may_follow(class, trail) {
        return FlatNote::Other;
    }
    let Some(element) = flat_element(sound, first) else {
        return FlatNote::Other;
    };
    let Some(next) = flat_element(sound, second) else {
        return FlatNote::Other;
    };
    FlatNote::Two(element, next, highest_before(sound, first), trail as u16)
}

/// What is to be noted of a character, by its full list.
pub(crate) fn note_of(sound: &SoundTables<'_>, c: char) -> FlatNote
    ensures { IsFlatNote sound.now c result }
{
    let mut list = sound.canonical().full_list(c);
    let Some(first) = list.next() else {
        return FlatNote::Other;
    };
    let Some(second) = list.next() else {
        return note_of_one(sound, first);
    };
    if list.next().is_some() {
        return FlatNote::Other;
    }
    note_of_two(sound, first, second)
}

/// What is to be noted of a character: a boundary by itself, another by its full list, also where it is read so only if a
/// boundary follows. Fails only if memory is refused.
fn whole_note(alloc: Global, sound: &SoundTables<'_>, c: char) -> Result<FlatNote, AllocError>
    ensures { IfOk result (λ note. IsFlatNote sound.now c note) }
{
    if let Some(element) = boundary_element(sound, c) {
        return Ok(FlatNote::Boundary(element));
    }
    let note = note_of(sound, c);
    match note {
        FlatNote::Other => note_before_boundary(alloc, sound, c),
        _ => Ok(note),
    }
}

/// What is to be noted of the character of a code, if it is one. Fails only if memory is refused.
pub(super) fn note_at(
    alloc: Global,
    sound: &SoundTables<'_>,
    code: u32,
) -> Result<FlatNote, AllocError>
    ensures { IfOk result (λ note. IsFlatNote sound.now code note) }
{
    match char::from_u32(code) {
        Some(c) => whole_note(alloc, sound, c),
        None => Ok(FlatNote::Other),
    }
}

/// The notes of the low characters, in their order.
pub(crate) fn flat_notes(
    alloc: Global,
    sound: &SoundTables<'_>,
) -> Result<Vec<FlatNote>, AllocError>
    ensures { IfOk result (λ notes. AreFlatNotes sound.now notes.items) }
{
    let mut notes = Vec::new(alloc);
    for code in 0..FLAT_END {
        let note = note_at(alloc, sound, code)?;
        notes.push(note)?;
    }
    Ok(notes)
}

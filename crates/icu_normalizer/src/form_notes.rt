//! Notes of low characters: what is asked of them most often, found once and looked up by one read.

ghost use Rattle.std.specs.Prelude.{◌≡◌, false, [], ◌∷◌, IfOk, IfSome};
ghost use Rattle.icu_normalizer_core.specs.Canonical.{Canonical};
ghost use Rattle.icu_normalizer_core.specs.FormData.{form_meaning};
ghost use Rattle.icu_normalizer.specs.FormNotes.{AreLow, IsListed, IsLow};

use icu_normalizer_core::canonical::Reading;
use icu_normalizer_core::decomposition::FormData;
use std::alloc::{AllocError, Global};

/// The characters of which there are notes end before this one.
const LOW_END: u32 = 0x2000;

/// What is noted of a character: its full list, where that is a mark, or a starter with what is in order after it.
#[derive(Clone, Copy, Debug)]
pub(crate) struct FormNote {
    /// The characters of the full list, the first `len` of the three.
    pub(crate) first: char,
    pub(crate) second: char,
    pub(crate) third: char,
    /// How many characters the full list has; 0 where nothing is noted.
    pub(crate) len: u8,
    /// The full list is in order after any character of a class up to this.
    pub(crate) order: u8,
    /// The class of the last character of the full list, which is its highest.
    pub(crate) class: u8,
    /// Whether it is known that composing leaves the character alone.
    pub(crate) steady: bool,
}

/// Where nothing is noted.
fn nothing() -> FormNote
    ensures len { result.len ≡ 0 }
    ensures steady { result.steady ≡ false }
{
    FormNote {
        first: '\0',
        second: '\0',
        third: '\0',
        len: 0,
        order: 0,
        class: 0,
        steady: false,
    }
}

/// The note of a character of this class that is its own full list.
fn note_itself(basis: FormData<'_>, c: char, class: u8) -> FormNote
    requires full { (form_meaning basis).full c ≡ c ∷ [] }
    requires class { (form_meaning basis).class c ≡ class }
    ensures listed { IsListed (form_meaning basis.entry) ((form_meaning basis.entry).full c) result }
    ensures class { result.class ≡ class }
    ensures steady { result.steady ≡ false }
{
    FormNote {
        first: c,
        second: '\0',
        third: '\0',
        len: 1,
        order: if class == 0 { u8::MAX } else { class },
        class,
        steady: false,
    }
}

/// The note of a character whose full list has these two.
fn note_two(basis: FormData<'_>, first: char, second: char) -> FormNote
    ensures listed { IsListed (form_meaning basis.entry) (first ∷ second ∷ []) result }
    ensures steady { result.steady ≡ false }
    ensures two { result.len ≡ 1 → ⊥ }
{
    if basis.class(first) != 0 {
        return nothing();
    }
    FormNote {
        first,
        second,
        third: '\0',
        len: 2,
        order: u8::MAX,
        class: basis.class(second),
        steady: false,
    }
}

/// The note of a character whose full list has these three.
fn note_three(basis: FormData<'_>, first: char, second: char, third: char) -> FormNote
    ensures listed { IsListed (form_meaning basis.entry) (first ∷ second ∷ third ∷ []) result }
    ensures steady { result.steady ≡ false }
    ensures three { result.len ≡ 1 → ⊥ }
{
    let class = basis.class(third);
    if basis.class(first) != 0 || basis.class(second) > class {
        return nothing();
    }
    FormNote {
        first,
        second,
        third,
        len: 3,
        order: u8::MAX,
        class,
        steady: false,
    }
}

/// What is to be noted of a character, but for whether it is steady.
fn listed_note(basis: FormData<'_>, c: char) -> FormNote
    ensures listed { IsListed (form_meaning basis.entry) ((form_meaning basis.entry).full c) result }
    ensures steady { result.steady ≡ false }
    ensures alone { result.len ≡ 1 → ((form_meaning basis.entry).full c ≡ c ∷ []) × ((form_meaning basis.entry).class c ≡ result.class) }
{
    match basis.reading(c) {
        Reading::Itself(class) => note_itself(basis, c, class),
        Reading::Two(first, second) => note_two(basis, first, second),
        Reading::Three(first, second, third) => note_three(basis, first, second, third),
        Reading::Other => nothing(),
    }
}

/// What is to be noted of a character.
fn note_of(basis: FormData<'_>, c: char) -> FormNote
    ensures { IsLow (form_meaning basis.entry) c result }
{
    let mut note = listed_note(basis, c);
    if note.len == 0 || !basis.is_steady(c) {
        return note;
    }
    note.steady = true;
    note
}

/// What is to be noted of the character of a code, if it is one.
fn note_at(basis: FormData<'_>, code: u32) -> FormNote
    ensures { IsLow (form_meaning basis.entry) code result }
{
    match char::from_u32(code) {
        Some(c) => note_of(basis, c),
        None => nothing(),
    }
}

/// The notes of the low characters, in their order.
pub(crate) fn form_notes(alloc: Global, basis: FormData<'_>) -> Result<Vec<FormNote>, AllocError>
    ensures { IfOk result (λ low. AreLow (form_meaning basis.entry) low.items) }
{
    let mut low = Vec::with_capacity(alloc, LOW_END as usize)?;
    for code in 0..LOW_END {
        low.push(note_at(basis, code))?;
    }
    Ok(low)
}

/// What is noted of a character, if it is a low one.
#[inline(always)]
pub(crate) fn form_note(low: &[FormNote], c: char) -> Option<FormNote>
    ensures { IfSome result (λ note. (canonical : Canonical) → AreLow canonical low.now → IsLow canonical c note) }
{
    match low.get(c as usize) {
        Some(note) => Some(*note),
        None => None,
    }
}

//! Flat reading of Hangul syllables by their letters, each by its note.

ghost use Rattle.std.specs.Prelude.{◌≡◌, ◌<◌, ◌≤◌, ℕ, true, IfSome, Option};
ghost use Rattle.icu_normalizer_core.specs.BuiltIn.{is_syllable};
ghost use Rattle.icu_collator_core.specs.FlatNotes.{BeginsApart, IsPushed};

use crate::checked::CheckedTables;
use crate::notes::flat_elements::FlatElements;
use crate::notes::flat_note::BEFORE_BOUNDARY;

/// A Hangul letter, by its code point.
#[inline(always)]
pub(super) fn letter(code: u32) -> char
    requires { code < 0xd800 }
    ensures { result ≡ code }
{
    char::from_u32(code).unwrap()
}

impl CheckedTables<'_> {
    /// Whether a note tells that the first letter of a syllable is a boundary.
    #[inline(never)]
    pub(super) fn begins_with_boundary(&self, c: char) -> bool
        requires { is_syllable c ≡ true }
        ensures { result ≡ true → (numeric : Option ℕ) → BeginsApart self.now numeric c }
    {
        self.canonical().keep_promise();
        let leading = letter(0x1100 + (c as u32 - 0xac00) / 588);
        match self.paged_note(leading) {
            Some(note) => note.is_boundary(),
            None => false,
        }
    }

    /// Appends the elements of a letter that stands after a character of this class, by its note, if it is read alone, and there
    /// is room; answers its class.
    #[inline(always)]
    fn push_letter<const N: usize>(
        &self,
        numeric: Option<u8>,
        c: char,
        before: u16,
        elements: &mut FlatElements<N>,
    ) -> Option<u16>
        ensures alone { IfSome result (λ class. class ≤ 255) }
        ensures pushed { IfSome result (λ class. IsPushed self.now numeric c before elements.old.items class elements.new.items) }
    {
        let note = self.paged_note(c)?;
        let class = note.push(numeric, before, elements)?;
        if class >= BEFORE_BOUNDARY {
            return None;
        }
        Some(class)
    }

    /// Appends the elements of a syllable that stands after a character of this class, if each of its letters is read alone, and
    /// there is room; answers the class of the last letter.
    #[inline(never)]
    pub(super) fn push_syllable<const N: usize>(
        &self,
        numeric: Option<u8>,
        c: char,
        before: u16,
        elements: &mut FlatElements<N>,
    ) -> Option<u16>
        requires { is_syllable c ≡ true }
        ensures { IfSome result (λ trail. IsPushed self.now numeric c before elements.old.items trail elements.new.items) }
    {
        self.canonical().keep_promise();
        let index = c as u32 - 0xac00;
        let leading = letter(0x1100 + index / 588);
        let first = self.push_letter(numeric, leading, before, elements)?;
        let vowel = letter(0x1161 + index % 588 / 28);
        let second = self.push_letter(numeric, vowel, first, elements)?;
        if index % 28 == 0 {
            return Some(second);
        }
        let trailing = letter(0x11a7 + index % 28);
        let third = self.push_letter(numeric, trailing, second, elements)?;
        Some(third)
    }
}

//! Flat reading: the elements of texts whose characters are read one by one, by notes that are made once for all.

ghost use Rattle.std.specs.Prelude.{◌≡◌, ℕ, List, [], IfSome, true};
ghost use Rattle.std.specs.Iterator.{IsFinite};
ghost use Rattle.icu_normalizer_core.specs.Iter.{Spells};
ghost use Rattle.icu_collator_core.specs.ElementLists.{unpacked};
ghost use Rattle.icu_collator_core.specs.ElementTexts.{text_elements};
ghost use Rattle.icu_collator_core.specs.FlatNotes.{IsPushed};

mod found_notes;
mod listed;
mod primaries;
mod steps;
pub(crate) mod stretched;
mod stretches;
mod syllables;

use crate::checked::CheckedTables;
pub use crate::notes::flat_elements::FlatElements;
use crate::notes::flat_note::FlatNote;
use icu_normalizer_core::built_in::is_syllable;
pub use primaries::NextPrimaries;
pub use steps::FlatStep;
pub use stretched::StretchedElements;

impl CheckedTables<'_> {
    /// Appends the elements of a character that stands after one of this class, if it is read so, its marks stand in order, and
    /// there is room; answers the class of the last character of its full list, 256 where a boundary has to follow.
    #[inline(always)]
    fn push_flat<const N: usize>(
        &self,
        numeric: Option<u8>,
        c: char,
        before: u16,
        elements: &mut FlatElements<N>,
    ) -> Option<u16>
        ensures { IfSome result (λ trail. IsPushed self.now numeric c before elements.old.items trail elements.new.items) }
    {
        match self.flat_note(c) {
            Some(note) => {
                let trail = note.push(numeric, before, elements)?;
                Some(trail)
            }
            None => self.push_found(numeric, c, before, elements),
        }
    }

    /// The same of a character after the low ones: by its note, or by those of its full list, as of a syllable's letters.
    #[inline(never)]
    fn push_found<const N: usize>(
        &self,
        numeric: Option<u8>,
        c: char,
        before: u16,
        elements: &mut FlatElements<N>,
    ) -> Option<u16>
        ensures { IfSome result (λ trail. IsPushed self.now numeric c before elements.old.items trail elements.new.items) }
    {
        if is_syllable(c as u32) {
            return self.push_syllable(numeric, c, before, elements);
        }
        let note = self.find_note(c);
        if let FlatNote::Other = note {
            return self.push_listed(numeric, c, before, elements);
        }
        let trail = note.push(numeric, before, elements)?;
        Some(trail)
    }

    /// Reads the text that an iterator gives into an empty list, if it is flat: each of its characters has a full list (UAX 15) of
    /// characters that are read alone, below U+0800 one or two, or after which a boundary stands, its marks stand in order, and the
    /// list has room for its elements. `false` for another text; what the list has then is not said. Where a lead byte of numbers
    /// is given, a text with a digit is none. A character below U+0800 takes one read; no memory is taken.
    #[inline]
    pub fn read_flat<I: Iterator<Item = char> + Drop, const N: usize>(
        &self,
        numeric: Option<u8>,
        chars: I,
        elements: &mut FlatElements<N>,
    ) -> bool
        requires can { I.can_next chars }
        requires finite { IsFinite (I.remaining chars) }
        requires empty { elements.old.items ≡ [] }
        ensures { result ≡ true → (cs : List ℕ) → Spells I.next_gives chars cs → unpacked elements.new.items ≡ text_elements self.now numeric cs }
    {
        let mut last = 0;
        for c in chars {
            match self.push_flat(numeric, c, last, elements) {
                Some(class) => last = class,
                None => return false,
            }
        }
        true
    }
}

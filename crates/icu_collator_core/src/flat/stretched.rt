//! Texts that are read by stretches, each from one boundary to the next, as far as is asked.

ghost use Rattle.std.specs.Prelude.{◌≡◌, ℕ, IfOk, Option, false, true};
ghost use Rattle.std.specs.Iterator.{IsFinite};
ghost use Rattle.icu_collator_core.specs.FlatNotes.{BeginsApart};
ghost use Rattle.icu_collator_core.specs.Stretched.{HasReadOn, IsUnread, settled_in};

use super::stretches::Stretch;
use crate::checked::CheckedTables;
use crate::notes::flat_elements::FlatElements;
use icu_collator_types::elements::CollationElement;
use icu_normalizer_core::built_in::is_syllable;
use std::alloc::{AllocError, Global};

/// How many elements are kept of a text.
const KEPT: usize = 64;

/// The elements of a text that is read by stretches as far as is asked, at most 64.
pub struct StretchedElements {
    /// The last stretch.
    stretch: Stretch,
    /// The elements.
    elements: FlatElements<KEPT>,
    /// How many of them stand, whatever follows.
    settled: usize,
    /// Whether the text was read to its end.
    is_ended: bool,
}

// (let go of as one, and not part by part, so that what owns one is proved sooner)
impl Drop for StretchedElements {
    fn drop(self) {
        let StretchedElements {
            stretch: _,
            elements: _,
            settled: _,
            is_ended: _,
        } = self;
    }
}

impl StretchedElements {
    /// The elements of a text of which nothing was read. No memory is taken.
    #[inline(always)]
    pub fn new(alloc: Global) -> Self
        ensures { IsUnread result }
    {
        StretchedElements {
            stretch: Stretch::new(alloc),
            elements: FlatElements::new(),
            settled: 0,
            is_ended: false,
        }
    }

    /// The elements that stand, whatever follows; all of the text, where it was read to its end.
    #[inline(always)]
    pub fn settled(&self) -> &[CollationElement]
        ensures { result.now ≡ settled_in self.now }
    {
        let elements = self.elements.as_slice();
        &elements[..self.settled.min(elements.len())]
    }

    /// Whether the text was read to its end.
    #[inline(always)]
    pub fn is_ended(&self) -> bool
        ensures { result ≡ self.now.is_ended }
    {
        self.is_ended
    }
}

impl CheckedTables<'_> {
    /// Whether a note tells that the full list of a character (UAX 15) begins with a boundary: what stands before it is read without
    /// it, and it without that. It takes few reads and no memory.
    #[inline(always)]
    pub fn begins_apart(&self, c: char) -> bool
        ensures { result ≡ true → (numeric : Option ℕ) → BeginsApart self.now numeric c }
    {
        match self.flat_note(c) {
            Some(note) => note.is_boundary(),
            None => match self.paged_note(c) {
                Some(note) => note.is_boundary(),
                None => {
                    if is_syllable(c as u32) {
                        self.begins_with_boundary(c)
                    } else {
                        false
                    }
                }
            },
        }
    }

    /// Reads on in a text that was read so far, until more of its elements stand, or to its end; answers whether it could be read
    /// so, and what is left. Where it couldn't, what is left isn't said. It can't be where it has more than 64 elements, and for
    /// some other texts. Fails only if memory is refused.
    #[inline(never)]
    pub fn read_on<I: Iterator<Item = char> + Drop>(
        &self,
        numeric: Option<u8>,
        chars: I,
        text: &mut StretchedElements,
    ) -> Result<(bool, I), AllocError>
        requires open { text.old.is_ended ≡ false }
        requires can { I.can_next chars }
        requires finite { IsFinite (I.remaining chars) }
        ensures read { IfOk result (λ answer. answer.0 ≡ true → HasReadOn self.now numeric I.next_gives chars text.old answer.1 text.new) }
        ensures can { IfOk result (λ answer. answer.0 ≡ true → text.new.is_ended ≡ false → I.can_next answer.1) }
        ensures finite { IfOk result (λ answer. answer.0 ≡ true → text.new.is_ended ≡ false → IsFinite (I.remaining answer.1)) }
    {
        self.canonical().keep_promise();
        let mut chars = chars;
        let before = text.settled;
        'reading: while let Some(c) = chars.next() {
            let is_read = self.read_next(numeric, c, &mut text.stretch, &mut text.elements)?;
            if !is_read {
                return Ok((false, chars));
            }
            let settled = text.stretch.settled(&text.elements);
            if settled > before {
                text.settled = settled;
                return Ok((true, chars));
            }
        }
        let is_read = self.close(numeric, &mut text.stretch, &mut text.elements)?;
        text.settled = text.elements.len();
        text.is_ended = true;
        Ok((is_read, chars))
    }
}

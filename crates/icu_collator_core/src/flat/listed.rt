//! Flat reading of a character by its full list, of any length: each character of that is its own full list.

ghost use Rattle.std.specs.Prelude.{IfSome};
ghost use Rattle.icu_collator_core.specs.FlatNotes.{IsPushed};

use crate::checked::CheckedTables;
use crate::notes::flat_elements::FlatElements;
use crate::notes::flat_note::BEFORE_BOUNDARY;
use crate::notes::flat_notes::note_of;

impl CheckedTables<'_> {
    /// Appends the elements of a character that stands after one of this class, by its note or by the tables, if it has one,
    /// its marks stand in order, and there is room; answers the class of the last character of its full list.
    fn push_part<const N: usize>(
        &self,
        numeric: Option<u8>,
        c: char,
        before: u16,
        elements: &mut FlatElements<N>,
    ) -> Option<u16>
        ensures { IfSome result (λ trail. IsPushed self.now numeric c before elements.old.items trail elements.new.items) }
    {
        if let Some(note) = self.note(c) {
            let trail = note.push(numeric, before, elements)?;
            return Some(trail);
        }
        let note = note_of(self.sound(), c);
        let trail = note.push(numeric, before, elements)?;
        Some(trail)
    }

    /// Appends the elements of a character that stands after one of this class, by its full list, if each character of that is
    /// read alone, its marks stand in order, and there is room; answers the class of the last.
    #[inline(never)]
    pub(super) fn push_listed<const N: usize>(
        &self,
        numeric: Option<u8>,
        c: char,
        before: u16,
        elements: &mut FlatElements<N>,
    ) -> Option<u16>
        ensures { IfSome result (λ trail. IsPushed self.now numeric c before elements.old.items trail elements.new.items) }
    {
        self.canonical().keep_promise();
        let mut last = before;
        for part in self.canonical().full_list(c) {
            match self.push_part(numeric, part, last, elements) {
                Some(class) => {
                    if class >= BEFORE_BOUNDARY {
                        return None;
                    }
                    last = class;
                }
                None => return None,
            }
        }
        Some(last)
    }
}

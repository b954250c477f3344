//! The note of any character: looked up, or else found by the tables.

ghost use Rattle.icu_collator_core.specs.FlatNotes.{IsFlatNote};

use crate::checked::CheckedTables;
use crate::notes::flat_note::FlatNote;
use crate::notes::pages::unpaged_note;

impl CheckedTables<'_> {
    /// By what a character after the low ones is read flat: by its page, or else found by the tables.
    #[inline]
    pub(super) fn find_note(&self, c: char) -> FlatNote
        ensures { IsFlatNote self.now c result }
    {
        match self.paged_note(c) {
            Some(note) => *note,
            None => unpaged_note(self.sound(), c),
        }
    }

    /// By what a character is read flat.
    #[inline(always)]
    pub(super) fn read_note(&self, c: char) -> FlatNote
        ensures { IsFlatNote self.now c result }
    {
        match self.flat_note(c) {
            Some(note) => *note,
            None => self.find_note(c),
        }
    }
}

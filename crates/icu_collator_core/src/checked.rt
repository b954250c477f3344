//! Collation data: tables that were checked, with the canonical data that they are read with, and with notes of characters.

ghost use Rattle.std.specs.Prelude.{◌≡◌, ◌↔◌, ◌∷◌, ℕ, [], IfOk, IfSome, IsTrue, MatchResult, Option, false, true};
ghost use Rattle.icu_normalizer_core.specs.BorrowedMeaning.{borrowed_tables};
ghost use Rattle.icu_normalizer_core.specs.CanonicalMeaning.{meaning};
ghost use Rattle.icu_collator_core.specs.Acceptance.{IsAccepted, IsRefusal};
ghost use Rattle.icu_collator_core.specs.Boundaries.{is_accent};
ghost use Rattle.icu_collator_core.specs.FlatNotes.{IsFlat, IsFlatNote};
ghost use Rattle.icu_collator_core.specs.Pairs.{IsPair, noted_elements};
ghost use Rattle.icu_collator_core.specs.PlainCharacters.{IsOwnBeginning, IsPlainCharacter};
ghost use Rattle.icu_collator_core.specs.PlainWords.{IsUnprefixed};
ghost use Rattle.icu_collator_core.specs.ReadSources.{IsAloneAnywhere};
ghost use Rattle.icu_collator_core.specs.TableMeaning.{weights_of};
ghost use Rattle.icu_collator_core.specs.TableSettings.{is_compressible_in};
ghost use Rattle.icu_collator_core.specs.UnsafeCharacters.{IsUnsafe};

use crate::check::TableFault;
use crate::compressible_leads::{compressible_leads, is_compressible_by};
use crate::notes::flat_note::FlatNote;
use crate::notes::flat_notes::flat_notes;
use crate::notes::found_pairs::pair_notes;
use crate::notes::pages::{NotePage, note_pages};
use crate::notes::pairs::{PairNote, PairNotes};
use crate::reading::checked_words::checked_word;
use crate::reading::next::find_alone;
use crate::sound::SoundTables;
use crate::tables::CollationTables;
use icu_collator_types::elements::CollationElement;
use icu_normalizer_core::canonical::{CanonicalBorrowed, CanonicalData};
use std::alloc::{AllocError, Global};
use std::marker::Model;

/// Collation data: tables that pass every check, with their canonical data and with notes, seen as the tables of both.
#[derive(Debug)]
pub struct CheckedTables<'a> {
    /// The tables of both.
    sound: SoundTables<'a>,
    /// What is noted of the low characters.
    low: Vec<FlatNote>,
    /// The same of those after them, in pages.
    pages: Vec<NotePage>,
    /// The same of pairs of characters.
    pairs: PairNotes,
    /// For each lead byte whether it is compressible.
    compressible: [bool; 256],
}

// (let go of as one, and not part by part, so that what owns one is proved sooner)
impl Drop for CheckedTables<'_> {
    fn drop(self) {
        let CheckedTables {
            sound: _,
            low: _,
            pages: _,
            pairs: _,
            compressible: _,
        } = self;
    }
}

impl<'a> Model for CheckedTables<'a> {
    ghost use Rattle.icu_collator_core.specs.Acceptance.{CollationSource};
    ghost use Rattle.icu_collator_core.specs.FlatNotes.{AreFlatNotes};
    ghost use Rattle.icu_collator_core.specs.CompressibleLeads.{AreCompressibleLeads};
    ghost use Rattle.icu_collator_core.specs.NotePages.{AreNotePages};
    ghost use Rattle.icu_collator_core.specs.Pairs.{ArePairNotes};

    ghost Value = { CollationSource };

    ghost view = { λ inside. inside.sound };

    ghost invariant = { λ inside. AreFlatNotes inside.sound inside.low.items
        × AreNotePages inside.sound inside.pages.items
        × ArePairNotes inside.sound inside.pairs
        × AreCompressibleLeads inside.sound.tables.special_primaries.last_primaries inside.compressible };
}

impl<'a> CheckedTables<'a> {
    /// Collation data from tables, if they pass every check with these canonical data; the first fault otherwise. Want
    /// of memory can come with any tables. Reads the words of all characters.
    pub fn try_new(
        alloc: Global,
        canonical: CanonicalData<'a>,
        tables: CollationTables<'a>,
    ) -> Result<CheckedTables<'a>, TableFault>
        ensures { MatchResult result
            (λ checked. (checked ≡ record { canonical = canonical.entry; tables = tables.entry }) × IsAccepted (meaning canonical.entry) tables.entry)
            (IsRefusal (meaning canonical.entry) tables.entry) }
    {
        let sound = SoundTables::try_new(alloc, canonical, tables)?;
        let checked = CheckedTables::noted(alloc, sound)?;
        Ok(checked)
    }

    /// Sound tables with notes. Fails only if memory is refused.
    fn noted(alloc: Global, sound: SoundTables<'a>) -> Result<CheckedTables<'a>, AllocError>
        ensures { IfOk result (λ checked. checked ≡ sound.entry) }
    {
        let low = flat_notes(alloc, &sound)?;
        let pages = note_pages(alloc, &sound)?;
        let pairs = pair_notes(alloc, &sound, low.as_slice(), pages.as_slice())?;
        let compressible = compressible_leads(&sound.tables().special_primaries);
        Ok(CheckedTables {
            sound,
            low,
            pages,
            pairs,
            compressible,
        })
    }

    /// The same tables, without notes.
    #[inline(always)]
    pub(crate) fn sound(&self) -> &SoundTables<'a>
        ensures { result.now ≡ self.now }
    {
        &self.sound
    }

    /// The canonical data that `try_new` was given. No memory is taken.
    pub fn canonical(&self) -> CanonicalBorrowed<'_>
        ensures { borrowed_tables result ≡ self.now.canonical }
    {
        self.sound.canonical()
    }

    /// The tables that `try_new` was given. No memory is taken.
    pub fn tables(&self) -> &CollationTables<'a>
        ensures { result.now ≡ self.now.tables }
    {
        self.sound.tables()
    }

    /// Checked tables pass every check with their canonical data.
    ///
    /// It computes nothing: its contract is what every holder of checked tables knows.
    pub fn keep_promise(&self)
        ensures { IsAccepted (meaning self.now.canonical) self.now.tables }
    {
        self.sound.keep_promise();
    }

    /// The element of a character that is read by itself, whatever stands before and after it; `None` for one that isn't,
    /// and for some that are. No memory is taken.
    #[inline]
    pub fn alone_element(&self, c: char) -> Option<CollationElement>
        ensures { IfSome result (λ bits. IsAloneAnywhere self.now c bits) }
    {
        match self.boundary_element(c) {
            Some(element) => Some(element),
            None => find_alone(&self.sound, c),
        }
    }

    /// The element of a character that is read by itself, whatever stands before and after it, that is its own full list
    /// (UAX 15), and at which the reading of a text may begin, be numbers read or not; `None` for another, for some that are
    /// so, and for all from U+10000 on. It takes one read below U+0800 and two after, and no memory.
    #[inline(always)]
    pub fn boundary_element(&self, c: char) -> Option<CollationElement>
        ensures plain { IfSome result (λ bits. IsPlainCharacter self.now c bits) }
        ensures unaccented { IfSome result (λ bits. is_accent c ≡ false) }
        ensures flat { IfSome result (λ bits. (numeric : Option ℕ) (before : ℕ) → IsFlat self.now numeric c before (bits ∷ []) 0) }
    {
        let element = self.note(c)?.boundary_element()?;
        Some(element)
    }

    /// Whether the reading of a text may begin at a character, and it is its own full list (UAX 15); `false` for another,
    /// and for some that are so. No memory is taken.
    #[inline]
    pub fn is_own_beginning(&self, c: char) -> bool
        ensures { IsTrue result → IsOwnBeginning (meaning self.now.canonical) (weights_of (meaning self.now.canonical) self.now.tables) c }
    {
        match self.boundary_element(c) {
            Some(_element) => true,
            None => self.sound.find_own_beginning(c),
        }
    }

    /// Whether no prefix is recorded with a character, so that nothing that stands before it counts for its elements;
    /// `false` for one whose word names prefixes. No memory is taken.
    pub fn is_unprefixed(&self, c: char) -> bool
        ensures { result ≡ true → IsUnprefixed (weights_of (meaning self.now.canonical) self.now.tables) c }
    {
        checked_word(&self.sound, c).is_unprefixed()
    }

    /// Whether a lead byte is left out of a key after a primary with the same lead. It takes one read and no memory.
    #[inline(always)]
    pub fn is_compressible(&self, lead: u8) -> bool
        ensures { result ≡ is_compressible_in self.now.tables.special_primaries.last_primaries lead }
    {
        is_compressible_by(&self.compressible, lead)
    }

    /// What is noted of a character; `None` for one after the low characters and in no page.
    #[inline(always)]
    pub(crate) fn note(&self, c: char) -> Option<&FlatNote>
        ensures { IfSome result (λ note. IsFlatNote self.now c note.now) }
    {
        match self.flat_note(c) {
            Some(note) => Some(note),
            None => self.paged_note(c),
        }
    }

    /// What is noted of a character; `None` for one after the low characters.
    #[inline(always)]
    pub(crate) fn flat_note(&self, c: char) -> Option<&FlatNote>
        ensures { IfSome result (λ note. IsFlatNote self.now c note.now) }
    {
        match self.low.get(c as usize) {
            Some(note) => Some(note),
            None => None,
        }
    }

    /// What is noted of a character after the low ones; `None` for one in no page.
    #[inline(always)]
    pub(crate) fn paged_note(&self, c: char) -> Option<&FlatNote>
        ensures { IfSome result (λ note. IsFlatNote self.now c note.now) }
    {
        let code = c as usize;
        let page = self.pages.get(code / 64)?;
        let note = page.get(code % 64)?;
        Some(note)
    }

    /// Whether prefixes are recorded with characters from U+0800 on. It takes one read.
    #[inline(always)]
    pub fn are_high_prefixed(&self) -> bool {
        self.pairs.are_high_prefixed()
    }

    /// What is noted of two characters that stand together; `None` of most.
    #[inline(always)]
    pub(crate) fn pair(&self, first: char, second: char) -> Option<&PairNote>
        ensures { IfSome result (λ pair. IsPair self.now first second (noted_elements pair.now) pair.now.trail) }
    {
        let pair = self.pairs.get(first, second)?;
        Some(pair)
    }

    /// Whether no reading of a text may begin at a character: it is a mark, stands second or later in a recorded text or
    /// has a recorded prefix, or its full list begins with such a character. No memory is taken.
    pub fn is_unsafe(&self, c: char) -> bool
        ensures { IsTrue result ↔ IsUnsafe (meaning self.now.canonical) (weights_of (meaning self.now.canonical) self.now.tables) c }
    {
        self.sound.is_unsafe(c)
    }
}

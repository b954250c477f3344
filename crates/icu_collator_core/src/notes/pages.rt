//! Notes of characters from U+0800 to U+FFFF, by which texts are read flat: found once for all, in pages of 64 characters, and
//! looked up by two reads. A page in which the tables name no character has none.

ghost use Rattle.std.specs.Prelude.{◌≡◌, ◌<◌, IfOk, IfSome, get_or};
ghost use Rattle.icu_collator_core.specs.FlatNotes.{IsFlatNote};
ghost use Rattle.icu_collator_core.specs.NotePages.{AreNotePages, IsNotePage};
ghost use Rattle.icu_collator_core.specs.declared.notes.flat_note.FlatNote.TheVariants.{Other};

use super::flat_note::FlatNote;
use super::flat_notes::{note_at, note_of, own_note};
use crate::sound::SoundTables;
use crate::table_words::counting_words::FALLBACK;
use crate::table_words::fields::has_tag;
use icu_collator_types::elements::Tag;
use icu_normalizer_core::built_in::{is_jamo, is_syllable};
use icu_normalizer_core::canonical::Reading;
use std::alloc::{AllocError, Global};
use std::marker::Model;

/// How many characters a page has.
const PAGE_LENGTH: u32 = 64;

/// The first page with notes: the characters before it have theirs in a list of their own.
const FIRST_PAGE: u32 = 0x800 / PAGE_LENGTH;

/// The pages end before this one, after U+FFFF.
const PAGE_END: u32 = 0x1_0000 / PAGE_LENGTH;

/// The notes of a page's characters, in their order, seen as the list of them; none where the page has none.
#[derive(Debug, Drop)]
pub(crate) struct NotePage {
    notes: Vec<FlatNote>,
}

impl Model for NotePage {
    ghost use Rattle.std.specs.Prelude.{List};
    ghost use Rattle.icu_collator_core.specs.declared.notes.flat_note.FlatNote.{FlatNote};

    ghost Value = { List FlatNote };

    ghost view = { λ inside. inside.notes.items };
}

impl NotePage {
    /// The note at an index, `None` after the last.
    #[inline(always)]
    pub(crate) fn get(&self, index: usize) -> Option<&FlatNote>
        ensures { IfSome result (λ note. note.now ≡ get_or self.now index Other) }
    {
        match self.notes.get(index) {
            Some(note) => Some(note),
            None => None,
        }
    }
}

/// Whether a word leaves its characters to their code points, or to another's tables.
#[inline]
fn is_left(word: u32) -> bool {
    word == FALLBACK || has_tag(word, Tag::Implicit)
}

/// Whether tables name a character: say more of it than that it is a starter and its own full list, and that its code gives its
/// element.
#[inline]
fn is_named(sound: &SoundTables<'_>, c: char) -> bool {
    let Reading::Itself(0) = sound.canonical().reading(c) else {
        return true;
    };
    let tables = sound.tables();
    if let Some(tailoring) = &tables.tailoring {
        if !is_left(tailoring.trie.get(c)) {
            return true;
        }
    }
    is_jamo(c as u32) || !is_left(tables.root.trie.get(c))
}

/// Whether tables name a character of a page, but for syllables, which their letters say all of.
fn is_named_in(sound: &SoundTables<'_>, page: u32) -> bool
    requires { page < 1024 }
{
    let first = page * PAGE_LENGTH;
    for code in first..first + PAGE_LENGTH {
        if let Some(c) = char::from_u32(code) {
            if !is_syllable(code) && is_named(sound, c) {
                return true;
            }
        }
    }
    false
}

/// The notes of a page.
fn note_page(alloc: Global, sound: &SoundTables<'_>, page: u32) -> Result<NotePage, AllocError>
    requires { page < 1024 }
    ensures { IfOk result (λ notes. IsNotePage sound.now page notes) }
{
    let mut notes = Vec::new(alloc);
    for index in 0..PAGE_LENGTH {
        let note = note_at(alloc, sound, page * PAGE_LENGTH + index)?;
        notes.push(note)?;
    }
    Ok(NotePage { notes })
}

/// The notes of a page, none where the tables name no character in it.
fn page_at(alloc: Global, sound: &SoundTables<'_>, page: u32) -> Result<NotePage, AllocError>
    requires { page < 1024 }
    ensures { IfOk result (λ notes. IsNotePage sound.now page notes) }
{
    if page >= FIRST_PAGE && is_named_in(sound, page) {
        let notes = note_page(alloc, sound, page)?;
        Ok(notes)
    } else {
        Ok(NotePage {
            notes: Vec::new(alloc),
        })
    }
}

/// The pages of notes, in their order.
pub(crate) fn note_pages(
    alloc: Global,
    sound: &SoundTables<'_>,
) -> Result<Vec<NotePage>, AllocError>
    ensures { IfOk result (λ pages. AreNotePages sound.now pages.items) }
{
    let mut pages = Vec::new(alloc);
    for page in 0..PAGE_END {
        let notes = page_at(alloc, sound, page)?;
        pages.push(notes)?;
    }
    Ok(pages)
}

/// What is to be noted of a character in no page. Of a syllable nothing.
#[inline(never)]
pub(crate) fn unpaged_note(sound: &SoundTables<'_>, c: char) -> FlatNote
    ensures { IsFlatNote sound.now c result }
{
    if is_syllable(c as u32) {
        return FlatNote::Other;
    }
    match sound.canonical().reading(c) {
        Reading::Itself(class) => own_note(sound, c, class),
        _ => note_of(sound, c),
    }
}

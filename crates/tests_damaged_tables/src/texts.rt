//! Texts, and what the tables of a collation mean of them.

use crate::choices::Choice;
use icu_collator_core::checked::CheckedTables;
use icu_collator_core::tables::CollationTables;
use icu_normalizer_core::canonical::CanonicalTables;
use samples_icu_collator::keys::key_of_levels;
use samples_icu_collator::levels::{Levels, levels_of};
use samples_icu_collator::plain::plain_elements;
use samples_icu_collator::plain::recorded::Tables;
use samples_icu_collator::read::read_elements;
use samples_icu_normalizer::canonical::decomposed;
use samples_icu_normalizer::encoded_texts::{
    Encoded, LATIN1_TEXTS, TEXTS, characters, in_each_encoding, latin1_characters,
};
use std::alloc::Global;

/// A text as it is read by tables.
pub struct ReadText {
    /// The text.
    pub text: Encoded,
    /// Its decomposed list.
    list: Vec<char>,
    /// Its elements, with digits read one by one.
    elements: Vec<u64>,
    /// Its elements, with digits read as numbers.
    with_numbers: Vec<u64>,
}

// (let go of as one, and not part by part, so that what owns one is proved sooner)
impl Drop for ReadText {
    fn drop(self) {
        let ReadText {
            text: _,
            list: _,
            elements: _,
            with_numbers: _,
        } = self;
    }
}

/// What tables mean of a text under options.
pub struct Meant {
    /// Its levels.
    pub levels: Levels,
    /// Its sort key.
    pub key: Vec<u8>,
}

// (let go of as one, and not part by part, so that what owns one is proved sooner)
impl Drop for Meant {
    fn drop(self) {
        let Meant { levels: _, key: _ } = self;
    }
}

/// The elements of characters, where they are those that the tables mean. With a lead the digits are read as numbers.
fn elements_of(
    alloc: Global,
    tables: &CheckedTables<'_>,
    characters: &[char],
    lead: Option<u8>,
) -> Option<Vec<u64>> {
    let plain = Tables {
        canonical: tables.canonical(),
        tables: tables.tables(),
    };
    let slow = plain_elements(alloc, &plain, characters, lead)?;
    let elements = read_elements(alloc, tables, characters, lead)?;
    if slow.as_slice() == elements.as_slice() {
        Some(slow)
    } else {
        None
    }
}

/// Characters as they are read; `None` where the elements aren't those that the tables mean, or memory is refused.
fn read_text(
    alloc: Global,
    canonical: &CanonicalTables<'_>,
    tables: &CheckedTables<'_>,
    characters: &[char],
) -> Option<ReadText> {
    let lead = tables.tables().special_primaries.numeric_primary;
    let elements = elements_of(alloc, tables, characters, None)?;
    let with_numbers = elements_of(alloc, tables, characters, Some(lead))?;
    let list = decomposed(alloc, canonical, characters)?;
    let text = in_each_encoding(alloc, characters)?;
    Some(ReadText {
        text,
        list,
        elements,
        with_numbers,
    })
}

/// All texts as they are read; `None` where the elements of one aren't those that the tables mean, or memory is
/// refused.
pub fn read_texts(
    alloc: Global,
    canonical: &CanonicalTables<'_>,
    tables: &CheckedTables<'_>,
) -> Option<Vec<ReadText>> {
    let mut texts = Vec::new(alloc);
    for text in TEXTS {
        let characters = characters(alloc, text)?;
        let text = read_text(alloc, canonical, tables, characters.as_slice())?;
        texts.push(text).ok()?;
    }
    Some(texts)
}

/// The same of the texts in Latin-1.
pub fn read_latin1_texts(
    alloc: Global,
    canonical: &CanonicalTables<'_>,
    tables: &CheckedTables<'_>,
) -> Option<Vec<ReadText>> {
    let mut texts = Vec::new(alloc);
    for text in LATIN1_TEXTS {
        let characters = latin1_characters(alloc, text)?;
        let text = read_text(alloc, canonical, tables, characters.as_slice())?;
        texts.push(text).ok()?;
    }
    Some(texts)
}

impl ReadText {
    /// What tables mean of the text under the options of a choice.
    pub fn meaning(
        &self,
        alloc: Global,
        tables: &CollationTables<'_>,
        choice: &Choice,
    ) -> Option<Meant> {
        let elements = if choice.is_numeric() {
            self.with_numbers.as_slice()
        } else {
            self.elements.as_slice()
        };
        let list = self.list.as_slice();
        let levels = levels_of(alloc, tables, choice.options, elements, list)?;
        let key = key_of_levels(alloc, &levels)?;
        Some(Meant { levels, key })
    }
}

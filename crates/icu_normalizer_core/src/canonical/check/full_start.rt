//! The first nine characters of full lists, read from tables that aren't checked yet.

ghost use Rattle.std.specs.Prelude.{◌≡◌, ◌+◌, ◌^◌, ◌<◌, [], true, take, slice_get};
ghost use Rattle.icu_normalizer_core.specs.CanonicalMeaning.{meaning};
ghost use Rattle.icu_normalizer_core.specs.CanonicalWords.{items_at, is_list_word, list_at};
ghost use Rattle.icu_normalizer_core.specs.FullLists.{source_items};
ghost use Rattle.icu_normalizer_core.specs.Settled.{left_items};
ghost use Rattle.icu_normalizer_core.specs.Words.{full_in, word_lists};

use super::left::Left;
use crate::canonical::canonical_words::{Words, is_list_word};
use crate::canonical::full_list::{FullList, Source, stated};
use crate::canonical::tables::CanonicalTables;

impl Left {
    /// No character.
    pub(crate) fn none() -> Left
        ensures { left_items result ≡ [] }
    {
        Left {
            characters: [0; 9],
            count: 0,
        }
    }
}

/// The number at an index, `None` past the end.
fn number_at(words: Words<'_>, source: Source, index: usize) -> Option<u32>
    ensures { result ≡ slice_get (source_items words.entry source) index }
{
    match source {
        Source::Few(characters) => match characters.get(index) {
            Some(c) => Some(*c as u32),
            None => None,
        },
        Source::In16 => match words.scalars16.get(index) {
            Some(number) => Some(number as u32),
            None => None,
        },
        Source::In24 => match words.scalars24.get(index) {
            Some(c) => Some(c as u32),
            None => None,
        },
    }
}

/// The first nine of so many numbers from an index on, as many as there are.
fn part_start(words: Words<'_>, source: Source, index: usize, count: usize) -> Left
    requires { index + count < 2 ^ 32 }
    ensures { left_items result ≡ take 9 (items_at (source_items words.entry source) index count) }
{
    let mut left = Left::none();
    for i in 0..count {
        if let Some(number) = number_at(words, source, index + i) {
            left = left.with(number);
        }
    }
    left
}

/// The first nine numbers of the list that a word names an index of.
#[tactic(auto, unfolding(crate::specs::CanonicalWords::list_at))]
fn listed_start(words: Words<'_>, word: u32) -> Left
    requires word { is_list_word word ≡ true }
    requires bound { word < 2 ^ 30 }
    ensures { left_items result ≡ take 9 (list_at words.entry.scalars16.now words.entry.scalars24.now word) }
{
    let offset = (word / 0x1_0000) as usize - 1;
    let count = (word % 16) as usize;
    let in_16 = words.scalars16.len();
    if offset < in_16 {
        part_start(words, Source::In16, offset, count + 2)
    } else {
        part_start(words, Source::In24, offset - in_16, count + 1)
    }
}

/// The first nine characters of a list.
fn start_of(list: FullList<'_>) -> Left
    ensures { left_items result ≡ take 9 list.entry }
{
    let mut left = Left::none();
    for c in list {
        left = left.with(c as u32);
    }
    left
}

/// The first nine numbers of the full list of a character.
pub(crate) fn full_start(tables: &CanonicalTables<'_>, c: char) -> Left
    ensures { left_items result ≡ take 9 ((meaning tables.now).full c) }
{
    tables.words().full_start(c)
}

impl Words<'_> {
    /// The first nine numbers of the full list that the words state of a character.
    pub(crate) fn full_start(self, c: char) -> Left
        ensures { left_items result ≡ take 9 (full_in (word_lists self.entry) c) }
    {
        let word = self.word(c);
        if is_list_word(word) {
            listed_start(self, word)
        } else {
            start_of(stated(self, c, word))
        }
    }
}

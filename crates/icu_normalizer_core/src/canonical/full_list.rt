//! Full lists, read where they stand.

ghost use Rattle.std.specs.Prelude.{◌≡◌, ◌-◌, ◌^◌, ◌<◌, true, false, [], ◌∷◌, length, slice_index, All, unwrap_or};
ghost use Rattle.std.specs.Char.{IsScalar};
ghost use Rattle.std.specs.Iterator.{YieldsFirst, item_count};
ghost use Rattle.icu_normalizer_core.specs.CanonicalWords.{items_at, is_list_word, list_at, syllable_letters, full_of_word};
ghost use Rattle.icu_normalizer_core.specs.CanonicalMeaning.{meaning};
ghost use Rattle.icu_normalizer_core.specs.BuiltIn.{singled_out};
ghost use Rattle.icu_normalizer_core.specs.FullLists.{source_items, IsPart};
ghost use Rattle.icu_normalizer_core.specs.Words.{full_in, word_lists};

use super::canonical_words::{Words, is_list_word, is_one_word, is_pair_word, is_singled_word};
use super::tables::CanonicalTables;
use crate::built_in::{letter, singled_out};
use crate::decomposed::Decomposed;
use std::iter::FusedIterator;
use std::marker::Model;

/// Where the characters of a full list stand.
#[derive(Clone, Copy, Debug)]
pub(super) enum Source {
    /// Here, from the first on.
    Few([char; 3]),
    /// In the words' `scalars16`.
    In16,
    /// In the words' `scalars24`.
    In24,
}

/// The full list of a character, in order, seen as the list of the characters that are left. Nothing is
/// allocated.
#[derive(Debug, Drop)]
pub struct FullList<'d> {
    words: Words<'d>,
    source: Source,
    next: usize,
    end: usize,
}

impl<'d> Model for FullList<'d> {
    ghost use Rattle.std.specs.Prelude.{ℕ, ◌-◌, List};
    ghost use Rattle.icu_normalizer_core.specs.CanonicalWords.{items_at};
    ghost use Rattle.icu_normalizer_core.specs.FullLists.{source_items, IsPart};

    ghost Value = { List ℕ };

    ghost view = { λ it. items_at (source_items it.words it.source) it.next (it.end - it.next) };

    ghost invariant = { λ it. IsPart (source_items it.words it.source) it.next it.end };
}

/// The character at an index.
#[inline]
fn character_at(words: Words<'_>, source: Source, index: usize) -> char
    requires inside { index < length (source_items words source) }
    requires scalar { IsScalar (slice_index (source_items words source) index) }
    ensures { result ≡ slice_index (source_items words.entry source) index }
{
    match source {
        Source::Few(characters) => characters[index],
        Source::In16 => char::from_u32(words.scalars16.at(index) as u32).unwrap(),
        Source::In24 => words.scalars24.at(index),
    }
}

impl<'d> FullList<'d> {
    /// The characters from one index to before another.
    #[inline]
    fn new(words: Words<'d>, source: Source, next: usize, end: usize) -> FullList<'d>
        requires { IsPart (source_items words source) next end }
        ensures { result ≡ items_at (source_items words.entry source) next (end - next) }
    {
        FullList {
            words,
            source,
            next,
            end,
        }
    }
}

/// So many characters from an index on, as many as there are.
#[inline]
fn part<'d>(
    words: Words<'d>,
    source: Source,
    items: usize,
    index: usize,
    count: usize,
) -> FullList<'d>
    requires items { items ≡ length (source_items words source) }
    requires scalars { All IsScalar (items_at (source_items words source) index count) }
    ensures { result ≡ items_at (source_items words.entry source) index count }
{
    let next = index.min(items);
    let end = next + count.min(items - next);
    FullList::new(words, source, next, end)
}

/// The list of one character.
#[inline]
fn one<'d>(words: Words<'d>, a: char) -> FullList<'d>
    ensures { result ≡ a ∷ [] }
{
    FullList::new(words, Source::Few([a, a, a]), 0, 1)
}

/// The list of two characters.
#[inline]
fn two<'d>(words: Words<'d>, a: char, b: char) -> FullList<'d>
    ensures { result ≡ a ∷ b ∷ [] }
{
    FullList::new(words, Source::Few([a, b, b]), 0, 2)
}

/// The letters of a Hangul syllable (UAX 15).
#[tactic(auto, unfolding(crate::specs::CanonicalWords::syllable_letters))]
fn letters<'d>(words: Words<'d>, c: u32) -> FullList<'d>
    requires { c < 0x110000 }
    ensures { result ≡ syllable_letters c }
{
    let index = c.saturating_sub(0xac00);
    let leading = letter(0x1100 + index / 588);
    let vowel = letter(0x1161 + index % 588 / 28);
    let trailing = index % 28;
    if trailing == 0 {
        two(words, leading, vowel)
    } else {
        let last = letter(0x11a7 + trailing);
        FullList::new(words, Source::Few([leading, vowel, last]), 0, 3)
    }
}

/// The list of a built-in mapping to characters that aren't mapped, or the character itself.
fn singled<'d>(words: Words<'d>, c: char) -> FullList<'d>
    ensures { result ≡ unwrap_or (singled_out c) (c ∷ []) }
{
    match singled_out(c as u32) {
        None => one(words, c),
        Some(Decomposed::Default) => FullList::new(words, Source::In24, 0, 0),
        Some(Decomposed::Singleton(a)) => one(words, a),
        Some(Decomposed::Expansion(a, b)) => two(words, a, b),
    }
}

/// The list that a word names an index of.
#[tactic(auto, unfolding(crate::specs::CanonicalWords::list_at))]
fn listed<'d>(words: Words<'d>, word: u32) -> FullList<'d>
    requires word { is_list_word word ≡ true }
    requires scalars { All IsScalar (list_at words.scalars16.now words.scalars24.now word) }
    ensures { result ≡ list_at words.entry.scalars16.now words.entry.scalars24.now word }
{
    let offset = (word / 0x1_0000) as usize - 1;
    let count = (word % 16) as usize;
    let in_16 = words.scalars16.len();
    if offset < in_16 {
        part(words, Source::In16, in_16, offset, count + 2)
    } else {
        let in_24 = words.scalars24.len();
        part(words, Source::In24, in_24, offset - in_16, count + 1)
    }
}

/// The list that a word states by itself.
#[inline]
#[tactic(auto, unfolding(crate::specs::CanonicalWords::full_of_word))]
pub(super) fn stated<'d>(words: Words<'d>, c: char, word: u32) -> FullList<'d>
    requires word { is_list_word word ≡ false }
    requires bound { word < 2 ^ 30 }
    ensures { result ≡ full_of_word words.entry.scalars16.now words.entry.scalars24.now c word }
{
    if is_pair_word(word) {
        two(words, character(word % 0x8000), character(word / 0x8000))
    } else if is_one_word(word) {
        one(words, character(word))
    } else if word == 1 {
        letters(words, c as u32)
    } else if is_singled_word(word) {
        singled(words, c)
    } else {
        one(words, c)
    }
}

/// A scalar value as a character.
#[inline]
pub(super) fn character(code: u32) -> char
    requires { IsScalar code }
    ensures { result ≡ code }
{
    char::from_u32(code).unwrap()
}

/// The full list of a character.
#[inline]
pub(crate) fn full_list<'d>(tables: &'d CanonicalTables<'d>, c: char) -> FullList<'d>
    requires { All IsScalar ((meaning tables.now).full c) }
    ensures { result ≡ (meaning tables.now).full c }
{
    tables.words().full_list(c)
}

impl<'t> Words<'t> {
    /// The full list that the words state of a character.
    #[inline]
    pub(crate) fn full_list(self, c: char) -> FullList<'t>
        requires { All IsScalar (full_in (word_lists self) c) }
        ensures { result ≡ full_in (word_lists self.entry) c }
    {
        let word = self.word(c);
        if is_list_word(word) {
            listed(self, word)
        } else {
            stated(self, c, word)
        }
    }
}

impl Iterator for FullList<'_> {
    type Item = char;

    ghost next_gives = { YieldsFirst (λ rest. rest) };

    ghost remaining = { item_count (λ rest. rest) };

    #[inline]
    fn next(&mut self) -> Option<char> {
        if self.next == self.end {
            return None;
        }
        let index = self.next;
        let c = character_at(self.words, self.source, index);
        self.next = index + 1;
        Some(c)
    }
}

impl FusedIterator for FullList<'_> {}

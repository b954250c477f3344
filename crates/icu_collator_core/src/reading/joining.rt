//! The longest recorded text at an index of a list, with the marks that join it.

ghost use Rattle.std.specs.Prelude.{◌≡◌, ℕ, ◌+◌, ◌-◌, ◌<◌, ◌≤◌, List, [], ◌∷◌, drop, length, slice_index, take, true};
ghost use Rattle.std.specs.Bool.{OnFalse, OnTrue};
ghost use lib.Utf8.{scalars};
ghost use Rattle.smallvec.specs.SmallVec.{small_vec_len};
ghost use Rattle.icu_char16trie.specs.Cursors.{trie_units};
ghost use Rattle.icu_normalizer_core.specs.BorrowedMeaning.{borrowed_meaning};
ghost use Rattle.icu_collator_core.specs.Elements.{joining, match_length, placed};
ghost use Rattle.icu_collator_core.specs.JoinedTexts.{HasReadMark, IsFoundAs, IsTextMatch, IsWordOfText, brought_forward, has_suffixes};
ghost use Rattle.icu_collator_core.specs.MovedMarks.{moves_marks};
ghost use Rattle.icu_collator_core.specs.ReadTexts.{IsAtText, suffix_units};
ghost use Rattle.icu_collator_core.specs.ReadWords.{AreSaidBy, table_word};
ghost use Rattle.icu_collator_core.specs.TableMeaning.{pools_of};
ghost use Rattle.icu_collator_core.specs.Weights.{Weights};

use super::marks::cursor_behind;
use crate::table_words::counting_words::CountingWord;
use icu_char16trie::{Char16Trie, Char16TrieIterator};
use icu_normalizer_core::canonical::CanonicalBorrowed;
use smallvec::SmallVec;

/// The longest recorded text at an index of a list, with the marks that joined it.
#[derive(Clone, Copy, Debug)]
pub(crate) struct TextMatch {
    /// Its word; `None` where it is a character alone.
    pub(crate) word: Option<u32>,
    /// Where in the list begins what is left to be read.
    pub(crate) next: usize,
}

/// A text that marks may join yet.
#[derive(Clone, Copy, Debug)]
struct OpenText<'t> {
    /// After what the text has after its first character.
    cursor: Char16TrieIterator<'t>,
    /// The text's word; `None` where it is a character alone.
    word: Option<u32>,
    /// Where in the list the marks left between begin.
    next: usize,
    /// The highest class among those marks.
    highest: u8,
}

/// Moves the character at an index in front of those from another index on.
fn bring_forward(list: &mut [char], from: usize, index: usize)
    requires order { from ≤ index }
    requires inside { index < length list.old }
    ensures { list.new ≡ brought_forward list.old from index }
{
    list[from..index + 1].rotate_right(1);
}

impl OpenText<'_> {
    /// The text where no mark is left that could join it.
    fn found(self) -> TextMatch
        ensures { result ≡ record { word = self.entry.word; next = self.entry.next } }
    {
        TextMatch {
            word: self.word,
            next: self.next,
        }
    }

    /// Reads the character at an index: a mark joins the text, where it moves in front of those left between, or is left
    /// between with them. Whether it is a mark; nothing changes where it is a starter.
    fn meets_mark(
        &mut self,
        canonical: CanonicalBorrowed<'_>,
        entry: CountingWord<'_>,
        list: &mut [char],
        index: usize,
    ) -> bool
        requires within { self.old.next ≤ index }
        requires inside { index < length list.old }
        ensures mark { OnTrue result (HasReadMark (borrowed_meaning canonical.entry) (table_word entry.entry) index list.old self.old list.new self.new) }
        ensures starter { OnFalse result ((borrowed_meaning canonical.entry).class (slice_index list.old index) ≡ 0) }
        ensures kept { OnFalse result ((self.new ≡ self.old) × (list.new ≡ list.old)) }
        ensures next { self.new.next ≤ index + 1 }
    {
        let mark = list[index];
        let class = canonical.class(mark);
        if class == 0 {
            return false;
        }
        if class <= self.highest {
            return true;
        }
        let Some(word) = entry.join(&mut self.cursor, mark) else {
            self.highest = class;
            return true;
        };
        bring_forward(list, self.next, index);
        self.word = Some(word);
        self.next += 1;
        true
    }
}

/// The longest recorded text that begins with the character of a word, by what stands after it from an index of a list
/// on, before any mark joined it. The trie has what may stand after it.
fn longest_open<'t>(
    entry: CountingWord<'_>,
    trie: &'t Char16Trie<'_>,
    list: &[char],
    start: usize,
) -> OpenText<'t>
    requires inside { start ≤ length list.now }
    requires trie { trie_units trie.now ≡ suffix_units (table_word entry) }
    ensures begins { start ≤ result.next }
    ensures within { result.next ≤ length list.now }
    ensures none { result.highest ≡ 0 }
    ensures stands { IsAtText (suffix_units (table_word entry.entry)) (take (result.next - start) (drop start list.now)) result.cursor }
    ensures count { (weights : Weights) (c : ℕ) → AreSaidBy weights (table_word entry.entry) c → scalars (drop start list.now) ≡ true
        → match_length weights (c ∷ drop start list.now) ≡ result.next - start + 1 }
    ensures word { (weights : Weights) (c : ℕ) → AreSaidBy weights (table_word entry.entry) c → scalars (drop start list.now) ≡ true
        → IsWordOfText weights (pools_of entry.entry.source.now) c (c ∷ take (result.next - start) (drop start list.now)) result.word }
{
    match entry.longer_text(list, start) {
        Some(text) => OpenText {
            cursor: cursor_behind(trie, list, start, text.behind),
            word: Some(text.word),
            next: start + text.behind,
            highest: 0,
        },
        None => OpenText {
            cursor: cursor_behind(trie, list, start, 0),
            word: None,
            next: start,
            highest: 0,
        },
    }
}

/// Joins a text with the marks that follow it in a list. Those that joined are moved in front of those left between.
fn join_marks(
    canonical: CanonicalBorrowed<'_>,
    entry: CountingWord<'_>,
    first: OpenText<'_>,
    list: &mut [char],
) -> TextMatch
    requires inside { first.next ≤ length list.old }
    requires none { first.highest ≡ 0 }
    ensures moved { moves_marks (borrowed_meaning canonical.entry).class list.old list.new ≡ true }
    ensures kept { scalars list.old ≡ true → scalars list.new ≡ true }
    ensures begins { first.entry.next ≤ result.next }
    ensures within { result.next ≤ length list.old }
    ensures found { (weights : Weights) (c : ℕ) (suffix : List ℕ) → AreSaidBy weights (table_word entry.entry) c → has_suffixes (table_word entry.entry) ≡ true
        → IsAtText (suffix_units (table_word entry.entry)) suffix first.entry.cursor
        → IsWordOfText weights (pools_of entry.entry.source.now) c (c ∷ suffix) first.entry.word
        → scalars suffix ≡ true → scalars (drop first.entry.next list.old) ≡ true
        → IsFoundAs (borrowed_meaning canonical.entry) weights (pools_of entry.entry.source.now) c
        (joining (borrowed_meaning canonical.entry) weights (c ∷ suffix) [] (drop first.entry.next (placed list.old))) result list.new }
{
    let mut text = first;
    for index in first.next..list.len() {
        if !text.meets_mark(canonical, entry, list, index) {
            return text.found();
        }
    }
    text.found()
}

/// The longest recorded text at an index of a list, by the word that counts for the character there, with the marks that
/// join it.
fn found_match(
    canonical: CanonicalBorrowed<'_>,
    entry: CountingWord<'_>,
    list: &mut [char],
    index: usize,
) -> TextMatch
    requires { index < length list.old }
    ensures found { IsTextMatch (borrowed_meaning canonical.entry) (table_word entry.entry) index list.old result list.new }
    ensures moved { moves_marks (borrowed_meaning canonical.entry).class list.old list.new ≡ true }
    ensures kept { scalars list.old ≡ true → scalars list.new ≡ true }
    ensures begins { index < result.next }
    ensures within { result.next ≤ length list.old }
{
    let start = index + 1;
    let Some(trie) = entry.suffixes() else {
        return TextMatch {
            word: None,
            next: start,
        };
    };
    let text = longest_open(entry, &trie, list, start);
    join_marks(canonical, entry, text, list)
}

/// The longest recorded text at an index of a list, by the word that counts for the character there, with the marks that
/// join it. Those are moved in front of the marks left between: what is left to be read stands after them.
pub(crate) fn text_match(
    canonical: CanonicalBorrowed<'_>,
    entry: CountingWord<'_>,
    list: &mut SmallVec<char, 64>,
    index: usize,
) -> TextMatch
    requires { index < small_vec_len list.old }
    ensures found { IsTextMatch (borrowed_meaning canonical.entry) (table_word entry.entry) index list.old.items result list.new.items }
    ensures moved { moves_marks (borrowed_meaning canonical.entry).class list.old.items list.new.items ≡ true }
    ensures kept { scalars list.old.items ≡ true → scalars list.new.items ≡ true }
    ensures same_length { small_vec_len list.new ≡ small_vec_len list.old }
    ensures begins { index < result.next }
    ensures within { result.next ≤ small_vec_len list.old }
{
    found_match(canonical, entry, list.as_mut_slice(), index)
}

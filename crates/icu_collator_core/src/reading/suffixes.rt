//! The longest recorded text that begins with a character.

ghost use Rattle.std.specs.Prelude.{◌≡◌, ◌+◌, ◌<◌, ◌≤◌, ◌∷◌, ℕ, [], true, IfSome, IsTrue, drop, is_some, length, option_map, take};
ghost use Rattle.std.specs.Int.{cast_unsigned, w32};
ghost use Rattle.std.specs.Option.{option_and_then};
ghost use lib.Utf8.{scalars};
ghost use Rattle.icu_char16trie.specs.Cursors.{answered, trie_units};
ghost use Rattle.icu_char16trie.specs.UnitMaps.{IsLast};
ghost use Rattle.icu_collator_core.specs.ReadTexts.{found_or, length_with, longer_by, longest_text, text_by};
ghost use Rattle.icu_collator_core.specs.Elements.{match_length};
ghost use Rattle.icu_collator_core.specs.Pools.{elements_of_word, index_of, trie_of};
ghost use Rattle.icu_collator_core.specs.ReadWords.{AreSaidBy, table_word};
ghost use Rattle.icu_collator_core.specs.TableMeaning.{pools_of};
ghost use Rattle.icu_collator_core.specs.Weights.{Weights};

use crate::table_words::contexts::{units_of, word_of};
use crate::table_words::counting_words::CountingWord;
use crate::table_words::fields::{has_tag, index_of};
use crate::table_words::lone_words::unprefixed_word;
use crate::table_words::word_elements::has_elements;
use crate::tables::CollationData;
use icu_char16trie::{Char16Trie, TrieResult};
use icu_collator_types::elements::Tag;

/// A recorded text of two characters or more.
#[derive(Clone, Copy, Debug)]
pub(crate) struct LongerText {
    /// How many characters it has after its first.
    pub(crate) behind: usize,
    /// Its word.
    pub(crate) word: u32,
}

/// Whether no longer text begins with what a cursor was given.
pub(crate) fn is_last(answer: TrieResult) -> bool
    ensures { IsTrue result → IsLast answer }
{
    matches!(answer, TrieResult::NoMatch | TrieResult::FinalValue(_))
}

/// The text with so many characters after its first that a word makes, if the word has elements.
#[tactic(auto, unfolding(crate::specs::ReadTexts::text_by))]
fn text_by(source: &CollationData<'_>, behind: usize, word: u32) -> Option<LongerText>
    ensures { result ≡ text_by (pools_of source.now) behind word }
{
    if has_elements(source, word) {
        Some(LongerText { behind, word })
    } else {
        None
    }
}

/// The text with so many characters after its first that an answer makes, or else the one before.
pub(super) fn longer_of(
    source: &CollationData<'_>,
    behind: usize,
    answer: TrieResult,
    before: Option<LongerText>,
) -> Option<LongerText>
    ensures { result ≡ found_or (option_and_then (text_by (pools_of source.now) behind) (option_map (cast_unsigned w32) (answered answer))) before }
{
    let found = match word_of(answer) {
        Some(word) => text_by(source, behind, word),
        None => None,
    };
    match found {
        Some(text) => Some(text),
        None => before,
    }
}

/// The longest text that a trie has from an index of a list on.
fn longest_text(
    source: &CollationData<'_>,
    trie: &Char16Trie<'_>,
    list: &[char],
    start: usize,
) -> Option<LongerText>
    requires { start ≤ length list.now }
    ensures { result ≡ longest_text (pools_of source.now) (trie_units trie.now) (drop start list.now) }
{
    let mut cursor = trie.iter();
    let mut longest = None;
    for index in start..list.len() {
        let answer = cursor.next(list[index]);
        longest = longer_of(source, index + 1 - start, answer, longest);
        if is_last(answer) {
            return longest;
        }
    }
    longest
}

/// The trie of the context that a word names.
pub(super) fn context_of<'t>(source: &'t CollationData<'_>, word: u32) -> Char16Trie<'t>
    ensures { trie_units result ≡ trie_of source.now.contexts (index_of word) }
{
    Char16Trie::new(units_of(&source.contexts, index_of(word)))
}

impl CountingWord<'_> {
    /// The longest recorded text that begins with the character of the word, by what stands after it from an index of a
    /// list on; `None` where there is none but the character alone.
    #[tactic(auto, unfolding(crate::specs::ReadTexts::longer_by))]
    fn found_text(self, list: &[char], start: usize) -> Option<LongerText>
        requires { start ≤ length list.now }
        ensures { result ≡ longer_by (table_word self.entry) (drop start list.now) }
    {
        let word = unprefixed_word(self.source, self.word);
        if !has_tag(word, Tag::Contraction) {
            return None;
        }
        let trie = context_of(self.source, word);
        longest_text(self.source, &trie, list, start)
    }

    /// The same: it is the match of all weights that the word says.
    pub(crate) fn longer_text(self, list: &[char], start: usize) -> Option<LongerText>
        requires { start ≤ length list.now }
        ensures text { result ≡ longer_by (table_word self.entry) (drop start list.now) }
        ensures count { (weights : Weights) (c : ℕ) → AreSaidBy weights (table_word self.entry) c → scalars (drop start list.now) ≡ true
            → match_length weights (c ∷ drop start list.now) ≡ length_with result }
        ensures record { IfSome result (λ text. (weights : Weights) (c : ℕ) → AreSaidBy weights (table_word self.entry) c → scalars (drop start list.now) ≡ true
            → weights.recorded [] (c ∷ take text.behind (drop start list.now)) ≡ elements_of_word (pools_of self.entry.source.now) text.word) }
        ensures filled { IfSome result (λ text. 0 < text.behind) }
        ensures within { IfSome result (λ text. start + text.behind ≤ length list.now) }
        ensures spelled { IfSome result (λ text. is_some (elements_of_word (pools_of self.entry.source.now) text.word) ≡ true) }
    {
        self.found_text(list, start)
    }
}

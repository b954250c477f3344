//! The longest recorded prefix that stands before a character.

ghost use Rattle.std.specs.Prelude.{◌≡◌, ◌≤◌, ℕ, List, Option, length, take, true};
ghost use Rattle.std.specs.Option.{option_and_then};
ghost use lib.Utf8.{scalars};
ghost use Rattle.icu_char16trie.specs.Cursors.{trie_units};
ghost use Rattle.icu_collator_core.specs.AlikeLists.{IsToldAlone, IsToldAt};
ghost use Rattle.icu_collator_core.specs.Elements.{prefix_match};
ghost use Rattle.icu_collator_core.specs.Pools.{Pools, elements_of_word};
ghost use Rattle.icu_collator_core.specs.ReadSources.{weights_by};
ghost use Rattle.icu_collator_core.specs.ReadTexts.{characters_before, characters_behind, longest_text, prefixed_by};
ghost use Rattle.icu_collator_core.specs.ReadWords.{AreSaidBy, table_word};
ghost use Rattle.icu_collator_core.specs.TableMeaning.{pools_of};
ghost use Rattle.icu_collator_core.specs.Weights.{Weights};

use super::checked_words::checked_word;
use super::suffixes::{LongerText, context_of, is_last, longer_of};
use crate::sound::SoundTables;
use crate::table_words::counting_words::CountingWord;
use crate::table_words::fields::has_tag;
use crate::tables::CollationData;
use icu_char16trie::{Char16Trie, TrieResult};
use icu_collator_types::elements::Tag;

/// How many characters a prefix may have.
const LONGEST_PREFIX: usize = 3;

/// The longest text that a trie has before an index of a list, the nearest character first.
fn nearest_text(
    source: &CollationData<'_>,
    trie: &Char16Trie<'_>,
    list: &[char],
    index: usize,
) -> Option<LongerText>
    requires { index ≤ length list.now }
    ensures { result ≡ longest_text (pools_of source.now) (trie_units trie.now) (characters_before list.now index) }
{
    let mut cursor = trie.iter();
    let mut longest = None;
    for n in 0..index.min(LONGEST_PREFIX) {
        let answer = cursor.next(list[index - 1 - n]);
        longest = longer_of(source, n + 1, answer, longest);
        if is_last(answer) {
            return longest;
        }
    }
    longest
}

/// Whether the longest text that a trie has before an index of a list is the same whatever else stands before the list.
fn is_nearest_told(trie: &Char16Trie<'_>, list: &[char], index: usize) -> bool
    requires { index ≤ length list.now }
    ensures { result ≡ true → (pools : Pools) (further : List ℕ) → longest_text pools (trie_units trie.now) (characters_behind further list.now index)
        ≡ longest_text pools (trie_units trie.now) (characters_before list.now index) }
{
    if index >= LONGEST_PREFIX {
        return true;
    }
    let mut cursor = trie.iter();
    for n in 0..index {
        let answer = cursor.next(list[index - 1 - n]);
        if is_last(answer) {
            return true;
        }
    }
    false
}

impl CountingWord<'_> {
    /// The longest recorded prefix that stands before the character of the word, by what stands before its index in a
    /// list.
    #[tactic(auto, unfolding(crate::specs::ReadTexts::prefixed_by))]
    fn found_prefix(self, list: &[char], index: usize) -> Option<LongerText>
        requires { index ≤ length list.now }
        ensures { result ≡ prefixed_by (table_word self.entry) (characters_before list.now index) }
    {
        if !has_tag(self.word, Tag::Prefix) {
            return None;
        }
        let trie = context_of(self.source, self.word);
        nearest_text(self.source, &trie, list, index)
    }

    /// The same: it is the match of all weights that the word says.
    pub(crate) fn prefixed_text(self, list: &[char], index: usize) -> Option<LongerText>
        requires { index ≤ length list.now }
        ensures text { result ≡ prefixed_by (table_word self.entry) (characters_before list.now index) }
        ensures record { (weights : Weights) (c : ℕ) → AreSaidBy weights (table_word self.entry) c → scalars (take index list.now) ≡ true
            → prefix_match weights (record { character = c; before = characters_before list.now index })
            ≡ option_and_then (λ text. elements_of_word (pools_of self.entry.source.now) text.word) result }
    {
        self.found_prefix(list, index)
    }

    /// Whether a prefix is recorded that ends with this character.
    pub(crate) fn has_prefix_with(self, last: char) -> bool {
        if !has_tag(self.word, Tag::Prefix) {
            return false;
        }
        let trie = context_of(self.source, self.word);
        let mut cursor = trie.iter();
        !matches!(cursor.next(last), TrieResult::NoMatch)
    }

    /// Whether the longest recorded prefix that stands before the character of the word at an index of a list is the same whatever
    /// else stands before the list.
    #[tactic(auto, unfolding(crate::specs::ReadTexts::prefixed_by))]
    fn is_prefix_told(self, list: &[char], index: usize) -> bool
        requires { index ≤ length list.now }
        ensures { result ≡ true → (further : List ℕ) → prefixed_by (table_word self.entry) (characters_behind further list.now index)
            ≡ prefixed_by (table_word self.entry) (characters_before list.now index) }
    {
        if !has_tag(self.word, Tag::Prefix) {
            return true;
        }
        let trie = context_of(self.source, self.word);
        is_nearest_told(&trie, list, index)
    }

    /// The same: it is so by all weights that the word says.
    pub(crate) fn is_told(self, list: &[char], index: usize) -> bool
        requires { index ≤ length list.now }
        ensures { result ≡ true → (weights : Weights) (c : ℕ) → AreSaidBy weights (table_word self.entry) c → scalars (take index list.now) ≡ true
            → IsToldAt weights list.now index c }
    {
        self.is_prefix_told(list, index)
    }
}

/// Whether a list is read alike whatever stands before it, as its prefixes tell; `false` for some that are.
pub(crate) fn is_told_alone(sound: &SoundTables<'_>, list: &[char]) -> bool
    requires { scalars list.now ≡ true }
    ensures { result ≡ true → (numeric : Option ℕ) → IsToldAlone (weights_by numeric sound.now) list.now }
{
    for index in 0..list.len() {
        if !checked_word(sound, list[index]).is_told(list, index) {
            return false;
        }
    }
    true
}

//! Texts that a character more joins.

ghost use Rattle.std.specs.Prelude.{◌≡◌, ◌++◌, ◌∷◌, ℕ, List, [], ◌+◌, ◌≤◌, IfNone, IfSome, MatchOption, drop, false, is_some, length, take, true};
ghost use Rattle.icu_char16trie.specs.Cursors.{trie_units};
ghost use Rattle.icu_collator_types.specs.declared.elements.word_tags.Tag.TheVariants.{Contraction};
ghost use Rattle.icu_collator_types.specs.ElementWords.{has_tag};
ghost use Rattle.icu_collator_core.specs.Pools.{unprefixed_word};
ghost use Rattle.icu_collator_core.specs.ReadTexts.{IsAtText, if_recorded, suffix_units, word_by};
ghost use Rattle.icu_collator_core.specs.ReadWords.{table_word};
ghost use Rattle.icu_collator_core.specs.TableMeaning.{pools_of, recorded_by};

use super::suffixes::context_of;
use crate::table_words::contexts::word_of;
use crate::table_words::counting_words::CountingWord;
use crate::table_words::fields::has_tag;
use crate::table_words::lone_words::unprefixed_word;
use crate::table_words::word_elements::has_elements;
use crate::tables::CollationData;
use icu_char16trie::{Char16Trie, Char16TrieIterator};
use icu_collator_types::elements::Tag;

/// The word of a text, if it has elements.
#[tactic(auto, unfolding(crate::specs::ReadTexts::if_recorded))]
fn if_recorded(source: &CollationData<'_>, word: Option<u32>) -> Option<u32>
    ensures { result ≡ if_recorded (pools_of source.now) word }
{
    match word {
        Some(word) => {
            if has_elements(source, word) {
                Some(word)
            } else {
                None
            }
        }
        None => None,
    }
}

/// A cursor after so many characters of a list from an index on.
pub(crate) fn cursor_behind<'t>(
    trie: &'t Char16Trie<'_>,
    list: &[char],
    start: usize,
    count: usize,
) -> Char16TrieIterator<'t>
    requires { start + count ≤ length list.now }
    ensures { IsAtText (trie_units trie.now) (take count (drop start list.now)) result }
{
    let mut cursor = trie.iter();
    for i in 0..count {
        cursor.next(list[start + i]);
    }
    cursor
}

impl<'t> CountingWord<'t> {
    /// The texts that stand after the character of the word in recorded texts, `None` where there are none.
    pub(crate) fn suffixes(self) -> Option<Char16Trie<'t>>
        ensures { MatchOption result
            (has_tag Contraction (unprefixed_word (pools_of self.entry.source.now) self.entry.word) ≡ false)
            (λ trie. (has_tag Contraction (unprefixed_word (pools_of self.entry.source.now) self.entry.word) ≡ true)
            × (trie_units trie ≡ suffix_units (table_word self.entry))) }
    {
        let word = unprefixed_word(self.source, self.word);
        if !has_tag(word, Tag::Contraction) {
            return None;
        }
        Some(context_of(self.source, word))
    }

    /// The word of a text with one character more, if that text is recorded. The cursor stands after what the text has
    /// after its first character; then after the character too, unless the longer text isn't recorded.
    pub(crate) fn join(self, cursor: &mut Char16TrieIterator<'_>, c: char) -> Option<u32>
        ensures word { (suffix : List ℕ) → IsAtText (suffix_units (table_word self.entry)) suffix cursor.old
            → result ≡ if_recorded (pools_of self.entry.source.now) (word_by (suffix_units (table_word self.entry)) (suffix ++ c ∷ [])) }
        ensures recorded { (first : ℕ) (suffix : List ℕ) → IsAtText (suffix_units (table_word self.entry)) suffix cursor.old
            → has_tag Contraction (unprefixed_word (pools_of self.entry.source.now) self.entry.word) ≡ true
            → is_some result ≡ is_some (recorded_by (table_word self.entry) first [] (suffix ++ c ∷ [])) }
        ensures moved { IfSome result (λ word. (suffix : List ℕ) → IsAtText (suffix_units (table_word self.entry)) suffix cursor.old
            → IsAtText (suffix_units (table_word self.entry)) (suffix ++ c ∷ []) cursor.new) }
        ensures kept { IfNone result ((suffix : List ℕ) → IsAtText (suffix_units (table_word self.entry)) suffix cursor.old
            → IsAtText (suffix_units (table_word self.entry)) suffix cursor.new) }
    {
        let mut longer = *cursor;
        let answer = longer.next(c);
        match if_recorded(self.source, word_of(answer)) {
            Some(word) => {
                *cursor = longer;
                Some(word)
            }
            None => None,
        }
    }
}

//! Whether a character has a word, of one of the forms and of the canonical class.

ghost use Rattle.std.specs.Prelude.{◌≡◌};
ghost use Rattle.icu_normalizer_core.specs.CanonicalMeaning.{lists_of};
ghost use Rattle.icu_normalizer_core.specs.CompatibilityFaults.{is_good_word};
ghost use Rattle.icu_normalizer_core.specs.Words.{word_lists};

use crate::canonical::CanonicalTables;
use crate::canonical::canonical_words::{Words, class_of_word, is_word};

/// Whether the character has a word, of one of the forms and of the canonical class.
#[tactic(auto, unfolding(crate::specs::CanonicalLists::canonical_of))]
pub(super) fn has_good_word(tables: &CanonicalTables<'_>, words: Words<'_>, c: char) -> bool
    ensures { result ≡ is_good_word (lists_of tables.now) (word_lists words.entry) c }
{
    let code = c as u32;
    let word = words.word(c);
    words.trie.has_cell(code) && is_word(code, word) && class_of_word(code, word) == tables.class(c)
}

//! Contexts: what stands in their list from an index on.

ghost use Rattle.std.specs.Prelude.{◌≡◌, ◌^◌, ◌<◌, [], MatchOption, length, option_map};
ghost use Rattle.std.specs.Int.{cast_unsigned, w32};
ghost use Rattle.icu_char16trie.specs.Cursors.{answered};
ghost use Rattle.icu_collator_core.specs.Pools.{default_word, trie_of};
ghost use Rattle.icu_collator_core.specs.TableMeaning.{pools_of};
ghost use Rattle.icu_collator_core.specs.WordForms.{default_of};

use crate::table_words::fields::{index_of, unit_at};
use crate::tables::CollationData;
use icu_char16trie::TrieResult;
use icu_packed_vector::PackedVec;

/// The default word of the context at an index.
fn default_word(contexts: &PackedVec<'_, u16>, index: usize) -> u32
    requires { index < 2 ^ 32 }
    ensures { result ≡ default_word contexts.now index }
{
    unit_at(contexts, index) as u32 * 0x1_0000 + unit_at(contexts, index + 1) as u32
}

/// The default of the context that a word names.
pub(crate) fn default_of(source: &CollationData<'_>, word: u32) -> u32
    ensures { result ≡ default_of (pools_of source.now) word }
{
    default_word(&source.contexts, index_of(word))
}

/// The units of the trie of the context at an index, and all after it; `None` past the end.
pub(crate) fn trie_of<'c>(
    contexts: &'c PackedVec<'_, u16>,
    index: usize,
) -> Option<PackedVec<'c, u16>>
    requires { index < 2 ^ 32 }
    ensures units { MatchOption result (trie_of contexts.now index ≡ []) (λ units. units ≡ trie_of contexts.now index) }
    ensures bound { length contexts.now < 2 ^ 64 }
{
    let start = index + 2;
    let end = contexts.len();
    contexts.subslice(start..end)
}

/// The units of the trie of the context at an index, and all after it.
pub(crate) fn units_of<'c>(contexts: &'c PackedVec<'_, u16>, index: usize) -> PackedVec<'c, u16>
    requires { index < 2 ^ 32 }
    ensures units { result ≡ trie_of contexts.now index }
    ensures bound { length contexts.now < 2 ^ 64 }
{
    match trie_of(contexts, index) {
        Some(units) => units,
        None => contexts.subslice(0..0).unwrap(),
    }
}

/// The word that a cursor answers, if it answers one.
pub(crate) fn word_of(answer: TrieResult) -> Option<u32>
    ensures { result ≡ option_map (cast_unsigned w32) (answered answer) }
{
    match answer {
        TrieResult::Intermediate(value) => Some(value.cast_unsigned()),
        TrieResult::FinalValue(value) => Some(value.cast_unsigned()),
        TrieResult::NoValue | TrieResult::NoMatch => None,
    }
}

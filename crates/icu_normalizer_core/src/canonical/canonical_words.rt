//! What the words of canonical tables say, one word for each code point: a class, or a full list. A full list is what
//! mapping steps leave of the character; a word of 0 says that this is the character itself, a starter.

ghost use Rattle.std.specs.Prelude.{◌≡◌, ◌<◌, ◌^◌};
ghost use Rattle.icu_normalizer_core.specs.CanonicalWords.{is_mark_word, is_singled_word, is_one_word, is_pair_word, is_list_word, states_list, class_of_word, is_word};
ghost use Rattle.icu_normalizer_core.specs.Words.{word_lists};

use crate::built_in::{built_in_class, is_singled_out, is_syllable};
use icu_codepointtrie::CodePointTrie;
use icu_packed_vector::PackedVec;

/// All bits of a word but the two uppermost, which say nothing here.
pub(crate) const PLAIN_WORD: u32 = 0x3fff_ffff;

/// The words of code points, with the lists that they name indices in.
#[derive(Clone, Copy, Debug)]
pub(crate) struct Words<'t> {
    /// Each code point's word.
    pub(crate) trie: &'t CodePointTrie<'t, u32>,
    /// Full lists, one after another, of characters below 10000 (hex).
    pub(crate) scalars16: &'t PackedVec<'t, u16>,
    /// Full lists, one after another, of any characters.
    pub(crate) scalars24: &'t PackedVec<'t, char>,
}

impl Words<'_> {
    /// The character's word, without its two uppermost bits.
    #[inline]
    pub(crate) fn word(self, c: char) -> u32
        ensures word { result ≡ (word_lists self.entry).word c }
        ensures bound { result < 2 ^ 30 }
    {
        self.trie.get(c) & PLAIN_WORD
    }
}

/// Whether the word is that of a mark: D800 (hex) and its class, from 1 to 254.
#[inline]
pub(super) fn is_mark_word(word: u32) -> bool
    ensures { result ≡ is_mark_word word }
{
    (0xd801..=0xd8fe).contains(&word)
}

/// Whether the word is that of one of the seven characters with a built-in mapping but without a composed pair
/// (docs/RECORDS.md, "What is built in"). Its low byte says nothing.
#[inline]
pub(super) fn is_singled_word(word: u32) -> bool
    ensures { result ≡ is_singled_word word }
{
    (0xd900..=0xd9ff).contains(&word)
}

/// Whether the word is the code point of the one character of the full list.
#[inline]
pub(super) fn is_one_word(word: u32) -> bool
    ensures { result ≡ is_one_word word }
{
    (2..=0xd7ff).contains(&word) || (0xe000..=0xffff).contains(&word)
}

/// Whether the word is the two characters of the full list: the first in its lower 15 bits, the second above.
#[inline]
pub(super) fn is_pair_word(word: u32) -> bool
    ensures { result ≡ is_pair_word word }
{
    word >= 0x1_0000 && word & 0x7fff >= 0x20
}

/// Whether the word says where the full list stands: from bit 16 on its index and one more, in the lower four bits its
/// length, less two in `scalars16` and less one in `scalars24`.
#[inline]
pub(super) fn is_list_word(word: u32) -> bool
    ensures { result ≡ is_list_word word }
{
    word >= 0x1_0000 && word & 0xffff < 0x20
}

/// Whether the word states a full list, in one of these three ways.
pub(crate) fn states_list(word: u32) -> bool
    ensures { result ≡ states_list word }
{
    is_one_word(word) || is_pair_word(word) || is_list_word(word)
}

/// Whether the word says something of the character: that it is its own full list and a starter, that its full list is
/// a syllable's letters, a class, or a full list.
#[tactic(auto, unfolding(crate::specs::CanonicalWords::is_word))]
pub(crate) fn is_word(c: u32, word: u32) -> bool
    ensures { result ≡ is_word c word }
{
    word == 0
        || (word == 1 && is_syllable(c))
        || is_mark_word(word)
        || (is_singled_word(word) && is_singled_out(c))
        || states_list(word)
}

/// The class that the word says of the character.
#[inline]
#[tactic(auto, unfolding(crate::specs::CanonicalWords::class_of_word))]
pub(crate) fn class_of_word(c: u32, word: u32) -> u8
    ensures { result ≡ class_of_word c word }
{
    if is_mark_word(word) {
        (word - 0xd800) as u8
    } else if is_singled_word(word) {
        built_in_class(c).unwrap_or(0)
    } else {
        0
    }
}

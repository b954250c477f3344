//! The tables, and what they are refused for.

ghost use Rattle.std.specs.Prelude.{◌≡◌, ◌<◌, ◌^◌};
ghost use Rattle.icu_normalizer_core.specs.CanonicalMeaning.{lists_of};
ghost use Rattle.icu_normalizer_core.specs.CanonicalMeaning.{meaning};
ghost use Rattle.icu_normalizer_core.specs.Words.{words_of, word_lists};

use super::canonical_words::{PLAIN_WORD, Words, class_of_word};
use icu_codepointtrie::CodePointTrie;
use icu_packed_vector::PackedVec;
use std::error::Error;
use std::fmt;

/// Canonical data in packed tables, not yet checked (`CanonicalData::try_new` checks them).
#[derive(Debug)]
pub struct CanonicalTables<'a> {
    /// The canonical word of each code point: its class, or its full list. A list that fits into no word stands in
    /// `scalars16` or `scalars24`, and the word says its index and its length; indices are counted through
    /// `scalars16` and on through `scalars24`.
    pub trie: CodePointTrie<'a, u32>,
    /// Full lists, one after another, of characters below 10000 (hex) alone. A builder leaves this empty.
    pub scalars16: PackedVec<'a, u16>,
    /// Full lists, one after another, of any characters. A builder writes all of them here.
    pub scalars24: PackedVec<'a, char>,
    /// The mappings, three numbers each in rising order: the character, what it is mapped to first, and
    /// second, 110000 (hex) where there is no second. Built-in mappings are left out.
    pub steps: PackedVec<'a, u32>,
    /// The composed pairs, one number each in rising order: first * 2^42 + second * 2^21 + composed.
    /// Those of Hangul are left out.
    pub pairs: PackedVec<'a, u64>,
}

// (let go of as one, and not part by part, so that what owns one is proved sooner)
impl Drop for CanonicalTables<'_> {
    fn drop(self) {
        let CanonicalTables {
            trie: _,
            scalars16: _,
            scalars24: _,
            steps: _,
            pairs: _,
        } = self;
    }
}

/// Why tables are no canonical data. The causes are looked for in this order, and of each the least character is
/// named.
#[derive(Clone, Copy, Debug, PartialEq, Eq)]
pub enum CanonicalFault {
    /// The trie has no word for the character, or one that says neither a class from 1 to 254 nor a full list, nor that
    /// the character is its own full list and a starter.
    BadValue(char),
    /// The character has no built-in mapping, and its full list ends past `scalars24` (or, where it begins in
    /// `scalars16`, past that), has over eight characters, is stated and begins with a mark, or isn't what is left of
    /// the character when no mapping step is possible any more. Of U+0000 also: `steps` aren't threes of characters,
    /// in rising order.
    BadList(char),
    /// The mapping steps from the character don't end.
    Loop(char),
    /// The class, the mapping or the full list contradicts what is built in of the character (docs/RECORDS.md, "What
    /// is built in"), as does a full list that ends past the lists; or the character is below U+0300 and a mark, is
    /// below U+00C0 and mapped, or is mapped to a jamo or a Hangul syllable.
    BuiltIn(char),
    /// A pair that composes to the character isn't its mapping in `steps`, or has a second character below U+0300 or
    /// from U+1161 to U+11FF; or the character is below U+0300 and not its own composed list (NFC). Of U+0000 also:
    /// `pairs` aren't characters by threes, in rising order, no two of the same two.
    BadPair(char),
}

impl fmt::Display for CanonicalFault {
    ghost use Rattle.std.specs.Prelude.{Some};
    ghost use Rattle.icu_normalizer_core.specs.DataErrors.{fault_text};

    ghost output = { λ fault. Some (fault_text fault) };

    fn fmt<W: fmt::Write>(&self, f: &mut fmt::Formatter<W>) -> fmt::Result {
        match self {
            CanonicalFault::BadValue(c) => write!(f, "bad value at {:X}", *c as u32),
            CanonicalFault::BadList(c) => write!(f, "bad list at {:X}", *c as u32),
            CanonicalFault::Loop(c) => write!(f, "loop at {:X}", *c as u32),
            CanonicalFault::BuiltIn(c) => write!(f, "bad built-in at {:X}", *c as u32),
            CanonicalFault::BadPair(c) => write!(f, "bad pair at {:X}", *c as u32),
        }
    }
}

impl Error for CanonicalFault {}

impl CanonicalTables<'_> {
    /// The words, with the lists that they name indices in.
    #[inline]
    pub(crate) fn words(&self) -> Words<'_>
        ensures { word_lists result ≡ words_of (lists_of self.now) }
    {
        Words {
            trie: &self.trie,
            scalars16: &self.scalars16,
            scalars24: &self.scalars24,
        }
    }

    /// The character's word, without its two uppermost bits.
    #[inline]
    pub(crate) fn word(&self, c: char) -> u32
        ensures word { result ≡ (lists_of self.now).word c }
        ensures bound { result < 2 ^ 30 }
    {
        self.trie.get(c) & PLAIN_WORD
    }

    /// The class of a character.
    #[inline]
    #[tactic(auto, unfolding(crate::specs::CanonicalLists::canonical_of))]
    pub(crate) fn class(&self, c: char) -> u8
        ensures { result ≡ (meaning self.now).class c }
    {
        class_of_word(c as u32, self.word(c))
    }
}

//! The tables.

ghost use Rattle.std.specs.Prelude.{◌≡◌};
ghost use Rattle.icu_normalizer_core.specs.CompatibilityMeaning.{nfkd_lists};
ghost use Rattle.icu_normalizer_core.specs.Words.{word_lists};

use crate::canonical::canonical_words::Words;
use icu_codepointtrie::CodePointTrie;
use icu_packed_vector::PackedVec;

/// Compatibility full lists in packed tables, not yet checked (`CompatibilityData::try_new` checks them).
#[derive(Debug)]
pub struct NfkdTables<'a> {
    /// The word of each code point: its class, or its full list by canonical and compatibility mappings. The words
    /// have the forms of canonical ones (`CanonicalTables`).
    pub trie: CodePointTrie<'a, u32>,
    /// Full lists, one after another, of characters below 10000 (hex) alone; it may be empty.
    pub scalars16: PackedVec<'a, u16>,
    /// Full lists, one after another, of any characters; their indices are counted on from the end of `scalars16`.
    pub scalars24: PackedVec<'a, char>,
}

// (let go of as one, and not part by part, so that what owns one is proved sooner)
impl Drop for NfkdTables<'_> {
    fn drop(self) {
        let NfkdTables {
            trie: _,
            scalars16: _,
            scalars24: _,
        } = self;
    }
}

impl NfkdTables<'_> {
    /// The words, with the lists that they name indices in.
    #[inline]
    pub(crate) fn words(&self) -> Words<'_>
        ensures { word_lists result ≡ nfkd_lists self.now }
    {
        Words {
            trie: &self.trie,
            scalars16: &self.scalars16,
            scalars24: &self.scalars24,
        }
    }
}

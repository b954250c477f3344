//! What some of a provider's calls give.

use icu_codepointtrie::CodePointTrie;
use icu_packed_vector::PackedVec;

/// The characters of canonical full lists, and the mappings: what `CanonicalTables` has under these names.
#[derive(Debug, Drop)]
pub struct NfdLists<'a> {
    /// Full lists, one after another, of characters below 10000 (hex) alone; it may be empty.
    pub scalars16: PackedVec<'a, u16>,
    /// Full lists, one after another, of any characters; their indices are counted on from the end of `scalars16`.
    pub scalars24: PackedVec<'a, char>,
    /// The mappings, three numbers each in rising order: the character, what it is mapped to first, and second,
    /// 110000 (hex) where there is no second.
    pub steps: PackedVec<'a, u32>,
}

/// The characters of compatibility full lists.
#[derive(Debug, Drop)]
pub struct NfkdLists<'a> {
    /// Full lists, one after another, of characters below 10000 (hex) alone; it may be empty.
    pub scalars16: PackedVec<'a, u16>,
    /// Full lists, one after another, of any characters; their indices are counted on from the end of `scalars16`.
    pub scalars24: PackedVec<'a, char>,
}

/// What the mapper of domain names does with each character (UTS 46).
#[derive(Debug, Drop)]
pub struct Uts46Tables<'a> {
    /// Each character's word.
    pub trie: CodePointTrie<'a, u32>,
    /// The characters that others are mapped to.
    pub scalars24: PackedVec<'a, char>,
}

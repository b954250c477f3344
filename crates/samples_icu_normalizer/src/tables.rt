//! The canonical tables of the worked rows, written out word by word.

use icu_codepointtrie::{CodePointTrie, CodePointTrieBuilder, CodePointTrieBuilderError, TrieType};
use icu_normalizer_core::canonical::CanonicalTables;
use icu_packed_vector::PackedVec;
use std::alloc::{AllocError, Global};

/// The words of characters other than syllables: marks with their classes, the seven with a built-in mapping, and two pairs.
pub const WORDS: [(u32, u32); 21] = [
    (0xe1, 0x180_8061),
    (0x300, 0xd8e6),
    (0x301, 0xd8e6),
    (0x302, 0xd8e6),
    (0x308, 0xd8e6),
    (0x313, 0xd8e6),
    (0x323, 0xd8dc),
    (0x340, 0xd9e6),
    (0x341, 0xd9e6),
    (0x343, 0xd9e6),
    (0x344, 0xd9e6),
    (0xf71, 0xd881),
    (0xf72, 0xd882),
    (0xf73, 0xd900),
    (0xf74, 0xd884),
    (0xf75, 0xd900),
    (0xf80, 0xd882),
    (0xf81, 0xd900),
    (0x1ea1, 0x191_8061),
    (0x3099, 0xd808),
    (0x309a, 0xd808),
];

/// The mappings of U+00E1 and U+1EA1.
pub const STEPS: [u32; 6] = [0xe1, 0x61, 0x301, 0x1ea1, 0x61, 0x323];

/// The pairs of these two, as `pair` packs them.
pub const PAIRS: [u64; 2] = [0x18400602000e1, 0x1840064601ea1];

/// A pair as it is packed.
pub fn pair(first: u64, second: u64, composed: u64) -> u64 {
    (first << 42) | (second << 21) | composed
}

/// The word 0 with its two uppermost bits, which say nothing: a trie builder takes no write of its default, so that is not 0.
const PLAIN: u32 = 0xc000_0000;

/// Writes words to a map.
fn set_words(
    map: &mut CodePointTrieBuilder<u32>,
    words: &[(u32, u32)],
) -> Result<(), CodePointTrieBuilderError> {
    for (code_point, word) in words {
        map.set_value(*code_point, *word)?;
    }
    Ok(())
}

/// Writes those of syllables, those of the worked rows, and two lists of others.
fn set_all_words(
    map: &mut CodePointTrieBuilder<u32>,
    words: &[(u32, u32)],
    others: &[(u32, u32)],
) -> Result<(), CodePointTrieBuilderError> {
    map.set_range_value(0xac00..=0xd7a3, 1)?;
    set_words(map, &WORDS)?;
    set_words(map, words)?;
    set_words(map, others)
}

/// The words of the worked rows, with others for some characters, and others yet; `None` where memory is refused.
pub fn trie(
    alloc: Global,
    words: &[(u32, u32)],
    others: &[(u32, u32)],
) -> Option<CodePointTrie<'static, u32>> {
    let mut map = CodePointTrieBuilder::new(alloc, PLAIN, 0, TrieType::Fast).ok()?;
    set_all_words(&mut map, words, others).ok()?;
    map.build().ok()
}

/// Tables of these words, mappings and pairs.
fn packed(
    alloc: Global,
    trie: CodePointTrie<'static, u32>,
    steps: &[u32],
    pairs: &[u64],
) -> Result<CanonicalTables<'static>, AllocError> {
    let scalars16 = PackedVec::from_slice(alloc, &[])?;
    let scalars24 = PackedVec::from_slice(alloc, &[])?;
    let steps = PackedVec::from_slice(alloc, steps)?;
    let pairs = PackedVec::from_slice(alloc, pairs)?;
    Ok(CanonicalTables {
        trie,
        scalars16,
        scalars24,
        steps,
        pairs,
    })
}

/// The tables of the worked rows, with other words for some characters, and these mappings and pairs; `None` where
/// memory is refused.
pub fn tables(
    alloc: Global,
    words: &[(u32, u32)],
    steps: &[u32],
    pairs: &[u64],
) -> Option<CanonicalTables<'static>> {
    let trie = trie(alloc, words, &[])?;
    packed(alloc, trie, steps, pairs).ok()
}

//! The collation tables of the worked rows, written out word by word.

use icu_codepointtrie::{CodePointTrie, CodePointTrieBuilder, CodePointTrieBuilderError, TrieType};
use icu_collator_core::tables::{
    CollationData, CollationDiacritics, CollationJamo, CollationMetadata, CollationReordering,
    CollationSpecialPrimaries, CollationTables,
};
use icu_normalizer_core::builder::CanonicalDataBuilder;
use icu_normalizer_core::canonical::CanonicalData;
use icu_packed_vector::PackedVec;
use std::alloc::{AllocError, Global};

/// The words of the letters, of three marks, and of the special characters.
pub const WORDS: [(u32, u32); 14] = [
    (0x61, 0x2a10_0505),
    (0x62, 0x2a20_0505),
    (0x63, 0x2a30_0505),
    (0x65, 0x2a50_0505),
    (0x68, 0x2a80_0505),
    (0x6c, 0x2ac0_0505),
    (0x6f, 0x2af0_0505),
    (0x74, 0x2b40_0505),
    (0x301, 0x8800_05c2),
    (0x302, 0x8a00_05c2),
    (0x323, 0x8c00_05c2),
    (0xfffd, 0xfffd_0505),
    (0xfffe, 0x0200_0505),
    (0xffff, 0xffff_0505),
];

/// The word of a character whose primary its code point gives.
pub const IMPLICIT: u32 = 0xcf;

/// The word by which a tailoring leaves a character to the root.
pub const FALLBACK: u32 = 0xc0;

/// Metadata that say that the secondaries of marks are a tailoring's.
pub const TAILORED_DIACRITICS: u32 = 0x10;

/// Writes words to a map.
fn set_words(
    map: &mut CodePointTrieBuilder<u32>,
    words: &[(u32, u32)],
) -> Result<(), CodePointTrieBuilderError> {
    for (code_point, word) in words {
        map.set_value(*code_point, *word)?;
    }
    Ok(())
}

/// A trie of these words, with another for all other characters; `None` where memory is refused.
pub fn trie(
    alloc: Global,
    words: &[(u32, u32)],
    other: u32,
) -> Option<CodePointTrie<'static, u32>> {
    changed_trie(alloc, words, &[], other)
}

/// The same, with other words in the place of some.
pub fn changed_trie(
    alloc: Global,
    words: &[(u32, u32)],
    changes: &[(u32, u32)],
    other: u32,
) -> Option<CodePointTrie<'static, u32>> {
    let mut map = CodePointTrieBuilder::new(alloc, other, other, TrieType::Fast).ok()?;
    set_words(&mut map, words).ok()?;
    set_words(&mut map, changes).ok()?;
    map.build().ok()
}

/// Canonical data in which the three marks have their classes; `None` where memory is refused.
pub fn canonical(alloc: Global) -> Option<CanonicalData<'static>> {
    let mut builder = CanonicalDataBuilder::new(alloc);
    builder.class('\u{301}', 230).ok()?;
    builder.class('\u{302}', 230).ok()?;
    builder.class('\u{323}', 220).ok()?;
    builder.build_data().ok()
}

/// Data of these words and lists; `None` where memory is refused.
pub fn data(
    alloc: Global,
    trie: CodePointTrie<'static, u32>,
    ces: &[u64],
    ce32s: &[u32],
    contexts: &[u16],
) -> Option<CollationData<'static>> {
    let ces = PackedVec::from_slice(alloc, ces).ok();
    let ce32s = PackedVec::from_slice(alloc, ce32s).ok();
    let contexts = PackedVec::from_slice(alloc, contexts).ok();
    let ((trie, ces), (ce32s, contexts)) = Some(trie).zip(ces).zip(ce32s.zip(contexts))?;
    Some(CollationData {
        trie,
        ces,
        ce32s,
        contexts,
    })
}

/// Jamo that are by themselves.
fn jamo_words(alloc: Global) -> Result<PackedVec<'static, u32>, AllocError> {
    let mut words = Vec::new(alloc);
    for i in 0..256u32 {
        words.push((0xfd << 24) + ((4 + i / 128) << 16) + ((2 + i % 128) << 8) + 0xc1)?;
    }
    let words = PackedVec::from_slice(alloc, words.as_slice())?;
    Ok(words)
}

/// Groups that begin at 0300, and numbers at 10 (hex); `None` where memory is refused.
fn special_primaries(alloc: Global) -> Option<CollationSpecialPrimaries<'static>> {
    let last_primaries = PackedVec::from_slice(alloc, &[0x300, 0x300, 0x300, 0x300]).ok()?;
    Some(CollationSpecialPrimaries {
        last_primaries,
        numeric_primary: 0x10,
    })
}

/// Tables of data, with a tailoring or none: no secondary in the table of diacritics, and jamo by
/// themselves; `None` where memory is refused.
pub fn tables(
    alloc: Global,
    root: CollationData<'static>,
    tailoring: Option<CollationData<'static>>,
) -> Option<CollationTables<'static>> {
    let secondaries = PackedVec::from_slice(alloc, &[]).ok();
    let lists = secondaries.zip(jamo_words(alloc).ok());
    let parts = lists.zip(special_primaries(alloc));
    let (data, parts) = Some((root, tailoring)).zip(parts)?;
    let (root, tailoring) = data;
    let ((secondaries, ce32s), special_primaries) = parts;
    Some(CollationTables {
        root,
        tailoring,
        diacritics: CollationDiacritics { secondaries },
        jamo: CollationJamo { ce32s },
        reordering: None,
        metadata: CollationMetadata {
            bits: TAILORED_DIACRITICS,
        },
        special_primaries,
    })
}

/// The tables of the worked rows; `None` where memory is refused.
pub fn letters(alloc: Global) -> Option<CollationTables<'static>> {
    let trie = trie(alloc, &WORDS, IMPLICIT)?;
    let root = data(alloc, trie, &[], &[], &[])?;
    tables(alloc, root, None)
}

/// A reordering by which the lead 2A becomes 2B, and 2C is cut (hex); `None` where memory is refused.
pub fn reordering(alloc: Global) -> Option<CollationReordering<'static>> {
    let mut table = [0; 256];
    table[0x2a] = 0x2b;
    let reorder_table = PackedVec::from_slice(alloc, &table).ok()?;
    let reorder_ranges = PackedVec::from_slice(alloc, &[0x2c80_0001, 0x2d00_00ff]).ok()?;
    Some(CollationReordering {
        min_high_no_reorder: 0x2d00_0000,
        reorder_table,
        reorder_ranges,
    })
}

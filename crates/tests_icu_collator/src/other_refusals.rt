//! What tables are refused for beside the words of characters: their other lists; and characters without a word.

use crate::judged::judged;
use crate::tables::{
    IMPLICIT, TAILORED_DIACRITICS, WORDS, data, letters, reordering, tables, trie,
};
use icu_codepointtrie::{CodePointTrie, CodePointTrieHeader, TrieType};
use icu_collator_core::check::TableFault;
use icu_collator_core::tables::{
    CollationDiacritics, CollationJamo, CollationMetadata, CollationReordering,
    CollationSpecialPrimaries, CollationTables,
};
use icu_packed_vector::PackedVec;
use std::alloc::Global;

/// The words of 256 jamo.
const JAMO: [u32; 256] = [0x2b50_0505; 256];

/// Groups that are none.
const GROUPS: [u16; 4] = [0x300; 4];

/// The lead of numbers.
const NUMBERS: u8 = 0x10;

/// The data of the worked rows, and these lists beside them; `None` where memory is refused.
fn with_lists(
    alloc: Global,
    secondaries: &[u16],
    bits: u32,
    jamo: &[u32],
    groups: &[u16],
    numeric_primary: u8,
) -> Option<CollationTables<'static>> {
    let trie = trie(alloc, &WORDS, IMPLICIT)?;
    let root = data(alloc, trie, &[], &[], &[])?;
    let secondaries = PackedVec::from_slice(alloc, secondaries).ok()?;
    let ce32s = PackedVec::from_slice(alloc, jamo).ok()?;
    let last_primaries = PackedVec::from_slice(alloc, groups).ok()?;
    Some(CollationTables {
        root,
        tailoring: None,
        diacritics: CollationDiacritics { secondaries },
        jamo: CollationJamo { ce32s },
        reordering: None,
        metadata: CollationMetadata { bits },
        special_primaries: CollationSpecialPrimaries {
            last_primaries,
            numeric_primary,
        },
    })
}

/// Tables with these secondaries of marks, and metadata; `None` where memory is refused.
fn with_diacritics(
    alloc: Global,
    secondaries: &[u16],
    bits: u32,
) -> Option<CollationTables<'static>> {
    with_lists(alloc, secondaries, bits, &JAMO, &GROUPS, NUMBERS)
}

/// The secondaries of 80 marks.
const SECONDARIES: [u16; 80] = [0x8000; 80];

/// The fault of secondaries.
const BAD_DIACRITICS: Option<TableFault> = Some(TableFault::Diacritics);

#[test]
fn diacritics(rt: HostRuntime) {
    let alloc = rt.alloc();
    assert!(rt; judged(alloc, with_diacritics(alloc, &SECONDARIES[..79], 0), None));
    assert!(rt;
        judged(
            alloc,
            with_diacritics(alloc, &SECONDARIES[..78], 0),
            BAD_DIACRITICS
        )
    );
    assert!(rt;
        judged(
            alloc,
            with_diacritics(alloc, &SECONDARIES[..78], 0x10),
            None
        )
    );
    assert!(rt;
        judged(
            alloc,
            with_diacritics(alloc, &SECONDARIES, 0x10),
            BAD_DIACRITICS
        )
    );
    assert!(rt;
        judged(
            alloc,
            with_diacritics(alloc, &[0x8000, 0x100], 0x10),
            BAD_DIACRITICS
        )
    );
}

/// Tables with these words of jamo; `None` where memory is refused.
fn with_jamo(alloc: Global, words: &[u32]) -> Option<CollationTables<'static>> {
    with_lists(alloc, &[], TAILORED_DIACRITICS, words, &GROUPS, NUMBERS)
}

/// Tables with this word of the fourth jamo; `None` where memory is refused.
fn with_fourth_jamo(alloc: Global, word: u32) -> Option<CollationTables<'static>> {
    let mut words = JAMO;
    words[3] = word;
    with_jamo(alloc, &words)
}

/// The fault of the fourth jamo.
const BAD_FOURTH_JAMO: Option<TableFault> = Some(TableFault::Jamo(3));

#[test]
fn jamo(rt: HostRuntime) {
    let alloc = rt.alloc();
    assert!(rt; judged(alloc, with_jamo(alloc, &JAMO), None));
    assert!(rt;
        judged(
            alloc,
            with_jamo(alloc, &JAMO[..255]),
            Some(TableFault::Jamo(255))
        )
    );
    assert!(rt; judged(alloc, with_fourth_jamo(alloc, 0), BAD_FOURTH_JAMO));
    assert!(rt; judged(alloc, with_fourth_jamo(alloc, 0x8600_05c2), None));
    assert!(rt; judged(alloc, with_fourth_jamo(alloc, 0x8600_05d2), BAD_FOURTH_JAMO));
    assert!(rt; judged(alloc, with_fourth_jamo(alloc, 0x8600_05f2), BAD_FOURTH_JAMO));
}

/// Tables with a reordering of these leads; `None` where memory is refused.
fn with_leads(alloc: Global, leads: &[u8]) -> Option<CollationTables<'static>> {
    let mut all = letters(alloc)?;
    let reorder_table = PackedVec::from_slice(alloc, leads).ok()?;
    let reorder_ranges = PackedVec::from_slice(alloc, &[]).ok()?;
    all.reordering = Some(CollationReordering {
        min_high_no_reorder: 0,
        reorder_table,
        reorder_ranges,
    });
    Some(all)
}

/// Tables with a reordering that sends two leads to one; `None` where memory is refused.
fn with_leads_to_one(alloc: Global) -> Option<CollationTables<'static>> {
    let mut all = letters(alloc)?;
    all.reordering = reordering(alloc);
    Some(all)
}

/// Leads, of which 2A and 2B change places (hex).
fn leads_that_change_places() -> [u8; 256] {
    let mut leads = [0; 256];
    leads[0x2a] = 0x2b;
    leads[0x2b] = 0x2a;
    leads
}

#[test]
fn reorderings(rt: HostRuntime) {
    let alloc = rt.alloc();
    let leads = leads_that_change_places();
    assert!(rt; judged(alloc, with_leads(alloc, &leads), None));
    assert!(rt;
        judged(
            alloc,
            with_leads(alloc, &[0; 255]),
            Some(TableFault::Reordering)
        )
    );
    assert!(rt;
        judged(
            alloc,
            with_leads_to_one(alloc),
            Some(TableFault::Reordering)
        )
    );
}

/// Tables with these groups, and this lead of numbers; `None` where memory is refused.
fn with_groups(
    alloc: Global,
    groups: &[u16],
    numeric_primary: u8,
) -> Option<CollationTables<'static>> {
    with_lists(
        alloc,
        &[],
        TAILORED_DIACRITICS,
        &JAMO,
        groups,
        numeric_primary,
    )
}

/// The fault of groups, and of the lead of numbers.
const BAD_GROUPS: Option<TableFault> = Some(TableFault::SpecialPrimaries);

#[test]
fn special_primaries(rt: HostRuntime) {
    let alloc = rt.alloc();
    let groups = [0x304, 0x306, 0x308, 0x30a];
    assert!(rt; judged(alloc, with_groups(alloc, &groups, 0x10), None));
    assert!(rt; judged(alloc, with_groups(alloc, &groups[..3], 0x10), BAD_GROUPS));
    assert!(rt; judged(alloc, with_groups(alloc, &groups, 2), BAD_GROUPS));
    assert!(rt;
        judged(
            alloc,
            with_groups(alloc, &[0x306, 0x304, 0x308, 0x30a], 0x10),
            BAD_GROUPS
        )
    );
}

/// A trie in which the characters from U+1000 to U+1FFF have no word; `None` where memory is refused.
fn few_cells(alloc: Global) -> Option<CodePointTrie<'static, u32>> {
    let header = CodePointTrieHeader {
        high_start: 0x2000,
        shifted12_high_start: 2,
        index3_null_offset: 0xffff,
        data_null_offset: 0xf_ffff,
        null_value: 0,
        trie_type: TrieType::Small,
    };
    let mut blocks = Vec::new(alloc);
    for block in 0..64u16 {
        blocks.push(block * 64).ok()?;
    }
    let index = PackedVec::from_slice(alloc, &blocks).ok()?;
    let cells = PackedVec::from_slice(alloc, &[0xcf; 4096]).ok()?;
    CodePointTrie::try_new(header, index, cells).ok()
}

/// Tables of it; `None` where memory is refused.
fn with_few_cells(alloc: Global) -> Option<CollationTables<'static>> {
    let trie = few_cells(alloc)?;
    let root = data(alloc, trie, &[], &[], &[])?;
    tables(alloc, root, None)
}

#[test]
fn characters_without_a_word(rt: HostRuntime) {
    let alloc = rt.alloc();
    assert!(rt;
        judged(
            alloc,
            with_few_cells(alloc),
            Some(TableFault::Trie('\u{1000}'))
        )
    );
}

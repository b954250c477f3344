//! Copies of tables, each equal to what it is made of.

use crate::tables::{FALLBACK, data, letters, reordering, trie};
use icu_collator_core::tables::{CollationData, CollationTables};
use std::alloc::Global;

/// Data with an item in each list; `None` where memory is refused.
fn tailoring(alloc: Global) -> Option<CollationData<'static>> {
    let trie = trie(alloc, &[(0x61, 0x2c6)], FALLBACK)?;
    data(
        alloc,
        trie,
        &[0x2a10_0000_0500_0500, 0x8800_0500],
        &[0x2a10_0505],
        &[0, 0xcf, 0x30, 0x62, 0x8000],
    )
}

/// The tables of the worked rows, with a tailoring and a reordering; `None` where memory is refused.
fn full_tables(alloc: Global) -> Option<CollationTables<'static>> {
    let mut all = letters(alloc)?;
    all.tailoring = tailoring(alloc);
    all.reordering = reordering(alloc);
    Some(all)
}

/// Whether tables are equal to their copy.
fn is_copied(alloc: Global, original: &CollationTables<'_>) -> bool {
    match original.clone(alloc) {
        Ok(copy) => copy == *original,
        Err(_) => false,
    }
}

/// Whether those of the worked rows are.
fn letters_are_copied(alloc: Global) -> bool {
    match letters(alloc) {
        Some(original) => is_copied(alloc, &original),
        None => false,
    }
}

/// Whether those with all parts are.
fn all_parts_are_copied(alloc: Global) -> bool {
    match full_tables(alloc) {
        Some(original) => {
            original.tailoring.is_some()
                && original.reordering.is_some()
                && is_copied(alloc, &original)
        }
        None => false,
    }
}

#[test]
fn ok_clone(rt: HostRuntime) {
    assert!(rt; letters_are_copied(rt.alloc()));
    assert!(rt; all_parts_are_copied(rt.alloc()));
}

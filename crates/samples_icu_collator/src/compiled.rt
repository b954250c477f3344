//! The tables that the lines of a records file are compiled to.

use crate::held::HeldCollation;
use collate_compile::provider::Provider;
use collate_records::compile::compile;
use collate_records::limits::Limits;
use collate_records::records::Records;
use icu_codepointtrie::TrieType;
use icu_collator_core::checked::CheckedTables;
use icu_collator_core::tables::CollationTables;
use icu_normalizer_core::canonical::{CanonicalData, CanonicalTables};
use std::alloc::Global;

/// A provider of what the lines, read within `Limits::UNICODE`, are compiled to.
fn compiled(alloc: Global, lines: &str, trie_type: TrieType) -> Option<Provider> {
    match Records::read_within(alloc, lines.as_bytes(), Limits::UNICODE) {
        Ok(records) => compile(alloc, &records, trie_type).ok(),
        Err(_) => None,
    }
}

/// The canonical tables and those of the collation that the lines are compiled to.
fn compiled_tables(
    alloc: Global,
    lines: &str,
    trie_type: TrieType,
) -> Option<(CanonicalTables<'static>, CollationTables<'static>)> {
    let provider = compiled(alloc, lines, trie_type)?;
    Some(provider.into_tables())
}

/// A provider of the tables of the lines of a records file, with collation tries of this type, that lacks none of those; `None`
/// where the file is refused, or memory is.
pub fn held_tables(
    alloc: Global,
    lines: &str,
    trie_type: TrieType,
) -> Option<HeldCollation<'static>> {
    let (canonical, tables) = compiled_tables(alloc, lines, trie_type)?;
    Some(HeldCollation::of_tables(canonical, tables))
}

/// The canonical data and the tables of the lines of a records file, with collation tries of this type; `None` where the
/// file is refused, or memory is.
pub fn tables_of(
    alloc: Global,
    lines: &str,
    trie_type: TrieType,
) -> Option<(CanonicalData<'static>, CollationTables<'static>)> {
    let (canonical, tables) = compiled_tables(alloc, lines, trie_type)?;
    // (one way out while the tables are held)
    CanonicalData::try_new(alloc, canonical)
        .ok()
        .zip(Some(tables))
}

/// The same, checked.
pub fn checked_tables(
    alloc: Global,
    lines: &str,
    trie_type: TrieType,
) -> Option<CheckedTables<'static>> {
    let (canonical, tables) = tables_of(alloc, lines, trie_type)?;
    CheckedTables::try_new(alloc, canonical, tables).ok()
}

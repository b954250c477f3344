//! Names in the order of their records.

use bstr::ByteSlice;
use collate_index::index::Index;
use collate_join::join;
use collate_records::limits::Limits;
use collate_records::records::Records;
use icu_collator_types::options::{CollatorOptions, CollatorPreferences};
use std::alloc::{AllocError, Global};

/// The records of a language, by a file of its own where `root` is empty, else by its tailoring put over the root.
pub fn records_of(alloc: Global, root: &[u8], records: &[u8]) -> anyhow::Result<Records> {
    if root.is_empty() {
        return Ok(Records::read(alloc, records)?);
    }
    let joined = join(alloc, root, records)?;
    Ok(Records::read_within(alloc, joined.bytes(), Limits::UNICODE)?)
}

/// The names, a line each, by records, whose settings decide.
pub fn index_of(alloc: Global, records: Records, names: &[u8]) -> anyhow::Result<Index> {
    let preferences = CollatorPreferences::default();
    let mut index = Index::new(alloc, records, &preferences, &CollatorOptions::default())?;
    for name in names.lines() {
        index.add(name)?;
    }
    Ok(index)
}

/// The names of an index in order, each with a LF after it.
pub fn in_order(alloc: Global, index: &Index) -> Result<Vec<u8>, AllocError> {
    let mut lines = Vec::new(alloc);
    for name in index.list() {
        lines.extend_from_slice(name)?;
        lines.push(b'\n')?;
    }
    Ok(lines)
}

//! Tests of tries as TOML.
use assertions::assert_same;
use icu_collections::codepointtrie::{
    CodePointTrie, CodePointTrieError, CodePointTrieHeader, CodePointTrieTomlError, TrieType,
    TrieValue,
};
use icu_collections_sets::packed_vector::PackedVec;
use std::alloc::{AllocError, Global};

const FIELDS: &str = "high_start = 4096\nshifted12_high_start = 1\nindex3_null_offset = 65535\n\
    data_null_offset = 0\nnull_value = 0\ntrie_type = \"Small\"\n";

/// Adds a list in TOML's words: so many copies of a number.
fn push_array(text: &mut String, count: usize, number: &str) -> Result<(), AllocError> {
    text.push_str("[")?;
    for _ in 0..count {
        text.push_str(number)?;
        text.push_str(",")?;
    }
    text.push_str("]\n")?;
    Ok(())
}

/// Adds what follows the fields: an index of so many zeros, and so many cells of a number.
fn push_tables(
    text: &mut String,
    index: usize,
    cells: usize,
    number: &str,
) -> Result<(), AllocError> {
    text.push_str("index = ")?;
    push_array(text, index, "0")?;
    text.push_str("data = ")?;
    push_array(text, cells, number)
}

/// The text of a small trie whose cells are these many copies of a number.
fn text(
    alloc: Global,
    fields: &str,
    index: usize,
    cells: usize,
    number: &str,
) -> Result<String, AllocError> {
    let mut text = String::from_str(alloc, fields)?;
    push_tables(&mut text, index, cells, number)?;
    Ok(text)
}

fn refusal<T: TrieValue>(alloc: Global, text: &str) -> Option<CodePointTrieTomlError> {
    CodePointTrie::<T>::from_toml(alloc, text).err()
}

/// Adds the bytes of a cell of one value, and of 65 cells of another.
fn push_cells<T: TrieValue>(bytes: &mut Vec<u8>, first: T, other: T) -> Result<(), AllocError> {
    first.write(bytes)?;
    for _ in 1..66 {
        other.write(bytes)?;
    }
    Ok(())
}

/// Such cells.
fn cells_of<T: TrieValue>(alloc: Global, first: T, other: T) -> Option<PackedVec<'static, T>> {
    let mut bytes = Vec::new(alloc);
    push_cells(&mut bytes, first, other).ok()?;
    let cells = PackedVec::try_from_bytes(bytes.as_slice()).ok()?;
    cells.into_owned(alloc).ok()
}

/// An index of so many blocks, all at 0.
fn index_of(alloc: Global, blocks: usize) -> Result<PackedVec<'static, u16>, AllocError> {
    let index = vec![in alloc; 0u16; blocks]?;
    PackedVec::from_slice(alloc, index.as_slice())
}

/// A trie of a type with this many index cells, whose block at 0 holds the values.
fn trie<T: TrieValue>(
    alloc: Global,
    trie_type: TrieType,
    blocks: usize,
    first: T,
    other: T,
) -> Option<CodePointTrie<'static, T>> {
    let header = CodePointTrieHeader {
        high_start: 0x1_0000,
        shifted12_high_start: 16,
        index3_null_offset: 0xFFFF,
        data_null_offset: 0xF_FFFF,
        null_value: 0xFFFF_FFFF,
        trie_type,
    };
    let index = index_of(alloc, blocks).ok()?;
    let cells = cells_of(alloc, first, other)?;
    CodePointTrie::try_new(header, index, cells).ok()
}

/// Whether a text has what it should at its front, within, and at its end.
fn is_of_parts(text: &str) -> bool {
    text.starts_with("data = [7, 255, 255,")
        && text.contains("\ndata_null_offset = 1048575\nhigh_start = 65536\nindex = [0, 0,")
        && text.contains("\nindex3_null_offset = 65535\nnull_value = 4294967295\n")
        && text.ends_with("\nshifted12_high_start = 16\ntrie_type = \"Small\"\n")
}

/// Whether that of a trie has.
fn is_written_in_parts(alloc: Global, trie: &CodePointTrie<'_, u8>) -> bool {
    match trie.to_toml(alloc) {
        Ok(text) => is_of_parts(text.as_str()),
        Err(_) => false,
    }
}

/// Whether that of a small trie of 7 and 255 has.
fn small_is_written(alloc: Global) -> bool {
    match trie(alloc, TrieType::Small, 64, 7u8, 255) {
        Some(trie) => is_written_in_parts(alloc, &trie),
        None => false,
    }
}

#[test]
fn ok_to_toml(rt: HostRuntime) {
    assert!(rt; small_is_written(rt.alloc()));
}

/// Whether a text is read as a trie in which a letter and a number past the last code point have 5.
fn reads_fives(alloc: Global, text: &str) -> bool {
    match CodePointTrie::<u16>::from_toml(alloc, text) {
        Ok(trie) => trie.get('a') == 5 && trie.get32(0x11_0000) == 5,
        Err(_) => false,
    }
}

/// Whether that of a small trie of fives is.
fn fives_are_read(alloc: Global) -> bool {
    match text(alloc, FIELDS, 64, 64, "5") {
        Ok(text) => reads_fives(alloc, text.as_str()),
        Err(_) => false,
    }
}

#[test]
fn ok_from_toml(rt: HostRuntime) {
    assert!(rt; fives_are_read(rt.alloc()));
}

/// Whether a text is read as a trie.
fn is_read_as<T: TrieValue>(alloc: Global, text: &str, trie: &CodePointTrie<'_, T>) -> bool {
    match CodePointTrie::<T>::from_toml(alloc, text) {
        Ok(read) => read == *trie,
        Err(_) => false,
    }
}

/// Whether writing and reading it again gives the trie.
fn comes_back<T: TrieValue>(alloc: Global, trie: &CodePointTrie<'_, T>) -> bool {
    match trie.to_toml(alloc) {
        Ok(text) => is_read_as(alloc, text.as_str(), trie),
        Err(_) => false,
    }
}

/// Whether such a trie is got back.
fn made_comes_back<T: TrieValue>(
    alloc: Global,
    trie_type: TrieType,
    blocks: usize,
    first: T,
    other: T,
) -> bool {
    match trie(alloc, trie_type, blocks, first, other) {
        Some(trie) => comes_back(alloc, &trie),
        None => false,
    }
}

#[test]
fn tries_come_back(rt: HostRuntime) {
    let alloc = rt.alloc();
    assert!(rt; made_comes_back(alloc, TrieType::Small, 64, 0u8, 255));
    assert!(rt; made_comes_back(alloc, TrieType::Fast, 1024, 7u16, 0xFFFF));
    assert!(rt; made_comes_back(alloc, TrieType::Small, 64, 0u32, 0xFFFF_FFFF));
    assert!(rt; made_comes_back(alloc, TrieType::Fast, 1024, '\u{10FFFF}', '\0'));
}

/// Whether two texts are read as one trie.
fn are_read_alike(alloc: Global, text: &str, other: &str) -> bool {
    match CodePointTrie::<u8>::from_toml(alloc, text) {
        Ok(trie) => is_read_as(alloc, other, &trie),
        Err(_) => false,
    }
}

/// Whether a text is read as it is with keys before and after it that say nothing of the trie.
fn is_read_among_others(alloc: Global, text: &str) -> bool {
    match format!(in alloc; "comment = \"a trie\"\n{text}[other]\nindex = 1\n") {
        Ok(more) => are_read_alike(alloc, text, more.as_str()),
        Err(_) => false,
    }
}

/// Whether that of a small trie of fives is.
fn fives_are_read_among_others(alloc: Global) -> bool {
    match text(alloc, FIELDS, 64, 64, "5") {
        Ok(text) => is_read_among_others(alloc, text.as_str()),
        Err(_) => false,
    }
}

#[test]
fn other_keys_are_ignored(rt: HostRuntime) {
    assert!(rt; fives_are_read_among_others(rt.alloc()));
}

const NOT_READ: Option<CodePointTrieTomlError> = Some(CodePointTrieTomlError::FromDeserialized);

/// Fields, and others in their place with which a text is refused.
const OTHER_FIELDS: [(&str, &str); 8] = [
    ("high_start = 4096", ""),
    ("high_start = 4096", "high_start = 4294967296"),
    ("high_start = 4096", "high_start = -1"),
    ("high_start = 4096", "high_start = 4096.0"),
    ("shifted12_high_start = 1", "shifted12_high_start = 65536"),
    (
        "index3_null_offset = 65535",
        "index3_null_offset = \"65535\"",
    ),
    ("trie_type = \"Small\"", "trie_type = \"small\""),
    ("trie_type = \"Small\"", "trie_type = 1"),
];

/// Whether the text of a trie with these tables is refused for this, or accepted where it is `None`.
fn is_refused<T: TrieValue>(
    alloc: Global,
    fields: &str,
    (index, cells, number): (usize, usize, &str),
    expected: Option<CodePointTrieTomlError>,
) -> bool {
    match text(alloc, fields, index, cells, number) {
        Ok(text) => refusal::<T>(alloc, text.as_str()) == expected,
        Err(_) => false,
    }
}

/// Whether a text is refused with another field in the place of one.
fn is_refused_with(alloc: Global, field: &str, other: &str) -> bool {
    match FIELDS.replace(alloc, field, other) {
        Ok(fields) => is_refused::<u8>(alloc, fields.as_str(), (64, 64, "5"), NOT_READ),
        Err(_) => false,
    }
}

/// The first other field with which it isn't.
fn first_field_taken(alloc: Global) -> Option<&'static str> {
    for (field, other) in OTHER_FIELDS {
        if !is_refused_with(alloc, field, other) {
            return Some(other);
        }
    }
    None
}

#[test]
fn refused_texts(rt: HostRuntime) {
    let alloc = rt.alloc();
    assert!(rt; refusal::<u8>(alloc, "=") == NOT_READ);
    assert!(rt; refusal::<u8>(alloc, "") == NOT_READ);
    assert!(rt; refusal::<u8>(alloc, FIELDS) == NOT_READ);
    assert_same!(rt; first_field_taken(alloc), None);
}

#[test]
fn refused_values(rt: HostRuntime) {
    let alloc = rt.alloc();
    assert!(rt; is_refused::<u8>(alloc, FIELDS, (64, 64, "256"), NOT_READ));
    assert!(rt; is_refused::<u32>(alloc, FIELDS, (64, 64, "4294967296"), NOT_READ));
    assert!(rt; is_refused::<char>(alloc, FIELDS, (64, 64, "0xD800"), NOT_READ));
    assert!(rt; is_refused::<u8>(alloc, FIELDS, (64, 64, "true"), NOT_READ));
    assert!(rt; is_refused::<char>(alloc, FIELDS, (64, 64, "0x10FFFF"), None));
}

/// Whether the tables of a text are refused for this.
fn tables_are_refused(
    alloc: Global,
    index: usize,
    cells: usize,
    fault: CodePointTrieError,
) -> bool {
    let expected = Some(CodePointTrieTomlError::Trie(fault));
    is_refused::<u8>(alloc, FIELDS, (index, cells, "0"), expected)
}

#[test]
fn refused_tables(rt: HostRuntime) {
    let alloc = rt.alloc();
    let index = CodePointTrieError::IndexTooShortForFastAccess;
    let data = CodePointTrieError::DataTooShortForFastAccess;
    assert!(rt; tables_are_refused(alloc, 64, 0, CodePointTrieError::EmptyDataVector));
    assert!(rt; tables_are_refused(alloc, 63, 64, index));
    assert!(rt; tables_are_refused(alloc, 64, 63, data));
}

/// Whether two errors are shown as this.
fn are_shown(
    alloc: Global,
    first: CodePointTrieTomlError,
    second: CodePointTrieTomlError,
    text: &str,
) -> bool {
    match format!(in alloc; "{first}, {second}") {
        Ok(shown) => shown.as_str() == text,
        Err(_) => false,
    }
}

#[test]
fn texts_of_errors(rt: HostRuntime) {
    let fault = CodePointTrieTomlError::Trie(CodePointTrieError::EmptyDataVector);
    let memory = CodePointTrieTomlError::Memory;
    assert!(rt; are_shown(rt.alloc(), fault, memory, "no data cell, out of memory"));
}

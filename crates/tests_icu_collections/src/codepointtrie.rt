//! Tests of tries of given tables.

mod builder;
mod ranges;

use icu_collections::codepointtrie::{
    CodePointTrie, CodePointTrieError, CodePointTrieHeader, FastCodePointTrie, SmallCodePointTrie,
    TrieType, TrieValue, TypedCodePointTrie,
};
use icu_collections_sets::packed_vector::PackedVec;
use std::alloc::{AllocError, Global};

fn header(trie_type: TrieType, high_start: u32) -> CodePointTrieHeader {
    CodePointTrieHeader {
        high_start,
        shifted12_high_start: 4,
        index3_null_offset: 0,
        data_null_offset: 0,
        null_value: 0,
        trie_type,
    }
}

/// The index of the trie below: blocks at 0 and 64, then one at 128 for all others.
fn small_index(alloc: Global) -> Result<PackedVec<'static, u16>, AllocError> {
    let mut index = [128u16; 64];
    index[0] = 0;
    index[1] = 64;
    PackedVec::from_slice(alloc, &index)
}

/// Its cells.
fn small_cells(alloc: Global) -> Result<PackedVec<'static, u8>, AllocError> {
    let mut cells = Vec::new(alloc);
    for index in 0..194u8 {
        cells.push(match index {
            0..64 => 5,
            65..68 => 6,
            193 => 9,
            _ => 8,
        })?;
    }
    PackedVec::from_slice(alloc, &cells)
}

/// A trie in which code points below 40 (hex) have 5, 41 to 43 have 6, others up to 10FFFF 8, and numbers past it 9.
fn small_trie(alloc: Global) -> Option<CodePointTrie<'static, u8>> {
    let index = small_index(alloc).ok()?;
    let cells = small_cells(alloc).ok()?;
    CodePointTrie::try_new(header(TrieType::Small, 0x1000), index, cells).ok()
}

/// Why the bytes of an index and of cells make no trie.
fn refusal(index: &[u8], cells: &[u8]) -> Option<CodePointTrieError> {
    let index = PackedVec::<u16>::try_from_bytes(index).ok()?;
    let cells = PackedVec::<u8>::try_from_bytes(cells).ok()?;
    CodePointTrie::try_new(header(TrieType::Small, 0x1000), index, cells).err()
}

#[test]
fn refused_tables(rt: HostRuntime) {
    assert!(rt; refusal(&[], &[]) == Some(CodePointTrieError::EmptyDataVector));
    assert!(rt;
        refusal(&[0; 126], &[0; 64]) == Some(CodePointTrieError::IndexTooShortForFastAccess)
    );
    assert!(rt;
        refusal(&[0; 128], &[0; 63]) == Some(CodePointTrieError::DataTooShortForFastAccess)
    );
}

/// Whether a trie reads these values.
fn reads_all<T: TrieValue>(trie: &CodePointTrie<'_, T>, table: &[(u32, T)]) -> bool {
    for (code_point, value) in table {
        if trie.get32(*code_point) != *value {
            return false;
        }
    }
    true
}

/// Whether a trie has a cell for each of these numbers.
fn has_cells<T: TrieValue>(trie: &CodePointTrie<'_, T>, numbers: &[u32]) -> bool {
    for number in numbers {
        if !trie.has_cell(*number) {
            return false;
        }
    }
    true
}

/// The numbers and values of the trie above.
const SMALL: [(u32, u8); 5] = [
    (0x3F, 5),
    (0x41, 6),
    (0x44, 8),
    (0x10_FFFF, 8),
    (0x11_0000, 9),
];

/// Whether a trie is that one.
fn is_small(trie: &CodePointTrie<'_, u8>) -> bool {
    reads_all(trie, &SMALL)
        && trie.get('A') == 6
        && trie.get32_u32(0x44) == 8
        && has_cells(trie, &[0x11_0000])
}

/// Whether it is made.
fn makes_small(alloc: Global) -> bool {
    match small_trie(alloc) {
        Some(trie) => is_small(&trie),
        None => false,
    }
}

#[test]
fn cells_of_one_step(rt: HostRuntime) {
    assert!(rt; makes_small(rt.alloc()));
}

// an index whose group of 18-bit offsets begins at 105: the first offset is 10000, the second 0
fn wide_index(alloc: Global) -> Result<PackedVec<'static, u16>, AllocError> {
    let mut index = [0u16; 114];
    index[64] = 65;
    index[73] = 0x8069;
    index[105] = 0x4000;
    PackedVec::from_slice(alloc, &index)
}

/// Cells that are 0, but for one.
fn wide_cells(alloc: Global) -> Result<PackedVec<'static, u8>, AllocError> {
    let mut cells = Vec::new(alloc);
    for index in 0..0x1_0010u32 {
        cells.push(if index == 0x1_0005 { 7u8 } else { 0 })?;
    }
    PackedVec::from_slice(alloc, &cells)
}

/// A trie of these.
fn wide_trie(alloc: Global) -> Option<CodePointTrie<'static, u8>> {
    let index = wide_index(alloc).ok()?;
    let cells = wide_cells(alloc).ok()?;
    CodePointTrie::try_new(header(TrieType::Small, 0x2000), index, cells).ok()
}

/// Whether it is made, reads these values, and has a cell for the first.
fn wide_reads(alloc: Global, table: &[(u32, u8)]) -> bool {
    match wide_trie(alloc) {
        Some(trie) => reads_all(&trie, table) && has_cells(&trie, &[0x1005]),
        None => false,
    }
}

#[test]
fn cells_of_wide_offsets(rt: HostRuntime) {
    assert!(rt; wide_reads(rt.alloc(), &[(0x1005, 7), (0x1004, 0), (0x1015, 0)]));
}

/// Whether a typed trie reads these values, by character and by number.
fn small_reads(trie: &SmallCodePointTrie<'_, u8>, table: &[(char, u8)]) -> bool {
    for (character, value) in table {
        if trie.get(*character) != *value || trie.get32(*character as u32) != *value {
            return false;
        }
    }
    true
}

/// A trie of a limit of 1000 (hex), in which all is 3.
fn trie_of_threes() -> Option<CodePointTrie<'static, u8>> {
    let index = PackedVec::<u16>::try_from_bytes(&[0; 128]).ok()?;
    let cells = PackedVec::<u8>::try_from_bytes(&[3; 64]).ok()?;
    CodePointTrie::try_new(header(TrieType::Small, 0x1000), index, cells).ok()
}

/// Whether a small trie, known as one, reads these values.
fn is_small_and_reads(trie: CodePointTrie<'_, u8>, table: &[(char, u8)]) -> bool {
    match SmallCodePointTrie::try_from(trie) {
        Ok(small) => small_reads(&small, table),
        Err(_) => false,
    }
}

/// Whether the trie of threes has a cell at its limit, and reads these values.
fn threes_read(table: &[(char, u8)]) -> bool {
    match trie_of_threes() {
        Some(trie) => has_cells(&trie, &[0x1000]) && is_small_and_reads(trie, table),
        None => false,
    }
}

#[test]
fn values_from_the_limit_on(rt: HostRuntime) {
    assert!(rt; threes_read(&[('\u{1000}', 3), ('a', 3)]));
}

/// Whether a trie is equal to the small one.
fn equals_small(alloc: Global, trie: &CodePointTrie<'_, u8>) -> bool {
    match small_trie(alloc) {
        Some(small) => *trie == small,
        None => false,
    }
}

/// Whether a trie is a small one, and that.
fn is_typed(alloc: Global, trie: CodePointTrie<'_, u8>) -> bool {
    match SmallCodePointTrie::try_from(trie) {
        Ok(small) => {
            small_reads(&small, &[('A', 6)]) && equals_small(alloc, small.as_untyped_ref())
        }
        Err(_) => false,
    }
}

/// The small trie, which comes back as it isn't a fast one.
fn refused_as_fast(alloc: Global) -> Option<CodePointTrie<'static, u8>> {
    FastCodePointTrie::try_from(small_trie(alloc)?).err()
}

/// Whether it comes back so, and is known as a small one.
fn comes_back_typed(alloc: Global) -> bool {
    match refused_as_fast(alloc) {
        Some(trie) => is_typed(alloc, trie),
        None => false,
    }
}

#[test]
fn typed_tries(rt: HostRuntime) {
    assert!(rt; comes_back_typed(rt.alloc()));
}

/// Whether a range of a trie prints as this.
fn range_prints(alloc: Global, trie: &CodePointTrie<'_, u8>, text: &str) -> bool {
    match format!(in alloc; "{:?}", trie.get_range(0x10_FFFF)) {
        Ok(printed) => printed.as_str() == text,
        Err(_) => false,
    }
}

/// Whether mapped ranges print with this at the front and that at the end.
fn mapped_ranges_print(
    alloc: Global,
    trie: &CodePointTrie<'_, u8>,
    front: &str,
    end: &str,
) -> bool {
    match format!(in alloc; "{:?}", trie.iter_ranges_mapped(|value: u8| value > 5)) {
        Ok(printed) => printed.as_str().starts_with(front) && printed.as_str().ends_with(end),
        Err(_) => false,
    }
}

/// Whether a trie that is known as a small one prints with this at the front.
fn typed_prints(alloc: Global, trie: CodePointTrie<'_, u8>, front: &str) -> bool {
    match format!(in alloc; "{:?}", SmallCodePointTrie::try_from(trie)) {
        Ok(printed) => printed.as_str().starts_with(front),
        Err(_) => false,
    }
}

/// Whether a trie prints so, in these three ways.
fn prints(alloc: Global, trie: CodePointTrie<'_, u8>) -> bool {
    range_prints(
        alloc,
        &trie,
        "Some(CodePointMapRange { range: 1114111..=1114111, value: 3 })",
    ) && mapped_ranges_print(
        alloc,
        &trie,
        "CodePointMappedRanges { trie: CodePointTrie {",
        ", start: 0, .. }",
    ) && typed_prints(
        alloc,
        trie,
        "Ok(SmallCodePointTrie { trie: CodePointTrie { header: CodePointTrieHeader { high_start: 4096,",
    )
}

/// Whether the trie of threes does.
fn threes_print(alloc: Global) -> bool {
    match trie_of_threes() {
        Some(trie) => prints(alloc, trie),
        None => false,
    }
}

#[test]
fn what_tries_print(rt: HostRuntime) {
    assert!(rt; threes_print(rt.alloc()));
}

/// Whether a trie is equal to its copy, which reads a value.
fn is_copied(alloc: Global, trie: &CodePointTrie<'_, u8>) -> bool {
    match trie.clone(alloc) {
        Ok(copy) => copy == *trie && reads_all(&copy, &[(0x42, 6)]),
        Err(_) => false,
    }
}

/// Whether the small one is.
fn small_is_copied(alloc: Global) -> bool {
    match small_trie(alloc) {
        Some(trie) => is_copied(alloc, &trie),
        None => false,
    }
}

#[test]
fn ok_clone(rt: HostRuntime) {
    assert!(rt; small_is_copied(rt.alloc()));
}

/// Whether each number is that of this value, or of none.
fn are_values<T: TrieValue>(table: &[(u32, Option<T>)]) -> bool {
    for (number, value) in table {
        if T::try_from_u32(*number) != *value || value.is_some_and(|v| v.to_u32() != *number) {
            return false;
        }
    }
    true
}

#[test]
fn numbers_of_values(rt: HostRuntime) {
    assert!(rt; are_values::<u8>(&[(0x100, None), (0xFF, Some(0xFF))]));
    assert!(rt; are_values::<u16>(&[(0x1_0000, None), (0xFFFF, Some(0xFFFF))]));
    assert!(rt; are_values::<char>(&[(0xD800, None), (0x61, Some('a'))]));
    assert!(rt; are_values::<u32>(&[(0xFFFF_FFFF, Some(0xFFFF_FFFF))]));
}

//! Tests of tries that are built from maps.
use super::{has_cells, reads_all};
use icu_collections::codepointtrie::{
    CodePointTrie, CodePointTrieBuildError, CodePointTrieBuilder, TrieType, planes,
};
use std::alloc::Global;

/// Whether these writes of single code points are taken, or all refused.
fn takes(map: &mut CodePointTrieBuilder<u32>, writes: &[(u32, u32)], expected: bool) -> bool {
    for (code_point, value) in writes {
        if map.set_value(*code_point, *value).is_ok() != expected {
            return false;
        }
    }
    true
}

/// Whether a new map takes writes of code points, and of no other number.
fn new_map_takes(alloc: Global) -> bool {
    match CodePointTrieBuilder::new(alloc, 0u32, 9, TrieType::Small) {
        Ok(mut map) => {
            takes(&mut map, &[(0x41, 7), (0x41, 0)], true)
                && takes(&mut map, &[(0x11_0000, 1)], false)
        }
        Err(_) => false,
    }
}

#[test]
fn ok_new(rt: HostRuntime) {
    assert!(rt; new_map_takes(rt.alloc()));
}

/// Whether these writes of the value 7 from one end to the other are taken, or all refused.
fn takes_ranges(map: &mut CodePointTrieBuilder<u8>, ends: &[(u32, u32)], expected: bool) -> bool {
    for (start, end) in ends {
        if map.set_range_value(*start..=*end, 7).is_ok() != expected {
            return false;
        }
    }
    true
}

/// Whether a new map takes writes of ranges of code points, and of no others.
fn new_map_takes_ranges(alloc: Global) -> bool {
    match CodePointTrieBuilder::new(alloc, 0u8, 9, TrieType::Fast) {
        Ok(mut map) => {
            takes_ranges(&mut map, &[(0x41, 0x10_FFFF), (0x42, 0x41)], true)
                && takes_ranges(&mut map, &[(0x41, 0x11_0000), (0x11_0000, 0x41)], false)
        }
        Err(_) => false,
    }
}

#[test]
fn writes_of_ranges(rt: HostRuntime) {
    assert!(rt; new_map_takes_ranges(rt.alloc()));
}

// the value 7 at 41, else 0, and 9 past the last code point
fn one_value(alloc: Global, trie_type: TrieType) -> Option<CodePointTrie<'static, u32>> {
    let mut map = CodePointTrieBuilder::new(alloc, 0u32, 9, trie_type).ok()?;
    if takes(&mut map, &[(0x41, 7), (0x41, 0)], true) {
        map.build().ok()
    } else {
        None
    }
}

/// The values of that.
const ONE_VALUE: [(u32, u32); 4] = [(0x41, 7), (0x42, 0), (0x10_FFFF, 0), (0x11_0000, 9)];

/// Whether it is built.
fn builds_one_value(alloc: Global, trie_type: TrieType) -> bool {
    match one_value(alloc, trie_type) {
        Some(trie) => reads_all(&trie, &ONE_VALUE) && has_cells(&trie, &[0x10_FFFF]),
        None => false,
    }
}

#[test]
fn ok_build(rt: HostRuntime) {
    assert!(rt; builds_one_value(rt.alloc(), TrieType::Fast));
    assert!(rt; builds_one_value(rt.alloc(), TrieType::Small));
}

/// Gives each code point below 50000 (hex) its own number plus one; whether all is taken.
fn gives_each_its_own(map: &mut CodePointTrieBuilder<u32>) -> bool {
    for code_point in 0..0x5_0000u32 {
        if map.set_value(code_point, code_point + 1).is_err() {
            return false;
        }
    }
    true
}

/// Whether such a map is taken, and not built as it is too large.
fn is_too_large(alloc: Global, trie_type: TrieType) -> bool {
    match CodePointTrieBuilder::new(alloc, 0u32, 0, trie_type) {
        Ok(mut map) => {
            gives_each_its_own(&mut map)
                && map.build().err() == Some(CodePointTrieBuildError::TooLarge)
        }
        Err(_) => false,
    }
}

#[test]
fn too_many_blocks(rt: HostRuntime) {
    assert!(rt; is_too_large(rt.alloc(), TrieType::Fast));
    assert!(rt; is_too_large(rt.alloc(), TrieType::Small));
}

/// Gives 1000 + 10 * i (hex) the value i + 1, for each i below 15,839, of which 11,999 lie from 10000 (hex) on; whether
/// all is taken.
fn gives_blocks(map: &mut CodePointTrieBuilder<u32>) -> bool {
    for number in 0..15_839u32 {
        if map.set_value(0x1000 + 0x10 * number, number + 1).is_err() {
            return false;
        }
    }
    true
}

// the value i + 1 at 1000 + 10 * i (hex) for each i below 15,839, else 0
fn row_of_blocks(alloc: Global, trie_type: TrieType) -> Option<CodePointTrie<'static, u32>> {
    let mut map = CodePointTrieBuilder::new(alloc, 0u32, 0, trie_type).ok()?;
    if gives_blocks(&mut map) {
        map.build().ok()
    } else {
        None
    }
}

/// Whether a trie has these values, and 0 after each.
fn has_blocks(trie: &CodePointTrie<'_, u32>) -> bool {
    for number in 0..15_839u32 {
        let code_point = 0x1000 + 0x10 * number;
        if trie.get32(code_point) != number + 1 || trie.get32(code_point + 1) != 0 {
            return false;
        }
    }
    true
}

/// Whether such a trie is built.
fn builds_blocks(alloc: Global, trie_type: TrieType) -> bool {
    match row_of_blocks(alloc, trie_type) {
        Some(trie) => has_blocks(&trie),
        None => false,
    }
}

#[test]
fn as_many_blocks_as_are_taken(rt: HostRuntime) {
    assert!(rt; builds_blocks(rt.alloc(), TrieType::Fast));
    assert!(rt; builds_blocks(rt.alloc(), TrieType::Small));
}

// a number that looks random, from the one before it
fn next_random(seed: &mut u32) -> u32 {
    *seed ^= *seed << 13;
    *seed ^= *seed >> 17;
    *seed ^= *seed << 5;
    *seed
}

/// Writes a value into a list, from the first code point to the last, if it isn't 0.
fn write_values(values: &mut [u16], first: u32, last: u32, value: u16) {
    for code_point in first..=last {
        if value != 0 {
            if let Some(cell) = values.get_mut(code_point as usize) {
                *cell = value;
            }
        }
    }
}

/// Writes it into a map; whether it is taken.
fn takes_value(map: &mut CodePointTrieBuilder<u16>, first: u32, last: u32, value: u16) -> bool {
    if last > first {
        map.set_range_value(first..=last, value).is_ok()
    } else {
        map.set_value(first, value).is_ok()
    }
}

/// As many writes as asked for, of single code points and of ranges, into the map and into a list; whether all are taken.
fn random_writes(map: &mut CodePointTrieBuilder<u16>, values: &mut [u16], writes: u32) -> bool {
    let mut seed = 0x1234_5678;
    for number in 0..writes {
        let bound = if number % 3 == 0 { 0x4_0000 } else { 0x2_0000 };
        let first = next_random(&mut seed) % bound;
        let count = if number % 4 == 0 {
            next_random(&mut seed) % 300
        } else {
            0
        };
        let last = (first + count).min(0x10_FFFF);
        let value = (next_random(&mut seed) % 5) as u16;
        if !takes_value(map, first, last, value) {
            return false;
        }
        write_values(values, first, last, value);
    }
    true
}

/// Whether a trie reads the values of all code points, and 8 of another number.
fn reads_values(trie: &CodePointTrie<'_, u16>, values: &[u16]) -> bool {
    for code_point in 0..0x11_0000u32 {
        if values.get(code_point as usize).copied() != Some(trie.get32(code_point)) {
            return false;
        }
    }
    reads_all(trie, &[(0xFFFF_FFFF, 8)])
}

/// Whether what is built of a map does.
fn builds_values(map: &CodePointTrieBuilder<u16>, values: &[u16]) -> bool {
    match map.build() {
        Ok(trie) => reads_values(&trie, values),
        Err(_) => false,
    }
}

/// Whether a map takes random writes, and what is built of it reads what was written into this list.
fn builds_random(alloc: Global, trie_type: TrieType, values: &mut [u16]) -> bool {
    match CodePointTrieBuilder::new(alloc, 0u16, 8, trie_type) {
        Ok(mut map) => { random_writes(&mut map, values, 4000) && builds_values(&map, values) }
        Err(_) => false,
    }
}

/// The same with a list of its own.
fn random_map_is_built(alloc: Global, trie_type: TrieType) -> bool {
    match vec![in alloc; 0u16; 0x11_0000] {
        Ok(mut values) => builds_random(alloc, trie_type, values.as_mut_slice()),
        Err(_) => false,
    }
}

#[test]
fn random_maps(rt: HostRuntime) {
    assert!(rt; random_map_is_built(rt.alloc(), TrieType::Fast));
    assert!(rt; random_map_is_built(rt.alloc(), TrieType::Small));
}

/// Whether the trie of planes reads these values.
fn planes_read(alloc: Global, table: &[(u32, u8)]) -> bool {
    match planes::get_planes_trie(alloc) {
        Ok(planes) => reads_all(&planes, table),
        Err(_) => false,
    }
}

#[test]
fn ok_get_planes_trie(rt: HostRuntime) {
    let table = [(0x41, 0), (0x1F600, 1), (0x10_FFFF, 16), (0x11_0000, 0)];
    assert!(rt; planes_read(rt.alloc(), &table));
}

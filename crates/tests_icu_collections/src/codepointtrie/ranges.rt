//! Tests of the ranges of tries.
use super::small_trie;
use icu_collections::codepointtrie::CodePointTrie;
use std::alloc::Global;

/// Whether the ranges of a trie begin so and have these values.
fn has_ranges(trie: &CodePointTrie<'_, u8>, expected: &[(u32, u8)]) -> bool {
    let mut ranges = trie.iter_ranges();
    for (start, value) in expected {
        match ranges.next() {
            Some(found) if *found.range.start() == *start && found.value == *value => {}
            _ => return false,
        }
    }
    ranges.next().is_none()
}

/// Whether those of the small trie do.
fn small_has_ranges(alloc: Global, expected: &[(u32, u8)]) -> bool {
    match small_trie(alloc) {
        Some(trie) => has_ranges(&trie, expected),
        None => false,
    }
}

#[test]
fn ranges_of_a_trie(rt: HostRuntime) {
    assert!(rt; small_has_ranges(rt.alloc(), &[(0, 5), (0x40, 8), (0x41, 6), (0x44, 8)]));
}

/// Whether the range that holds a code point begins there and ends so, or there is none.
fn has_range_from(trie: &CodePointTrie<'_, u8>, start: u32, end: Option<u32>) -> bool {
    match trie.get_range(start) {
        None => end.is_none(),
        Some(found) => *found.range.start() == start && Some(*found.range.end()) == end,
    }
}

/// Whether the small trie has a range from a code point, and none past the last.
fn small_has_ranges_from(alloc: Global) -> bool {
    match small_trie(alloc) {
        Some(trie) => {
            has_range_from(&trie, 0x42, Some(0x43)) && has_range_from(&trie, 0x11_0000, None)
        }
        None => false,
    }
}

#[test]
fn ranges_from_code_points(rt: HostRuntime) {
    assert!(rt; small_has_ranges_from(rt.alloc()));
}

/// Whether the ranges with a value have these ends.
fn has_ranges_for(trie: &CodePointTrie<'_, u8>, value: u8, ends: &[(u32, u32)]) -> bool {
    let mut ranges = trie.iter_ranges_for_value(value);
    for (start, end) in ends {
        match ranges.next() {
            Some(range) if *range.start() == *start && *range.end() == *end => {}
            _ => return false,
        }
    }
    ranges.next().is_none()
}

/// Whether those of the small trie do.
fn small_has_ranges_for(alloc: Global, value: u8, ends: &[(u32, u32)]) -> bool {
    match small_trie(alloc) {
        Some(trie) => has_ranges_for(&trie, value, ends),
        None => false,
    }
}

#[test]
fn ranges_of_a_value(rt: HostRuntime) {
    assert!(rt; small_has_ranges_for(rt.alloc(), 8, &[(0x40, 0x40), (0x44, 0x10_FFFF)]));
    assert!(rt; small_has_ranges_for(rt.alloc(), 9, &[]));
}

/// Whether the set of the code points with a value has these ends.
fn has_edges(alloc: Global, trie: &CodePointTrie<'_, u8>, value: u8, edges: &[u32]) -> bool {
    let Ok(set) = trie.get_set_for_value(alloc, value) else {
        return false;
    };
    match set.get_inversion_list_vec(alloc) {
        Ok(list) => list.as_slice() == edges,
        Err(_) => false,
    }
}

/// Whether that of the small trie has.
fn small_has_edges(alloc: Global, value: u8, edges: &[u32]) -> bool {
    match small_trie(alloc) {
        Some(trie) => has_edges(alloc, &trie, value, edges),
        None => false,
    }
}

#[test]
fn ok_get_set_for_value(rt: HostRuntime) {
    assert!(rt; small_has_edges(rt.alloc(), 8, &[0x40, 0x41, 0x44, 0x11_0000]));
    assert!(rt; small_has_edges(rt.alloc(), 6, &[0x41, 0x44]));
}

#[test]
fn sets_of_no_value(rt: HostRuntime) {
    assert!(rt; small_has_edges(rt.alloc(), 9, &[]));
}

/// Whether the ranges of a trie's values, as to whether they are over 5, begin so.
fn has_images(trie: &CodePointTrie<'_, u8>, expected: &[(u32, bool)]) -> bool {
    let mut ranges = trie.iter_ranges_mapped(|value: u8| value > 5);
    for (start, image) in expected {
        match ranges.next() {
            Some(found) if *found.range.start() == *start && found.value == *image => {}
            _ => return false,
        }
    }
    ranges.next().is_none()
}

/// Whether those of the small trie do.
fn small_has_images(alloc: Global, expected: &[(u32, bool)]) -> bool {
    match small_trie(alloc) {
        Some(trie) => has_images(&trie, expected),
        None => false,
    }
}

#[test]
fn ranges_of_an_image(rt: HostRuntime) {
    assert!(rt; small_has_images(rt.alloc(), &[(0, false), (0x40, true)]));
}

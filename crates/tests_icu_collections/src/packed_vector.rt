//! Tests of packed vectors.
use assertions::assert_same;
use icu_collections_sets::packed_vector::{PackedItem, PackedVec, PackedVecError};
use std::alloc::Global;

/// Why bytes are no vector of such items.
fn refusal<T: PackedItem>(bytes: &[u8]) -> Option<PackedVecError> {
    PackedVec::<T>::try_from_bytes(bytes).err()
}

#[test]
fn bytes_that_end_within_an_item(rt: HostRuntime) {
    assert_same!(rt; refusal::<u16>(&[1, 2, 3]), Some(PackedVecError::OddLength));
    assert_same!(rt; refusal::<char>(&[0, 0xD8, 0, 0]), Some(PackedVecError::OddLength));
}

/// Whether a vector has these items and no others.
fn has_items<T: PackedItem>(items: &PackedVec<'_, T>, expected: &[T]) -> bool {
    if items.len() != expected.len() || items.get(expected.len()).is_some() {
        return false;
    }
    for (index, item) in expected.iter().enumerate() {
        if items.get(index) != Some(*item) {
            return false;
        }
    }
    true
}

/// Whether bytes are a vector of these items.
fn are_items<T: PackedItem>(bytes: &[u8], expected: &[T]) -> bool {
    match PackedVec::<T>::try_from_bytes(bytes) {
        Ok(items) => has_items(&items, expected),
        Err(_) => false,
    }
}

#[test]
fn bytes_of_a_number(rt: HostRuntime) {
    assert!(rt; are_items::<u16>(&[1, 2], &[0x0201]));
    assert!(rt; are_items::<u64>(&[8, 7, 6, 5, 4, 3, 2, 1], &[0x0102_0304_0506_0708]));
}

#[test]
fn bytes_of_a_character(rt: HostRuntime) {
    assert_same!(rt; refusal::<char>(&[0, 0xD8, 0]), Some(PackedVecError::BadValue(0)));
    assert_same!(rt; refusal::<char>(&[0x61, 0, 0, 0, 0, 0x11]), Some(PackedVecError::BadValue(1)));
    assert!(rt; are_items::<char>(&[0x61, 0, 0], &['a']));
}

/// What an iterator gives, in turn from the front and from the back.
fn in_turn(items: &PackedVec<'_, u16>) -> [Option<u16>; 4] {
    let mut iter = items.iter();
    [iter.next(), iter.next_back(), iter.next(), iter.next_back()]
}

/// Whether the iterator of these bytes gives this.
fn give_in_turn(bytes: &[u8], expected: [Option<u16>; 4]) -> bool {
    match PackedVec::<u16>::try_from_bytes(bytes) {
        Ok(items) => in_turn(&items) == expected,
        Err(_) => false,
    }
}

#[test]
fn items_from_both_ends(rt: HostRuntime) {
    let expected = [Some(1), Some(3), Some(2), None];
    assert!(rt; give_in_turn(&[1, 0, 2, 0, 3, 0], expected));
}

/// Whether the items of each of these ranges are so many, or there is no such part.
fn has_parts(items: &PackedVec<'_, u32>, parts: &[(usize, usize, Option<usize>)]) -> bool {
    for (start, end, count) in parts {
        if items.subslice(*start..*end).map(|part| part.len()) != *count {
            return false;
        }
    }
    true
}

/// Whether the items of a range are these.
fn is_part(items: &PackedVec<'_, u32>, start: usize, end: usize, expected: &[u32]) -> bool {
    match items.subslice(start..end) {
        Some(part) => has_items(&part, expected),
        None => false,
    }
}

/// Whether the vector of three numbers has these parts, and those from the second on.
fn three_have_parts(bytes: &[u8], parts: &[(usize, usize, Option<usize>)]) -> bool {
    match PackedVec::<u32>::try_from_bytes(bytes) {
        Ok(items) => has_parts(&items, parts) && is_part(&items, 1, 3, &[2, 3]),
        Err(_) => false,
    }
}

#[test]
fn items_of_a_range(rt: HostRuntime) {
    assert!(rt;
        three_have_parts(
            &[1, 0, 0, 0, 2, 0, 0, 0, 3, 0, 0, 0],
            &[(1, 3, Some(2)), (3, 3, Some(0)), (2, 4, None), (2, 1, None)]
        )
    );
}

/// Whether characters are packed.
fn packs_characters(alloc: Global) -> bool {
    match PackedVec::from_slice(alloc, &['a', '\u{1F600}']) {
        Ok(items) => has_items(&items, &['a', '\u{1F600}']),
        Err(_) => false,
    }
}

/// Whether a number of eight bytes is.
fn packs_a_number(alloc: Global) -> bool {
    match PackedVec::from_slice(alloc, &[0x0102_0304_0506_0708u64]) {
        Ok(items) => has_items(&items, &[0x0102_0304_0506_0708]),
        Err(_) => false,
    }
}

#[test]
fn ok_from_slice(rt: HostRuntime) {
    assert!(rt; packs_characters(rt.alloc()));
    assert!(rt; packs_a_number(rt.alloc()));
}

/// Whether the owned form of a vector of these bytes has these items.
fn is_owned(alloc: Global, bytes: &[u8], expected: &[u16]) -> bool {
    let Ok(items) = PackedVec::<u16>::try_from_bytes(bytes) else {
        return false;
    };
    match items.into_owned(alloc) {
        Ok(owned) => has_items(&owned, expected),
        Err(_) => false,
    }
}

#[test]
fn ok_into_owned(rt: HostRuntime) {
    assert!(rt; is_owned(rt.alloc(), &[1, 2], &[0x0201]));
}

/// Whether the copy of a vector is equal to it, and has these items.
fn clones(alloc: Global, vector: &PackedVec<'_, u16>, items: &[u16]) -> bool {
    match vector.clone(alloc) {
        Ok(copy) => copy == *vector && has_items(&copy, items),
        Err(_) => false,
    }
}

/// Whether that of one of borrowed bytes is.
fn borrowed_clones(alloc: Global, bytes: &[u8], items: &[u16]) -> bool {
    match PackedVec::<u16>::try_from_bytes(bytes) {
        Ok(borrowed) => clones(alloc, &borrowed, items),
        Err(_) => false,
    }
}

/// Whether that of one of packed items is.
fn packed_clones(alloc: Global, items: &[u16]) -> bool {
    match PackedVec::from_slice(alloc, items) {
        Ok(packed) => clones(alloc, &packed, items),
        Err(_) => false,
    }
}

#[test]
fn ok_clone(rt: HostRuntime) {
    assert!(rt; borrowed_clones(rt.alloc(), &[1, 2], &[0x0201]));
    assert!(rt; packed_clones(rt.alloc(), &[0x0201]));
}

/// Whether a vector is equal to that of packed items, or is another.
fn compares(alloc: Global, vector: &PackedVec<'_, u16>, items: &[u16], expected: bool) -> bool {
    match PackedVec::from_slice(alloc, items) {
        Ok(packed) => (*vector == packed) == expected,
        Err(_) => false,
    }
}

/// Whether one of borrowed bytes is equal to the first, and not to the second.
fn borrowed_compares(alloc: Global, bytes: &[u8], equal: &[u16], other: &[u16]) -> bool {
    match PackedVec::<u16>::try_from_bytes(bytes) {
        Ok(borrowed) => {
            compares(alloc, &borrowed, equal, true) && compares(alloc, &borrowed, other, false)
        }
        Err(_) => false,
    }
}

#[test]
fn equal_items(rt: HostRuntime) {
    assert!(rt; borrowed_compares(rt.alloc(), &[1, 2], &[0x0201], &[0x0102]));
}

/// Whether a vector of characters prints as this.
fn prints(alloc: Global, items: &PackedVec<'_, char>, text: &str) -> bool {
    match format!(in alloc; "{items:?}") {
        Ok(printed) => printed.as_str() == text,
        Err(_) => false,
    }
}

/// Whether the one of these bytes does.
fn bytes_print(alloc: Global, bytes: &[u8], text: &str) -> bool {
    match PackedVec::<char>::try_from_bytes(bytes) {
        Ok(items) => prints(alloc, &items, text),
        Err(_) => false,
    }
}

/// Whether an error is shown as this.
fn is_shown(alloc: Global, error: PackedVecError, text: &str) -> bool {
    match format!(in alloc; "{error}") {
        Ok(shown) => shown.as_str() == text,
        Err(_) => false,
    }
}

#[test]
fn printed(rt: HostRuntime) {
    let text = "item 3 isn't a value of its type";
    assert!(rt; bytes_print(rt.alloc(), &[0x61, 0, 0], "['a']"));
    assert!(rt; is_shown(rt.alloc(), PackedVecError::BadValue(3), text));
}

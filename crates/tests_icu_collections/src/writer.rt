//! Writing of unit tries: what is written is found again, keys at fault, and a key of 5,000,000 units.

use assertions::assert_same;
use icu_collections::char16trie::{Char16Trie, TrieResult, WriteUnitsError, write_units};
use icu_collections_sets::packed_vector::PackedVec;
use std::alloc::{AllocError, Global};

/// What a cursor says of all the units of a key.
fn answer_to(trie: &Char16Trie<'_>, key: &[u16]) -> TrieResult {
    let mut cursor = trie.iter();
    let mut answer = TrieResult::NoMatch;
    for unit in key {
        answer = cursor.next16(*unit);
    }
    answer
}

/// Whether a cursor finds each pair in a trie.
fn finds(trie: &Char16Trie<'_>, pairs: &[(&[u16], i32)]) -> bool {
    for (key, value) in pairs {
        match answer_to(trie, key) {
            TrieResult::Intermediate(found) if found == *value => {}
            TrieResult::FinalValue(found) if found == *value => {}
            _ => return false,
        }
    }
    true
}

/// Whether it does in the trie of these units.
fn units_find(alloc: Global, units: &[u16], pairs: &[(&[u16], i32)]) -> bool {
    match PackedVec::from_slice(alloc, units) {
        Ok(packed) => finds(&Char16Trie::new(packed), pairs),
        Err(_) => false,
    }
}

/// Whether it does in what is written of all.
fn reads_back(alloc: Global, pairs: &[(&[u16], i32)]) -> bool {
    match write_units(alloc, pairs) {
        Ok(units) => units_find(alloc, &units, pairs),
        Err(_) => false,
    }
}

/// The keys with values of every width and sign.
fn with_values(alloc: Global, keys: &Vec<Vec<u16>>) -> Result<Vec<(&[u16], i32)>, AllocError> {
    let mut value = i32::MIN;
    let mut pairs = Vec::new(alloc);
    for key in keys {
        pairs.push((key.as_slice(), value))?;
        value = value.wrapping_add(123_456_789);
    }
    Ok(pairs)
}

/// Whether these units are written of pairs.
fn writes(alloc: Global, pairs: &[(&[u16], i32)], expected: &[u16]) -> bool {
    match write_units(alloc, pairs) {
        Ok(units) => units.as_slice() == expected,
        Err(_) => false,
    }
}

#[test]
fn ok_write_units(rt: HostRuntime) {
    let a: &[u16] = &[0x61];
    let ab: &[u16] = &[0x61, 0x62];
    let linear = [0x30, 0x61, 0xb0, 0x62, 0x8002];
    assert!(rt; writes(rt.alloc(), &[(a, 1), (ab, 2)], &linear));
    assert!(rt; writes(rt.alloc(), &[(a, 5)], &[0x30, 0x61, 0x8005]));
    assert!(rt; writes(rt.alloc(), &[], &[]));
}

/// Six keys of one unit.
const SIX: &[(&[u16], i32)] = &[
    (&[97], 1),
    (&[98], 2),
    (&[99], -1),
    (&[100], 4),
    (&[101], 5),
    (&[102], 6),
];

#[test]
fn a_branch_of_six(rt: HostRuntime) {
    let expected = [
        5, 100, 6, 100, 0x8004, 101, 0x8005, 102, 0x8006, 97, 0x8001, 98, 0x8002, 99, 0xffff,
        0xffff, 0xffff,
    ];
    assert!(rt; writes(rt.alloc(), SIX, &expected));
}

/// Pairs, and why they are not written.
const REFUSED: &[(&[(&[u16], i32)], WriteUnitsError)] = &[
    (&[(&[0x62], 1), (&[0x61], 2)], WriteUnitsError::NotSorted(1)),
    (&[(&[0x61], 1), (&[0x61], 2)], WriteUnitsError::NotSorted(1)),
    (&[(&[], 1)], WriteUnitsError::EmptyKey(0)),
    (&[(&[0x61], 1), (&[], 2)], WriteUnitsError::EmptyKey(1)),
];

/// Why pairs are not written.
fn refusal(alloc: Global, pairs: &[(&[u16], i32)]) -> Option<WriteUnitsError> {
    write_units(alloc, pairs).err()
}

/// The number of the first row that is written, or refused otherwise.
fn first_refused_otherwise(alloc: Global) -> Option<usize> {
    for (number, (pairs, expected)) in REFUSED.iter().enumerate() {
        if refusal(alloc, pairs) != Some(*expected) {
            return Some(number);
        }
    }
    None
}

#[test]
fn keys_at_fault(rt: HostRuntime) {
    assert_same!(rt; first_refused_otherwise(rt.alloc()), None);
}

/// Values at which the widths of numbers change.
const VALUES: [i32; 15] = [
    i32::MIN,
    -1,
    0,
    1,
    0xff,
    0x100,
    0x3fff,
    0x4000,
    0xfd_ffff,
    0xfe_0000,
    0x3ffe_ffff,
    0x3fff_0000,
    0x7ffe_ffff,
    0x7fff_0000,
    i32::MAX,
];

/// The first of them that is not read back.
fn first_value_lost(alloc: Global) -> Option<i32> {
    for value in VALUES {
        if !reads_back(alloc, &[(&[0x61], value), (&[0x61, 0x62], value)]) {
            return Some(value);
        }
    }
    None
}

#[test]
fn values_of_each_width(rt: HostRuntime) {
    assert_same!(rt; first_value_lost(rt.alloc()), None);
}

/// Whether keys, with values of every width and sign, are read back.
fn keys_come_back(alloc: Global, keys: &Vec<Vec<u16>>) -> bool {
    match with_values(alloc, keys) {
        Ok(pairs) => reads_back(alloc, &pairs),
        Err(_) => false,
    }
}

/// Adds a key.
fn add_key(alloc: Global, keys: &mut Vec<Vec<u16>>, key: &[u16]) -> Result<(), AllocError> {
    let mut units = Vec::new(alloc);
    units.extend_from_slice(key)?;
    keys.push(units)?;
    Ok(())
}

/// Adds keys that begin with so many different units, three with each third of them.
fn add_branch(alloc: Global, keys: &mut Vec<Vec<u16>>, count: u16) -> Result<(), AllocError> {
    for number in 0..count {
        let unit = number.wrapping_mul(900);
        add_key(alloc, keys, &[unit])?;
        if number % 3 == 0 {
            add_key(alloc, keys, &[unit, 5])?;
            add_key(alloc, keys, &[unit, 6, number])?;
        }
    }
    Ok(())
}

/// Whether such keys are read back.
fn branch_comes_back(alloc: Global, count: u16) -> bool {
    let mut keys = Vec::new(alloc);
    add_branch(alloc, &mut keys, count).is_ok() && keys_come_back(alloc, &keys)
}

/// The first number of different units of which they aren't.
fn first_branch_lost(alloc: Global) -> Option<u16> {
    for count in 2u16..71 {
        if !branch_comes_back(alloc, count) {
            return Some(count);
        }
    }
    None
}

#[test]
fn branches_of_each_size(rt: HostRuntime) {
    assert_same!(rt; first_branch_lost(rt.alloc()), None);
}

/// A key of 7, then 8 so many times.
fn long_key(alloc: Global, length: u32) -> Result<Vec<u16>, AllocError> {
    let mut key = vec![in alloc; 7u16]?;
    for _ in 0..length {
        key.push(8)?;
    }
    Ok(key)
}

/// Adds fourteen short keys, two with each unit below 7.
fn add_short(alloc: Global, keys: &mut Vec<Vec<u16>>) -> Result<(), AllocError> {
    for unit in 0u16..7 {
        add_key(alloc, keys, &[unit, 1])?;
        add_key(alloc, keys, &[unit, 2])?;
    }
    Ok(())
}

/// Whether the short keys and the long one are read back.
fn long_comes_back(alloc: Global, length: u32) -> bool {
    let mut keys = Vec::new(alloc);
    if add_short(alloc, &mut keys).is_err() {
        return false;
    }
    match long_key(alloc, length) {
        Ok(long) => keys.push(long).is_ok() && keys_come_back(alloc, &keys),
        Err(_) => false,
    }
}

/// The first length of which they aren't.
fn first_length_lost(alloc: Global) -> Option<u32> {
    for length in [15, 16, 17, 33, 0x4100, 0x1_1000] {
        if !long_comes_back(alloc, length) {
            return Some(length);
        }
    }
    None
}

#[test]
fn jumps_over_long_keys(rt: HostRuntime) {
    assert_same!(rt; first_length_lost(rt.alloc()), None);
}

/// Whether so many units are written of a key, and read back.
fn is_written_in(alloc: Global, key: &[u16], count: usize) -> bool {
    match write_units(alloc, &[(key, 7)]) {
        Ok(units) => units.len() == count && units_find(alloc, &units, &[(key, 7)]),
        Err(_) => false,
    }
}

/// Whether it is so of a key of five million units.
fn longest_is_written(alloc: Global) -> bool {
    match vec![in alloc; 0x61u16; 5_000_000] {
        Ok(key) => is_written_in(alloc, &key, 5_312_501),
        Err(_) => false,
    }
}

#[test]
fn a_key_of_five_million_units(rt: HostRuntime) {
    assert!(rt; longest_is_written(rt.alloc()));
}

/// Whether an error is shown as this.
fn is_shown(alloc: Global, error: WriteUnitsError, text: &str) -> bool {
    match format!(in alloc; "{error}") {
        Ok(shown) => shown.as_str() == text,
        Err(_) => false,
    }
}

#[test]
fn errors_print(rt: HostRuntime) {
    let text = "key 12 is not after the one before it";
    assert!(rt; is_shown(rt.alloc(), WriteUnitsError::NotSorted(12), text));
}

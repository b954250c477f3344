//! Reading of unit tries: the keys and values of units, refusals and their indices, and sweeps over all short
//! lists of units, read and followed.
ghost use Rattle.std.specs.Prelude.{leb, length};

use assertions::assert_same;
use icu_collections::char16trie::{
    Char16Trie, EntryTest, ReadUnitsError, TrieResult, all_pass, read_units,
};
use icu_collections_sets::packed_vector::PackedVec;
use std::alloc::{AllocError, Global};

/// What reading a list of units comes to.
fn read(
    alloc: Global,
    units: &[u16],
    limit: usize,
) -> Result<Vec<(Vec<u16>, i32)>, ReadUnitsError> {
    let packed = PackedVec::from_slice(alloc, units)?;
    read_units(alloc, &packed, limit)
}

/// Whether reading these units stops at this index.
fn stops_at(alloc: Global, units: &[u16], limit: usize, index: usize) -> bool {
    match read(alloc, units, limit) {
        Err(error) => error == ReadUnitsError::BadUnits(index),
        Ok(_) => false,
    }
}

/// Whether units are read as these keys and values.
fn lists(alloc: Global, units: &[u16], limit: usize, expected: &[(&[u16], i32)]) -> bool {
    let Ok(list) = read(alloc, units, limit) else {
        return false;
    };
    for (entry, wanted) in list.iter().zip(expected) {
        if entry.0.as_slice() != wanted.0 || entry.1 != wanted.1 {
            return false;
        }
    }
    list.len() == expected.len()
}

#[test]
fn ok_read_units(rt: HostRuntime) {
    let alloc = rt.alloc();
    let pairs = [(&[0x61u16][..], 1), (&[0x61, 0x62][..], 2)];
    assert!(rt; lists(alloc, &[0x30, 0x61, 0xb0, 0x62, 0x8002], 2, &pairs));
    assert!(rt; lists(alloc, &[0x30, 0x61, 0x8005], 1, &[(&[0x61], 5)]));
    assert!(rt; lists(alloc, &[], 0, &[]));
}

/// The keys that are no longer than the limit.
#[derive(Drop)]
struct Short {
    most: usize,
}

impl EntryTest for Short {
    ghost test = { λ short key number. leb (length key) short.most };

    fn passes(&self, key: &[u16], _value: i32) -> bool {
        key.len() <= self.most
    }
}

/// Whether all keys of these units are no longer than so many.
fn all_short(
    alloc: Global,
    units: &[u16],
    limit: usize,
    most: usize,
) -> Result<bool, ReadUnitsError> {
    match PackedVec::from_slice(alloc, units) {
        Ok(units) => all_pass(alloc, &units, limit, &Short { most }),
        Err(_) => Err(ReadUnitsError::Memory),
    }
}

#[test]
fn ok_all_pass(rt: HostRuntime) {
    let alloc = rt.alloc();
    let units = &[0x30u16, 0x61, 0xb0, 0x62, 0x8002];
    assert!(rt; all_short(alloc, units, 9, 2) == Ok(true));
    assert!(rt; all_short(alloc, units, 9, 1) == Ok(false));
    assert!(rt; all_short(alloc, units, 1, 2) == Err(ReadUnitsError::BadUnits(3)));
    assert!(rt; all_short(alloc, &[], 9, 0) == Ok(true));
}

#[test]
fn a_branch_in_halves(rt: HostRuntime) {
    let units = [
        5u16, 100, 6, 100, 0x8004, 101, 0x8005, 102, 0x8006, 97, 0x8001, 98, 0x8002, 99, 0xffff,
        0xffff, 0xffff,
    ];
    let pairs = [
        (&[97u16][..], 1),
        (&[98][..], 2),
        (&[99][..], -1),
        (&[100][..], 4),
        (&[101][..], 5),
        (&[102][..], 6),
    ];
    assert!(rt; lists(rt.alloc(), &units, 1, &pairs));
}

/// Units, a limit, an index, and whether reading stops there.
const STOPS: &[(&[u16], usize, usize, bool)] = &[
    // an end inside
    (&[0x30, 0x61], 9, 2, true),
    (&[0x31, 0x61], 9, 2, true),
    (&[0x30, 0x61, 0xffff, 1], 9, 4, true),
    (&[1, 0x61, 0x8001, 0x62], 9, 4, true),
    // a jump past the end
    (&[1, 0x61, 3, 0x62, 0x8001], 9, 5, true),
    // a value at the root
    (&[0x8001], 9, 0, true),
    (&[0xb0, 0x61, 0x8001], 9, 0, true),
    // a key over the limit
    (&[0x30, 0x61, 0xb0, 0x62, 0x8002], 1, 3, true),
    (&[0x30, 0x61, 0x8005], 0, 1, true),
    // units of a branch that do not rise
    (&[1, 0x62, 0x8001, 0x61, 0x8002], 9, 3, true),
    (&[1, 0x61, 0x8001, 0x61, 0x8002], 9, 3, true),
    (&[1, 0x61, 0x8001, 0x62, 0x8002], 9, 3, false),
    // halves on the wrong side of the unit between them
    (
        &[
            5, 99, 6, 100, 0x8004, 101, 0x8005, 102, 0x8006, 97, 0x8001, 98, 0x8002, 99, 0x8003,
        ],
        9,
        13,
        true,
    ),
    (
        &[
            5, 101, 6, 100, 0x8004, 101, 0x8005, 102, 0x8006, 97, 0x8001, 98, 0x8002, 99, 0x8003,
        ],
        9,
        3,
        true,
    ),
];

/// The number of the first row of which it is otherwise.
fn first_wrong_stop(alloc: Global) -> Option<usize> {
    for (number, (units, limit, index, stops)) in STOPS.iter().enumerate() {
        if stops_at(alloc, units, *limit, *index) != *stops {
            return Some(number);
        }
    }
    None
}

#[test]
fn units_that_are_refused(rt: HostRuntime) {
    assert_same!(rt; first_wrong_stop(rt.alloc()), None);
}

/// Whether a refusal is shown as this text.
fn is_shown(alloc: Global, error: ReadUnitsError, text: &str) -> bool {
    match format!(in alloc; "{error}") {
        Ok(shown) => shown.as_str() == text,
        Err(_) => false,
    }
}

#[test]
fn texts_of_refusals(rt: HostRuntime) {
    assert!(rt; is_shown(rt.alloc(), ReadUnitsError::BadUnits(12), "bad units at 12"));
    assert!(rt; is_shown(rt.alloc(), ReadUnitsError::Memory, "out of memory"));
}

/// Units at which the forms of nodes and numbers change.
const EDGES: [u16; 20] = [
    0, 1, 4, 5, 0x2f, 0x30, 0x31, 0x3f, 0x40, 0x41, 0x403f, 0x4040, 0x7fbf, 0x7fc0, 0x7fff, 0x8000,
    0xbfff, 0xc000, 0xfffe, 0xffff,
];

/// What a cursor is to answer to the last of the units, by the list of keys and values.
fn expected(list: &[(Vec<u16>, i32)], typed: &[u16]) -> TrieResult {
    let mut value = None;
    let mut goes_on = false;
    for (key, number) in list {
        if key.as_slice() == typed {
            value = Some(*number);
        } else if key.starts_with(typed) {
            goes_on = true;
        }
    }
    match value {
        Some(number) if goes_on => TrieResult::Intermediate(number),
        Some(number) => TrieResult::FinalValue(number),
        None if goes_on => TrieResult::NoValue,
        None => TrieResult::NoMatch,
    }
}

/// What a cursor answers to the last of the units.
fn answer(trie: &Char16Trie<'_>, typed: &[u16]) -> TrieResult {
    let mut cursor = trie.iter();
    let mut last = TrieResult::NoMatch;
    for unit in typed {
        last = cursor.next16(*unit);
    }
    last
}

/// Whether the cursor answers as the list says after each beginning of a key, to each of the edges.
fn agrees_along(
    trie: &Char16Trie<'_>,
    list: &[(Vec<u16>, i32)],
    key: &[u16],
    typed: &mut Vec<u16>,
) -> Result<bool, AllocError> {
    typed.clear();
    for unit in key {
        for edge in EDGES {
            typed.push(edge)?;
            if answer(trie, typed) != expected(list, typed) {
                return Ok(false);
            }
            typed.pop();
        }
        typed.push(*unit)?;
        if answer(trie, typed) != expected(list, typed) {
            return Ok(false);
        }
    }
    Ok(true)
}

/// Whether it does so along each key.
fn agrees_with(alloc: Global, trie: &Char16Trie<'_>, list: &[(Vec<u16>, i32)]) -> bool {
    let mut typed = Vec::new(alloc);
    for (key, _) in list {
        if agrees_along(trie, list, key, &mut typed) != Ok(true) {
            return false;
        }
    }
    true
}

/// Whether the cursor of these units does, with this list.
fn list_agrees(alloc: Global, units: &[u16], list: &[(Vec<u16>, i32)]) -> bool {
    match PackedVec::from_slice(alloc, units) {
        Ok(packed) => agrees_with(alloc, &Char16Trie::new(packed), list),
        Err(_) => false,
    }
}

/// Whether it does with the list that is read of them, or none is.
fn agrees(alloc: Global, units: &[u16]) -> bool {
    match read(alloc, units, 64) {
        Ok(list) => list_agrees(alloc, units, &list),
        Err(ReadUnitsError::Memory) => false,
        Err(ReadUnitsError::BadUnits(index)) => index <= units.len(),
    }
}

/// Whether it is so of all lists of up to three edges.
fn short_lists_agree(alloc: Global) -> bool {
    for a in EDGES {
        if !agrees(alloc, &[a]) {
            return false;
        }
        for b in EDGES {
            if !agrees(alloc, &[a, b]) {
                return false;
            }
            for c in EDGES {
                if !agrees(alloc, &[a, b, c]) {
                    return false;
                }
            }
        }
    }
    true
}

#[test]
fn short_lists_of_units(rt: HostRuntime) {
    assert!(rt; short_lists_agree(rt.alloc()));
}

/// The first unit of which it isn't so.
fn first_unit_that_disagrees(alloc: Global) -> Option<u16> {
    for unit in 0..=u16::MAX {
        if !agrees(alloc, &[unit]) {
            return Some(unit);
        }
    }
    None
}

#[test]
fn all_lists_of_one_unit(rt: HostRuntime) {
    assert_same!(rt; first_unit_that_disagrees(rt.alloc()), None);
}

/// Whether it is so of all lists of four edges, or of all that begin with 1 before them.
fn four_agree(alloc: Global, is_branch: bool) -> bool {
    for a in EDGES {
        for b in EDGES {
            for c in EDGES {
                for d in EDGES {
                    let units = [1, a, b, c, d];
                    if !agrees(alloc, if is_branch { &units } else { &units[1..] }) {
                        return false;
                    }
                }
            }
        }
    }
    true
}

#[test]
fn lists_of_four_units(rt: HostRuntime) {
    assert!(rt; four_agree(rt.alloc(), false));
}

#[test]
fn branches_of_two_units(rt: HostRuntime) {
    assert!(rt; four_agree(rt.alloc(), true));
}

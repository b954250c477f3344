//! Cursors of unit tries: their answers on tries written by hand, and on units that break the grammar.

use assertions::assert_same;
use icu_collections::char16trie::{Char16Trie, TrieResult};
use icu_collections_sets::packed_vector::PackedVec;
use std::alloc::{AllocError, Global};

const LINEAR: [u16; 5] = [0x30, 0x61, 0xb0, 0x62, 0x8002];

/// What a cursor is given: a character, a unit, or the number of a character.
#[derive(Clone, Copy)]
enum Typed {
    Char(char),
    Unit(u16),
    Number(u32),
}

/// The trie of these units.
fn trie_of(alloc: Global, units: &[u16]) -> Result<Char16Trie<'static>, AllocError> {
    Ok(Char16Trie::new(PackedVec::from_slice(alloc, units)?))
}

/// Whether a cursor gives these answers, one after another.
fn answers(trie: &Char16Trie<'_>, table: &[(Typed, TrieResult)]) -> bool {
    let mut cursor = trie.iter();
    for (typed, wanted) in table {
        let answer = match *typed {
            Typed::Char(character) => cursor.next(character),
            Typed::Unit(unit) => cursor.next16(unit),
            Typed::Number(number) => cursor.next32(number),
        };
        if answer != *wanted {
            return false;
        }
    }
    true
}

/// Whether new cursors give the answers of each row.
fn gives_rows(trie: &Char16Trie<'_>, rows: &[&[(Typed, TrieResult)]]) -> bool {
    for row in rows {
        if !answers(trie, row) {
            return false;
        }
    }
    true
}

/// Whether those of these units do.
fn has_rows(alloc: Global, units: &[u16], rows: &[&[(Typed, TrieResult)]]) -> bool {
    match trie_of(alloc, units) {
        Ok(trie) => gives_rows(&trie, rows),
        Err(_) => false,
    }
}

const A_AND_AB: &[&[(Typed, TrieResult)]] = &[
    &[
        (Typed::Char('a'), TrieResult::Intermediate(1)),
        (Typed::Char('b'), TrieResult::FinalValue(2)),
        (Typed::Char('b'), TrieResult::NoMatch),
    ],
    &[
        (Typed::Char('b'), TrieResult::NoMatch),
        (Typed::Char('a'), TrieResult::NoMatch),
    ],
];

#[test]
fn a_key_that_begins_another(rt: HostRuntime) {
    assert!(rt; has_rows(rt.alloc(), &LINEAR, A_AND_AB));
}

const A_ALONE: &[&[(Typed, TrieResult)]] = &[
    &[
        (Typed::Char('a'), TrieResult::FinalValue(5)),
        (Typed::Char('a'), TrieResult::NoMatch),
    ],
    &[(Typed::Char('b'), TrieResult::NoMatch)],
];

#[test]
fn a_single_key(rt: HostRuntime) {
    assert!(rt; has_rows(rt.alloc(), &[0x30, 0x61, 0x8005], A_ALONE));
}

const A_TO_F: &[&[(Typed, TrieResult)]] = &[
    &[(Typed::Char('a'), TrieResult::FinalValue(1))],
    &[(Typed::Char('b'), TrieResult::FinalValue(2))],
    &[(Typed::Char('c'), TrieResult::FinalValue(-1))],
    &[(Typed::Unit(100), TrieResult::FinalValue(4))],
    &[(Typed::Number(101), TrieResult::FinalValue(5))],
    &[(Typed::Char('f'), TrieResult::FinalValue(6))],
    &[(Typed::Char('g'), TrieResult::NoMatch)],
    &[(Typed::Unit(96), TrieResult::NoMatch)],
];

#[test]
fn a_branch_of_six(rt: HostRuntime) {
    let units = [
        5, 100, 6, 100, 0x8004, 101, 0x8005, 102, 0x8006, 97, 0x8001, 98, 0x8002, 99, 0xffff,
        0xffff, 0xffff,
    ];
    assert!(rt; has_rows(rt.alloc(), &units, A_TO_F));
}

const AC: &[&[(Typed, TrieResult)]] = &[&[
    (Typed::Char('a'), TrieResult::NoValue),
    (Typed::Char('c'), TrieResult::FinalValue(3)),
]];

#[test]
fn a_jump_to_a_node(rt: HostRuntime) {
    let units = [1, 0x61, 2, 0x62, 0x8002, 0x30, 0x63, 0x8003];
    assert!(rt; has_rows(rt.alloc(), &units, AC));
}

const A_FACE: &[&[(Typed, TrieResult)]] = &[
    &[(Typed::Char('\u{1F600}'), TrieResult::FinalValue(7))],
    &[(Typed::Number(0x1F600), TrieResult::FinalValue(7))],
    &[(Typed::Number(0x11_0000), TrieResult::NoMatch)],
    &[
        (Typed::Unit(0xd83d), TrieResult::NoValue),
        (Typed::Unit(0xde00), TrieResult::FinalValue(7)),
    ],
];

#[test]
fn a_character_of_two_units(rt: HostRuntime) {
    assert!(rt; has_rows(rt.alloc(), &[0x31, 0xd83d, 0xde00, 0x8007], A_FACE));
}

/// Whether a trie is equal to that of these units, or is another.
fn compares(alloc: Global, trie: &Char16Trie<'_>, units: &[u16], expected: bool) -> bool {
    match trie_of(alloc, units) {
        Ok(other) => (*trie == other) == expected,
        Err(_) => false,
    }
}

/// Whether a trie is equal to its copy.
fn is_copied(alloc: Global, trie: &Char16Trie<'_>) -> bool {
    match trie.clone(alloc) {
        Ok(copy) => copy == *trie,
        Err(_) => false,
    }
}

/// Whether that of two keys is, and is another than that of a part of its units.
fn linear_is_copied(alloc: Global) -> bool {
    match trie_of(alloc, &LINEAR) {
        Ok(trie) => is_copied(alloc, &trie) && compares(alloc, &trie, &LINEAR[..3], false),
        Err(_) => false,
    }
}

#[test]
fn ok_clone(rt: HostRuntime) {
    assert!(rt; linear_is_copied(rt.alloc()));
}

/// What a cursor, and a copy of it, answer to b after a.
fn answers_of_copies(trie: &Char16Trie<'_>) -> (TrieResult, TrieResult) {
    let mut cursor = trie.iter();
    cursor.next('a');
    let mut again = cursor;
    (cursor.next('b'), again.next('b'))
}

/// Whether those of two keys both find the second.
fn copies_find(alloc: Global) -> bool {
    match trie_of(alloc, &LINEAR) {
        Ok(trie) => {
            answers_of_copies(&trie) == (TrieResult::FinalValue(2), TrieResult::FinalValue(2))
        }
        Err(_) => false,
    }
}

#[test]
fn cursors_are_copied(rt: HostRuntime) {
    assert!(rt; copies_find(rt.alloc()));
}

/// Whether a trie prints as this.
fn prints(alloc: Global, trie: &Char16Trie<'_>, text: &str) -> bool {
    match format!(in alloc; "{trie:?}") {
        Ok(printed) => printed.as_str() == text,
        Err(_) => false,
    }
}

/// Whether its cursor prints with this at the front.
fn cursor_prints(alloc: Global, trie: &Char16Trie<'_>, front: &str) -> bool {
    match format!(in alloc; "{:?}", trie.iter()) {
        Ok(printed) => printed.as_str().starts_with(front),
        Err(_) => false,
    }
}

/// Whether those of three units do.
fn units_print(alloc: Global, text: &str, front: &str) -> bool {
    match trie_of(alloc, &LINEAR[..3]) {
        Ok(trie) => prints(alloc, &trie, text) && cursor_prints(alloc, &trie, front),
        Err(_) => false,
    }
}

#[test]
fn tries_and_cursors_printed(rt: HostRuntime) {
    let text = "Char16Trie { units: [48, 97, 176] }";
    assert!(rt; units_print(rt.alloc(), text, "Char16TrieIterator"));
}

/// Units that no trie has.
const BROKEN: &[&[u16]] = &[
    &[],
    &[0x30],
    &[0x30, 0x61],
    &[0, 0],
    &[0x8001],
    &[0x30, 0x61, 0xffff],
];

const A_TWICE: &[&[(Typed, TrieResult)]] = &[&[
    (Typed::Char('a'), TrieResult::NoMatch),
    (Typed::Char('a'), TrieResult::NoMatch),
]];

/// The first of them whose cursor finds something.
fn first_found(alloc: Global) -> Option<&'static [u16]> {
    for units in BROKEN {
        if !has_rows(alloc, units, A_TWICE) {
            return Some(units);
        }
    }
    None
}

#[test]
fn units_that_break_the_grammar(rt: HostRuntime) {
    assert_same!(rt; first_found(rt.alloc()), None);
}

//! The causes for which a context is refused, each beside a context near it that is accepted: by
//! `CheckedTables::try_new` of the data of the worked rows with other words of some characters.

use crate::judged::judged;
use crate::tables::{IMPLICIT, WORDS, changed_trie, data, tables};
use icu_collator_core::check::TableFault;
use icu_collator_core::tables::CollationTables;
use std::alloc::Global;

/// The fault of the context of "a".
const OF_A: Option<TableFault> = Some(TableFault::Context('a'));

/// That of the context of U+0301.
const OF_MARK: Option<TableFault> = Some(TableFault::Context('\u{301}'));

/// Other words of characters.
type Words = &'static [(u32, u32)];

/// Words, and the units of the context that one of them names; whether they are refused.
type Row = (Words, &'static [u16], Option<TableFault>);

/// A range from "a" on, and the words of digits: an element, an implicit one, one of the range.
const CES: [u64; 1] = [0xe002_0200_0000_6101];

const CE32S: [u32; 4] = [0x2a10_0505, 0x8800_05c2, 0xcf, 0xce];

/// "a" after a prefix, and "1", which is a digit.
const PREFIXED: Words = &[(0x61, 0xc8), (0x31, 0x1ca)];

/// Prefixes of "a": of three characters, and of four; with a mark, a digit, a jamo, U+0000, half a pair; over an
/// implicit element and over a range, which are no records. U+0301 after a prefix.
const PREFIXES: [Row; 11] = [
    (
        PREFIXED,
        &[0x2a10, 0x505, 0x30, 0x62, 0xffff, 0x2ac0, 0x505],
        None,
    ),
    (
        PREFIXED,
        &[0x2a10, 0x505, 0x32, 0x62, 0x63, 0x62, 0xffff, 0x2ac0, 0x505],
        None,
    ),
    (
        PREFIXED,
        &[
            0x2a10, 0x505, 0x33, 0x62, 0x63, 0x62, 0x63, 0xffff, 0x2ac0, 0x505,
        ],
        OF_A,
    ),
    (
        PREFIXED,
        &[0x2a10, 0x505, 0x30, 0x301, 0xffff, 0x2ac0, 0x505],
        OF_A,
    ),
    (
        PREFIXED,
        &[0x2a10, 0x505, 0x30, 0x31, 0xffff, 0x2ac0, 0x505],
        OF_A,
    ),
    (
        PREFIXED,
        &[0x2a10, 0x505, 0x30, 0x1100, 0xffff, 0x2ac0, 0x505],
        OF_A,
    ),
    (
        PREFIXED,
        &[0x2a10, 0x505, 0x30, 0, 0xffff, 0x2ac0, 0x505],
        OF_A,
    ),
    (
        PREFIXED,
        &[0x2a10, 0x505, 0x30, 0xd83d, 0xffff, 0x2ac0, 0x505],
        OF_A,
    ),
    (
        PREFIXED,
        &[0, 0xcf, 0x30, 0x62, 0xffff, 0x2ac0, 0x505],
        OF_A,
    ),
    (
        PREFIXED,
        &[0, 0xce, 0x30, 0x62, 0xffff, 0x2ac0, 0x505],
        OF_A,
    ),
    (
        &[(0x301, 0xc8)],
        &[0x8800, 0x5c2, 0x30, 0x62, 0xffff, 0x8a00, 0x5c2],
        OF_MARK,
    ),
];

/// Texts that begin with "a": of eight characters, and of nine; half a pair; a letter after a mark, within the text and
/// after U+0301; one that ends in a mark with the shorter text, and without it.
const TEXTS: [Row; 7] = [
    (
        &[(0x61, 0x8c9)],
        &[
            0x2a10, 0x505, 0x36, 0x62, 0x62, 0x62, 0x62, 0x62, 0x62, 0x62, 0xffff, 0x2ac0, 0x505,
        ],
        None,
    ),
    (
        &[(0x61, 0x8c9)],
        &[
            0x2a10, 0x505, 0x37, 0x62, 0x62, 0x62, 0x62, 0x62, 0x62, 0x62, 0x62, 0xffff, 0x2ac0,
            0x505,
        ],
        OF_A,
    ),
    (
        &[(0x61, 0x8c9)],
        &[0x2a10, 0x505, 0x30, 0xdc00, 0xffff, 0x2ac0, 0x505],
        OF_A,
    ),
    (
        &[(0x61, 0xac9)],
        &[0x2a10, 0x505, 0x31, 0x301, 0x62, 0xffff, 0x2ac0, 0x505],
        OF_A,
    ),
    (
        &[(0x301, 0x8c9)],
        &[0x8800, 0x5c2, 0x30, 0x62, 0xffff, 0x8a00, 0x5c2],
        OF_MARK,
    ),
    (
        &[(0x61, 0xcc9)],
        &[
            0x2a10, 0x505, 0x30, 0x62, 0x7ff0, 0x2ac0, 0x505, 0x301, 0xffff, 0x2ac0, 0x505,
        ],
        None,
    ),
    (
        &[(0x61, 0xcc9)],
        &[0x2a10, 0x505, 0x31, 0x62, 0x301, 0xffff, 0x2ac0, 0x505],
        OF_A,
    ),
];

/// The context of "ab", and that of "a" and U+0301.
const LETTER: &[u16] = &[0x2a10, 0x505, 0x30, 0x62, 0xffff, 0x2ac0, 0x505];

const MARK: &[u16] = &[0x2a10, 0x505, 0x30, 0x301, 0xffff, 0x2ac0, 0x505];

/// Words that say of these texts what is so: not every one goes on with a mark, none ends in one, and one has a starter
/// after the first; every one, one, and none. Then such that say one thing wrongly.
const FLAGS: [Row; 8] = [
    (&[(0x61, 0x8c9)], LETTER, None),
    (&[(0x61, 0xac9)], LETTER, OF_A),
    (&[(0x61, 0xcc9)], LETTER, OF_A),
    (&[(0x61, 0xc9)], LETTER, OF_A),
    (&[(0x61, 0x6c9)], MARK, None),
    (&[(0x61, 0x4c9)], MARK, OF_A),
    (&[(0x61, 0x2c9)], MARK, OF_A),
    (&[(0x61, 0xec9)], MARK, OF_A),
];

/// Digits: "a" as one, over an element, over an implicit one and over a range; U+0301 as one.
const DIGITS: [Row; 4] = [
    (&[(0x61, 0x1ca)], &[], None),
    (&[(0x61, 0x41ca)], &[], OF_A),
    (&[(0x61, 0x61ca)], &[], OF_A),
    (&[(0x301, 0x21ca)], &[], OF_MARK),
];

/// The data of a row; `None` where memory is refused.
fn with_words(
    alloc: Global,
    words: &[(u32, u32)],
    contexts: &[u16],
) -> Option<CollationTables<'static>> {
    let trie = changed_trie(alloc, &WORDS, words, IMPLICIT)?;
    let root = data(alloc, trie, &CES, &CE32S, contexts)?;
    tables(alloc, root, None)
}

/// Whether each of these is judged so.
fn are_judged(alloc: Global, rows: &[Row]) -> bool {
    rows.iter().all(|(words, contexts, expected)| {
        judged(alloc, with_words(alloc, words, contexts), *expected)
    })
}

#[test]
fn prefixes(rt: HostRuntime) {
    assert!(rt; are_judged(rt.alloc(), &PREFIXES));
}

#[test]
fn texts(rt: HostRuntime) {
    assert!(rt; are_judged(rt.alloc(), &TEXTS));
}

#[test]
fn flags(rt: HostRuntime) {
    assert!(rt; are_judged(rt.alloc(), &FLAGS));
}

#[test]
fn digits(rt: HostRuntime) {
    assert!(rt; are_judged(rt.alloc(), &DIGITS));
}

//! What tables are refused for: those of the worked rows, with another word of one character.

use crate::judged::judged;
use crate::tables::{FALLBACK, IMPLICIT, WORDS, changed_trie, data, letters, tables, trie};
use icu_collator_core::check::TableFault;
use icu_collator_core::tables::CollationTables;
use std::alloc::Global;

/// Another word of "a", and the lists that it names.
#[derive(Clone, Copy)]
pub struct Change<'l> {
    /// The word.
    pub word: u32,
    /// Elements of 64 bits.
    pub ces: &'l [u64],
    /// Words.
    pub ce32s: &'l [u32],
    /// Contexts.
    pub contexts: &'l [u16],
}

/// The data of the worked rows with a change; `None` where memory is refused.
fn changed_root(alloc: Global, change: &Change<'_>) -> Option<CollationTables<'static>> {
    let trie = changed_trie(alloc, &WORDS, &[(0x61, change.word)], IMPLICIT)?;
    let root = data(alloc, trie, change.ces, change.ce32s, change.contexts)?;
    tables(alloc, root, None)
}

/// The data of the worked rows, and a tailoring of a change alone; `None` where memory is refused.
fn changed_tailoring(alloc: Global, change: &Change<'_>) -> Option<CollationTables<'static>> {
    let trie = trie(alloc, &[(0x61, change.word)], FALLBACK)?;
    let mut all = letters(alloc)?;
    all.tailoring = data(alloc, trie, change.ces, change.ce32s, change.contexts);
    Some(all)
}

/// Whether a change is judged so, in the root and in a tailoring.
pub fn is_judged(alloc: Global, change: &Change<'_>, expected: Option<TableFault>) -> bool {
    judged(alloc, changed_root(alloc, change), expected)
        && judged(alloc, changed_tailoring(alloc, change), expected)
}

/// The fault that the word of "a" is none.
const BAD_WORD: Option<TableFault> = Some(TableFault::Word('a'));

/// The fault that it names what is in no list.
const BAD_INDEX: Option<TableFault> = Some(TableFault::Index('a'));

/// The fault that its context breaks a rule.
const BAD_CONTEXT: Option<TableFault> = Some(TableFault::Context('a'));

/// The fault that its weights break a rule.
const BAD_WEIGHT: Option<TableFault> = Some(TableFault::Weight('a'));

/// Words that name no list, or should.
const LONE_WORDS: [(u32, Option<TableFault>); 9] = [
    (0x2a10_0505, None),
    (0, None),
    (0xc3, BAD_WORD),
    (0xd5, BAD_WORD),
    (0xffff_e1c6, BAD_INDEX),
    (0xc6, BAD_INDEX),
    (0x1ca, BAD_INDEX),
    (0x0100_0505, BAD_WEIGHT),
    (0x0001_05c2, BAD_WEIGHT),
];

/// Whether each of these is judged so.
fn are_lone_words_judged(alloc: Global) -> bool {
    for (word, expected) in LONE_WORDS {
        let change = Change {
            word,
            ces: &[],
            ce32s: &[],
            contexts: &[],
        };
        if !is_judged(alloc, &change, expected) {
            return false;
        }
    }
    true
}

#[test]
fn ok_try_new(rt: HostRuntime) {
    assert!(rt; are_lone_words_judged(rt.alloc()));
}

/// Words that name a word.
const LISTED_WORDS: [(u32, &[u32], Option<TableFault>); 5] = [
    (0x9ca, &[0x2a10_0505], None),
    (0xaca, &[0x2a10_0505], BAD_WORD),
    (0x1c5, &[0x2a10_0505], None),
    (0x1c5, &[0xcf], BAD_WORD),
    (0x2c5, &[0x2a10_0505], BAD_INDEX),
];

/// Whether each of these is judged so.
fn are_listed_words_judged(alloc: Global) -> bool {
    for (word, ce32s, expected) in LISTED_WORDS {
        let change = Change {
            word,
            ces: &[],
            ce32s,
            contexts: &[],
        };
        if !is_judged(alloc, &change, expected) {
            return false;
        }
    }
    true
}

#[test]
fn listed_words(rt: HostRuntime) {
    assert!(rt; are_listed_words_judged(rt.alloc()));
}

/// Elements of 64 bits.
const ELEMENTS: [(&[u64], Option<TableFault>); 2] = [
    (&[0x2a10_0000_0500_0500], None),
    (&[0x2a10_0000_0500_0100], BAD_WEIGHT),
];

/// Whether each of these is judged so.
fn are_elements_judged(alloc: Global) -> bool {
    for (ces, expected) in ELEMENTS {
        let change = Change {
            word: 0x1c6,
            ces,
            ce32s: &[],
            contexts: &[],
        };
        if !is_judged(alloc, &change, expected) {
            return false;
        }
    }
    true
}

#[test]
fn elements(rt: HostRuntime) {
    assert!(rt; are_elements_judged(rt.alloc()));
}

/// Contexts: "ab" with the weights of "l"; the same with a flag less, or more; with a lone half; with a weight that is none;
/// units cut short; a letter after a mark; no room.
const CONTEXTS: [(u32, &[u16], Option<TableFault>); 8] = [
    (
        0x8c9,
        &[0x2a10, 0x505, 0x30, 0x62, 0xffff, 0x2ac0, 0x505],
        None,
    ),
    (
        0xc9,
        &[0x2a10, 0x505, 0x30, 0x62, 0xffff, 0x2ac0, 0x505],
        BAD_CONTEXT,
    ),
    (
        0xac9,
        &[0x2a10, 0x505, 0x30, 0x62, 0xffff, 0x2ac0, 0x505],
        BAD_CONTEXT,
    ),
    (
        0x8c9,
        &[0x2a10, 0x505, 0x30, 0xd800, 0xffff, 0x2ac0, 0x505],
        BAD_CONTEXT,
    ),
    (
        0x8c9,
        &[0x2a10, 0x505, 0x30, 0x62, 0xffff, 0x0100, 0x505],
        BAD_WEIGHT,
    ),
    (0x8c9, &[0x2a10, 0x505, 0x30], BAD_CONTEXT),
    (
        0xac9,
        &[0x2a10, 0x505, 0x31, 0x301, 0x62, 0xffff, 0x2ac0, 0x505],
        BAD_CONTEXT,
    ),
    (0xc9, &[0x2a10, 0x505], BAD_INDEX),
];

/// Whether each of these is judged so.
fn are_contexts_judged(alloc: Global) -> bool {
    for (word, contexts, expected) in CONTEXTS {
        let change = Change {
            word,
            ces: &[],
            ce32s: &[],
            contexts,
        };
        if !is_judged(alloc, &change, expected) {
            return false;
        }
    }
    true
}

#[test]
fn contexts(rt: HostRuntime) {
    assert!(rt; are_contexts_judged(rt.alloc()));
}

/// A branch of five letters, "b" to "f", which all lead to the node after it.
const LEVEL: [u16; 10] = [4, 0x62, 7, 0x63, 5, 0x64, 3, 0x65, 1, 0x66];

/// So many branches one after another, and the value after them: a value that is no word; one that names what is in no
/// list; keys of fourteen letters, of which there are 5 ^ 14; keys of seven.
const LEVELS: [(usize, &[u16], Option<TableFault>); 4] = [
    (14, &[0x80c3], BAD_WORD),
    (14, &[0xffff, 0xffff, 0xe1c6], BAD_INDEX),
    (14, &[0xffff, 0x2ac0, 0x505], BAD_CONTEXT),
    (7, &[0xffff, 0x2ac0, 0x505], None),
];

/// A context of so many branches, and the value after them; `None` where memory is refused.
fn levels(alloc: Global, count: usize, value: &[u16]) -> Option<Vec<u16>> {
    let mut units = Vec::from_slice(alloc, &[0x2a10, 0x505]).ok()?;
    for _level in 0..count {
        units.extend_from_slice(&LEVEL).ok()?;
    }
    units.extend_from_slice(value).ok()?;
    Some(units)
}

/// Whether contexts of few units with many keys are judged so.
fn are_levels_judged(alloc: Global) -> bool {
    for (count, value, expected) in LEVELS {
        let Some(units) = levels(alloc, count, value) else {
            return false;
        };
        let change = Change {
            word: 0x8c9,
            ces: &[],
            ce32s: &[],
            contexts: units.as_slice(),
        };
        if !is_judged(alloc, &change, expected) {
            return false;
        }
    }
    true
}

#[test]
fn shared_nodes(rt: HostRuntime) {
    assert!(rt; are_levels_judged(rt.alloc()));
}

/// Tables with another word of "b"; `None` where memory is refused.
fn with_word_of_b(alloc: Global, word: u32) -> Option<CollationTables<'static>> {
    let trie = changed_trie(alloc, &WORDS, &[(0x62, word)], IMPLICIT)?;
    let root = data(alloc, trie, &[], &[], &[])?;
    tables(alloc, root, None)
}

#[test]
fn bytes_that_begin_others(rt: HostRuntime) {
    let alloc = rt.alloc();
    assert!(rt;
        judged(
            alloc,
            with_word_of_b(alloc, 0x2a10_20c1),
            Some(TableFault::PrefixOfWeight)
        )
    );
    assert!(rt; judged(alloc, with_word_of_b(alloc, 0x2a20_20c1), None));
}

//! Contexts whose nodes many jumps share: few units that spell many texts of halves of characters, or of marks.

use crate::refusals::{Change, is_judged};
use icu_collator_core::check::TableFault;
use std::alloc::{AllocError, Global};

/// The fault that the context of "a" breaks a rule.
const BAD_CONTEXT: Option<TableFault> = Some(TableFault::Context('a'));

/// A branch of five upper halves, which all lead to the node after it.
const UPPERS: [u16; 10] = [4, 0xd840, 7, 0xd841, 5, 0xd842, 3, 0xd843, 1, 0xd844];

/// The same of lower halves.
const LOWERS: [u16; 10] = [4, 0xdc00, 7, 0xdc01, 5, 0xdc02, 3, 0xdc03, 1, 0xdc04];

/// So many branches of halves one after another, in turn upper and lower ones, and the value after them: texts of seven
/// characters, of which there are 25 ^ 7; the same with an element that is none; with the word of nothing; an upper half
/// at the end; texts of eight characters.
const HALVES: [(usize, &[u16], Option<TableFault>); 5] = [
    (14, &[0xffff, 0x2ac0, 0x505], None),
    (14, &[0xffff, 0x0100, 0x505], Some(TableFault::Weight('a'))),
    (14, &[0x8000], None),
    (13, &[0xffff, 0x2ac0, 0x505], BAD_CONTEXT),
    (16, &[0xffff, 0x2ac0, 0x505], BAD_CONTEXT),
];

/// A context of so many branches of halves, and the value after them. Fails only if memory is refused.
fn halves(alloc: Global, count: usize, value: &[u16]) -> Result<Vec<u16>, AllocError> {
    let mut units = Vec::from_slice(alloc, &[0x2a10, 0x505])?;
    for level in 0..count {
        if level % 2 == 0 {
            units.extend_from_slice(&UPPERS)?;
        } else {
            units.extend_from_slice(&LOWERS)?;
        }
    }
    units.extend_from_slice(value)?;
    Ok(units)
}

/// Whether the word of "a" is judged so with this context.
fn is_context_judged(
    alloc: Global,
    word: u32,
    contexts: &[u16],
    expected: Option<TableFault>,
) -> bool {
    let change = Change {
        word,
        ces: &[],
        ce32s: &[],
        contexts,
    };
    is_judged(alloc, &change, expected)
}

/// Whether the word of "a" is judged so with a context of so many branches of halves.
fn are_halves_judged(
    alloc: Global,
    word: u32,
    count: usize,
    value: &[u16],
    expected: Option<TableFault>,
) -> bool {
    match halves(alloc, count, value) {
        Ok(units) => is_context_judged(alloc, word, units.as_slice(), expected),
        Err(AllocError) => false,
    }
}

/// Whether each context of halves is judged so.
fn are_all_halves_judged(alloc: Global) -> bool {
    for (count, value, expected) in HALVES {
        if !are_halves_judged(alloc, 0x8c9, count, value, expected) {
            return false;
        }
    }
    true
}

#[test]
fn shared_halves(rt: HostRuntime) {
    assert!(rt; are_all_halves_judged(rt.alloc()));
}

/// The flag that one text holds a starter is not set, or the one that each begins with a mark: of starters that is wrong.
#[test]
fn flags_of_shared_halves(rt: HostRuntime) {
    let value = [0xffff, 0x2ac0, 0x505];
    assert!(rt; are_halves_judged(rt.alloc(), 0xc9, 14, &value, BAD_CONTEXT));
    assert!(rt; are_halves_judged(rt.alloc(), 0xac9, 14, &value, BAD_CONTEXT));
}

/// A branch of three marks, which all lead to the node after it.
const MARKS: [u16; 6] = [2, 0x301, 3, 0x302, 1, 0x323];

/// The same after the value of a text.
const MARKS_BEHIND: [u16; 8] = [0x7fc2, 0x2ac0, 0x505, 0x301, 3, 0x302, 1, 0x323];

/// A context of seven branches of marks, each after a value but for the first and the one at this index. Fails only if
/// memory is refused.
fn marks(alloc: Global, without: usize) -> Result<Vec<u16>, AllocError> {
    let mut units = Vec::from_slice(alloc, &[0x2a10, 0x505])?;
    for level in 0..7usize {
        if level == 0 || level == without {
            units.extend_from_slice(&MARKS)?;
        } else {
            units.extend_from_slice(&MARKS_BEHIND)?;
        }
    }
    units.extend_from_slice(&[0xffff, 0x2ac0, 0x505])?;
    Ok(units)
}

/// Whether a context of marks is judged so.
fn are_marks_judged(alloc: Global, without: usize, expected: Option<TableFault>) -> bool {
    match marks(alloc, without) {
        Ok(units) => is_context_judged(alloc, 0x6c9, units.as_slice(), expected),
        Err(AllocError) => false,
    }
}

/// Each text of marks has to be recorded without its last.
#[test]
fn texts_without_their_last_mark(rt: HostRuntime) {
    assert!(rt; are_marks_judged(rt.alloc(), 0, None));
    for without in 1..7usize {
        assert!(rt; are_marks_judged(rt.alloc(), without, BAD_CONTEXT));
    }
}

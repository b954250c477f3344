//! What checked tables tell of a character at once, for the fast ways of a comparison.

use icu_codepointtrie::TrieType;
use icu_collator_core::checked::CheckedTables;
use samples_icu_collator::compiled::checked_tables;
use std::alloc::Global;

/// Records of four letters; the third stands after the first as its suffix too, and the fourth after the second as what
/// has a prefix. U+10401 is beyond the characters that are noted.
const RECORDS: &str = "w 0061 ; [2A100000.0500.0.0500.0]
w 0062 ; [2A200000.0500.0.0500.0]
w 0063 ; [2A300000.0500.0.0500.0]
w 0061 0063 ; [2A400000.0500.0.0500.0]
w 0064 ; [2A500000.0500.0.0500.0]
w 0062 | 0064 ; [2A600000.0500.0.0500.0]
w 0401 ; [2A700000.0500.0.0500.0]
w 10401 ; [2A800000.0500.0.0500.0]
";

/// The tables of the records; `None` where memory is refused.
fn tables(alloc: Global) -> Option<CheckedTables<'static>> {
    checked_tables(alloc, RECORDS, TrieType::Small)
}

/// What is told of a character: whether it is read alone, is noted as plain, reading may begin at it, and it has no prefix.
fn told(checked: &CheckedTables<'_>, c: char) -> [bool; 4] {
    [
        checked.alone_element(c).is_some(),
        checked.boundary_element(c).is_some(),
        checked.is_own_beginning(c),
        checked.is_unprefixed(c),
    ]
}

/// Whether this is told of a character.
fn is_told(alloc: Global, c: char, expected: [bool; 4]) -> bool {
    match tables(alloc) {
        Some(checked) => told(&checked, c) == expected,
        None => false,
    }
}

#[test]
fn a_letter_alone(rt: HostRuntime) {
    assert!(rt; is_told(rt.alloc(), 'b', [true, true, true, true]));
}

#[test]
fn letters_together(rt: HostRuntime) {
    assert!(rt; is_told(rt.alloc(), 'a', [false, false, true, true]));
    assert!(rt; is_told(rt.alloc(), 'c', [true, false, false, true]));
}

#[test]
fn a_letter_with_a_prefix(rt: HostRuntime) {
    assert!(rt; is_told(rt.alloc(), 'd', [false, false, false, false]));
}

#[test]
fn a_letter_of_two_bytes(rt: HostRuntime) {
    assert!(rt; is_told(rt.alloc(), '\u{401}', [true, true, true, true]));
}

#[test]
fn a_letter_beyond_the_notes(rt: HostRuntime) {
    assert!(rt; is_told(rt.alloc(), '\u{10401}', [true, false, true, true]));
}

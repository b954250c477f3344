//! With memory at hand each call answers.

use icu_codepointtrie::TrieType;
use icu_collator::{Collator, CollatorBorrowed};
use icu_collator_types::options::{CollatorOptions, CollatorPreferences};
use samples_icu_collator::compiled::held_tables;
use samples_icu_collator::held::HeldCollation;
use std::alloc::Global;
use std::cmp::Ordering;

/// The records of two letters.
pub(crate) const LETTERS: &str = "w 0061 ; [2A100000.0500.0.0500.0]
w 0062 ; [2A200000.0500.0.0500.0]";

/// The sort key of the first.
pub(crate) const KEY: [u8; 8] = [0x2a, 0x10, 1, 5, 1, 1, 5, 1];

/// A call.
#[derive(Clone, Copy)]
enum Call {
    /// `try_new_unstable`.
    TryNewUnstable,
    /// `compare`.
    Compare,
    /// `compare_utf8`.
    CompareUtf8,
    /// `compare_utf16`.
    CompareUtf16,
    /// `compare_latin1`.
    CompareLatin1,
    /// `compare_latin1_utf16`.
    CompareLatin1Utf16,
    /// `write_sort_key_to`.
    WriteSortKeyTo,
    /// `write_sort_key_utf8_to`.
    WriteSortKeyUtf8To,
    /// `write_sort_key_utf16_to`.
    WriteSortKeyUtf16To,
}

/// Whether a call writes the key of the first letter.
fn writes_key(collator: &CollatorBorrowed<'_>, alloc: Global, call: Call) -> bool {
    let mut key = Vec::new(alloc);
    let outcome = match call {
        Call::WriteSortKeyUtf8To => collator.write_sort_key_utf8_to(alloc, b"a", &mut key),
        Call::WriteSortKeyUtf16To => collator.write_sort_key_utf16_to(alloc, &[0x61], &mut key),
        _ => collator.write_sort_key_to(alloc, "a", &mut key),
    };
    outcome.is_ok() && key.as_slice() == KEY.as_slice()
}

/// Whether a call answers: for the two letters that the first is below the second.
fn answers(collator: &CollatorBorrowed<'_>, alloc: Global, call: Call) -> bool {
    let order = match call {
        Call::TryNewUnstable => return true,
        Call::Compare => collator.compare(alloc, "a", "b"),
        Call::CompareUtf8 => collator.compare_utf8(alloc, b"a", b"b"),
        Call::CompareUtf16 => collator.compare_utf16(alloc, &[0x61], &[0x62]),
        Call::CompareLatin1 => collator.compare_latin1(alloc, b"a", b"b"),
        Call::CompareLatin1Utf16 => collator.compare_latin1_utf16(alloc, b"a", &[0x62]),
        _ => return writes_key(collator, alloc, call),
    };
    matches!(order, Ok(Ordering::Less))
}

/// Whether a call of a collator over a provider's tables answers.
fn answers_over(alloc: Global, held: &HeldCollation<'static>, call: Call) -> bool {
    let preferences = CollatorPreferences::default();
    match Collator::try_new_unstable(alloc, held, preferences, CollatorOptions::default()) {
        Ok(collator) => answers(&collator.as_borrowed(), alloc, call),
        Err(_) => false,
    }
}

/// Whether a call of a collator over the two letters answers.
fn is_answered(alloc: Global, call: Call) -> bool {
    match held_tables(alloc, LETTERS, TrieType::Small) {
        Some(held) => answers_over(alloc, &held, call),
        None => false,
    }
}

#[test]
fn ok_try_new_unstable(rt: HostRuntime) {
    assert!(rt; is_answered(rt.alloc(), Call::TryNewUnstable));
}

#[test]
fn ok_compare(rt: HostRuntime) {
    assert!(rt; is_answered(rt.alloc(), Call::Compare));
}

#[test]
fn ok_compare_utf8(rt: HostRuntime) {
    assert!(rt; is_answered(rt.alloc(), Call::CompareUtf8));
}

#[test]
fn ok_compare_utf16(rt: HostRuntime) {
    assert!(rt; is_answered(rt.alloc(), Call::CompareUtf16));
}

#[test]
fn ok_compare_latin1(rt: HostRuntime) {
    assert!(rt; is_answered(rt.alloc(), Call::CompareLatin1));
}

#[test]
fn ok_compare_latin1_utf16(rt: HostRuntime) {
    assert!(rt; is_answered(rt.alloc(), Call::CompareLatin1Utf16));
}

#[test]
fn ok_write_sort_key_to(rt: HostRuntime) {
    assert!(rt; is_answered(rt.alloc(), Call::WriteSortKeyTo));
}

#[test]
fn ok_write_sort_key_utf8_to(rt: HostRuntime) {
    assert!(rt; is_answered(rt.alloc(), Call::WriteSortKeyUtf8To));
}

#[test]
fn ok_write_sort_key_utf16_to(rt: HostRuntime) {
    assert!(rt; is_answered(rt.alloc(), Call::WriteSortKeyUtf16To));
}

//! Keys longer than the room that a key has without memory, where spaces are variable and where they aren't.

use icu_codepointtrie::TrieType;
use icu_collator::Collator;
use icu_collator_types::options::{
    AlternateHandling, CollatorOptions, CollatorPreferences, Strength,
};
use samples_icu_collator::compiled::held_tables;
use samples_icu_collator::held::HeldCollation;
use std::alloc::Global;

/// The records of three letters, the last with a primary of three bytes, of an accent, and of a space that may be variable.
const RECORDS: &str = "w 0061 ; [2A100000.0500.0.0500.0]
w 0062 ; [2A200000.0500.0.0500.0]
w 0063 ; [2A300500.0500.0.0500.0]
w 0301 ; [00000000.8800.0.0500.0]
w 0020 ; [03040000.0500.0.0500.0]
class 0301 230
set groups 0306 030A 030A 030A
set maxvariable punctuation";

/// The same records, but the letters' lead is compressible.
const COMPRESSED: &str = "w 0061 ; [2A100000.0500.0.0500.0]
w 0062 ; [2A200000.0500.0.0500.0]
w 0063 ; [2A300500.0500.0.0500.0]
w 0301 ; [00000000.8800.0.0500.0]
w 0020 ; [03040000.0500.0.0500.0]
class 0301 230
set groups 0306 030A 030A 030A
set maxvariable punctuation
set compress 2A";

/// Primaries alone.
const PRIMARIES: CollatorOptions = CollatorOptions {
    strength: Some(Strength::Primary),
    alternate_handling: None,
    max_variable: None,
    case_level: None,
};

/// Primaries without those of spaces.
const SHIFTED_PRIMARIES: CollatorOptions = CollatorOptions {
    alternate_handling: Some(AlternateHandling::Shifted),
    ..PRIMARIES
};

/// All levels, spaces at the last of them.
const SHIFTED: CollatorOptions = CollatorOptions {
    strength: Some(Strength::Quaternary),
    ..SHIFTED_PRIMARIES
};

/// Pieces one after another, each so often.
fn joined(alloc: Global, pieces: &[(&[u8], usize)]) -> Option<Vec<u8>> {
    let mut bytes = Vec::new(alloc);
    for (piece, count) in pieces {
        for _ in 0..*count {
            bytes.extend_from_slice(piece).ok()?;
        }
    }
    Some(bytes)
}

/// The key of a text, over a provider's tables.
fn key_over(
    alloc: Global,
    held: &HeldCollation<'static>,
    options: CollatorOptions,
    text: &[u8],
) -> Option<Vec<u8>> {
    let mut key = Vec::new(alloc);
    match Collator::try_new_unstable(alloc, held, CollatorPreferences::default(), options) {
        Ok(collator) => collator
            .as_borrowed()
            .write_sort_key_utf8_to(alloc, text, &mut key)
            .ok()?,
        Err(_) => return None,
    };
    Some(key)
}

/// Whether the text of some pieces has the key of others, over some records.
fn has_key(
    alloc: Global,
    records: &str,
    options: CollatorOptions,
    text: &[(&[u8], usize)],
    key: &[(&[u8], usize)],
) -> bool {
    let Some(held) = held_tables(alloc, records, TrieType::Small) else {
        return false;
    };
    let (Some(text), Some(key)) = (joined(alloc, text), joined(alloc, key)) else {
        return false;
    };
    key_over(alloc, &held, options, text.as_slice()) == Some(key)
}

#[test]
fn long_keys_have_each_level(rt: HostRuntime) {
    let text: [(&[u8], usize); 1] = [(b"a\xcc\x81b c", 120)];
    let key: [(&[u8], usize); 7] = [
        (b"\x2a\x10\x2a\x20\x2a\x30\x05", 120),
        (b"\x01\x45\x88", 1),
        (b"\x43\x88", 119),
        (b"\x06\x01\x01\x65\x65\x65\x65\x60\x01\x01", 1),
        (b"\x1e\x03\x04", 1),
        (b"\x1f\x03\x04", 119),
        (b"\x1c\x01", 1),
    ];
    assert!(rt; has_key(rt.alloc(), RECORDS, SHIFTED, &text, &key));
}

#[test]
fn long_keys_have_all_primaries(rt: HostRuntime) {
    let text: [(&[u8], usize); 1] = [(b"a\xcc\x81b c", 120)];
    let key: [(&[u8], usize); 1] = [(b"\x2a\x10\x2a\x20\x03\x04\x2a\x30\x05", 120)];
    assert!(rt; has_key(rt.alloc(), RECORDS, PRIMARIES, &text, &key));
}

#[test]
fn primaries_go_on_where_room_ends(rt: HostRuntime) {
    let text: [(&[u8], usize); 1] = [(b"a ", 257)];
    let key: [(&[u8], usize); 1] = [(b"\x2a\x10", 257)];
    assert!(rt; has_key(rt.alloc(), RECORDS, SHIFTED_PRIMARIES, &text, &key));
}

#[test]
fn primaries_go_on_over_the_end_of_room(rt: HostRuntime) {
    let text: [(&[u8], usize); 2] = [(b"c", 1), (b"a ", 255)];
    let key: [(&[u8], usize); 2] = [(b"\x2a\x30\x05", 1), (b"\x2a\x10", 255)];
    assert!(rt; has_key(rt.alloc(), RECORDS, SHIFTED_PRIMARIES, &text, &key));
}

#[test]
fn primaries_in_a_run_go_on_where_room_ends(rt: HostRuntime) {
    let text: [(&[u8], usize); 1] = [(b"a\xcc\x81 ", 600)];
    let key: [(&[u8], usize); 2] = [(b"\x2a", 1), (b"\x10", 600)];
    assert!(rt; has_key(rt.alloc(), COMPRESSED, SHIFTED_PRIMARIES, &text, &key));
}

#[test]
fn primaries_in_a_run_end_before_another_lead(rt: HostRuntime) {
    let text: [(&[u8], usize); 1] = [(b"a\xcc\x81b c", 120)];
    let key: [(&[u8], usize); 2] = [(b"\x2a", 1), (b"\x10\x20\x03\x03\x04\x2a\x30\x05", 120)];
    assert!(rt; has_key(rt.alloc(), COMPRESSED, PRIMARIES, &text, &key));
}

//! Texts that are read flat.

use icu_codepointtrie::TrieType;
use icu_collator_core::checked::CheckedTables;
use icu_collator_core::flat::{FlatElements, StretchedElements};
use icu_collator_types::elements::CollationElement;
use samples_icu_collator::compiled::checked_tables;
use std::alloc::Global;

/// Records of letters, marks of two classes, a letter with a mark, a digit, a text of two letters, and a letter that has its note
/// in a page.
const RECORDS: &str = "class 0300 230
class 0316 220
map 00E0 0061 0300
w 0061 ; [2A100000.0500.0.0500.0]
w 0062 ; [2A200000.0500.0.0500.0]
w 0062 0063 ; [2A400000.0500.0.0500.0]
w 0063 ; [2A300000.0500.0.0500.0]
w 0300 ; [0.8600.0.0500.0]
w 0316 ; [0.8800.0.0500.0]
w 0031 ; [0F100000.0500.0.0500.0]
digit 0031 1
w 0905 ; [2A700000.0500.0.0500.0]
";

/// The elements of a text that is read flat into room for three.
fn flat(checked: &CheckedTables<'_>, numeric: Option<u8>, text: &str) -> Option<FlatElements<3>> {
    let mut elements = FlatElements::new();
    if checked.read_flat(numeric, text.chars(), &mut elements) {
        Some(elements)
    } else {
        None
    }
}

/// Whether elements have these bits.
fn are(elements: &[CollationElement], expected: &[u64]) -> bool {
    elements.len() == expected.len()
        && elements
            .iter()
            .zip(expected)
            .all(|(element, bits)| *element == CollationElement::new(*bits))
}

/// Whether a text is read flat and has these elements.
fn has_elements(alloc: Global, numeric: Option<u8>, text: &str, expected: &[u64]) -> bool {
    let Some(checked) = checked_tables(alloc, RECORDS, TrieType::Small) else {
        return false;
    };
    let Some(elements) = flat(&checked, numeric, text) else {
        return false;
    };
    are(elements.as_slice(), expected)
}

/// Whether a text isn't read flat.
fn is_not_flat(alloc: Global, numeric: Option<u8>, text: &str) -> bool {
    match checked_tables(alloc, RECORDS, TrieType::Small) {
        Some(checked) => flat(&checked, numeric, text).is_none(),
        None => false,
    }
}

#[test]
fn ok_read_flat(rt: HostRuntime) {
    let alloc = rt.alloc();
    assert!(rt; has_elements(alloc, Some(0x10), "", &[]));
    assert!(rt;
        has_elements(
            alloc,
            Some(0x10),
            "aca",
            &[
                0x2a10_0000_0500_0500,
                0x2a30_0000_0500_0500,
                0x2a10_0000_0500_0500
            ]
        )
    );
    assert!(rt;
        has_elements(
            alloc,
            None,
            "\u{e0}\u{300}",
            &[0x2a10_0000_0500_0500, 0x8600_0500, 0x8600_0500]
        )
    );
    assert!(rt;
        has_elements(
            alloc,
            None,
            "\u{905}\u{300}",
            &[0x2a70_0000_0500_0500, 0x8600_0500]
        )
    );
}

/// Whether a text is read by stretches into room for three, and has these elements.
fn has_stretches(alloc: Global, text: &str, expected: &[u64]) -> bool {
    let Some(checked) = checked_tables(alloc, RECORDS, TrieType::Small) else {
        return false;
    };
    let mut elements = FlatElements::<3>::new();
    let Ok(true) = checked.read_stretches(alloc, None, text.chars(), &mut elements) else {
        return false;
    };
    are(elements.as_slice(), expected)
}

#[test]
fn ok_read_stretches(rt: HostRuntime) {
    let alloc = rt.alloc();
    assert!(rt; has_stretches(alloc, "", &[]));
    assert!(rt;
        has_stretches(
            alloc,
            "abca",
            &[
                0x2a10_0000_0500_0500,
                0x2a40_0000_0500_0500,
                0x2a10_0000_0500_0500
            ]
        )
    );
    assert!(rt;
        has_stretches(
            alloc,
            "a\u{300}\u{316}",
            &[0x2a10_0000_0500_0500, 0x8800_0500, 0x8600_0500]
        )
    );
    assert!(rt; !has_stretches(alloc, "bcaaa", &[0x2a40_0000_0500_0500]));
}

/// Whether a text is read on in three steps: these elements stand after the first, these after the second, and at its end.
fn is_read_on(alloc: Global, text: &str, first: &[u64], whole: &[u64]) -> bool {
    let Some(checked) = checked_tables(alloc, RECORDS, TrieType::Small) else {
        return false;
    };
    let mut elements = StretchedElements::new(alloc);
    let Ok((true, rest)) = checked.read_on(None, text.chars(), &mut elements) else {
        return false;
    };
    if elements.is_ended() || !are(elements.settled(), first) {
        return false;
    }
    let Ok((true, rest)) = checked.read_on(None, rest, &mut elements) else {
        return false;
    };
    if elements.is_ended() || !are(elements.settled(), whole) {
        return false;
    }
    let Ok((true, _rest)) = checked.read_on(None, rest, &mut elements) else {
        return false;
    };
    elements.is_ended() && are(elements.settled(), whole)
}

#[test]
fn ok_read_on(rt: HostRuntime) {
    let alloc = rt.alloc();
    assert!(rt;
        is_read_on(
            alloc,
            "abc",
            &[0x2a10_0000_0500_0500],
            &[0x2a10_0000_0500_0500, 0x2a40_0000_0500_0500]
        )
    );
    assert!(rt;
        is_read_on(
            alloc,
            "a\u{300}\u{316}a",
            &[0x2a10_0000_0500_0500],
            &[
                0x2a10_0000_0500_0500,
                0x8800_0500,
                0x8600_0500,
                0x2a10_0000_0500_0500
            ]
        )
    );
}

#[test]
fn marks_are_read_flat_in_order(rt: HostRuntime) {
    let alloc = rt.alloc();
    assert!(rt;
        has_elements(
            alloc,
            None,
            "a\u{316}\u{300}",
            &[0x2a10_0000_0500_0500, 0x8800_0500, 0x8600_0500]
        )
    );
    assert!(rt; is_not_flat(alloc, None, "a\u{300}\u{316}"));
    assert!(rt; is_not_flat(alloc, None, "\u{e0}\u{316}"));
}

#[test]
fn syllables_and_unnamed_characters_are_read_flat(rt: HostRuntime) {
    let alloc = rt.alloc();
    assert!(rt;
        has_elements(
            alloc,
            None,
            "\u{ac01}",
            &[
                0xfd04_0200_0500_0500,
                0xfd04_6300_0500_0500,
                0xfd05_2a00_0500_0500
            ]
        )
    );
    assert!(rt;
        has_elements(
            alloc,
            None,
            "\u{906}\u{4e00}",
            &[0xfe04_8264_0500_0500, 0xfe08_5f64_0500_0500]
        )
    );
}

#[test]
fn beginnings_of_contractions_are_read_flat_where_a_boundary_follows(rt: HostRuntime) {
    let alloc = rt.alloc();
    assert!(rt;
        has_elements(
            alloc,
            None,
            "ba",
            &[0x2a20_0000_0500_0500, 0x2a10_0000_0500_0500]
        )
    );
    assert!(rt;
        has_elements(
            alloc,
            None,
            "ab",
            &[0x2a10_0000_0500_0500, 0x2a20_0000_0500_0500]
        )
    );
    assert!(rt; is_not_flat(alloc, None, "bc"));
    assert!(rt; is_not_flat(alloc, None, "b\u{300}c"));
}

#[test]
fn digits_are_read_flat_without_numbers(rt: HostRuntime) {
    assert!(rt;
        has_elements(
            rt.alloc(),
            None,
            "a1",
            &[0x2a10_0000_0500_0500, 0x0f10_0000_0500_0500]
        )
    );
    assert!(rt; is_not_flat(rt.alloc(), Some(0x10), "a1"));
}

#[test]
fn other_texts_are_not_read_flat(rt: HostRuntime) {
    let alloc = rt.alloc();
    assert!(rt; is_not_flat(alloc, None, "abc"));
    assert!(rt; is_not_flat(alloc, None, "abac"));
    assert!(rt; is_not_flat(alloc, None, "acac"));
    assert!(rt; is_not_flat(alloc, None, "ac\u{e0}"));
}

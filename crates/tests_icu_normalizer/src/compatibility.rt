//! NFKD and NFKC of texts, and what stays of them in NFD and NFC.

use crate::calls::{Ask, Call, Kind, Row};
use crate::given::gives_given;
use std::alloc::Global;

/// A text, its NFKD and its NFKC, as an independent reading of the definitions gives them.
const ROWS: [Row<'static>; 30] = [
    ("", "", ""),
    ("x", "x", "x"),
    ("\u{b2}", "2", "2"),
    ("\u{ff9e}", "\u{3099}", "\u{3099}"),
    ("\u{304b}\u{ff9e}", "\u{304b}\u{3099}", "\u{304c}"),
    ("\u{ff9f}\u{ff9e}", "\u{309a}\u{3099}", "\u{309a}\u{3099}"),
    ("a\u{301}\u{323}", "a\u{323}\u{301}", "\u{1ea1}\u{301}"),
    (
        "\u{1ea1}\u{301}\u{b2}",
        "a\u{323}\u{301}2",
        "\u{1ea1}\u{301}2",
    ),
    ("\u{b2}\u{323}\u{302}", "2\u{323}\u{302}", "2\u{323}\u{302}"),
    ("\u{a0}", " ", " "),
    ("a\u{a0}\u{301}", "a \u{301}", "a \u{301}"),
    ("\u{a8}", " \u{308}", " \u{308}"),
    ("\u{a8}\u{323}", " \u{323}\u{308}", " \u{323}\u{308}"),
    ("\u{a8}\u{301}", " \u{308}\u{301}", " \u{308}\u{301}"),
    ("\u{fb01}", "fi", "fi"),
    ("\u{fb03}\u{323}", "ffi\u{323}", "ffi\u{323}"),
    (
        "\u{fdfb}",
        "\u{62c}\u{644} \u{62c}\u{644}\u{627}\u{644}\u{647}",
        "\u{62c}\u{644} \u{62c}\u{644}\u{627}\u{644}\u{647}",
    ),
    ("\u{17f}\u{307}", "s\u{307}", "\u{1e61}"),
    ("\u{1e9b}\u{323}", "s\u{323}\u{307}", "\u{1e61}\u{323}"),
    ("\u{1e61}", "s\u{307}", "\u{1e61}"),
    ("a\u{301}\u{ff9e}", "a\u{3099}\u{301}", "\u{e1}\u{3099}"),
    (
        "a\u{ff9e}\u{301}\u{323}",
        "a\u{3099}\u{323}\u{301}",
        "\u{1ea1}\u{3099}\u{301}",
    ),
    (
        "\u{ac01}\u{ff9f}",
        "\u{1100}\u{1161}\u{11a8}\u{309a}",
        "\u{ac01}\u{309a}",
    ),
    (
        "\u{1100}\u{1161}\u{ff9e}",
        "\u{1100}\u{1161}\u{3099}",
        "\u{ac00}\u{3099}",
    ),
    (
        "\u{ac00}\u{11a8}\u{b2}",
        "\u{1100}\u{1161}\u{11a8}2",
        "\u{ac01}2",
    ),
    ("\u{344}\u{b2}", "\u{308}\u{301}2", "\u{308}\u{301}2"),
    ("\u{1d400}\u{323}", "A\u{323}", "A\u{323}"),
    ("\u{1109a}\u{b2}", "\u{11099}\u{110ba}2", "\u{1109a}2"),
    ("e\u{301}\u{323}", "e\u{323}\u{301}", "e\u{323}\u{301}"),
    ("ab2", "ab2", "ab2"),
];

/// A text, its NFD and its NFC, as the same reading gives them: what is mapped by compatibility stays.
const KEPT: [Row<'static>; 10] = [
    ("\u{b2}", "\u{b2}", "\u{b2}"),
    ("\u{ff9e}", "\u{ff9e}", "\u{ff9e}"),
    ("\u{304b}\u{ff9e}", "\u{304b}\u{ff9e}", "\u{304b}\u{ff9e}"),
    ("\u{a8}\u{323}", "\u{a8}\u{323}", "\u{a8}\u{323}"),
    ("\u{fb01}", "\u{fb01}", "\u{fb01}"),
    (
        "\u{1e9b}\u{323}",
        "\u{17f}\u{323}\u{307}",
        "\u{1e9b}\u{323}",
    ),
    ("\u{a0}", "\u{a0}", "\u{a0}"),
    ("\u{1d400}", "\u{1d400}", "\u{1d400}"),
    ("\u{304b}\u{3099}", "\u{304b}\u{3099}", "\u{304c}"),
    ("\u{11099}\u{110ba}", "\u{11099}\u{110ba}", "\u{1109a}"),
];

/// Whether calls give the NFKD and NFKC of each row.
fn have_rows(alloc: Global, calls: &[Call]) -> bool {
    gives_given(alloc, Kind::Compatibility, Ask::Texts(calls, &ROWS))
}

/// Whether they give the NFD and NFC of each row of what stays.
fn keep_rows(alloc: Global, calls: &[Call]) -> bool {
    gives_given(alloc, Kind::Canonical, Ask::Texts(calls, &KEPT))
}

#[test]
fn ok_try_new_nfkd_unstable(rt: HostRuntime) {
    assert!(rt; have_rows(rt.alloc(), &[Call::WriteDecomposed]));
}

#[test]
fn ok_try_new_nfkc_unstable(rt: HostRuntime) {
    assert!(rt; have_rows(rt.alloc(), &[Call::WriteComposed]));
}

#[test]
fn compatible_forms(rt: HostRuntime) {
    assert!(rt; have_rows(rt.alloc(), &[Call::Normalize, Call::Iterate]));
}

#[test]
fn compatible_texts(rt: HostRuntime) {
    assert!(rt; have_rows(rt.alloc(), &[Call::IsNormalized, Call::SplitNormalized]));
}

#[test]
fn canonical_forms_keep_characters(rt: HostRuntime) {
    assert!(rt; keep_rows(rt.alloc(), &[Call::Normalize]));
}

//! Normal forms over the canonical tables of the worked rows.

use crate::calls::{Ask, Call, Kind, Row, gives};
use icu_normalizer::composing::Composition;
use icu_normalizer::decomposing::Decomposition;
use icu_normalizer_core::canonical::{CanonicalBorrowed, CanonicalData, CanonicalTables};
use samples_icu_normalizer::held::provider_of;
use samples_icu_normalizer::tables::{PAIRS, STEPS, tables};
use std::alloc::Global;

/// A text, its NFD and its NFC, as an independent reading of the definitions gives them.
const ROWS: [Row<'static>; 20] = [
    ("", "", ""),
    ("abc", "abc", "abc"),
    ("a\u{301}\u{323}", "a\u{323}\u{301}", "\u{1ea1}\u{301}"),
    ("\u{344}", "\u{308}\u{301}", "\u{308}\u{301}"),
    ("\u{ac01}", "\u{1100}\u{1161}\u{11a8}", "\u{ac01}"),
    (
        "\u{1100}\u{1161}\u{11a8}",
        "\u{1100}\u{1161}\u{11a8}",
        "\u{ac01}",
    ),
    ("\u{1100}\u{1161}", "\u{1100}\u{1161}", "\u{ac00}"),
    ("\u{ac00}\u{11a8}", "\u{1100}\u{1161}\u{11a8}", "\u{ac01}"),
    ("\u{e1}", "a\u{301}", "\u{e1}"),
    ("a\u{301}", "a\u{301}", "\u{e1}"),
    ("a\u{302}\u{301}", "a\u{302}\u{301}", "a\u{302}\u{301}"),
    ("a\u{302}\u{323}", "a\u{323}\u{302}", "\u{1ea1}\u{302}"),
    (
        "\u{301}\u{323}\u{302}a",
        "\u{323}\u{301}\u{302}a",
        "\u{323}\u{301}\u{302}a",
    ),
    ("\u{e1}\u{323}", "a\u{323}\u{301}", "\u{1ea1}\u{301}"),
    ("\u{1ea1}\u{301}", "a\u{323}\u{301}", "\u{1ea1}\u{301}"),
    (
        "\u{f73}\u{f71}",
        "\u{f71}\u{f71}\u{f72}",
        "\u{f71}\u{f71}\u{f72}",
    ),
    (
        "a\u{3099}\u{323}\u{301}",
        "a\u{3099}\u{323}\u{301}",
        "\u{1ea1}\u{3099}\u{301}",
    ),
    ("\u{341}", "\u{301}", "\u{301}"),
    ("\u{e1}\u{e1}", "a\u{301}a\u{301}", "\u{e1}\u{e1}"),
    ("a\u{301}\u{301}", "a\u{301}\u{301}", "\u{e1}\u{301}"),
];

/// Whether normalisers over these tables give what is asked for.
fn gives_over(alloc: Global, tables: CanonicalTables<'_>, ask: Ask<'_>) -> bool {
    gives(alloc, &provider_of(tables), Kind::Canonical, ask)
}

/// Whether calls give these forms of each row by normalisers over the tables of the worked rows.
fn have_rows(alloc: Global, calls: &[Call]) -> bool {
    match tables(alloc, &[], &STEPS, &PAIRS) {
        Some(tables) => gives_over(alloc, tables, Ask::Texts(calls, &ROWS)),
        None => false,
    }
}

#[test]
fn ok_try_new_nfd_unstable(rt: HostRuntime) {
    assert!(rt; have_rows(rt.alloc(), &[Call::WriteDecomposed]));
}

#[test]
fn ok_try_new_nfc_unstable(rt: HostRuntime) {
    assert!(rt; have_rows(rt.alloc(), &[Call::WriteComposed]));
}

#[test]
fn ok_normalize(rt: HostRuntime) {
    assert!(rt; have_rows(rt.alloc(), &[Call::Normalize]));
}

#[test]
fn ok_normalize_to(rt: HostRuntime) {
    assert!(rt; have_rows(rt.alloc(), &[Call::WriteDecomposed, Call::WriteComposed]));
}

#[test]
fn ok_normalize_iter(rt: HostRuntime) {
    assert!(rt; have_rows(rt.alloc(), &[Call::Iterate]));
}

#[test]
fn ok_is_normalized(rt: HostRuntime) {
    assert!(rt; have_rows(rt.alloc(), &[Call::IsNormalized]));
}

#[test]
fn ok_split_normalized(rt: HostRuntime) {
    assert!(rt; have_rows(rt.alloc(), &[Call::SplitNormalized]));
}

/// The first character of a text's NFD.
fn first_decomposed(alloc: Global, canonical: CanonicalBorrowed<'_>, text: &str) -> Option<char> {
    Decomposition::new(alloc, canonical, text.chars())
        .next()?
        .ok()
}

/// The first character of a text's NFC.
fn first_composed(alloc: Global, canonical: CanonicalBorrowed<'_>, text: &str) -> Option<char> {
    Composition::new(alloc, canonical, text.chars())
        .next()?
        .ok()
}

/// Whether both iterators begin as the forms do.
fn begin_right(alloc: Global, canonical: CanonicalBorrowed<'_>) -> bool {
    first_decomposed(alloc, canonical, "\u{344}") == Some('\u{308}')
        && first_composed(alloc, canonical, "a\u{301}\u{323}") == Some('\u{1ea1}')
}

/// The same over data of tables.
fn both_begin_right(alloc: Global, tables: CanonicalTables<'_>) -> bool {
    match CanonicalData::try_new(alloc, tables) {
        Ok(data) => begin_right(alloc, data.as_borrowed()),
        Err(_) => false,
    }
}

/// The same over those of the worked rows.
fn rows_begin_right(alloc: Global) -> bool {
    match tables(alloc, &[], &STEPS, &PAIRS) {
        Some(tables) => both_begin_right(alloc, tables),
        None => false,
    }
}

#[test]
fn ok_next(rt: HostRuntime) {
    assert!(rt; rows_begin_right(rt.alloc()));
}

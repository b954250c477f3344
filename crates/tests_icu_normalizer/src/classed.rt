//! Decomposed characters with their classes, by a caller as a library above writes it.
ghost use Rattle.std.specs.Prelude.{◌≡◌, IfOk};
ghost use Rattle.icu_normalizer_core.specs.BorrowedMeaning.{borrowed_meaning};
ghost use Rattle.icu_normalizer_core.specs.Canonical.{decomposed};
ghost use Rattle.icu_normalizer_core.specs.Classes.{with_classes};
ghost use Rattle.icu_normalizer_core.specs.Decoding.{utf8_chars};

use icu_normalizer_core::canonical::{CanonicalBorrowed, CanonicalData, CanonicalTables};
use icu_normalizer_core::decoding::decode_utf8;
use samples_icu_normalizer::tables::{PAIRS, STEPS, tables};
use std::alloc::{AllocError, Global};

/// The decomposed characters of a text in UTF-8, each with its class, kept.
fn kept_classes(
    alloc: Global,
    canonical: CanonicalBorrowed<'_>,
    text: &[u8],
) -> Result<Vec<(char, u8)>, AllocError>
    ensures { IfOk result (λ list. list.items ≡ with_classes (borrowed_meaning canonical.entry) (decomposed (borrowed_meaning canonical.entry) (utf8_chars text.now))) }
{
    let mut list = Vec::new(alloc);
    for item in canonical.classed(alloc, decode_utf8(text)) {
        list.push(item?)?;
    }
    Ok(list)
}

/// A text, and its decomposed characters with their classes, which are those of Unicode.
type Row = (&'static str, &'static [(char, u8)]);

/// No character, and a letter; marks in the wrong order, before a syllable; a letter with a mark, before a mark that goes
/// before it; marks that are mapped to marks; more marks than stand without memory, the last of which goes before all others.
const ROWS: [Row; 6] = [
    ("", &[]),
    ("a", &[('a', 0)]),
    (
        "a\u{301}\u{323}\u{ac01}",
        &[
            ('a', 0),
            ('\u{323}', 220),
            ('\u{301}', 230),
            ('\u{1100}', 0),
            ('\u{1161}', 0),
            ('\u{11a8}', 0),
        ],
    ),
    (
        "\u{e1}\u{323}",
        &[('a', 0), ('\u{323}', 220), ('\u{301}', 230)],
    ),
    (
        "\u{344}\u{f73}",
        &[
            ('\u{f71}', 129),
            ('\u{f72}', 130),
            ('\u{308}', 230),
            ('\u{301}', 230),
        ],
    ),
    (
        "\u{301}\u{302}\u{301}\u{302}\u{301}\u{302}\u{301}\u{302}\u{301}\u{302}\u{301}\u{302}\u{301}\u{302}\u{301}\u{302}\u{323}",
        &[
            ('\u{323}', 220),
            ('\u{301}', 230),
            ('\u{302}', 230),
            ('\u{301}', 230),
            ('\u{302}', 230),
            ('\u{301}', 230),
            ('\u{302}', 230),
            ('\u{301}', 230),
            ('\u{302}', 230),
            ('\u{301}', 230),
            ('\u{302}', 230),
            ('\u{301}', 230),
            ('\u{302}', 230),
            ('\u{301}', 230),
            ('\u{302}', 230),
            ('\u{301}', 230),
            ('\u{302}', 230),
        ],
    ),
];

/// Whether a text has these characters and classes.
fn has_row(alloc: Global, canonical: CanonicalBorrowed<'_>, row: Row) -> bool {
    match kept_classes(alloc, canonical, row.0.as_bytes()) {
        Ok(list) => list.as_slice() == row.1,
        Err(_) => false,
    }
}

/// The text of the first row that has others.
fn first_other_row(alloc: Global, canonical: CanonicalBorrowed<'_>) -> Option<&'static str> {
    for row in ROWS {
        if !has_row(alloc, canonical, row) {
            return Some(row.0);
        }
    }
    None
}

/// Whether all rows are right by data of tables.
fn has_rows_by(alloc: Global, tables: CanonicalTables<'_>) -> bool {
    match CanonicalData::try_new(alloc, tables) {
        Ok(data) => first_other_row(alloc, data.as_borrowed()).is_none(),
        Err(_) => false,
    }
}

/// Whether they are by those of the worked rows.
fn has_rows(alloc: Global) -> bool {
    match tables(alloc, &[], &STEPS, &PAIRS) {
        Some(tables) => has_rows_by(alloc, tables),
        None => false,
    }
}

#[test]
fn ok_classed(rt: HostRuntime) {
    assert!(rt; has_rows(rt.alloc()));
}

//! Normal forms of texts that are too long to be handed to a sink in one write.

use crate::calls::{Ask, Call, Kind, WritesTexts};
use crate::encoded::NormalizesUnits;
use crate::given::gives_given;
use icu_normalizer::sinks::UnitSink;
use std::alloc::Global;

/// What a text begins with, what is repeated after that, and what it ends with.
pub type Parts = (&'static str, &'static str, &'static str);

/// A text, its NFD and its NFC.
pub type LongRow = (Parts, Parts, Parts);

/// How often the second part is repeated: more than the characters and units that are held before they are written.
const TIMES: usize = 70;

/// Long texts: a run of marks that a later one goes before, a run of letters between two that change, of
/// pairs that change, and of clusters that do.
pub const LONG_ROWS: [LongRow; 4] = [
    (
        ("a", "\u{301}", "\u{323}"),
        ("a\u{323}", "\u{301}", ""),
        ("\u{1ea1}", "\u{301}", ""),
    ),
    (
        ("\u{e1}", "xy", "a\u{308}"),
        ("a\u{301}", "xy", "a\u{308}"),
        ("\u{e1}", "xy", "\u{e4}"),
    ),
    (
        ("\u{341}", "\u{1109a}\u{323}", ""),
        ("\u{301}", "\u{11099}\u{110ba}\u{323}", ""),
        ("\u{301}", "\u{1109a}\u{323}", ""),
    ),
    (
        ("", "a\u{301}\u{323}", "b"),
        ("", "a\u{323}\u{301}", "b"),
        ("", "\u{1ea1}\u{301}", "b"),
    ),
];

/// The text of these parts; `None` where memory is refused.
pub fn joined(alloc: Global, (first, repeated, last): Parts) -> Option<String> {
    let mut text = String::new(alloc);
    text.push_str(first).ok()?;
    for _ in 0..TIMES {
        text.push_str(repeated).ok()?;
    }
    text.push_str(last).ok()?;
    Some(text)
}

/// The units of a text; `None` where memory is refused.
fn units_of(alloc: Global, text: &str) -> Option<Vec<u16>> {
    let mut units = Vec::new(alloc);
    for c in text.chars() {
        units.write_char(c).ok()?;
    }
    Some(units)
}

/// Whether each call that writes to a sink writes this form of a text, and in several writes, where the text isn't the form
/// itself. `None` where a call writes anything else, or doesn't hand on the error of a sink that fails.
pub fn writes_in_pieces<N: WritesTexts + NormalizesUnits<u8> + NormalizesUnits<u16>>(
    alloc: Global,
    normalizer: &N,
    text: &str,
    want: &str,
) -> Option<bool> {
    let (units, wanted) = (units_of(alloc, text)?, units_of(alloc, want)?);
    let of_text = normalizer.writes_text(alloc, text, want)?;
    let of_bytes = normalizer.writes(alloc, text.as_bytes(), want.as_bytes())?;
    let of_units = normalizer.writes(alloc, units.as_slice(), wanted.as_slice())?;
    Some(text == want || (of_text > 1 && of_bytes > 1 && of_units > 1))
}

/// Whether calls give the NFD and NFC of each row.
fn have_rows(alloc: Global, calls: &[Call]) -> bool {
    gives_given(alloc, Kind::Canonical, Ask::Long(calls))
}

#[test]
fn long_texts_have_their_forms(rt: HostRuntime) {
    assert!(rt; have_rows(rt.alloc(), &[Call::Normalize, Call::Iterate]));
}

#[test]
fn long_texts_are_written_in_pieces(rt: HostRuntime) {
    assert!(rt; have_rows(rt.alloc(), &[Call::WriteInPieces]));
}

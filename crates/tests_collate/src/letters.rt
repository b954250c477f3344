//! Names over a few letters, an order of them, and options.

use collate_records::records::Records;
use collate_sort::Direction;
use collate_sort::order::LineOrder;
use icu_collator_types::options::{CollatorOptions, CollatorPreferences, Strength};
use std::alloc::Global;
use std::test::Fail;

/// Letters a, b, c, e, h, l, o and t in this order, three marks, and two letters with a mark.
pub(crate) const LETTERS: &[u8] = b"class 0302 230
class 0323 220
map 00E1 0061 0301
map 1EA1 0061 0323
w 0061 ; [2A100000.0500.0.0500.0]
w 0062 ; [2A200000.0500.0.0500.0]
w 0063 ; [2A300000.0500.0.0500.0]
w 0065 ; [2A500000.0500.0.0500.0]
w 0068 ; [2A800000.0500.0.0500.0]
w 006C ; [2AC00000.0500.0.0500.0]
w 006F ; [2AF00000.0500.0.0500.0]
w 0074 ; [2B400000.0500.0.0500.0]
w 0301 ; [0.8800.0.0500.0]
w 0302 ; [0.8A00.0.0500.0]
w 0323 ; [0.8C00.0.0500.0]
";

/// No preference.
pub(crate) const PREFERENCES: CollatorPreferences<'static> = CollatorPreferences {
    locale: "",
    collation_type: None,
    case_first: None,
    numeric_ordering: None,
};

/// The primary strength, and nothing else.
pub(crate) const PRIMARY: CollatorOptions = CollatorOptions {
    strength: Some(Strength::Primary),
    alternate_handling: None,
    max_variable: None,
    case_level: None,
};

/// Names, some of which are equal in several spellings.
pub(crate) const NAMES: [&[u8]; 15] = [
    b"co",
    b"b\xC3\xA1",
    b"ba",
    b"ba\xCC\x81",
    b"cab",
    b"",
    b"bab",
    b"\xE1\xBA\xA1\xCC\x81b",
    b"a\xCC\x81\xCC\xA3b",
    b"abe",
    b"ab",
    b"\xC3\xA1\xCC\xA3b",
    b"be",
    b"tb",
    b"b\xC3\xA1",
];

/// The order of the letters.
pub(crate) fn order_of(alloc: Global, direction: Direction) -> Result<LineOrder, Fail> {
    let records = Records::read(alloc, LETTERS)?;
    let preferences = CollatorPreferences::default();
    let options = CollatorOptions::default();
    let order = LineOrder::new(alloc, records, &preferences, &options, direction)?;
    Ok(order)
}

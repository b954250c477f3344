//! How two texts order.

use crate::asked_texts::units;
use icu_collator::CollatorBorrowed;
use std::alloc::Global;
use std::cmp::Ordering;

/// How two texts order that have to be UTF-8.
fn order_of_texts(
    collator: &CollatorBorrowed<'_>,
    alloc: Global,
    left: &[u8],
    right: &[u8],
) -> Option<Ordering> {
    let left = str::from_utf8(left).ok()?;
    let right = str::from_utf8(right).ok()?;
    collator.compare(alloc, left, right).ok()
}

/// How two texts in UTF-16 order.
fn order_of_units(
    collator: &CollatorBorrowed<'_>,
    alloc: Global,
    left: &[u8],
    right: &[u8],
) -> Option<Ordering> {
    let left = units(alloc, left)?;
    let right = units(alloc, right)?;
    collator.compare_utf16(alloc, &left, &right).ok()
}

/// How a text in Latin-1 and one in UTF-16 order.
fn order_of_both(
    collator: &CollatorBorrowed<'_>,
    alloc: Global,
    left: &[u8],
    right: &[u8],
) -> Option<Ordering> {
    let right = units(alloc, right)?;
    collator.compare_latin1_utf16(alloc, left, &right).ok()
}

/// How two texts in an encoding order.
pub fn order_of(
    collator: &CollatorBorrowed<'_>,
    alloc: Global,
    encoding: &str,
    left: &[u8],
    right: &[u8],
) -> Option<Ordering> {
    match encoding {
        "text" => order_of_texts(collator, alloc, left, right),
        "utf8" => collator.compare_utf8(alloc, left, right).ok(),
        "utf16" => order_of_units(collator, alloc, left, right),
        "latin1" => collator.compare_latin1(alloc, left, right).ok(),
        "mixed" => order_of_both(collator, alloc, left, right),
        _ => None,
    }
}

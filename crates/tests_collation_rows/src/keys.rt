//! The sort keys of texts.

use crate::asked_texts::units;
use icu_collator::CollatorBorrowed;
use std::alloc::Global;

/// Writes the key of a text in UTF-16.
fn write_key_of_units(
    collator: &CollatorBorrowed<'_>,
    alloc: Global,
    text: &[u8],
    key: &mut Vec<u8>,
) -> Option<()> {
    let text = units(alloc, text)?;
    collator.write_sort_key_utf16_to(alloc, &text, key).ok()
}

/// Writes the key of a text that has to be UTF-8.
fn write_key_of_text(
    collator: &CollatorBorrowed<'_>,
    alloc: Global,
    text: &[u8],
    key: &mut Vec<u8>,
) -> Option<()> {
    let text = str::from_utf8(text).ok()?;
    collator.write_sort_key_to(alloc, text, key).ok()
}

/// Writes the key of a text in an encoding.
fn write_key(
    collator: &CollatorBorrowed<'_>,
    alloc: Global,
    encoding: &str,
    text: &[u8],
    key: &mut Vec<u8>,
) -> Option<()> {
    match encoding {
        "text" => write_key_of_text(collator, alloc, text, key),
        "utf8" => collator.write_sort_key_utf8_to(alloc, text, key).ok(),
        "utf16" => write_key_of_units(collator, alloc, text, key),
        _ => None,
    }
}

/// The key of a text in an encoding.
pub fn key_of(
    collator: &CollatorBorrowed<'_>,
    alloc: Global,
    encoding: &str,
    text: &[u8],
) -> Option<Vec<u8>> {
    let mut key = Vec::new(alloc);
    match write_key(collator, alloc, encoding, text, &mut key) {
        Some(()) => Some(key),
        None => None,
    }
}

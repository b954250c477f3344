//! The elements of a text, as the reader of elements gives them.

use icu_collator_core::checked::CheckedTables;
use icu_collator_core::elements::CollationElements;
use icu_collator_types::elements::CollationElement;
use std::alloc::Global;

/// The 64 bits of an element.
fn bits_of(element: CollationElement) -> u64 {
    (u64::from(element.primary()) << 32) | u64::from(element.non_primary().bits())
}

/// The elements of characters, 64 bits each, without the end; `None` where memory is refused. With a lead the digits are read
/// as numbers.
pub fn read_elements(
    alloc: Global,
    tables: &CheckedTables<'_>,
    characters: &[char],
    numeric: Option<u8>,
) -> Option<Vec<u64>> {
    let mut reader = CollationElements::new(alloc, characters.iter().copied(), tables, numeric);
    reader.init().ok()?;
    let mut elements = Vec::new(alloc);
    for _ in 0..u32::MAX {
        let element = reader.next().ok()?;
        if element == CollationElement::default() {
            return Some(elements);
        }
        elements.push(bits_of(element)).ok()?;
    }
    None
}

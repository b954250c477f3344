//! Names in an encoding, as they are given and in the order of their keys.

use icu_collator::CollatorBorrowed;
use std::alloc::Global;
use std::cmp::Ordering;

/// A name in an encoding.
pub trait Name: Copy {
    /// Adds the name's key to the bytes that a vector holds; `None` where memory is refused.
    fn add_key(
        self,
        collator: &CollatorBorrowed<'_>,
        alloc: Global,
        key: &mut Vec<u8>,
    ) -> Option<()>;

    /// The order of the name and another; `None` where memory is refused.
    fn order(self, collator: &CollatorBorrowed<'_>, alloc: Global, other: Self) -> Option<Ordering>;
}

impl Name for &str {
    fn add_key(
        self,
        collator: &CollatorBorrowed<'_>,
        alloc: Global,
        key: &mut Vec<u8>,
    ) -> Option<()> {
        collator.write_sort_key_to(alloc, self, key).ok()
    }

    fn order(
        self,
        collator: &CollatorBorrowed<'_>,
        alloc: Global,
        other: Self,
    ) -> Option<Ordering> {
        collator.compare(alloc, self, other).ok()
    }
}

impl Name for &[u16] {
    fn add_key(
        self,
        collator: &CollatorBorrowed<'_>,
        alloc: Global,
        key: &mut Vec<u8>,
    ) -> Option<()> {
        collator.write_sort_key_utf16_to(alloc, self, key).ok()
    }

    fn order(
        self,
        collator: &CollatorBorrowed<'_>,
        alloc: Global,
        other: Self,
    ) -> Option<Ordering> {
        collator.compare_utf16(alloc, self, other).ok()
    }
}

/// The units that bytes are, the low byte first. A byte that is left over is dropped.
pub fn units(alloc: Global, bytes: &[u8]) -> Option<Vec<u16>> {
    let (pairs, _) = bytes.as_chunks::<2>();
    pairs
        .iter()
        .map(|pair| u16::from_le_bytes(*pair))
        .collect(alloc)
        .ok()
}

/// The lines of units, each ended by a newline.
pub fn unit_lines(alloc: Global, file: &[u16]) -> Option<Vec<&[u16]>> {
    let lines = file.strip_suffix(&[0xa]).unwrap_or(file);
    lines.split(|unit| *unit == 0xa).collect(alloc).ok()
}

/// A name with its key.
#[derive(Drop)]
struct Keyed<N> {
    key: Vec<u8>,
    name: N,
}

/// A name with its key.
fn with_key<N: Name>(collator: &CollatorBorrowed<'_>, alloc: Global, name: N) -> Option<Keyed<N>> {
    let mut key = Vec::new(alloc);
    name.add_key(collator, alloc, &mut key)?;
    Some(Keyed { key, name })
}

/// Names in the order of their keys.
pub fn in_order<N: Name>(
    collator: &CollatorBorrowed<'_>,
    alloc: Global,
    names: &[N],
) -> Option<Vec<N>> {
    let mut list = Vec::new(alloc);
    for name in names {
        list.push(with_key(collator, alloc, *name)?).ok()?;
    }
    list.sort_by(|a, b| a.key.cmp(&b.key)).ok()?;
    list.iter().map(|keyed| keyed.name).collect(alloc).ok()
}

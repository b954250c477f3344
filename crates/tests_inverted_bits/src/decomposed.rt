//! The decomposed list of a text, found slowly: mapping by mapping, and the marks put in order one by one. What canonical
//! tables say of full lists isn't asked.

use icu_normalizer_core::canonical::CanonicalBorrowed;
use icu_normalizer_core::properties::Decomposed;
use std::alloc::Global;

/// The most mappings that lie between a character of these tables and what it decomposes to.
const STEPS: u32 = 4;

/// Appends a character, or what it is mapped to.
fn push_mapped(canonical: CanonicalBorrowed<'_>, list: &mut Vec<char>, c: char) -> Option<()> {
    match canonical.step(c) {
        Some(Decomposed::Singleton(first)) => list.push(first).ok(),
        Some(Decomposed::Expansion(first, second)) => {
            list.push(first).ok()?;
            list.push(second).ok()
        }
        _ => list.push(c).ok(),
    }
}

/// A list with each character mapped once.
fn mapped(alloc: Global, canonical: CanonicalBorrowed<'_>, list: &[char]) -> Option<Vec<char>> {
    let mut mapped = Vec::new(alloc);
    for c in list {
        push_mapped(canonical, &mut mapped, *c)?;
    }
    Some(mapped)
}

/// Puts a character after the others; a mark before the marks of higher classes that are last.
fn put_in_order(canonical: CanonicalBorrowed<'_>, list: &mut Vec<char>, c: char) -> Option<()> {
    let class = canonical.class(c);
    let count = list
        .iter()
        .rev()
        .take_while(|other| class != 0 && canonical.class(**other) > class)
        .count();
    list.insert(list.len().saturating_sub(count), c).ok()
}

/// The decomposed list of characters.
pub fn slowly_decomposed(
    alloc: Global,
    canonical: CanonicalBorrowed<'_>,
    characters: &[char],
) -> Option<Vec<char>> {
    let mut list = mapped(alloc, canonical, characters)?;
    for _step in 1..STEPS {
        list = mapped(alloc, canonical, list.as_slice())?;
    }
    let mut ordered = Vec::new(alloc);
    for c in list.as_slice() {
        put_in_order(canonical, &mut ordered, *c)?;
    }
    Some(ordered)
}

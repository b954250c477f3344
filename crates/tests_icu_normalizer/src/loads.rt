//! Canonical tables from a provider, not yet checked, and compatibility data.

use icu_normalizer_core::canonical::FullList;
use icu_normalizer_core::provider::{load_canonical, load_compatibility_data};
use samples_icu_normalizer::held::{Held, with_compatibility};
use std::alloc::Global;

/// Whether the canonical tables of a provider are those of the worked rows.
fn loads_canonical(alloc: Global, held: &Held<'_>) -> bool {
    match load_canonical(alloc, held) {
        Ok(tables) => {
            tables.steps.get(0) == Some(0xe1)
                && tables.steps.len() == 6
                && tables.pairs.len() == 2
                && tables.trie.get('\u{301}') == 0xd8e6
        }
        Err(_) => false,
    }
}

/// Whether a list has one character, this.
fn is_one(list: FullList<'_>, expected: char) -> bool {
    let mut list = list;
    list.next() == Some(expected) && list.next().is_none()
}

/// Whether the compatibility data of a provider map a space, and have canonical data beneath.
fn loads_compatibility(alloc: Global, held: &Held<'_>) -> bool {
    match load_compatibility_data(alloc, held) {
        Ok(data) => {
            let borrowed = data.as_borrowed();
            is_one(borrowed.full_list('\u{a0}'), ' ')
                && is_one(borrowed.canonical().full_list('\u{a0}'), '\u{a0}')
        }
        Err(_) => false,
    }
}

/// Whether the provider of canonical and compatibility tables is loaded from by a call.
fn is_loaded(alloc: Global, is_canonical: bool) -> bool {
    match with_compatibility(alloc) {
        Some(held) if is_canonical => loads_canonical(alloc, &held),
        Some(held) => loads_compatibility(alloc, &held),
        None => false,
    }
}

#[test]
fn ok_load_canonical(rt: HostRuntime) {
    assert!(rt; is_loaded(rt.alloc(), true));
}

#[test]
fn ok_load_compatibility_data(rt: HostRuntime) {
    assert!(rt; is_loaded(rt.alloc(), false));
}

//! The mapper of domain names.

use crate::asked_texts::LONG;
use crate::told::{gives_all, made};
use icu_codepointtrie::{CodePointTrieBuilder, TrieType};
use icu_normalizer::uts46::{Uts46Mapper, Uts46MapperBorrowed};
use icu_normalizer_core::provider::Uts46Tables;
use icu_packed_vector::PackedVec;
use samples_icu_normalizer::held::{Held, letters};
use std::alloc::{AllocError, Global};

/// A table by which 1 is ignored and `c` is mapped to two letters.
fn mapper_table(alloc: Global) -> Option<Uts46Tables<'static>> {
    let mut words = CodePointTrieBuilder::new(alloc, 0, 0, TrieType::Small).ok()?;
    words.set_value(0x31, 1).ok()?;
    words.set_value(0x63, 0x203).ok()?;
    let trie = words.build().ok()?;
    let scalars24 = PackedVec::from_slice(alloc, &['x', 'y']).ok()?;
    Some(Uts46Tables { trie, scalars24 })
}

/// A provider of such a table; `None` where memory is refused.
fn provider(alloc: Global) -> Option<Held<'static>> {
    let (mut held, table) = letters(alloc).zip(mapper_table(alloc))?;
    held.uts46 = Some(table);
    Some(held)
}

/// Prints what a mapper gives of a text.
fn tell_mapped(rt: &HostRuntime, mapper: Uts46MapperBorrowed<'_>) {
    for _ in 0..2 {
        let chars = mapper.map_normalize(rt.alloc(), LONG.chars());
        if gives_all(rt, "map_normalize", chars) {
            break;
        }
    }
    for _ in 0..2 {
        let chars = mapper.normalize_validate(rt.alloc(), LONG.chars());
        if gives_all(rt, "normalize_validate", chars) {
            break;
        }
    }
}

/// Makes a mapper over a provider, and prints what it gives.
fn tell_over(rt: &HostRuntime, held: &Held<'_>) {
    let mapper = made(rt, "Uts46Mapper::try_new", || {
        Uts46Mapper::try_new(rt.alloc(), held)
    });
    if let Some(mapper) = mapper {
        tell_mapped(rt, mapper.as_borrowed());
    }
}

/// Makes a mapper, and prints what it gives.
pub fn tell_mapper(rt: &HostRuntime) {
    let held = made(rt, "a provider", || provider(rt.alloc()).ok_or(AllocError));
    if let Some(held) = held {
        tell_over(rt, &held);
    }
}

//! What the constructors of normalisers to NFKD and NFKC name first: loads in their order, then canonical faults, then those of
//! compatibility tables.

use icu_normalizer::composing::ComposingNormalizer;
use icu_normalizer::decomposing::DecomposingNormalizer;
use icu_normalizer_core::canonical::CanonicalFault;
use icu_normalizer_core::provider::{DataError, TableName};
use samples_icu_normalizer::held::{Held, with_words};
use std::alloc::Global;

/// What of its tables a provider lacks, beside those of the row before.
#[derive(Clone, Copy)]
enum Lack {
    Nothing,
    CompatibilityLists,
    CompatibilityWords,
    Pairs,
    Lists,
    Words,
}

/// Takes that from a provider.
fn take(held: &mut Held<'_>, lack: Lack) {
    match lack {
        Lack::Nothing => {}
        Lack::CompatibilityLists => held.lacks_compatibility_lists = true,
        Lack::CompatibilityWords => held.nfkd = None,
        Lack::Pairs => held.lacks_pairs = true,
        Lack::Lists => held.lacks_lists = true,
        Lack::Words => held.lacks_words = true,
    }
}

/// What is named first, where one table after another comes to lack: U+0300 has a built-in class, and its canonical word
/// doesn't say it; U+0301 has another class by its compatibility word.
const ORDER: [(Lack, DataError); 6] = [
    (
        Lack::Nothing,
        DataError::Canonical(CanonicalFault::BuiltIn('\u{300}')),
    ),
    (
        Lack::CompatibilityLists,
        DataError::Missing(TableName::NfkdTables),
    ),
    (
        Lack::CompatibilityWords,
        DataError::Missing(TableName::Nfkd),
    ),
    (Lack::Pairs, DataError::Missing(TableName::Pairs)),
    (Lack::Lists, DataError::Missing(TableName::NfdTables)),
    (Lack::Words, DataError::Missing(TableName::Nfd)),
];

/// Whether the constructors to NFKD and NFKC refuse a provider's tables for this.
fn are_refused(alloc: Global, held: &Held<'_>, expected: DataError) -> bool {
    let decomposing = DecomposingNormalizer::try_new_nfkd_unstable(alloc, held).err();
    let composing = ComposingNormalizer::try_new_nfkc_unstable(alloc, held).err();
    decomposing == Some(expected) && composing == Some(expected)
}

/// The number of the first row at which something else is named.
fn first_named_otherwise(alloc: Global, held: &mut Held<'_>) -> Option<usize> {
    for (number, (lack, expected)) in ORDER.iter().enumerate() {
        take(held, *lack);
        if !are_refused(alloc, held, *expected) {
            return Some(number);
        }
    }
    None
}

/// Whether all rows are so of tables that are wrong twice.
fn wrong_are_in_order(alloc: Global) -> bool {
    match with_words(alloc, &[(0x300, 0)], &[(0x301, 0xd8dc)]) {
        Some(mut held) => first_named_otherwise(alloc, &mut held).is_none(),
        None => false,
    }
}

/// Whether compatibility tables that are wrong are refused, over canonical ones that are right.
fn compatibility_is_refused(alloc: Global) -> bool {
    let fault = DataError::Canonical(CanonicalFault::BadValue('\u{301}'));
    match with_words(alloc, &[], &[(0x301, 0xd8dc)]) {
        Some(held) => are_refused(alloc, &held, fault),
        None => false,
    }
}

#[test]
fn refusals_in_order(rt: HostRuntime) {
    assert!(rt; wrong_are_in_order(rt.alloc()));
    assert!(rt; compatibility_is_refused(rt.alloc()));
}

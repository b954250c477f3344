//! What the bits of metadata say, which leads are compressible, and what stands in the place of primaries.

use crate::tables::reordering;
use icu_collator_core::tables::{
    CollationMetadata, CollationReordering, CollationSpecialPrimaries,
};
use icu_collator_types::options::{CollationCaseFirst, MaxVariable};
use icu_packed_vector::PackedVec;
use std::alloc::Global;

/// Metadata, with the last variable group and the case that comes first.
const OPTIONS: [(u32, MaxVariable, CollationCaseFirst); 5] = [
    (0, MaxVariable::Space, CollationCaseFirst::False),
    (0x401, MaxVariable::Punctuation, CollationCaseFirst::False),
    (0x202, MaxVariable::Symbol, CollationCaseFirst::Lower),
    (0x603, MaxVariable::Currency, CollationCaseFirst::Upper),
    (0x604, MaxVariable::Space, CollationCaseFirst::Upper),
];

/// Whether metadata say so.
fn has_options(bits: u32, max_variable: MaxVariable, case_first: CollationCaseFirst) -> bool {
    let metadata = CollationMetadata { bits };
    metadata.max_variable() == max_variable && metadata.case_first() == case_first
}

/// Whether each of these do.
fn all_have_options() -> bool {
    for (bits, max_variable, case_first) in OPTIONS {
        if !has_options(bits, max_variable, case_first) {
            return false;
        }
    }
    true
}

/// Whether metadata say of a tailoring, of its diacritics, of a reordering, of the dot above, of backward
/// accents and of shifted elements what the bits from the lowest on do.
fn has_flags(bits: u32, flags: [bool; 6]) -> bool {
    let metadata = CollationMetadata { bits };
    metadata.tailored() == flags[0]
        && metadata.tailored_diacritics() == flags[1]
        && metadata.reordering() == flags[2]
        && metadata.lithuanian_dot_above() == flags[3]
        && metadata.backward_second_level() == flags[4]
        && metadata.alternate_shifted() == flags[5]
}

#[test]
fn metadata_bits(rt: HostRuntime) {
    assert!(rt; all_have_options());
    assert!(rt; has_flags(0x8, [true, false, false, false, false, false]));
    assert!(rt; has_flags(0x50, [false, true, false, true, false, false]));
    assert!(rt; has_flags(0x1a0, [false, false, true, false, true, true]));
}

/// Whether leads are compressible by these words after the groups, or by none.
fn are_compressible(alloc: Global, words: &[u16], leads: &[(u8, bool)]) -> bool {
    let Ok(last_primaries) = PackedVec::from_slice(alloc, words) else {
        return false;
    };
    let special_primaries = CollationSpecialPrimaries {
        last_primaries,
        numeric_primary: 0x10,
    };
    for (lead, expected) in leads {
        if special_primaries.is_compressible(*lead) != *expected {
            return false;
        }
    }
    true
}

/// Four groups, and a word for sixteen leads each, of which 2A and FE (hex) have their bit.
const WITH_LEADS: [u16; 20] = [
    0x300, 0x300, 0x300, 0x300, 0, 0, 0x400, 0, 0, 0, 0, 0, 0, 0, 0, 0, 0, 0, 0, 0x4000,
];

/// Four groups alone.
const WITHOUT_LEADS: [u16; 4] = [0x300; 4];

/// Leads, and whether they are compressible by the bits above.
const LEADS: [(u8, bool); 4] = [(0x2a, true), (0x2b, false), (0x61, false), (0xfe, true)];

/// Leads, and whether they usually are.
const USUAL_LEADS: [(u8, bool); 5] = [
    (0x60, false),
    (0x61, true),
    (0x80, true),
    (0x81, false),
    (0xfe, true),
];

#[test]
fn compressible_leads(rt: HostRuntime) {
    assert!(rt; are_compressible(rt.alloc(), &WITH_LEADS, &LEADS));
    assert!(rt; are_compressible(rt.alloc(), &WITHOUT_LEADS, &USUAL_LEADS));
}

/// Whether primaries stand in the place of others.
fn are_reordered(reordering: &CollationReordering<'_>, primaries: &[(u32, u32)]) -> bool {
    for (primary, expected) in primaries {
        if reordering.reorder(*primary) != *expected {
            return false;
        }
    }
    true
}

/// Primaries, and what stands in their place where the lead 2A becomes 2B, and 2C is cut (hex).
const REORDERED: [(u32, u32); 6] = [
    (0x2a10_2030, 0x2b10_2030),
    (0x2c10_0000, 0x2d10_0000),
    (0x2c80_0000, 0x2b80_0000),
    (0x2d00_0000, 0x2d00_0000),
    (1, 1),
    (0, 0),
];

/// Whether these do.
fn all_are_reordered(alloc: Global) -> bool {
    match reordering(alloc) {
        Some(reordering) => are_reordered(&reordering, &REORDERED),
        None => false,
    }
}

#[test]
fn reordered_primaries(rt: HostRuntime) {
    assert!(rt; all_are_reordered(rt.alloc()));
}

//! What an element, in 64 bits, has for each level.

use icu_collator_core::tables::CollationSpecialPrimaries;
use icu_collator_types::options::{
    AlternateHandling, CaseLevel, CollationCaseFirst, MaxVariable, ResolvedCollatorOptions,
    Strength,
};

/// The primary of an element.
pub(crate) fn primary_of(bits: u64) -> u32 {
    ((bits >> 32) & 0xffff_ffff) as u32
}

/// The secondary of an element.
pub(crate) fn secondary_of(bits: u64) -> u64 {
    (bits >> 16) & 0xffff
}

/// The case of an element.
fn case_of(bits: u64) -> u64 {
    (bits >> 14) & 3
}

/// The tertiary of an element.
pub(crate) fn tertiary_of(bits: u64) -> u64 {
    bits & 0x3f3f
}

/// The quaternary of an element.
pub(crate) fn quaternary_of(bits: u64) -> u64 {
    (bits >> 6) & 3
}

/// What primaries that are shifted are below: that of the last variable group, or 0 where none is shifted.
pub(crate) fn shifted_end(
    special_primaries: &CollationSpecialPrimaries<'_>,
    options: &ResolvedCollatorOptions,
) -> Option<u32> {
    if options.alternate_handling == AlternateHandling::NonIgnorable {
        return Some(0);
    }
    let group = match options.max_variable {
        MaxVariable::Space => 0,
        MaxVariable::Punctuation => 1,
        MaxVariable::Symbol => 2,
        MaxVariable::Currency => 3,
    };
    let upper = special_primaries.last_primaries.get(group)?;
    Some(u32::from(upper) << 16)
}

/// The case of an element that has a secondary, and at `Primary` a primary too; with upper case first counted from it.
pub(crate) fn case_weight(options: &ResolvedCollatorOptions, bits: u64) -> Option<u64> {
    let is_left_out = primary_of(bits) == 0 && options.strength == Strength::Primary;
    if secondary_of(bits) == 0 || is_left_out {
        return None;
    }
    match options.case_first {
        CollationCaseFirst::Upper => Some(2u64.saturating_sub(case_of(bits))),
        CollationCaseFirst::False | CollationCaseFirst::Lower => Some(case_of(bits)),
    }
}

/// The tertiary of an element; where case comes first, and has no level of its own, below the bits of its case. With
/// upper case first these are exchanged, and an element without secondary is above all others.
pub(crate) fn tertiary_weight(options: &ResolvedCollatorOptions, bits: u64) -> u64 {
    let (case, tertiary) = (case_of(bits), tertiary_of(bits));
    match (options.case_level, options.case_first) {
        (CaseLevel::On, _) | (_, CollationCaseFirst::False) => tertiary,
        (_, CollationCaseFirst::Lower) => (case << 14) | tertiary,
        (_, CollationCaseFirst::Upper) if secondary_of(bits) == 0 => {
            (case.wrapping_add(1) << 14).wrapping_add(tertiary)
        }
        (_, CollationCaseFirst::Upper) => ((case ^ 3) << 14) | tertiary,
    }
}

//! What an element gives at each level.

ghost use Rattle.std.specs.Prelude.{◌≡◌, ◌<◌, ◌+◌, ◌^◌, IfSome, Some, false, ltb, option_map, true};
ghost use Rattle.icu_collator_types.specs.Options.{has_case_bits};
ghost use Rattle.icu_collator_types.specs.declared.options.ResolvedCollatorOptions.{ResolvedCollatorOptions};
ghost use Rattle.icu_collator_core.specs.Pools.{element_of};
ghost use Rattle.icu_collator_core.specs.TableSettings.{reordered_in};
ghost use Rattle.icu_collator.specs.Collators.{source_collation};
ghost use Rattle.icu_collator.specs.KeyCodes.{gives_small_place};
ghost use Rattle.icu_collator.specs.LevelLists.{counted_of, tertiary_with_case};
ghost use Rattle.icu_collator.specs.Levels.{case_at, is_segment_end, own_primary_at, primary_at, quaternary_at, secondary_at, tertiary_at};
ghost use Rattle.icu_collator.specs.Order.{quaternary_rank, secondary_rank};

use super::counted_elements::{CountedElement, SEGMENT_END_PRIMARY};
use icu_collator_core::checked::CheckedTables;
use icu_collator_core::tables::CollationTables;
use icu_collator_types::elements::{COMMON_WEIGHT, CollationElement};
use icu_collator_types::options::{
    CaseLevel, CollationCaseFirst, ResolvedCollatorOptions, Strength,
};

/// The rank of the quaternary 0: those of shifted primaries are below it.
const FIRST_QUATERNARY_RANK: u64 = 1 << 32;

/// The case of an element stands above its tertiary.
const CASE_STEP: u32 = 0x4000;

/// The primary that stands in the place of another.
#[inline(always)]
pub(crate) fn reordered(tables: &CollationTables<'_>, primary: u32) -> u32
    ensures { result ≡ reordered_in tables.now.reordering primary }
{
    match &tables.reordering {
        Some(reordering) => reordering.reorder(primary),
        None => primary,
    }
}

/// The primary, before it is reordered; `None` for an element that has none, or is variable.
#[inline(always)]
pub(crate) fn own_primary_at(element: CountedElement) -> Option<u32>
    ensures { result ≡ own_primary_at (counted_of element) }
{
    match element {
        CountedElement::Whole(element) => {
            let primary = element.primary();
            if primary == 0 { None } else { Some(primary) }
        }
        CountedElement::Variable(_) => None,
    }
}

/// The primary, as it is reordered; `None` for an element that has none, or is variable.
#[inline(always)]
pub(crate) fn primary_at(checked: &CheckedTables<'_>, element: CountedElement) -> Option<u32>
    ensures { result ≡ primary_at (source_collation checked.now) (counted_of element) }
{
    match element {
        CountedElement::Whole(element) => {
            let primary = element.primary();
            if primary == 0 {
                None
            } else {
                Some(reordered(checked.tables(), primary))
            }
        }
        CountedElement::Variable(_) => None,
    }
}

/// The rank of the secondary; `None` for an element that has none.
#[inline(always)]
pub(crate) fn secondary_rank_at(element: CountedElement) -> Option<u32>
    ensures bound { IfSome result (λ rank. rank < 2 ^ 16 + 1) }
    ensures rank { result ≡ option_map secondary_rank (secondary_at (counted_of element)) }
{
    match element {
        CountedElement::Whole(element) => {
            let secondary = element.secondary();
            if secondary == 0 {
                None
            } else {
                Some(u32::from(secondary) + 1)
            }
        }
        CountedElement::Variable(_) => None,
    }
}

/// Whether an element has the common secondary.
#[inline(always)]
pub(crate) fn has_common_secondary(element: CountedElement) -> bool
    ensures { result ≡ true → option_map secondary_rank (secondary_at (counted_of element)) ≡ Some 0x501 }
{
    match element {
        CountedElement::Whole(element) => element.secondary() == COMMON_WEIGHT,
        CountedElement::Variable(_) => false,
    }
}

/// Whether this is the element of U+FFFE, which ends a segment.
pub(super) fn is_segment_end(element: CountedElement) -> bool
    ensures { result ≡ is_segment_end (counted_of element) }
{
    match element {
        CountedElement::Whole(element) => element.primary() == SEGMENT_END_PRIMARY,
        CountedElement::Variable(_) => false,
    }
}

/// The case of an element.
#[inline]
fn case_of(element: CollationElement) -> u32
    ensures { result ≡ (element_of element).case }
{
    (element.non_primary().bits() >> 14) & 0x3
}

/// The tertiary of an element.
#[inline]
fn tertiary_of(element: CollationElement) -> u32
    ensures { result ≡ (element_of element).tertiary }
{
    let bits = element.non_primary().bits();
    (((bits >> 8) & 0x3f) << 8) + (bits & 0x3f)
}

/// The quaternary of an element.
fn quaternary_of(element: CollationElement) -> u32
    ensures { result ≡ (element_of element).quaternary }
{
    (element.non_primary().bits() >> 6) & 0x3
}

/// The case of an element that has a secondary, and at `Primary` a primary too; with upper case first exchanged.
pub(super) fn case_at(options: &ResolvedCollatorOptions, element: CountedElement) -> Option<u32>
    ensures { result ≡ case_at options.now (counted_of element) }
{
    let CountedElement::Whole(element) = element else {
        return None;
    };
    let is_accent = element.primary() == 0;
    if element.secondary() == 0 || (is_accent && options.strength == Strength::Primary) {
        return None;
    }
    let case = case_of(element);
    match options.case_first {
        CollationCaseFirst::Upper => Some(2u32.saturating_sub(case)),
        CollationCaseFirst::Lower | CollationCaseFirst::False => Some(case),
    }
}

/// Whether the tertiary level counts case: with case first, and without a level for case.
pub(crate) fn has_case_bits(options: &ResolvedCollatorOptions) -> bool
    ensures { result ≡ has_case_bits options.now }
{
    match (options.case_first, options.case_level) {
        (CollationCaseFirst::False, _) => false,
        (_, CaseLevel::On) => false,
        (_, CaseLevel::Off) => true,
    }
}

/// The tertiary of an element with its case above it; with upper case first this is exchanged, and an element without a
/// secondary is above all others.
fn tertiary_with_case(case_first: CollationCaseFirst, element: CollationElement) -> u32
    ensures { result ≡ tertiary_with_case case_first (element_of element) }
{
    let case = case_of(element);
    let tertiary = tertiary_of(element);
    match case_first {
        CollationCaseFirst::Upper => {
            if element.secondary() == 0 {
                case * CASE_STEP + tertiary + CASE_STEP
            } else {
                (3 - case) * CASE_STEP + tertiary
            }
        }
        CollationCaseFirst::Lower | CollationCaseFirst::False => case * CASE_STEP + tertiary,
    }
}

/// The tertiary of an element; `None` for one that has none, or is variable.
#[inline(always)]
pub(crate) fn plain_tertiary_at(element: CountedElement) -> Option<u32>
    ensures bound { IfSome result (λ weight. weight < 0x4000) }
    ensures weight { (options : ResolvedCollatorOptions) → has_case_bits options ≡ false → result ≡ tertiary_at options (counted_of element) }
{
    match element {
        CountedElement::Whole(element) => {
            let tertiary = tertiary_of(element);
            if tertiary == 0 { None } else { Some(tertiary) }
        }
        CountedElement::Variable(_) => None,
    }
}

/// Whether an element has the common tertiary.
#[inline(always)]
pub(crate) fn has_common_tertiary(element: CountedElement) -> bool
    ensures { result ≡ true → (options : ResolvedCollatorOptions) → has_case_bits options ≡ false
        → tertiary_at options (counted_of element) ≡ Some 0x500 }
{
    match element {
        CountedElement::Whole(element) => tertiary_of(element) == u32::from(COMMON_WEIGHT),
        CountedElement::Variable(_) => false,
    }
}

/// The weight of an element at the tertiary level; `None` for one that has no tertiary, or is variable.
pub(crate) fn tertiary_at(options: &ResolvedCollatorOptions, element: CountedElement) -> Option<u32>
    ensures { result ≡ tertiary_at options.now (counted_of element) }
{
    let CountedElement::Whole(element) = element else {
        return None;
    };
    let tertiary = tertiary_of(element);
    if tertiary == 0 {
        None
    } else if has_case_bits(options) {
        Some(tertiary_with_case(options.case_first, element))
    } else {
        Some(tertiary)
    }
}

/// The rank at the quaternary level: the primary of a variable element, as it is reordered, or above all these the
/// quaternary of one that has a tertiary.
#[inline(always)]
pub(crate) fn quaternary_rank_at(
    checked: &CheckedTables<'_>,
    element: CountedElement,
) -> Option<u64>
    ensures rank { result ≡ option_map quaternary_rank (quaternary_at (source_collation checked.now) (counted_of element)) }
    ensures bound { IfSome result (λ rank. ltb rank (2 ^ 32 + 4) ≡ true) }
    ensures small { gives_small_place (quaternary_at (source_collation checked.now) (counted_of element)) ≡ true }
{
    match element {
        CountedElement::Whole(element) => {
            if tertiary_of(element) == 0 {
                None
            } else {
                Some(FIRST_QUATERNARY_RANK + u64::from(quaternary_of(element)))
            }
        }
        CountedElement::Variable(primary) => Some(u64::from(reordered(checked.tables(), primary))),
    }
}

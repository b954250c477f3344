//! The comparison of elements by their secondaries and tertiaries in one walk.

ghost use Rattle.std.specs.Prelude.{◌≡◌, ◌≤◌, ◌⊎◌, IfOk, IfSome, drop, length, true};
ghost use Rattle.std.specs.declared.cmp.Ordering.TheVariants.{Equal};
ghost use Rattle.icu_collator_types.specs.declared.options.ResolvedCollatorOptions.{ResolvedCollatorOptions};
ghost use Rattle.icu_collator.specs.Collators.{source_collation};
ghost use Rattle.icu_collator.specs.FlatOrders.{AreOrders, HasTwoLevels, weights_order};
ghost use Rattle.icu_collator.specs.TextsRead.{order_from_secondaries};

use super::orders::compare_from_secondaries;
use crate::levels::counted_elements::CountedElement;
use crate::levels::weights::{secondary_rank_at, tertiary_at};
use crate::read_texts::ReadText;
use icu_collator_core::checked::CheckedTables;
use icu_collator_types::elements::CollationElement;
use icu_collator_types::options::{CaseLevel, ResolvedCollatorOptions, Strength};
use std::alloc::{AllocError, Global};
use std::cmp::Ordering;

/// The orders of two elements by their secondaries and by their tertiaries; `None` where one lacks one of these.
#[inline(always)]
fn orders_of(
    options: &ResolvedCollatorOptions,
    first: CollationElement,
    second: CollationElement,
) -> Option<(Ordering, Ordering)>
    ensures { IfSome result (λ orders. AreOrders options.now first second orders.0 orders.1) }
{
    let secondary = secondary_rank_at(CountedElement::Whole(first))?;
    let other = secondary_rank_at(CountedElement::Whole(second))?;
    let tertiary = tertiary_at(options, CountedElement::Whole(first))?;
    let further = tertiary_at(options, CountedElement::Whole(second))?;
    Some((secondary.cmp(&other), tertiary.cmp(&further)))
}

/// The order of two lists of elements from an index on where one of them ends, and up to which their tertiaries have this order;
/// `None` where the next element of the other has no secondary.
#[inline(always)]
fn order_at_end(
    known: Ordering,
    left: &[CollationElement],
    right: &[CollationElement],
    index: usize,
) -> Option<Ordering>
    requires left_within { index ≤ length left.now }
    requires right_within { index ≤ length right.now }
    requires ended { (index ≡ length left.now) ⊎ (index ≡ length right.now) }
    ensures { IfSome result (λ order. (options : ResolvedCollatorOptions)
        → order ≡ weights_order options known (drop index left.now) (drop index right.now)) }
{
    if index < left.len() {
        let _rank = secondary_rank_at(CountedElement::Whole(left[index]))?;
        return Some(Ordering::Greater);
    }
    if index < right.len() {
        let _rank = secondary_rank_at(CountedElement::Whole(right[index]))?;
        return Some(Ordering::Less);
    }
    Some(known)
}

/// The order of two lists of elements by their secondaries, then by their tertiaries; `None` where elements at one index differ and
/// one lacks one of these.
#[inline(always)]
fn order_by_weights(
    options: &ResolvedCollatorOptions,
    left: &[CollationElement],
    right: &[CollationElement],
) -> Option<Ordering>
    ensures { IfSome result (λ order. order ≡ weights_order options.now Equal left.now right.now) }
{
    let common = left.len().min(right.len());
    let mut known = Ordering::Equal;
    for index in 0..common {
        let first = left[index];
        let second = right[index];
        if first != second {
            let (secondary, tertiary) = orders_of(options, first, second)?;
            if secondary != Ordering::Equal {
                return Some(secondary);
            }
            known = known.then(tertiary);
        }
    }
    let order = order_at_end(known, left, right, common)?;
    Some(order)
}

/// Whether secondaries and tertiaries alone count after the primaries, both in the order of the text.
fn has_two_levels(checked: &CheckedTables<'_>, options: &ResolvedCollatorOptions) -> bool
    ensures { result ≡ true → HasTwoLevels (source_collation checked.now) options.now }
{
    let is_uncased = match options.case_level {
        CaseLevel::Off => true,
        CaseLevel::On => false,
    };
    is_uncased
        && options.strength.is_at_least(Strength::Tertiary)
        && !options.strength.is_at_least(Strength::Quaternary)
        && !checked.tables().metadata.backward_second_level()
}

/// By the secondaries, then the levels after them, where no element is variable. Fails only if memory is refused.
pub(super) fn compare_behind_primaries(
    alloc: Global,
    checked: &CheckedTables<'_>,
    options: &ResolvedCollatorOptions,
    left: ReadText<'_>,
    right: ReadText<'_>,
) -> Result<Ordering, AllocError>
    requires left_whole { left.variable_end ≡ 0 }
    requires right_whole { right.variable_end ≡ 0 }
    ensures { IfOk result (λ order. order ≡ order_from_secondaries (source_collation checked.now) options.now left.entry right.entry) }
{
    if has_two_levels(checked, options) {
        if let Some(order) = order_by_weights(options, left.elements, right.elements) {
            return Ok(order);
        }
    }
    let order = compare_from_secondaries(alloc, checked, options, left, right)?;
    Ok(order)
}

//! The comparison of two texts, each in its encoding.

ghost use Rattle.std.specs.Prelude.{◌≡◌, ◌≤◌, All, IfOk, drop, length};
ghost use Rattle.std.specs.Char.{IsScalar};
ghost use Rattle.icu_collator.specs.Collators.{source_collation};
ghost use Rattle.icu_collator.specs.Fronts.{PartAt};
ghost use Rattle.icu_collator.specs.Order.{collation_order};
ghost use Rattle.icu_collator.specs.ReadingStarts.{IsCommonStart};

use super::flat_texts::{compare_ahead, compare_flat};
use super::fronts::difference_and_boundary;
use super::orders::compare_read;
use super::stretched::compare_stretched;
use crate::common_front::{
    FirstDifference, behind, first_difference, order_by_difference, reading_start,
};
use crate::encodings::{Characters, PeekLow};
use crate::read_texts::read_text;
use icu_collator_core::checked::CheckedTables;
use icu_collator_types::options::ResolvedCollatorOptions;
use std::alloc::{AllocError, Global};
use std::cmp::Ordering;

/// The order of what stands in two texts after so many characters: both are read flat as far as it takes, or by their decomposed
/// lists. Fails only if memory is refused.
fn compare_behind<T: Characters, U: Characters>(
    alloc: Global,
    checked: &CheckedTables<'_>,
    options: &ResolvedCollatorOptions,
    left: T,
    right: U,
    index: usize,
) -> Result<Ordering, AllocError>
    requires left_reaches { index ≤ length (T.characters left) }
    requires right_reaches { index ≤ length (U.characters right) }
    ensures { IfOk result (λ order. order ≡ collation_order (source_collation checked.now) options.now (drop index (T.characters left)) (drop index (U.characters right))) }
{
    if index != 0 {
        let answer = compare_flat(alloc, checked, options, left, right, index)?;
        if let Some(order) = answer {
            return Ok(order);
        }
    }
    let lefts = read_text(alloc, checked, options, behind(left.chars(), index))?;
    let rights = read_text(alloc, checked, options, behind(right.chars(), index))?;
    let order = compare_read(alloc, checked, options, lefts.as_read(), rights.as_read())?;
    Ok(order)
}

/// The order of two texts that first differ there, where that doesn't decide it: what they have in common is left out
/// as far as it may be. Fails only if memory is refused.
fn compare_past<T: Characters, U: Characters>(
    alloc: Global,
    checked: &CheckedTables<'_>,
    options: &ResolvedCollatorOptions,
    left: T,
    right: U,
    difference: FirstDifference,
) -> Result<Ordering, AllocError>
    requires left_scalars { All IsScalar (T.characters left) }
    requires right_scalars { All IsScalar (U.characters right) }
    requires parts { PartAt (T.characters left) (U.characters right) difference.common difference.left difference.right }
    ensures { IfOk result (λ order. order ≡ collation_order (source_collation checked.now) options.now (T.characters left) (U.characters right)) }
{
    let index = reading_start(checked, options, left, difference.common);
    let order = compare_behind(alloc, checked, options, left, right, index)?;
    Ok(order)
}

/// Whether a look tells that a text in UTF-8 may begin with a Hangul syllable: there the first letters that differ tell sooner than a
/// look ahead.
#[inline(always)]
fn may_begin_with_syllable<T: Characters>(text: T) -> bool {
    let chars = text.chars();
    (0xEA..0xEE).contains(&chars.peek_low())
}

/// The order of two texts, each read with a look at the next character; or where they first differ, or by reading both from an index
/// before that. Fails only if memory is refused.
#[inline(never)]
fn compare_by_difference<T: Characters, U: Characters>(
    alloc: Global,
    checked: &CheckedTables<'_>,
    options: &ResolvedCollatorOptions,
    left: T,
    right: U,
) -> Result<Ordering, AllocError>
    ensures { IfOk result (λ order. order ≡ collation_order (source_collation checked.now) options.now (T.characters left) (U.characters right)) }
{
    if !may_begin_with_syllable(left) {
        if let Some(order) = compare_ahead(alloc, checked, options, left, right)? {
            return Ok(order);
        }
    }
    let (difference, boundary) = difference_and_boundary(checked, left.chars(), right.chars());
    if let Some(order) = order_by_difference(checked, options, difference) {
        return Ok(order);
    }
    match compare_stretched(alloc, checked, options, boundary)? {
        Some(order) => Ok(order),
        None => {
            let order = compare_past(alloc, checked, options, left, right, difference)?;
            Ok(order)
        }
    }
}

/// The order of two texts: both are read flat as far as their primaries are the same, or else by their first difference. Fails
/// only if memory is refused.
pub(crate) fn compare_texts<T: Characters, U: Characters>(
    alloc: Global,
    checked: &CheckedTables<'_>,
    options: &ResolvedCollatorOptions,
    left: T,
    right: U,
) -> Result<Ordering, AllocError>
    ensures { IfOk result (λ order. order ≡ collation_order (source_collation checked.now) options.now (T.characters left) (U.characters right)) }
{
    match compare_flat(alloc, checked, options, left, right, 0)? {
        Some(order) => Ok(order),
        None => {
            let order = compare_by_difference(alloc, checked, options, left, right)?;
            Ok(order)
        }
    }
}

/// The index from which two texts are read where their first difference doesn't decide, in characters of each. No memory
/// is taken.
pub(crate) fn common_start<T: Characters, U: Characters>(
    checked: &CheckedTables<'_>,
    options: &ResolvedCollatorOptions,
    left: T,
    right: U,
) -> usize
    ensures { IsCommonStart (source_collation checked.now) options.now (T.characters left) (U.characters right) result }
{
    let difference = first_difference(left.chars(), right.chars());
    reading_start(checked, options, left, difference.common)
}

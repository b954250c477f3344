//! The comparison of two texts that are read flat: by their primaries, then by the elements after these.

ghost use Rattle.std.specs.Prelude.{◌≡◌, ◌≤◌, IfOk, IfSome, drop, false, length};
ghost use Rattle.icu_collator.specs.Collators.{source_collation};
ghost use Rattle.icu_collator_types.specs.Options.{is_shifted};
ghost use Rattle.icu_collator.specs.FlatOrders.{HaveSamePrimaries};
ghost use Rattle.icu_collator.specs.Order.{collation_order};

use super::aheads::by_aheads;
use super::flat::{ByPrimaries, by_characters, by_primaries};
use super::weights::compare_behind_primaries;
use crate::common_front::behind;
use crate::encodings::Characters;
use crate::levels::counted_elements::variable_end;
use crate::read_texts::{ReadText, is_unshifted, numeric_lead, read_elements};
use icu_collator_core::checked::CheckedTables;
use icu_collator_core::flat::FlatElements;
use icu_collator_types::options::{ResolvedCollatorOptions, Strength};
use std::alloc::{AllocError, Global};
use std::cmp::Ordering;

/// How many elements of each text are kept for the levels after the primaries.
const KEPT: usize = 64;

/// The order of what stands in two texts with the same primaries after so many characters, by the levels after these, if both
/// can be read flat or by stretches and have few elements: `None` for others, and at `Identical`. Fails only if memory is refused.
#[inline(never)]
fn compare_kept<T: Characters, U: Characters>(
    alloc: Global,
    checked: &CheckedTables<'_>,
    options: &ResolvedCollatorOptions,
    left: T,
    right: U,
    index: usize,
) -> Result<Option<Ordering>, AllocError>
    requires left_reaches { index ≤ length (T.characters left) }
    requires right_reaches { index ≤ length (U.characters right) }
    requires unshifted { is_shifted options.now.alternate_handling ≡ false }
    requires same { HaveSamePrimaries (source_collation checked.now) options.now (drop index (T.characters left)) (drop index (U.characters right)) }
    ensures { IfOk result (λ answer. IfSome answer (λ order.
        order ≡ collation_order (source_collation checked.now) options.now (drop index (T.characters left)) (drop index (U.characters right)))) }
{
    if options.strength.is_at_least(Strength::Identical) {
        return Ok(None);
    }
    let numeric = numeric_lead(checked, options);
    let mut lefts = FlatElements::<KEPT>::new();
    let mut rights = FlatElements::<KEPT>::new();
    if !read_elements(alloc, checked, numeric, left, index, &mut lefts)? {
        return Ok(None);
    }
    if !read_elements(alloc, checked, numeric, right, index, &mut rights)? {
        return Ok(None);
    }
    let left = ReadText {
        elements: lefts.as_slice(),
        variable_end: 0,
        characters: &[],
    };
    let right = ReadText {
        elements: rights.as_slice(),
        variable_end: 0,
        characters: &[],
    };
    let order = compare_behind_primaries(alloc, checked, options, left, right)?;
    Ok(Some(order))
}

/// The order of what stands in two texts after so many characters, if both are read flat up to primaries that count and differ, where
/// variable elements are shifted: `None` for others. No memory is taken.
#[inline(never)]
fn compare_shifted<T: Characters, U: Characters>(
    checked: &CheckedTables<'_>,
    options: &ResolvedCollatorOptions,
    left: T,
    right: U,
    index: usize,
) -> Option<Ordering>
    requires left_reaches { index ≤ length (T.characters left) }
    requires right_reaches { index ≤ length (U.characters right) }
    ensures { IfSome result (λ order.
        order ≡ collation_order (source_collation checked.now) options.now (drop index (T.characters left)) (drop index (U.characters right))) }
{
    let numeric = numeric_lead(checked, options);
    let end = variable_end(checked, options);
    let lefts = behind(left.chars(), index);
    let rights = behind(right.chars(), index);
    match by_primaries(checked, end, numeric, lefts, rights) {
        ByPrimaries::Decided(order) => Some(order),
        ByPrimaries::NotFlat => None,
        ByPrimaries::Same => None,
    }
}

/// The order of what stands in two texts after so many characters, if both are read flat as far as it takes: `None` for
/// others. Fails only if memory is refused.
#[inline(always)]
pub(super) fn compare_flat<T: Characters, U: Characters>(
    alloc: Global,
    checked: &CheckedTables<'_>,
    options: &ResolvedCollatorOptions,
    left: T,
    right: U,
    index: usize,
) -> Result<Option<Ordering>, AllocError>
    requires left_reaches { index ≤ length (T.characters left) }
    requires right_reaches { index ≤ length (U.characters right) }
    ensures { IfOk result (λ answer. IfSome answer (λ order.
        order ≡ collation_order (source_collation checked.now) options.now (drop index (T.characters left)) (drop index (U.characters right)))) }
{
    if !is_unshifted(options) {
        return Ok(compare_shifted(checked, options, left, right, index));
    }
    let numeric = numeric_lead(checked, options);
    let lefts = behind(left.chars(), index);
    let rights = behind(right.chars(), index);
    match by_characters(checked, 0, numeric, lefts, rights) {
        ByPrimaries::Decided(order) => Ok(Some(order)),
        ByPrimaries::NotFlat => Ok(None),
        ByPrimaries::Same => {
            let answer = compare_kept(alloc, checked, options, left, right, index)?;
            Ok(answer)
        }
    }
}

/// The order of two texts, if both are read with a look at the next character as far as it takes: `None` for others, and where numbers
/// are read. Fails only if memory is refused.
#[inline(never)]
pub(super) fn compare_ahead<T: Characters, U: Characters>(
    alloc: Global,
    checked: &CheckedTables<'_>,
    options: &ResolvedCollatorOptions,
    left: T,
    right: U,
) -> Result<Option<Ordering>, AllocError>
    ensures { IfOk result (λ answer. IfSome answer (λ order.
        order ≡ collation_order (source_collation checked.now) options.now (T.characters left) (U.characters right))) }
{
    let numeric = numeric_lead(checked, options);
    if numeric.is_some() {
        return Ok(None);
    }
    let end = variable_end(checked, options);
    match by_aheads(checked, end, numeric, left.chars(), right.chars()) {
        ByPrimaries::Decided(order) => Ok(Some(order)),
        ByPrimaries::NotFlat => Ok(None),
        ByPrimaries::Same => {
            if !is_unshifted(options) {
                return Ok(None);
            }
            let answer = compare_kept(alloc, checked, options, left, right, 0)?;
            Ok(answer)
        }
    }
}

//! The comparison of texts by the lists of their elements, at all levels.

ghost use Rattle.std.specs.Prelude.{◌≡◌, ℕ, [], List, IfOk, IfSome, false, true};
ghost use Rattle.icu_collator_types.specs.Options.{is_at_least};
ghost use Rattle.icu_collator_types.specs.declared.elements.Element.{Element};
ghost use Rattle.icu_collator_types.specs.declared.options.Strength.TheVariants.{Identical};
ghost use Rattle.icu_collator_core.specs.Collation.{Collation};
ghost use Rattle.icu_collator_core.specs.ElementLists.{unpacked};
ghost use Rattle.icu_collator.specs.Collators.{source_collation};
ghost use Rattle.icu_collator.specs.CommonBoundaries.{AreElementsBehind, CountApart, elements_order};
ghost use Rattle.icu_collator.specs.LevelLists.{counted_list};
ghost use Rattle.icu_collator.specs.Order.{collation_order};
ghost use Rattle.icu_collator.specs.Shifted.{counted};

use super::orders::compare_read;
use crate::levels::counted_elements::{kept, variable_end};
use crate::read_texts::{ReadText, is_unshifted};
use icu_collator_core::checked::CheckedTables;
use icu_collator_types::elements::CollationElement;
use icu_collator_types::options::{ResolvedCollatorOptions, Strength};
use std::alloc::{AllocError, Global};
use std::cmp::Ordering;

/// The order of two lists of elements by those that count, below `Identical`. Fails only if memory is refused.
fn compare_counted(
    alloc: Global,
    checked: &CheckedTables<'_>,
    options: &ResolvedCollatorOptions,
    lefts: &[CollationElement],
    rights: &[CollationElement],
    variable_end: u32,
) -> Result<Ordering, AllocError>
    requires inexact { is_at_least options.now.strength Identical ≡ false }
    ensures { IfOk result (λ order. (es fs : List Element)
        → counted_list variable_end lefts.now ≡ counted (source_collation checked.now) options.now es
        → counted_list variable_end rights.now ≡ counted (source_collation checked.now) options.now fs
        → order ≡ elements_order (source_collation checked.now) options.now es fs) }
{
    let left = ReadText {
        elements: lefts,
        variable_end,
        characters: &[],
    };
    let right = ReadText {
        elements: rights,
        variable_end,
        characters: &[],
    };
    let order = compare_read(alloc, checked, options, left, right)?;
    Ok(order)
}

/// The order of two lists of elements, below `Identical`: where some may be variable, those that count are kept. Fails only if
/// memory is refused.
fn compare_elements(
    alloc: Global,
    checked: &CheckedTables<'_>,
    options: &ResolvedCollatorOptions,
    lefts: &[CollationElement],
    rights: &[CollationElement],
) -> Result<Ordering, AllocError>
    requires inexact { is_at_least options.now.strength Identical ≡ false }
    ensures { IfOk result (λ order. order ≡ elements_order (source_collation checked.now) options.now (unpacked lefts.now) (unpacked rights.now)) }
{
    let end = variable_end(checked, options);
    if end == 0 {
        let order = compare_counted(alloc, checked, options, lefts, rights, 0)?;
        return Ok(order);
    }
    let lefts = kept(alloc, lefts, end)?;
    let rights = kept(alloc, rights, end)?;
    let order = compare_counted(alloc, checked, options, &lefts, &rights, end)?;
    Ok(order)
}

/// Whether elements count as they do by themselves, whatever stands before them: none is shifted, or the first has a primary.
fn counts_apart(options: &ResolvedCollatorOptions, elements: &[CollationElement]) -> bool
    ensures { result ≡ true → (collation : Collation) → CountApart collation options.now (unpacked elements.now) }
{
    if is_unshifted(options) {
        return true;
    }
    match elements.first() {
        Some(first) => first.primary() != 0,
        None => true,
    }
}

/// Whether the levels of texts with a front in common compare as those of what stands after it, where these are its elements.
fn may_leave_front(
    checked: &CheckedTables<'_>,
    options: &ResolvedCollatorOptions,
    lefts: &[CollationElement],
    rights: &[CollationElement],
) -> bool
    ensures forward { result ≡ true → (source_collation checked.now).backward ≡ false }
    ensures left { result ≡ true → CountApart (source_collation checked.now) options.now (unpacked lefts.now) }
    ensures right { result ≡ true → CountApart (source_collation checked.now) options.now (unpacked rights.now) }
{
    if checked.tables().metadata.backward_second_level() {
        return false;
    }
    if !counts_apart(options, lefts) {
        return false;
    }
    counts_apart(options, rights)
}

/// The order of two texts that end with these elements after a front that they have in common, which is empty where they are
/// whole: `None` at `Identical`, and where the front counts. Fails only if memory is refused.
#[inline(never)]
pub(super) fn compare_elements_behind(
    alloc: Global,
    checked: &CheckedTables<'_>,
    options: &ResolvedCollatorOptions,
    lefts: &[CollationElement],
    rights: &[CollationElement],
    is_whole: bool,
) -> Result<Option<Ordering>, AllocError>
    ensures { IfOk result (λ answer. IfSome answer (λ order. (front a b : List ℕ) → (is_whole ≡ true → front ≡ [])
        → AreElementsBehind (source_collation checked.now) options.now front a lefts.now
        → AreElementsBehind (source_collation checked.now) options.now front b rights.now
        → order ≡ collation_order (source_collation checked.now) options.now a b)) }
{
    if options.strength.is_at_least(Strength::Identical) {
        return Ok(None);
    }
    if is_whole {
        let order = compare_elements(alloc, checked, options, lefts, rights)?;
        return Ok(Some(order));
    }
    if !may_leave_front(checked, options, lefts, rights) {
        return Ok(None);
    }
    let order = compare_elements(alloc, checked, options, lefts, rights)?;
    Ok(Some(order))
}

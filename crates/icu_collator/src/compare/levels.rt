//! How two texts that were read compare at each level, `Equal` where the level isn't in force. The lists of a level are
//! made only where it is, and has to have them.

ghost use Rattle.std.specs.Prelude.{◌≡◌, IfOk, filter_map, map};
ghost use Rattle.icu_collator.specs.Collators.{source_collation};
ghost use Rattle.icu_collator.specs.LevelLists.{secondary_ranks};
ghost use Rattle.icu_collator.specs.Levels.{secondary_at};
ghost use Rattle.icu_collator.specs.Order.{character_rank, secondary_rank};
ghost use Rattle.icu_collator.specs.TextsRead.{counted_in, lists_order, read_cases_order, read_characters_order, read_primaries_order, read_quaternaries_order, read_secondaries_order, read_tertiaries_order};

use crate::levels::level_lists::{cases, quaternaries, secondaries};
use crate::levels::turns::order_given;
use crate::levels::weights::{primary_at, secondary_rank_at, tertiary_at};
use crate::read_texts::ReadText;
use icu_collator_core::checked::CheckedTables;
use icu_collator_types::options::{CaseLevel, ResolvedCollatorOptions, Strength};
use smallvec::SmallVec;
use std::alloc::{AllocError, Global};
use std::cmp::Ordering;

/// By the primaries.
pub(super) fn compare_primaries(
    checked: &CheckedTables<'_>,
    left: ReadText<'_>,
    right: ReadText<'_>,
) -> Ordering
    ensures { result ≡ read_primaries_order (source_collation checked.now) left.entry right.entry }
{
    order_given(
        left.elements,
        left.variable_end,
        right.elements,
        right.variable_end,
        |element| primary_at(checked, element),
    )
}

/// By the secondaries, where they are read backward. Fails only if memory is refused.
fn compare_backward(
    alloc: Global,
    checked: &CheckedTables<'_>,
    left: ReadText<'_>,
    right: ReadText<'_>,
) -> Result<Ordering, AllocError>
    ensures { IfOk result (λ order. order ≡ lists_order
        (secondary_ranks (source_collation checked.now) (counted_in left.entry)) (secondary_ranks (source_collation checked.now) (counted_in right.entry))) }
{
    let lefts = secondaries(alloc, checked, left.elements, left.variable_end)?;
    let rights = secondaries(alloc, checked, right.elements, right.variable_end)?;
    Ok(lefts.cmp(&rights))
}

/// By the secondaries in the order of the text.
fn compare_forward(left: ReadText<'_>, right: ReadText<'_>) -> Ordering
    ensures { result ≡ lists_order (map secondary_rank (filter_map secondary_at (counted_in left.entry))) (map secondary_rank (filter_map secondary_at (counted_in right.entry))) }
{
    order_given(
        left.elements,
        left.variable_end,
        right.elements,
        right.variable_end,
        secondary_rank_at,
    )
}

/// By the secondaries. Fails only if memory is refused.
pub(super) fn compare_secondaries(
    alloc: Global,
    checked: &CheckedTables<'_>,
    options: &ResolvedCollatorOptions,
    left: ReadText<'_>,
    right: ReadText<'_>,
) -> Result<Ordering, AllocError>
    ensures { IfOk result (λ order. order ≡ read_secondaries_order (source_collation checked.now) options.now left.entry right.entry) }
{
    if !options.strength.is_at_least(Strength::Secondary) {
        return Ok(Ordering::Equal);
    }
    if checked.tables().metadata.backward_second_level() {
        let order = compare_backward(alloc, checked, left, right)?;
        return Ok(order);
    }
    Ok(compare_forward(left, right))
}

/// By the cases. Fails only if memory is refused.
pub(super) fn compare_cases(
    alloc: Global,
    options: &ResolvedCollatorOptions,
    left: ReadText<'_>,
    right: ReadText<'_>,
) -> Result<Ordering, AllocError>
    ensures { IfOk result (λ order. order ≡ read_cases_order options.now left.entry right.entry) }
{
    match options.case_level {
        CaseLevel::Off => Ok(Ordering::Equal),
        CaseLevel::On => {
            let lefts = cases(alloc, options, left.elements, left.variable_end)?;
            let rights = cases(alloc, options, right.elements, right.variable_end)?;
            Ok(lefts.cmp(&rights))
        }
    }
}

/// By the weights at the tertiary level.
pub(super) fn compare_tertiaries(
    options: &ResolvedCollatorOptions,
    left: ReadText<'_>,
    right: ReadText<'_>,
) -> Ordering
    ensures { result ≡ read_tertiaries_order options.now left.entry right.entry }
{
    if !options.strength.is_at_least(Strength::Tertiary) {
        return Ordering::Equal;
    }
    order_given(
        left.elements,
        left.variable_end,
        right.elements,
        right.variable_end,
        |element| tertiary_at(options, element),
    )
}

/// By the quaternaries, shifted primaries among them. Fails only if memory is refused.
pub(super) fn compare_quaternaries(
    alloc: Global,
    checked: &CheckedTables<'_>,
    options: &ResolvedCollatorOptions,
    left: ReadText<'_>,
    right: ReadText<'_>,
) -> Result<Ordering, AllocError>
    ensures { IfOk result (λ order. order ≡ read_quaternaries_order (source_collation checked.now) options.now left.entry right.entry) }
{
    if !options.strength.is_at_least(Strength::Quaternary) {
        return Ok(Ordering::Equal);
    }
    let lefts = quaternaries(alloc, checked, left.elements, left.variable_end)?;
    let rights = quaternaries(alloc, checked, right.elements, right.variable_end)?;
    Ok(lefts.cmp(&rights))
}

/// The rank of a character: U+FFFE is below all others.
fn character_rank(c: char) -> u32
    ensures { result ≡ character_rank c }
{
    let code = c as u32;
    if code == 0xfffe { 0 } else { code + 1 }
}

/// The ranks of characters. Fails only if memory is refused.
fn character_ranks(alloc: Global, list: &[char]) -> Result<SmallVec<u32, 64>, AllocError>
    ensures { IfOk result (λ ranks. ranks.items ≡ map character_rank list.now) }
{
    let mut ranks = SmallVec::new(alloc);
    for c in list {
        ranks.push(character_rank(*c))?;
    }
    Ok(ranks)
}

/// By the characters of the decomposed lists. Fails only if memory is refused.
pub(super) fn compare_listed_characters(
    alloc: Global,
    options: &ResolvedCollatorOptions,
    left: ReadText<'_>,
    right: ReadText<'_>,
) -> Result<Ordering, AllocError>
    ensures { IfOk result (λ order. order ≡ read_characters_order options.now left.entry right.entry) }
{
    if !options.strength.is_at_least(Strength::Identical) {
        return Ok(Ordering::Equal);
    }
    let lefts = character_ranks(alloc, left.characters)?;
    let rights = character_ranks(alloc, right.characters)?;
    Ok(lefts.cmp(&rights))
}

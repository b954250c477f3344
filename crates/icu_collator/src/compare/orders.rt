//! The comparison of two texts that were read: level by level, the first that differs decides.

ghost use Rattle.std.specs.Prelude.{◌≡◌, IfOk};
ghost use Rattle.icu_collator.specs.Collators.{source_collation};
ghost use Rattle.icu_collator.specs.TextsRead.{order_from_cases, order_from_quaternaries, order_from_secondaries, order_from_tertiaries, read_order};

use super::levels::{
    compare_cases, compare_listed_characters, compare_primaries, compare_quaternaries,
    compare_secondaries, compare_tertiaries,
};
use crate::read_texts::ReadText;
use icu_collator_core::checked::CheckedTables;
use icu_collator_types::options::ResolvedCollatorOptions;
use std::alloc::{AllocError, Global};
use std::cmp::Ordering;

/// By the quaternaries, then the characters. Fails only if memory is refused.
#[tactic(auto, unfolding(crate::specs::TextsRead::order_from_quaternaries))]
fn compare_from_quaternaries(
    alloc: Global,
    checked: &CheckedTables<'_>,
    options: &ResolvedCollatorOptions,
    left: ReadText<'_>,
    right: ReadText<'_>,
) -> Result<Ordering, AllocError>
    ensures { IfOk result (λ order. order ≡ order_from_quaternaries (source_collation checked.now) options.now left.entry right.entry) }
{
    match compare_quaternaries(alloc, checked, options, left, right)? {
        Ordering::Less => Ok(Ordering::Less),
        Ordering::Greater => Ok(Ordering::Greater),
        Ordering::Equal => {
            let order = compare_listed_characters(alloc, options, left, right)?;
            Ok(order)
        }
    }
}

/// By the tertiary level, then those after it. Fails only if memory is refused.
#[tactic(auto, unfolding(crate::specs::TextsRead::order_from_tertiaries))]
fn compare_from_tertiaries(
    alloc: Global,
    checked: &CheckedTables<'_>,
    options: &ResolvedCollatorOptions,
    left: ReadText<'_>,
    right: ReadText<'_>,
) -> Result<Ordering, AllocError>
    ensures { IfOk result (λ order. order ≡ order_from_tertiaries (source_collation checked.now) options.now left.entry right.entry) }
{
    match compare_tertiaries(options, left, right) {
        Ordering::Less => Ok(Ordering::Less),
        Ordering::Greater => Ok(Ordering::Greater),
        Ordering::Equal => {
            let order = compare_from_quaternaries(alloc, checked, options, left, right)?;
            Ok(order)
        }
    }
}

/// By the cases, then the levels after them. Fails only if memory is refused.
#[tactic(auto, unfolding(crate::specs::TextsRead::order_from_cases))]
fn compare_from_cases(
    alloc: Global,
    checked: &CheckedTables<'_>,
    options: &ResolvedCollatorOptions,
    left: ReadText<'_>,
    right: ReadText<'_>,
) -> Result<Ordering, AllocError>
    ensures { IfOk result (λ order. order ≡ order_from_cases (source_collation checked.now) options.now left.entry right.entry) }
{
    match compare_cases(alloc, options, left, right)? {
        Ordering::Less => Ok(Ordering::Less),
        Ordering::Greater => Ok(Ordering::Greater),
        Ordering::Equal => {
            let order = compare_from_tertiaries(alloc, checked, options, left, right)?;
            Ok(order)
        }
    }
}

/// By the secondaries, then the levels after them. Fails only if memory is refused.
#[tactic(auto, unfolding(crate::specs::TextsRead::order_from_secondaries))]
pub(super) fn compare_from_secondaries(
    alloc: Global,
    checked: &CheckedTables<'_>,
    options: &ResolvedCollatorOptions,
    left: ReadText<'_>,
    right: ReadText<'_>,
) -> Result<Ordering, AllocError>
    ensures { IfOk result (λ order. order ≡ order_from_secondaries (source_collation checked.now) options.now left.entry right.entry) }
{
    match compare_secondaries(alloc, checked, options, left, right)? {
        Ordering::Less => Ok(Ordering::Less),
        Ordering::Greater => Ok(Ordering::Greater),
        Ordering::Equal => {
            let order = compare_from_cases(alloc, checked, options, left, right)?;
            Ok(order)
        }
    }
}

/// By all levels in turn. Fails only if memory is refused.
#[tactic(auto, unfolding(crate::specs::TextsRead::read_order))]
pub(super) fn compare_read(
    alloc: Global,
    checked: &CheckedTables<'_>,
    options: &ResolvedCollatorOptions,
    left: ReadText<'_>,
    right: ReadText<'_>,
) -> Result<Ordering, AllocError>
    ensures { IfOk result (λ order. order ≡ read_order (source_collation checked.now) options.now left.entry right.entry) }
{
    match compare_primaries(checked, left, right) {
        Ordering::Less => Ok(Ordering::Less),
        Ordering::Greater => Ok(Ordering::Greater),
        Ordering::Equal => {
            let order = compare_from_secondaries(alloc, checked, options, left, right)?;
            Ok(order)
        }
    }
}

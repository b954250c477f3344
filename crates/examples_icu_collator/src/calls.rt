//! Callers of a collator, each of which concludes by a law what its calls alone do not say.

ghost use Rattle.std.specs.Prelude.{◌≡◌, ◌++◌, ◌↔◌, ℕ, List, false, IfOk, IsTrue, string_bytes};
ghost use Rattle.std.specs.declared.cmp.Ordering.TheVariants.{Less, Equal};
ghost use Rattle.icu_normalizer_core.specs.Decoding.{utf8_chars};
ghost use Rattle.icu_normalizer.specs.Equivalence.{IsEquivalent};
ghost use Rattle.icu_collator_types.specs.declared.options.Strength.TheVariants.{Identical};
ghost use Rattle.icu_collator_types.specs.Options.{is_at_least};
ghost use Rattle.icu_collator.specs.CollatorAnswers.{DifferInNumber, DifferInStrength, HasKeysInOrder, ReadsNumbers, canonical_by, key_by, order_by, value_by};
ghost use Rattle.icu_collator.specs.Collators.{borrowed_options};

use icu_collator::laws::collators::{
    compare_is_a_total_preorder, equal_at_identical_is_canonical_equivalence,
    keys_order_as_compare, normalised_bytes_answer_alike, numbers_compare_by_value,
    raised_strength_keeps_answers, split_texts_have_whole_keys,
};
use icu_collator::{CollatorBorrowed, KeyError};
use icu_normalizer::decomposing::DecomposingNormalizerBorrowed;
use icu_normalizer::sinks::NormError;
use std::alloc::{AllocError, Global};
use std::cmp::Ordering;

/// Whether a first text is found below a third by way of one between them.
pub fn is_below_by_way_of(
    alloc: Global,
    collator: &CollatorBorrowed<'_>,
    first: &str,
    between: &str,
    third: &str,
) -> Result<bool, AllocError>
    ensures { IfOk result (λ is_below. IsTrue is_below → order_by collator.now (utf8_chars first.now) (utf8_chars third.now) ≡ Less) }
{
    let lower = collator.compare(alloc, first, between)?;
    let upper = collator.compare(alloc, between, third)?;
    compare_is_a_total_preorder(collator);
    Ok(lower == Ordering::Less && upper == Ordering::Less)
}

/// The key of a text.
fn key_of(
    alloc: Global,
    collator: &CollatorBorrowed<'_>,
    text: &[u8],
) -> Result<Vec<u8>, KeyError<AllocError>>
    ensures { IfOk result (λ key. key.items ≡ key_by collator.now (utf8_chars text.now)) }
{
    let mut key = Vec::new(alloc);
    collator.write_sort_key_utf8_to(alloc, text, &mut key)?;
    Ok(key)
}

/// How two texts compare, by the bytes of their keys alone. It is as `compare_utf8` answers where keys order as texts do.
pub fn compare_by_keys(
    alloc: Global,
    collator: &CollatorBorrowed<'_>,
    left: &[u8],
    right: &[u8],
) -> Result<Ordering, KeyError<AllocError>>
    ensures { HasKeysInOrder collator.now
        → IfOk result (λ order. order ≡ order_by collator.now (utf8_chars left.now) (utf8_chars right.now)) }
{
    let left_key = key_of(alloc, collator, left)?;
    let right_key = key_of(alloc, collator, right)?;
    keys_order_as_compare(collator);
    Ok(left_key.as_slice().cmp(right_key.as_slice()))
}

/// Whether two texts are canonically equivalent, as a collator at strength `Identical` tells.
pub fn are_equivalent(
    alloc: Global,
    collator: &CollatorBorrowed<'_>,
    left: &[u8],
    right: &[u8],
) -> Result<bool, AllocError>
    ensures { (borrowed_options collator.now).strength ≡ Identical
        → IfOk result (λ are. IsTrue are ↔ IsEquivalent (canonical_by collator.now) (utf8_chars left.now) (utf8_chars right.now)) }
{
    let order = collator.compare_utf8(alloc, left, right)?;
    equal_at_identical_is_canonical_equivalence(collator);
    Ok(order == Ordering::Equal)
}

/// How two texts compare. With numbers by value they are equal where they differ in a number alone, and its values are the
/// same.
pub fn compare_versions(
    alloc: Global,
    collator: &CollatorBorrowed<'_>,
    left: &str,
    right: &str,
) -> Result<Ordering, AllocError>
    ensures { ReadsNumbers collator.now → is_at_least (borrowed_options collator.now).strength Identical ≡ false
        → (x r s y : List ℕ) → utf8_chars left.now ≡ x ++ (r ++ y) → utf8_chars right.now ≡ x ++ (s ++ y)
        → DifferInNumber collator.now x r s y → value_by collator.now r ≡ value_by collator.now s
        → IfOk result (λ order. order ≡ Equal) }
{
    let order = collator.compare(alloc, left, right)?;
    numbers_compare_by_value(collator);
    Ok(order)
}

/// The key of a text, made of its NFD by a normaliser over the collator's canonical data. It is the key of the text itself.
pub fn key_of_decomposed(
    alloc: Global,
    collator: &CollatorBorrowed<'_>,
    text: &[u8],
) -> Result<Vec<u8>, KeyError<AllocError>>
    ensures { IfOk result (λ key. key.items ≡ key_by collator.now (utf8_chars text.now)) }
{
    let normalizer = DecomposingNormalizerBorrowed::new_with_data(collator.canonical());
    let Ok(form) = normalizer.normalize_utf8(alloc, text) else {
        return Err(KeyError::Memory);
    };
    normalised_bytes_answer_alike(collator);
    key_of(alloc, collator, form.as_str().as_bytes())
}

/// A text that is decomposed from where it has to be, by a normaliser over the collator's canonical data. It has the key of
/// the text itself.
pub fn decompose_rest(
    alloc: Global,
    collator: &CollatorBorrowed<'_>,
    text: &[u8],
) -> Result<String, NormError<AllocError>>
    ensures { IfOk result (λ form. key_by collator.now (utf8_chars (string_bytes form)) ≡ key_by collator.now (utf8_chars text.now)) }
{
    let normalizer = DecomposingNormalizerBorrowed::new_with_data(collator.canonical());
    let (prefix, rest) = normalizer.split_normalized_utf8(text);
    let Ok(mut form) = String::from_str(alloc, prefix) else {
        return Err(NormError::Memory);
    };
    normalizer.normalize_utf8_to(alloc, rest, &mut form)?;
    split_texts_have_whole_keys(collator);
    Ok(form)
}

/// How two texts compare at the higher of two strengths: it is asked only where they are equal at the lower one.
pub fn compare_in_two_steps(
    alloc: Global,
    lower: &CollatorBorrowed<'_>,
    higher: &CollatorBorrowed<'_>,
    left: &str,
    right: &str,
) -> Result<Ordering, AllocError>
    ensures { DifferInStrength lower.now higher.now
        → IfOk result (λ order. order ≡ order_by higher.now (utf8_chars left.now) (utf8_chars right.now)) }
{
    let order = lower.compare(alloc, left, right)?;
    raised_strength_keeps_answers(lower, higher);
    if order != Ordering::Equal {
        return Ok(order);
    }
    let order = higher.compare(alloc, left, right)?;
    Ok(order)
}

//! Sort keys by the bytes of a records file: two keys order by their bytes, one against the other, as their texts do.
ghost use Rattle.std.specs.Prelude.{◌≡◌, IfSome};
ghost use Rattle.std.specs.Cmp.Lexicographic.{slice_cmp};
ghost use Rattle.std.specs.Ordering.{nat_cmp};
ghost use Rattle.icu_normalizer_core.specs.Decoding.{utf8_chars};
ghost use Rattle.icu_collator.specs.CollatorAnswers.{key_by};
ghost use Rattle.collate_laws.specs.Files.{HasPlainLeads, file_order};
ghost use Rattle.collate_records.specs.Files.{IsAccepted};

use crate::comparisons::collator_by_file;
use collate_laws::files::{collators_answer_as_the_file_says, file_keys_order_as_texts};
use icu_collator::laws::collators::characters_are_scalars;
use icu_collator::options::CollatorOptions;
use icu_collator::{CollatorBorrowed, CollatorPreferences};
use std::alloc::Global;
use std::cmp::Ordering;

/// The sort key of a text in UTF-8, whatever bytes it is, by a collator; `None` where memory is refused.
fn key_by_collator(alloc: Global, collator: &CollatorBorrowed<'_>, text: &[u8]) -> Option<Vec<u8>>
    ensures { IfSome result (λ key. key.items ≡ key_by collator.now (utf8_chars text.now)) }
{
    let mut key = Vec::new(alloc);
    collator.write_sort_key_utf8_to(alloc, text, &mut key).ok()?;
    Some(key)
}

/// How the bytes of two texts' sort keys compare.
fn order_of_keys(
    alloc: Global,
    collator: &CollatorBorrowed<'_>,
    left: &[u8],
    right: &[u8],
) -> Option<Ordering>
    ensures { IfSome result (λ order. order ≡ slice_cmp nat_cmp (key_by collator.now (utf8_chars left.now)) (key_by collator.now (utf8_chars right.now))) }
{
    let left_key = key_by_collator(alloc, collator, left)?;
    let right_key = key_by_collator(alloc, collator, right)?;
    Some(left_key.cmp(&right_key))
}

/// How the sort keys of two texts compare by a records file: as the texts do, where plain leads hold. `None` where the
/// file breaks a rule, or memory is refused.
pub fn key_order_by_file(
    alloc: Global,
    file: &[u8],
    preferences: CollatorPreferences<'_>,
    options: CollatorOptions,
    left: &[u8],
    right: &[u8],
) -> Option<Ordering>
    ensures accepted { IfSome result (λ _. IsAccepted file.now) }
    ensures order { IfSome result (λ order. HasPlainLeads file.now options preferences.entry
        → order ≡ file_order file.now options preferences.entry (utf8_chars left.now) (utf8_chars right.now)) }
{
    let collator = collator_by_file(alloc, file, preferences, options)?;
    let order = order_of_keys(alloc, &collator.as_borrowed(), left, right)?;
    collators_answer_as_the_file_says();
    file_keys_order_as_texts();
    characters_are_scalars();
    Some(order)
}

//! Texts of every encoding, compared by the bytes of a records file.
ghost use Rattle.std.specs.Prelude.{◌≡◌, IfSome};
ghost use Rattle.icu_normalizer_core.specs.Decoding.{latin1_chars, utf16_chars, utf8_chars};
ghost use Rattle.collate_laws.specs.Files.{file_order};
ghost use Rattle.collate_laws.specs.OverRecords.{IsCollatorOf};
ghost use Rattle.collate_lines.specs.Lines.{records_of};
ghost use Rattle.collate_records.specs.Files.{IsAccepted};

use collate_index::collators::collator_of;
use collate_laws::files::collators_answer_as_the_file_says;
use collate_records::records::Records;
use icu_collator::laws::collators::characters_are_scalars;
use icu_collator::options::CollatorOptions;
use icu_collator::{Collator, CollatorPreferences};
use std::alloc::Global;
use std::cmp::Ordering;

/// A collator over a records file; `None` where the file breaks a rule, or memory is refused.
pub fn collator_by_file(
    alloc: Global,
    file: &[u8],
    preferences: CollatorPreferences<'_>,
    options: CollatorOptions,
) -> Option<Collator<'static>>
    ensures accepted { IfSome result (λ _. IsAccepted file.now) }
    ensures collator { IfSome result (IsCollatorOf (records_of file.now) options preferences.entry) }
{
    let records = Records::read(alloc, file).ok()?;
    collator_of(alloc, &records, preferences, options).ok()
}

/// How two texts in UTF-8 order by a records file, whatever bytes they are.
pub fn bytes_order_by_file(
    alloc: Global,
    file: &[u8],
    preferences: CollatorPreferences<'_>,
    options: CollatorOptions,
    left: &[u8],
    right: &[u8],
) -> Option<Ordering>
    ensures accepted { IfSome result (λ _. IsAccepted file.now) }
    ensures order { IfSome result (λ order. order ≡ file_order file.now options preferences.entry (utf8_chars left.now) (utf8_chars right.now)) }
{
    let collator = collator_by_file(alloc, file, preferences, options)?;
    let order = collator
        .as_borrowed()
        .compare_utf8(alloc, left, right)
        .ok()?;
    collators_answer_as_the_file_says();
    characters_are_scalars();
    Some(order)
}

/// How two texts in UTF-16 order, whatever units they are.
pub fn units_order_by_file(
    alloc: Global,
    file: &[u8],
    preferences: CollatorPreferences<'_>,
    options: CollatorOptions,
    left: &[u16],
    right: &[u16],
) -> Option<Ordering>
    ensures accepted { IfSome result (λ _. IsAccepted file.now) }
    ensures order { IfSome result (λ order. order ≡ file_order file.now options preferences.entry (utf16_chars left.now) (utf16_chars right.now)) }
{
    let collator = collator_by_file(alloc, file, preferences, options)?;
    let order = collator
        .as_borrowed()
        .compare_utf16(alloc, left, right)
        .ok()?;
    collators_answer_as_the_file_says();
    characters_are_scalars();
    Some(order)
}

/// How two texts in Latin-1 order.
pub fn latin1_order_by_file(
    alloc: Global,
    file: &[u8],
    preferences: CollatorPreferences<'_>,
    options: CollatorOptions,
    left: &[u8],
    right: &[u8],
) -> Option<Ordering>
    ensures accepted { IfSome result (λ _. IsAccepted file.now) }
    ensures order { IfSome result (λ order. order ≡ file_order file.now options preferences.entry (latin1_chars left.now) (latin1_chars right.now)) }
{
    let collator = collator_by_file(alloc, file, preferences, options)?;
    let order = collator
        .as_borrowed()
        .compare_latin1(alloc, left, right)
        .ok()?;
    collators_answer_as_the_file_says();
    characters_are_scalars();
    Some(order)
}

/// How a text in Latin-1 and one in UTF-16 order.
pub fn latin1_units_order_by_file(
    alloc: Global,
    file: &[u8],
    preferences: CollatorPreferences<'_>,
    options: CollatorOptions,
    left: &[u8],
    right: &[u16],
) -> Option<Ordering>
    ensures accepted { IfSome result (λ _. IsAccepted file.now) }
    ensures order { IfSome result (λ order. order ≡ file_order file.now options preferences.entry (latin1_chars left.now) (utf16_chars right.now)) }
{
    let collator = collator_by_file(alloc, file, preferences, options)?;
    let order = collator
        .as_borrowed()
        .compare_latin1_utf16(alloc, left, right)
        .ok()?;
    collators_answer_as_the_file_says();
    characters_are_scalars();
    Some(order)
}

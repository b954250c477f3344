//! Texts that are normalised first, by the bytes of a records file: they order as before, and have the same keys.
ghost use Rattle.std.specs.Prelude.{◌≡◌, IfSome, string_bytes};
ghost use Rattle.icu_normalizer_core.specs.Decoding.{utf8_chars};
ghost use Rattle.icu_normalizer.specs.TextForms.{composed_text, decomposed_text};
ghost use Rattle.icu_collator_types.specs.Options.{resolved_options};
ghost use Rattle.icu_collator.specs.KeyBytes.{key_of_text};
ghost use Rattle.icu_collator.specs.Order.{collation_order};
ghost use Rattle.collate_laws.specs.Files.{file_key, file_order};
ghost use Rattle.collate_records.specs.Files.{IsAccepted};
ghost use Rattle.collate_rules.specs.Meaning.{canonical_of, collation_of, settings_of};

use collate_index::collators::collator_of;
use collate_laws::alike::normalizers_give_forms_of_records;
use collate_laws::files::normalising_first_is_as_good;
use collate_laws::{
    collators_order_as_records_say, collators_write_keys_of_records,
    compiled_tables_make_canonical_normalizers,
};
use collate_records::compile::compile;
use collate_records::records::Records;
use icu_collator::CollatorPreferences;
use icu_collator::laws::collators::characters_are_scalars;
use icu_collator::options::CollatorOptions;
use icu_collections::codepointtrie::TrieType;
use icu_normalizer::composing::ComposingNormalizer;
use icu_normalizer::decomposing::DecomposingNormalizer;
use std::alloc::Global;
use std::cmp::Ordering;

/// The NFD of a text by the records of a file; `None` where memory is refused.
fn decomposed_by_records(alloc: Global, records: &Records, text: &str) -> Option<String>
    ensures { IfSome result (λ form. string_bytes form ≡ decomposed_text (canonical_of records.now.lines) text.now) }
{
    let provider = compile(alloc, records, TrieType::Fast).ok()?;
    let normalizer = DecomposingNormalizer::try_new_nfd_unstable(alloc, &provider).ok()?;
    records.keep_rules();
    compiled_tables_make_canonical_normalizers();
    normalizers_give_forms_of_records();
    let form = normalizer.as_borrowed().normalize(alloc, text).ok()?;
    form.into_owned(alloc).ok()
}

/// The NFC of a text by the records of a file.
pub(crate) fn composed_by_records(alloc: Global, records: &Records, text: &str) -> Option<String>
    ensures { IfSome result (λ form. string_bytes form ≡ composed_text (canonical_of records.now.lines) text.now) }
{
    let provider = compile(alloc, records, TrieType::Fast).ok()?;
    let normalizer = ComposingNormalizer::try_new_nfc_unstable(alloc, &provider).ok()?;
    records.keep_rules();
    compiled_tables_make_canonical_normalizers();
    normalizers_give_forms_of_records();
    let form = normalizer.as_borrowed().normalize(alloc, text).ok()?;
    form.into_owned(alloc).ok()
}

/// How two texts order by the records of a file.
fn order_by_records(
    alloc: Global,
    records: &Records,
    preferences: CollatorPreferences<'_>,
    options: CollatorOptions,
    left: &str,
    right: &str,
) -> Option<Ordering>
    ensures { IfSome result (λ order. order ≡ collation_order (collation_of records.now.lines)
        (resolved_options options preferences.entry (settings_of records.now.lines)) (utf8_chars left.now) (utf8_chars right.now)) }
{
    let collator = collator_of(alloc, records, preferences, options).ok()?;
    let order = collator.as_borrowed().compare(alloc, left, right).ok()?;
    records.keep_rules();
    collators_order_as_records_say();
    characters_are_scalars();
    Some(order)
}

/// The sort key of a text by the records of a file.
fn key_by_records(
    alloc: Global,
    records: &Records,
    preferences: CollatorPreferences<'_>,
    options: CollatorOptions,
    text: &str,
) -> Option<Vec<u8>>
    ensures { IfSome result (λ key. key.items ≡ key_of_text (collation_of records.now.lines)
        (resolved_options options preferences.entry (settings_of records.now.lines)) (utf8_chars text.now)) }
{
    let collator = collator_of(alloc, records, preferences, options).ok()?;
    let mut key = Vec::new(alloc);
    collator
        .as_borrowed()
        .write_sort_key_to(alloc, text, &mut key)
        .ok()?;
    records.keep_rules();
    collators_write_keys_of_records();
    characters_are_scalars();
    Some(key)
}

/// How the NFDs of two texts order.
fn order_of_decomposed(
    alloc: Global,
    records: &Records,
    preferences: CollatorPreferences<'_>,
    options: CollatorOptions,
    left: &str,
    right: &str,
) -> Option<Ordering>
    ensures { IfSome result (λ order. order ≡ collation_order (collation_of records.now.lines)
        (resolved_options options preferences.entry (settings_of records.now.lines))
        (utf8_chars (decomposed_text (canonical_of records.now.lines) left.now)) (utf8_chars (decomposed_text (canonical_of records.now.lines) right.now))) }
{
    let left = decomposed_by_records(alloc, records, left)?;
    let right = decomposed_by_records(alloc, records, right)?;
    order_by_records(
        alloc,
        records,
        preferences,
        options,
        left.as_str(),
        right.as_str(),
    )
}

/// How the NFCs of two texts order.
fn order_of_composed(
    alloc: Global,
    records: &Records,
    preferences: CollatorPreferences<'_>,
    options: CollatorOptions,
    left: &str,
    right: &str,
) -> Option<Ordering>
    ensures { IfSome result (λ order. order ≡ collation_order (collation_of records.now.lines)
        (resolved_options options preferences.entry (settings_of records.now.lines))
        (utf8_chars (composed_text (canonical_of records.now.lines) left.now)) (utf8_chars (composed_text (canonical_of records.now.lines) right.now))) }
{
    let left = composed_by_records(alloc, records, left)?;
    let right = composed_by_records(alloc, records, right)?;
    order_by_records(
        alloc,
        records,
        preferences,
        options,
        left.as_str(),
        right.as_str(),
    )
}

/// How two texts order by a records file where each is made NFD first: as the texts themselves do. `None` where the
/// file breaks a rule, or memory is refused.
pub fn decomposed_order_by_file(
    alloc: Global,
    file: &[u8],
    preferences: CollatorPreferences<'_>,
    options: CollatorOptions,
    left: &str,
    right: &str,
) -> Option<Ordering>
    ensures accepted { IfSome result (λ _. IsAccepted file.now) }
    ensures order { IfSome result (λ order. order ≡ file_order file.now options preferences.entry (utf8_chars left.now) (utf8_chars right.now)) }
{
    let records = Records::read(alloc, file).ok()?;
    let order = order_of_decomposed(alloc, &records, preferences, options, left, right)?;
    normalising_first_is_as_good();
    characters_are_scalars();
    Some(order)
}

/// The same where each is made NFC first.
pub fn composed_order_by_file(
    alloc: Global,
    file: &[u8],
    preferences: CollatorPreferences<'_>,
    options: CollatorOptions,
    left: &str,
    right: &str,
) -> Option<Ordering>
    ensures accepted { IfSome result (λ _. IsAccepted file.now) }
    ensures order { IfSome result (λ order. order ≡ file_order file.now options preferences.entry (utf8_chars left.now) (utf8_chars right.now)) }
{
    let records = Records::read(alloc, file).ok()?;
    let order = order_of_composed(alloc, &records, preferences, options, left, right)?;
    normalising_first_is_as_good();
    characters_are_scalars();
    Some(order)
}

/// The sort key of a text's NFD by a records file: that of the text.
pub fn decomposed_key_by_file(
    alloc: Global,
    file: &[u8],
    preferences: CollatorPreferences<'_>,
    options: CollatorOptions,
    text: &str,
) -> Option<Vec<u8>>
    ensures accepted { IfSome result (λ _. IsAccepted file.now) }
    ensures key { IfSome result (λ key. key.items ≡ file_key file.now options preferences.entry (utf8_chars text.now)) }
{
    let records = Records::read(alloc, file).ok()?;
    let form = decomposed_by_records(alloc, &records, text)?;
    let key = key_by_records(alloc, &records, preferences, options, form.as_str())?;
    normalising_first_is_as_good();
    characters_are_scalars();
    Some(key)
}

/// The sort key of a text's NFC: that of the text.
pub fn composed_key_by_file(
    alloc: Global,
    file: &[u8],
    preferences: CollatorPreferences<'_>,
    options: CollatorOptions,
    text: &str,
) -> Option<Vec<u8>>
    ensures accepted { IfSome result (λ _. IsAccepted file.now) }
    ensures key { IfSome result (λ key. key.items ≡ file_key file.now options preferences.entry (utf8_chars text.now)) }
{
    let records = Records::read(alloc, file).ok()?;
    let form = composed_by_records(alloc, &records, text)?;
    let key = key_by_records(alloc, &records, preferences, options, form.as_str())?;
    normalising_first_is_as_good();
    characters_are_scalars();
    Some(key)
}

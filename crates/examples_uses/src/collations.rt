//! Collations: from the bytes of a records file to how two texts order by it, the key of a text, and its NFC.
ghost use Rattle.std.specs.Prelude.{◌≡◌, IfSome, string_bytes};
ghost use Rattle.icu_normalizer_core.specs.Decoding.{utf8_chars};
ghost use Rattle.icu_normalizer.specs.TextForms.{composed_text};
ghost use Rattle.icu_collator_types.specs.Options.{resolved_options};
ghost use Rattle.icu_collator.specs.KeyBytes.{key_of_text};
ghost use Rattle.icu_collator.specs.Order.{collation_order};
ghost use Rattle.collate_lines.specs.Lines.{records_of};
ghost use Rattle.collate_records.specs.Files.{IsAccepted};
ghost use Rattle.collate_rules.specs.Meaning.{canonical_of, collation_of, settings_of};

use crate::normalised::composed_by_records;
use collate_laws::{
    collators_order_as_records_say, collators_write_keys_of_records, compiled_tables_make_collators,
};
use collate_records::compile::compile;
use collate_records::records::Records;
use icu_collator::laws::collators::characters_are_scalars;
use icu_collator::options::CollatorOptions;
use icu_collator::{Collator, CollatorPreferences};
use icu_collections::codepointtrie::TrieType;
use std::alloc::Global;
use std::cmp::Ordering;

/// How two texts order by a records file; `None` where the file breaks a rule, or memory is refused.
pub fn order_by_file(
    alloc: Global,
    file: &[u8],
    preferences: CollatorPreferences<'_>,
    options: CollatorOptions,
    left: &str,
    right: &str,
) -> Option<Ordering>
    ensures accepted { IfSome result (λ _. IsAccepted file.now) }
    ensures order { IfSome result (λ order. order ≡ collation_order (collation_of (records_of file.now))
        (resolved_options options preferences.entry (settings_of (records_of file.now)))
        (utf8_chars left.now) (utf8_chars right.now)) }
{
    let records = Records::read(alloc, file).ok()?;
    let provider = compile(alloc, &records, TrieType::Fast).ok()?;
    let collator = Collator::try_new_unstable(alloc, &provider, preferences, options).ok()?;
    records.keep_rules();
    compiled_tables_make_collators();
    collators_order_as_records_say();
    characters_are_scalars();
    collator.as_borrowed().compare(alloc, left, right).ok()
}

/// The sort key of a text by a records file; `None` where the file breaks a rule, or memory is refused.
pub fn key_by_file(
    alloc: Global,
    file: &[u8],
    preferences: CollatorPreferences<'_>,
    options: CollatorOptions,
    text: &str,
) -> Option<Vec<u8>>
    ensures accepted { IfSome result (λ _. IsAccepted file.now) }
    ensures key { IfSome result (λ key. key.items ≡ key_of_text (collation_of (records_of file.now))
        (resolved_options options preferences.entry (settings_of (records_of file.now))) (utf8_chars text.now)) }
{
    let records = Records::read(alloc, file).ok()?;
    let provider = compile(alloc, &records, TrieType::Small).ok()?;
    let collator = Collator::try_new_unstable(alloc, &provider, preferences, options).ok()?;
    records.keep_rules();
    compiled_tables_make_collators();
    collators_write_keys_of_records();
    characters_are_scalars();
    let mut key = Vec::new(alloc);
    collator
        .as_borrowed()
        .write_sort_key_to(alloc, text, &mut key)
        .ok()?;
    Some(key)
}

/// The NFC of a text by a records file; `None` where the file breaks a rule, or memory is refused.
pub fn composed_by_file(alloc: Global, file: &[u8], text: &str) -> Option<String>
    ensures accepted { IfSome result (λ _. IsAccepted file.now) }
    ensures form { IfSome result (λ form. string_bytes form ≡ composed_text (canonical_of (records_of file.now)) text.now) }
{
    let records = Records::read(alloc, file).ok()?;
    composed_by_records(alloc, &records, text)
}

//! Whether two texts are canonically equivalent, by the bytes of a records file: they are equal at `Identical`. One call
//! for each encoding.
ghost use Rattle.std.specs.Prelude.{◌≡◌, ◌↔◌, IfSome, IsTrue};
ghost use Rattle.icu_normalizer.specs.Equivalence.{IsEquivalent};
ghost use Rattle.icu_normalizer_core.specs.Decoding.{latin1_chars, utf16_chars, utf8_chars};
ghost use Rattle.collate_laws.specs.Files.{file_canonical, with_strength};
ghost use Rattle.collate_records.specs.Files.{IsAccepted};

use crate::collations::order_by_file;
use crate::comparisons::{
    bytes_order_by_file, latin1_order_by_file, latin1_units_order_by_file, units_order_by_file,
};
use collate_laws::files::equal_by_a_file_is_equivalence;
use icu_collator::CollatorPreferences;
use icu_collator::laws::collators::characters_are_scalars;
use icu_collator::options::CollatorOptions;
use icu_collator_types::options::Strength;
use std::alloc::Global;

/// The same options at the strength `Identical`.
fn at_identical(options: CollatorOptions) -> CollatorOptions
    ensures { result ≡ with_strength options Strength.Identical }
{
    CollatorOptions {
        strength: Some(Strength::Identical),
        ..options
    }
}

/// Whether two texts are equivalent by a records file's mapping steps and swaps of marks, whatever the other options
/// are; `None` where the file breaks a rule, or memory is refused.
pub fn are_equivalent_by_file(
    alloc: Global,
    file: &[u8],
    preferences: CollatorPreferences<'_>,
    options: CollatorOptions,
    left: &str,
    right: &str,
) -> Option<bool>
    ensures accepted { IfSome result (λ _. IsAccepted file.now) }
    ensures equivalent { IfSome result (λ are. IsTrue are ↔ IsEquivalent (file_canonical file.now) (utf8_chars left.now) (utf8_chars right.now)) }
{
    let options = at_identical(options);
    let order = order_by_file(alloc, file, preferences, options, left, right)?;
    equal_by_a_file_is_equivalence();
    characters_are_scalars();
    Some(order.is_eq())
}

/// The same of texts in UTF-8, whatever bytes they are.
pub fn bytes_are_equivalent_by_file(
    alloc: Global,
    file: &[u8],
    preferences: CollatorPreferences<'_>,
    options: CollatorOptions,
    left: &[u8],
    right: &[u8],
) -> Option<bool>
    ensures accepted { IfSome result (λ _. IsAccepted file.now) }
    ensures equivalent { IfSome result (λ are. IsTrue are ↔ IsEquivalent (file_canonical file.now) (utf8_chars left.now) (utf8_chars right.now)) }
{
    let options = at_identical(options);
    let order = bytes_order_by_file(alloc, file, preferences, options, left, right)?;
    equal_by_a_file_is_equivalence();
    characters_are_scalars();
    Some(order.is_eq())
}

/// The same of texts in UTF-16, whatever units they are.
pub fn units_are_equivalent_by_file(
    alloc: Global,
    file: &[u8],
    preferences: CollatorPreferences<'_>,
    options: CollatorOptions,
    left: &[u16],
    right: &[u16],
) -> Option<bool>
    ensures accepted { IfSome result (λ _. IsAccepted file.now) }
    ensures equivalent { IfSome result (λ are. IsTrue are ↔ IsEquivalent (file_canonical file.now) (utf16_chars left.now) (utf16_chars right.now)) }
{
    let options = at_identical(options);
    let order = units_order_by_file(alloc, file, preferences, options, left, right)?;
    equal_by_a_file_is_equivalence();
    characters_are_scalars();
    Some(order.is_eq())
}

/// The same of texts in Latin-1.
pub fn latin1_are_equivalent_by_file(
    alloc: Global,
    file: &[u8],
    preferences: CollatorPreferences<'_>,
    options: CollatorOptions,
    left: &[u8],
    right: &[u8],
) -> Option<bool>
    ensures accepted { IfSome result (λ _. IsAccepted file.now) }
    ensures equivalent { IfSome result (λ are. IsTrue are ↔ IsEquivalent (file_canonical file.now) (latin1_chars left.now) (latin1_chars right.now)) }
{
    let options = at_identical(options);
    let order = latin1_order_by_file(alloc, file, preferences, options, left, right)?;
    equal_by_a_file_is_equivalence();
    characters_are_scalars();
    Some(order.is_eq())
}

/// The same of a text in Latin-1 and one in UTF-16.
pub fn latin1_units_are_equivalent_by_file(
    alloc: Global,
    file: &[u8],
    preferences: CollatorPreferences<'_>,
    options: CollatorOptions,
    left: &[u8],
    right: &[u16],
) -> Option<bool>
    ensures accepted { IfSome result (λ _. IsAccepted file.now) }
    ensures equivalent { IfSome result (λ are. IsTrue are ↔ IsEquivalent (file_canonical file.now) (latin1_chars left.now) (utf16_chars right.now)) }
{
    let options = at_identical(options);
    let order = latin1_units_order_by_file(alloc, file, preferences, options, left, right)?;
    equal_by_a_file_is_equivalence();
    characters_are_scalars();
    Some(order.is_eq())
}

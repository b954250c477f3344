//! What two files say differently: of a character, and in their settings. No call here takes memory.

ghost use Rattle.std.specs.Option.{option_copied};
ghost use Rattle.std.specs.Prelude.{◌≡◌, ◌↔◌, ◌∷◌, ℕ, All, IsTrue, List, map, option_map, true};
ghost use Rattle.icu_normalizer_core.specs.Properties.{mapped_to};
ghost use Rattle.collate_records.specs.Changes.{AreSettingsEqual, AreValuesEqual, GivesSame, IsSaidAlike, begins_with, place_of};
ghost use Rattle.collate_rules.specs.Meaning.{is_compressible_in, recorded_in, span_of};
ghost use Rattle.collate_lines.specs.Record.{said};

use collate_compile::by_lines::{compressed, digit_of, is_compressible, range_of, recorded};
use collate_compile::set_lines::{
    drops_dot_above, file_settings, group_ends, is_backward, numeric_lead, place_among, reordered,
};
use collate_lines::record::{Range, Record};
use icu_collator_types::elements::Element;
use icu_normalizer_core::properties::Decomposed;

/// The lead that takes the place of another, or that one itself.
fn place_of(records: &[Record], lead: u8) -> u8
    ensures { result ≡ place_of (map said records.now) lead }
{
    place_among(reordered(records), lead)
}

/// Whether two mappings are the same.
pub(crate) fn are_same_mappings(a: Decomposed, b: Decomposed) -> bool
    ensures { IsTrue result ↔ (mapped_to a ≡ mapped_to b) }
{
    a == b
}

/// Whether two ranges, or none, are the same.
pub(crate) fn are_same_ranges(a: Option<Range>, b: Option<Range>) -> bool
    ensures { IsTrue result ↔ (option_map span_of a ≡ option_map span_of b) }
{
    a == b
}

/// Whether two lists have the same elements.
fn are_same_lists(a: &[Element], b: &[Element]) -> bool
    ensures { IsTrue result ↔ (a.now ≡ b.now) }
{
    a == b
}

/// Whether two records, or none, have the same elements.
pub(crate) fn are_same_elements(a: Option<&[Element]>, b: Option<&[Element]>) -> bool
    ensures { IsTrue result ↔ (option_copied a.entry ≡ option_copied b.entry) }
{
    match (a, b) {
        (Some(a), Some(b)) => are_same_lists(a, b),
        (None, None) => true,
        _ => false,
    }
}

/// Whether a text begins with a character.
fn begins_with(text: &[char], c: char) -> bool
    ensures { result ≡ begins_with c text.now }
{
    match text {
        [first, ..] => c == *first,
        [] => false,
    }
}

/// Whether two files record the same of a text after a prefix.
fn is_recorded_alike(a: &[Record], b: &[Record], prefix: &[char], text: &[char]) -> bool
    ensures { IsTrue result ↔ (recorded_in (map said a.now) prefix.now text.now ≡ recorded_in (map said b.now) prefix.now text.now) }
{
    are_same_elements(recorded(a, prefix, text), recorded(b, prefix, text))
}

/// Whether two files give the same elements to the text of a line, if that begins with a character.
fn gives_same(a: &[Record], b: &[Record], c: char, line: &Record) -> bool
    ensures { IsTrue result ↔ GivesSame (map said a.now) (map said b.now) c (said line.now) }
{
    match line {
        Record::Weights { prefix, text, .. } if begins_with(text, c) => {
            is_recorded_alike(a, b, prefix, text)
        }
        _ => true,
    }
}

/// Whether two files give the same elements to each text of some lines that begins with a character.
fn all_give_same(a: &[Record], b: &[Record], c: char, records: &[Record]) -> bool
    ensures { IsTrue result ↔ All (λ r. GivesSame (map said a.now) (map said b.now) c (said r)) records.now }
{
    records.iter().all(|line| gives_same(a, b, c, line))
}

/// Whether two files record the same of each text that begins with a character.
fn are_recorded_alike(a: &[Record], b: &[Record], c: char) -> bool
    ensures { IsTrue result ↔ ((prefix rest : List ℕ) → recorded_in (map said a.now) prefix (c ∷ rest) ≡ recorded_in (map said b.now) prefix (c ∷ rest)) }
{
    all_give_same(a, b, c, a) && all_give_same(a, b, c, b)
}

/// Whether two files have the same range that holds a character, the same digit, and record the same of each text that
/// begins with it.
pub(crate) fn are_said_alike(a: &[Record], b: &[Record], c: char) -> bool
    ensures { IsTrue result ↔ IsSaidAlike (map said a.now) (map said b.now) c }
{
    if !are_same_ranges(range_of(a, c), range_of(b, c)) {
        return false;
    }
    if digit_of(a, c) != digit_of(b, c) {
        return false;
    }
    are_recorded_alike(a, b, c)
}

/// Whether leads are all compressible.
fn are_compressible(records: &[Record], leads: &[u8]) -> bool
    ensures { IsTrue result ↔ All (λ lead. is_compressible_in (map said records.now) lead ≡ true) leads.now }
{
    leads.iter().all(|lead| is_compressible(records, *lead))
}

/// Whether the same leads are compressible.
fn compress_alike(a: &[Record], b: &[Record]) -> bool
    ensures { IsTrue result ↔ ((lead : ℕ) → is_compressible_in (map said a.now) lead ≡ is_compressible_in (map said b.now) lead) }
{
    are_compressible(b, compressed(a)) && are_compressible(a, compressed(b))
}

/// Whether the same leads take the places of those that begin some pairs.
fn are_placed_alike(a: &[Record], b: &[Record], pairs: &[(u8, u8)]) -> bool
    ensures { IsTrue result ↔ All (λ pair. place_of (map said a.now) pair.0 ≡ place_of (map said b.now) pair.0) pairs.now }
{
    pairs
        .iter()
        .all(|pair| place_of(a, pair.0) == place_of(b, pair.0))
}

/// Whether each lead has the same in its place.
fn reorder_alike(a: &[Record], b: &[Record]) -> bool
    ensures { IsTrue result ↔ ((lead : ℕ) → place_of (map said a.now) lead ≡ place_of (map said b.now) lead) }
{
    are_placed_alike(a, b, reordered(a)) && are_placed_alike(a, b, reordered(b))
}

/// Whether what is set of the options, and single values, are the same.
fn are_values_equal(a: &[Record], b: &[Record]) -> bool
    ensures { IsTrue result ↔ AreValuesEqual (map said a.now) (map said b.now) }
{
    if file_settings(a) != file_settings(b) {
        return false;
    }
    if is_backward(a) != is_backward(b) {
        return false;
    }
    if drops_dot_above(a) != drops_dot_above(b) {
        return false;
    }
    if numeric_lead(a) != numeric_lead(b) {
        return false;
    }
    group_ends(a) == group_ends(b)
}

/// Whether the settings are equal by value.
pub(crate) fn are_settings_equal(a: &[Record], b: &[Record]) -> bool
    ensures { IsTrue result ↔ AreSettingsEqual (map said a.now) (map said b.now) }
{
    if !are_values_equal(a, b) {
        return false;
    }
    if !compress_alike(a, b) {
        return false;
    }
    reorder_alike(a, b)
}

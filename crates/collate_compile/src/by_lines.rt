//! What the lines of a records file say of a text, of a character and of leads, looked up line by line with no memory.

ghost use Rattle.std.specs.Prelude.{◌≡◌, bytes_eq, map, option_map, []};
ghost use Rattle.std.specs.Option.{option_copied};
ghost use Rattle.collate_rules.specs.Meaning.{compress_in, digit_in, elements_in, first_found, is_compressible_in, range_in, recorded_in, set_to, span_of};
ghost use Rattle.collate_lines.specs.Record.{layer_of, said};

use collate_lines::record::{Layer, Range, Record, Setting};
use icu_collator_types::elements::Element;

/// Whether two texts are the same.
fn is_same_text(a: &[char], b: &[char]) -> bool
    ensures { result ≡ bytes_eq a.now b.now }
{
    a == b
}

/// The elements that a line of a layer gives to a text after a prefix, if it does.
pub(crate) fn elements_in<'a>(
    line: &'a Record,
    of_layer: Layer,
    prefix: &[char],
    text: &[char],
) -> Option<&'a [Element]>
    ensures { option_copied result ≡ elements_in (layer_of of_layer) prefix.now text.now (said line.now) }
{
    match line {
        Record::Weights {
            layer,
            prefix: before,
            text: key,
            elements,
        } if *layer == of_layer && is_same_text(prefix, before) && is_same_text(text, key) => {
            Some(elements.as_slice())
        }
        _ => None,
    }
}

/// The elements that the first such line gives.
fn first_elements<'a>(
    records: &'a [Record],
    layer: Layer,
    prefix: &[char],
    text: &[char],
) -> Option<&'a [Element]>
    ensures { option_copied result
        ≡ first_found (elements_in (layer_of layer) prefix.now text.now) (map said records.now) }
{
    for record in records {
        if let Some(elements) = elements_in(record, layer, prefix, text) {
            return Some(elements);
        }
    }
    None
}

/// The recorded elements of a text after a prefix: those of the tailoring, else those of the root.
pub fn recorded<'a>(records: &'a [Record], prefix: &[char], text: &[char]) -> Option<&'a [Element]>
    ensures { option_copied result ≡ recorded_in (map said records.now) prefix.now text.now }
{
    match first_elements(records, Layer::Tailoring, prefix, text) {
        Some(elements) => Some(elements),
        None => first_elements(records, Layer::Root, prefix, text),
    }
}

/// The range of a line, if it holds a character.
fn range_in(line: &Record, c: char) -> Option<Range>
    ensures { option_map span_of result ≡ range_in c (said line.now) }
{
    match line {
        Record::Range(range) if range.first <= c && c <= range.last => Some(*range),
        _ => None,
    }
}

/// The first range that holds a character.
pub fn range_of(records: &[Record], c: char) -> Option<Range>
    ensures { option_map span_of result ≡ first_found (range_in c) (map said records.now) }
{
    for record in records {
        if let Some(range) = range_in(record, c) {
            return Some(range);
        }
    }
    None
}

/// The value that a line gives to a digit, if it does.
pub(crate) fn digit_in(line: &Record, c: char) -> Option<u8>
    ensures { result ≡ digit_in c (said line.now) }
{
    match line {
        Record::Digit { character, value } if c == *character => Some(*value),
        _ => None,
    }
}

/// The value that the first line on it gives to a digit.
pub fn digit_of(records: &[Record], c: char) -> Option<u8>
    ensures { result ≡ first_found (digit_in c) (map said records.now) }
{
    for record in records {
        if let Some(value) = digit_in(record, c) {
            return Some(value);
        }
    }
    None
}

/// The leads that are set compressible.
pub fn compressed(records: &[Record]) -> &[u8]
    ensures { result.now ≡ set_to compress_in [] (map said records.now) }
{
    for record in records {
        if let Record::Set(Setting::Compress(leads)) = record {
            return leads;
        }
    }
    &[]
}

/// Whether a lead is compressible: FE (hexadecimal) is, and those that are set so.
pub fn is_compressible(records: &[Record], lead: u8) -> bool
    ensures { result ≡ is_compressible_in (map said records.now) lead }
{
    lead == 0xFE || compressed(records).contains(&lead)
}

//! What the lines of a records file record of texts, and say of digits and ranges, noted once so that it is looked up.

ghost use Rattle.std.specs.Prelude.{◌≡◌, ◌==◌, ◌&&◌, ◌++◌, ◌∷◌, ℕ, [], cond, List, Some, None, map, bytes_eq, option_map, IfOk, OnOk};
ghost use Rattle.std.specs.Option.{option_copied, option_or};
ghost use Rattle.std.specs.Ordering.{nat_cmp};
ghost use Rattle.std.specs.BTreeMap.{get};
ghost use Rattle.collate_lines.specs.Record.{Record as PlainRecord, layer_of, said};
ghost use Rattle.collate_rules.specs.GivenWeights.{given_ranges, ranges_of};
ghost use Rattle.collate_rules.specs.Meaning.{digit_in, elements_in, first_found, range_in, recorded_in, span_of};
ghost use Rattle.collate_rules.specs.NotedLines.{HasDigits, digit_line};
ghost use Rattle.collate_compile.specs.NotedLines.{held_by};
ghost use Rattle.collate_records.specs.NotedFile.{HasElements, elements_at};

use collate_lines::record::{Layer, Range, Record};
use icu_collator_types::elements::Element;
use std::alloc::{AllocError, Global};
use std::collections::BTreeMap;

/// Elements, by a prefix and the text after it.
pub(crate) type Elements<'a> = BTreeMap<(&'a [char], &'a [char]), &'a [Element]>;

/// The lines of a file, noted.
pub(crate) struct NotedFile<'a> {
    /// The lines, in their order.
    pub(crate) lines: &'a [Record],
    elements: Elements<'a>,
    digits: BTreeMap<char, u8>,
    ranges: Vec<Range>,
    ghost has_elements: { HasElements elements (map said lines.now) },
    ghost has_digits: { HasDigits digits (map said lines.now) },
    ghost has_ranges: { map span_of ranges.items ≡ given_ranges (map said lines.now) },
}

// (let go of as one, and not part by part, so that what owns one is proved sooner)
impl Drop for NotedFile<'_> {
    fn drop(self) {
        let NotedFile {
            lines: _,
            elements: _,
            digits: _,
            ranges: _,
        } = self;
    }
}

impl<'a> NotedFile<'a> {
    /// Notes lines, in one pass for each kind of look-up and layer. `AllocError` where memory is refused.
    pub(crate) fn new(alloc: Global, lines: &'a [Record]) -> Result<NotedFile<'a>, AllocError>
        ensures { IfOk result (λ noted. noted.lines.now ≡ lines.now) }
    {
        let elements = elements_of(alloc, lines)?;
        let digits = digits_of(alloc, lines)?;
        let ranges = ranges_in(alloc, lines)?;
        Ok(NotedFile {
            lines,
            elements,
            digits,
            ranges,
        })
    }

    /// The recorded elements of a text after a prefix: those of the tailoring, else those of the root.
    pub(crate) fn recorded(&self, prefix: &'a [char], text: &'a [char]) -> Option<&'a [Element]>
        ensures { option_copied result ≡ recorded_in (map said self.now.lines.now) prefix.now text.now }
    {
        elements_at(&self.elements, prefix, text)
    }

    /// The value that the first line on it gives to a digit.
    pub(crate) fn digit_of(&self, c: char) -> Option<u8>
        ensures { result ≡ first_found (digit_in c) (map said self.now.lines.now) }
    {
        self.digits.get(&c).copied()
    }

    /// The first range that holds a character.
    pub(crate) fn range_of(&self, c: char) -> Option<Range>
        ensures { option_map span_of result ≡ first_found (range_in c) (map said self.now.lines.now) }
    {
        first_range(&self.ranges, c)
    }
}

/// The elements that are noted of a text after a prefix.
fn elements_at<'a>(
    noted: &Elements<'a>,
    prefix: &'a [char],
    text: &'a [char],
) -> Option<&'a [Element]>
    ensures { option_copied result ≡ elements_at noted.now prefix.now text.now }
{
    let key = (prefix, text);
    noted.get(&key).copied()
}

/// The elements that lines record, by prefix and text: those of the tailoring, else those of the root. `AllocError` where
/// memory is refused.
fn elements_of(alloc: Global, lines: &[Record]) -> Result<Elements<'_>, AllocError>
    ensures { IfOk result (λ noted. HasElements noted (map said lines.now)) }
{
    let mut noted = BTreeMap::new(alloc);
    note_layer(&mut noted, Layer::Tailoring, lines)?;
    note_layer(&mut noted, Layer::Root, lines)?;
    Ok(noted)
}

/// Notes what lines of a layer record, where nothing is noted. `AllocError` where memory is refused.
fn note_layer<'a>(
    noted: &mut Elements<'a>,
    layer: Layer,
    lines: &'a [Record],
) -> Result<(), AllocError>
    ensures { OnOk result ((prefix text : List ℕ) → elements_at noted.new prefix text
        ≡ option_or (elements_at noted.old prefix text) (first_found (elements_in (layer_of layer) prefix text) (map said lines.now))) }
{
    for line in lines {
        note_elements(noted, layer, line)?;
    }
    Ok(())
}

/// Notes the elements that a line of a layer records of a text after a prefix, unless some are noted of these. `AllocError`
/// where memory is refused.
fn note_elements<'a>(
    noted: &mut Elements<'a>,
    of_layer: Layer,
    line: &'a Record,
) -> Result<(), AllocError>
    ensures { OnOk result ((prefix text : List ℕ) → elements_at noted.new prefix text
        ≡ option_or (elements_at noted.old prefix text) (elements_in (layer_of of_layer) prefix text (said line.now))) }
{
    match line {
        Record::Weights {
            layer,
            prefix,
            text,
            elements,
        } if *layer == of_layer => put_elements(noted, prefix, text, elements),
        _ => Ok(()),
    }
}

/// Notes elements of a text after a prefix, unless some are noted of these. `AllocError` where memory is refused.
fn put_elements<'a>(
    noted: &mut Elements<'a>,
    prefix: &'a [char],
    text: &'a [char],
    elements: &'a [Element],
) -> Result<(), AllocError>
    ensures { OnOk result ((p t : List ℕ) → elements_at noted.new p t
        ≡ option_or (elements_at noted.old p t) (cond (bytes_eq p prefix.now && bytes_eq t text.now) (Some elements.now) None)) }
{
    let key = (prefix, text);
    if noted.get(&key).is_none() {
        noted.insert(key, elements)?;
    }
    Ok(())
}

/// The digits that lines give, the first of each. `AllocError` where memory is refused.
fn digits_of(alloc: Global, lines: &[Record]) -> Result<BTreeMap<char, u8>, AllocError>
    ensures { IfOk result (λ digits. HasDigits digits (map said lines.now)) }
{
    let mut digits = BTreeMap::new(alloc);
    for line in lines {
        note_digit(&mut digits, line)?;
    }
    Ok(digits)
}

/// Notes the digit that one more line gives, if it does. `AllocError` where memory is refused.
fn note_digit(digits: &mut BTreeMap<char, u8>, line: &Record) -> Result<(), AllocError>
    ensures { (lines : List PlainRecord) → HasDigits digits.old lines → OnOk result (HasDigits digits.new (lines ++ said line.now ∷ [])) }
{
    match digit_line(line) {
        Some((character, value)) => {
            put_digit(digits, character, value)?;
            Ok(())
        }
        None => Ok(()),
    }
}

/// Notes a digit, unless one is noted of the character. `AllocError` where memory is refused.
fn put_digit(digits: &mut BTreeMap<char, u8>, character: char, value: u8) -> Result<(), AllocError>
    ensures { OnOk result ((c : ℕ) → get nat_cmp digits.new c ≡ option_or (get nat_cmp digits.old c) (cond (c == character) (Some value) None)) }
{
    if digits.get(&character).is_none() {
        digits.insert(character, value)?;
    }
    Ok(())
}

/// The digit that a line gives, and its value.
fn digit_line(line: &Record) -> Option<(char, u8)>
    ensures { result ≡ digit_line (said line.now) }
{
    match line {
        Record::Digit { character, value } => Some((*character, *value)),
        _ => None,
    }
}

/// The ranges of lines. `AllocError` where memory is refused.
fn ranges_in(alloc: Global, lines: &[Record]) -> Result<Vec<Range>, AllocError>
    ensures { IfOk result (λ ranges. map span_of ranges.items ≡ given_ranges (map said lines.now)) }
{
    let mut ranges = Vec::new(alloc);
    for line in lines {
        note_range(&mut ranges, line)?;
    }
    Ok(ranges)
}

/// Notes the range of a line, if it is one. `AllocError` where memory is refused.
fn note_range(ranges: &mut Vec<Range>, line: &Record) -> Result<(), AllocError>
    ensures { OnOk result (map span_of ranges.new.items ≡ map span_of ranges.old.items ++ ranges_of (said line.now)) }
{
    match line {
        Record::Range(range) => {
            ranges.push(*range)?;
            Ok(())
        }
        _ => Ok(()),
    }
}

/// A range, if it holds a character.
fn held_by(range: &Range, c: char) -> Option<Range>
    ensures { option_map span_of result ≡ held_by c (span_of range.now) }
{
    if range.first <= c && c <= range.last {
        return Some(*range);
    }
    None
}

/// The first of these ranges that holds a character.
fn first_range(ranges: &[Range], c: char) -> Option<Range>
    ensures { option_map span_of result ≡ first_found (held_by c) (map span_of ranges.now) }
{
    for range in ranges {
        if let Some(range) = held_by(range, c) {
            return Some(range);
        }
    }
    None
}

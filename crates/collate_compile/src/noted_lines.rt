//! The lines of a records file, noted once so that they are looked up: those of each character, ranges, and compressible leads.

ghost use Rattle.std.specs.Prelude.{◌≡◌, ◌==◌, ◌∷◌, ◌++◌, ℕ, [], cond, List, map, option_map, IfOk, OnOk};
ghost use Rattle.std.specs.Option.{option_copied};
ghost use Rattle.collate_lines.specs.Record.{Record as PlainRecord, layer_of, said};
ghost use Rattle.collate_rules.specs.GivenWeights.{given_ranges, ranges_of};
ghost use Rattle.collate_rules.specs.Meaning.{compress_in, digit_in, elements_in, first_found, is_compressible_in, range_in, recorded_in, set_to, span_of};
ghost use Rattle.collate_compile.specs.NotedLines.{HasOwn, character_of, held_by, own_lines, said_by, said_in};

use crate::by_lines::{compressed, digit_in, elements_in};
use collate_lines::record::{Layer, Range, Record};
use icu_collator_types::elements::Element;
use std::alloc::{AllocError, Global};
use std::collections::BTreeMap;

/// Lines, noted so that they are looked up.
pub(crate) struct NotedLines<'a> {
    /// The lines, in their order.
    pub(crate) lines: &'a [Record],
    own: BTreeMap<char, Vec<&'a Record>>,
    /// What a character has of which no line says something.
    none: Vec<&'a Record>,
    ranges: Vec<Range>,
    compressed: &'a [u8],
    ghost has_own: { HasOwn own (map said lines.now) },
    ghost has_none: { none.items ≡ [] },
    ghost has_ranges: { map span_of ranges.items ≡ given_ranges (map said lines.now) },
    ghost has_compressed: { compressed.now ≡ set_to compress_in [] (map said lines.now) },
}

// (let go of as one, and not part by part, so that what owns one is proved sooner)
impl Drop for NotedLines<'_> {
    fn drop(self) {
        let NotedLines {
            lines: _,
            own: _,
            none: _,
            ranges: _,
            compressed: _,
        } = self;
    }
}

impl<'a> NotedLines<'a> {
    /// Notes lines, in one pass for each kind of look-up.
    ///
    /// Errors: `AllocError` where memory is refused.
    pub(crate) fn new(alloc: Global, lines: &'a [Record]) -> Result<NotedLines<'a>, AllocError>
        ensures { IfOk result (λ noted. noted.lines.now ≡ lines.now) }
    {
        let own = own_lines(alloc, lines)?;
        let none = Vec::new(alloc);
        let ranges = ranges_in(alloc, lines)?;
        let compressed = compressed(lines);
        Ok(NotedLines {
            lines,
            own,
            none,
            ranges,
            compressed,
        })
    }

    /// The lines that say something of a character, in their order: those whose text begins with it, and that of the digit.
    pub(crate) fn own(&self, c: char) -> &[&'a Record]
        ensures { map said_by result.now ≡ own_lines c (map said self.now.lines.now) }
    {
        if let Some(lines) = self.own.get(&c) {
            return lines.as_slice();
        }
        self.none.as_slice()
    }

    /// The recorded elements of a character alone: those of the tailoring, else those of the root.
    pub(crate) fn alone(&self, c: char) -> Option<&'a [Element]>
        ensures { option_copied result ≡ recorded_in (map said self.now.lines.now) [] (c ∷ []) }
    {
        match self.alone_in(Layer::Tailoring, c) {
            Some(elements) => Some(elements),
            None => self.alone_in(Layer::Root, c),
        }
    }

    /// The elements that the first such line of a layer gives to a character alone.
    fn alone_in(&self, layer: Layer, c: char) -> Option<&'a [Element]>
        ensures { option_copied result ≡ first_found (elements_in (layer_of layer) [] (c ∷ [])) (map said self.now.lines.now) }
    {
        first_alone(self.own(c), layer, c)
    }

    /// The value that the first line on it gives to a digit.
    pub(crate) fn digit_of(&self, c: char) -> Option<u8>
        ensures { result ≡ first_found (digit_in c) (map said self.now.lines.now) }
    {
        first_digit(self.own(c), c)
    }

    /// The first range that holds a character.
    pub(crate) fn range_of(&self, c: char) -> Option<Range>
        ensures { option_map span_of result ≡ first_found (range_in c) (map said self.now.lines.now) }
    {
        first_range(&self.ranges, c)
    }

    /// Whether a lead is compressible: FE (hexadecimal) is, and those that are set so.
    pub(crate) fn is_compressible(&self, lead: u8) -> bool
        ensures { result ≡ is_compressible_in (map said self.now.lines.now) lead }
    {
        lead == 0xFE || self.compressed.contains(&lead)
    }
}

/// The character that a line says something of: the first of its text, or a digit.
fn character_of(line: &Record) -> Option<char>
    ensures { result ≡ character_of (said line.now) }
{
    match line {
        Record::Weights { text, .. } => text.first().copied(),
        Record::Digit { character, .. } => Some(*character),
        _ => None,
    }
}

/// The elements that the first line of a layer gives to a character alone, among lines that say something of it.
fn first_alone<'a>(own: &[&'a Record], layer: Layer, c: char) -> Option<&'a [Element]>
    ensures { option_copied result ≡ first_found (elements_in (layer_of layer) [] (c ∷ [])) (map said_by own.now) }
{
    for line in own {
        if let Some(elements) = elements_in(line, layer, &[], &[c]) {
            return Some(elements);
        }
    }
    None
}

/// The value that the first of these lines gives to a digit.
fn first_digit(own: &[&Record], c: char) -> Option<u8>
    ensures { result ≡ first_found (digit_in c) (map said_by own.now) }
{
    for line in own {
        if let Some(value) = digit_in(line, c) {
            return Some(value);
        }
    }
    None
}

/// A range, if it holds a character.
fn held_by(range: &Range, c: char) -> Option<Range>
    ensures { option_map span_of result ≡ held_by c (span_of range.now) }
{
    if range.first <= c && c <= range.last {
        return Some(*range);
    }
    None
}

/// The first of these ranges that holds a character.
fn first_range(ranges: &[Range], c: char) -> Option<Range>
    ensures { option_map span_of result ≡ first_found (held_by c) (map span_of ranges.now) }
{
    for range in ranges {
        if let Some(range) = held_by(range, c) {
            return Some(range);
        }
    }
    None
}

/// Lines by the characters that they say something of.
///
/// Errors: `AllocError` where memory is refused.
fn own_lines(alloc: Global, lines: &[Record]) -> Result<BTreeMap<char, Vec<&Record>>, AllocError>
    ensures { IfOk result (λ own. HasOwn own (map said lines.now)) }
{
    let mut own = BTreeMap::new(alloc);
    for line in lines {
        note_line(&mut own, line)?;
    }
    Ok(own)
}

/// Notes one more line, if it says something of a character.
///
/// Errors: `AllocError` where memory is refused.
fn note_line<'a>(
    own: &mut BTreeMap<char, Vec<&'a Record>>,
    line: &'a Record,
) -> Result<(), AllocError>
    ensures { (lines : List PlainRecord) → HasOwn own.old lines → OnOk result (HasOwn own.new (lines ++ said line.now ∷ [])) }
{
    match character_of(line) {
        Some(character) => {
            note_own(own, character, line)?;
            Ok(())
        }
        None => Ok(()),
    }
}

/// Notes one more line of a character.
///
/// Errors: `AllocError` where memory is refused.
fn note_own<'a>(
    own: &mut BTreeMap<char, Vec<&'a Record>>,
    character: char,
    line: &'a Record,
) -> Result<(), AllocError>
    ensures { OnOk result ((c : ℕ) → said_in own.new c ≡ said_in own.old c ++ cond (c == character) (said line.now ∷ []) []) }
{
    own.entry(character)?.or_default().push(line)?;
    Ok(())
}

/// The ranges of lines.
///
/// Errors: `AllocError` where memory is refused.
fn ranges_in(alloc: Global, lines: &[Record]) -> Result<Vec<Range>, AllocError>
    ensures { IfOk result (λ ranges. map span_of ranges.items ≡ given_ranges (map said lines.now)) }
{
    let mut ranges = Vec::new(alloc);
    for line in lines {
        note_range(&mut ranges, line)?;
    }
    Ok(ranges)
}

/// Notes the range of a line, if it is one.
///
/// Errors: `AllocError` where memory is refused.
fn note_range(ranges: &mut Vec<Range>, line: &Record) -> Result<(), AllocError>
    ensures { OnOk result (map span_of ranges.new.items ≡ map span_of ranges.old.items ++ ranges_of (said line.now)) }
{
    match line {
        Record::Range(range) => {
            ranges.push(*range)?;
            Ok(())
        }
        _ => Ok(()),
    }
}

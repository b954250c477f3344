//! The rules that look at one record, with what others replace: what jamo have (V12), and that FFFD, FFFE and FFFF stand
//! nowhere (V13).

ghost use Rattle.std.specs.Prelude.{◌≡◌, ◌==◌, ◌%◌, ◌&&◌, ◌||◌, [], ◌∷◌, map, IfOk, MatchOption};
ghost use Rattle.std.specs.List.{list_any};
ghost use Rattle.icu_normalizer_core.specs.BuiltIn.{is_jamo, is_within};
ghost use Rattle.collate_lines.specs.Record.{layer_of, said};
ghost use Rattle.collate_rules.specs.Offenders.{NoneOffends, IsFirstOffender};
ghost use Rattle.collate_rules.specs.RecordRules.{fits_word, is_alone, is_bad_jamo_record, is_one_word, is_replaced, is_special, names_special};

use collate_lines::record::{Layer, Range, Record};
use collate_lines::rule::Rule;
use collate_rules::recorded::{Recorded, is_alone};
use icu_collator_types::elements::Element;
use icu_normalizer_core::built_in::is_jamo;
use std::alloc::{AllocError, Global};

/// The first line with a jamo in its text that is no record of the jamo alone, or gives it other than one element that fits
/// one word (rule V12, docs/RECORDS.md); what a record of the tailoring replaces may be of any elements. Lines count from 0;
/// `None` where no line offends.
///
/// Errors: `AllocError` where memory is refused.
pub fn first_bad_jamo(alloc: Global, records: &[Record]) -> Result<Option<usize>, AllocError>
    ensures { IfOk result (λ found. MatchOption found (NoneOffends Rule.V12 (map said records.now)) (λ i. IsFirstOffender Rule.V12 (map said records.now) i)) }
{
    let recorded = Recorded::new(alloc, records)?;
    for (i, line) in records.iter().enumerate() {
        let is_bad = is_bad_jamo_record(&recorded, line)?;
        if is_bad {
            return Ok(Some(i));
        }
    }
    Ok(None)
}

/// The first line whose record, digit or range has U+FFFD, U+FFFE or U+FFFF in it (rule V13, docs/RECORDS.md). Lines count
/// from 0; `None` where no line offends.
pub fn first_special(records: &[Record]) -> Option<usize>
    ensures { MatchOption result (NoneOffends Rule.V13 (map said records.now)) (λ i. IsFirstOffender Rule.V13 (map said records.now) i) }
{
    records.iter().position(names_special)
}

/// Whether a line has a jamo in its text, and isn't what a jamo may have.
fn is_bad_jamo_record(recorded: &Recorded<'_>, line: &Record) -> Result<bool, AllocError>
    ensures { IfOk result (λ is_bad. is_bad ≡ is_bad_jamo_record (map said recorded.now.lines.now) (said line.now)) }
{
    match line {
        Record::Weights {
            layer,
            prefix,
            text,
            elements,
        } => {
            if !has_jamo(text) {
                return Ok(false);
            }
            let is_good = may_be_of_jamo(recorded, *layer, prefix, text, elements)?;
            Ok(!is_good)
        }
        _ => Ok(false),
    }
}

/// Whether a text stands alone, and is replaced or has elements that fit one word.
fn may_be_of_jamo(
    recorded: &Recorded<'_>,
    layer: Layer,
    prefix: &[char],
    text: &[char],
    elements: &[Element],
) -> Result<bool, AllocError>
    ensures { IfOk result (λ may. may ≡ (is_alone prefix.now text.now && (is_replaced (map said recorded.now.lines.now) (layer_of layer) prefix.now text.now || is_one_word elements.now))) }
{
    if !is_alone(prefix, text) {
        return Ok(false);
    }
    if is_one_word(elements) {
        return Ok(true);
    }
    let is_replaced = recorded.is_replaced(layer, prefix, text)?;
    Ok(is_replaced)
}

/// Whether a jamo stands in a text.
fn has_jamo(text: &[char]) -> bool
    ensures { result ≡ list_any is_jamo text.now }
{
    text.iter().any(|c| is_jamo(*c as u32))
}

/// Whether elements are one that fits one word.
fn is_one_word(elements: &[Element]) -> bool
    ensures { result ≡ is_one_word elements.now }
{
    match elements {
        [element] => fits_word(element),
        _ => false,
    }
}

/// Whether one word says an element.
fn fits_word(e: &Element) -> bool
    ensures { result ≡ fits_word e.now }
{
    let is_narrow = e.primary % 0x1_0000 == 0
        && e.secondary % 0x100 == 0
        && e.tertiary % 0x100 == 0;
    let has_long_primary = e.primary != 0
        && e.primary % 0x100 == 0
        && e.secondary == 0x500
        && e.case == 0
        && e.tertiary == 0x500;
    let has_long_secondary = e.primary == 0 && e.tertiary % 0x100 == 0;
    e.quaternary == 0 && (is_narrow || has_long_primary || has_long_secondary)
}

/// Whether U+FFFD, U+FFFE or U+FFFF stands in what a line records, in its digit or its range.
fn names_special(line: &Record) -> bool
    ensures { result ≡ names_special (said line.now) }
{
    match line {
        Record::Weights { prefix, text, .. } => has_special(prefix) || has_special(text),
        Record::Range(range) => spans_special(range),
        Record::Digit { character, .. } => is_special(*character),
        _ => false,
    }
}

/// Whether a character is U+FFFD, U+FFFE or U+FFFF.
fn is_special(c: char) -> bool
    ensures { result ≡ is_special c }
{
    c >= '\u{fffd}' && c <= '\u{ffff}'
}

/// Whether one of them stands in a list.
fn has_special(list: &[char]) -> bool
    ensures { result ≡ list_any is_special list.now }
{
    list.iter().any(|c| is_special(*c))
}

/// Whether a range holds one of them.
fn spans_special(range: &Range) -> bool
    ensures { result ≡ list_any (is_within range.now.first range.now.last) (0xfffd ∷ 0xfffe ∷ 0xffff ∷ []) }
{
    is_in(range, '\u{fffd}') || is_in(range, '\u{fffe}') || is_in(range, '\u{ffff}')
}

/// Whether a range holds a character.
fn is_in(range: &Range, c: char) -> bool
    ensures { result ≡ is_within range.now.first range.now.last c }
{
    range.first <= c && c <= range.last
}

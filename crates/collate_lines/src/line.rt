//! One line of a records file: what it says, if it is in the grammar.

ghost use Rattle.std.specs.Prelude.{◌≡◌, ◌≤◌, bytes_eq, codes, map, option_map, option_to_list, IfOk};
ghost use Rattle.collate_lines.specs.Record.{layer_of, said};
ghost use Rattle.collate_lines.specs.Grammar.{class_by, compatibility_by, digit_by, ending_by, is_remark, is_short_ascii, mapping_by, range_by, record_by, record_of, set_by, weights_by};

use crate::fields::{character, class_value, digit_up_to, eight_digits, split_by, step_value};
use crate::list_fields::{parse_elements, parse_key, parse_some_characters, split_at_word};
use crate::record::{Layer, Range, Record};
use crate::settings::parse_setting;
use std::alloc::{AllocError, Global};

/// The most bytes of a line, without its LF (docs/RECORDS.md).
const LINE_LIMIT: usize = 1024;

/// What is said after `class`: `CP N`.
fn parse_class(fields: &[&[u8]]) -> Option<Record>
    ensures { option_map said result ≡ class_by (map (λ field. field.now) fields.now) }
{
    let [subject, class] = fields else {
        return None;
    };
    Some(Record::Class {
        character: character(subject)?,
        class: class_value(class)?,
    })
}

/// What may stand after the first character of a mapping: a second one, and an `x`.
fn parse_ending(fields: &[&[u8]]) -> Option<(Option<char>, bool)>
    ensures { option_map (λ ending. (option_to_list ending.0, ending.1)) result ≡ ending_by (map (λ field. field.now) fields.now) }
{
    match fields {
        [] => Some((None, false)),
        [mark] if is_exclusion(mark) => Some((None, true)),
        [second] => Some((Some(character(second)?), false)),
        [second, mark] => {
            if !is_exclusion(mark) {
                return None;
            }
            Some((Some(character(second)?), true))
        }
        _ => None,
    }
}

/// Whether a field is the `x` that keeps a mapping out of the composed pairs.
fn is_exclusion(field: &[u8]) -> bool
    ensures { result ≡ bytes_eq field.now (codes "x") }
{
    field == b"x".as_slice()
}

/// What is said after `map`: `CP CP [CP] [x]`.
fn parse_map(fields: &[&[u8]]) -> Option<Record>
    ensures { option_map said result ≡ mapping_by (map (λ field. field.now) fields.now) }
{
    let [subject, first, ending @ ..] = fields else {
        return None;
    };
    let subject = character(subject)?;
    let first = character(first)?;
    let (second, is_excluded) = parse_ending(ending)?;
    Some(Record::Map {
        character: subject,
        first,
        second,
        is_excluded,
    })
}

/// What is said after `kmap`: `CP CP..`.
fn parse_kmap(alloc: Global, fields: &[&[u8]]) -> Result<Option<Record>, AllocError>
    ensures { IfOk result (λ given. option_map said given ≡ compatibility_by (map (λ field. field.now) fields.now)) }
{
    let [subject, fields @ ..] = fields else {
        return Ok(None);
    };
    let Some(character) = character(subject) else {
        return Ok(None);
    };
    let mapping = parse_some_characters(alloc, fields)?;
    Ok(mapping.map(|mapping| Record::Kmap { character, mapping }))
}

/// What is said after `w` or `t`: `[CP [CP [CP]] |] CP.. ; E..`.
fn parse_weights(
    alloc: Global,
    layer: Layer,
    fields: &[&[u8]],
) -> Result<Option<Record>, AllocError>
    ensures { IfOk result (λ given. option_map said given ≡ weights_by (layer_of layer) (map (λ field. field.now) fields.now)) }
{
    let Some((key, elements)) = split_at_word(fields, b";".as_slice()) else {
        return Ok(None);
    };
    let Some((prefix, text)) = parse_key(alloc, key)? else {
        return Ok(None);
    };
    let elements = parse_elements(alloc, elements)?;
    Ok(elements.map(|elements| Record::Weights {
        layer,
        prefix,
        text,
        elements,
    }))
}

/// What is said after `range`: `CP CP PRIMARY STEP`.
fn parse_range(fields: &[&[u8]]) -> Option<Record>
    ensures { option_map said result ≡ range_by (map (λ field. field.now) fields.now) }
{
    let [first, last, primary, step] = fields else {
        return None;
    };
    Some(Record::Range(Range {
        first: character(first)?,
        last: character(last)?,
        primary: eight_digits(primary)?,
        step: step_value(step)?,
    }))
}

/// What is said after `digit`: `CP N`.
fn parse_digit(fields: &[&[u8]]) -> Option<Record>
    ensures { option_map said result ≡ digit_by (map (λ field. field.now) fields.now) }
{
    let [subject, value] = fields else {
        return None;
    };
    Some(Record::Digit {
        character: character(subject)?,
        value: digit_up_to(value, 9)?,
    })
}

/// What is said after `set`: `NAME VALUE..`.
fn parse_set(alloc: Global, fields: &[&[u8]]) -> Result<Option<Record>, AllocError>
    ensures { IfOk result (λ given. option_map said given ≡ set_by (map (λ field. field.now) fields.now)) }
{
    let [name, values @ ..] = fields else {
        return Ok(None);
    };
    let setting = parse_setting(alloc, name, values)?;
    Ok(setting.map(Record::Set))
}

/// What the fields of a line say.
fn parse_fields(alloc: Global, fields: &[&[u8]]) -> Result<Option<Record>, AllocError>
    ensures { IfOk result (λ given. option_map said given ≡ record_by (map (λ field. field.now) fields.now)) }
{
    let [word, fields @ ..] = fields else {
        return Ok(None);
    };
    if *word == b"class".as_slice() {
        Ok(parse_class(fields))
    } else if *word == b"map".as_slice() {
        Ok(parse_map(fields))
    } else if *word == b"kmap".as_slice() {
        parse_kmap(alloc, fields)
    } else if *word == b"w".as_slice() {
        parse_weights(alloc, Layer::Root, fields)
    } else if *word == b"t".as_slice() {
        parse_weights(alloc, Layer::Tailoring, fields)
    } else if *word == b"range".as_slice() {
        Ok(parse_range(fields))
    } else if *word == b"digit".as_slice() {
        Ok(parse_digit(fields))
    } else if *word == b"set".as_slice() {
        parse_set(alloc, fields)
    } else {
        Ok(None)
    }
}

/// Whether a line is short enough, and in ASCII.
fn is_short_ascii(line: &[u8]) -> bool
    ensures { result ≡ is_short_ascii line.now }
{
    line.len() <= LINE_LIMIT && !line.iter().any(|byte| *byte >= 0x80)
}

/// Whether a line says nothing: it is empty or a comment.
fn is_comment(line: &[u8]) -> bool
    ensures { result ≡ is_remark line.now }
{
    matches!(line, [] | [b'#', ..])
}

/// What a line says, given without its LF, or `None` if it is not in the grammar (docs/RECORDS.md).
///
/// Errors: `AllocError` where memory is refused.
pub fn parse_line(alloc: Global, line: &[u8]) -> Result<Option<Record>, AllocError>
    ensures { IfOk result (λ given. option_map said given ≡ record_of line.now) }
{
    if !is_short_ascii(line) {
        return Ok(None);
    }
    if is_comment(line) {
        return Ok(Some(Record::Nothing));
    }
    parse_fields(alloc, &split_by(alloc, line, b' ')?)
}

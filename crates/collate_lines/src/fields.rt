//! The fields of a line of a records file: words, code points, numbers and elements.

ghost use Rattle.std.specs.Prelude.{◌≡◌, ◌^◌, ◌<◌, ◌≤◌, ◌==◌, length, map, option_map, IfOk, IfSome};
ghost use Rattle.std.specs.List.{slice_split};
ghost use Rattle.collate_lines.specs.Grammar.{class_number, code_point, decimal_digit, decimal_number, digit_to, element, element_by, hex_digit, hex_number, hex_of, in_brackets, is_short, primary, step_number};

use icu_collator_types::elements::Element;
use std::alloc::{AllocError, Global};

/// The value of a decimal digit.
fn digit_value(byte: u8) -> Option<u8>
    ensures { result ≡ decimal_digit byte }
{
    match byte {
        b'0'..=b'9' => Some(byte - b'0'),
        _ => None,
    }
}

/// The value of a hexadecimal digit in upper case.
fn hex_digit_value(byte: u8) -> Option<u8>
    ensures value { result ≡ hex_digit byte }
    ensures bound { IfSome result (λ digit. digit < 16) }
{
    match byte {
        b'A'..=b'F' => Some(byte - b'A' + 10),
        _ => digit_value(byte),
    }
}

/// The number that at most three decimal digits write.
fn decimal(digits: &[u8]) -> Option<u16>
    requires { length digits.now ≤ 3 }
    ensures { result ≡ decimal_number digits.now }
{
    let mut number = 0;
    for byte in digits {
        number = 10 * number + u16::from(digit_value(*byte)?);
    }
    Some(number)
}

/// The number that at most eight hexadecimal digits write.
fn hexadecimal(digits: &[u8]) -> Option<u32>
    requires { length digits.now ≤ 8 }
    ensures value { result ≡ hex_number digits.now }
    ensures bound { IfSome result (λ number. number < 16 ^ length digits.now) }
{
    let mut number = 0;
    for byte in digits {
        number = 16 * number + u32::from(hex_digit_value(*byte)?);
    }
    Some(number)
}

/// Whether a field has from `least` to `most` bytes, and no leading zero if it has more than `least`.
fn is_short_number(field: &[u8], least: usize, most: usize) -> bool
    requires { 1 ≤ least }
    ensures { result ≡ is_short least most field.now }
{
    least <= field.len() && field.len() <= most && (field.len() == least || field[0] != b'0')
}

/// The character that a field names: four to six hexadecimal digits in upper case, no leading zero in more than four (docs/RECORDS.md).
pub(crate) fn character(field: &[u8]) -> Option<char>
    ensures { result ≡ code_point field.now }
{
    if !is_short_number(field, 4, 6) {
        return None;
    }
    char::from_u32(hexadecimal(field)?)
}

/// The class that a field gives: one to three digits without a leading zero (docs/RECORDS.md).
pub(crate) fn class_value(field: &[u8]) -> Option<u16>
    ensures { result ≡ class_number field.now }
{
    if !is_short_number(field, 1, 3) {
        return None;
    }
    decimal(field)
}

/// The step that a field gives: one to three digits (docs/RECORDS.md).
pub(crate) fn step_value(field: &[u8]) -> Option<u16>
    ensures { result ≡ step_number field.now }
{
    if field.is_empty() || field.len() > 3 {
        return None;
    }
    decimal(field)
}

/// The two hexadecimal digits of a lead byte.
pub(crate) fn lead_value(field: &[u8]) -> Option<u8>
    ensures { result ≡ hex_of 2 field.now }
{
    if field.len() != 2 {
        return None;
    }
    Some(hexadecimal(field)? as u8)
}

/// The four hexadecimal digits of a weight.
pub(crate) fn weight(field: &[u8]) -> Option<u16>
    ensures { result ≡ hex_of 4 field.now }
{
    if field.len() != 4 {
        return None;
    }
    Some(hexadecimal(field)? as u16)
}

/// One digit, up to the last.
pub(crate) fn digit_up_to(field: &[u8], last: u8) -> Option<u8>
    ensures { result ≡ digit_to last field.now }
{
    let [byte] = field else {
        return None;
    };
    let value = digit_value(*byte)?;
    (value <= last).then_some(value)
}

/// The eight hexadecimal digits of a primary weight.
pub(crate) fn eight_digits(field: &[u8]) -> Option<u32>
    ensures { result ≡ hex_of 8 field.now }
{
    if field.len() != 8 {
        return None;
    }
    hexadecimal(field)
}

/// P of an element: 0, or eight hexadecimal digits.
fn primary_weight(field: &[u8]) -> Option<u32>
    ensures { result ≡ primary field.now }
{
    if field == b"0".as_slice() {
        return Some(0);
    }
    eight_digits(field)
}

/// What stands between two brackets.
fn bracketed(field: &[u8]) -> Option<&[u8]>
    ensures { option_map (λ part. part.now) result ≡ in_brackets field.now }
{
    match field {
        [b'[', weights @ .., b']'] => Some(weights),
        _ => None,
    }
}

/// The weights of an element, in their order.
fn element_of(weights: &[&[u8]]) -> Option<Element>
    ensures { result ≡ element_by (map (λ part. part.now) weights.now) }
{
    let [primary, secondary, case, tertiary, quaternary] = weights else {
        return None;
    };
    Some(Element {
        primary: primary_weight(primary)?,
        secondary: weight(secondary)?,
        case: digit_up_to(case, 2)?,
        tertiary: weight(tertiary)?,
        quaternary: digit_up_to(quaternary, 3)?,
    })
}

/// The parts of a text between its separators, as they stand; a text without one is one part.
///
/// Errors: `AllocError` where memory is refused.
pub(crate) fn split_by<'a>(
    alloc: Global,
    bytes: &'a [u8],
    separator: u8,
) -> Result<Vec<&'a [u8]>, AllocError>
    ensures { IfOk result (λ parts. map (λ part. part.now) parts.items ≡ slice_split (λ b. b == separator) bytes.now) }
{
    bytes.split(|byte| *byte == separator).collect(alloc)
}

/// The element that a field lists, as `[P.S.C.T.Q]` (docs/RECORDS.md).
///
/// Errors: `AllocError` where memory is refused.
pub(crate) fn listed_element(alloc: Global, field: &[u8]) -> Result<Option<Element>, AllocError>
    ensures { IfOk result (λ found. found ≡ element field.now) }
{
    let Some(weights) = bracketed(field) else {
        return Ok(None);
    };
    Ok(element_of(&split_by(alloc, weights, b'.')?))
}

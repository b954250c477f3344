//! Code points and ranges of them as texts.
ghost use Rattle.std.specs.Prelude.{◌≡◌, ◌≢◌, ℕ, ◌<◌, ◌≤◌, List, [], ◌++◌, IfOk, OnOk, MatchOption, string_bytes};
ghost use Rattle.icu_collections_sets.specs.Spelling.{IsSurrogate, hex_digit, hex_spelling, spelling, range_text, SpellsRange, BeginsWithSurrogate, BeginsWith};

use std::alloc::{AllocError, Global};

/// The value of an upper-case hexadecimal digit.
fn hex_value(byte: u8) -> Option<u32>
    ensures { MatchOption result ((d : ℕ) → d < 16 → byte ≢ hex_digit d) (λ d. (d < 16) × (byte ≡ hex_digit d)) }
{
    match byte {
        b'0'..=b'9' => Some((byte - b'0') as u32),
        b'A'..=b'F' => Some((byte - b'A') as u32 + 10),
        _ => None,
    }
}

/// The surrogate with whose number a text begins.
fn surrogate_at(text: &[u8]) -> Option<u32>
    ensures { MatchOption result ((c : ℕ) (rest : List ℕ) → IsSurrogate c → text.now ≢ hex_spelling c ++ rest) (BeginsWithSurrogate text.now) }
{
    let [b'U', b'+', b'D', second, third, fourth, ..] = text else {
        return None;
    };
    let high = hex_value(*second)?;
    let middle = hex_value(*third)?;
    let low = hex_value(*fourth)?;
    if high < 8 {
        return None;
    }
    Some(0xD000 + high * 0x100 + middle * 0x10 + low)
}

/// The code point with which a text begins, a surrogate by its number, and what follows it; `None`
/// for an empty text.
fn read_code_point(text: &str) -> Option<(u32, &str)>
    ensures { MatchOption result (text.now ≡ []) (λ read. BeginsWith text.now read.0 read.1.now) }
{
    if let Some(surrogate) = surrogate_at(text.as_bytes()) {
        return Some((surrogate, &text[6..]));
    }
    let mut characters = text.chars();
    let character = characters.next()?;
    Some((character as u32, characters.as_str()))
}

/// The range that a text spells, by its first and its last code point.
pub(super) fn read_range(text: &str) -> Option<(u32, u32)>
    ensures { MatchOption result ((range : ℕ × ℕ) → ¬ SpellsRange text.now range) (SpellsRange text.now) }
{
    let (first, rest) = read_code_point(text)?;
    if rest.is_empty() {
        return Some((first, first));
    }
    let end = rest.strip_prefix('-')?;
    let (last, rest) = read_code_point(end)?;
    if rest.is_empty() && first <= last {
        Some((first, last))
    } else {
        None
    }
}

/// The upper-case hexadecimal digit of a value.
fn upper_hex(value: u32) -> char
    requires { value < 16 }
    ensures { result ≡ hex_digit value }
{
    let value = value as u8;
    if value < 10 {
        (b'0' + value) as char
    } else {
        (b'A' + (value - 10)) as char
    }
}

/// Writes the number of a surrogate at the end of a text.
fn push_surrogate(text: &mut String, surrogate: u32) -> Result<(), AllocError>
    requires { IsSurrogate surrogate }
    ensures { OnOk result (string_bytes text.new ≡ string_bytes text.old ++ hex_spelling surrogate) }
{
    text.push_str("U+")?;
    text.push(upper_hex(surrogate >> 12))?;
    text.push(upper_hex((surrogate >> 8) % 16))?;
    text.push(upper_hex((surrogate >> 4) % 16))?;
    text.push(upper_hex(surrogate % 16))?;
    Ok(())
}

/// Writes a code point at the end of a text.
fn push_code_point(text: &mut String, code_point: u32) -> Result<(), AllocError>
    requires { code_point < 0x110000 }
    ensures { OnOk result (string_bytes text.new ≡ string_bytes text.old ++ spelling code_point) }
{
    match char::from_u32(code_point) {
        Some(character) => text.push(character),
        None => push_surrogate(text, code_point),
    }
}

/// The text that spells a range of code points. The only error is `AllocError`.
pub(super) fn write_range(alloc: Global, first: u32, last: u32) -> Result<String, AllocError>
    requires rises { first ≤ last }
    requires within { last < 0x110000 }
    ensures { IfOk result (λ text. string_bytes text ≡ range_text (first, last)) }
{
    let mut text = String::new(alloc);
    push_code_point(&mut text, first)?;
    if first == last {
        return Ok(text);
    }
    text.push('-')?;
    push_code_point(&mut text, last)?;
    Ok(text)
}

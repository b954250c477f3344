//! The characters of a text in UTF-8, one after another: those of one to three bytes by a look at these alone.

ghost use Rattle.std.specs.Prelude.{◌≡◌, ◌<◌, ◌≤◌, ◌∷◌, [], All, IfSome, MatchOption, drop, length};
ghost use Rattle.std.specs.Char.{IsScalar};
ghost use Rattle.std.specs.Iterator.{YieldsFirst, item_count};
ghost use Rattle.icu_normalizer_core.specs.Decoding.{utf8_chars};

use super::characters::PeekLow;
use bstr::ByteSlice;
use std::marker::Model;

/// The characters that are left of a text in UTF-8: what is damaged reads as U+FFFD.
#[derive(Drop)]
pub(crate) struct Utf8Steps<'a> {
    /// The bytes that are left.
    bytes: &'a [u8],
}

impl<'a> Model for Utf8Steps<'a> {
    ghost use Rattle.std.specs.Prelude.{List, ℕ};
    ghost use Rattle.icu_normalizer_core.specs.Decoding.{utf8_chars};

    ghost Value = { List ℕ };

    ghost view = { λ it. utf8_chars it.bytes.now };
}

impl<'a> Utf8Steps<'a> {
    /// All characters of a text.
    #[inline(always)]
    pub(crate) fn new(bytes: &'a [u8]) -> Self
        ensures chars { result ≡ utf8_chars bytes.now }
        ensures scalars { All IsScalar result }
    {
        Utf8Steps { bytes }
    }
}

/// The first character where one or two bytes spell it, and the bytes after it. `None` says nothing.
#[inline(always)]
fn short_char(bytes: &[u8]) -> Option<(char, &[u8])>
    ensures { IfSome result (λ r. utf8_chars bytes.now ≡ r.0 ∷ utf8_chars r.1.now) }
{
    let (lead, rest) = bytes.split_first()?;
    if *lead < 0x80 {
        return Some((*lead as char, rest));
    }
    if *lead < 0xC2 || 0xE0 <= *lead {
        return None;
    }
    let (next, behind) = rest.split_first()?;
    if *next < 0x80 || 0xC0 <= *next {
        return None;
    }
    let code = (*lead as u32 - 0xC0) * 0x40 + (*next as u32 - 0x80);
    Some((char::from_u32(code)?, behind))
}

/// The first character where three bytes spell it. `None` says nothing. (The length is asked once for all three: the parts then
/// come without a question.)
#[inline]
fn three_byte_char(bytes: &[u8]) -> Option<char>
    ensures spelled { IfSome result (λ c. utf8_chars bytes.now ≡ c ∷ utf8_chars (drop 3 bytes.now)) }
    ensures within { IfSome result (λ _. 3 ≤ length bytes.now) }
{
    if bytes.len() < 3 {
        return None;
    }
    let (lead, rest) = bytes.split_first()?;
    let (next, behind) = rest.split_first()?;
    let (last, _after) = behind.split_first()?;
    if *lead < 0xE0 || 0xF0 <= *lead {
        return None;
    }
    if *next < 0x80 || 0xC0 <= *next {
        return None;
    }
    if *last < 0x80 || 0xC0 <= *last {
        return None;
    }
    let front = (*lead as u32 - 0xE0) * 0x40 + (*next as u32 - 0x80);
    let code = front * 0x40 + (*last as u32 - 0x80);
    if code < 0x800 {
        return None;
    }
    if code < 0xD800 {
        let low = char::from_u32(code)?;
        return Some(low);
    }
    let first = char::from_u32(code)?;
    Some(first)
}

/// The first character of any bytes.
#[inline(never)]
fn any_char(bytes: &[u8]) -> Option<char>
    ensures { MatchOption result (utf8_chars bytes.now ≡ []) (λ c. utf8_chars bytes.now ≡ c ∷ drop 1 (utf8_chars bytes.now)) }
{
    let mut chars = bytes.chars();
    chars.next()
}

/// The bytes after the first character of any. Apart from `any_char`, so that both answer in registers.
#[inline(never)]
fn behind_any_char(bytes: &[u8]) -> &[u8]
    ensures { utf8_chars result.now ≡ drop 1 (utf8_chars bytes.now) }
{
    let mut chars = bytes.chars();
    let _first = chars.next();
    chars.as_bytes()
}

/// The first character of any bytes, and the bytes after it: by a look at the bytes alone where one, two or three spell it.
#[inline(always)]
fn first_char(bytes: &[u8]) -> Option<(char, &[u8])>
    ensures { MatchOption result (utf8_chars bytes.now ≡ []) (λ r. utf8_chars bytes.now ≡ r.0 ∷ utf8_chars r.1.now) }
{
    if bytes.is_empty() {
        return None;
    }
    if let Some((first, rest)) = short_char(bytes) {
        return Some((first, rest));
    }
    if let Some(first) = three_byte_char(bytes) {
        return Some((first, &bytes[3..]));
    }
    let first = any_char(bytes)?;
    Some((first, behind_any_char(bytes)))
}

impl<'a> Iterator for Utf8Steps<'a> {
    type Item = char;

    ghost next_gives = { YieldsFirst (λ rest. rest) };

    ghost remaining = { item_count (λ rest. rest) };

    #[inline(always)]
    fn next(&mut self) -> Option<char> {
        let (first, rest) = first_char(self.bytes)?;
        self.bytes = rest;
        Some(first)
    }
}

impl<'a> PeekLow for Utf8Steps<'a> {
    #[inline(always)]
    fn again(&self) -> Self {
        Utf8Steps { bytes: self.bytes }
    }

    #[inline(always)]
    fn peek_low(&self) -> u8 {
        match self.bytes.split_first() {
            Some((lead, _rest)) => *lead,
            None => u8::MAX,
        }
    }
}

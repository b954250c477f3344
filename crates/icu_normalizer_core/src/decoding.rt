//! Characters from UTF-8, UTF-16 and Latin-1, as iterators from either end. What is damaged reads as U+FFFD, so
//! each call answers for any bytes or units, and nothing is allocated.
ghost use Rattle.std.specs.Prelude.{◌≡◌, ◌≤◌, ◌++◌, ◌∷◌, [], ◌&&◌, List, ℕ, true, length, MatchOption, ⊤};
ghost use Rattle.std.specs.Iterator.{YieldsFirst, YieldsLast, item_count};
ghost use Rattle.std.specs.List.{All, flat_map};
ghost use Rattle.std.specs.Option.{unwrap_or};
ghost use Rattle.std.specs.Char.{IsScalar};
ghost use Rattle.std.specs.Char.Escape.{encode_utf16};
ghost use Rattle.std.specs.Char.Utf16.{is_high_surrogate, is_low_surrogate, lone_unit_char, surrogate_pair_char};
ghost use Rattle.std.specs.Str.{encode_utf8_all};
ghost use Rattle.icu_normalizer_core.specs.Decoding.{utf8_chars, utf16_chars, latin1_chars};

use bstr::{ByteSlice, Chars};
use std::alloc::AllocError;
use std::iter::FusedIterator;
use std::marker::Model;

/// The characters of UTF-8 bytes, from either end: U+FFFD stands for each maximal subpart that is no character (the
/// Unicode Standard, Table 3-7). It is the `Utf8Chars` of `utf8_iter`, which ICU4X reads bytes with.
#[derive(Debug, Drop)]
pub struct Utf8Chars<'a> {
    chars: Chars<'a>,
}

impl<'a> Model for Utf8Chars<'a> {
    ghost Value = { List ℕ };

    ghost view = { λ it. it.chars };
}

/// The characters of UTF-8 bytes. Bytes that are no character are no error: they read as U+FFFD.
#[tactic(auto, using(crate::proofs::decoded::DecodedLemmas::utf8_length, crate::proofs::decoded::DecodedLemmas::utf8_scalars))]
pub fn decode_utf8(bytes: &[u8]) -> Utf8Chars<'_>
    ensures chars { result ≡ utf8_chars bytes.now }
    ensures bound { length result ≤ length bytes.now }
    ensures scalars { All IsScalar result }
{
    Utf8Chars {
        chars: bytes.chars(),
    }
}

impl<'a> Iterator for Utf8Chars<'a> {
    type Item = char;

    ghost next_gives = { YieldsFirst (λ rest. rest) };

    ghost remaining = { item_count (λ rest. rest) };

    #[inline(always)]
    fn next(&mut self) -> Option<char> {
        self.chars.next()
    }
}

impl<'a> DoubleEndedIterator for Utf8Chars<'a> {
    ghost next_back_gives = { YieldsLast (λ rest. rest) };

    fn next_back(&mut self) -> Option<char> {
        self.chars.next_back()
    }
}

impl<'a> FusedIterator for Utf8Chars<'a> {}

impl<'a> Clone for Utf8Chars<'a> {
    ghost is_clone = { λ it copy. copy ≡ it };

    ghost is_infallible = { λ _. ⊤ };

    fn clone(&self) -> Result<Self, AllocError> {
        Ok(Utf8Chars {
            chars: self.chars.clone()?,
        })
    }
}

/// The characters of UTF-16 units, from either end: U+FFFD stands for each surrogate that has no partner. It is the
/// `Utf16Chars` of `utf16_iter`, which ICU4X reads units with.
#[derive(Debug, Drop)]
pub struct Utf16Chars<'a> {
    units: &'a [u16],
}

impl<'a> Model for Utf16Chars<'a> {
    ghost Value = { List ℕ };

    ghost view = { λ it. utf16_chars it.units.now };
}

/// The characters of UTF-16 units. A surrogate that has no partner is no error: it reads as U+FFFD.
#[tactic(auto, using(crate::proofs::decoded::DecodedLemmas::utf16_length, crate::proofs::decoded::DecodedLemmas::unit_scalars))]
pub fn decode_utf16(units: &[u16]) -> Utf16Chars<'_>
    ensures chars { result ≡ utf16_chars units.now }
    ensures bound { length result ≤ length units.now }
    ensures scalars { All IsScalar result }
{
    Utf16Chars { units }
}

// Whether the two units are the halves of a surrogate pair.
fn is_pair(high: u16, low: u16) -> bool
    ensures { result ≡ (is_high_surrogate high && is_low_surrogate low) }
{
    0xD800 <= high && high < 0xDC00 && 0xDC00 <= low && low < 0xE000
}

// The character of a surrogate pair, from U+10000 on.
fn pair_char(high: u16, low: u16) -> char
    requires { (is_high_surrogate high && is_low_surrogate low) ≡ true }
    ensures { result ≡ surrogate_pair_char high low }
{
    let code = 0x1_0000 + (high as u32 - 0xD800) * 0x400 + (low as u32 - 0xDC00);
    char::from_u32(code).unwrap()
}

// The character of a unit that is in no pair.
fn lone_char(unit: u16) -> char
    ensures { result ≡ unwrap_or (lone_unit_char unit) 0xFFFD }
{
    char::from_u32(unit as u32).unwrap_or(char::REPLACEMENT_CHARACTER)
}

// The first character, and the units after it.
#[tactic(auto, using(crate::proofs::decoded::Utf16Lemmas::none_left, crate::proofs::decoded::Utf16Lemmas::first_pair))]
fn first_char(units: &[u16]) -> Option<(char, &[u16])>
    ensures { MatchOption result (utf16_chars units.now ≡ []) (λ r. utf16_chars units.now ≡ r.0 ∷ utf16_chars r.1.now) }
{
    match units {
        [high, low, rest @ ..] if is_pair(*high, *low) => Some((pair_char(*high, *low), rest)),
        [unit, rest @ ..] => Some((lone_char(*unit), rest)),
        [] => None,
    }
}

// The units before the last character, and that character. A low surrogate is of a pair where a high one stands
// right before it.
#[tactic(auto, using(crate::proofs::decoded::Utf16Lemmas::none_left, crate::proofs::decoded::Utf16Lemmas::last_pair, crate::proofs::decoded::Utf16Lemmas::last_lone))]
fn last_char(units: &[u16]) -> Option<(&[u16], char)>
    ensures { MatchOption result (utf16_chars units.now ≡ []) (λ r. utf16_chars units.now ≡ utf16_chars r.0.now ++ r.1 ∷ []) }
{
    match units {
        [front @ .., high, low] if is_pair(*high, *low) => Some((front, pair_char(*high, *low))),
        [front @ .., unit] => Some((front, lone_char(*unit))),
        [] => None,
    }
}

impl<'a> Iterator for Utf16Chars<'a> {
    type Item = char;

    ghost next_gives = { YieldsFirst (λ rest. rest) };

    ghost remaining = { item_count (λ rest. rest) };

    fn next(&mut self) -> Option<char> {
        let (first, rest) = first_char(self.units)?;
        self.units = rest;
        Some(first)
    }
}

impl<'a> DoubleEndedIterator for Utf16Chars<'a> {
    ghost next_back_gives = { YieldsLast (λ rest. rest) };

    fn next_back(&mut self) -> Option<char> {
        let (front, last) = last_char(self.units)?;
        self.units = front;
        Some(last)
    }
}

impl<'a> FusedIterator for Utf16Chars<'a> {}

impl<'a> Clone for Utf16Chars<'a> {
    ghost is_clone = { λ it copy. copy ≡ it };

    ghost is_infallible = { λ _. ⊤ };

    fn clone(&self) -> Result<Self, AllocError> {
        Ok(Utf16Chars { units: self.units })
    }
}

/// The characters of Latin-1 bytes, from either end: each byte is the number of its character. It is ICU4X's
/// `Latin1Chars`.
#[derive(Debug, Drop)]
pub struct Latin1Chars<'a> {
    bytes: &'a [u8],
}

impl<'a> Model for Latin1Chars<'a> {
    ghost Value = { List ℕ };

    ghost view = { λ it. latin1_chars it.bytes.now };
}

/// The characters of Latin-1 bytes, as many as there are bytes.
#[tactic(auto, using(crate::proofs::decoded::DecodedLemmas::latin1_scalars))]
pub fn decode_latin1(bytes: &[u8]) -> Latin1Chars<'_>
    ensures chars { result ≡ latin1_chars bytes.now }
    ensures bound { length result ≤ length bytes.now }
    ensures scalars { All IsScalar result }
{
    Latin1Chars { bytes }
}

impl<'a> Iterator for Latin1Chars<'a> {
    type Item = char;

    ghost next_gives = { YieldsFirst (λ rest. rest) };

    ghost remaining = { item_count (λ rest. rest) };

    fn next(&mut self) -> Option<char> {
        let (first, rest) = self.bytes.split_first()?;
        self.bytes = rest;
        Some(*first as char)
    }
}

impl<'a> DoubleEndedIterator for Latin1Chars<'a> {
    ghost next_back_gives = { YieldsLast (λ rest. rest) };

    fn next_back(&mut self) -> Option<char> {
        let (last, rest) = self.bytes.split_last()?;
        self.bytes = rest;
        Some(*last as char)
    }
}

impl<'a> FusedIterator for Latin1Chars<'a> {}

impl<'a> Clone for Latin1Chars<'a> {
    ghost is_clone = { λ it copy. copy ≡ it };

    ghost is_infallible = { λ _. ⊤ };

    fn clone(&self) -> Result<Self, AllocError> {
        Ok(Latin1Chars { bytes: self.bytes })
    }
}

/// The law that text reads as it was written: characters that UTF-8 or UTF-16 encodes are the characters that its
/// bytes or units decode to. It does nothing when it runs.
#[tactic(auto, using(crate::proofs::decoded::CanonicalTextLemmas::utf8_text, crate::proofs::decoded::CanonicalTextLemmas::utf16_text))]
pub fn text_reads_as_written()
    ensures utf8 { (chars : List ℕ) → All IsScalar chars → utf8_chars (encode_utf8_all chars) ≡ chars }
    ensures utf16 { (chars : List ℕ) → All IsScalar chars → utf16_chars (flat_map encode_utf16 chars) ≡ chars }
{}

//! The characters of a text in UTF-16, one after another: those of one unit by a look at it alone.

ghost use Rattle.std.specs.Prelude.{◌≡◌, ◌∷◌, [], All, IfSome, MatchOption};
ghost use Rattle.std.specs.Char.{IsScalar};
ghost use Rattle.std.specs.Iterator.{YieldsFirst, item_count};
ghost use Rattle.icu_normalizer_core.specs.Decoding.{utf16_chars};

use super::characters::PeekLow;
use icu_normalizer_core::decoding::decode_utf16;
use std::marker::Model;

/// The characters that are left of a text in UTF-16: a surrogate without its partner reads as U+FFFD.
#[derive(Drop)]
pub(crate) struct Utf16Steps<'a> {
    /// The units that are left.
    units: &'a [u16],
}

impl<'a> Model for Utf16Steps<'a> {
    ghost use Rattle.std.specs.Prelude.{List, ℕ};
    ghost use Rattle.icu_normalizer_core.specs.Decoding.{utf16_chars};

    ghost Value = { List ℕ };

    ghost view = { λ it. utf16_chars it.units.now };
}

impl<'a> Utf16Steps<'a> {
    /// All characters of a text.
    #[inline(always)]
    pub(crate) fn new(units: &'a [u16]) -> Self
        ensures chars { result ≡ utf16_chars units.now }
        ensures scalars { All IsScalar result }
    {
        Utf16Steps { units }
    }
}

/// The first character where one unit spells it, and the units after it. `None` says nothing.
#[inline(always)]
fn short_char(units: &[u16]) -> Option<(char, &[u16])>
    ensures { IfSome result (λ r. utf16_chars units.now ≡ r.0 ∷ utf16_chars r.1.now) }
{
    let (unit, rest) = units.split_first()?;
    let first = char::from_u32(*unit as u32)?;
    Some((first, rest))
}

/// The first character of any units, and the units after it.
#[inline(never)]
fn any_char(units: &[u16]) -> Option<(char, &[u16])>
    ensures { MatchOption result (utf16_chars units.now ≡ []) (λ r. utf16_chars units.now ≡ r.0 ∷ utf16_chars r.1.now) }
{
    let mut chars = decode_utf16(units);
    let first = chars.next()?;
    if first < '\u{10000}' {
        Some((first, &units[1..]))
    } else {
        Some((first, &units[2..]))
    }
}

impl<'a> Iterator for Utf16Steps<'a> {
    type Item = char;

    ghost next_gives = { YieldsFirst (λ rest. rest) };

    ghost remaining = { item_count (λ rest. rest) };

    #[inline(always)]
    fn next(&mut self) -> Option<char> {
        if let Some((first, rest)) = short_char(self.units) {
            self.units = rest;
            return Some(first);
        }
        let (first, rest) = any_char(self.units)?;
        self.units = rest;
        Some(first)
    }
}

impl<'a> PeekLow for Utf16Steps<'a> {
    #[inline(always)]
    fn again(&self) -> Self {
        Utf16Steps { units: self.units }
    }

    #[inline(always)]
    fn peek_low(&self) -> u8 {
        match self.units.split_first() {
            Some((unit, _rest)) => { if *unit < 0x80 { *unit as u8 } else { u8::MAX } }
            None => u8::MAX,
        }
    }
}

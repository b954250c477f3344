//! The characters of a text in Latin-1, one after another.

ghost use Rattle.std.specs.Prelude.{◌≡◌, All};
ghost use Rattle.std.specs.Char.{IsScalar};
ghost use Rattle.std.specs.Iterator.{YieldsFirst, item_count};
ghost use Rattle.icu_normalizer_core.specs.Decoding.{latin1_chars};

use super::characters::PeekLow;
use std::marker::Model;

/// The characters that are left of a text in Latin-1: each byte is a character.
#[derive(Drop)]
pub(crate) struct Latin1Steps<'a> {
    /// The bytes that are left.
    bytes: &'a [u8],
}

impl<'a> Model for Latin1Steps<'a> {
    ghost use Rattle.std.specs.Prelude.{List, ℕ};
    ghost use Rattle.icu_normalizer_core.specs.Decoding.{latin1_chars};

    ghost Value = { List ℕ };

    ghost view = { λ it. latin1_chars it.bytes.now };
}

impl<'a> Latin1Steps<'a> {
    /// All characters of a text.
    #[inline(always)]
    pub(crate) fn new(bytes: &'a [u8]) -> Self
        ensures chars { result ≡ latin1_chars bytes.now }
        ensures scalars { All IsScalar result }
    {
        Latin1Steps { bytes }
    }
}

impl<'a> Iterator for Latin1Steps<'a> {
    type Item = char;

    ghost next_gives = { YieldsFirst (λ rest. rest) };

    ghost remaining = { item_count (λ rest. rest) };

    #[inline(always)]
    fn next(&mut self) -> Option<char> {
        let (first, rest) = self.bytes.split_first()?;
        self.bytes = rest;
        Some(*first as char)
    }
}

impl<'a> PeekLow for Latin1Steps<'a> {
    #[inline(always)]
    fn again(&self) -> Self {
        Latin1Steps { bytes: self.bytes }
    }

    #[inline(always)]
    fn peek_low(&self) -> u8 {
        match self.bytes.split_first() {
            Some((first, _rest)) => *first,
            None => u8::MAX,
        }
    }
}

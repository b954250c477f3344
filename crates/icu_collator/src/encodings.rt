//! Texts in each encoding, as the characters that they decode to.

ghost use Rattle.icu_normalizer_core.specs.Decoding.{latin1_chars, utf16_chars, utf8_chars};

mod characters;
mod latin1;
mod utf16;
mod utf8;

pub(crate) use characters::{Characters, PeekLow};
use latin1::Latin1Steps;
use utf8::Utf8Steps;
use utf16::Utf16Steps;

/// A text in UTF-8: what is damaged reads as U+FFFD.
#[derive(Clone, Copy)]
pub(crate) struct Utf8Text<'a> {
    /// The bytes.
    pub(crate) bytes: &'a [u8],
}

impl<'a> Characters for Utf8Text<'a> {
    type Chars = Utf8Steps<'a>;

    ghost characters = { λ text. utf8_chars text.bytes.now };

    #[inline(always)]
    fn chars(self) -> Utf8Steps<'a> {
        Utf8Steps::new(self.bytes)
    }

    #[inline(always)]
    fn size(self) -> usize {
        self.bytes.len()
    }
}

/// A text in UTF-16: a surrogate without its partner reads as U+FFFD.
#[derive(Clone, Copy)]
pub(crate) struct Utf16Text<'a> {
    /// The units.
    pub(crate) units: &'a [u16],
}

impl<'a> Characters for Utf16Text<'a> {
    type Chars = Utf16Steps<'a>;

    ghost characters = { λ text. utf16_chars text.units.now };

    #[inline(always)]
    fn chars(self) -> Utf16Steps<'a> {
        Utf16Steps::new(self.units)
    }

    #[inline(always)]
    fn size(self) -> usize {
        self.units.len()
    }
}

/// A text in Latin-1: each byte is a character.
#[derive(Clone, Copy)]
pub(crate) struct Latin1Text<'a> {
    /// The bytes.
    pub(crate) bytes: &'a [u8],
}

impl<'a> Characters for Latin1Text<'a> {
    type Chars = Latin1Steps<'a>;

    ghost characters = { λ text. latin1_chars text.bytes.now };

    #[inline(always)]
    fn chars(self) -> Latin1Steps<'a> {
        Latin1Steps::new(self.bytes)
    }

    #[inline(always)]
    fn size(self) -> usize {
        self.bytes.len()
    }
}

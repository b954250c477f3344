//! Texts on their way to sinks, in their own encoding.

ghost use Rattle.std.specs.Prelude.{◌≡◌, ℕ, List, [], ◌∷◌, ◌++◌, IfOk, OnOk, OnErr, IfErr, encode_utf8_all, string_bytes};
ghost use Rattle.icu_normalizer.specs.Sinks.{AddsPrefix, EndsByFailure};
ghost use Rattle.icu_normalizer.specs.Texts.{IsUndamaged, encode_utf16_all};

mod several;

use super::bytes::known as known_text;
use super::text::Text;
use crate::sinks::{NormError, TextSink, UnitSink};
use several::{write_text_chars, write_unit_chars};
use std::alloc::{AllocError, Global};

/// A text that can be written to a sink `S`, which holds characters in the encoding of the text.
///
/// `contents`, `takes` and `fails` say of the sink what those of `TextSink` do.
pub(crate) trait WriteTo<S>: Text {
    /// Why a write can't be taken.
    type Error: Drop;

    ghost contents: { S → List ℕ };

    ghost takes: { S → S → Type 0 };

    ghost fails: { S → Self.Error → S → Type 0 };

    /// Writes a character. After an error the sink holds what it held, and a prefix of the character's units.
    fn write_char(sink: &mut S, c: char) -> Result<(), Self::Error>
        ensures ok { OnOk result (contents sink.new ≡ contents sink.old ++ Self.encode (c ∷ [])) }
        ensures err { OnErr result (AddsPrefix (contents sink.old) (Self.encode (c ∷ [])) (contents sink.new)) }
        ensures taken { OnOk result (takes sink.old sink.new) }
        ensures failed { IfErr result (λ error. fails sink.old error sink.new) };

    /// Writes characters. After an error the sink holds what it held, and a prefix of the characters' units.
    fn write_chars(sink: &mut S, chars: &[char]) -> Result<(), NormError<Self::Error>>
        ensures ok { OnOk result (contents sink.new ≡ contents sink.old ++ Self.encode chars.now) }
        ensures err { OnErr result (AddsPrefix (contents sink.old) (Self.encode chars.now) (contents sink.new)) }
        ensures failure { EndsByFailure takes fails sink.old result sink.new };

    /// Writes a text that is undamaged. After an error the sink holds what it held, and a prefix of the text.
    fn write_whole(self, sink: &mut S) -> Result<(), Self::Error>
        requires { IsUndamaged Self.encode (Self.spelled self) }
        ensures ok { OnOk result (contents sink.new ≡ contents sink.old ++ (Self.spelled self).units) }
        ensures err { OnErr result (AddsPrefix (contents sink.old) (Self.spelled self).units (contents sink.new)) }
        ensures taken { OnOk result (takes sink.old sink.new) }
        ensures failed { IfErr result (λ error. fails sink.old error sink.new) };
}

/// A text whose form can be held in an `S`.
pub(crate) trait HoldIn<S>: WriteTo<S> {
    /// One that holds nothing, with room for so many units.
    fn empty(alloc: Global, room: usize) -> Result<S, AllocError>
        ensures { IfOk result (λ sink. Self.contents sink ≡ []) };
}

impl<'t, S: TextSink> WriteTo<S> for &'t str {
    type Error = S::Error;

    ghost contents = { S.contents };

    ghost takes = { S.takes };

    ghost fails = { S.fails };

    #[inline]
    fn write_char(sink: &mut S, c: char) -> Result<(), S::Error>
        ensures ok { OnOk result (S.contents sink.new ≡ S.contents sink.old ++ encode_utf8_all (c ∷ [])) }
        ensures err { OnErr result (AddsPrefix (S.contents sink.old) (encode_utf8_all (c ∷ [])) (S.contents sink.new)) }
        ensures taken { OnOk result (S.takes sink.old sink.new) }
        ensures failed { IfErr result (λ error. S.fails sink.old error sink.new) }
    {
        sink.write_char(c)
    }

    #[inline]
    fn write_chars(sink: &mut S, chars: &[char]) -> Result<(), NormError<S::Error>>
        ensures ok { OnOk result (S.contents sink.new ≡ S.contents sink.old ++ encode_utf8_all chars.now) }
        ensures err { OnErr result (AddsPrefix (S.contents sink.old) (encode_utf8_all chars.now) (S.contents sink.new)) }
        ensures failure { EndsByFailure S.takes S.fails sink.old result sink.new }
    {
        write_text_chars(sink, chars)
    }

    #[inline]
    fn write_whole(self, sink: &mut S) -> Result<(), S::Error> {
        sink.write_str(self)
    }
}

impl<'t, S: TextSink> WriteTo<S> for &'t [u8] {
    type Error = S::Error;

    ghost contents = { S.contents };

    ghost takes = { S.takes };

    ghost fails = { S.fails };

    #[inline]
    fn write_char(sink: &mut S, c: char) -> Result<(), S::Error>
        ensures ok { OnOk result (S.contents sink.new ≡ S.contents sink.old ++ encode_utf8_all (c ∷ [])) }
        ensures err { OnErr result (AddsPrefix (S.contents sink.old) (encode_utf8_all (c ∷ [])) (S.contents sink.new)) }
        ensures taken { OnOk result (S.takes sink.old sink.new) }
        ensures failed { IfErr result (λ error. S.fails sink.old error sink.new) }
    {
        sink.write_char(c)
    }

    #[inline]
    fn write_chars(sink: &mut S, chars: &[char]) -> Result<(), NormError<S::Error>>
        ensures ok { OnOk result (S.contents sink.new ≡ S.contents sink.old ++ encode_utf8_all chars.now) }
        ensures err { OnErr result (AddsPrefix (S.contents sink.old) (encode_utf8_all chars.now) (S.contents sink.new)) }
        ensures failure { EndsByFailure S.takes S.fails sink.old result sink.new }
    {
        write_text_chars(sink, chars)
    }

    #[inline]
    fn write_whole(self, sink: &mut S) -> Result<(), S::Error> {
        sink.write_str(known_text(self))
    }
}

impl<'t, S: UnitSink> WriteTo<S> for &'t [u16] {
    type Error = S::Error;

    ghost contents = { S.contents };

    ghost takes = { S.takes };

    ghost fails = { S.fails };

    #[inline]
    fn write_char(sink: &mut S, c: char) -> Result<(), S::Error>
        ensures ok { OnOk result (S.contents sink.new ≡ S.contents sink.old ++ encode_utf16_all (c ∷ [])) }
        ensures err { OnErr result (AddsPrefix (S.contents sink.old) (encode_utf16_all (c ∷ [])) (S.contents sink.new)) }
        ensures taken { OnOk result (S.takes sink.old sink.new) }
        ensures failed { IfErr result (λ error. S.fails sink.old error sink.new) }
    {
        sink.write_char(c)
    }

    #[inline]
    fn write_chars(sink: &mut S, chars: &[char]) -> Result<(), NormError<S::Error>>
        ensures ok { OnOk result (S.contents sink.new ≡ S.contents sink.old ++ encode_utf16_all chars.now) }
        ensures err { OnErr result (AddsPrefix (S.contents sink.old) (encode_utf16_all chars.now) (S.contents sink.new)) }
        ensures failure { EndsByFailure S.takes S.fails sink.old result sink.new }
    {
        write_unit_chars(sink, chars)
    }

    #[inline]
    fn write_whole(self, sink: &mut S) -> Result<(), S::Error> {
        sink.write_slice(self)
    }
}

impl<'t> HoldIn<String> for &'t str {
    #[inline]
    fn empty(alloc: Global, room: usize) -> Result<String, AllocError>
        ensures { IfOk result (λ sink. string_bytes sink ≡ []) }
    {
        String::with_capacity(alloc, room)
    }
}

impl<'t> HoldIn<String> for &'t [u8] {
    #[inline]
    fn empty(alloc: Global, room: usize) -> Result<String, AllocError>
        ensures { IfOk result (λ sink. string_bytes sink ≡ []) }
    {
        String::with_capacity(alloc, room)
    }
}

impl<'t> HoldIn<Vec<u16>> for &'t [u16] {
    #[inline]
    fn empty(alloc: Global, room: usize) -> Result<Vec<u16>, AllocError>
        ensures { IfOk result (λ sink. sink.items ≡ []) }
    {
        Vec::with_capacity(alloc, room)
    }
}

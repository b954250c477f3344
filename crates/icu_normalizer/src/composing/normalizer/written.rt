//! The NFC of bytes and of units. What is damaged reads as U+FFFD.

ghost use Rattle.std.specs.Prelude.{◌≡◌, ◌++◌, ◌↔◌, IfOk, OnOk, OnErr, encode_utf8_all};
ghost use Rattle.std.specs.Cow.{cow_str_bytes, cow_slice_items, IsBorrowedStr, IsBorrowedSlice};
ghost use Rattle.icu_normalizer_core.specs.Canonical.{composed};
ghost use Rattle.icu_normalizer_core.specs.Decoding.{utf8_chars, utf16_chars};
ghost use Rattle.icu_normalizer.specs.Sinks.{AddsPrefix, EndsByFailure};
ghost use Rattle.icu_normalizer.specs.TextCuts.{IsOwnText};
ghost use Rattle.icu_normalizer.specs.Texts.{utf8_text, utf16_text, encode_utf16_all};

use super::ComposingNormalizerBorrowed;
use crate::sinks::{NormError, TextSink, UnitSink};
use crate::written::held::{normal_bytes, normal_units};
use crate::written::{write_bytes, write_form};
use std::alloc::{AllocError, Global};
use std::borrow::{CowSlice, CowStr};

impl ComposingNormalizerBorrowed<'_> {
    ghost use Rattle.icu_normalizer.specs.Normalizers.{composing_data};

    /// The NFC of bytes, read as UTF-8, borrowed exactly where they are undamaged and their own NFC.
    pub fn normalize_utf8<'t>(
        &self,
        alloc: Global,
        text: &'t [u8],
    ) -> Result<CowStr<'t>, AllocError>
        ensures normal { IfOk result (λ form. cow_str_bytes form ≡ encode_utf8_all (composed (composing_data self.now) (utf8_chars text.now))) }
        ensures borrowed { IfOk result (λ form. IsBorrowedStr form ↔ IsOwnText encode_utf8_all (composed (composing_data self.now)) (utf8_text text.now)) }
    {
        normal_bytes::<Self>(self, alloc, text)
    }

    /// The NFC of units, read as UTF-16, borrowed exactly where they are undamaged and their own NFC.
    pub fn normalize_utf16<'t>(
        &self,
        alloc: Global,
        text: &'t [u16],
    ) -> Result<CowSlice<'t, u16>, AllocError>
        ensures normal { IfOk result (λ form. cow_slice_items form ≡ encode_utf16_all (composed (composing_data self.now) (utf16_chars text.now))) }
        ensures borrowed { IfOk result (λ form. IsBorrowedSlice form ↔ IsOwnText encode_utf16_all (composed (composing_data self.now)) (utf16_text text.now)) }
    {
        normal_units::<Self>(self, alloc, text)
    }

    /// Writes the NFC of bytes, read as UTF-8, to a sink. After an error the sink holds what it held, and a prefix of that
    /// NFC. `NormError::Sink` is the error of the last write, and `NormError::Memory` comes where the sink took each write.
    pub fn normalize_utf8_to<S: TextSink>(
        &self,
        alloc: Global,
        text: &[u8],
        sink: &mut S,
    ) -> Result<(), NormError<S::Error>>
        ensures ok { OnOk result (S.contents sink.new ≡ S.contents sink.old ++ encode_utf8_all (composed (composing_data self.now) (utf8_chars text.now))) }
        ensures err { OnErr result (AddsPrefix (S.contents sink.old) (encode_utf8_all (composed (composing_data self.now) (utf8_chars text.now))) (S.contents sink.new)) }
        ensures failure { EndsByFailure S.takes S.fails sink.old result sink.new }
    {
        write_bytes::<Self, S>(self, alloc, text, sink)
    }

    /// Writes the NFC of units, read as UTF-16, to a sink. After an error the sink holds what it held, and a prefix of that
    /// NFC. `NormError::Sink` is the error of the last write, and `NormError::Memory` comes where the sink took each write.
    pub fn normalize_utf16_to<S: UnitSink>(
        &self,
        alloc: Global,
        text: &[u16],
        sink: &mut S,
    ) -> Result<(), NormError<S::Error>>
        ensures ok { OnOk result (S.contents sink.new ≡ S.contents sink.old ++ encode_utf16_all (composed (composing_data self.now) (utf16_chars text.now))) }
        ensures err { OnErr result (AddsPrefix (S.contents sink.old) (encode_utf16_all (composed (composing_data self.now) (utf16_chars text.now))) (S.contents sink.new)) }
        ensures failure { EndsByFailure S.takes S.fails sink.old result sink.new }
    {
        write_form::<Self, &[u16], S>(self, alloc, text, sink)
    }
}

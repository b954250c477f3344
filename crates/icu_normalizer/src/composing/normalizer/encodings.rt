//! Bytes and units that are in NFC, wholly or in part. What is damaged reads as U+FFFD, and is a change.

ghost use Rattle.std.specs.Prelude.{◌≡◌, [], ◌++◌, ◌↔◌, IsTrue, IfOk, encode_utf8_all};
ghost use Rattle.icu_normalizer_core.specs.Canonical.{composed};
ghost use Rattle.icu_normalizer_core.specs.Decoding.{utf8_chars, utf16_chars};
ghost use Rattle.icu_normalizer.specs.TextCuts.{IsOwnText, ReachesTo};
ghost use Rattle.icu_normalizer.specs.Texts.{utf8_text, utf16_text, encode_utf16_all, IsUndamaged};

use super::super::cuts::split;
use super::ComposingNormalizerBorrowed;
use crate::text_sources::{known_text, valid_text};
use std::alloc::{AllocError, Global};

impl ComposingNormalizerBorrowed<'_> {
    ghost use Rattle.icu_normalizer.specs.Normalizers.{composing_data};

    /// Whether bytes, read as UTF-8, are undamaged and their own NFC. Memory is taken for long runs of marks alone.
    pub fn is_normalized_utf8(&self, alloc: Global, text: &[u8]) -> Result<bool, AllocError>
        ensures { IfOk result (λ is. IsTrue is ↔ IsOwnText encode_utf8_all (composed (composing_data self.now)) (utf8_text text.now)) }
    {
        match valid_text(text) {
            Some(valid) => self.is_own(alloc, valid),
            None => Ok(false),
        }
    }

    /// Bytes, read as UTF-8, in two parts: the prefix and the NFC of the rest are together the NFC of the text. The
    /// prefix is undamaged. The rest is empty exactly where the text is undamaged and its own NFC. The prefix holds at
    /// least all that stands before the last character below U+0300 at or before the first difference between the text
    /// and its NFC, where a damaged part is a difference. Memory is taken for long runs of marks alone.
    pub fn split_normalized_utf8<'t>(
        &self,
        alloc: Global,
        text: &'t [u8],
    ) -> Result<(&'t str, &'t [u8]), AllocError>
        ensures whole { IfOk result (λ parts. parts.0.now ++ parts.1.now ≡ text.now) }
        ensures undamaged { IfOk result (λ parts. IsUndamaged encode_utf8_all (utf8_text parts.0.now)) }
        ensures normal { IfOk result (λ parts. utf8_chars parts.0.now ++ composed (composing_data self.now) (utf8_chars parts.1.now) ≡ composed (composing_data self.now) (utf8_chars text.now)) }
        ensures bytes { IfOk result (λ parts. parts.0.now ++ encode_utf8_all (composed (composing_data self.now) (utf8_chars parts.1.now)) ≡ encode_utf8_all (composed (composing_data self.now) (utf8_chars text.now))) }
        ensures empty { IfOk result (λ parts. (parts.1.now ≡ []) ↔ IsOwnText encode_utf8_all (composed (composing_data self.now)) (utf8_text text.now)) }
        ensures far { IfOk result (λ parts. ReachesTo encode_utf8_all (composed (composing_data self.now)) 0x300 (utf8_text text.now) (utf8_chars parts.0.now)) }
    {
        let (prefix, rest) = split(alloc, self.basis, self.low, text)?;
        Ok((known_text(prefix), rest))
    }

    /// Whether units, read as UTF-16, are undamaged and their own NFC. Memory is taken for long runs of marks alone.
    pub fn is_normalized_utf16(&self, alloc: Global, text: &[u16]) -> Result<bool, AllocError>
        ensures { IfOk result (λ is. IsTrue is ↔ IsOwnText encode_utf16_all (composed (composing_data self.now)) (utf16_text text.now)) }
    {
        self.is_own(alloc, text)
    }

    /// Units, read as UTF-16, in two parts: the prefix and the NFC of the rest are together the NFC of the text. The
    /// prefix is undamaged. The rest is empty exactly where the text is undamaged and its own NFC. The prefix holds at
    /// least all that stands before the last character below U+0300 at or before the first difference between the text
    /// and its NFC, where a damaged part is a difference. Memory is taken for long runs of marks alone.
    pub fn split_normalized_utf16<'t>(
        &self,
        alloc: Global,
        text: &'t [u16],
    ) -> Result<(&'t [u16], &'t [u16]), AllocError>
        ensures whole { IfOk result (λ parts. parts.0.now ++ parts.1.now ≡ text.now) }
        ensures undamaged { IfOk result (λ parts. IsUndamaged encode_utf16_all (utf16_text parts.0.now)) }
        ensures normal { IfOk result (λ parts. utf16_chars parts.0.now ++ composed (composing_data self.now) (utf16_chars parts.1.now) ≡ composed (composing_data self.now) (utf16_chars text.now)) }
        ensures units { IfOk result (λ parts. parts.0.now ++ encode_utf16_all (composed (composing_data self.now) (utf16_chars parts.1.now)) ≡ encode_utf16_all (composed (composing_data self.now) (utf16_chars text.now))) }
        ensures empty { IfOk result (λ parts. (parts.1.now ≡ []) ↔ IsOwnText encode_utf16_all (composed (composing_data self.now)) (utf16_text text.now)) }
        ensures far { IfOk result (λ parts. ReachesTo encode_utf16_all (composed (composing_data self.now)) 0x300 (utf16_text text.now) (utf16_chars parts.0.now)) }
    {
        let parts = split(alloc, self.basis, self.low, text)?;
        Ok(parts)
    }
}

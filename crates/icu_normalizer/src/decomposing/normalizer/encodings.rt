//! Bytes and units that are in NFD, wholly or in part. What is damaged reads as U+FFFD, and is a change.

ghost use Rattle.std.specs.Prelude.{◌≡◌, [], ◌++◌, ◌↔◌, IsTrue, encode_utf8_all};
ghost use Rattle.icu_normalizer_core.specs.Canonical.{decomposed};
ghost use Rattle.icu_normalizer_core.specs.Decoding.{utf8_chars, utf16_chars};
ghost use Rattle.icu_normalizer.specs.TextCuts.{IsOwnText, ReachesTo};
ghost use Rattle.icu_normalizer.specs.Texts.{utf8_text, utf16_text, encode_utf16_all, IsUndamaged};

use super::super::cuts::split;
use super::DecomposingNormalizerBorrowed;
use crate::text_sources::{known_text, valid_text};

impl DecomposingNormalizerBorrowed<'_> {
    ghost use Rattle.icu_normalizer.specs.Normalizers.{normalizer_data, normalizer_bound};

    /// Whether bytes, read as UTF-8, are undamaged and their own NFD. It takes no memory.
    pub fn is_normalized_utf8(&self, text: &[u8]) -> bool
        ensures { IsTrue result ↔ IsOwnText encode_utf8_all (decomposed (normalizer_data self.now)) (utf8_text text.now) }
    {
        match valid_text(text) {
            Some(valid) => self.is_own(valid),
            None => false,
        }
    }

    /// Bytes, read as UTF-8, in two parts: the prefix and the NFD of the rest are together the NFD of the text. The
    /// prefix is undamaged. The rest is empty exactly where the text is undamaged and its own NFD. The prefix holds at
    /// least all that stands before the last character below `normalizer_bound` at or before the first
    /// difference between the text and its NFD, where a damaged part is a difference. It takes no memory.
    pub fn split_normalized_utf8<'t>(&self, text: &'t [u8]) -> (&'t str, &'t [u8])
        ensures whole { result.0.now ++ result.1.now ≡ text.now }
        ensures undamaged { IsUndamaged encode_utf8_all (utf8_text result.0.now) }
        ensures normal { utf8_chars result.0.now ++ decomposed (normalizer_data self.now) (utf8_chars result.1.now) ≡ decomposed (normalizer_data self.now) (utf8_chars text.now) }
        ensures bytes { result.0.now ++ encode_utf8_all (decomposed (normalizer_data self.now) (utf8_chars result.1.now)) ≡ encode_utf8_all (decomposed (normalizer_data self.now) (utf8_chars text.now)) }
        ensures empty { (result.1.now ≡ []) ↔ IsOwnText encode_utf8_all (decomposed (normalizer_data self.now)) (utf8_text text.now) }
        ensures far { ReachesTo encode_utf8_all (decomposed (normalizer_data self.now)) (normalizer_bound self.now) (utf8_text text.now) (utf8_chars result.0.now) }
    {
        let (prefix, rest) = split(self.basis, text);
        (known_text(prefix), rest)
    }

    /// Whether units, read as UTF-16, are undamaged and their own NFD. It takes no memory.
    pub fn is_normalized_utf16(&self, text: &[u16]) -> bool
        ensures { IsTrue result ↔ IsOwnText encode_utf16_all (decomposed (normalizer_data self.now)) (utf16_text text.now) }
    {
        self.is_own(text)
    }

    /// Units, read as UTF-16, in two parts: the prefix and the NFD of the rest are together the NFD of the text. The
    /// prefix is undamaged. The rest is empty exactly where the text is undamaged and its own NFD. The prefix holds at
    /// least all that stands before the last character below `normalizer_bound` at or before the first
    /// difference between the text and its NFD, where a damaged part is a difference. It takes no memory.
    pub fn split_normalized_utf16<'t>(&self, text: &'t [u16]) -> (&'t [u16], &'t [u16])
        ensures whole { result.0.now ++ result.1.now ≡ text.now }
        ensures undamaged { IsUndamaged encode_utf16_all (utf16_text result.0.now) }
        ensures normal { utf16_chars result.0.now ++ decomposed (normalizer_data self.now) (utf16_chars result.1.now) ≡ decomposed (normalizer_data self.now) (utf16_chars text.now) }
        ensures units { result.0.now ++ encode_utf16_all (decomposed (normalizer_data self.now) (utf16_chars result.1.now)) ≡ encode_utf16_all (decomposed (normalizer_data self.now) (utf16_chars text.now)) }
        ensures empty { (result.1.now ≡ []) ↔ IsOwnText encode_utf16_all (decomposed (normalizer_data self.now)) (utf16_text text.now) }
        ensures far { ReachesTo encode_utf16_all (decomposed (normalizer_data self.now)) (normalizer_bound self.now) (utf16_text text.now) (utf16_chars result.0.now) }
    {
        split(self.basis, text)
    }
}

//! Texts that are in NFC, wholly or in part.

ghost use Rattle.std.specs.Prelude.{◌≡◌, [], ◌++◌, ◌↔◌, IsTrue, IfOk, chars, encode_utf8_all};
ghost use Rattle.std.specs.Cow.{cow_str_bytes, IsBorrowedStr};
ghost use Rattle.icu_normalizer_core.specs.Canonical.{composed};
ghost use Rattle.icu_normalizer.specs.FormCuts.{IsComposed, ReachesBelow};
ghost use Rattle.icu_normalizer.specs.TextCuts.{IsOwnText};

use super::super::cuts::{rest_to_change, split};
use super::ComposingNormalizerBorrowed;
use crate::text_sources::Text;
use crate::written::held::normal_text;
use std::alloc::{AllocError, Global};
use std::borrow::CowStr;

impl ComposingNormalizerBorrowed<'_> {
    ghost use Rattle.icu_normalizer.specs.Normalizers.{composing_data};

    /// Whether a text is its own NFC. Memory is taken for long runs of marks alone.
    pub fn is_normalized(&self, alloc: Global, text: &str) -> Result<bool, AllocError>
        ensures { IfOk result (λ is. IsTrue is ↔ IsComposed (composing_data self.now) (chars text.now)) }
    {
        self.is_own(alloc, text)
    }

    /// Whether a text in any encoding is undamaged and its own NFC.
    pub(super) fn is_own<T: Text>(&self, alloc: Global, text: T) -> Result<bool, AllocError>
        ensures { IfOk result (λ is. IsTrue is ↔ IsOwnText T.encode (composed (composing_data self.now)) (T.spelled text)) }
    {
        let rest = rest_to_change(alloc, self.basis, self.low, text)?;
        Ok(rest.len() == 0)
    }

    /// A text in two parts: the prefix and the NFC of the rest are together the NFC of the text. The rest is empty
    /// exactly where the text is its own NFC. The prefix holds at least all that stands before the last character below
    /// U+0300 at or before the first difference between the text and its NFC. Memory is taken for long runs of marks
    /// alone.
    pub fn split_normalized<'t>(
        &self,
        alloc: Global,
        text: &'t str,
    ) -> Result<(&'t str, &'t str), AllocError>
        ensures whole { IfOk result (λ parts. parts.0.now ++ parts.1.now ≡ text.now) }
        ensures normal { IfOk result (λ parts. chars parts.0.now ++ composed (composing_data self.now) (chars parts.1.now) ≡ composed (composing_data self.now) (chars text.now)) }
        ensures bytes { IfOk result (λ parts. parts.0.now ++ encode_utf8_all (composed (composing_data self.now) (chars parts.1.now)) ≡ encode_utf8_all (composed (composing_data self.now) (chars text.now))) }
        ensures empty { IfOk result (λ parts. (parts.1.now ≡ []) ↔ IsComposed (composing_data self.now) (chars text.now)) }
        ensures far { IfOk result (λ parts. ReachesBelow (composed (composing_data self.now)) 0x300 (chars text.now) (chars parts.0.now)) }
    {
        let parts = split(alloc, self.basis, self.low, text)?;
        Ok(parts)
    }

    /// The NFC of a text, borrowed exactly where the text is its own NFC.
    pub fn normalize<'t>(&self, alloc: Global, text: &'t str) -> Result<CowStr<'t>, AllocError>
        ensures normal { IfOk result (λ form. cow_str_bytes form ≡ encode_utf8_all (composed (composing_data self.now) (chars text.now))) }
        ensures borrowed { IfOk result (λ form. IsBorrowedStr form ↔ IsComposed (composing_data self.now) (chars text.now)) }
    {
        normal_text::<Self>(self, alloc, text)
    }
}

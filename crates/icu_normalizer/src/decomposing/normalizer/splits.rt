//! Texts that are in NFD, wholly or in part.

ghost use Rattle.std.specs.Prelude.{◌≡◌, [], ◌++◌, ◌↔◌, IsTrue, IfOk, chars, encode_utf8_all};
ghost use Rattle.std.specs.Cow.{cow_str_bytes, IsBorrowedStr};
ghost use Rattle.icu_normalizer_core.specs.Canonical.{decomposed};
ghost use Rattle.icu_normalizer.specs.FormCuts.{ReachesBelow};
ghost use Rattle.icu_normalizer.specs.Splits.{IsDecomposed};
ghost use Rattle.icu_normalizer.specs.TextCuts.{IsOwnText};

use super::super::cuts::{rest_to_change, split};
use super::DecomposingNormalizerBorrowed;
use crate::text_sources::Text;
use crate::written::held::normal_text;
use std::alloc::{AllocError, Global};
use std::borrow::CowStr;

impl DecomposingNormalizerBorrowed<'_> {
    ghost use Rattle.icu_normalizer.specs.Normalizers.{normalizer_data, normalizer_bound};

    /// Whether a text is its own NFD. It takes no memory.
    pub fn is_normalized(&self, text: &str) -> bool
        ensures { IsTrue result ↔ IsDecomposed (normalizer_data self.now) (chars text.now) }
    {
        self.is_own(text)
    }

    /// Whether a text in any encoding is undamaged and its own NFD.
    pub(super) fn is_own<T: Text>(&self, text: T) -> bool
        ensures { IsTrue result ↔ IsOwnText T.encode (decomposed (normalizer_data self.now)) (T.spelled text) }
    {
        rest_to_change(self.basis, text).len() == 0
    }

    /// A text in two parts: the prefix and the NFD of the rest are together the NFD of the text. The rest is empty
    /// exactly where the text is its own NFD. The prefix holds at least all that stands before the last character below
    /// `normalizer_bound` at or before the first difference between the text and its NFD. It takes no memory.
    pub fn split_normalized<'t>(&self, text: &'t str) -> (&'t str, &'t str)
        ensures whole { result.0.now ++ result.1.now ≡ text.now }
        ensures normal { chars result.0.now ++ decomposed (normalizer_data self.now) (chars result.1.now) ≡ decomposed (normalizer_data self.now) (chars text.now) }
        ensures bytes { result.0.now ++ encode_utf8_all (decomposed (normalizer_data self.now) (chars result.1.now)) ≡ encode_utf8_all (decomposed (normalizer_data self.now) (chars text.now)) }
        ensures empty { (result.1.now ≡ []) ↔ IsDecomposed (normalizer_data self.now) (chars text.now) }
        ensures far { ReachesBelow (decomposed (normalizer_data self.now)) (normalizer_bound self.now) (chars text.now) (chars result.0.now) }
    {
        split(self.basis, text)
    }

    /// The NFD of a text, borrowed exactly where the text is its own NFD.
    pub fn normalize<'t>(&self, alloc: Global, text: &'t str) -> Result<CowStr<'t>, AllocError>
        ensures normal { IfOk result (λ form. cow_str_bytes form ≡ encode_utf8_all (decomposed (normalizer_data self.now) (chars text.now))) }
        ensures borrowed { IfOk result (λ form. IsBorrowedStr form ↔ IsDecomposed (normalizer_data self.now) (chars text.now)) }
    {
        normal_text::<Self>(self, alloc, text)
    }
}

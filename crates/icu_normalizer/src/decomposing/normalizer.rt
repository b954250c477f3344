//! Texts in NFD, or in NFKD.

ghost use Rattle.std.specs.Prelude.{◌≡◌, ℕ, ◌*◌, ◌<◌, List, ◌∷◌, ◌++◌, length, IfSome, IfNone, OnOk, OnErr, chars, encode_utf8_all};
ghost use Rattle.std.specs.Iterator.{IsFinite, size};
ghost use Rattle.icu_normalizer_core.specs.BorrowedMeaning.{borrowed_meaning};
ghost use Rattle.icu_normalizer_core.specs.Canonical.{IsCanonical, decomposed};
ghost use Rattle.icu_normalizer_core.specs.FormData.{form_meaning};
ghost use Rattle.icu_normalizer_core.specs.Forming.{IsSaidOver};
ghost use Rattle.icu_normalizer_core.specs.Iter.{Spells};
ghost use Rattle.icu_normalizer_core.specs.Readable.{IsReadable};
ghost use Rattle.icu_normalizer.specs.FormNotes.{AreLow};
ghost use Rattle.icu_normalizer.specs.Sinks.{AddsPrefix, EndsByFailure};
ghost use Rattle.icu_normalizer.specs.Texts.{IsAtEnd};

mod encodings;
mod splits;
mod written;

use super::cuts::split;
use super::writer::Writer;
use crate::form_notes::FormNote;
use crate::sinks::{NormError, TextSink};
use crate::text_sources::{Text, WriteTo};
use crate::written::{WriteForm, write_form};
use icu_normalizer_core::canonical::CanonicalBorrowed;
use icu_normalizer_core::decomposition::{Decomposition, FormData};
use std::alloc::{AllocError, Global};

/// A normaliser to NFD or NFKD (UAX 15), borrowed. What its calls say of NFD is said of NFKD where it is one to NFKD.
#[derive(Clone, Copy, Debug)]
pub struct DecomposingNormalizerBorrowed<'d> {
    basis: FormData<'d>,
    /// What is noted of low characters, where that was found once for all; else nothing.
    low: &'d [FormNote],
    ghost notes: { AreLow (form_meaning basis) low.now },
    ghost readable: { IsReadable (form_meaning basis) },
}

impl<'d> DecomposingNormalizerBorrowed<'d> {
    ghost use Rattle.icu_normalizer_core.specs.Decompositions.{DecomposesTo, CanDecompose, decomposition_size};
    ghost use Rattle.icu_normalizer.specs.Normalizers.{normalizer_data, normalizer_canonical, normalizer_bound};

    /// A normaliser to NFD, over canonical data. It takes no memory.
    pub fn new_with_data(canonical: CanonicalBorrowed<'d>) -> DecomposingNormalizerBorrowed<'d>
        ensures data { normalizer_data result ≡ borrowed_meaning canonical.entry }
        ensures canonical { normalizer_canonical result ≡ borrowed_meaning canonical.entry }
        ensures bound { normalizer_bound result ≡ 0xc0 }
    {
        DecomposingNormalizerBorrowed::over(FormData::Canonical(canonical), &[])
    }

    /// The same, over data of either kind, with notes of low characters.
    pub(super) fn over(
        basis: FormData<'d>,
        low: &'d [FormNote],
    ) -> DecomposingNormalizerBorrowed<'d>
        requires { AreLow (form_meaning basis) low.now }
        ensures { result.basis ≡ basis.entry }
    {
        basis.keep_promise();
        DecomposingNormalizerBorrowed { basis, low }
    }

    /// Its data keep what canonical data promise, which the laws ask for, and what compatibility data do where it is
    /// over these. It computes nothing.
    pub fn keep_promise(&self)
        ensures canonical { IsCanonical (normalizer_canonical self.now) }
        ensures data { IsSaidOver (normalizer_canonical self.now) (normalizer_data self.now) }
    {
        self.basis.keep_promises();
    }

    /// The characters of `chars` in NFD, in order. Memory is taken for long runs of marks alone; where it is refused,
    /// that error comes once and nothing after it.
    pub fn normalize_iter<I: Iterator<Item = char> + Drop>(
        &self,
        alloc: Global,
        chars: I,
    ) -> Decomposition<'d, I>
        ensures text { (cs : List ℕ) → Spells I.next_gives chars cs → DecomposesTo I.next_gives result (decomposed (normalizer_data self.now) cs) }
        ensures ready { I.can_next chars → IsFinite (I.remaining chars) → CanDecompose I.can_next I.remaining result }
        ensures size { decomposition_size I.remaining result ≡ 8 * size (I.remaining chars) }
    {
        Decomposition::over(alloc, self.basis, chars)
    }

    /// Writes a text in NFD to a sink. After an error the sink holds what it held, and a prefix of the text in NFD.
    /// `NormError::Sink` is the error of the last write, and `NormError::Memory` comes where the sink took each write.
    pub fn normalize_to<S: TextSink>(
        &self,
        alloc: Global,
        text: &str,
        sink: &mut S,
    ) -> Result<(), NormError<S::Error>>
        ensures ok { OnOk result (S.contents sink.new ≡ S.contents sink.old ++ encode_utf8_all (decomposed (normalizer_data self.now) (chars text.now))) }
        ensures err { OnErr result (AddsPrefix (S.contents sink.old) (encode_utf8_all (decomposed (normalizer_data self.now) (chars text.now))) (S.contents sink.new)) }
        ensures failure { EndsByFailure S.takes S.fails sink.old result sink.new }
    {
        write_form::<Self, &str, S>(self, alloc, text, sink)
    }
}

impl<'d> WriteForm for DecomposingNormalizerBorrowed<'d> {
    ghost use Rattle.icu_normalizer.specs.Normalizers.{normalizer_data, normalizer_bound};

    ghost form = { λ normalizer. decomposed (normalizer_data normalizer) };

    ghost bound = { normalizer_bound };

    fn split<T: Text>(&self, _alloc: Global, text: T) -> Result<(T, T), AllocError> {
        Ok(split(self.basis, text))
    }

    /// What has to be changed grows by about half.
    fn first_room(text: usize, rest: usize) -> usize {
        text.saturating_add(rest).saturating_add(rest / 2)
    }

    /// Writes a text in NFD, character by character. What is damaged is written as U+FFFD.
    fn write_rest<T: WriteTo<S>, S>(
        &self,
        alloc: Global,
        text: T,
        sink: &mut S,
    ) -> Result<(), NormError<T::Error>> {
        let mut writer = Writer::new(alloc, self.basis, self.low);
        let mut left = text;
        'chars: while let Some(next) = read(left) {
            writer.write_decomposed::<T, S>(next.0, sink)?;
            left = next.1;
        }
        writer.flush::<T, S>(sink)
    }
}

/// The first character of a text, and what stands after it. What is damaged reads as U+FFFD.
#[inline(always)]
fn read<T: Text>(text: T) -> Option<(char, T)>
    ensures none { IfNone result (IsAtEnd (T.spelled text)) }
    ensures some { IfSome result (λ r. (T.spelled text).characters ≡ r.0 ∷ (T.spelled r.1).characters) }
    ensures fewer { IfSome result (λ r. length (T.spelled r.1).units < length (T.spelled text).units) }
{
    let read = text.split_char()?;
    Some((read.0.unwrap_or(char::REPLACEMENT_CHARACTER), read.1))
}

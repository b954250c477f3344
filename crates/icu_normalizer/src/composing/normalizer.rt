//! Texts in NFC, or in NFKC.

ghost use Rattle.std.specs.Prelude.{◌≡◌, ℕ, ◌*◌, ◌<◌, List, ◌++◌, length, IfOk, OnOk, OnErr, chars, encode_utf8_all};
ghost use Rattle.std.specs.Iterator.{IsFinite, size};
ghost use Rattle.icu_normalizer_core.specs.Canonical.{IsCanonical, composed};
ghost use Rattle.icu_normalizer_core.specs.FormData.{form_meaning};
ghost use Rattle.icu_normalizer_core.specs.Forming.{IsSaidOver};
ghost use Rattle.icu_normalizer_core.specs.Iter.{Spells};
ghost use Rattle.icu_normalizer_core.specs.Readable.{IsReadable};
ghost use Rattle.icu_normalizer.specs.Composing.{IsComposable};
ghost use Rattle.icu_normalizer.specs.FormNotes.{AreLow};
ghost use Rattle.icu_normalizer.specs.Sinks.{AddsPrefix, EndsByFailure};
ghost use Rattle.icu_normalizer.specs.Texts.{IsAtEnd};
ghost use Rattle.icu_normalizer.specs.Writer.{AddsFront};

mod encodings;
mod splits;
mod written;

use super::characters::Composition;
use super::cluster_form::ClusterForm;
use super::cuts::{split, split_low};
use super::lone_mark::{lone_mark, write_lone};
use crate::form_notes::FormNote;
use crate::sinks::{NormError, TextSink};
use crate::text_sources::{Text, WriteTo};
use crate::written::{WriteForm, write_form};
use icu_normalizer_core::decomposition::FormData;
use std::alloc::{AllocError, Global};

/// A normaliser to NFC or NFKC (UAX 15), borrowed. What its calls say of NFC is said of NFKC where it is one to NFKC.
#[derive(Clone, Copy, Debug)]
pub struct ComposingNormalizerBorrowed<'d> {
    basis: FormData<'d>,
    low: &'d [FormNote],
    ghost notes: { AreLow (form_meaning basis) low.now },
    ghost readable: { IsReadable (form_meaning basis) },
    ghost composable: { IsComposable (form_meaning basis) },
}

impl<'d> ComposingNormalizerBorrowed<'d> {
    ghost use Rattle.icu_normalizer.specs.Compositions.{ComposesTo, CanCompose, composition_size};
    ghost use Rattle.icu_normalizer.specs.Normalizers.{composing_data, composing_canonical};

    /// A normaliser over these data, with notes of low characters. It takes no memory.
    pub(super) fn over(basis: FormData<'d>, low: &'d [FormNote]) -> ComposingNormalizerBorrowed<'d>
        requires { AreLow (form_meaning basis) low.now }
        ensures { result.basis ≡ basis.entry }
    {
        basis.keep_promise();
        ComposingNormalizerBorrowed { basis, low }
    }

    /// Its data keep what canonical data promise, which the laws ask for, and what compatibility data do where it is
    /// over these. It computes nothing.
    pub fn keep_promise(&self)
        ensures canonical { IsCanonical (composing_canonical self.now) }
        ensures data { IsSaidOver (composing_canonical self.now) (composing_data self.now) }
    {
        self.basis.keep_promises();
    }

    /// The characters of `chars` in NFC, in order. Memory is taken for long runs of marks alone; where it is refused,
    /// that error comes once and nothing after it.
    pub fn normalize_iter<I: Iterator<Item = char> + Drop>(
        &self,
        alloc: Global,
        chars: I,
    ) -> Composition<'d, I>
        ensures text { (cs : List ℕ) → Spells I.next_gives chars cs → ComposesTo I.next_gives result (composed (composing_data self.now) cs) }
        ensures ready { I.can_next chars → IsFinite (I.remaining chars) → CanCompose I.can_next I.remaining result }
        ensures size { composition_size I.remaining result ≡ 8 * size (I.remaining chars) }
    {
        Composition::over(alloc, self.basis, chars)
    }

    /// Writes a text in NFC to a sink. After an error the sink holds what it held, and a prefix of the text in NFC.
    /// `NormError::Sink` is the error of the last write, and `NormError::Memory` comes where the sink took each write.
    pub fn normalize_to<S: TextSink>(
        &self,
        alloc: Global,
        text: &str,
        sink: &mut S,
    ) -> Result<(), NormError<S::Error>>
        ensures ok { OnOk result (S.contents sink.new ≡ S.contents sink.old ++ encode_utf8_all (composed (composing_data self.now) (chars text.now))) }
        ensures err { OnErr result (AddsPrefix (S.contents sink.old) (encode_utf8_all (composed (composing_data self.now) (chars text.now))) (S.contents sink.new)) }
        ensures failure { EndsByFailure S.takes S.fails sink.old result sink.new }
    {
        write_form::<Self, &str, S>(self, alloc, text, sink)
    }

    /// Writes the NFC of the first cluster of a text, and gives what stands after it.
    #[inline]
    fn write_first<T: WriteTo<S>, S>(
        &self,
        alloc: Global,
        text: T,
        sink: &mut S,
    ) -> Result<T, NormError<T::Error>>
        requires { IsAtEnd (T.spelled text) → ⊥ }
        ensures ok { IfOk result (λ rest. AddsFront (T.contents sink.old) (T.encode (composed (composing_data self.now) (T.spelled text).characters)) (T.encode (composed (composing_data self.now) (T.spelled rest).characters)) (T.contents sink.new)) }
        ensures fewer { IfOk result (λ rest. length (T.spelled rest).characters < length (T.spelled text).characters) }
        ensures err { OnErr result (AddsPrefix (T.contents sink.old) (T.encode (composed (composing_data self.now) (T.spelled text).characters)) (T.contents sink.new)) }
        ensures failure { EndsByFailure T.takes T.fails sink.old result sink.new }
    {
        let Some(lone) = lone_mark(self.basis, self.low, text) else {
            return self.write_cluster::<T, S>(alloc, text, sink);
        };
        match write_lone::<T, S>(lone.0, sink) {
            Ok(()) => Ok(lone.1),
            Err(error) => Err(error),
        }
    }

    /// The same of any cluster, character by character.
    fn write_cluster<T: WriteTo<S>, S>(
        &self,
        alloc: Global,
        text: T,
        sink: &mut S,
    ) -> Result<T, NormError<T::Error>>
        requires { IsAtEnd (T.spelled text) → ⊥ }
        ensures ok { IfOk result (λ rest. AddsFront (T.contents sink.old) (T.encode (composed (composing_data self.now) (T.spelled text).characters)) (T.encode (composed (composing_data self.now) (T.spelled rest).characters)) (T.contents sink.new)) }
        ensures fewer { IfOk result (λ rest. length (T.spelled rest).characters < length (T.spelled text).characters) }
        ensures err { OnErr result (AddsPrefix (T.contents sink.old) (T.encode (composed (composing_data self.now) (T.spelled text).characters)) (T.contents sink.new)) }
        ensures failure { EndsByFailure T.takes T.fails sink.old result sink.new }
    {
        let mut form = ClusterForm::new(alloc, self.basis);
        let Ok(rest) = form.begin(self.basis, text) else {
            return Err(NormError::Memory);
        };
        'chars: loop {
            let Ok(next) = form.next() else {
                return Err(NormError::Memory);
            };
            let Some(c) = next else {
                return Ok(rest);
            };
            if let Err(error) = T::write_char(sink, c) {
                return Err(NormError::Sink(error));
            }
        }
    }
}

impl<'d> WriteForm for ComposingNormalizerBorrowed<'d> {
    ghost use Rattle.icu_normalizer.specs.Normalizers.{composing_data};

    ghost form = { λ normalizer. composed (composing_data normalizer) };

    ghost bound = { λ _. 0x300 };

    fn split<T: Text>(&self, alloc: Global, text: T) -> Result<(T, T), AllocError> {
        split(alloc, self.basis, self.low, text)
    }

    /// Most texts have no more units in NFC than they have.
    fn first_room(text: usize, _rest: usize) -> usize {
        text
    }

    /// Writes a text in NFC, part by part: what stays as it stands is written as it stands. What is damaged is written as
    /// U+FFFD.
    fn write_rest<T: WriteTo<S>, S>(
        &self,
        alloc: Global,
        text: T,
        sink: &mut S,
    ) -> Result<(), NormError<T::Error>> {
        let mut left = text;
        'clusters: while !left.is_at_end() {
            let rest = match self.write_first::<T, S>(alloc, left, sink) {
                Ok(rest) => rest,
                Err(error) => return Err(error),
            };
            let (plain, behind) = split_low(self.basis, rest);
            if let Err(error) = plain.write_whole(sink) {
                return Err(NormError::Sink(error));
            }
            left = behind;
        }
        Ok(())
    }
}

//! Texts on their way to a sink in a normal form.

ghost use Rattle.std.specs.Prelude.{◌≡◌, ℕ, List, ◌++◌, IfOk, OnOk, OnErr, encode_utf8_all};
ghost use Rattle.icu_normalizer_core.specs.Decoding.{utf8_chars};
ghost use Rattle.icu_normalizer.specs.Sinks.{AddsPrefix, EndsByFailure};
ghost use Rattle.icu_normalizer.specs.TextCuts.{IsTextSplit};
ghost use Rattle.icu_normalizer.specs.Texts.{IsUndamaged};

pub(crate) mod held;

use crate::sinks::{NormError, TextSink};
use crate::text_sources::{Text, WriteTo, valid_text};
use std::alloc::{AllocError, Global};

/// A normaliser, which writes texts of any encoding in its form.
pub(crate) trait WriteForm {
    ghost form: { Self → List ℕ → List ℕ };

    ghost bound: { Self → ℕ };

    /// A text in two parts: the prefix and the form of the rest are together the form of the text. The rest is empty
    /// exactly where the text is undamaged and its own form. The prefix holds at least all that stands before the last
    /// character below `bound` at or before the first difference between the text and its form, where a damaged part is a
    /// difference.
    fn split<T: Text>(&self, alloc: Global, text: T) -> Result<(T, T), AllocError>
        ensures { IfOk result (λ parts. IsTextSplit T.encode (form self.now) (bound self.now) (T.spelled text) (T.spelled parts.0) (T.spelled parts.1)) };

    /// How many units of room the form of a text is begun with: it has `text` units, of which the last `rest` have to be
    /// changed.
    fn first_room(text: usize, rest: usize) -> usize;

    /// Writes a text in the form, character by character or part by part. What is damaged is written as U+FFFD. After an
    /// error the sink holds what it held, and a prefix of the text in the form.
    fn write_rest<T: WriteTo<S>, S>(
        &self,
        alloc: Global,
        text: T,
        sink: &mut S,
    ) -> Result<(), NormError<T::Error>>
        ensures ok { OnOk result (T.contents sink.new ≡ T.contents sink.old ++ T.encode (form self.now (T.spelled text).characters)) }
        ensures err { OnErr result (AddsPrefix (T.contents sink.old) (T.encode (form self.now (T.spelled text).characters)) (T.contents sink.new)) }
        ensures failure { EndsByFailure T.takes T.fails sink.old result sink.new };
}

/// Writes bytes, read as UTF-8, in a normaliser's form. What is damaged is written as U+FFFD. After an error the sink
/// holds what it held, and a prefix of that form.
pub(crate) fn write_bytes<F: WriteForm, S: TextSink>(
    normalizer: &F,
    alloc: Global,
    text: &[u8],
    sink: &mut S,
) -> Result<(), NormError<S::Error>>
    ensures ok { OnOk result (S.contents sink.new ≡ S.contents sink.old ++ encode_utf8_all (F.form normalizer.now (utf8_chars text.now))) }
    ensures err { OnErr result (AddsPrefix (S.contents sink.old) (encode_utf8_all (F.form normalizer.now (utf8_chars text.now))) (S.contents sink.new)) }
    ensures failure { EndsByFailure S.takes S.fails sink.old result sink.new }
{
    match valid_text(text) {
        Some(valid) => write_form::<F, &str, S>(normalizer, alloc, valid, sink),
        None => write_form::<F, &[u8], S>(normalizer, alloc, text, sink),
    }
}

/// The same of a text in any encoding.
pub(crate) fn write_form<F: WriteForm, T: WriteTo<S>, S>(
    normalizer: &F,
    alloc: Global,
    text: T,
    sink: &mut S,
) -> Result<(), NormError<T::Error>>
    ensures ok { OnOk result (T.contents sink.new ≡ T.contents sink.old ++ T.encode (F.form normalizer.now (T.spelled text).characters)) }
    ensures err { OnErr result (AddsPrefix (T.contents sink.old) (T.encode (F.form normalizer.now (T.spelled text).characters)) (T.contents sink.new)) }
    ensures failure { EndsByFailure T.takes T.fails sink.old result sink.new }
{
    let Ok(parts) = normalizer.split(alloc, text) else {
        return Err(NormError::Memory);
    };
    write_parts::<F, T, S>(normalizer, alloc, parts, sink)
}

/// Writes the first of two texts as it stands, which is undamaged, and then the second in a normaliser's form.
fn write_parts<F: WriteForm, T: WriteTo<S>, S>(
    normalizer: &F,
    alloc: Global,
    parts: (T, T),
    sink: &mut S,
) -> Result<(), NormError<T::Error>>
    requires { IsUndamaged T.encode (T.spelled parts.0) }
    ensures ok { OnOk result (T.contents sink.new ≡ T.contents sink.old ++ ((T.spelled parts.0).units ++ T.encode (F.form normalizer.now (T.spelled parts.1).characters))) }
    ensures err { OnErr result (AddsPrefix (T.contents sink.old) ((T.spelled parts.0).units ++ T.encode (F.form normalizer.now (T.spelled parts.1).characters)) (T.contents sink.new)) }
    ensures failure { EndsByFailure T.takes T.fails sink.old result sink.new }
{
    let (prefix, rest) = parts;
    if let Err(error) = prefix.write_whole(sink) {
        return Err(NormError::Sink(error));
    }
    normalizer.write_rest::<T, S>(alloc, rest, sink)
}

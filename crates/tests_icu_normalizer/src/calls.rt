//! What the calls of normalisers give of texts.

ghost use Rattle.std.specs.Iterator.{IsFinite};

use crate::encoded::{EncodedCall, Encoding, gives_encoded};
use crate::long::{LONG_ROWS, LongRow, joined, writes_in_pieces};
use crate::sinks::writes_of;
use icu_normalizer::composing::{ComposingNormalizer, ComposingNormalizerBorrowed};
use icu_normalizer::decomposing::{DecomposingNormalizer, DecomposingNormalizerBorrowed};
use icu_normalizer_core::provider::DataError;
use samples_icu_normalizer::held::Held;
use std::alloc::{AllocError, Global};
use std::borrow::CowStr;

/// A text, its decomposed form, and its composed one.
pub type Row<'r> = (&'r str, &'r str, &'r str);

/// A call by which a form comes or is known.
#[derive(Clone, Copy)]
pub enum Call {
    Normalize,
    Iterate,
    WriteDecomposed,
    WriteComposed,
    IsNormalized,
    SplitNormalized,
    WriteInPieces,
}

/// By which data a text is brought to a form: to NFD and NFC, or to NFKD and NFKC.
#[derive(Clone, Copy)]
pub enum Kind {
    Canonical,
    Compatibility,
}

/// What is asked of normalisers to both forms: that calls give these texts' forms, or those of long texts, or that a call
/// for an encoding gives those of its rows.
#[derive(Clone, Copy)]
pub enum Ask<'r> {
    Texts(&'r [Call], &'r [Row<'r>]),
    Long(&'r [Call]),
    Encoded(Encoding, EncodedCall),
}

/// A normaliser to each form, over the same data.
#[derive(Clone, Copy)]
struct Normalizers<'d> {
    decomposing: DecomposingNormalizerBorrowed<'d>,
    composing: ComposingNormalizerBorrowed<'d>,
}

/// Whether a form is this.
fn is_form(form: Result<CowStr<'_>, AllocError>, want: &str) -> bool {
    match form {
        Ok(form) => form.as_str() == want,
        Err(_) => false,
    }
}

/// Whether a text is split before what changes.
fn is_split(parts: Result<(&str, &str), AllocError>, text: &str, want: &str) -> bool {
    match parts {
        Ok((prefix, rest)) => rest.is_empty() == (text == want) && want.starts_with(prefix),
        Err(_) => false,
    }
}

/// A normaliser, by its call that writes the form of a text.
pub trait WritesTexts {
    /// How many writes bring what it writes to a sink, if that is this, and the errors of each sink that fails sooner are
    /// handed on.
    fn writes_text(&self, alloc: Global, text: &str, want: &str) -> Option<usize>;
}

impl WritesTexts for DecomposingNormalizerBorrowed<'_> {
    fn writes_text(&self, alloc: Global, text: &str, want: &str) -> Option<usize> {
        writes_of(
            alloc,
            want.as_bytes(),
            |sink| self.normalize_to(alloc, text, sink),
        )
    }
}

impl WritesTexts for ComposingNormalizerBorrowed<'_> {
    fn writes_text(&self, alloc: Global, text: &str, want: &str) -> Option<usize> {
        writes_of(
            alloc,
            want.as_bytes(),
            |sink| self.normalize_to(alloc, text, sink),
        )
    }
}

/// Whether what an iterator gave is the next character that is wanted.
fn is_next(given: Result<char, AllocError>, wanted: Option<char>) -> bool {
    match given {
        Ok(c) => wanted == Some(c),
        Err(_) => false,
    }
}

/// Whether an iterator gives these characters and no more.
pub fn are_chars<I: Iterator<Item = Result<char, AllocError>> + Drop>(given: I, want: &str) -> bool
    requires can { I.can_next given }
    requires ends { IsFinite (I.remaining given) }
{
    let mut wanted = want.chars();
    for given in given {
        if !is_next(given, wanted.next()) {
            return false;
        }
    }
    wanted.next().is_none()
}

/// Whether the characters of a text's decomposed form are these.
fn iterates_decomposed(
    alloc: Global,
    decomposing: DecomposingNormalizerBorrowed<'_>,
    text: &str,
    want: &str,
) -> bool {
    are_chars(decomposing.normalize_iter(alloc, text.chars()), want)
}

/// Whether those of its composed form are these.
fn iterates_composed(
    alloc: Global,
    composing: ComposingNormalizerBorrowed<'_>,
    text: &str,
    want: &str,
) -> bool {
    are_chars(composing.normalize_iter(alloc, text.chars()), want)
}

/// Whether both write the forms of a text in several writes, where it isn't in the form.
fn write_in_pieces(
    alloc: Global,
    normalizers: Normalizers<'_>,
    (text, decomposed, composed): Row<'_>,
) -> bool {
    let Normalizers {
        decomposing,
        composing,
    } = normalizers;
    writes_in_pieces(alloc, &decomposing, text, decomposed) == Some(true)
        && writes_in_pieces(alloc, &composing, text, composed) == Some(true)
}

/// Whether a call gives these forms of a text, or knows whether it is in them.
fn gives_row(
    alloc: Global,
    normalizers: Normalizers<'_>,
    call: Call,
    (text, decomposed, composed): Row<'_>,
) -> bool {
    let Normalizers {
        decomposing,
        composing,
    } = normalizers;
    match call {
        Call::Normalize => {
            is_form(decomposing.normalize(alloc, text), decomposed)
                && is_form(composing.normalize(alloc, text), composed)
        }
        Call::Iterate => {
            iterates_decomposed(alloc, decomposing, text, decomposed)
                && iterates_composed(alloc, composing, text, composed)
        }
        Call::WriteDecomposed => decomposing.writes_text(alloc, text, decomposed).is_some(),
        Call::WriteComposed => composing.writes_text(alloc, text, composed).is_some(),
        Call::IsNormalized => {
            decomposing.is_normalized(text) == (text == decomposed)
                && composing.is_normalized(alloc, text).ok() == Some(text == composed)
        }
        Call::SplitNormalized => {
            is_split(Ok(decomposing.split_normalized(text)), text, decomposed)
                && is_split(composing.split_normalized(alloc, text), text, composed)
        }
        Call::WriteInPieces => write_in_pieces(alloc, normalizers, (text, decomposed, composed)),
    }
}

/// Whether each of these calls does so.
fn give_row(alloc: Global, normalizers: Normalizers<'_>, calls: &[Call], row: Row<'_>) -> bool {
    for call in calls {
        if !gives_row(alloc, normalizers, *call, row) {
            return false;
        }
    }
    true
}

/// Whether they do so of each row.
fn give_rows(
    alloc: Global,
    normalizers: Normalizers<'_>,
    calls: &[Call],
    rows: &[Row<'_>],
) -> bool {
    for row in rows {
        if !give_row(alloc, normalizers, calls, *row) {
            return false;
        }
    }
    true
}

/// Whether calls give the forms of a long text; `None` where memory is refused.
fn give_long_row(
    alloc: Global,
    normalizers: Normalizers<'_>,
    calls: &[Call],
    (text, decomposed, composed): LongRow,
) -> Option<bool> {
    let text = joined(alloc, text)?;
    let decomposed = joined(alloc, decomposed)?;
    let composed = joined(alloc, composed)?;
    let row = (text.as_str(), decomposed.as_str(), composed.as_str());
    Some(give_row(alloc, normalizers, calls, row))
}

/// Whether they do so of each.
fn give_long_rows(alloc: Global, normalizers: Normalizers<'_>, calls: &[Call]) -> bool {
    for row in LONG_ROWS {
        if give_long_row(alloc, normalizers, calls, row) != Some(true) {
            return false;
        }
    }
    true
}

/// Whether both normalisers give the forms of all rows in an encoding, or know which are in them.
fn give_encoded(
    alloc: Global,
    normalizers: Normalizers<'_>,
    encoding: Encoding,
    call: EncodedCall,
) -> bool {
    let Normalizers {
        decomposing,
        composing,
    } = normalizers;
    gives_encoded(alloc, &decomposing, encoding, call)
        && gives_encoded(alloc, &composing, encoding, call)
}

/// Whether they give what is asked for.
fn give(alloc: Global, normalizers: Normalizers<'_>, ask: Ask<'_>) -> bool {
    match ask {
        Ask::Texts(calls, rows) => give_rows(alloc, normalizers, calls, rows),
        Ask::Long(calls) => give_long_rows(alloc, normalizers, calls),
        Ask::Encoded(encoding, call) => give_encoded(alloc, normalizers, encoding, call),
    }
}

/// A normaliser to the decomposed form.
fn decomposing<'t>(
    alloc: Global,
    held: &'t Held<'_>,
    kind: Kind,
) -> Result<DecomposingNormalizer<'t>, DataError> {
    match kind {
        Kind::Canonical => DecomposingNormalizer::try_new_nfd_unstable(alloc, held),
        Kind::Compatibility => DecomposingNormalizer::try_new_nfkd_unstable(alloc, held),
    }
}

/// One to the composed form.
fn composing<'t>(
    alloc: Global,
    held: &'t Held<'_>,
    kind: Kind,
) -> Result<ComposingNormalizer<'t>, DataError> {
    match kind {
        Kind::Canonical => ComposingNormalizer::try_new_nfc_unstable(alloc, held),
        Kind::Compatibility => ComposingNormalizer::try_new_nfkc_unstable(alloc, held),
    }
}

/// Whether this normaliser, and one to the composed form over a provider's data, give what is asked for.
fn gives_with_composing(
    alloc: Global,
    held: &Held<'_>,
    decomposing: DecomposingNormalizerBorrowed<'_>,
    kind: Kind,
    ask: Ask<'_>,
) -> bool {
    match composing(alloc, held, kind) {
        Ok(composing) => {
            let composing = composing.as_borrowed();
            let normalizers = Normalizers {
                decomposing,
                composing,
            };
            give(alloc, normalizers, ask)
        }
        Err(_) => false,
    }
}

/// Whether normalisers to both forms over a provider's data do.
pub fn gives(alloc: Global, held: &Held<'_>, kind: Kind, ask: Ask<'_>) -> bool {
    match decomposing(alloc, held, kind) {
        Ok(decomposing) => {
            gives_with_composing(alloc, held, decomposing.as_borrowed(), kind, ask)
        }
        Err(_) => false,
    }
}

//! Normal forms: each normaliser's making, and its calls.

use crate::asked_texts::{LONG, UNITS};
use crate::told::{gives_all, is_told, made};
use icu_normalizer::composing::{ComposingNormalizer, ComposingNormalizerBorrowed};
use icu_normalizer::decomposing::{DecomposingNormalizer, DecomposingNormalizerBorrowed};
use icu_normalizer::sinks::NormError;
use icu_normalizer_core::provider::NormalizerProvider;
use std::alloc::{AllocError, Global};
use std::borrow::{CowSlice, CowStr};

/// The calls of a normaliser that take memory, whatever its form.
trait Form {
    /// The form of a text.
    fn text(&self, alloc: Global) -> Result<CowStr<'static>, AllocError>;

    /// The form of bytes.
    fn bytes(&self, alloc: Global) -> Result<CowStr<'static>, AllocError>;

    /// The form of units.
    fn units(&self, alloc: Global) -> Result<CowSlice<'static, u16>, AllocError>;

    /// Writes the form of a text to a sink, then that of bytes.
    fn write_texts(&self, alloc: Global, sink: &mut String) -> Result<(), NormError<AllocError>>;

    /// Writes the form of units to a sink, twice.
    fn write_units(&self, alloc: Global, sink: &mut Vec<u16>) -> Result<(), NormError<AllocError>>;

    /// Prints the characters of the form of a text one by one, and tells whether memory was granted.
    fn gives_chars(&self, rt: &HostRuntime) -> bool;
}

impl Form for ComposingNormalizerBorrowed<'_> {
    fn text(&self, alloc: Global) -> Result<CowStr<'static>, AllocError> {
        self.normalize(alloc, LONG)
    }

    fn bytes(&self, alloc: Global) -> Result<CowStr<'static>, AllocError> {
        self.normalize_utf8(alloc, LONG.as_bytes())
    }

    fn units(&self, alloc: Global) -> Result<CowSlice<'static, u16>, AllocError> {
        self.normalize_utf16(alloc, &UNITS)
    }

    fn write_texts(&self, alloc: Global, sink: &mut String) -> Result<(), NormError<AllocError>> {
        self.normalize_to(alloc, LONG, sink)?;
        self.normalize_utf8_to(alloc, LONG.as_bytes(), sink)
    }

    fn write_units(&self, alloc: Global, sink: &mut Vec<u16>) -> Result<(), NormError<AllocError>> {
        self.normalize_utf16_to(alloc, &UNITS, sink)?;
        self.normalize_utf16_to(alloc, &UNITS, sink)
    }

    fn gives_chars(&self, rt: &HostRuntime) -> bool {
        let chars = self.normalize_iter(rt.alloc(), LONG.chars());
        gives_all(rt, "normalize_iter", chars)
    }
}

impl Form for DecomposingNormalizerBorrowed<'_> {
    fn text(&self, alloc: Global) -> Result<CowStr<'static>, AllocError> {
        self.normalize(alloc, LONG)
    }

    fn bytes(&self, alloc: Global) -> Result<CowStr<'static>, AllocError> {
        self.normalize_utf8(alloc, LONG.as_bytes())
    }

    fn units(&self, alloc: Global) -> Result<CowSlice<'static, u16>, AllocError> {
        self.normalize_utf16(alloc, &UNITS)
    }

    fn write_texts(&self, alloc: Global, sink: &mut String) -> Result<(), NormError<AllocError>> {
        self.normalize_to(alloc, LONG, sink)?;
        self.normalize_utf8_to(alloc, LONG.as_bytes(), sink)
    }

    fn write_units(&self, alloc: Global, sink: &mut Vec<u16>) -> Result<(), NormError<AllocError>> {
        self.normalize_utf16_to(alloc, &UNITS, sink)?;
        self.normalize_utf16_to(alloc, &UNITS, sink)
    }

    fn gives_chars(&self, rt: &HostRuntime) -> bool {
        let chars = self.normalize_iter(rt.alloc(), LONG.chars());
        gives_all(rt, "normalize_iter", chars)
    }
}

/// Prints the form of a text, and tells whether memory was granted.
fn is_text_told(rt: &HostRuntime, name: &str, form: Result<CowStr<'_>, AllocError>) -> bool {
    match form {
        Ok(form) => is_told::<&str, AllocError>(rt, name, &Ok(form.as_str())),
        Err(error) => is_told::<&str, AllocError>(rt, name, &Err(error)),
    }
}

/// Prints the form of units, and tells whether memory was granted.
fn are_units_told(rt: &HostRuntime, form: Result<CowSlice<'_, u16>, AllocError>) -> bool {
    match form {
        Ok(form) => is_told::<&[u16], AllocError>(rt, "normalize_utf16", &Ok(form.as_slice())),
        Err(error) => is_told::<&[u16], AllocError>(rt, "normalize_utf16", &Err(error)),
    }
}

/// Prints the forms that a normaliser answers.
fn tell_answers<F: Form>(rt: &HostRuntime, form: &F) {
    for _ in 0..2 {
        if is_text_told(rt, "normalize", form.text(rt.alloc())) {
            break;
        }
    }
    for _ in 0..2 {
        if is_text_told(rt, "normalize_utf8", form.bytes(rt.alloc())) {
            break;
        }
    }
    for _ in 0..2 {
        if are_units_told(rt, form.units(rt.alloc())) {
            break;
        }
    }
}

/// Prints what a sink of text holds after two forms.
fn tell_text_sink<F: Form>(rt: &HostRuntime, form: &F) {
    for _ in 0..2 {
        let mut sink = String::new(rt.alloc());
        let answer = form.write_texts(rt.alloc(), &mut sink);
        let _ = println!(rt; "normalize_to | {:?} | {answer:?}", sink.as_str());
        if answer.is_ok() {
            break;
        }
    }
}

/// Prints what a sink of units holds after two forms.
fn tell_unit_sink<F: Form>(rt: &HostRuntime, form: &F) {
    for _ in 0..2 {
        let mut sink = Vec::new(rt.alloc());
        let answer = form.write_units(rt.alloc(), &mut sink);
        let _ = println!(rt; "normalize_utf16_to | {:?} | {answer:?}", sink.as_slice());
        if answer.is_ok() {
            break;
        }
    }
}

/// Prints what the calls of a normaliser answer.
fn tell_form<F: Form>(rt: &HostRuntime, form: &F) {
    tell_answers(rt, form);
    tell_text_sink(rt, form);
    tell_unit_sink(rt, form);
    for _ in 0..2 {
        if form.gives_chars(rt) {
            break;
        }
    }
}

/// Prints what is asked of a normaliser that composes.
fn tell_questions(rt: &HostRuntime, form: &ComposingNormalizerBorrowed<'_>) {
    for _ in 0..2 {
        if is_told(rt, "is_normalized", &form.is_normalized(rt.alloc(), LONG)) {
            break;
        }
    }
    for _ in 0..2 {
        let parts = form.split_normalized(rt.alloc(), LONG);
        if is_told(rt, "split_normalized", &parts) {
            break;
        }
    }
}

/// Prints what a normaliser answers that composes, if it was made.
fn tell_composing(rt: &HostRuntime, made: Option<ComposingNormalizer<'_>>) {
    if let Some(normalizer) = made {
        tell_form(rt, &normalizer.as_borrowed());
        tell_questions(rt, &normalizer.as_borrowed());
    }
}

/// Prints what a normaliser answers that decomposes, if it was made.
fn tell_decomposing(rt: &HostRuntime, made: Option<DecomposingNormalizer<'_>>) {
    if let Some(normalizer) = made {
        tell_form(rt, &normalizer.as_borrowed());
    }
}

/// Makes each normaliser over a provider, and prints what it answers.
pub fn tell_forms<P: NormalizerProvider>(rt: &HostRuntime, provider: &P) {
    let alloc = rt.alloc();
    let nfd = made(rt, "try_new_nfd_unstable", || {
        DecomposingNormalizer::try_new_nfd_unstable(alloc, provider)
    });
    tell_decomposing(rt, nfd);
    let nfkd = made(rt, "try_new_nfkd_unstable", || {
        DecomposingNormalizer::try_new_nfkd_unstable(alloc, provider)
    });
    tell_decomposing(rt, nfkd);
    let nfc = made(rt, "try_new_nfc_unstable", || {
        ComposingNormalizer::try_new_nfc_unstable(alloc, provider)
    });
    tell_composing(rt, nfc);
    let nfkc = made(rt, "try_new_nfkc_unstable", || {
        ComposingNormalizer::try_new_nfkc_unstable(alloc, provider)
    });
    tell_composing(rt, nfkc);
}

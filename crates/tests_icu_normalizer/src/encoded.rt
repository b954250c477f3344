//! What the calls of normalisers give of bytes and of units.

use crate::damaged::{BYTES, Row, UNITS};
use std::alloc::{AllocError, Global};
use std::borrow::{CowSlice, CowStr};

/// A normaliser to one form, by its calls for texts in units of one encoding.
pub trait NormalizesUnits<U> {
    /// Which form of a row it makes.
    fn wanted<'r>(&self, row: Row<'r, U>) -> &'r [U];

    /// Whether what it makes of a text is this.
    fn makes(&self, alloc: Global, text: &[U], want: &[U]) -> bool;

    /// How many writes bring what it writes to a sink, if that is this, and the errors of each sink that fails sooner are
    /// handed on.
    fn writes(&self, alloc: Global, text: &[U], want: &[U]) -> Option<usize>;

    /// Whether a text is in the form; `None` where memory is refused.
    fn is_form(&self, alloc: Global, text: &[U]) -> Option<bool>;

    /// The two parts of a text; `None` where memory is refused.
    fn parts<'t>(&self, alloc: Global, text: &'t [U]) -> Option<(&'t [U], &'t [U])>;
}

/// An encoding of a text.
#[derive(Clone, Copy)]
pub enum Encoding {
    Utf8,
    Utf16,
}

/// A call for bytes or units.
#[derive(Clone, Copy)]
pub enum EncodedCall {
    Normalize,
    Write,
    IsNormalized,
    SplitNormalized,
}

/// Whether a form is these bytes.
pub fn are_bytes(form: Result<CowStr<'_>, AllocError>, want: &[u8]) -> bool {
    match form {
        Ok(form) => form.as_str().as_bytes() == want,
        Err(_) => false,
    }
}

/// Whether a form is these units.
pub fn are_units(form: Result<CowSlice<'_, u16>, AllocError>, want: &[u16]) -> bool {
    match form {
        Ok(form) => form.as_slice() == want,
        Err(_) => false,
    }
}

/// Whether this stands after a prefix of a text.
fn is_behind<U: PartialEq>(text: &[U], prefix: &[U], rest: &[U]) -> bool {
    match text.strip_prefix(prefix) {
        Some(behind) => behind == rest,
        None => false,
    }
}

/// Whether these are two parts of a text, of which the first and the form of the second are its form, and the second is
/// empty where the text is that form.
fn are_parts<U: PartialEq, N: NormalizesUnits<U>>(
    alloc: Global,
    normalizer: &N,
    (prefix, rest): (&[U], &[U]),
    text: &[U],
    want: &[U],
) -> bool {
    match want.strip_prefix(prefix) {
        Some(behind) => {
            is_behind(text, prefix, rest)
                && rest.is_empty() == (text == want)
                && normalizer.makes(alloc, rest, behind)
        }
        None => false,
    }
}

/// Whether a text is split so.
fn splits<U: PartialEq, N: NormalizesUnits<U>>(
    alloc: Global,
    normalizer: &N,
    text: &[U],
    want: &[U],
) -> bool {
    match normalizer.parts(alloc, text) {
        Some(parts) => are_parts(alloc, normalizer, parts, text, want),
        None => false,
    }
}

/// Whether a call gives this form of a text, or knows whether it is in it.
fn gives<U: PartialEq, N: NormalizesUnits<U>>(
    alloc: Global,
    normalizer: &N,
    call: EncodedCall,
    text: &[U],
    want: &[U],
) -> bool {
    match call {
        EncodedCall::Normalize => normalizer.makes(alloc, text, want),
        EncodedCall::Write => normalizer.writes(alloc, text, want).is_some(),
        EncodedCall::IsNormalized => normalizer.is_form(alloc, text) == Some(text == want),
        EncodedCall::SplitNormalized => splits(alloc, normalizer, text, want),
    }
}

/// Whether it does so of each row.
fn gives_rows<U: PartialEq, N: NormalizesUnits<U>>(
    alloc: Global,
    normalizer: &N,
    call: EncodedCall,
    rows: &[Row<'_, U>],
) -> bool {
    for row in rows {
        if !gives(alloc, normalizer, call, row.0, normalizer.wanted(*row)) {
            return false;
        }
    }
    true
}

/// Whether it does so of all rows in an encoding.
pub fn gives_encoded<N: NormalizesUnits<u8> + NormalizesUnits<u16>>(
    alloc: Global,
    normalizer: &N,
    encoding: Encoding,
    call: EncodedCall,
) -> bool {
    match encoding {
        Encoding::Utf8 => gives_rows::<u8, N>(alloc, normalizer, call, &BYTES),
        Encoding::Utf16 => gives_rows::<u16, N>(alloc, normalizer, call, &UNITS),
    }
}

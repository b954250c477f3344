//! Normal forms of texts, held in memory where a text is not its own form.

ghost use Rattle.std.specs.Prelude.{◌≡◌, ◌↔◌, IfOk, IfSome, IfNone, chars, encode_utf8_all};
ghost use Rattle.std.specs.Cow.{cow_str_bytes, cow_slice_items, IsBorrowedStr, IsBorrowedSlice};
ghost use Rattle.icu_normalizer_core.specs.Decoding.{utf8_chars, utf16_chars};
ghost use Rattle.icu_normalizer.specs.FormCuts.{IsOwnForm};
ghost use Rattle.icu_normalizer.specs.TextCuts.{IsOwnText};
ghost use Rattle.icu_normalizer.specs.Texts.{utf8_text, utf16_text, encode_utf16_all};

use super::{WriteForm, write_parts};
use crate::text_sources::{HoldIn, known_text, valid_text};
use std::alloc::{AllocError, Global};
use std::borrow::{CowSlice, CowStr};

/// From so many bytes on it pays to ask first whether they are UTF-8.
const LONG: usize = 64;

/// The form of a text, borrowed exactly where the text is its own form.
pub(crate) fn normal_text<'t, F: WriteForm>(
    normalizer: &F,
    alloc: Global,
    text: &'t str,
) -> Result<CowStr<'t>, AllocError>
    ensures normal { IfOk result (λ form. cow_str_bytes form ≡ encode_utf8_all (F.form normalizer.now (chars text.now))) }
    ensures borrowed { IfOk result (λ form. IsBorrowedStr form ↔ IsOwnForm (F.form normalizer.now) (chars text.now)) }
{
    match held::<F, &str, String>(normalizer, alloc, text)? {
        Some(form) => Ok(CowStr::Owned(form)),
        None => Ok(CowStr::Borrowed(text)),
    }
}

/// The form of bytes, read as UTF-8, borrowed exactly where they are undamaged and their own form.
pub(crate) fn normal_bytes<'t, F: WriteForm>(
    normalizer: &F,
    alloc: Global,
    text: &'t [u8],
) -> Result<CowStr<'t>, AllocError>
    ensures normal { IfOk result (λ form. cow_str_bytes form ≡ encode_utf8_all (F.form normalizer.now (utf8_chars text.now))) }
    ensures borrowed { IfOk result (λ form. IsBorrowedStr form ↔ IsOwnText encode_utf8_all (F.form normalizer.now) (utf8_text text.now)) }
{
    if text.len() >= LONG {
        if let Some(valid) = valid_text(text) {
            return normal_text::<F>(normalizer, alloc, valid);
        }
    }
    let Some(form) = held::<F, &[u8], String>(normalizer, alloc, text)? else {
        return Ok(CowStr::Borrowed(known_text(text)));
    };
    Ok(CowStr::Owned(form))
}

/// The form of units, read as UTF-16, borrowed exactly where they are undamaged and their own form.
pub(crate) fn normal_units<'t, F: WriteForm>(
    normalizer: &F,
    alloc: Global,
    text: &'t [u16],
) -> Result<CowSlice<'t, u16>, AllocError>
    ensures normal { IfOk result (λ form. cow_slice_items form ≡ encode_utf16_all (F.form normalizer.now (utf16_chars text.now))) }
    ensures borrowed { IfOk result (λ form. IsBorrowedSlice form ↔ IsOwnText encode_utf16_all (F.form normalizer.now) (utf16_text text.now)) }
{
    match held::<F, &[u16], Vec<u16>>(normalizer, alloc, text)? {
        Some(form) => Ok(CowSlice::Owned(form)),
        None => Ok(CowSlice::Borrowed(text)),
    }
}

/// The form of a text, held in memory; `None` where the text is undamaged and its own form.
fn held<F: WriteForm, T: HoldIn<S>, S: Drop>(
    normalizer: &F,
    alloc: Global,
    text: T,
) -> Result<Option<S>, AllocError>
    ensures own { IfOk result (λ form. IfNone form (IsOwnText T.encode (F.form normalizer.now) (T.spelled text))) }
    ensures changed { IfOk result (λ form. IfSome form (λ _. IsOwnText T.encode (F.form normalizer.now) (T.spelled text) → ⊥)) }
    ensures whole { IfOk result (λ form. IfSome form (λ whole. T.contents whole ≡ T.encode (F.form normalizer.now (T.spelled text).characters))) }
{
    let (prefix, rest) = normalizer.split(alloc, text)?;
    let left = rest.len();
    if left == 0 {
        return Ok(None);
    }
    let mut form = T::empty(alloc, F::first_room(text.len(), left))?;
    match write_parts::<F, T, S>(normalizer, alloc, (prefix, rest), &mut form) {
        Ok(()) => Ok(Some(form)),
        Err(_) => Err(AllocError),
    }
}

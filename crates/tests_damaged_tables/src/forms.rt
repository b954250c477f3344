//! What normalisers answer over a provider, beside what its canonical tables mean.

use crate::answers::{Answer, answered};
use icu_normalizer::composing::{ComposingNormalizer, ComposingNormalizerBorrowed};
use icu_normalizer::decomposing::{DecomposingNormalizer, DecomposingNormalizerBorrowed};
use icu_normalizer_core::canonical::CanonicalTables;
use icu_normalizer_core::provider::DataError;
use samples_icu_collator::held::HeldCollation;
use samples_icu_normalizer::canonical::{composed, decomposed};
use samples_icu_normalizer::encoded_texts::{Encoded, TEXTS, characters, in_each_encoding};
use std::alloc::Global;

/// A text, and its forms by what the tables mean.
struct Forms {
    text: Encoded,
    decomposed: Encoded,
    composed: Encoded,
}

// (let go of as one, and not part by part, so that what owns one is proved sooner)
impl Drop for Forms {
    fn drop(self) {
        let Forms {
            text: _,
            decomposed: _,
            composed: _,
        } = self;
    }
}

/// The forms of a text.
fn forms_of(alloc: Global, tables: &CanonicalTables<'_>, text: &str) -> Option<Forms> {
    let characters = characters(alloc, text)?;
    let decomposed = decomposed(alloc, tables, characters.as_slice())?;
    let composed = composed(alloc, tables, decomposed.as_slice())?;
    Some(Forms {
        text: in_each_encoding(alloc, characters.as_slice())?,
        decomposed: in_each_encoding(alloc, decomposed.as_slice())?,
        composed: in_each_encoding(alloc, composed.as_slice())?,
    })
}

/// Whether a text is the same in each encoding as another one.
fn is_same(text: &Encoded, other: &Encoded) -> bool {
    text.text.as_str() == other.text.as_str() && text.units.as_slice() == other.units.as_slice()
}

/// Whether a text is decomposed as it should be, in each encoding.
fn is_decomposed(
    alloc: Global,
    form: &DecomposingNormalizerBorrowed<'_>,
    text: &Encoded,
    normal: &Encoded,
) -> bool {
    let bytes = text.text.as_bytes();
    let of_text = form.normalize(alloc, text.text.as_str());
    let of_bytes = form.normalize_utf8(alloc, bytes);
    let of_units = form.normalize_utf16(alloc, text.units.as_slice());
    match (of_text, of_bytes, of_units) {
        (Ok(of_text), Ok(of_bytes), Ok(of_units)) => {
            of_text.as_str() == normal.text.as_str()
                && of_bytes.as_str() == normal.text.as_str()
                && of_units.as_slice() == normal.units.as_slice()
        }
        _ => false,
    }
}

/// Whether a text is said to be decomposed where it is.
fn is_told_decomposed(
    form: &DecomposingNormalizerBorrowed<'_>,
    text: &Encoded,
    normal: &Encoded,
) -> bool {
    let is_normal = is_same(text, normal);
    form.is_normalized(text.text.as_str()) == is_normal
        && form.is_normalized_utf8(text.text.as_bytes()) == is_normal
        && form.is_normalized_utf16(text.units.as_slice()) == is_normal
}

/// Whether a text is composed as it should be, in each encoding.
fn is_composed(
    alloc: Global,
    form: &ComposingNormalizerBorrowed<'_>,
    text: &Encoded,
    normal: &Encoded,
) -> bool {
    let bytes = text.text.as_bytes();
    let of_text = form.normalize(alloc, text.text.as_str());
    let of_bytes = form.normalize_utf8(alloc, bytes);
    let of_units = form.normalize_utf16(alloc, text.units.as_slice());
    match (of_text, of_bytes, of_units) {
        (Ok(of_text), Ok(of_bytes), Ok(of_units)) => {
            of_text.as_str() == normal.text.as_str()
                && of_bytes.as_str() == normal.text.as_str()
                && of_units.as_slice() == normal.units.as_slice()
        }
        _ => false,
    }
}

/// Whether a text is said to be composed where it is.
fn is_told_composed(
    alloc: Global,
    form: &ComposingNormalizerBorrowed<'_>,
    text: &Encoded,
    normal: &Encoded,
) -> bool {
    let is_normal = Some(is_same(text, normal));
    form.is_normalized(alloc, text.text.as_str()).ok() == is_normal
        && form.is_normalized_utf8(alloc, text.text.as_bytes()).ok() == is_normal
        && form.is_normalized_utf16(alloc, text.units.as_slice()).ok() == is_normal
}

/// The call that is wrong on a text, if one.
fn wrong_decomposed(
    alloc: Global,
    tables: &CanonicalTables<'_>,
    form: &DecomposingNormalizerBorrowed<'_>,
    text: &str,
) -> Option<&'static str> {
    let Some(forms) = forms_of(alloc, tables, text) else {
        return Some("memory");
    };
    if !is_decomposed(alloc, form, &forms.text, &forms.decomposed) {
        return Some("NFD");
    }
    if !is_told_decomposed(form, &forms.text, &forms.decomposed) {
        return Some("is it NFD");
    }
    None
}

/// The call that is wrong on a text, if one.
fn wrong_composed(
    alloc: Global,
    tables: &CanonicalTables<'_>,
    form: &ComposingNormalizerBorrowed<'_>,
    text: &str,
) -> Option<&'static str> {
    let Some(forms) = forms_of(alloc, tables, text) else {
        return Some("memory");
    };
    if !is_composed(alloc, form, &forms.text, &forms.composed) {
        return Some("NFC");
    }
    if !is_told_composed(alloc, form, &forms.text, &forms.composed) {
        return Some("is it NFC");
    }
    None
}

/// What a normaliser to decomposed forms does.
fn decomposing_answer(alloc: Global, held: &HeldCollation<'_>) -> Answer<DataError> {
    match DecomposingNormalizer::try_new_nfd_unstable(alloc, held) {
        Ok(normaliser) => {
            let form = normaliser.as_borrowed();
            for text in TEXTS {
                let wrong = wrong_decomposed(alloc, &held.canonical, &form, text);
                if wrong.is_some() {
                    return answered(wrong);
                }
            }
            Answer::Answered
        }
        Err(error) => Answer::Refused(error),
    }
}

/// What a normaliser to composed forms does.
fn composing_answer(alloc: Global, held: &HeldCollation<'_>) -> Answer<DataError> {
    match ComposingNormalizer::try_new_nfc_unstable(alloc, held) {
        Ok(normaliser) => {
            let form = normaliser.as_borrowed();
            for text in TEXTS {
                let wrong = wrong_composed(alloc, &held.canonical, &form, text);
                if wrong.is_some() {
                    return answered(wrong);
                }
            }
            Answer::Answered
        }
        Err(error) => Answer::Refused(error),
    }
}

/// What normalisers over a provider do: to decomposed forms and to composed ones.
pub fn normalisers_answer(alloc: Global, held: &HeldCollation<'_>) -> Answer<DataError> {
    let decomposing = decomposing_answer(alloc, held);
    let composing = composing_answer(alloc, held);
    match (decomposing, composing) {
        (Answer::Refused(one), Answer::Refused(other)) if one != other => {
            Answer::Misread("two refusals")
        }
        (Answer::Refused(_), Answer::Answered) | (Answer::Answered, Answer::Refused(_)) => {
            Answer::Misread("one refusal")
        }
        (Answer::Answered, composing) => composing,
        (decomposing, _) => decomposing,
    }
}

//! Normal forms of texts: telling whether two texts are equivalent, and normalising twice.
ghost use Rattle.std.specs.Prelude.{◌≡◌, ◌↔◌, IsTrue, IfOk, chars, string_bytes};
ghost use Rattle.icu_normalizer_core.specs.BorrowedMeaning.{borrowed_meaning};
ghost use Rattle.icu_normalizer.specs.Equivalence.{IsEquivalent};
ghost use Rattle.icu_normalizer.specs.Normalizers.{normalizer_data};
ghost use Rattle.icu_normalizer.specs.TextForms.{decomposed_text};

use icu_normalizer::decomposing::DecomposingNormalizerBorrowed;
use icu_normalizer::laws::{equal_forms_are_equivalent, forms_of_texts_by_data_stay};
use icu_normalizer_core::canonical::CanonicalBorrowed;
use std::alloc::{AllocError, Global};

/// Whether two texts are canonically equivalent: they have the same NFD.
pub fn are_equivalent(
    alloc: Global,
    canonical: CanonicalBorrowed<'_>,
    first: &str,
    second: &str,
) -> Result<bool, AllocError>
    ensures { IfOk result (λ are. IsTrue are ↔ IsEquivalent (borrowed_meaning canonical.entry) (chars first.now) (chars second.now)) }
{
    let normalizer = DecomposingNormalizerBorrowed::new_with_data(canonical);
    let first_form = normalizer.normalize(alloc, first)?;
    let second_form = normalizer.normalize(alloc, second)?;
    canonical.keep_promise();
    equal_forms_are_equivalent();
    Ok(first_form.as_str() == second_form.as_str())
}

/// The NFD of a text, or its NFKD by a normaliser to NFKD, made twice: the second time it stays.
pub fn decompose_twice(
    alloc: Global,
    normalizer: DecomposingNormalizerBorrowed<'_>,
    text: &str,
) -> Result<String, AllocError>
    ensures { IfOk result (λ form. string_bytes form ≡ decomposed_text (normalizer_data normalizer.entry) text.now) }
{
    let once = normalizer.normalize(alloc, text)?;
    let twice = normalizer.normalize(alloc, once.as_str())?;
    normalizer.keep_promise();
    forms_of_texts_by_data_stay();
    twice.into_owned(alloc)
}

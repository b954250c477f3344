//! Laws of normal forms and of canonical equivalence (UAX 15): each function's contract is the law, and its body is
//! empty. The first three are over lists of characters, the others over texts in UTF-8, as the calls of the normalisers
//! speak of them. That its canonical data are `IsCanonical` a normaliser's `keep_promise` says.

ghost use Rattle.std.specs.Char.{IsScalar};
ghost use Rattle.std.specs.Prelude.{◌≡◌, ℕ, ◌<◌, ◌^◌, ◌↔◌, All, List, chars, encode_utf8_all};
ghost use Rattle.std.specs.Str.{IsUtf8};
ghost use Rattle.icu_normalizer_core.specs.Canonical.{Canonical, IsCanonical, IsDecomposing, composed, decomposed};
ghost use Rattle.icu_normalizer_core.specs.Decoding.{utf8_chars, utf16_chars};
ghost use Rattle.icu_normalizer_core.specs.Forming.{IsSaidOver};
ghost use Rattle.icu_normalizer_core.specs.Sameness.{AreSameCanonical, AreSameComposing};
ghost use Rattle.icu_normalizer.specs.Equivalence.{IsEquivalent};
ghost use Rattle.icu_normalizer.specs.FormCuts.{IsComposed};
ghost use Rattle.icu_normalizer.specs.Splits.{IsDecomposed};
ghost use Rattle.icu_normalizer.specs.TextForms.{composed_text, decomposed_text};
ghost use Rattle.icu_normalizer.specs.Texts.{encode_utf16_all};

/// Two texts of scalar values are canonically equivalent exactly where they have the same
/// decomposed list (UAX 15). Equivalent means here that mapping characters where they stand and
/// exchanging neighbouring marks of different classes, forward and back, lead from one text to the
/// other.
#[tactic(auto, using(crate::proofs::equivalence::EquivalenceLemmas::one_decomposed))]
pub fn equal_lists_are_equivalent()
    ensures { (canonical : Canonical) (xs ys : List ℕ)
        → IsDecomposing canonical → All IsScalar xs → All IsScalar ys
        → IsEquivalent canonical xs ys ↔ (decomposed canonical xs ≡ decomposed canonical ys) }
{}

/// Two texts of scalar values are canonically equivalent exactly where they have the same composed
/// list.
#[tactic(auto, using(crate::proofs::equivalence::NormalFormLemmas::composed_one))]
pub fn equal_composed_lists_are_equivalent()
    ensures { (canonical : Canonical) (xs ys : List ℕ)
        → IsCanonical canonical → All IsScalar xs → All IsScalar ys
        → IsEquivalent canonical xs ys ↔ (composed canonical xs ≡ composed canonical ys) }
{}

/// Each normal form of a normal form is that of the text: the decomposed and the composed list of a
/// decomposed list, and those of a composed list.
#[tactic(auto, using(crate::proofs::equivalence::NormalFormLemmas::decomposed_twice, crate::proofs::equivalence::NormalFormLemmas::decomposed_composed, crate::proofs::equivalence::NormalFormLemmas::composed_decomposed, crate::proofs::equivalence::NormalFormLemmas::composed_twice))]
pub fn normal_forms_stay()
    ensures decomposed_twice { (canonical : Canonical) (xs : List ℕ) → IsDecomposing canonical → All IsScalar xs
        → decomposed canonical (decomposed canonical xs) ≡ decomposed canonical xs }
    ensures decomposed_then_composed { (canonical : Canonical) (xs : List ℕ) → IsDecomposing canonical → All IsScalar xs
        → composed canonical (decomposed canonical xs) ≡ composed canonical xs }
    ensures composed_then_decomposed { (canonical : Canonical) (xs : List ℕ) → IsCanonical canonical → All IsScalar xs
        → decomposed canonical (composed canonical xs) ≡ decomposed canonical xs }
    ensures composed_twice { (canonical : Canonical) (xs : List ℕ) → IsCanonical canonical → All IsScalar xs
        → composed canonical (composed canonical xs) ≡ composed canonical xs }
{}

/// Two texts are canonically equivalent exactly where they have the same NFD, and exactly where they
/// have the same NFC.
#[tactic(auto, using(crate::proofs::equivalence::TextFormLemmas::texts_decomposed_one, crate::proofs::equivalence::TextFormLemmas::texts_composed_one))]
pub fn equal_forms_are_equivalent()
    ensures decomposed { (canonical : Canonical) (a b : List ℕ) → IsDecomposing canonical → IsUtf8 a → IsUtf8 b
        → IsEquivalent canonical (chars a) (chars b) ↔ (decomposed_text canonical a ≡ decomposed_text canonical b) }
    ensures composed { (canonical : Canonical) (a b : List ℕ) → IsCanonical canonical → IsUtf8 a → IsUtf8 b
        → IsEquivalent canonical (chars a) (chars b) ↔ (composed_text canonical a ≡ composed_text canonical b) }
{}

/// Each normal form of a text in a normal form is that of the text: a text that is normalised again
/// stays, the NFC of an NFD is the text's NFC, and the NFD of an NFC its NFD.
#[tactic(auto, using(crate::proofs::equivalence::TextFormLemmas::text_decomposed_twice, crate::proofs::equivalence::TextFormLemmas::text_decomposed_composed, crate::proofs::equivalence::TextFormLemmas::text_composed_decomposed, crate::proofs::equivalence::TextFormLemmas::text_composed_twice))]
pub fn forms_of_texts_stay()
    ensures decomposed_twice { (canonical : Canonical) (text : List ℕ) → IsDecomposing canonical → IsUtf8 text
        → decomposed_text canonical (decomposed_text canonical text) ≡ decomposed_text canonical text }
    ensures decomposed_then_composed { (canonical : Canonical) (text : List ℕ) → IsDecomposing canonical → IsUtf8 text
        → composed_text canonical (decomposed_text canonical text) ≡ composed_text canonical text }
    ensures composed_then_decomposed { (canonical : Canonical) (text : List ℕ) → IsCanonical canonical → IsUtf8 text
        → decomposed_text canonical (composed_text canonical text) ≡ decomposed_text canonical text }
    ensures composed_twice { (canonical : Canonical) (text : List ℕ) → IsCanonical canonical → IsUtf8 text
        → composed_text canonical (composed_text canonical text) ≡ composed_text canonical text }
{}

/// The NFD of a text is its own NFD, and the NFC its own NFC, so `is_normalized` is true of them and
/// `normalize` borrows them.
#[tactic(auto, using(crate::proofs::equivalence::TextFormLemmas::text_is_decomposed, crate::proofs::equivalence::TextFormLemmas::text_is_composed))]
pub fn forms_of_texts_are_normalized()
    ensures decomposed { (canonical : Canonical) (text : List ℕ) → IsDecomposing canonical → IsUtf8 text
        → IsDecomposed canonical (chars (decomposed_text canonical text)) }
    ensures composed { (canonical : Canonical) (text : List ℕ) → IsCanonical canonical → IsUtf8 text
        → IsComposed canonical (chars (composed_text canonical text)) }
{}

/// The same of the normal forms by compatibility data, NFKD and NFKC, too. What a normaliser's data say, and what the
/// canonical data beneath do, its `keep_promise` tells.
#[tactic(auto, using(crate::proofs::forms::FormLawLemmas::over_decomposed_twice, crate::proofs::forms::FormLawLemmas::over_decomposed_composed, crate::proofs::forms::FormLawLemmas::over_composed_decomposed, crate::proofs::forms::FormLawLemmas::over_composed_twice))]
pub fn forms_of_data_stay()
    ensures decomposed_twice { (canonical said : Canonical) (xs : List ℕ) → IsCanonical canonical → IsSaidOver canonical said → All IsScalar xs
        → decomposed said (decomposed said xs) ≡ decomposed said xs }
    ensures decomposed_then_composed { (canonical said : Canonical) (xs : List ℕ) → IsCanonical canonical → IsSaidOver canonical said → All IsScalar xs
        → composed said (decomposed said xs) ≡ composed said xs }
    ensures composed_then_decomposed { (canonical said : Canonical) (xs : List ℕ) → IsCanonical canonical → IsSaidOver canonical said → All IsScalar xs
        → decomposed said (composed said xs) ≡ decomposed said xs }
    ensures composed_twice { (canonical said : Canonical) (xs : List ℕ) → IsCanonical canonical → IsSaidOver canonical said → All IsScalar xs
        → composed said (composed said xs) ≡ composed said xs }
{}

/// The same of the normal forms of texts.
#[tactic(auto, using(crate::proofs::forms::FormLawLemmas::over_text_decomposed_twice, crate::proofs::forms::FormLawLemmas::over_text_decomposed_composed, crate::proofs::forms::FormLawLemmas::over_text_composed_decomposed, crate::proofs::forms::FormLawLemmas::over_text_composed_twice))]
pub fn forms_of_texts_by_data_stay()
    ensures decomposed_twice { (canonical said : Canonical) (text : List ℕ) → IsCanonical canonical → IsSaidOver canonical said → IsUtf8 text
        → decomposed_text said (decomposed_text said text) ≡ decomposed_text said text }
    ensures decomposed_then_composed { (canonical said : Canonical) (text : List ℕ) → IsCanonical canonical → IsSaidOver canonical said → IsUtf8 text
        → composed_text said (decomposed_text said text) ≡ composed_text said text }
    ensures composed_then_decomposed { (canonical said : Canonical) (text : List ℕ) → IsCanonical canonical → IsSaidOver canonical said → IsUtf8 text
        → decomposed_text said (composed_text said text) ≡ decomposed_text said text }
    ensures composed_twice { (canonical said : Canonical) (text : List ℕ) → IsCanonical canonical → IsSaidOver canonical said → IsUtf8 text
        → composed_text said (composed_text said text) ≡ composed_text said text }
{}

/// A text has one form in all encodings: the NFD and the NFC of bytes that are text are those of the text, and of units
/// that read as the text's characters they read as those of the text do. So it is by canonical and by compatibility
/// data.
#[tactic(auto, using(crate::proofs::forms::FormLawLemmas::bytes_decomposed, crate::proofs::forms::FormLawLemmas::bytes_composed, crate::proofs::forms::FormLawLemmas::units_decomposed, crate::proofs::forms::FormLawLemmas::units_composed))]
pub fn encodings_have_one_form()
    ensures bytes_decomposed { (said : Canonical) (text : List ℕ) → IsUtf8 text
        → encode_utf8_all (decomposed said (utf8_chars text)) ≡ decomposed_text said text }
    ensures bytes_composed { (said : Canonical) (text : List ℕ) → IsUtf8 text
        → encode_utf8_all (composed said (utf8_chars text)) ≡ composed_text said text }
    ensures units_decomposed { (canonical said : Canonical) (text units : List ℕ) → IsCanonical canonical → IsSaidOver canonical said → IsUtf8 text
        → utf16_chars units ≡ chars text
        → utf16_chars (encode_utf16_all (decomposed said (utf16_chars units))) ≡ chars (decomposed_text said text) }
    ensures units_composed { (canonical said : Canonical) (text units : List ℕ) → IsCanonical canonical → IsSaidOver canonical said → IsUtf8 text
        → utf16_chars units ≡ chars text
        → utf16_chars (encode_utf16_all (composed said (utf16_chars units))) ≡ chars (composed_text said text) }
{}

/// Data that say the same of each scalar value give a text one decomposed list, and, where they say the same of what two
/// compose to, one composed list: by canonical data the lists of NFD and NFC, by compatibility data those of NFKD and
/// NFKC. It is enough that one of the two is a normaliser's.
#[tactic(auto, using(crate::proofs::forms::SameFormLemmas::same_decomposed, crate::proofs::forms::SameFormLemmas::same_composed))]
pub fn same_data_have_same_forms()
    ensures decomposed { (canonical said other : Canonical) (xs : List ℕ) → IsCanonical canonical → IsSaidOver canonical said
        → AreSameCanonical other said → All IsScalar xs → decomposed other xs ≡ decomposed said xs }
    ensures composed { (canonical said other : Canonical) (xs : List ℕ) → IsCanonical canonical → IsSaidOver canonical said
        → AreSameComposing other said → All IsScalar xs → composed other xs ≡ composed said xs }
{}

/// So the calls of normalisers over such data give each text the same normal form: a text in UTF-8, bytes, and units.
#[tactic(auto, using(crate::proofs::forms::SameFormLemmas::same_text_decomposed, crate::proofs::forms::SameFormLemmas::same_text_composed, crate::proofs::forms::SameFormLemmas::same_bytes_decomposed, crate::proofs::forms::SameFormLemmas::same_bytes_composed, crate::proofs::forms::SameFormLemmas::same_units_decomposed, crate::proofs::forms::SameFormLemmas::same_units_composed))]
pub fn same_data_have_same_forms_of_texts()
    ensures decomposed { (canonical said other : Canonical) (text : List ℕ) → IsCanonical canonical → IsSaidOver canonical said
        → AreSameCanonical other said → IsUtf8 text → decomposed_text other text ≡ decomposed_text said text }
    ensures composed { (canonical said other : Canonical) (text : List ℕ) → IsCanonical canonical → IsSaidOver canonical said
        → AreSameComposing other said → IsUtf8 text → composed_text other text ≡ composed_text said text }
    ensures bytes_decomposed { (canonical said other : Canonical) (bytes : List ℕ) → IsCanonical canonical → IsSaidOver canonical said
        → AreSameCanonical other said → encode_utf8_all (decomposed other (utf8_chars bytes)) ≡ encode_utf8_all (decomposed said (utf8_chars bytes)) }
    ensures bytes_composed { (canonical said other : Canonical) (bytes : List ℕ) → IsCanonical canonical → IsSaidOver canonical said
        → AreSameComposing other said → encode_utf8_all (composed other (utf8_chars bytes)) ≡ encode_utf8_all (composed said (utf8_chars bytes)) }
    ensures units_decomposed { (canonical said other : Canonical) (units : List ℕ) → IsCanonical canonical → IsSaidOver canonical said
        → AreSameCanonical other said → All (λ u. u < 2 ^ 16) units
        → encode_utf16_all (decomposed other (utf16_chars units)) ≡ encode_utf16_all (decomposed said (utf16_chars units)) }
    ensures units_composed { (canonical said other : Canonical) (units : List ℕ) → IsCanonical canonical → IsSaidOver canonical said
        → AreSameComposing other said → All (λ u. u < 2 ^ 16) units
        → encode_utf16_all (composed other (utf16_chars units)) ≡ encode_utf16_all (composed said (utf16_chars units)) }
{}

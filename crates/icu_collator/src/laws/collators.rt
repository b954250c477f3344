//! Laws of collators: what the answers of the calls of one collator, over its checked tables and by its options, say of one
//! another. Each function takes a collator and computes nothing: its contract is the law for that collator, in the words of
//! the contracts of its calls, so a caller of `compare` or of `write_sort_key_to` calls it to know the law of what came.
//! Texts are given as characters, which each encoding decodes to: `characters_are_scalars` is for them.

ghost use Rattle.std.specs.Char.{IsScalar};
ghost use Rattle.std.specs.Cmp.{IsTotalOrder};
ghost use Rattle.std.specs.Cmp.Lexicographic.{slice_cmp};
ghost use Rattle.std.specs.Ordering.{nat_cmp};
ghost use Rattle.std.specs.Prelude.{◌≡◌, ◌≢◌, ◌<◌, ◌^◌, ◌++◌, ℕ, ◌↔◌, All, List, false};
ghost use Rattle.std.specs.Str.{IsUtf8};
ghost use Rattle.std.specs.declared.cmp.Ordering.TheVariants.{Less, Equal, Greater};
ghost use Rattle.icu_normalizer_core.specs.Canonical.{composed, decomposed};
ghost use Rattle.icu_normalizer_core.specs.Decoding.{latin1_chars, utf16_chars, utf8_chars};
ghost use Rattle.icu_normalizer.specs.Equivalence.{IsEquivalent};
ghost use Rattle.icu_normalizer.specs.TextForms.{composed_text, decomposed_text};
ghost use Rattle.icu_collator_types.specs.declared.options.Strength.TheVariants.{Identical};
ghost use Rattle.icu_collator_types.specs.Options.{is_at_least};
ghost use Rattle.icu_collator.specs.CollatorAnswers.{DifferInNumber, DifferInStrength, EncodedText, HasKeysInOrder, OrdersNumbers, ReadsNumbers, canonical_by, characters_of, key_by, order_by, value_by};
ghost use Rattle.icu_collator.specs.Collators.{borrowed_options, borrowed_source};
ghost use Rattle.icu_collator.specs.LeadMoves.{ReordersWholeLeads};
ghost use Rattle.icu_collator.specs.NormalForms.{IsSplitFor, composed_bytes, composed_units, decomposed_bytes, decomposed_units};

use crate::comparison::CollatorBorrowed;
use crate::laws::order_is_total;

/// Whatever a text in UTF-8, UTF-16 or Latin-1 decodes to is scalar values, of which the other laws speak.
#[tactic(auto, using(crate::proofs::CollatorLawLemmas::utf8_read, crate::proofs::CollatorLawLemmas::utf16_read, crate::proofs::CollatorLawLemmas::latin1_read))]
pub fn characters_are_scalars()
    ensures utf8 { (bytes : List ℕ) → All IsScalar (utf8_chars bytes) }
    ensures utf16 { (units : List ℕ) → All (λ unit. unit < 2 ^ 16) units → All IsScalar (utf16_chars units) }
    ensures latin1 { (bytes : List ℕ) → All (λ byte. byte < 2 ^ 8) bytes → All IsScalar (latin1_chars bytes) }
{}

/// `compare` is a total preorder: two texts the other way round have the reverse of the answer, "below" and "equal" are
/// transitive, and texts that are equal compare alike to any third.
pub fn compare_is_a_total_preorder(collator: &CollatorBorrowed<'_>)
    ensures { IsTotalOrder (order_by collator.now) }
{
    let _collator = *collator;
    order_is_total();
}

/// Texts that decode to the same characters, in one encoding or in two, have the same answers of the five calls that
/// compare, and the same keys of the three that write them.
pub fn texts_that_decode_alike_answer_alike(collator: &CollatorBorrowed<'_>)
    ensures answers { (a b c d : EncodedText) → characters_of a ≡ characters_of c → characters_of b ≡ characters_of d
        → order_by collator.now (characters_of a) (characters_of b) ≡ order_by collator.now (characters_of c) (characters_of d) }
    ensures keys { (a b : EncodedText) → characters_of a ≡ characters_of b
        → key_by collator.now (characters_of a) ≡ key_by collator.now (characters_of b) }
{
    let _collator = *collator;
}

/// The keys of two texts compare, byte by byte, as `compare` answers of the texts, and are the same exactly where it
/// answers `Equal`; with numeric ordering the lead of numbers must not be compressible. It is so of each text in UTF-8,
/// whatever bytes it is.
pub fn keys_order_as_compare(collator: &CollatorBorrowed<'_>)
    ensures order { HasKeysInOrder collator.now → (a b : List ℕ) → All IsScalar a → All IsScalar b
        → slice_cmp nat_cmp (key_by collator.now a) (key_by collator.now b) ≡ order_by collator.now a b }
    ensures equal { HasKeysInOrder collator.now → (a b : List ℕ) → All IsScalar a → All IsScalar b
        → (key_by collator.now a ≡ key_by collator.now b) ↔ (order_by collator.now a b ≡ Equal) }
    ensures bytes { HasKeysInOrder collator.now → (a b : List ℕ)
        → slice_cmp nat_cmp (key_by collator.now (utf8_chars a)) (key_by collator.now (utf8_chars b)) ≡ order_by collator.now (utf8_chars a) (utf8_chars b) }
{
    collator.keep_promise();
}

/// Texts that are canonically equivalent are equal and have one key, at every strength and with every option. At `Identical`
/// no others are equal, and, where keys order as `compare` does, no others have one key.
pub fn equal_at_identical_is_canonical_equivalence(collator: &CollatorBorrowed<'_>)
    ensures equal { (a b : List ℕ) → All IsScalar a → All IsScalar b → IsEquivalent (canonical_by collator.now) a b
        → order_by collator.now a b ≡ Equal }
    ensures one_key { (a b : List ℕ) → All IsScalar a → All IsScalar b → IsEquivalent (canonical_by collator.now) a b
        → key_by collator.now a ≡ key_by collator.now b }
    ensures identical { (borrowed_options collator.now).strength ≡ Identical → (a b : List ℕ) → All IsScalar a → All IsScalar b
        → (order_by collator.now a b ≡ Equal) ↔ IsEquivalent (canonical_by collator.now) a b }
    ensures bytes { (borrowed_options collator.now).strength ≡ Identical → (a b : List ℕ)
        → (order_by collator.now (utf8_chars a) (utf8_chars b) ≡ Equal) ↔ IsEquivalent (canonical_by collator.now) (utf8_chars a) (utf8_chars b) }
    ensures keys { HasKeysInOrder collator.now → (borrowed_options collator.now).strength ≡ Identical → (a b : List ℕ) → All IsScalar a → All IsScalar b
        → (key_by collator.now a ≡ key_by collator.now b) ↔ IsEquivalent (canonical_by collator.now) a b }
{
    collator.keep_promise();
}

/// The NFD or the NFC of a text in its place, by the canonical data of the collator, changes no answer of `compare`, on
/// either side.
pub fn normalising_first_changes_no_answer(collator: &CollatorBorrowed<'_>)
    ensures decomposed_left { (a b : List ℕ) → All IsScalar a
        → order_by collator.now (decomposed (canonical_by collator.now) a) b ≡ order_by collator.now a b }
    ensures decomposed_right { (a b : List ℕ) → All IsScalar b
        → order_by collator.now a (decomposed (canonical_by collator.now) b) ≡ order_by collator.now a b }
    ensures composed_left { (a b : List ℕ) → All IsScalar a
        → order_by collator.now (composed (canonical_by collator.now) a) b ≡ order_by collator.now a b }
    ensures composed_right { (a b : List ℕ) → All IsScalar b
        → order_by collator.now a (composed (canonical_by collator.now) b) ≡ order_by collator.now a b }
{
    collator.keep_promise();
}

/// Nor does it change the text's key.
pub fn normalising_first_changes_no_key(collator: &CollatorBorrowed<'_>)
    ensures decomposed { (a : List ℕ) → All IsScalar a → key_by collator.now (decomposed (canonical_by collator.now) a) ≡ key_by collator.now a }
    ensures composed { (a : List ℕ) → All IsScalar a → key_by collator.now (composed (canonical_by collator.now) a) ≡ key_by collator.now a }
{
    collator.keep_promise();
}

/// The same of texts in UTF-8, as `normalize` of a normaliser over the same canonical data gives them.
pub fn normalised_texts_answer_alike(collator: &CollatorBorrowed<'_>)
    ensures decomposed_left { (a b : List ℕ) → IsUtf8 a
        → order_by collator.now (utf8_chars (decomposed_text (canonical_by collator.now) a)) b ≡ order_by collator.now (utf8_chars a) b }
    ensures decomposed_right { (a b : List ℕ) → IsUtf8 b
        → order_by collator.now a (utf8_chars (decomposed_text (canonical_by collator.now) b)) ≡ order_by collator.now a (utf8_chars b) }
    ensures decomposed_key { (a : List ℕ) → IsUtf8 a
        → key_by collator.now (utf8_chars (decomposed_text (canonical_by collator.now) a)) ≡ key_by collator.now (utf8_chars a) }
    ensures composed_left { (a b : List ℕ) → IsUtf8 a
        → order_by collator.now (utf8_chars (composed_text (canonical_by collator.now) a)) b ≡ order_by collator.now (utf8_chars a) b }
    ensures composed_right { (a b : List ℕ) → IsUtf8 b
        → order_by collator.now a (utf8_chars (composed_text (canonical_by collator.now) b)) ≡ order_by collator.now a (utf8_chars b) }
    ensures composed_key { (a : List ℕ) → IsUtf8 a
        → key_by collator.now (utf8_chars (composed_text (canonical_by collator.now) a)) ≡ key_by collator.now (utf8_chars a) }
{
    collator.keep_promise();
}

/// The same of bytes, damaged or not, as `normalize_utf8` gives them.
pub fn normalised_bytes_answer_alike(collator: &CollatorBorrowed<'_>)
    ensures decomposed_left { (a b : List ℕ)
        → order_by collator.now (utf8_chars (decomposed_bytes (canonical_by collator.now) a)) b ≡ order_by collator.now (utf8_chars a) b }
    ensures decomposed_right { (a b : List ℕ)
        → order_by collator.now a (utf8_chars (decomposed_bytes (canonical_by collator.now) b)) ≡ order_by collator.now a (utf8_chars b) }
    ensures decomposed_key { (a : List ℕ)
        → key_by collator.now (utf8_chars (decomposed_bytes (canonical_by collator.now) a)) ≡ key_by collator.now (utf8_chars a) }
    ensures composed_left { (a b : List ℕ)
        → order_by collator.now (utf8_chars (composed_bytes (canonical_by collator.now) a)) b ≡ order_by collator.now (utf8_chars a) b }
    ensures composed_right { (a b : List ℕ)
        → order_by collator.now a (utf8_chars (composed_bytes (canonical_by collator.now) b)) ≡ order_by collator.now a (utf8_chars b) }
    ensures composed_key { (a : List ℕ)
        → key_by collator.now (utf8_chars (composed_bytes (canonical_by collator.now) a)) ≡ key_by collator.now (utf8_chars a) }
{
    collator.keep_promise();
}

/// The same of units, with surrogates without their partner or not, as `normalize_utf16` gives them.
pub fn normalised_units_answer_alike(collator: &CollatorBorrowed<'_>)
    ensures decomposed_left { (a b : List ℕ) → All (λ unit. unit < 2 ^ 16) a
        → order_by collator.now (utf16_chars (decomposed_units (canonical_by collator.now) a)) b ≡ order_by collator.now (utf16_chars a) b }
    ensures decomposed_right { (a b : List ℕ) → All (λ unit. unit < 2 ^ 16) b
        → order_by collator.now a (utf16_chars (decomposed_units (canonical_by collator.now) b)) ≡ order_by collator.now a (utf16_chars b) }
    ensures decomposed_key { (a : List ℕ) → All (λ unit. unit < 2 ^ 16) a
        → key_by collator.now (utf16_chars (decomposed_units (canonical_by collator.now) a)) ≡ key_by collator.now (utf16_chars a) }
    ensures composed_left { (a b : List ℕ) → All (λ unit. unit < 2 ^ 16) a
        → order_by collator.now (utf16_chars (composed_units (canonical_by collator.now) a)) b ≡ order_by collator.now (utf16_chars a) b }
    ensures composed_right { (a b : List ℕ) → All (λ unit. unit < 2 ^ 16) b
        → order_by collator.now a (utf16_chars (composed_units (canonical_by collator.now) b)) ≡ order_by collator.now a (utf16_chars b) }
    ensures composed_key { (a : List ℕ) → All (λ unit. unit < 2 ^ 16) a
        → key_by collator.now (utf16_chars (composed_units (canonical_by collator.now) a)) ≡ key_by collator.now (utf16_chars a) }
{
    collator.keep_promise();
}

/// A text that `split_normalized` split in two, or `split_normalized_utf8` or `split_normalized_utf16` did, of a normaliser
/// over the same canonical data, has the key of its first part with the NFD or the NFC of the other after it: the calls say
/// `IsSplitFor` of what they give.
pub fn split_texts_have_whole_keys(collator: &CollatorBorrowed<'_>)
    ensures decomposed { (text prefix rest : List ℕ) → IsUtf8 text → IsSplitFor (decomposed_text (canonical_by collator.now)) text prefix rest
        → key_by collator.now (utf8_chars (prefix ++ decomposed_text (canonical_by collator.now) rest)) ≡ key_by collator.now (utf8_chars text) }
    ensures composed { (text prefix rest : List ℕ) → IsUtf8 text → IsSplitFor (composed_text (canonical_by collator.now)) text prefix rest
        → key_by collator.now (utf8_chars (prefix ++ composed_text (canonical_by collator.now) rest)) ≡ key_by collator.now (utf8_chars text) }
    ensures decomposed_utf8 { (text prefix rest : List ℕ) → IsSplitFor (decomposed_bytes (canonical_by collator.now)) text prefix rest
        → key_by collator.now (utf8_chars (prefix ++ decomposed_bytes (canonical_by collator.now) rest)) ≡ key_by collator.now (utf8_chars text) }
    ensures composed_utf8 { (text prefix rest : List ℕ) → IsSplitFor (composed_bytes (canonical_by collator.now)) text prefix rest
        → key_by collator.now (utf8_chars (prefix ++ composed_bytes (canonical_by collator.now) rest)) ≡ key_by collator.now (utf8_chars text) }
    ensures decomposed_utf16 { (text prefix rest : List ℕ) → All (λ unit. unit < 2 ^ 16) text → IsSplitFor (decomposed_units (canonical_by collator.now)) text prefix rest
        → key_by collator.now (utf16_chars (prefix ++ decomposed_units (canonical_by collator.now) rest)) ≡ key_by collator.now (utf16_chars text) }
    ensures composed_utf16 { (text prefix rest : List ℕ) → All (λ unit. unit < 2 ^ 16) text → IsSplitFor (composed_units (canonical_by collator.now)) text prefix rest
        → key_by collator.now (utf16_chars (prefix ++ composed_units (canonical_by collator.now) rest)) ≡ key_by collator.now (utf16_chars text) }
{
    collator.keep_promise();
}

/// Where a collator answers `Less` or `Greater`, one at a higher strength answers the same, with the case level off and all
/// else alike.
#[tactic(auto, using(crate::proofs::CollatorFormLemmas::raised_answers))]
pub fn raised_strength_keeps_answers(lower: &CollatorBorrowed<'_>, higher: &CollatorBorrowed<'_>)
    ensures { DifferInStrength lower.now higher.now → (a b : List ℕ) → order_by lower.now a b ≢ Equal
        → order_by higher.now a b ≡ order_by lower.now a b }
{
    let _lower = *lower;
    let _higher = *higher;
}

/// With numeric ordering on, two texts that differ in a number alone compare as the values of the two numbers, where no
/// number is variable, and tables reorder no part of a lead by itself. The same values are `Equal` at every strength but
/// `Identical`, whatever zeros lead the digits.
pub fn numbers_compare_by_value(collator: &CollatorBorrowed<'_>)
    ensures lower { OrdersNumbers collator.now → ReordersWholeLeads (borrowed_source collator.now).tables
        → (x r s y : List ℕ) → DifferInNumber collator.now x r s y → value_by collator.now r < value_by collator.now s
        → order_by collator.now (x ++ (r ++ y)) (x ++ (s ++ y)) ≡ Less }
    ensures higher { OrdersNumbers collator.now → ReordersWholeLeads (borrowed_source collator.now).tables
        → (x r s y : List ℕ) → DifferInNumber collator.now x r s y → value_by collator.now s < value_by collator.now r
        → order_by collator.now (x ++ (r ++ y)) (x ++ (s ++ y)) ≡ Greater }
    ensures equal { ReadsNumbers collator.now → is_at_least (borrowed_options collator.now).strength Identical ≡ false
        → (x r s y : List ℕ) → DifferInNumber collator.now x r s y → value_by collator.now r ≡ value_by collator.now s
        → order_by collator.now (x ++ (r ++ y)) (x ++ (s ++ y)) ≡ Equal }
{
    collator.keep_promise();
}

/// So do the keys of such texts, where keys order as `compare` does: the lower value has the lower key, and the same values
/// have one key at every strength but `Identical`.
pub fn number_keys_order_by_value(collator: &CollatorBorrowed<'_>)
    ensures lower { OrdersNumbers collator.now → HasKeysInOrder collator.now
        → (x r s y : List ℕ) → DifferInNumber collator.now x r s y → All IsScalar (x ++ (r ++ y)) → All IsScalar (x ++ (s ++ y))
        → value_by collator.now r < value_by collator.now s
        → slice_cmp nat_cmp (key_by collator.now (x ++ (r ++ y))) (key_by collator.now (x ++ (s ++ y))) ≡ Less }
    ensures equal { ReadsNumbers collator.now → HasKeysInOrder collator.now → is_at_least (borrowed_options collator.now).strength Identical ≡ false
        → (x r s y : List ℕ) → DifferInNumber collator.now x r s y → All IsScalar (x ++ (r ++ y)) → All IsScalar (x ++ (s ++ y))
        → value_by collator.now r ≡ value_by collator.now s
        → key_by collator.now (x ++ (r ++ y)) ≡ key_by collator.now (x ++ (s ++ y)) }
{
    collator.keep_promise();
}

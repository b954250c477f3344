//! The law of numbers in texts (numeric ordering): where two texts differ in a number alone, they
//! compare as the values of the two numbers do. Its contract is the law, and its body is empty.

ghost use Rattle.std.specs.Char.{IsScalar};
ghost use Rattle.std.specs.Cmp.Lexicographic.{slice_cmp};
ghost use Rattle.std.specs.Ordering.{nat_cmp};
ghost use Rattle.std.specs.Prelude.{◌≡◌, ◌<◌, ℕ, true, false, All, List, ◌++◌};
ghost use Rattle.std.specs.declared.cmp.Ordering.TheVariants.{Less, Equal, Greater};
ghost use Rattle.icu_normalizer_core.specs.Canonical.{IsDecomposing};
ghost use Rattle.icu_collator_types.specs.declared.options.ResolvedCollatorOptions.{ResolvedCollatorOptions};
ghost use Rattle.icu_collator_types.specs.declared.options.Strength.TheVariants.{Identical};
ghost use Rattle.icu_collator_types.specs.Options.{is_at_least, is_numeric};
ghost use Rattle.icu_collator_core.specs.Collation.{Collation};
ghost use Rattle.icu_collator.specs.KeyBytes.{key_of_text};
ghost use Rattle.icu_collator.specs.Settings.{has_plain_leads};
ghost use Rattle.icu_collator.specs.SoundCollation.{IsSoundCollation};
ghost use Rattle.icu_collator.specs.NumbersInTexts.{AreDigitsAlone, AreDigitsApart, AreDotsLight, AreNumbersTogether, IsNumberBetween, no_number_is_variable, run_value};
ghost use Rattle.icu_collator.specs.Order.{collation_order};

/// With numeric ordering on, let two texts differ in one run of digits alone. Each run has at most 254
/// digits from its first nonzero digit on, and neither text has another digit next to the run once it
/// is decomposed. Where no number is variable, and reordering keeps numbers together, the text whose
/// run has the lower value is below the other, at every strength. Where the values are the same, the
/// texts are equal at every strength but `Identical`, whatever zeros lead the digits, whatever is
/// variable and whatever is reordered.
///
/// The collation data must keep what `AreDigitsAlone` says. Where a dot above is dropped before accents, and a tilde
/// (U+0303) is a digit, a dot above that ends the text before the number is dropped before a number that begins with
/// U+0303, but not before the same number with a zero in front. So the first two laws ask that it has no primary weight
/// then (`AreDotsLight`), and the third that it isn't so (`AreDigitsApart`).
#[tactic(auto, using(crate::proofs::numbers::NumbersInTextsLemmas::lower_first, crate::proofs::numbers::NumbersInTextsLemmas::higher_behind, crate::proofs::numbers::NumbersInTextsLemmas::equal_runs))]
pub fn numbers_order_by_value()
    ensures lower { (collation : Collation) (options : ResolvedCollatorOptions) (x r s y : List ℕ)
        → IsDecomposing collation.canonical → AreDigitsAlone collation → AreDotsLight collation.weights → AreNumbersTogether collation
        → is_numeric options.numeric ≡ true → no_number_is_variable collation options ≡ true
        → IsNumberBetween collation x r y → IsNumberBetween collation x s y
        → run_value collation.weights r < run_value collation.weights s
        → collation_order collation options (x ++ (r ++ y)) (x ++ (s ++ y)) ≡ Less }
    ensures higher { (collation : Collation) (options : ResolvedCollatorOptions) (x r s y : List ℕ)
        → IsDecomposing collation.canonical → AreDigitsAlone collation → AreDotsLight collation.weights → AreNumbersTogether collation
        → is_numeric options.numeric ≡ true → no_number_is_variable collation options ≡ true
        → IsNumberBetween collation x r y → IsNumberBetween collation x s y
        → run_value collation.weights s < run_value collation.weights r
        → collation_order collation options (x ++ (r ++ y)) (x ++ (s ++ y)) ≡ Greater }
    ensures equal { (collation : Collation) (options : ResolvedCollatorOptions) (x r s y : List ℕ)
        → IsDecomposing collation.canonical → AreDigitsApart collation
        → is_numeric options.numeric ≡ true → is_at_least options.strength Identical ≡ false
        → IsNumberBetween collation x r y → IsNumberBetween collation x s y
        → run_value collation.weights r ≡ run_value collation.weights s
        → collation_order collation options (x ++ (r ++ y)) (x ++ (s ++ y)) ≡ Equal }
{}

/// The keys of such texts order in the same way, byte by byte, over weights and settings that keep the
/// rules, where the lead byte of numbers is not compressible: the lower value has the lower key, and
/// equal values have the same key at every strength but `Identical`.
pub fn number_keys_order_by_value()
    ensures lower { (collation : Collation) (options : ResolvedCollatorOptions) (x r s y : List ℕ)
        → IsDecomposing collation.canonical → IsSoundCollation collation → has_plain_leads collation options ≡ true
        → AreDigitsAlone collation → AreDotsLight collation.weights
        → is_numeric options.numeric ≡ true → no_number_is_variable collation options ≡ true
        → IsNumberBetween collation x r y → IsNumberBetween collation x s y → All IsScalar (x ++ (r ++ y)) → All IsScalar (x ++ (s ++ y))
        → run_value collation.weights r < run_value collation.weights s
        → slice_cmp nat_cmp (key_of_text collation options (x ++ (r ++ y))) (key_of_text collation options (x ++ (s ++ y))) ≡ Less }
    ensures equal { (collation : Collation) (options : ResolvedCollatorOptions) (x r s y : List ℕ)
        → IsDecomposing collation.canonical → IsSoundCollation collation → has_plain_leads collation options ≡ true
        → AreDigitsApart collation → is_numeric options.numeric ≡ true → is_at_least options.strength Identical ≡ false
        → IsNumberBetween collation x r y → IsNumberBetween collation x s y → All IsScalar (x ++ (r ++ y)) → All IsScalar (x ++ (s ++ y))
        → run_value collation.weights r ≡ run_value collation.weights s
        → key_of_text collation options (x ++ (r ++ y)) ≡ key_of_text collation options (x ++ (s ++ y)) }
{}

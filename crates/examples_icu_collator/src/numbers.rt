//! The law of numbers applied to texts over written tables.

ghost use Rattle.std.specs.Cmp.Lexicographic.{slice_cmp};
ghost use Rattle.std.specs.Ordering.{nat_cmp};
ghost use Rattle.std.specs.Prelude.{◌≡◌, [], ◌∷◌, false};
ghost use Rattle.std.specs.declared.cmp.Ordering.TheVariants.{Less, Equal};
ghost use Rattle.icu_collator_types.specs.declared.options.Strength.{Strength};
ghost use Rattle.icu_collator_types.specs.declared.options.Strength.TheVariants.{Identical};
ghost use Rattle.icu_collator_types.specs.Options.{is_at_least};
ghost use Rattle.icu_collator.specs.KeyBytes.{key_of_text};
ghost use Rattle.examples_icu_collator.specs.Letters.{digits_collation, numeric_options};
ghost use Rattle.icu_collator.specs.NumbersInTexts.{AreDigitsApart, AreNumbersTogether};
ghost use Rattle.icu_collator.specs.Order.{collation_order};

use icu_collator::laws::numbers::{number_keys_order_by_value, numbers_order_by_value};

// The digits there keep what the law asks, so it speaks of something.
#[tactic(auto, using(crate::proofs::LetterDigitsLemmas::letters_digits_apart, crate::proofs::KeyExamples::numbers_together))]
fn digits_are_apart()
    ensures apart { AreDigitsApart digits_collation }
    ensures together { AreNumbersTogether digits_collation }
{}

// "a2" is below "a10" at every strength.
fn two_is_before_ten()
    ensures { (strength : Strength)
        → collation_order digits_collation (numeric_options strength) (0x61 ∷ 0x32 ∷ []) (0x61 ∷ 0x31 ∷ 0x30 ∷ []) ≡ Less }
{
    numbers_order_by_value();
}

// "0007" and "7" are equal below `Identical`, also before a mark, which stays after the last digit.
fn leading_zeros_are_nothing()
    ensures { (strength : Strength) → is_at_least strength Identical ≡ false
        → collation_order digits_collation (numeric_options strength)
        (0x30 ∷ 0x30 ∷ 0x30 ∷ 0x37 ∷ 0x323 ∷ 0x62 ∷ []) (0x37 ∷ 0x323 ∷ 0x62 ∷ []) ≡ Equal }
{
    numbers_order_by_value();
}

// So the key of "a2" is below that of "a10", and "0007" has the key of "7".
fn number_keys_are_in_order()
    ensures lower { (strength : Strength)
        → slice_cmp nat_cmp (key_of_text digits_collation (numeric_options strength) (0x61 ∷ 0x32 ∷ [])) (key_of_text digits_collation (numeric_options strength) (0x61 ∷ 0x31 ∷ 0x30 ∷ [])) ≡ Less }
    ensures equal { (strength : Strength) → is_at_least strength Identical ≡ false
        → key_of_text digits_collation (numeric_options strength) (0x30 ∷ 0x30 ∷ 0x30 ∷ 0x37 ∷ 0x323 ∷ 0x62 ∷ [])
        ≡ key_of_text digits_collation (numeric_options strength) (0x37 ∷ 0x323 ∷ 0x62 ∷ []) }
{
    number_keys_order_by_value();
}

#[test]
fn ok_numbers_order_by_value() {
    digits_are_apart();
    two_is_before_ten();
    leading_zeros_are_nothing();
}

#[test]
fn ok_number_keys_order_by_value() {
    number_keys_are_in_order();
}

//! The laws of numbers applied to digits.

ghost use Rattle.std.specs.Cmp.Lexicographic.{slice_cmp};
ghost use Rattle.std.specs.Ordering.{nat_cmp};
ghost use Rattle.std.specs.Prelude.{◌≡◌, ℕ, List, [], ◌∷◌, ◌++◌};
ghost use Rattle.std.specs.declared.cmp.Ordering.TheVariants.{Less};
ghost use Rattle.icu_collator_types.specs.declared.elements.Element.{Element};
ghost use Rattle.icu_collator_core.specs.Numbers.{number_elements};
ghost use Rattle.icu_collator_core.specs.WholeNumbers.{primaries_of};

use icu_collator_core::laws::{
    equal_values_have_equal_elements, no_number_begins_another, numbers_order_as_values,
};

// 9 is below 10, whatever follows.
fn nine_is_below_ten()
    ensures { (lead : ℕ) (following following_others : List ℕ)
        → slice_cmp nat_cmp (primaries_of (number_elements lead (9 ∷ [])) ++ following) (primaries_of (number_elements lead (1 ∷ 0 ∷ [])) ++ following_others) ≡ Less }
{
    numbers_order_as_values();
}

// 007 has the elements of 7.
fn leading_zeros_are_nothing()
    ensures { (lead : ℕ) → number_elements lead (0 ∷ 0 ∷ 7 ∷ []) ≡ number_elements lead (7 ∷ []) }
{
    equal_values_have_equal_elements();
}

// The elements of 9 with any more after them are not those of 10.
fn nine_does_not_begin_ten()
    ensures { (lead : ℕ) (more : List Element)
        → number_elements lead (1 ∷ 0 ∷ []) ≡ number_elements lead (9 ∷ []) ++ more → more ≡ [] }
{
    no_number_begins_another();
}

#[test]
fn ok_numbers_order_as_values() {
    nine_is_below_ten();
}

#[test]
fn ok_equal_values_have_equal_elements() {
    leading_zeros_are_nothing();
}

#[test]
fn ok_no_number_begins_another() {
    nine_does_not_begin_ten();
}

//! Laws of numbers: how the elements of digits that are read as a number (numeric ordering) compare.
//! Each function's contract is the law, and its body is empty.

ghost use Rattle.std.specs.Cmp.Lexicographic.{slice_cmp};
ghost use Rattle.std.specs.Ordering.{nat_cmp, ordering_then};
ghost use Rattle.std.specs.Prelude.{◌≡◌, ℕ, List, [], ◌++◌};
ghost use Rattle.icu_collator_types.specs.declared.elements.Element.{Element};
ghost use Rattle.icu_collator_core.specs.Numbers.{number_elements, value_of};
ghost use Rattle.icu_collator_core.specs.WholeNumbers.{IsWholeNumber, primaries_of};

pub mod same;
pub mod tables;
pub mod texts;
/// The primaries of two numbers of at most 254 digits, leading zeros aside, compare as the values
/// do, whatever primaries follow them; those that follow decide only between equal values.
#[tactic(auto, using(crate::proofs::numbers::NumberOrderLemmas::numbers_order))]
pub fn numbers_order_as_values()
    ensures { (lead : ℕ) (digits others : List ℕ) (following following_others : List ℕ)
        → IsWholeNumber digits → IsWholeNumber others
        → slice_cmp nat_cmp (primaries_of (number_elements lead digits) ++ following) (primaries_of (number_elements lead others) ++ following_others)
        ≡ ordering_then (nat_cmp (value_of digits) (value_of others)) (slice_cmp nat_cmp following following_others) }
{}

/// Numbers of the same value have the same elements, however many zeros stand before them.
#[tactic(auto, using(crate::proofs::numbers::NumberOrderLemmas::equal_numbers))]
pub fn equal_values_have_equal_elements()
    ensures { (lead : ℕ) (digits others : List ℕ)
        → IsWholeNumber digits → IsWholeNumber others → value_of digits ≡ value_of others
        → number_elements lead digits ≡ number_elements lead others }
{}

/// No number's elements are the beginning of another number's.
#[tactic(auto, using(crate::proofs::numbers::NumberOrderLemmas::none_begins))]
pub fn no_number_begins_another()
    ensures { (lead : ℕ) (digits others : List ℕ) (more : List Element)
        → IsWholeNumber digits → IsWholeNumber others
        → number_elements lead others ≡ number_elements lead digits ++ more
        → more ≡ [] }
{}

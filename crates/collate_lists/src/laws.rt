//! Laws of names in order, over any order that is a total preorder: the functions do nothing, and their contracts are the
//! laws.

ghost use Rattle.std.specs.Prelude.{ℕ, List, [], ◌∷◌, ◌++◌};
ghost use Rattle.std.specs.Cmp.{IsTotalOrder};
ghost use Rattle.std.specs.List.Sorted.{IsPermutation, IsSorted, IsStable};
ghost use Rattle.collate_lists.specs.Names.{TextOrder, in_order};
ghost use Rattle.collate_lists.specs.Insertion.{IsInserted};

/// Names in order: none is below the one before it (README.md, "The program").
#[tactic(auto, using(crate::proofs::NamesLemmas::in_order_is_sorted))]
pub fn names_in_order_are_sorted()
    ensures { (order : TextOrder) (arrivals : List (List ℕ)) → IsTotalOrder order → IsSorted order (in_order order arrivals) }
{}

/// Names in order are the names that arrived, each as often as it arrived (README.md, "The program").
#[tactic(auto, using(crate::proofs::NamesLemmas::in_order_is_permutation))]
pub fn names_in_order_are_the_arrivals()
    ensures { (order : TextOrder) (arrivals : List (List ℕ)) → IsTotalOrder order → IsPermutation arrivals (in_order order arrivals) }
{}

/// Names that compare as equal stand as they arrived (README.md, "The program").
#[tactic(auto, using(crate::proofs::NamesLemmas::in_order_is_stable))]
pub fn equal_names_stand_as_they_arrived()
    ensures { (order : TextOrder) (arrivals : List (List ℕ)) → IsTotalOrder order → IsStable order arrivals (in_order order arrivals) }
{}

/// A new name comes after all names that aren't above it, and the others stay as they were (README.md, "The program").
#[tactic(auto, using(crate::proofs::NamesLemmas::in_order_is_inserted))]
pub fn new_name_comes_after_its_equals()
    ensures { (order : TextOrder) (arrivals : List (List ℕ)) (name : List ℕ) → IsTotalOrder order → IsInserted order name (in_order order arrivals) (in_order order (arrivals ++ name ∷ [])) }
{}

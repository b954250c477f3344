//! Laws of the collation order, for all data and all texts: each function's contract is the law, and
//! its body is empty. Those of canonical equivalence and of normal forms are passed on.

ghost use Rattle.std.specs.Char.{IsScalar};
ghost use Rattle.std.specs.Cmp.{IsTotalOrder};
ghost use Rattle.std.specs.Prelude.{◌≡◌, ℕ, ◌≢◌, ◌↔◌, All, List, IsTrue};
ghost use Rattle.std.specs.declared.cmp.Ordering.TheVariants.{Equal};
ghost use Rattle.icu_normalizer_core.specs.Canonical.{IsCanonical, IsDecomposing, composed, decomposed};
ghost use Rattle.icu_normalizer.specs.Equivalence.{IsEquivalent};
ghost use Rattle.icu_collator_types.specs.declared.options.CaseLevel.TheVariants.{Off};
ghost use Rattle.icu_collator_types.specs.declared.options.ResolvedCollatorOptions.{ResolvedCollatorOptions};
ghost use Rattle.icu_collator_types.specs.declared.options.Strength.{Strength};
ghost use Rattle.icu_collator_types.specs.declared.options.Strength.TheVariants.{Identical};
ghost use Rattle.icu_collator_types.specs.Options.{is_at_least};
ghost use Rattle.icu_collator_core.specs.Collation.{Collation};
ghost use Rattle.icu_collator.specs.Levels.{levels_of_text};
ghost use Rattle.icu_collator.specs.Order.{collation_order};
ghost use Rattle.icu_collator.specs.Strengths.{at_strength};

pub use icu_normalizer::laws::{
    equal_composed_lists_are_equivalent, equal_lists_are_equivalent, normal_forms_stay,
};

/// Whatever collation data and options say, the collation order is a total preorder: swapping two
/// texts reverses the answer, "below" and "equal" are transitive, and texts that compare equal
/// compare alike to any third.
#[tactic(auto, using(crate::proofs::orders::TotalOrderLemmas::collation_order_total))]
pub fn order_is_total()
    ensures { (collation : Collation) (options : ResolvedCollatorOptions) → IsTotalOrder (collation_order collation options) }
{}

/// With the case level off, texts that differ at a strength differ in the same way at every higher
/// one: an answer that isn't `Equal` stays when the strength alone is raised.
#[tactic(auto, using(crate::proofs::orders::StrengthsLemmas::raised_order))]
pub fn raised_strength_keeps_order()
    ensures { (collation : Collation) (options : ResolvedCollatorOptions) (lower higher : Strength) (a b : List ℕ)
        → options.case_level ≡ Off → IsTrue (is_at_least higher lower)
        → collation_order collation (at_strength options lower) a b ≢ Equal
        → collation_order collation (at_strength options higher) a b ≡ collation_order collation (at_strength options lower) a b }
{}

/// Canonically equivalent texts compare equal, at every strength and with every option.
#[tactic(auto, using(crate::proofs::equivalence::IdenticalLemmas::equivalent_equal))]
pub fn equivalent_texts_are_equal()
    ensures { (collation : Collation) (options : ResolvedCollatorOptions) (a b : List ℕ)
        → IsDecomposing collation.canonical → All IsScalar a → All IsScalar b
        → IsEquivalent collation.canonical a b
        → collation_order collation options a b ≡ Equal }
{}

/// At strength `Identical` the texts that compare equal are exactly those that are canonically
/// equivalent, whatever the other options are.
#[tactic(auto, using(crate::proofs::equivalence::IdenticalLemmas::equal_at_identical))]
pub fn equal_at_identical_is_equivalence()
    ensures { (collation : Collation) (options : ResolvedCollatorOptions) (a b : List ℕ)
        → IsDecomposing collation.canonical → options.strength ≡ Identical → All IsScalar a → All IsScalar b
        → (collation_order collation options a b ≡ Equal) ↔ IsEquivalent collation.canonical a b }
{}

/// A text has the levels of its decomposed list and of its composed list, at every strength and with
/// every option; so whatever depends on the levels alone, such as order and keys, is the same for them.
#[tactic(auto, using(crate::proofs::equivalence::NormalisingLemmas::decomposed_levels, crate::proofs::equivalence::NormalisingLemmas::composed_levels))]
pub fn normalising_keeps_levels()
    ensures decomposed { (collation : Collation) (options : ResolvedCollatorOptions) (text : List ℕ)
        → IsDecomposing collation.canonical → All IsScalar text
        → levels_of_text collation options (decomposed collation.canonical text) ≡ levels_of_text collation options text }
    ensures composed { (collation : Collation) (options : ResolvedCollatorOptions) (text : List ℕ)
        → IsCanonical collation.canonical → All IsScalar text
        → levels_of_text collation options (composed collation.canonical text) ≡ levels_of_text collation options text }
{}

/// Putting a text in a normal form before it is compared changes no answer, on either side.
#[tactic(auto, using(crate::proofs::equivalence::NormalisingLemmas::decomposed_first, crate::proofs::equivalence::NormalisingLemmas::decomposed_second, crate::proofs::equivalence::NormalisingLemmas::composed_first, crate::proofs::equivalence::NormalisingLemmas::composed_second))]
pub fn normalising_first_keeps_order()
    ensures decomposed_left { (collation : Collation) (options : ResolvedCollatorOptions) (a b : List ℕ)
        → IsDecomposing collation.canonical → All IsScalar a
        → collation_order collation options (decomposed collation.canonical a) b ≡ collation_order collation options a b }
    ensures decomposed_right { (collation : Collation) (options : ResolvedCollatorOptions) (a b : List ℕ)
        → IsDecomposing collation.canonical → All IsScalar b
        → collation_order collation options a (decomposed collation.canonical b) ≡ collation_order collation options a b }
    ensures composed_left { (collation : Collation) (options : ResolvedCollatorOptions) (a b : List ℕ)
        → IsCanonical collation.canonical → All IsScalar a
        → collation_order collation options (composed collation.canonical a) b ≡ collation_order collation options a b }
    ensures composed_right { (collation : Collation) (options : ResolvedCollatorOptions) (a b : List ℕ)
        → IsCanonical collation.canonical → All IsScalar b
        → collation_order collation options a (composed collation.canonical b) ≡ collation_order collation options a b }
{}

pub mod boundaries;
pub mod collators;
pub mod keys;
pub mod levels;
pub mod numbers;
pub mod same;
pub mod sinks;
pub mod tables;

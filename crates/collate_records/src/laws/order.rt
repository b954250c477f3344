//! Laws of the order of lines: the same lines in another order mean the same. Each function's contract is the law, and
//! its body is empty.

ghost use Rattle.std.specs.Prelude.{List};
ghost use Rattle.std.specs.List.Sorted.{IsPermutation};
ghost use Rattle.icu_normalizer_core.specs.Sameness.{AreSameCanonical, AreSameComposing};
ghost use Rattle.icu_collator_core.specs.SameSettings.{AreSameWithOptions};
ghost use Rattle.icu_collator_core.specs.Sameness.{AreSameWeights};
ghost use Rattle.collate_lines.specs.declared.rule.Rule.TheVariants.{C5, V6, V14};
ghost use Rattle.collate_lines.specs.Record.{Record};
ghost use Rattle.collate_rules.specs.Meaning.{canonical_of, collation_of, weights_of};
ghost use Rattle.collate_rules.specs.Offenders.{NoneOffends};

/// Lines of which none is for the same thing as an earlier one give each scalar value one class and one full list in
/// every order (docs/RECORDS.md, `V14`).
#[tactic(auto, using(crate::proofs::comparing::LineOrderLemmas::same_characters))]
pub fn lines_in_another_order_decompose_alike()
    ensures { (a b : List Record) → IsPermutation a b → NoneOffends V14 a → AreSameCanonical (canonical_of a) (canonical_of b) }
{}

/// Where no two of them compose the same two characters either, they compose alike in every order (docs/RECORDS.md,
/// `V14`, `C5`).
pub fn lines_in_another_order_compose_alike()
    ensures { (a b : List Record) → IsPermutation a b → NoneOffends V14 a → NoneOffends C5 a
        → AreSameComposing (canonical_of a) (canonical_of b) }
{}

/// Such lines, where no two ranges share a character, give the same weights in every order (docs/RECORDS.md, `V14`,
/// `V6`).
pub fn lines_in_another_order_weigh_alike()
    ensures { (a b : List Record) → IsPermutation a b → NoneOffends V14 a → NoneOffends V6 a
        → AreSameWeights (weights_of a) (weights_of b) }
{}

/// Lines of which none is for the same thing as an earlier one make the same settings in every order (docs/RECORDS.md,
/// `V14`).
pub fn lines_in_another_order_set_alike()
    ensures { (a b : List Record) → IsPermutation a b → NoneOffends V14 a → AreSameWithOptions (collation_of a) (collation_of b) }
{}

//! Laws of files whose lines stand in another order: what is accepted in one order is accepted in every order, and means the
//! same. Each function's contract is the law, and its body is empty.

ghost use Rattle.std.specs.Prelude.{ℕ, ◌≤◌, List, length};
ghost use Rattle.std.specs.List.Sorted.{IsPermutation};
ghost use Rattle.icu_normalizer_core.specs.Sameness.{AreSameComposing};
ghost use Rattle.icu_collator_core.specs.SameSettings.{AreSameWithOptions};
ghost use Rattle.icu_collator_core.specs.Sameness.{AreSameWeights};
ghost use Rattle.collate_lines.specs.declared.limits.Limits.{Limits};
ghost use Rattle.collate_lines.specs.Lines.{lines_of, records_of};
ghost use Rattle.collate_lines.specs.Record.{Record};
ghost use Rattle.collate_rules.specs.Accepted.{AreAccepted};
ghost use Rattle.collate_records.specs.Files.{IsAcceptedWithin};
ghost use Rattle.collate_rules.specs.Meaning.{canonical_of, collation_of, weights_of};

/// Accepted lines are accepted in every order (docs/RECORDS.md).
pub fn accepted_lines_are_accepted_in_another_order()
    ensures { (a b : List Record) → IsPermutation a b → AreAccepted a → AreAccepted b }
{}

/// A file that has the lines of a file that is accepted within some limits in another order, and is no longer than they let
/// it be, is accepted within them (docs/RECORDS.md).
pub fn files_in_another_order_are_accepted()
    ensures { (limits : Limits) (a b : List ℕ) → IsAcceptedWithin limits a → IsPermutation (lines_of a) (lines_of b)
        → length b ≤ limits.bytes → IsAcceptedWithin limits b }
{}

/// It means the same: both files give each character one class, one full list and one digit, compose alike, record the same
/// texts with the same elements, and make the same settings (docs/RECORDS.md).
pub fn files_in_another_order_mean_the_same()
    ensures canonical { (limits : Limits) (a b : List ℕ) → IsAcceptedWithin limits a → IsPermutation (lines_of a) (lines_of b)
        → AreSameComposing (canonical_of (records_of a)) (canonical_of (records_of b)) }
    ensures weights { (limits : Limits) (a b : List ℕ) → IsAcceptedWithin limits a → IsPermutation (lines_of a) (lines_of b)
        → AreSameWeights (weights_of (records_of a)) (weights_of (records_of b)) }
    ensures settings { (limits : Limits) (a b : List ℕ) → IsAcceptedWithin limits a → IsPermutation (lines_of a) (lines_of b)
        → AreSameWithOptions (collation_of (records_of a)) (collation_of (records_of b)) }
{}

//! Laws of what the grammar gives: each function's contract is the law, and its body is empty.

ghost use Rattle.std.specs.Prelude.{◌≡◌, ℕ, List, Some};
ghost use Rattle.collate_lines.specs.Grammar.{record_of};
ghost use Rattle.collate_lines.specs.Record.{Record};
ghost use Rattle.collate_rules.specs.GivenWeights.{KeepsWidths};
ghost use Rattle.collate_rules.specs.LineCounts.{KeepsCounts};

/// The elements of a line in the grammar have weights of their widths, and a digit has at most the value 9
/// (docs/RECORDS.md).
#[tactic(auto, using(crate::proofs::given::GrammarLemmas::line_keeps_widths))]
pub fn lines_keep_widths()
    ensures { (line : List ℕ) (given : Record) → record_of line ≡ Some given → KeepsWidths given }
{}

/// A line in the grammar maps to one character at least, and sets four groups (docs/RECORDS.md).
#[tactic(auto, using(crate::proofs::given::GrammarLemmas::line_keeps_counts))]
pub fn lines_keep_counts()
    ensures { (line : List ℕ) (given : Record) → record_of line ≡ Some given → KeepsCounts given }
{}

//! Laws of limits. Each function's contract is the law, and its body is empty.

ghost use Rattle.std.specs.Prelude.{ℕ, ◌<◌, ◌↔◌, All, List, length};
ghost use Rattle.collate_lines.specs.Limits.{standard};
ghost use Rattle.collate_lines.specs.Record.{Record};
ghost use Rattle.collate_rules.specs.Accepted.{IsSaid};
ghost use Rattle.collate_rules.specs.Rules.{IsOverLimit};
ghost use Rattle.collate_records.specs.StandardLimits.{PassesStandard};

/// Within the standard limits nothing is refused for want of room in tables: of lines in the grammar, the first to offend
/// against `limit` is the first by which they name over 150 code points, over 1,000 of them say something, or one lists over
/// eight characters or elements (docs/RECORDS.md).
pub fn standard_limits_leave_room()
    ensures { (records : List Record) (i : ℕ) → All IsSaid records → i < length records → ((j : ℕ) → j < i → PassesStandard records j → ⊥)
        → (IsOverLimit standard records i ↔ PassesStandard records i) }
{}

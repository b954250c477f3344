//! Laws of the rules on records and settings: each function's contract is the law, and its body is empty.

ghost use Rattle.std.specs.Prelude.{◌≡◌, ◌↔◌, ℕ, All, List, false};
ghost use Rattle.std.specs.Char.{IsScalar};
ghost use Rattle.icu_normalizer_core.specs.Canonical.{IsDecomposing, decomposed};
ghost use Rattle.collate_lines.specs.declared.rule.Rule.TheVariants.{Set};
ghost use Rattle.collate_lines.specs.Record.{Record};
ghost use Rattle.collate_rules.specs.KeptSettings.{AreSoundlySet};
ghost use Rattle.collate_rules.specs.LineCounts.{KeepsCounts};
ghost use Rattle.collate_rules.specs.Meaning.{canonical_of};
ghost use Rattle.collate_rules.specs.Offenders.{NoneOffends};
ghost use Rattle.collate_rules.specs.RecordRules.{is_unlike_decomposed};

/// Of a text or a prefix V7 asks nothing more exactly where it is its own decomposed list (docs/RECORDS.md; UAX 15).
pub fn rule_asks_for_decomposed_lists()
    ensures { (lines : List Record) (list : List ℕ) → All KeepsCounts lines → IsDecomposing (canonical_of lines) → All IsScalar list
        → (is_unlike_decomposed lines list ≡ false) ↔ (decomposed (canonical_of lines) list ≡ list) }
{}

/// Where no line offends against the rule on settings, what the lines set is sound: what the laws of keys ask of settings
/// (docs/RECORDS.md, `set`).
pub fn kept_rule_gives_sound_settings()
    ensures { (records : List Record) → All KeepsCounts records → NoneOffends Set records → AreSoundlySet records }
{}

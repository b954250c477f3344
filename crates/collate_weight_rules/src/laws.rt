//! A law of the rules on weights: the function's contract is the law, and its body is empty.

ghost use Rattle.std.specs.Prelude.{All, List};
ghost use Rattle.icu_collator_core.specs.WeightRules.{AreSoundWeights};
ghost use Rattle.collate_lines.specs.Record.{Record};
ghost use Rattle.collate_rules.specs.GivenWeights.{KeepsWidths};
ghost use Rattle.collate_rules.specs.KeptWeights.{KeepWeightRules};
ghost use Rattle.collate_rules.specs.Meaning.{weights_of};

/// Where no line offends against the rules on weights, V1 to V6 (docs/RECORDS.md), the weights that the lines mean are
/// sound: what the laws of keys ask.
pub fn kept_rules_give_sound_weights()
    ensures { (records : List Record) → All KeepsWidths records → KeepWeightRules records → AreSoundWeights (weights_of records) }
{}

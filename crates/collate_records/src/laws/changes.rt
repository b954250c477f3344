//! Laws of what two files say differently: what stays the same where nothing changed. Each function's contract is the
//! law, and its body is empty.

ghost use Rattle.std.specs.Prelude.{ℕ, List};
ghost use Rattle.icu_normalizer_core.specs.Canonical.{Reaches};
ghost use Rattle.icu_collator_core.specs.SameSettings.{AreSameWithOptions};
ghost use Rattle.icu_collator_core.specs.Sameness.{AreSameLeads, AreSameOf};
ghost use Rattle.collate_lines.specs.Record.{Record};
ghost use Rattle.collate_records.specs.Changes.{AreSettingsEqual, IsUnchanged};
ghost use Rattle.collate_rules.specs.Meaning.{collation_of, step_of, weights_of};

/// Under equal settings a text that reaches no changed character, by the steps of the first file, is read alike: both
/// files give each character that it reaches one class, one mapping, one digit and one primary of a range, and record
/// the same texts of such characters (docs/RECORDS.md).
pub fn unchanged_texts_are_read_alike()
    ensures { (old new : List Record) (text : List ℕ)
        → AreSettingsEqual old new → ((c : ℕ) → Reaches (step_of old) text c → IsUnchanged old new c)
        → AreSameOf (collation_of old) (collation_of new) text }
{}

/// Equal settings are the same to whoever reads texts: they reorder each primary alike, read the secondary level the same
/// way round, have the same groups, and set the same options (docs/RECORDS.md).
#[tactic(auto, using(crate::proofs::comparing::LocalityLemmas::settings_alike))]
pub fn equal_settings_are_the_same()
    ensures { (old new : List Record) → AreSettingsEqual old new → AreSameWithOptions (collation_of old) (collation_of new) }
{}

/// Equal settings make the same leads compressible (docs/RECORDS.md).
#[tactic(auto, using(crate::proofs::comparing::LocalityLemmas::leads_alike))]
pub fn equal_settings_compress_alike()
    ensures { (old new : List Record) → AreSettingsEqual old new → AreSameLeads (weights_of old) (weights_of new) }
{}

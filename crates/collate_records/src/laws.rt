//! Laws of record sets: what follows of lines that keep the rules.

ghost use Rattle.std.specs.Prelude.{ℕ, ◌≤◌, List};
ghost use Rattle.icu_normalizer_core.specs.Canonical.{IsComposing, IsDecomposing};
ghost use Rattle.icu_normalizer_core.specs.CanonicalMaps.{AreMeaning, KeepRulesWithin};
ghost use Rattle.icu_collator_core.specs.WeightRules.{AreSoundWeights};
ghost use Rattle.collate_lines.specs.declared.rule.Rule.TheVariants.{C1, C2, C3, C4, C9};
ghost use Rattle.collate_lines.specs.Record.{Record};
ghost use Rattle.collate_records.specs.Maps.{maps_of};
ghost use Rattle.collate_rules.specs.Meaning.{canonical_of, weights_of};
ghost use Rattle.collate_rules.specs.Offenders.{NoneOffends};
ghost use Rattle.collate_rules.specs.Accepted.{AreAccepted, AreScalars};
ghost use Rattle.collate_rules.specs.Rules.{names_in};
ghost use Rattle.collate_lines.specs.declared.limits.Limits.{Limits};
ghost use Rattle.collate_records.specs.Files.{IsAcceptedWithin};
ghost use Rattle.collate_lines.specs.Lines.{records_of};

pub mod changes;
pub mod files;
pub mod limits;
pub mod maps;
pub mod order;
/// Lines of the grammar of which none breaks `C1` to `C4` or `C9` give canonical data, as far as
/// decomposing goes: mapping steps end, and a full list has at most eight characters
/// (docs/RECORDS.md; UAX 15).
///
/// It computes nothing: its contract is the law.
#[tactic(auto, using(crate::proofs::mappings::MappingDecomposingLemmas::decomposing))]
pub fn accepted_lines_decompose()
    ensures { (records : List Record) → AreScalars records → NoneOffends C1 records → NoneOffends C2 records
        → NoneOffends C3 records → NoneOffends C4 records → NoneOffends C9 records → IsDecomposing (canonical_of records) }
{}

/// The lines of a file that is accepted within some limits are accepted: each is in the grammar, and none offends against
/// a rule. They name no more code points than the limits let them (docs/RECORDS.md).
///
/// It computes nothing: its contract is the law.
pub fn accepted_files_have_accepted_lines()
    ensures accepted { (limits : Limits) (file : List ℕ) → IsAcceptedWithin limits file → AreAccepted (records_of file) }
    ensures few { (limits : Limits) (file : List ℕ) → IsAcceptedWithin limits file → names_in (records_of file) ≤ limits.code_points }
{}

/// Accepted lines, as those of all records are, give canonical data, as far as decomposing goes
/// (docs/RECORDS.md; UAX 15).
///
/// It computes nothing: its contract is the law.
#[tactic(auto, using(crate::proofs::reading::ReadingAcceptedLemmas::accepted_decompose))]
pub fn accepted_records_decompose()
    ensures { (records : List Record) → AreAccepted records → IsDecomposing (canonical_of records) }
{}

/// Accepted lines, as those of all records are, give canonical data, as far as composing goes: a composed pair is the mapping
/// of what it composes to, and a character below U+0300 is a starter and its own composed list (docs/RECORDS.md; UAX 15).
///
/// It computes nothing: its contract is the law.
#[tactic(auto, using(crate::proofs::reading::ReadingAcceptedLemmas::accepted_compose))]
pub fn accepted_records_compose()
    ensures { (records : List Record) → AreAccepted records → IsComposing (canonical_of records) }
{}

/// A file that is accepted within some limits gives canonical data, as far as decomposing goes (docs/RECORDS.md; UAX 15).
///
/// It computes nothing: its contract is the law.
pub fn accepted_files_decompose()
    ensures { (limits : Limits) (file : List ℕ) → IsAcceptedWithin limits file → IsDecomposing (canonical_of (records_of file)) }
{}

/// The classes and the mappings that accepted lines give mean, as maps, what the lines mean
/// (docs/RECORDS.md; UAX 15).
///
/// It computes nothing: its contract is the law.
#[tactic(auto, using(crate::proofs::maps::AcceptedAllMapsLemmas::accepted_maps_mean))]
pub fn accepted_records_mean_their_maps()
    ensures { (records : List Record) → AreAccepted records → AreMeaning (maps_of records) (canonical_of records) }
{}

/// The classes and the mappings that accepted lines give keep, as maps, the rules of canonical data within each limit on
/// code points that the lines keep, so that tables of them can be built (docs/RECORDS.md, `limit`, `C1` to `C9`).
///
/// It computes nothing: its contract is the law.
pub fn accepted_records_keep_the_rules_of_maps()
    ensures { (records : List Record) (limit : ℕ) → AreAccepted records → names_in records ≤ limit → KeepRulesWithin limit (maps_of records) }
{}

/// The weights that accepted lines give are sound: what the laws of keys ask (docs/RECORDS.md, `V1` to `V6`).
///
/// It computes nothing: its contract is the law.
pub fn accepted_records_have_sound_weights()
    ensures { (records : List Record) → AreAccepted records → AreSoundWeights (weights_of records) }
{}

//! Laws of tables: what accepted tables mean is what the laws of keys and of order ask of a collation.
//! Each function's contract is the law, and its body is empty.

ghost use Rattle.icu_normalizer_core.specs.Canonical.{Canonical};
ghost use Rattle.icu_collator_core.specs.Acceptance.{IsAccepted};
ghost use Rattle.icu_collator_core.specs.TableMeaning.{collation_of};
ghost use Rattle.icu_collator_core.specs.declared.tables.CollationTables.{CollationTables};
ghost use Rattle.icu_collator.specs.LeadMoves.{ReordersWholeLeads};
ghost use Rattle.icu_collator.specs.SoundCollation.{IsSoundCollation};

/// Accepted tables mean weights and settings that keep the rules, where they reorder no part of a lead
/// by itself. Which leads they make compressible doesn't count: keys go by the leads before reordering.
#[tactic(auto, using(crate::proofs::tables::AcceptedSettingLemmas::accepted_collation))]
pub fn accepted_tables_are_sound()
    ensures { (canonical : Canonical) (tables : CollationTables)
        → IsAccepted canonical tables → ReordersWholeLeads tables
        → IsSoundCollation (collation_of canonical tables) }
{}

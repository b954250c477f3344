//! Laws of compiled tables: they pass every check, and say what their lines say. Each function's contract is
//! the law, and its body is empty.

ghost use Rattle.std.specs.Prelude.{List};
ghost use Rattle.icu_normalizer_core.specs.Canonical.{Canonical};
ghost use Rattle.icu_normalizer_core.specs.Sameness.{AreSameCanonical};
ghost use Rattle.icu_collator_core.specs.Acceptance.{IsAccepted};
ghost use Rattle.icu_collator_core.specs.SameSettings.{AreSameWithOptions};
ghost use Rattle.icu_collator_core.specs.Sameness.{AreSameWeights};
ghost use Rattle.icu_collator_core.specs.TableMeaning.{collation_of as collation_of_tables, weights_of as weights_of_tables};
ghost use Rattle.icu_collator_core.specs.WeightRules.{AreSoundWeights};
ghost use Rattle.icu_collator_core.specs.WholeLeads.{MovesOnlyWholeLeads};
ghost use Rattle.icu_collator_core.specs.declared.tables.CollationTables.{CollationTables};
ghost use Rattle.collate_lines.specs.Record.{Record};
ghost use Rattle.collate_rules.specs.Accepted.{AreAccepted};
ghost use Rattle.collate_rules.specs.KeptSettings.{AreSoundlySet};
ghost use Rattle.collate_rules.specs.Meaning.{canonical_of, collation_of, weights_of};
ghost use Rattle.collate_compile.specs.Compiled.{AreCompiledFrom};

/// The tables that are compiled of accepted lines are collation data: the check of tables finds no fault in
/// them, with canonical data that mean the same lines.
pub fn compiled_tables_are_accepted()
    ensures { (records : List Record) (canonical : Canonical) (tables : CollationTables)
        → AreAccepted records → AreSoundWeights (weights_of records) → AreSoundlySet records
        → AreSameCanonical canonical (canonical_of records) → AreCompiledFrom records tables
        → IsAccepted canonical tables }
{}

/// They say of weights, settings and options what the lines say.
pub fn compiled_tables_mean_their_lines()
    ensures weights { (records : List Record) (canonical : Canonical) (tables : CollationTables)
        → AreAccepted records → AreSoundWeights (weights_of records) → AreCompiledFrom records tables
        → AreSameWeights (weights_of_tables canonical tables) (weights_of records) }
    ensures settings { (records : List Record) (canonical : Canonical) (tables : CollationTables)
        → AreCompiledFrom records tables
        → AreSameWithOptions (collation_of_tables canonical tables) (collation_of records) }
{}

/// They move primaries with their whole leads, each to a place as compressible as its own: what the laws of keys ask.
pub fn compiled_tables_move_whole_leads()
    ensures { (records : List Record) (tables : CollationTables)
        → AreSoundlySet records → AreCompiledFrom records tables → MovesOnlyWholeLeads tables }
{}

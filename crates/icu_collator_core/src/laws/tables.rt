//! Laws of tables: what accepted tables say keeps the rules. Each function's contract is the law, and its
//! body is empty.

ghost use Rattle.std.specs.Char.{IsScalar};
ghost use Rattle.std.specs.Prelude.{ℕ};
ghost use Rattle.icu_normalizer_core.specs.Canonical.{Canonical, IsDecomposing};
ghost use Rattle.icu_collator_core.specs.Acceptance.{IsAccepted};
ghost use Rattle.icu_collator_core.specs.TableMeaning.{weights_of};
ghost use Rattle.icu_collator_core.specs.UnsafeCharacters.{IsSafe, IsUnsafe};
ghost use Rattle.icu_collator_core.specs.WeightRules.{AreSoundWeights};
ghost use Rattle.icu_collator_core.specs.Weights.{Weights};
ghost use Rattle.icu_collator_core.specs.declared.tables.CollationTables.{CollationTables};

/// What accepted tables say of weights keeps the rules of `docs/RECORDS.md`: recorded elements are
/// sound, none begins another, ranges keep to themselves, and digits are digits.
#[tactic(auto, using(crate::proofs::meaning::AcceptedWeightLemmas::accepted_weights))]
pub fn accepted_tables_have_sound_weights()
    ensures { (canonical : Canonical) (tables : CollationTables)
        → IsAccepted canonical tables → AreSoundWeights (weights_of canonical tables) }
{}

/// The full list of a character of which `CheckedTables::is_unsafe` says no begins with a starter that stands in no
/// recorded text but first, and has no recorded prefix: reading a text may begin there. The canonical data must decompose
/// (UAX 15), as all that were checked do.
pub fn other_characters_are_safe()
    ensures { (canonical : Canonical) (weights : Weights) (c : ℕ)
        → IsDecomposing canonical → IsScalar c → (IsUnsafe canonical weights c → ⊥)
        → IsSafe canonical weights c }
{}

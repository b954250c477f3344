//! Characters from which mapping steps don't end.

ghost use Rattle.std.specs.Prelude.{◌≡◌, ◌↔◌, ℕ, slice_get, Some, None, IsTrue, MatchOption};
ghost use Rattle.icu_normalizer_core.specs.CanonicalFaults.{IsLeastOffender, Ends, OffendsLoop, AllEnd};
ghost use Rattle.icu_normalizer_core.specs.CanonicalLists.{AreTriples};
ghost use Rattle.icu_normalizer_core.specs.CanonicalMeaning.{lists_of};
ghost use Rattle.icu_normalizer_core.specs.Settled.{AreStarts, IsDone};

use super::least_refused::first_refused;
use super::left::Left;
use super::settle::left_of;
use crate::canonical::tables::CanonicalTables;

/// Whether the steps from the character end.
fn ends(tables: &CanonicalTables<'_>, settled: &[Option<Left>], c: char) -> bool
    requires triples { AreTriples tables.now.steps }
    requires starts { AreStarts tables.now.steps settled.now }
    requires done { IsDone tables.now.steps settled.now }
    ensures { IsTrue result ↔ Ends (lists_of tables.now) c }
{
    match left_of(&tables.steps, settled, c as u32) {
        Some(_) => true,
        None => false,
    }
}

/// Whether each triple is settled.
fn are_settled(settled: &[Option<Left>]) -> bool
    ensures { IsTrue result ↔ ((i : ℕ) → slice_get settled.now i ≡ Some None → ⊥) }
{
    for left in settled {
        if left.is_none() {
            return false;
        }
    }
    true
}

/// The least character from which steps don't end, `None` where there is none.
pub(super) fn first_loop(tables: &CanonicalTables<'_>, settled: &[Option<Left>]) -> Option<char>
    requires triples { AreTriples tables.now.steps }
    requires starts { AreStarts tables.now.steps settled.now }
    requires done { IsDone tables.now.steps settled.now }
    ensures { MatchOption result (AllEnd (lists_of tables.now)) (IsLeastOffender (OffendsLoop (lists_of tables.now))) }
{
    if are_settled(settled) {
        return None;
    }
    first_refused(|c| ends(tables, settled, c))
}

//! Compatibility data: canonical data with compatibility tables that were checked.

ghost use Rattle.std.specs.Prelude.{◌≡◌, MatchResult, IsTrue};
ghost use Rattle.icu_normalizer_core.specs.Boundaries.{IsSteady};
ghost use Rattle.icu_normalizer_core.specs.CanonicalFaults.{IsAccepted};
ghost use Rattle.icu_normalizer_core.specs.CanonicalMeaning.{lists_of};
ghost use Rattle.icu_normalizer_core.specs.CompatibilityFaults.{AreAcceptedWords};
ghost use Rattle.icu_normalizer_core.specs.CompatibilityMeaning.{compatibility_meaning, nfkd_lists, IsWordRefusal};

use super::check::first_fault;
use super::check::steady::steady_characters;
use super::tables::NfkdTables;
use crate::canonical::steady::SteadyCharacters;
use crate::canonical::{CanonicalData, CanonicalDataError};
use std::alloc::Global;
use std::marker::Model;

/// Compatibility data: canonical data, and compatibility tables that pass every check, seen as the tables of both.
#[derive(Debug)]
pub struct CompatibilityData<'a> {
    canonical: CanonicalData<'a>,
    tables: NfkdTables<'a>,
    steady: SteadyCharacters,
}

// (let go of as one, and not part by part, so that what owns one is proved sooner)
impl Drop for CompatibilityData<'_> {
    fn drop(self) {
        let CompatibilityData {
            canonical: _,
            tables: _,
            steady: _,
        } = self;
    }
}

impl<'a> Model for CompatibilityData<'a> {
    ghost use Rattle.icu_normalizer_core.specs.CanonicalFaults.{IsAccepted};
    ghost use Rattle.icu_normalizer_core.specs.CanonicalMeaning.{lists_of};
    ghost use Rattle.icu_normalizer_core.specs.Compatibility.{compatibility_of};
    ghost use Rattle.icu_normalizer_core.specs.CompatibilityFaults.{AreAcceptedWords};
    ghost use Rattle.icu_normalizer_core.specs.CompatibilityMeaning.{CompatibilityTables, nfkd_lists};
    ghost use Rattle.icu_normalizer_core.specs.SteadyAnswers.{AreSteady};

    ghost Value = { CompatibilityTables };

    ghost view = { λ inside. record { canonical = inside.canonical; nfkd = inside.tables } };

    ghost invariant = { λ inside.
        IsAccepted (lists_of inside.canonical)
        × AreAcceptedWords (lists_of inside.canonical) (nfkd_lists inside.tables)
        × AreSteady (compatibility_of (lists_of inside.canonical) (nfkd_lists inside.tables)) inside.steady.answers.items };
}

impl<'a> CompatibilityData<'a> {
    /// Compatibility data from canonical data and tables, if these pass every check; the first fault otherwise. Want of
    /// memory can come with any tables.
    pub fn try_new(
        alloc: Global,
        canonical: CanonicalData<'a>,
        tables: NfkdTables<'a>,
    ) -> Result<CompatibilityData<'a>, CanonicalDataError>
        ensures { MatchResult result
            (λ checked. (checked.canonical ≡ canonical.entry) × (checked.nfkd ≡ tables.entry) × AreAcceptedWords (lists_of canonical.entry) (nfkd_lists tables.entry))
            (IsWordRefusal (lists_of canonical.entry) (nfkd_lists tables.entry)) }
    {
        match first_fault(canonical.tables(), tables.words()) {
            None => {
                let steady = steady_characters(alloc, &canonical, tables.words())?;
                Ok(CompatibilityData {
                    canonical,
                    tables,
                    steady,
                })
            }
            Some(fault) => Err(CanonicalDataError::Fault(fault)),
        }
    }

    /// The canonical data.
    #[inline]
    pub fn canonical(&self) -> &CanonicalData<'a>
        ensures { result.now ≡ self.now.canonical }
    {
        &self.canonical
    }

    /// The tables.
    #[inline]
    pub(super) fn tables(&self) -> &NfkdTables<'a>
        ensures same { result.now ≡ self.now.nfkd }
        ensures canonical { IsAccepted (lists_of self.now.canonical) }
        ensures accepted { AreAcceptedWords (lists_of self.now.canonical) (nfkd_lists self.now.nfkd) }
    {
        &self.tables
    }

    /// Whether a character is known to be steady.
    #[inline]
    pub(super) fn is_steady(&self, c: char) -> bool
        ensures { IsTrue result → IsSteady (compatibility_meaning self.now) c }
    {
        self.steady.contains(c)
    }
}

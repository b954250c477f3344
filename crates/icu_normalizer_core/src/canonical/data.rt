//! Canonical data: tables that were checked.

ghost use Rattle.std.specs.Prelude.{◌≡◌, MatchResult, IfOk, IsTrue};
ghost use Rattle.icu_normalizer_core.specs.Boundaries.{IsSteady};
ghost use Rattle.icu_normalizer_core.specs.CanonicalFaults.{IsAccepted};
ghost use Rattle.icu_normalizer_core.specs.CanonicalMeaning.{lists_of, meaning};
ghost use Rattle.icu_normalizer_core.specs.CanonicalRefusals.{IsRefusal};
ghost use Rattle.icu_normalizer_core.specs.Plain.{Tells};

use super::check::first_fault;
use super::check::steady::steady_characters;
use super::check::told::told;
use super::steady::SteadyCharacters;
use super::tables::{CanonicalFault, CanonicalTables};
use std::alloc::{AllocError, Global};
use std::marker::Model;
use thiserror::Error;

/// Why tables weren't made canonical data (`CanonicalData::try_new`).
#[derive(Clone, Copy, Debug, PartialEq, Eq, Error)]
pub enum CanonicalDataError {
    /// The tables fail a check: their first fault.
    #[error("{0}")]
    Fault(CanonicalFault),
    /// Memory was refused.
    #[error("out of memory")]
    Memory,
}

impl From<AllocError> for CanonicalDataError {
    ghost use Rattle.std.specs.Prelude.{◌≡◌};
    ghost use Rattle.icu_normalizer_core.specs.declared.canonical.data.CanonicalDataError.TheVariants.{Memory};

    ghost from_gives = { λ _ error. error ≡ Memory };

    fn from(_: AllocError) -> CanonicalDataError {
        CanonicalDataError::Memory
    }
}

/// Canonical data: tables that pass every check, seen as those tables.
#[derive(Debug)]
pub struct CanonicalData<'a> {
    tables: CanonicalTables<'a>,
    steady: SteadyCharacters,
}

// (let go of as one, and not part by part, so that what owns one is proved sooner)
impl Drop for CanonicalData<'_> {
    fn drop(self) {
        let CanonicalData {
            tables: _,
            steady: _,
        } = self;
    }
}

impl<'a> Model for CanonicalData<'a> {
    ghost use Rattle.icu_normalizer_core.specs.declared.canonical.tables.CanonicalTables.{CanonicalTables};
    ghost use Rattle.icu_normalizer_core.specs.CanonicalMeaning.{lists_of, meaning};
    ghost use Rattle.icu_normalizer_core.specs.CanonicalFaults.{IsAccepted};
    ghost use Rattle.icu_normalizer_core.specs.SteadyAnswers.{AreSteady};

    ghost Value = { CanonicalTables };

    ghost view = { λ inside. inside.tables };

    ghost invariant = { λ inside. IsAccepted (lists_of inside.tables) × AreSteady (meaning inside.tables) inside.steady.answers.items };
}

impl<'a> CanonicalData<'a> {
    /// Canonical data from tables, if they pass every check; the first fault otherwise. Want of memory can come
    /// with any tables.
    pub fn try_new(
        alloc: Global,
        tables: CanonicalTables<'a>,
    ) -> Result<CanonicalData<'a>, CanonicalDataError>
        ensures { MatchResult result
            (λ checked. (checked ≡ tables.entry) × IsAccepted (lists_of tables.entry))
            (IsRefusal (lists_of tables.entry)) }
    {
        let told = told(alloc, &tables)?;
        match first_fault(alloc, &tables, &told)? {
            None => Ok(CanonicalData::of_accepted(alloc, tables, &told)?),
            Some(fault) => Err(CanonicalDataError::Fault(fault)),
        }
    }

    /// Canonical data of tables that are known to pass every check, and of a list of the code points of which they say
    /// something. Fails only if memory is refused.
    pub(crate) fn of_accepted(
        alloc: Global,
        tables: CanonicalTables<'a>,
        told: &[u32],
    ) -> Result<CanonicalData<'a>, AllocError>
        requires accepted { IsAccepted (lists_of tables) }
        requires tells { Tells (lists_of tables) told.now }
        ensures { IfOk result (λ made. made ≡ tables.entry) }
    {
        let steady = steady_characters(alloc, &tables, told)?;
        Ok(CanonicalData { tables, steady })
    }

    /// The tables.
    #[inline]
    pub(crate) fn tables(&self) -> &CanonicalTables<'a>
        ensures same { result.now ≡ self.now }
        ensures accepted { IsAccepted (lists_of result.now) }
    {
        &self.tables
    }

    /// Whether a character is known to be steady.
    #[inline]
    pub(super) fn is_steady(&self, c: char) -> bool
        ensures { IsTrue result → IsSteady (meaning self.now) c }
    {
        self.steady.contains(c)
    }
}

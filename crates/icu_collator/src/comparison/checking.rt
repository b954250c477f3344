//! The check of loaded tables.

ghost use Rattle.std.specs.Prelude.{Ok};
ghost use Rattle.icu_normalizer_core.specs.Loading.{CheckedMemoryAside as CanonicalMemoryAside};
ghost use Rattle.icu_collator.specs.Collators.{AreCheckedMemoryAside, CheckedMemoryAside};

use super::error::CollatorError;
use super::loading::SourceTables;
use icu_collator_core::checked::CheckedTables;
use icu_collator_core::tables::CollationTables;
use icu_normalizer_core::canonical::{CanonicalData, CanonicalTables};
use icu_normalizer_core::provider::DataError;
use std::alloc::Global;

/// Collation data of loaded tables, if these pass every check; else the first fault of the canonical ones, or the first
/// of the others.
#[tactic(auto, using(crate::proofs::MakingLemmas::canonical_refused))]
pub(super) fn checked<'a>(
    alloc: Global,
    source: SourceTables<'a>,
) -> Result<CheckedTables<'a>, CollatorError>
    ensures { CheckedMemoryAside source.entry result }
{
    let SourceTables { canonical, tables } = source;
    match checked_canonical(alloc, canonical) {
        Ok(canonical) => checked_tables(alloc, canonical, tables),
        Err(refusal) => Err(CollatorError::from(refusal)),
    }
}

/// Collation data of loaded tables, where the canonical ones pass.
fn checked_tables<'a>(
    alloc: Global,
    canonical: CanonicalData<'a>,
    tables: CollationTables<'a>,
) -> Result<CheckedTables<'a>, CollatorError>
    ensures { AreCheckedMemoryAside canonical.entry tables.entry result }
{
    match CheckedTables::try_new(alloc, canonical, tables) {
        Ok(checked) => Ok(checked),
        Err(fault) => Err(CollatorError::from(fault)),
    }
}

/// Canonical data of loaded tables, if these pass every check.
fn checked_canonical<'a>(
    alloc: Global,
    tables: CanonicalTables<'a>,
) -> Result<CanonicalData<'a>, DataError>
    ensures { CanonicalMemoryAside result (Ok tables.entry) }
{
    let data = CanonicalData::try_new(alloc, tables)?;
    Ok(data)
}

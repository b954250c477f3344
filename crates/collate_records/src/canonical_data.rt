//! Canonical tables and data of lines: their classes and mappings, built with what is built in.

ghost use Rattle.std.specs.Prelude.{◌≡◌, ◌≤◌, IfOk, map};
ghost use Rattle.icu_normalizer_core.specs.CanonicalFaults.{IsAccepted};
ghost use Rattle.icu_normalizer_core.specs.CanonicalMaps.{AreMeaning};
ghost use Rattle.icu_normalizer_core.specs.CanonicalMeaning.{lists_of, meaning};
ghost use Rattle.collate_rules.specs.Accepted.{AreAccepted};
ghost use Rattle.collate_rules.specs.Rules.{names_in};
ghost use Rattle.collate_records.specs.Maps.{maps_of};
ghost use Rattle.collate_lines.specs.Record.{said};

use crate::given_maps::given_maps;
use collate_lines::record::Record;
use icu_normalizer_core::builder::CanonicalDataBuildError;
use icu_normalizer_core::canonical::{CanonicalData, CanonicalDataError, CanonicalTables};
use std::alloc::{AllocError, Global};

/// Canonical tables of accepted lines, which name at most so many code points: they pass every check. `AllocError` where
/// memory is refused.
pub(crate) fn canonical_tables(
    alloc: Global,
    records: &[Record],
    limit: usize,
) -> Result<CanonicalTables<'static>, AllocError>
    requires accepted { AreAccepted (map said records.now) }
    requires few { names_in (map said records.now) ≤ limit }
    ensures means { IfOk result (λ made. AreMeaning (maps_of (map said records.now)) (meaning made)) }
    ensures accepted { IfOk result (λ made. IsAccepted (lists_of made)) }
{
    let maps = given_maps(alloc, records, limit)?;
    match maps.build() {
        Ok(tables) => Ok(tables),
        Err(CanonicalDataBuildError::Memory) => Err(AllocError),
        Err(CanonicalDataBuildError::Rules) => unreachable!(),
    }
}

/// A copy of canonical tables. `AllocError` where memory is refused.
pub(crate) fn copied(
    alloc: Global,
    tables: &CanonicalTables<'static>,
) -> Result<CanonicalTables<'static>, AllocError>
    ensures { IfOk result (λ copy. copy ≡ tables.now) }
{
    let trie = tables.trie.clone(alloc)?;
    let scalars16 = tables.scalars16.clone(alloc)?;
    let scalars24 = tables.scalars24.clone(alloc)?;
    let steps = tables.steps.clone(alloc)?;
    let pairs = tables.pairs.clone(alloc)?;
    Ok(CanonicalTables {
        trie,
        scalars16,
        scalars24,
        steps,
        pairs,
    })
}

/// Canonical data of a copy of tables that pass every check. `AllocError` where memory is refused.
pub(crate) fn canonical_data(
    alloc: Global,
    tables: &CanonicalTables<'static>,
) -> Result<CanonicalData<'static>, AllocError>
    requires { IsAccepted (lists_of tables.now) }
    ensures { IfOk result (λ made. made ≡ tables.now) }
{
    let copy = copied(alloc, tables)?;
    match CanonicalData::try_new(alloc, copy) {
        Ok(data) => Ok(data),
        Err(CanonicalDataError::Memory) => Err(AllocError),
        Err(CanonicalDataError::Fault(_)) => unreachable!(),
    }
}

//! Compatibility tables of lines: their classes and their mappings of both kinds, built with what is built in.

ghost use Rattle.std.specs.Prelude.{◌≤◌, IfOk, map};
ghost use Rattle.icu_normalizer_core.specs.BuiltMaps.{HasPlainWords};
ghost use Rattle.icu_normalizer_core.specs.CompatibilityMaps.{AreAcceptedOver};
ghost use Rattle.icu_normalizer_core.specs.CompatibilityMeaning.{nfkd_lists};
ghost use Rattle.collate_rules.specs.Accepted.{AreAccepted};
ghost use Rattle.collate_rules.specs.Rules.{names_in};
ghost use Rattle.collate_records.specs.Maps.{AreWordsOf, maps_of};
ghost use Rattle.collate_lines.specs.Record.{said};

use crate::given_maps::given_maps;
use collate_lines::record::Record;
use icu_normalizer_core::builder::CanonicalDataBuildError;
use icu_normalizer_core::compatibility::NfkdTables;
use std::alloc::{AllocError, Global};

/// Compatibility tables of lines that are accepted and name at most so many code points: over canonical tables of the same
/// lines they pass every check, and they say what the lines say. `AllocError` where memory is refused.
pub(crate) fn compatibility_data(
    alloc: Global,
    records: &[Record],
    limit: usize,
) -> Result<NfkdTables<'static>, AllocError>
    requires accepted { AreAccepted (map said records.now) }
    requires few { names_in (map said records.now) ≤ limit }
    ensures means { IfOk result (λ made. AreWordsOf (map said records.now) (nfkd_lists made)) }
    ensures accepted { IfOk result (λ made. AreAcceptedOver (maps_of (map said records.now)) (nfkd_lists made)) }
    ensures plain { IfOk result (λ made. HasPlainWords made.trie) }
{
    let maps = given_maps(alloc, records, limit)?;
    match maps.build_nfkd() {
        Ok(tables) => Ok(tables),
        Err(CanonicalDataBuildError::Memory) => Err(AllocError),
        Err(CanonicalDataBuildError::Rules) => unreachable!(),
    }
}

//! The classes and the mappings of lines, given to a builder of tables.

ghost use Rattle.std.specs.Prelude.{◌≡◌, ◌++◌, IfOk, OnOk, map};
ghost use Rattle.icu_normalizer_core.specs.CompatibilityMaps.{maps_in};
ghost use Rattle.collate_rules.specs.Accepted.{AreAccepted, HasSmallClass};
ghost use Rattle.collate_records.specs.Maps.{AreAllMapsOf, MapsToSome, classes_in, compatibilities_in, compatibility_pair, mappings_in};
ghost use Rattle.collate_lines.specs.Record.{said};

use collate_lines::record::Record;
use icu_normalizer_core::builder::CanonicalDataBuilder;
use std::alloc::{AllocError, Global};

/// The classes and the mappings of both kinds of accepted lines, in their order, in a builder that takes at most so many
/// different characters. `AllocError` where memory is refused.
pub(crate) fn given_maps(
    alloc: Global,
    records: &[Record],
    limit: usize,
) -> Result<CanonicalDataBuilder, AllocError>
    requires { AreAccepted (map said records.now) }
    ensures limit { IfOk result (λ maps. maps.limit ≡ limit) }
    ensures maps { IfOk result (λ maps. AreAllMapsOf (map said records.now) (maps_in maps)) }
{
    let mut maps = CanonicalDataBuilder::new_within(alloc, limit);
    for given in records {
        give(&mut maps, given)?;
    }
    Ok(maps)
}

/// Gives what a line says of a class or a mapping of either kind, if it does. `AllocError` where memory is refused.
fn give(maps: &mut CanonicalDataBuilder, given: &Record) -> Result<(), AllocError>
    requires classes { HasSmallClass (said given.now) }
    requires mappings { MapsToSome (said given.now) }
    ensures limit { maps.new.limit ≡ maps.old.limit }
    ensures classes { OnOk result (maps.new.canonical.classes ≡ maps.old.canonical.classes ++ classes_in (said given.now)) }
    ensures mappings { OnOk result (maps.new.canonical.mappings ≡ maps.old.canonical.mappings ++ mappings_in (said given.now)) }
    ensures compatibilities { OnOk result (map compatibility_pair maps.new.compatibilities ≡ map compatibility_pair maps.old.compatibilities ++ compatibilities_in (said given.now)) }
{
    let Record::Kmap { character, mapping } = given else {
        return give_canonical(maps, given);
    };
    match mapping.as_slice() {
        [first, others @ ..] => maps.kmap(*character, *first, others),
        [] => unreachable!(),
    }
}

/// Gives what a line says of a class or a canonical mapping, if it does. `AllocError` where memory is refused.
fn give_canonical(maps: &mut CanonicalDataBuilder, given: &Record) -> Result<(), AllocError>
    requires { HasSmallClass (said given.now) }
    ensures limit { maps.new.limit ≡ maps.old.limit }
    ensures classes { OnOk result (maps.new.canonical.classes ≡ maps.old.canonical.classes ++ classes_in (said given.now)) }
    ensures mappings { OnOk result (maps.new.canonical.mappings ≡ maps.old.canonical.mappings ++ mappings_in (said given.now)) }
    ensures compatibilities { OnOk result (maps.new.compatibilities ≡ maps.old.compatibilities) }
{
    match given {
        Record::Class { character, class } => maps.class(*character, *class as u8),
        Record::Map {
            character,
            first,
            second,
            is_excluded,
        } => maps.map(*character, *first, *second, !*is_excluded),
        _ => Ok(()),
    }
}

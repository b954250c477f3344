//! Mappers of domain names, which hold their data.

ghost use Rattle.std.specs.Prelude.{◌≡◌, MatchResult};
ghost use Rattle.icu_normalizer_core.specs.Loading.{loaded};
ghost use Rattle.icu_normalizer_core.specs.declared.provider.error.DataError.TheVariants.{Invalid};
ghost use Rattle.icu_normalizer_core.specs.declared.provider.error.TableName.TheVariants.{Uts46};
ghost use Rattle.icu_normalizer.specs.Uts46.{IsMapperTable};
ghost use Rattle.icu_normalizer.specs.Uts46Loading.{MapperMemoryAside};

use super::table::MapperTable;
use icu_normalizer_core::canonical::CanonicalData;
use icu_normalizer_core::provider::{
    DataError, NormalizerProvider, TableName, Uts46Tables, load_canonical,
};
use std::alloc::Global;
use std::marker::Model;

/// A mapper of the characters of domain names (UTS 46). It is seen as the tables that it reads.
#[derive(Debug)]
pub struct Uts46Mapper<'a> {
    pub(super) canonical: CanonicalData<'a>,
    pub(super) table: MapperTable<'a>,
}

// (let go of as one, and not part by part, so that what owns one is proved sooner)
impl Drop for Uts46Mapper<'_> {
    fn drop(self) {
        let Uts46Mapper {
            canonical: _,
            table: _,
        } = self;
    }
}

impl<'a> Model for Uts46Mapper<'a> {
    ghost use Rattle.icu_normalizer.specs.Uts46Loading.{MapperTables};

    ghost Value = { MapperTables };

    ghost view = { λ inside. record { canonical = inside.canonical; mapping = inside.table } };
}

impl<'a> Uts46Mapper<'a> {
    /// A mapper over a provider's tables. The answer is the first refusal, if there is one: of `load_nfd`, of
    /// `load_nfd_tables`, of `load_pairs`, of `load_uts46`, then of `CanonicalData::try_new`; then
    /// `Invalid(TableName::Uts46)`, where a character has no word in the mapper table, a word of none of the forms, or one
    /// whose list ends past `scalars24`.
    pub fn try_new<P: NormalizerProvider>(
        alloc: Global,
        provider: &'a P,
    ) -> Result<Uts46Mapper<'a>, DataError>
        ensures { MapperMemoryAside result (loaded (P.nfd provider.now) (P.nfd_tables provider.now) (P.pairs provider.now)) (P.uts46 provider.now) }
    {
        let tables = load_canonical(alloc, provider)?;
        let mapping = provider.load_uts46(alloc)?;
        let canonical = CanonicalData::try_new(alloc, tables)?;
        Uts46Mapper::of_checked(canonical, mapping)
    }

    /// A mapper over canonical data and a mapper table, if each character has a word of one of the forms.
    fn of_checked(
        canonical: CanonicalData<'a>,
        mapping: Uts46Tables<'a>,
    ) -> Result<Uts46Mapper<'a>, DataError>
        ensures { MatchResult result
            (λ mapper. (mapper.canonical ≡ canonical.entry) × (mapper.mapping ≡ mapping.entry) × IsMapperTable mapping.entry)
            (λ error. (error ≡ Invalid Uts46) × ¬ IsMapperTable mapping.entry) }
    {
        match MapperTable::try_new(mapping) {
            Some(table) => Ok(Uts46Mapper { canonical, table }),
            None => Err(DataError::Invalid(TableName::Uts46)),
        }
    }
}

//! Normalisers to NFD and NFKD that hold their data.

ghost use Rattle.std.specs.Prelude.{◌≡◌, ◌⊎◌, Err};
ghost use Rattle.icu_normalizer_core.specs.CanonicalMeaning.{meaning};
ghost use Rattle.icu_normalizer_core.specs.CompatibilityLoading.{loaded_both, loaded_words};
ghost use Rattle.icu_normalizer_core.specs.Loading.{loaded};
ghost use Rattle.icu_normalizer_core.specs.declared.provider.error.DataError.TheVariants.{Memory};
ghost use Rattle.icu_normalizer.specs.NormalizerTables.{loaded_tables, tables_meaning, tables_bound, IsMadeOfCanonical, IsMadeOfBoth};

use super::normalizer::DecomposingNormalizerBorrowed;
use crate::owned_data::{NotedData, OwnedData};
use icu_normalizer_core::provider::{DataError, NormalizerProvider};
use std::alloc::Global;
use std::marker::Model;

/// A normaliser to NFD or NFKD (UAX 15). It is seen as the tables that it reads: canonical ones, and to NFKD
/// compatibility ones too.
#[derive(Debug, Drop)]
pub struct DecomposingNormalizer<'a> {
    data: NotedData<'a>,
}

impl<'a> Model for DecomposingNormalizer<'a> {
    ghost use Rattle.icu_normalizer.specs.NormalizerTables.{NormalizerTables, tables_of};

    ghost Value = { NormalizerTables };

    ghost view = { λ inside. tables_of inside.data.owned };
}

impl<'a> DecomposingNormalizer<'a> {
    ghost use Rattle.icu_normalizer.specs.Normalizers.{normalizer_data, normalizer_canonical, normalizer_bound};

    /// A normaliser to NFD over a provider's tables. The answer is the first refusal, if there is one: of `load_nfd`,
    /// of `load_nfd_tables`, of `load_pairs`, then of `CanonicalData::try_new`.
    pub fn try_new_nfd_unstable<P: NormalizerProvider>(
        alloc: Global,
        provider: &'a P,
    ) -> Result<DecomposingNormalizer<'a>, DataError>
        ensures { IsMadeOfCanonical result (loaded (P.nfd provider.now) (P.nfd_tables provider.now) (P.pairs provider.now)) }
    {
        DecomposingNormalizer::of_data(alloc, OwnedData::load_canonical(alloc, provider))
    }

    /// A normaliser to NFKD over a provider's tables. The answer is the first refusal, if there is one: of `load_nfd`,
    /// of `load_nfd_tables`, of `load_pairs`, of `load_nfkd`, of `load_nfkd_tables`, then of `CanonicalData::try_new`,
    /// then of `CompatibilityData::try_new`.
    pub fn try_new_nfkd_unstable<P: NormalizerProvider>(
        alloc: Global,
        provider: &'a P,
    ) -> Result<DecomposingNormalizer<'a>, DataError>
        ensures { IsMadeOfBoth result
            (loaded_both
            (loaded (P.nfd provider.now) (P.nfd_tables provider.now) (P.pairs provider.now))
            (loaded_words (P.nfkd provider.now) (P.nfkd_tables provider.now))) }
    {
        DecomposingNormalizer::of_data(alloc, OwnedData::load_compatibility(alloc, provider))
    }

    /// The same, borrowed: that has the calls.
    pub fn as_borrowed(&self) -> DecomposingNormalizerBorrowed<'_>
        ensures data { normalizer_data result ≡ tables_meaning self.now }
        ensures canonical { normalizer_canonical result ≡ meaning self.now.canonical }
        ensures bound { normalizer_bound result ≡ tables_bound self.now }
    {
        DecomposingNormalizerBorrowed::over(self.data.owned.as_form_data(), self.data.low())
    }

    /// A normaliser of data that were loaded, or the refusal of the load, or that of memory.
    fn of_data(
        alloc: Global,
        loaded: Result<OwnedData<'a>, DataError>,
    ) -> Result<DecomposingNormalizer<'a>, DataError>
        ensures { (result ≡ Err Memory) ⊎ (result ≡ loaded_tables loaded.entry) }
    {
        let data = NotedData::new(alloc, loaded?)?;
        Ok(DecomposingNormalizer { data })
    }
}

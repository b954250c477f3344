//! Normalisers to NFC and NFKC that hold their data.

ghost use Rattle.std.specs.Prelude.{◌≡◌, ◌⊎◌, Err};
ghost use Rattle.icu_normalizer_core.specs.CanonicalMeaning.{meaning};
ghost use Rattle.icu_normalizer_core.specs.CompatibilityLoading.{loaded_both, loaded_words};
ghost use Rattle.icu_normalizer_core.specs.Loading.{loaded};
ghost use Rattle.icu_normalizer_core.specs.declared.provider.error.DataError.TheVariants.{Memory};
ghost use Rattle.icu_normalizer.specs.NormalizerTables.{loaded_tables, tables_meaning, IsMadeOfCanonical, IsMadeOfBoth};

use super::normalizer::ComposingNormalizerBorrowed;
use crate::owned_data::{NotedData, OwnedData};
use icu_normalizer_core::provider::{DataError, NormalizerProvider};
use std::alloc::Global;
use std::marker::Model;

/// A normaliser to NFC or NFKC (UAX 15). It is seen as the tables that it reads: canonical ones, and to NFKC
/// compatibility ones too.
#[derive(Debug, Drop)]
pub struct ComposingNormalizer<'a> {
    data: NotedData<'a>,
}

impl<'a> Model for ComposingNormalizer<'a> {
    ghost use Rattle.icu_normalizer.specs.NormalizerTables.{NormalizerTables, tables_of};

    ghost Value = { NormalizerTables };

    ghost view = { λ inside. tables_of inside.data.owned };
}

impl<'a> ComposingNormalizer<'a> {
    ghost use Rattle.icu_normalizer.specs.Normalizers.{composing_data, composing_canonical};

    /// A normaliser to NFC over a provider's tables. The answer is the first refusal, if there is one: of `load_nfd`,
    /// of `load_nfd_tables`, of `load_pairs`, then of `CanonicalData::try_new`.
    pub fn try_new_nfc_unstable<P: NormalizerProvider>(
        alloc: Global,
        provider: &'a P,
    ) -> Result<ComposingNormalizer<'a>, DataError>
        ensures { IsMadeOfCanonical result (loaded (P.nfd provider.now) (P.nfd_tables provider.now) (P.pairs provider.now)) }
    {
        ComposingNormalizer::of_data(alloc, OwnedData::load_canonical(alloc, provider))
    }

    /// A normaliser to NFKC over a provider's tables. The answer is the first refusal, if there is one: of `load_nfd`,
    /// of `load_nfd_tables`, of `load_pairs`, of `load_nfkd`, of `load_nfkd_tables`, then of `CanonicalData::try_new`,
    /// then of `CompatibilityData::try_new`.
    pub fn try_new_nfkc_unstable<P: NormalizerProvider>(
        alloc: Global,
        provider: &'a P,
    ) -> Result<ComposingNormalizer<'a>, DataError>
        ensures { IsMadeOfBoth result
            (loaded_both
            (loaded (P.nfd provider.now) (P.nfd_tables provider.now) (P.pairs provider.now))
            (loaded_words (P.nfkd provider.now) (P.nfkd_tables provider.now))) }
    {
        ComposingNormalizer::of_data(alloc, OwnedData::load_compatibility(alloc, provider))
    }

    /// The same, borrowed: that has the calls.
    pub fn as_borrowed(&self) -> ComposingNormalizerBorrowed<'_>
        ensures data { composing_data result ≡ tables_meaning self.now }
        ensures canonical { composing_canonical result ≡ meaning self.now.canonical }
    {
        ComposingNormalizerBorrowed::over(self.data.owned.as_form_data(), self.data.low())
    }

    /// A normaliser of data that were loaded, or the refusal of the load, or that of memory.
    fn of_data(
        alloc: Global,
        loaded: Result<OwnedData<'a>, DataError>,
    ) -> Result<ComposingNormalizer<'a>, DataError>
        ensures { (result ≡ Err Memory) ⊎ (result ≡ loaded_tables loaded.entry) }
    {
        let data = NotedData::new(alloc, loaded?)?;
        Ok(ComposingNormalizer { data })
    }
}

//! The data that normalisers hold.

ghost use Rattle.std.specs.Prelude.{◌≡◌, MatchResult};
ghost use Rattle.icu_normalizer_core.specs.CanonicalMeaning.{meaning};
ghost use Rattle.icu_normalizer_core.specs.CompatibilityLoading.{loaded_both, loaded_words};
ghost use Rattle.icu_normalizer_core.specs.Loading.{loaded};
ghost use Rattle.icu_normalizer_core.specs.FormData.{form_meaning, form_canonical, low_bound};
ghost use Rattle.icu_normalizer_core.specs.declared.provider.error.DataError.TheVariants.{Memory};
ghost use Rattle.icu_normalizer.specs.FormNotes.{AreLow};
ghost use Rattle.icu_normalizer.specs.NormalizerTables.{tables_of, tables_meaning, tables_bound, loaded_tables, IsMadeOfCanonical, IsMadeOfBoth};

use crate::form_notes::{FormNote, form_notes};
use icu_normalizer_core::canonical::CanonicalData;
use icu_normalizer_core::compatibility::CompatibilityData;
use icu_normalizer_core::decomposition::FormData;
use icu_normalizer_core::provider::{
    DataError, NormalizerProvider, load_canonical_data, load_compatibility_data,
};
use std::alloc::Global;

/// What a normal form is made by, held.
#[derive(Debug)]
pub(crate) enum OwnedData<'a> {
    /// Canonical data: NFD and NFC.
    Canonical(CanonicalData<'a>),
    /// Compatibility data: NFKD and NFKC.
    Compatibility(CompatibilityData<'a>),
}

// (let go of as one, and not part by part, so that what owns one is proved sooner)
impl Drop for OwnedData<'_> {
    fn drop(self) {
        match self {
            OwnedData::Canonical(_) => {}
            OwnedData::Compatibility(_) => {}
        }
    }
}

impl<'a> OwnedData<'a> {
    /// Canonical data of a provider's tables. The answer is the first refusal, if there is one: of `load_nfd`, of
    /// `load_nfd_tables`, of `load_pairs`, then of `CanonicalData::try_new`.
    pub(crate) fn load_canonical<P: NormalizerProvider>(
        alloc: Global,
        provider: &'a P,
    ) -> Result<OwnedData<'a>, DataError>
        ensures { IsMadeOfCanonical (loaded_tables result) (loaded (P.nfd provider.now) (P.nfd_tables provider.now) (P.pairs provider.now)) }
    {
        let canonical = load_canonical_data(alloc, provider)?;
        Ok(OwnedData::Canonical(canonical))
    }

    /// Compatibility data of a provider's tables. The answer is the first refusal, if there is one: of `load_nfd`, of
    /// `load_nfd_tables`, of `load_pairs`, of `load_nfkd`, of `load_nfkd_tables`, then of `CanonicalData::try_new`,
    /// then of `CompatibilityData::try_new`.
    pub(crate) fn load_compatibility<P: NormalizerProvider>(
        alloc: Global,
        provider: &'a P,
    ) -> Result<OwnedData<'a>, DataError>
        ensures { IsMadeOfBoth (loaded_tables result)
            (loaded_both
            (loaded (P.nfd provider.now) (P.nfd_tables provider.now) (P.pairs provider.now))
            (loaded_words (P.nfkd provider.now) (P.nfkd_tables provider.now))) }
    {
        let both = load_compatibility_data(alloc, provider)?;
        Ok(OwnedData::Compatibility(both))
    }

    /// The same, borrowed.
    pub(crate) fn as_form_data(&self) -> FormData<'_>
        ensures said { form_meaning result ≡ tables_meaning (tables_of self.now) }
        ensures canonical { form_canonical result ≡ meaning (tables_of self.now).canonical }
        ensures bound { low_bound result ≡ tables_bound (tables_of self.now) }
    {
        match self {
            OwnedData::Canonical(canonical) => FormData::Canonical(canonical.as_borrowed()),
            OwnedData::Compatibility(both) => FormData::Compatibility(both.as_borrowed()),
        }
    }
}

/// The data of a normaliser, with notes of low characters.
#[derive(Debug)]
pub(crate) struct NotedData<'a> {
    pub(crate) owned: OwnedData<'a>,
    low: Vec<FormNote>,
    ghost notes: { AreLow (tables_meaning (tables_of owned)) low.items },
}

// (let go of as one, and not part by part, so that what owns one is proved sooner)
impl Drop for NotedData<'_> {
    fn drop(self) {
        let NotedData { owned: _, low: _ } = self;
    }
}

impl<'a> NotedData<'a> {
    /// These data, with notes. The only refusal is that of memory.
    pub(crate) fn new(alloc: Global, owned: OwnedData<'a>) -> Result<NotedData<'a>, DataError>
        ensures { MatchResult result (λ noted. noted.owned ≡ owned.entry) (λ refusal. refusal ≡ Memory) }
    {
        let low = form_notes(alloc, owned.as_form_data())?;
        Ok(NotedData { owned, low })
    }

    /// The notes of low characters.
    pub(crate) fn low(&self) -> &[FormNote]
        ensures { AreLow (tables_meaning (tables_of self.now.owned)) result.now }
    {
        &self.low
    }
}

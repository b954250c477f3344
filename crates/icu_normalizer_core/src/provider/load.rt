//! Canonical and compatibility data from a provider.

ghost use Rattle.std.specs.Prelude.{Ok};
ghost use Rattle.icu_normalizer_core.specs.CompatibilityLoading.{loaded_words, loaded_both, BothCheckedMemoryAside};
ghost use Rattle.icu_normalizer_core.specs.Loading.{MemoryAside, CheckedMemoryAside, loaded};

use super::error::DataError;
use super::normalizer_provider::NormalizerProvider;
use super::provider_lists::{NfdLists, NfkdLists};
use crate::canonical::{CanonicalData, CanonicalTables};
use crate::compatibility::{CompatibilityData, NfkdTables};
use std::alloc::Global;

/// The canonical tables that a provider has, not yet checked. The first load that is refused is the answer.
pub fn load_canonical<P: NormalizerProvider>(
    alloc: Global,
    provider: &P,
) -> Result<CanonicalTables<'_>, DataError>
    ensures { MemoryAside result (loaded (P.nfd provider.now) (P.nfd_tables provider.now) (P.pairs provider.now)) }
{
    let trie = provider.load_nfd(alloc)?;
    let NfdLists {
        scalars16,
        scalars24,
        steps,
    } = provider.load_nfd_tables(alloc)?;
    let pairs = provider.load_pairs(alloc)?;
    Ok(CanonicalTables {
        trie,
        scalars16,
        scalars24,
        steps,
        pairs,
    })
}

/// The canonical data that a provider has. The answer is the first refusal, if there is one: of `load_nfd`, of
/// `load_nfd_tables`, of `load_pairs`, then of `CanonicalData::try_new`.
pub fn load_canonical_data<P: NormalizerProvider>(
    alloc: Global,
    provider: &P,
) -> Result<CanonicalData<'_>, DataError>
    ensures { CheckedMemoryAside result (loaded (P.nfd provider.now) (P.nfd_tables provider.now) (P.pairs provider.now)) }
{
    let tables = load_canonical(alloc, provider)?;
    let data = CanonicalData::try_new(alloc, tables)?;
    Ok(data)
}

/// The compatibility tables that a provider has, not yet checked. The first load that is refused is the answer.
fn load_words<P: NormalizerProvider>(
    alloc: Global,
    provider: &P,
) -> Result<NfkdTables<'_>, DataError>
    ensures { MemoryAside result (loaded_words (P.nfkd provider.now) (P.nfkd_tables provider.now)) }
{
    let trie = provider.load_nfkd(alloc)?;
    let NfkdLists {
        scalars16,
        scalars24,
    } = provider.load_nfkd_tables(alloc)?;
    Ok(NfkdTables {
        trie,
        scalars16,
        scalars24,
    })
}

/// Compatibility data of tables, if both pass every check; else the first canonical fault, or the first of the others.
fn checked<'a>(
    alloc: Global,
    canonical: CanonicalTables<'a>,
    words: NfkdTables<'a>,
) -> Result<CompatibilityData<'a>, DataError>
    ensures { BothCheckedMemoryAside result (loaded_both (Ok canonical.entry) (Ok words.entry)) }
{
    let canonical = CanonicalData::try_new(alloc, canonical)?;
    let data = CompatibilityData::try_new(alloc, canonical, words)?;
    Ok(data)
}

/// The compatibility data that a provider has. The answer is the first refusal, if there is one: of `load_nfd`, of
/// `load_nfd_tables`, of `load_pairs`, of `load_nfkd`, of `load_nfkd_tables`, then of `CanonicalData::try_new`, then of
/// `CompatibilityData::try_new`.
pub fn load_compatibility_data<P: NormalizerProvider>(
    alloc: Global,
    provider: &P,
) -> Result<CompatibilityData<'_>, DataError>
    ensures { BothCheckedMemoryAside result
        (loaded_both
        (loaded (P.nfd provider.now) (P.nfd_tables provider.now) (P.pairs provider.now))
        (loaded_words (P.nfkd provider.now) (P.nfkd_tables provider.now))) }
{
    let canonical = load_canonical(alloc, provider)?;
    let words = load_words(alloc, provider)?;
    checked(alloc, canonical, words)
}

//! A source of the tables of canonical and compatibility data.

ghost use Rattle.std.specs.Prelude.{ℕ, List, Result};
ghost use Rattle.icu_codepointtrie.specs.Slots.{TrieTables};
ghost use Rattle.icu_normalizer_core.specs.declared.provider.error.DataError.{DataError};
ghost use Rattle.icu_normalizer_core.specs.declared.provider.provider_lists.NfdLists.{NfdLists};
ghost use Rattle.icu_normalizer_core.specs.declared.provider.provider_lists.NfkdLists.{NfkdLists};
ghost use Rattle.icu_normalizer_core.specs.declared.provider.provider_lists.Uts46Tables.{Uts46Tables};
ghost use Rattle.icu_normalizer_core.specs.Loading.{MemoryAside};

use super::error::DataError;
use super::provider_lists::{NfdLists, NfkdLists, Uts46Tables};
use icu_codepointtrie::CodePointTrie;
use icu_packed_vector::PackedVec;
use std::alloc::Global;

/// A source of tables. Each call gives one of them, not yet checked, or says why it can't be had: it is missing
/// (a provider of canonical data alone answers so for `load_nfkd`, `load_nfkd_tables` and `load_uts46`), or it is
/// there but damaged. What a call gives depends on the provider alone, except that memory may be refused.
pub trait NormalizerProvider {
    /// What `load_nfd` gives.
    ghost nfd: { Self → Result (TrieTables ℕ) DataError };

    /// What `load_nfd_tables` gives.
    ghost nfd_tables: { Self → Result NfdLists DataError };

    /// What `load_nfkd` gives.
    ghost nfkd: { Self → Result (TrieTables ℕ) DataError };

    /// What `load_nfkd_tables` gives.
    ghost nfkd_tables: { Self → Result NfkdLists DataError };

    /// What `load_pairs` gives.
    ghost pairs: { Self → Result (List ℕ) DataError };

    /// What `load_uts46` gives.
    ghost uts46: { Self → Result Uts46Tables DataError };

    /// The canonical words: the class, or the full list, of each code point.
    fn load_nfd(&self, alloc: Global) -> Result<CodePointTrie<'_, u32>, DataError>
        ensures { MemoryAside result (nfd self.now) };

    /// The characters of canonical full lists, and the mappings.
    fn load_nfd_tables(&self, alloc: Global) -> Result<NfdLists<'_>, DataError>
        ensures { MemoryAside result (nfd_tables self.now) };

    /// The compatibility words.
    fn load_nfkd(&self, alloc: Global) -> Result<CodePointTrie<'_, u32>, DataError>
        ensures { MemoryAside result (nfkd self.now) };

    /// The characters of compatibility full lists.
    fn load_nfkd_tables(&self, alloc: Global) -> Result<NfkdLists<'_>, DataError>
        ensures { MemoryAside result (nfkd_tables self.now) };

    /// The composed pairs.
    fn load_pairs(&self, alloc: Global) -> Result<PackedVec<'_, u64>, DataError>
        ensures { MemoryAside result (pairs self.now) };

    /// What the mapper of domain names needs beside the others (UTS 46).
    fn load_uts46(&self, alloc: Global) -> Result<Uts46Tables<'_>, DataError>
        ensures { MemoryAside result (uts46 self.now) };
}

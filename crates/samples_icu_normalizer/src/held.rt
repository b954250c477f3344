//! A provider that holds tables, as a library above writes one.

ghost use Rattle.std.specs.Prelude.{true, false, Some, None, Ok, Err};
ghost use Rattle.icu_normalizer_core.specs.declared.provider.error.DataError.TheVariants.{Missing};
ghost use Rattle.icu_normalizer_core.specs.declared.provider.error.TableName.TheVariants.{Nfd, NfdTables, Nfkd, NfkdTables, Pairs, Uts46};

use crate::tables::{PAIRS, STEPS, pair, tables, trie};
use icu_codepointtrie::CodePointTrie;
use icu_normalizer_core::canonical::CanonicalTables;
use icu_normalizer_core::compatibility::NfkdTables;
use icu_normalizer_core::provider::{
    DataError, NfdLists, NfkdLists, NormalizerProvider, TableName, Uts46Tables,
};
use icu_packed_vector::PackedVec;
use std::alloc::Global;

/// A provider of tables, some of which it may lack.
pub struct Held<'t> {
    /// What is held.
    pub tables: CanonicalTables<'t>,
    /// The compatibility tables, where it has them.
    pub nfkd: Option<NfkdTables<'t>>,
    /// The mapper table of domain names, where it has one.
    pub uts46: Option<Uts46Tables<'t>>,
    /// `load_nfd` answers that its table is missing.
    pub lacks_words: bool,
    /// `load_nfd_tables` does.
    pub lacks_lists: bool,
    /// `load_pairs` does.
    pub lacks_pairs: bool,
    /// `load_nfkd_tables` does, where it has compatibility tables too.
    pub lacks_compatibility_lists: bool,
}

// (let go of as one, and not part by part, so that what owns one is proved sooner)
impl Drop for Held<'_> {
    fn drop(self) {
        let Held {
            tables: _,
            nfkd: _,
            uts46: _,
            lacks_words: _,
            lacks_lists: _,
            lacks_pairs: _,
            lacks_compatibility_lists: _,
        } = self;
    }
}

impl NormalizerProvider for Held<'_> {
    ghost nfd = { λ held. elim held.lacks_words [ true ↦ Err (Missing Nfd) | false ↦ Ok held.tables.trie ] };

    ghost nfd_tables = { λ held. elim held.lacks_lists [
      | true ↦ Err (Missing NfdTables)
      | false ↦
          Ok (record { scalars16 = held.tables.scalars16; scalars24 = held.tables.scalars24; steps = held.tables.steps })
    ] };

    ghost nfkd = { λ held. elim held.nfkd [ None ↦ Err (Missing Nfkd) | Some tables ↦ Ok tables.trie ] };

    ghost nfkd_tables = { λ held. elim held.lacks_compatibility_lists [
      | true ↦ Err (Missing NfkdTables)
      | false ↦ elim held.nfkd [
        | None ↦ Err (Missing NfkdTables)
        | Some tables ↦ Ok (record { scalars16 = tables.scalars16; scalars24 = tables.scalars24 })
      ]
    ] };

    ghost pairs = { λ held. elim held.lacks_pairs [ true ↦ Err (Missing Pairs) | false ↦ Ok held.tables.pairs ] };

    ghost uts46 = { λ held. elim held.uts46 [ None ↦ Err (Missing Uts46) | Some tables ↦ Ok tables ] };

    fn load_nfd(&self, alloc: Global) -> Result<CodePointTrie<'_, u32>, DataError> {
        if self.lacks_words {
            return Err(DataError::Missing(TableName::Nfd));
        }
        let trie = self.tables.trie.clone(alloc)?;
        Ok(trie)
    }

    fn load_nfd_tables(&self, alloc: Global) -> Result<NfdLists<'_>, DataError> {
        if self.lacks_lists {
            return Err(DataError::Missing(TableName::NfdTables));
        }
        let scalars16 = self.tables.scalars16.clone(alloc)?;
        let scalars24 = self.tables.scalars24.clone(alloc)?;
        let steps = self.tables.steps.clone(alloc)?;
        Ok(NfdLists {
            scalars16,
            scalars24,
            steps,
        })
    }

    fn load_nfkd(&self, alloc: Global) -> Result<CodePointTrie<'_, u32>, DataError> {
        match &self.nfkd {
            None => Err(DataError::Missing(TableName::Nfkd)),
            Some(tables) => {
                let trie = tables.trie.clone(alloc)?;
                Ok(trie)
            }
        }
    }

    fn load_nfkd_tables(&self, alloc: Global) -> Result<NfkdLists<'_>, DataError> {
        if self.lacks_compatibility_lists {
            return Err(DataError::Missing(TableName::NfkdTables));
        }
        match &self.nfkd {
            None => Err(DataError::Missing(TableName::NfkdTables)),
            Some(tables) => {
                let scalars16 = tables.scalars16.clone(alloc)?;
                let scalars24 = tables.scalars24.clone(alloc)?;
                Ok(NfkdLists {
                    scalars16,
                    scalars24,
                })
            }
        }
    }

    fn load_pairs(&self, alloc: Global) -> Result<PackedVec<'_, u64>, DataError> {
        if self.lacks_pairs {
            return Err(DataError::Missing(TableName::Pairs));
        }
        let pairs = self.tables.pairs.clone(alloc)?;
        Ok(pairs)
    }

    fn load_uts46(&self, alloc: Global) -> Result<Uts46Tables<'_>, DataError> {
        match &self.uts46 {
            None => Err(DataError::Missing(TableName::Uts46)),
            Some(tables) => {
                let trie = tables.trie.clone(alloc)?;
                let scalars24 = tables.scalars24.clone(alloc)?;
                Ok(Uts46Tables { trie, scalars24 })
            }
        }
    }
}

/// A provider of these tables, which lacks none of them, and has no others.
pub fn provider_of(tables: CanonicalTables<'_>) -> Held<'_> {
    Held {
        tables,
        nfkd: None,
        uts46: None,
        lacks_words: false,
        lacks_lists: false,
        lacks_pairs: false,
        lacks_compatibility_lists: false,
    }
}

/// A provider of the tables of the worked rows, and of a letter with a diaeresis; `None` where memory is refused.
pub fn letters(alloc: Global) -> Option<Held<'static>> {
    let steps = [0xe1, 0x61, 0x301, 0xe4, 0x61, 0x308, 0x1ea1, 0x61, 0x323];
    let pairs = [PAIRS[0], pair(0x61, 0x308, 0xe4), PAIRS[1]];
    let tables = tables(alloc, &[(0xe4, 0x184_0061)], &steps, &pairs)?;
    Some(provider_of(tables))
}

/// Words that compatibility data add to those of the worked rows: a space, and the two marks of half width, whose mappings
/// are built in.
const COMPATIBILITY_WORDS: [(u32, u32); 3] = [(0xa0, 0x20), (0xff9e, 0x3099), (0xff9f, 0x309a)];

/// Compatibility tables of these words, and of others.
fn nfkd_tables(alloc: Global, others: &[(u32, u32)]) -> Option<NfkdTables<'static>> {
    let trie = trie(alloc, &COMPATIBILITY_WORDS, others)?;
    let scalars16 = PackedVec::from_slice(alloc, &[]).ok()?;
    let scalars24 = PackedVec::from_slice(alloc, &[]).ok()?;
    Some(NfkdTables {
        trie,
        scalars16,
        scalars24,
    })
}

/// A provider of the tables of the worked rows with other words for some characters, and of compatibility tables with
/// others for some; `None` where memory is refused.
pub fn with_words(
    alloc: Global,
    canonical: &[(u32, u32)],
    compatibility: &[(u32, u32)],
) -> Option<Held<'static>> {
    let mut held = provider_of(tables(alloc, canonical, &STEPS, &PAIRS)?);
    held.nfkd = Some(nfkd_tables(alloc, compatibility)?);
    Some(held)
}

/// A provider of the tables of the worked rows and of compatibility tables; `None` where memory is refused.
pub fn with_compatibility(alloc: Global) -> Option<Held<'static>> {
    with_words(alloc, &[], &[])
}

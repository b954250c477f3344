//! A provider that holds the tables of a collation, as a library above writes one.

ghost use Rattle.std.specs.Prelude.{true, false, Some, None, Ok, Err};
ghost use Rattle.icu_normalizer_core.specs.declared.provider.error.DataError.TheVariants.{Missing};
ghost use Rattle.icu_normalizer_core.specs.declared.provider.error.TableName.TheVariants.{Nfd, NfdTables, Nfkd, NfkdTables, Pairs, Uts46, Root, Jamo, SpecialPrimaries, Tailoring, Diacritics, Metadata, Reordering};

use icu_codepointtrie::CodePointTrie;
use icu_collator_core::provider::CollatorProvider;
use icu_collator_core::tables::{
    CollationData, CollationDiacritics, CollationJamo, CollationMetadata, CollationReordering,
    CollationSpecialPrimaries, CollationTables,
};
use icu_normalizer_core::canonical::CanonicalTables;
use icu_normalizer_core::provider::{
    DataError, NfdLists, NfkdLists, NormalizerProvider, TableName, Uts46Tables,
};
use icu_packed_vector::PackedVec;
use std::alloc::Global;

/// Which calls of a provider answer that their table is missing.
#[derive(Clone, Copy, Debug, Default)]
pub struct Lacking {
    /// `load_nfd` does.
    pub nfd: bool,
    /// `load_nfd_tables` does.
    pub nfd_tables: bool,
    /// `load_pairs` does.
    pub pairs: bool,
    /// `load_root` does.
    pub root: bool,
    /// `load_jamo` does.
    pub jamo: bool,
    /// `load_special_primaries` does.
    pub special_primaries: bool,
    /// `load_metadata` does.
    pub metadata: bool,
    /// `load_diacritics` does.
    pub diacritics: bool,
}

/// A provider of tables, the same for all locales.
pub struct HeldCollation<'t> {
    /// Canonical tables.
    pub canonical: CanonicalTables<'t>,
    /// Those of the collation. It lacks the tailoring and the reordering that they lack.
    pub tables: CollationTables<'t>,
    /// What else it lacks.
    pub lacking: Lacking,
}

// (let go of as one, and not part by part, so that what owns one is proved sooner)
impl Drop for HeldCollation<'_> {
    fn drop(self) {
        let HeldCollation {
            canonical: _,
            tables: _,
            lacking: _,
        } = self;
    }
}

impl<'t> HeldCollation<'t> {
    /// A provider of these tables that lacks none of them.
    pub fn of_tables(
        canonical: CanonicalTables<'t>,
        tables: CollationTables<'t>,
    ) -> HeldCollation<'t> {
        HeldCollation {
            canonical,
            tables,
            lacking: Lacking::default(),
        }
    }
}

impl NormalizerProvider for HeldCollation<'_> {
    ghost nfd = { λ held. elim held.lacking.nfd [ true ↦ Err (Missing Nfd) | false ↦ Ok held.canonical.trie ] };

    ghost nfd_tables = { λ held. elim held.lacking.nfd_tables [
      | true ↦ Err (Missing NfdTables)
      | false ↦ Ok (record {
        scalars16 = held.canonical.scalars16;
        scalars24 = held.canonical.scalars24;
        steps = held.canonical.steps;
      })
    ] };

    ghost nfkd = { λ _. Err (Missing Nfkd) };

    ghost nfkd_tables = { λ _. Err (Missing NfkdTables) };

    ghost pairs = { λ held. elim held.lacking.pairs [ true ↦ Err (Missing Pairs) | false ↦ Ok held.canonical.pairs ] };

    ghost uts46 = { λ _. Err (Missing Uts46) };

    fn load_nfd(&self, alloc: Global) -> Result<CodePointTrie<'_, u32>, DataError> {
        if self.lacking.nfd {
            return Err(DataError::Missing(TableName::Nfd));
        }
        let trie = self.canonical.trie.clone(alloc)?;
        Ok(trie)
    }

    fn load_nfd_tables(&self, alloc: Global) -> Result<NfdLists<'_>, DataError> {
        if self.lacking.nfd_tables {
            return Err(DataError::Missing(TableName::NfdTables));
        }
        let scalars16 = self.canonical.scalars16.clone(alloc)?;
        let scalars24 = self.canonical.scalars24.clone(alloc)?;
        let steps = self.canonical.steps.clone(alloc)?;
        Ok(NfdLists {
            scalars16,
            scalars24,
            steps,
        })
    }

    fn load_nfkd(&self, _alloc: Global) -> Result<CodePointTrie<'_, u32>, DataError> {
        Err(DataError::Missing(TableName::Nfkd))
    }

    fn load_nfkd_tables(&self, _alloc: Global) -> Result<NfkdLists<'_>, DataError> {
        Err(DataError::Missing(TableName::NfkdTables))
    }

    fn load_pairs(&self, alloc: Global) -> Result<PackedVec<'_, u64>, DataError> {
        if self.lacking.pairs {
            return Err(DataError::Missing(TableName::Pairs));
        }
        let pairs = self.canonical.pairs.clone(alloc)?;
        Ok(pairs)
    }

    fn load_uts46(&self, _alloc: Global) -> Result<Uts46Tables<'_>, DataError> {
        Err(DataError::Missing(TableName::Uts46))
    }
}

impl CollatorProvider for HeldCollation<'_> {
    ghost root = { λ held. elim held.lacking.root [ true ↦ Err (Missing Root) | false ↦ Ok held.tables.root ] };

    ghost jamo = { λ held. elim held.lacking.jamo [ true ↦ Err (Missing Jamo) | false ↦ Ok held.tables.jamo ] };

    ghost special_primaries = { λ held. elim held.lacking.special_primaries [ true ↦ Err (Missing SpecialPrimaries) | false ↦ Ok held.tables.special_primaries ] };

    ghost tailoring = { λ held _ _. elim held.tables.tailoring [ None ↦ Err (Missing Tailoring) | Some tailoring ↦ Ok tailoring ] };

    ghost diacritics = { λ held _ _. elim held.lacking.diacritics [ true ↦ Err (Missing Diacritics) | false ↦ Ok held.tables.diacritics ] };

    ghost metadata = { λ held _ _. elim held.lacking.metadata [ true ↦ Err (Missing Metadata) | false ↦ Ok held.tables.metadata ] };

    ghost reordering = { λ held _ _. elim held.tables.reordering [ None ↦ Err (Missing Reordering) | Some order ↦ Ok order ] };

    fn load_root(&self, alloc: Global) -> Result<CollationData<'_>, DataError> {
        if self.lacking.root {
            return Err(DataError::Missing(TableName::Root));
        }
        let root = self.tables.root.clone(alloc)?;
        Ok(root)
    }

    fn load_jamo(&self, alloc: Global) -> Result<CollationJamo<'_>, DataError> {
        if self.lacking.jamo {
            return Err(DataError::Missing(TableName::Jamo));
        }
        let jamo = self.tables.jamo.clone(alloc)?;
        Ok(jamo)
    }

    fn load_special_primaries(
        &self,
        alloc: Global,
    ) -> Result<CollationSpecialPrimaries<'_>, DataError> {
        if self.lacking.special_primaries {
            return Err(DataError::Missing(TableName::SpecialPrimaries));
        }
        let special_primaries = self.tables.special_primaries.clone(alloc)?;
        Ok(special_primaries)
    }

    fn load_tailoring(
        &self,
        alloc: Global,
        _locale: &str,
        _collation_type: Option<&str>,
    ) -> Result<CollationData<'_>, DataError> {
        match &self.tables.tailoring {
            None => Err(DataError::Missing(TableName::Tailoring)),
            Some(tailoring) => {
                let tailoring = tailoring.clone(alloc)?;
                Ok(tailoring)
            }
        }
    }

    fn load_diacritics(
        &self,
        alloc: Global,
        _locale: &str,
        _collation_type: Option<&str>,
    ) -> Result<CollationDiacritics<'_>, DataError> {
        if self.lacking.diacritics {
            return Err(DataError::Missing(TableName::Diacritics));
        }
        let diacritics = self.tables.diacritics.clone(alloc)?;
        Ok(diacritics)
    }

    fn load_metadata(
        &self,
        _alloc: Global,
        _locale: &str,
        _collation_type: Option<&str>,
    ) -> Result<CollationMetadata, DataError> {
        if self.lacking.metadata {
            return Err(DataError::Missing(TableName::Metadata));
        }
        Ok(self.tables.metadata)
    }

    fn load_reordering(
        &self,
        alloc: Global,
        _locale: &str,
        _collation_type: Option<&str>,
    ) -> Result<CollationReordering<'_>, DataError> {
        match &self.tables.reordering {
            None => Err(DataError::Missing(TableName::Reordering)),
            Some(reordering) => {
                let reordering = reordering.clone(alloc)?;
                Ok(reordering)
            }
        }
    }
}

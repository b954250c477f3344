//! A provider of the tables of one records file.

ghost use Rattle.std.specs.Prelude.{◌≡◌, Some, None, Ok, Err};
ghost use Rattle.icu_normalizer_core.specs.declared.provider.error.DataError.TheVariants.{Missing};
ghost use Rattle.icu_normalizer_core.specs.declared.provider.error.TableName.TheVariants.{Uts46, Tailoring, Reordering};

use icu_codepointtrie::CodePointTrie;
use icu_collator_core::provider::CollatorProvider;
use icu_collator_core::tables::{
    CollationData, CollationDiacritics, CollationJamo, CollationMetadata, CollationReordering,
    CollationSpecialPrimaries, CollationTables,
};
use icu_normalizer_core::canonical::CanonicalTables;
use icu_normalizer_core::compatibility::NfkdTables;
use icu_normalizer_core::provider::{
    DataError, NfdLists, NfkdLists, NormalizerProvider, TableName, Uts46Tables,
};
use icu_packed_vector::PackedVec;
use std::alloc::Global;
use std::marker::Model;

/// The tables of one records file: canonical and compatibility ones, and those of the collation. It gives them for every
/// locale and type of collation, and has none for the mapper of domain names.
pub struct Provider {
    canonical: CanonicalTables<'static>,
    compatibility: NfkdTables<'static>,
    collation: CollationTables<'static>,
}

// (let go of as one, and not part by part, so that what owns one is proved sooner)
impl Drop for Provider {
    fn drop(self) {
        let Provider {
            canonical: _,
            compatibility: _,
            collation: _,
        } = self;
    }
}

impl Model for Provider {
    ghost use Rattle.collate_compile.specs.Provided.{Provided};

    ghost Value = { Provided };

    ghost view = { λ inside. record { canonical = inside.canonical; compatibility = inside.compatibility; collation = inside.collation } };
}

impl Provider {
    /// A provider of these tables, which it owns from then on. It checks nothing.
    pub fn of_tables(
        canonical: CanonicalTables<'static>,
        compatibility: NfkdTables<'static>,
        collation: CollationTables<'static>,
    ) -> Provider
        ensures canonical { result.canonical ≡ canonical.entry }
        ensures compatibility { result.compatibility ≡ compatibility.entry }
        ensures collation { result.collation ≡ collation.entry }
    {
        Provider {
            canonical,
            compatibility,
            collation,
        }
    }

    /// The canonical tables and those of the collation, by value: a collator that owns its tables takes them from here.
    pub fn into_tables(self) -> (CanonicalTables<'static>, CollationTables<'static>)
        ensures canonical { result.0 ≡ self.canonical }
        ensures collation { result.1 ≡ self.collation }
    {
        let Provider {
            canonical,
            compatibility: _,
            collation,
        } = self;
        (canonical, collation)
    }
}

impl NormalizerProvider for Provider {
    ghost nfd = { λ provider. Ok provider.canonical.trie };

    ghost nfd_tables = { λ provider. Ok (record {
      scalars16 = provider.canonical.scalars16;
      scalars24 = provider.canonical.scalars24;
      steps = provider.canonical.steps;
    }) };

    ghost nfkd = { λ provider. Ok provider.compatibility.trie };

    ghost nfkd_tables = { λ provider. Ok (record {
      scalars16 = provider.compatibility.scalars16;
      scalars24 = provider.compatibility.scalars24;
    }) };

    ghost pairs = { λ provider. Ok provider.canonical.pairs };

    ghost uts46 = { λ _. Err (Missing Uts46) };

    fn load_nfd(&self, alloc: Global) -> Result<CodePointTrie<'_, u32>, DataError> {
        let trie = self.canonical.trie.clone(alloc)?;
        Ok(trie)
    }

    fn load_nfd_tables(&self, alloc: Global) -> Result<NfdLists<'_>, DataError> {
        let scalars16 = self.canonical.scalars16.clone(alloc)?;
        let scalars24 = self.canonical.scalars24.clone(alloc)?;
        let steps = self.canonical.steps.clone(alloc)?;
        Ok(NfdLists {
            scalars16,
            scalars24,
            steps,
        })
    }

    fn load_nfkd(&self, alloc: Global) -> Result<CodePointTrie<'_, u32>, DataError> {
        let trie = self.compatibility.trie.clone(alloc)?;
        Ok(trie)
    }

    fn load_nfkd_tables(&self, alloc: Global) -> Result<NfkdLists<'_>, DataError> {
        let scalars16 = self.compatibility.scalars16.clone(alloc)?;
        let scalars24 = self.compatibility.scalars24.clone(alloc)?;
        Ok(NfkdLists {
            scalars16,
            scalars24,
        })
    }

    fn load_pairs(&self, alloc: Global) -> Result<PackedVec<'_, u64>, DataError> {
        let pairs = self.canonical.pairs.clone(alloc)?;
        Ok(pairs)
    }

    fn load_uts46(&self, _alloc: Global) -> Result<Uts46Tables<'_>, DataError> {
        Err(DataError::Missing(TableName::Uts46))
    }
}

impl CollatorProvider for Provider {
    ghost root = { λ provider. Ok provider.collation.root };

    ghost jamo = { λ provider. Ok provider.collation.jamo };

    ghost special_primaries = { λ provider. Ok provider.collation.special_primaries };

    ghost tailoring = { λ provider _ _. elim provider.collation.tailoring [ None ↦ Err (Missing Tailoring) | Some tailoring ↦ Ok tailoring ] };

    ghost diacritics = { λ provider _ _. Ok provider.collation.diacritics };

    ghost metadata = { λ provider _ _. Ok provider.collation.metadata };

    ghost reordering = { λ provider _ _. elim provider.collation.reordering [ None ↦ Err (Missing Reordering) | Some order ↦ Ok order ] };

    fn load_root(&self, alloc: Global) -> Result<CollationData<'_>, DataError> {
        let root = self.collation.root.clone(alloc)?;
        Ok(root)
    }

    fn load_jamo(&self, alloc: Global) -> Result<CollationJamo<'_>, DataError> {
        let jamo = self.collation.jamo.clone(alloc)?;
        Ok(jamo)
    }

    fn load_special_primaries(
        &self,
        alloc: Global,
    ) -> Result<CollationSpecialPrimaries<'_>, DataError> {
        let special_primaries = self.collation.special_primaries.clone(alloc)?;
        Ok(special_primaries)
    }

    fn load_tailoring(
        &self,
        alloc: Global,
        _locale: &str,
        _collation_type: Option<&str>,
    ) -> Result<CollationData<'_>, DataError> {
        match &self.collation.tailoring {
            None => Err(DataError::Missing(TableName::Tailoring)),
            Some(tailoring) => {
                let tailoring = tailoring.clone(alloc)?;
                Ok(tailoring)
            }
        }
    }

    fn load_diacritics(
        &self,
        alloc: Global,
        _locale: &str,
        _collation_type: Option<&str>,
    ) -> Result<CollationDiacritics<'_>, DataError> {
        let diacritics = self.collation.diacritics.clone(alloc)?;
        Ok(diacritics)
    }

    fn load_metadata(
        &self,
        _alloc: Global,
        _locale: &str,
        _collation_type: Option<&str>,
    ) -> Result<CollationMetadata, DataError> {
        Ok(self.collation.metadata)
    }

    fn load_reordering(
        &self,
        alloc: Global,
        _locale: &str,
        _collation_type: Option<&str>,
    ) -> Result<CollationReordering<'_>, DataError> {
        match &self.collation.reordering {
            None => Err(DataError::Missing(TableName::Reordering)),
            Some(reordering) => {
                let reordering = reordering.clone(alloc)?;
                Ok(reordering)
            }
        }
    }
}

//! What the tables of a collation are loaded from.

ghost use Rattle.std.specs.Prelude.{ℕ, List, Option, Result, option_copied};
ghost use Rattle.icu_normalizer_core.specs.declared.provider.error.DataError.{DataError};
ghost use Rattle.icu_normalizer_core.specs.Loading.{MemoryAside};
ghost use Rattle.icu_collator_core.specs.declared.tables.CollationDiacritics.{CollationDiacritics};
ghost use Rattle.icu_collator_core.specs.declared.tables.CollationJamo.{CollationJamo};
ghost use Rattle.icu_collator_core.specs.declared.tables.data.CollationData.{CollationData};
ghost use Rattle.icu_collator_core.specs.declared.tables.metadata.CollationMetadata.{CollationMetadata};
ghost use Rattle.icu_collator_core.specs.declared.tables.reordering.CollationReordering.{CollationReordering};
ghost use Rattle.icu_collator_core.specs.declared.tables.special_primaries.CollationSpecialPrimaries.{CollationSpecialPrimaries};

use crate::tables::{
    CollationData, CollationDiacritics, CollationJamo, CollationMetadata, CollationReordering,
    CollationSpecialPrimaries,
};
use icu_normalizer_core::provider::{DataError, NormalizerProvider};
use std::alloc::Global;

/// A source of the tables of a collation, beside those of canonical data. Each call gives one of them, not yet
/// checked, or says why it can't be had: it is missing, or it is there but damaged. Some tables may differ by
/// locale and type of collation, plain texts that the provider reads as it likes. What a call gives depends
/// on the provider and these alone, except that memory may be refused.
pub trait CollatorProvider: NormalizerProvider {
    /// What `load_root` gives.
    ghost root: { Self → Result CollationData DataError };

    /// What `load_jamo` gives.
    ghost jamo: { Self → Result CollationJamo DataError };

    /// What `load_special_primaries` gives.
    ghost special_primaries: { Self → Result CollationSpecialPrimaries DataError };

    /// What `load_tailoring` gives, by locale and type.
    ghost tailoring: { Self → List ℕ → Option (List ℕ) → Result CollationData DataError };

    /// What `load_diacritics` gives, by locale and type.
    ghost diacritics: { Self → List ℕ → Option (List ℕ) → Result CollationDiacritics DataError };

    /// What `load_metadata` gives, by locale and type.
    ghost metadata: { Self → List ℕ → Option (List ℕ) → Result CollationMetadata DataError };

    /// What `load_reordering` gives, by locale and type.
    ghost reordering: { Self → List ℕ → Option (List ℕ) → Result CollationReordering DataError };

    /// The data of all characters.
    fn load_root(&self, alloc: Global) -> Result<CollationData<'_>, DataError>
        ensures { MemoryAside result (root self.now) };

    /// The words of Hangul jamo.
    fn load_jamo(&self, alloc: Global) -> Result<CollationJamo<'_>, DataError>
        ensures { MemoryAside result (jamo self.now) };

    /// Groups, compressible leads, and the lead of numbers.
    fn load_special_primaries(
        &self,
        alloc: Global,
    ) -> Result<CollationSpecialPrimaries<'_>, DataError>
        ensures { MemoryAside result (special_primaries self.now) };

    /// Data that count before the root's. They are asked for where the metadata say `tailored`.
    fn load_tailoring(
        &self,
        alloc: Global,
        locale: &str,
        collation_type: Option<&str>,
    ) -> Result<CollationData<'_>, DataError>
        ensures { MemoryAside result (tailoring self.now locale.now (option_copied collation_type.entry)) };

    /// The secondaries of marks.
    fn load_diacritics(
        &self,
        alloc: Global,
        locale: &str,
        collation_type: Option<&str>,
    ) -> Result<CollationDiacritics<'_>, DataError>
        ensures { MemoryAside result (diacritics self.now locale.now (option_copied collation_type.entry)) };

    /// The settings.
    fn load_metadata(
        &self,
        alloc: Global,
        locale: &str,
        collation_type: Option<&str>,
    ) -> Result<CollationMetadata, DataError>
        ensures { MemoryAside result (metadata self.now locale.now (option_copied collation_type.entry)) };

    /// What primaries stand in the place of others. It is asked for where the metadata say `reordering`.
    fn load_reordering(
        &self,
        alloc: Global,
        locale: &str,
        collation_type: Option<&str>,
    ) -> Result<CollationReordering<'_>, DataError>
        ensures { MemoryAside result (reordering self.now locale.now (option_copied collation_type.entry)) };
}

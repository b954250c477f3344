//! The tables of a collation, from a provider.

ghost use Rattle.std.specs.Prelude.{◌≡◌, option_copied};
ghost use Rattle.icu_normalizer_core.specs.Loading.{MemoryAside, loaded};
ghost use Rattle.icu_collator.specs.Loading.{joined_tables, loaded_local, loaded_shared, loaded_source, loaded_tables, loaded_where};

use icu_collator_core::provider::CollatorProvider;
use icu_collator_core::tables::{
    CollationData, CollationDiacritics, CollationJamo, CollationMetadata, CollationReordering,
    CollationSpecialPrimaries, CollationTables,
};
use icu_normalizer_core::canonical::CanonicalTables;
use icu_normalizer_core::provider::{DataError, load_canonical};
use std::alloc::Global;

/// The tables that all locales share.
#[derive(Drop)]
struct SharedTables<'a> {
    root: CollationData<'a>,
    jamo: CollationJamo<'a>,
    special_primaries: CollationSpecialPrimaries<'a>,
}

/// The tables of a locale and a type of collation.
#[derive(Drop)]
struct LocalTables<'a> {
    metadata: CollationMetadata,
    diacritics: CollationDiacritics<'a>,
    tailoring: Option<CollationData<'a>>,
    reordering: Option<CollationReordering<'a>>,
}

/// Canonical tables and those of a collation, not yet checked.
#[derive(Drop)]
pub(super) struct SourceTables<'a> {
    pub(super) canonical: CanonicalTables<'a>,
    pub(super) tables: CollationTables<'a>,
}

/// All tables that a collator needs. They are loaded in this order: the canonical ones, the root's, those of jamo, the
/// special primaries, the metadata and the diacritics, then the tailoring and the reordering where the metadata say
/// that they are there. The first load that is refused is the answer.
pub(super) fn load_source<'a, P: CollatorProvider>(
    alloc: Global,
    provider: &'a P,
    locale: &str,
    collation_type: Option<&str>,
) -> Result<SourceTables<'a>, DataError>
    ensures { MemoryAside result
        (loaded_source
        (loaded (P.nfd provider.now) (P.nfd_tables provider.now) (P.pairs provider.now))
        (loaded_tables
        (loaded_shared (P.root provider.now) (P.jamo provider.now) (P.special_primaries provider.now))
        (loaded_local
        (P.metadata provider.now locale.now (option_copied collation_type.entry))
        (P.diacritics provider.now locale.now (option_copied collation_type.entry))
        (P.tailoring provider.now locale.now (option_copied collation_type.entry))
        (P.reordering provider.now locale.now (option_copied collation_type.entry))))) }
{
    let canonical = load_canonical(alloc, provider)?;
    let tables = load_tables(alloc, provider, locale, collation_type)?;
    Ok(SourceTables { canonical, tables })
}

/// The tables of a collation: first those that all locales share.
fn load_tables<'a, P: CollatorProvider>(
    alloc: Global,
    provider: &'a P,
    locale: &str,
    collation_type: Option<&str>,
) -> Result<CollationTables<'a>, DataError>
    ensures { MemoryAside result
        (loaded_tables
        (loaded_shared (P.root provider.now) (P.jamo provider.now) (P.special_primaries provider.now))
        (loaded_local
        (P.metadata provider.now locale.now (option_copied collation_type.entry))
        (P.diacritics provider.now locale.now (option_copied collation_type.entry))
        (P.tailoring provider.now locale.now (option_copied collation_type.entry))
        (P.reordering provider.now locale.now (option_copied collation_type.entry)))) }
{
    let shared = load_shared(alloc, provider)?;
    let local = load_local(alloc, provider, locale, collation_type)?;
    Ok(joined(shared, local))
}

/// The tables that all locales share.
fn load_shared<P: CollatorProvider>(
    alloc: Global,
    provider: &P,
) -> Result<SharedTables<'_>, DataError>
    ensures { MemoryAside result (loaded_shared (P.root provider.now) (P.jamo provider.now) (P.special_primaries provider.now)) }
{
    let root = provider.load_root(alloc)?;
    let jamo = provider.load_jamo(alloc)?;
    let special_primaries = provider.load_special_primaries(alloc)?;
    Ok(SharedTables {
        root,
        jamo,
        special_primaries,
    })
}

/// The tables of a locale and a type of collation.
fn load_local<'a, P: CollatorProvider>(
    alloc: Global,
    provider: &'a P,
    locale: &str,
    collation_type: Option<&str>,
) -> Result<LocalTables<'a>, DataError>
    ensures { MemoryAside result
        (loaded_local
        (P.metadata provider.now locale.now (option_copied collation_type.entry))
        (P.diacritics provider.now locale.now (option_copied collation_type.entry))
        (P.tailoring provider.now locale.now (option_copied collation_type.entry))
        (P.reordering provider.now locale.now (option_copied collation_type.entry))) }
{
    let metadata = provider.load_metadata(alloc, locale, collation_type)?;
    let diacritics = provider.load_diacritics(alloc, locale, collation_type)?;
    let tailored = metadata.tailored();
    let tailoring = load_tailoring(alloc, provider, locale, collation_type, tailored)?;
    let reordered = metadata.reordering();
    let reordering = load_reordering(alloc, provider, locale, collation_type, reordered)?;
    Ok(LocalTables {
        metadata,
        diacritics,
        tailoring,
        reordering,
    })
}

/// The tailoring, where it is asked for.
fn load_tailoring<'a, P: CollatorProvider>(
    alloc: Global,
    provider: &'a P,
    locale: &str,
    collation_type: Option<&str>,
    is_asked: bool,
) -> Result<Option<CollationData<'a>>, DataError>
    ensures { MemoryAside result (loaded_where is_asked (P.tailoring provider.now locale.now (option_copied collation_type.entry))) }
{
    if !is_asked {
        return Ok(None);
    }
    let tailoring = provider.load_tailoring(alloc, locale, collation_type)?;
    Ok(Some(tailoring))
}

/// The reordering, where it is asked for.
fn load_reordering<'a, P: CollatorProvider>(
    alloc: Global,
    provider: &'a P,
    locale: &str,
    collation_type: Option<&str>,
    is_asked: bool,
) -> Result<Option<CollationReordering<'a>>, DataError>
    ensures { MemoryAside result (loaded_where is_asked (P.reordering provider.now locale.now (option_copied collation_type.entry))) }
{
    if !is_asked {
        return Ok(None);
    }
    let reordering = provider.load_reordering(alloc, locale, collation_type)?;
    Ok(Some(reordering))
}

/// The tables of a collation.
fn joined<'a>(shared: SharedTables<'a>, local: LocalTables<'a>) -> CollationTables<'a>
    ensures { result ≡ joined_tables shared.entry local.entry }
{
    CollationTables {
        root: shared.root,
        tailoring: local.tailoring,
        diacritics: local.diacritics,
        jamo: shared.jamo,
        reordering: local.reordering,
        metadata: local.metadata,
        special_primaries: shared.special_primaries,
    }
}

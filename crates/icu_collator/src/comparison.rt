//! A collator: tables that were loaded and checked, with the options that it goes by.

ghost use Rattle.std.specs.Prelude.{◌≡◌, option_copied};
ghost use Rattle.icu_normalizer_core.specs.Loading.{loaded};
ghost use Rattle.icu_collator_types.specs.Options.{resolved_options};
ghost use Rattle.icu_collator_core.specs.TableSettings.{settings_of};
ghost use Rattle.icu_collator.specs.Loading.{loaded_local, loaded_shared, loaded_source, loaded_tables};

mod borrowed;
mod checking;
mod error;
mod loading;

pub use borrowed::CollatorBorrowed;
use checking::checked;
pub use error::CollatorError;
use icu_collator_core::checked::CheckedTables;
use icu_collator_core::provider::CollatorProvider;
use icu_collator_types::options::{CollatorOptions, CollatorPreferences, ResolvedCollatorOptions};
use loading::load_source;
use std::alloc::Global;
use std::marker::Model;

/// A collator that holds its data: checked tables, and the options that it goes by.
#[derive(Debug)]
pub struct Collator<'a> {
    tables: CheckedTables<'a>,
    options: ResolvedCollatorOptions,
}

// (let go of as one, and not part by part, so that what owns one is proved sooner)
impl Drop for Collator<'_> {
    fn drop(self) {
        let Collator {
            tables: _,
            options: _,
        } = self;
    }
}

impl<'a> Model for Collator<'a> {
    ghost use Rattle.icu_collator.specs.Collators.{CollatorParts};

    ghost Value = { CollatorParts };

    ghost view = { λ inside. record { source = inside.tables; options = inside.options } };
}

impl<'a> Collator<'a> {
    ghost use Rattle.icu_collator.specs.Collators.{MadeMemoryAside, borrowed_options, borrowed_source};

    /// A collator over a provider's tables, for a locale's preferences, with a caller's options. The answer is the
    /// first refusal, if there is one: of `load_nfd`, `load_nfd_tables`, `load_pairs`, `load_root`, `load_jamo`,
    /// `load_special_primaries`, `load_metadata` and `load_diacritics`, of `load_tailoring` and `load_reordering` where
    /// the metadata say that there is such a table, then of `CanonicalData::try_new`, then of `CheckedTables::try_new`.
    /// Options are resolved by `ResolvedCollatorOptions::resolve`, with the metadata's settings.
    pub fn try_new_unstable<P: CollatorProvider>(
        alloc: Global,
        provider: &'a P,
        prefs: CollatorPreferences<'_>,
        options: CollatorOptions,
    ) -> Result<Collator<'a>, CollatorError>
        ensures { MadeMemoryAside options prefs.entry
            (loaded_source
            (loaded (P.nfd provider.now) (P.nfd_tables provider.now) (P.pairs provider.now))
            (loaded_tables
            (loaded_shared (P.root provider.now) (P.jamo provider.now) (P.special_primaries provider.now))
            (loaded_local
            (P.metadata provider.now prefs.entry.locale.now (option_copied prefs.entry.collation_type))
            (P.diacritics provider.now prefs.entry.locale.now (option_copied prefs.entry.collation_type))
            (P.tailoring provider.now prefs.entry.locale.now (option_copied prefs.entry.collation_type))
            (P.reordering provider.now prefs.entry.locale.now (option_copied prefs.entry.collation_type)))))
            result }
    {
        let source = load_source(alloc, provider, prefs.locale, prefs.collation_type)?;
        let tables = checked(alloc, source)?;
        Ok(Collator::from_tables(tables, prefs, options))
    }

    /// A collator over tables that were checked, which it owns from then on, for a locale's preferences, with a caller's
    /// options; these are resolved by `ResolvedCollatorOptions::resolve`, with the settings of the tables' metadata. It
    /// refuses nothing, and takes no memory.
    pub fn from_tables(
        tables: CheckedTables<'a>,
        prefs: CollatorPreferences<'_>,
        options: CollatorOptions,
    ) -> Collator<'a>
        ensures source { result.source ≡ tables.entry }
        ensures resolved { result.options ≡ resolved_options options prefs.entry (settings_of tables.entry.tables.metadata) }
    {
        let settings = tables.tables().metadata.settings();
        let options = ResolvedCollatorOptions::resolve(&options, &prefs, &settings);
        Collator { tables, options }
    }

    /// The same, borrowed: that has the calls.
    pub fn as_borrowed(&self) -> CollatorBorrowed<'_>
        ensures source { borrowed_source result ≡ self.now.source }
        ensures options { borrowed_options result ≡ self.now.options }
    {
        CollatorBorrowed::over(&self.tables, self.options)
    }
}

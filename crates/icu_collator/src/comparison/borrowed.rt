//! A borrowed collator: it has the calls.

ghost use Rattle.std.specs.Prelude.{◌≡◌};
ghost use Rattle.icu_normalizer_core.specs.BorrowedMeaning.{borrowed_meaning, borrowed_tables};

mod comparing;
mod promise;
mod writing;

use icu_collator_core::checked::CheckedTables;
use icu_collator_types::options::ResolvedCollatorOptions;
use icu_normalizer_core::canonical::CanonicalBorrowed;

/// A borrowed collator: the checked tables, and the options that it goes by.
#[derive(Clone, Copy, Debug)]
pub struct CollatorBorrowed<'d> {
    tables: &'d CheckedTables<'d>,
    options: ResolvedCollatorOptions,
}

impl<'d> CollatorBorrowed<'d> {
    ghost use Rattle.icu_collator.specs.CollatorAnswers.{canonical_by};
    ghost use Rattle.icu_collator.specs.Collators.{borrowed_options, borrowed_source};

    /// A collator over checked tables.
    pub(super) fn over(tables: &'d CheckedTables<'d>, options: ResolvedCollatorOptions) -> Self
        ensures source { borrowed_source result ≡ tables.now }
        ensures options { borrowed_options result ≡ options }
    {
        Self { tables, options }
    }

    /// The options that the collator goes by: the caller's, the preferences' and the file's, merged.
    pub fn resolved_options(&self) -> ResolvedCollatorOptions
        ensures { result ≡ borrowed_options self.now }
    {
        self.options
    }

    /// The canonical data that texts are decomposed by. A normaliser over them changes no answer and no key
    /// (`laws::collators`). It takes no memory.
    pub fn canonical(&self) -> CanonicalBorrowed<'d>
        ensures tables { borrowed_tables result ≡ (borrowed_source self.now).canonical }
        ensures meaning { borrowed_meaning result ≡ canonical_by self.now }
    {
        self.tables.canonical()
    }
}

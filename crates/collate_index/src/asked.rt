//! What a caller asks of the order of an index.

ghost use Rattle.std.specs.Prelude.{◌≡◌};
ghost use Rattle.collate_index.specs.Catalogue.{asked_of};

use icu_collator_types::options::{
    CollationCaseFirst, CollationNumericOrdering, CollatorOptions, CollatorPreferences,
};

/// What a caller asks of the order of names, whatever the records say. Of the preferences those that decide it: the tables
/// are those of the records, so locale and type choose none.
#[derive(Clone, Copy, Debug)]
pub struct Asked {
    /// The options.
    pub options: CollatorOptions,
    /// Which case comes first.
    pub case_first: Option<CollationCaseFirst>,
    /// Whether numbers are compared by value.
    pub numeric_ordering: Option<CollationNumericOrdering>,
}

impl Asked {
    /// What options and preferences ask.
    pub fn new(options: CollatorOptions, preferences: &CollatorPreferences<'_>) -> Asked
        ensures { result ≡ asked_of options preferences.now }
    {
        Asked {
            options,
            case_first: preferences.case_first,
            numeric_ordering: preferences.numeric_ordering,
        }
    }

    /// What is asked of the preferences, with the default locale.
    pub fn preferences(&self) -> CollatorPreferences<'static>
        ensures case_first { result.case_first ≡ self.now.case_first }
        ensures numeric_ordering { result.numeric_ordering ≡ self.now.numeric_ordering }
    {
        CollatorPreferences {
            locale: "",
            collation_type: None,
            case_first: self.case_first,
            numeric_ordering: self.numeric_ordering,
        }
    }
}

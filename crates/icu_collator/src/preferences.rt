//! What a locale's preferences may say of collation, beside its name and the type of collation.

pub use icu_collator_types::options::{CollationCaseFirst, CollationNumericOrdering};

//! Where the tables of a collator come from, the tables themselves, and their check.

pub use icu_collator_core::check::TableFault;
pub use icu_collator_core::checked::CheckedTables;
pub use icu_collator_core::provider::CollatorProvider;
pub use icu_collator_core::tables::{
    CollationData, CollationDiacritics, CollationJamo, CollationMetadata, CollationReordering,
    CollationSpecialPrimaries, CollationTables,
};

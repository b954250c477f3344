//! What a caller may choose, and what a collator then goes by.

pub use icu_collator_types::options::{
    AlternateHandling, CaseLevel, CollatorOptions, CollatorOptionsBitField, FileSettings,
    MaxVariable, ResolvedCollatorOptions, Strength,
};

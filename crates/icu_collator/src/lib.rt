//! Collation: the order of texts, and their sort keys, under the names of ICU4X's `icu_collator`. A `Collator` is made of
//! a provider's tables, or of tables that were checked; borrowed, it compares texts and writes keys to a
//! `CollationKeySink`. The laws are functions whose contracts state them; begin with `laws::order_is_total`.
#![tactic(auto)]

mod common_front;
mod compare;
mod comparison;
pub mod elements;
mod encodings;
mod key_bytes;
pub mod laws;
mod levels;
pub mod options;
pub mod preferences;
pub mod provider;
mod read_texts;
mod sinks;

pub use comparison::{Collator, CollatorBorrowed, CollatorError};
pub use icu_collator_types::options::CollatorPreferences;
pub use sinks::{CollationKeySink, KeyError, TooSmall};

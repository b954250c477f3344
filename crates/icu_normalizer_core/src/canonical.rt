//! Canonical data in packed tables: classes, mappings, full lists and composed pairs of all characters.

mod borrowed;
pub(crate) mod canonical_words;
mod character_data;
pub(crate) mod check;
mod data;
pub(crate) mod full_list;
pub(crate) mod packing;
mod pairs;
mod search;
pub(crate) mod steady;
pub(crate) mod steps;
pub(crate) mod tables;

pub use borrowed::CanonicalBorrowed;
pub use character_data::Reading;
pub use data::{CanonicalData, CanonicalDataError};
pub use full_list::FullList;
pub use tables::{CanonicalFault, CanonicalTables};

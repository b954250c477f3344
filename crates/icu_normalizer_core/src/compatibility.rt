//! Compatibility data in packed tables: full lists by canonical and compatibility mappings together, over canonical data.

mod borrowed;
pub(crate) mod check;
mod data;
mod tables;

pub use borrowed::CompatibilityBorrowed;
pub use data::CompatibilityData;
pub use tables::NfkdTables;

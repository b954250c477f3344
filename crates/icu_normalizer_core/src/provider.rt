//! What canonical and compatibility data are loaded from.

mod error;
mod load;
mod normalizer_provider;
mod provider_lists;

pub use error::{DataError, TableName};
pub use load::{load_canonical, load_canonical_data, load_compatibility_data};
pub use normalizer_provider::NormalizerProvider;
pub use provider_lists::{NfdLists, NfkdLists, Uts46Tables};

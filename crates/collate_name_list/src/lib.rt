//! The names of an index with their keys: in order of arrival, found by binary search over their keys, and by the hashes of
//! their bytes. Begin with `name_list::NameList`.
#![tactic(auto)]

pub mod arrived;
pub mod errors;
pub mod index_key;
mod keys;
pub mod name_list;
mod room;
mod slots;

pub use collate_lists::hashing::FIXED_SEED;

//! The index of `collate`: names in collation order under records and options, found by binary search over stored sort
//! keys. Begin with `index::Index::new`; `add` and `remove` change the names, `reload` the records,
//! and `find`, `between` and `list` give the names.
#![tactic(auto)]

mod asked;
mod changes;
pub mod collators;
pub mod index;
pub mod laws;
pub mod names;
pub mod reload;

pub use collate_name_list::FIXED_SEED;
pub use collate_name_list::index_key::IndexKey;

//! Words of collation tables, written of what is recorded of the texts that begin with one character.
#![tactic(auto)]

mod contexts;
pub mod entry;
pub mod own_words;
pub mod pools;
mod units;
pub mod write_entry;

//! Maps from code points to values in compact tables that are read by a few loads and shifts.
//! `CodePointTrieBuilder::new` begins a map, `build` makes the trie, and `get32` reads it. Users list
//! `icu_collections`.
#![tactic(auto)]

mod builder;
mod cell_runs;
mod iterators;
pub mod laws;
pub mod planes;
mod ranges;
mod shared_blocks;
mod toml_text;
mod trie;
mod typed;
mod value;

pub use builder::{CodePointTrieBuildError, CodePointTrieBuilder, CodePointTrieBuilderError};
pub use iterators::{CodePointMapRangeIterator, CodePointMappedRanges, CodePointRangesForValue};
pub use ranges::CodePointMapRange;
pub use toml_text::CodePointTrieTomlError;
pub use trie::{CodePointTrie, CodePointTrieError, CodePointTrieHeader, TrieType};
pub use typed::{FastCodePointTrie, SmallCodePointTrie, TypedCodePointTrie};
pub use value::TrieValue;

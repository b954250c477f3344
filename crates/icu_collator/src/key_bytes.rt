//! The bytes of sort keys, level by level.

mod buffer;
mod cases;
mod identical_level;
mod levels;
mod primaries;
mod quaternaries;
mod run_level;
mod runs;
mod text_keys;
mod weights;
pub(crate) mod whole;

pub(crate) use text_keys::write_text_key;

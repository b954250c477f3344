//! The comparison of two texts.

mod aheads;
mod common;
mod encoded;
mod flat;
mod flat_texts;
mod fronts;
mod levels;
mod listed;
mod orders;
mod stretched;
mod weights;

pub(crate) use encoded::{common_start, compare_texts};

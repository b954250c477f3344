//! The levels of a text's elements: the elements that count, and the list of what they give at each level.

pub(crate) mod counted_elements;
pub(crate) mod level_lists;
mod segments;
pub(crate) mod turns;
pub(crate) mod weights;

//! Lines in the order of a records file: a list of lines is put in order, stable and in place, of equal lines the first kept,
//! and looked through for what leaves the order. Begin with `order::LineOrder` and `list::LineList`.
#![tactic(auto)]

pub mod laws;
pub mod list;
pub mod order;

pub use collate_keyed_lines::direction::Direction;

//! Lines with their keys: put in order, of equal ones the first kept, and looked through for what leaves the order. What a
//! key is its maker knows: nothing here but the bytes of a key compares. Begin with `lines::KeyedLines`.
#![tactic(auto)]

pub mod direction;
pub mod lines;
mod ordering;
mod slots;

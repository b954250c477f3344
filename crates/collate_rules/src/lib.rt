//! What the lines of a records file mean together, and the rules that they keep: the definitions (specs/Meaning.antt,
//! specs/Rules.antt), the limits, and what the crates of rules share. Lines count from 0 here.
#![tactic(auto)]

pub mod breaks;
pub mod canonical_part;
pub mod canonical_parts;
mod counts;
pub mod full_list;
pub mod indices;
pub mod laws;
pub mod limit;
mod mapped;
mod names;
pub mod noted;
pub mod parts;
pub mod recorded;
pub mod step;
mod steps;
mod texts;

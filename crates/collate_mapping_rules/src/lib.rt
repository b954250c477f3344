//! The rules of a records file on classes and mappings, C1 to C9: for each, the first of its lines that offends against it.
//! Lines count from 0 here.
#![tactic(auto)]

pub mod below_marks;
mod fronts;
pub mod full_lists;
pub mod lines;
pub mod loops;
pub mod marks;
pub mod pairs;
mod part_steps;

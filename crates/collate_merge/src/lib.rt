//! Readers of lines that are in order, merged, by what columns hold of lines: whole fields, as `sort` counts them. Begin with
//! `merge::merge_lines` and `column::Column`.
#![tactic(auto)]

pub mod column;
mod compare;
mod errors;
pub mod laws;
pub mod lines;
pub mod merge;
mod output;
pub mod part;
mod sources;
mod writing;

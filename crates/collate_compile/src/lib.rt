//! Collation tables, compiled of the lines of a records file, and a provider of the tables of one file.
#![tactic(auto)]

mod beginnings;
pub mod by_lines;
mod entries;
mod flags;
mod gather;
mod jamo;
pub mod laws;
mod layer_builder;
mod layers;
mod noted_lines;
pub mod provider;
mod reordering;
pub mod set_lines;
mod settings;
mod special_primaries;
pub mod tables;

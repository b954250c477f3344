//! The rules of a records file on weights, V1 to V6: for each, the first of its lines that offends against it. Lines count
//! from 0 here.
#![tactic(auto)]

pub mod apart;
mod given;
pub mod laws;
mod leads;
pub mod primaries;
pub mod ranges;
pub mod weights;

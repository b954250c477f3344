//! The rules of a records file on texts, prefixes, digits, jamo and settings, V7 to V13, V15 and `set`: for each, the first
//! of its lines that offends against it. Lines count from 0 here.
#![tactic(auto)]

pub mod decomposed;
pub mod digits;
mod further;
pub mod laws;
pub mod named;
pub mod prefixes;
pub mod recorded_texts;
pub mod settings;

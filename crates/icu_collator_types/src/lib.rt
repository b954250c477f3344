//! Options of a collator and the collation elements that it compares, after the types of
//! ICU4X's `icu_collator`. The crates above read texts into elements and compare them; here are
//! only the types that they share. Begin with `options::ResolvedCollatorOptions::resolve`;
//! `options::CollatorOptionsBitField` merges options one by one.
#![tactic(auto)]

pub mod elements;
pub mod options;

//! Collation tables, their check, and the collation elements that a text has by them (UTS 10). The definitions stand in
//! `specs`; of the code, begin with `checked::CheckedTables::try_new`, and with `elements::CollationElements`.
#![tactic(auto)]

pub mod check;
mod check_weights;
pub mod checked;
mod compressible_leads;
pub mod elements;
pub mod flat;
pub mod laws;
mod notes;
pub mod provider;
mod reading;
mod sound;
mod table_words;
pub mod tables;
mod unsafe_characters;
pub mod weight_rules;

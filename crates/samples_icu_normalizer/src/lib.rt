//! Canonical tables for tests and for programs that measure: `tables` has those of the worked rows, and `held` a provider
//! of such, with compatibility tables and a mapper's where it is given them. `canonical` has the normal forms by what such
//! tables mean, looked up item by item, and `encoded_texts` texts to compare them on, in each encoding. They stand in a
//! crate of their own so that they are proved once.
#![tactic(auto)]

pub mod canonical;
pub mod encoded_texts;
pub mod held;
pub mod tables;

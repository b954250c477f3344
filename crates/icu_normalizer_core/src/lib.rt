//! Characters and their canonical data: decoding, what is built in, decomposition. Begin with
//! `decoding::decode_utf8`, the characters of bytes.
#![tactic(auto)]

pub mod builder;
pub mod built_in;
pub mod canonical;
pub mod compatibility;
pub mod decoding;
mod decomposed;
pub mod decomposition;
pub mod laws;
pub mod properties;
pub mod provider;
pub mod step_order;

//! Normal forms of texts (UAX 15) over canonical data. Begin with `decomposing::Decomposition`, the characters of a
//! text in NFD, and `composing::Composition`, those in NFC.
#![tactic(auto)]

pub mod composing;
pub mod decomposing;
mod form_notes;
pub mod laws;
mod owned_data;
pub mod sinks;
mod text_sources;
pub mod uts46;
mod written;

//! Packed vectors, and sets of code points and strings over them, under the names of ICU4X's
//! `icu_collections`. Packed vectors are a crate of their own, `icu_packed_vector`, passed on here.
//! Begin with `codepointinvlist`: `CodePointInversionListBuilder::new` makes a set, and `contains`
//! asks it.
#![tactic(auto)]

pub mod codepointinvlist;
pub mod codepointinvliststringlist;
pub mod json;

pub use icu_packed_vector as packed_vector;

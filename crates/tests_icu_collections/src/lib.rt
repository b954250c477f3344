//! Tests of `icu_collections`, of the sets below it and of packed vectors, by their public calls. They stand in a crate of
//! their own, so that the libraries are proved once.
#![tactic(auto)]

#[cfg(test)]
pub mod built_ranges;
#[cfg(test)]
mod char16trie;
#[cfg(test)]
mod codepointinvlist;
#[cfg(test)]
mod codepointinvliststringlist;
#[cfg(test)]
mod codepointtrie;
#[cfg(test)]
mod json;
#[cfg(test)]
mod packed_vector;
#[cfg(test)]
mod reader;
#[cfg(test)]
mod set_builder;
#[cfg(test)]
mod toml_text;
#[cfg(test)]
mod writer;

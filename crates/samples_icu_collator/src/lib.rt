//! Tables of collations for tests and for programs that measure: `compiled` makes those of the lines of a records file,
//! and `held` is a provider of them, which may lack some; `changes` and `changed_words` change one thing of `samples`.
//! `read` reads elements by the calls. By the rules alone, slowly: `plain` reads elements, `levels` and `keys` are those
//! of a text under options, and `unsafe_characters` those at which no reading begins.
#![tactic(auto)]

pub mod changed_words;
pub mod changes;
pub mod compiled;
mod elements;
pub mod held;
pub mod keys;
pub mod levels;
pub mod plain;
pub mod read;
pub mod samples;
pub mod unsafe_characters;

//! The reading of a text's elements: the word of a character, and what stands with it in the tables.

pub(crate) mod accents;
pub(crate) mod alone;
pub(crate) mod checked_words;
pub(crate) mod decomposing;
pub(crate) mod digits;
pub(crate) mod joining;
pub(crate) mod lists;
pub(crate) mod mark_runs;
pub(crate) mod marks;
pub(crate) mod next;
pub(crate) mod numbers;
pub(crate) mod plain;
pub(crate) mod prefixes;
pub(crate) mod steps;
pub(crate) mod suffixes;

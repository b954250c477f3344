//! What the words of tables say: their fields, the elements that they name, and which word counts for a character.

pub(crate) mod contexts;
pub(crate) mod counting_words;
pub(crate) mod defaults;
pub(crate) mod fields;
pub(crate) mod lone_words;
pub(crate) mod offsets;
pub(crate) mod word_elements;

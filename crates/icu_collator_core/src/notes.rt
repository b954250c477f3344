//! Notes of characters and of pairs of them, by which texts are read: made once for all, by the tables alone.

pub(crate) mod boundaries;
pub(crate) mod flat_elements;
pub(crate) mod flat_note;
pub(crate) mod flat_notes;
pub(crate) mod found_pairs;
pub(crate) mod pages;
pub(crate) mod pairs;

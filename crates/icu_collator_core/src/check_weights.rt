//! The check of weights: for each fault of tables by their weights a function that decides it
//! (`specs/WeightFaults.antt`).

mod diacritics;
mod jamo;
mod noted;
mod own;
mod reordering;
mod rules;
mod special_primaries;
mod spelled;
mod unpacked_elements;
mod word_weights;

pub(crate) use diacritics::are_sound_diacritics;
pub(crate) use jamo::jamo_fault;
pub(crate) use own::own_primary;
pub(crate) use reordering::has_sound_reordering;
pub(crate) use special_primaries::are_sound_special_primaries;
pub(crate) use word_weights::{has_other_elements, is_sound_word};

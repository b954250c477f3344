//! Whether the weights that tables spell keep apart: all words are gathered, then all elements that they spell, and the
//! weights of each level are put in order, so that one that begins another begins the next.

mod character_words;
mod decision;
mod leads;
mod levels;
mod spelled_elements;

pub(crate) use decision::are_weights_apart;

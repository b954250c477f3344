//! What is read of a text, for a comparison or a key.

mod decomposed;
mod elements;
mod texts;

pub(crate) use decomposed::{is_unshifted, numeric_lead, read_text};
pub(crate) use elements::read_elements;
pub(crate) use texts::ReadText;

//! The characters that the words of tables make unsafe: they stand second or later in a recorded
//! text, or have a recorded prefix.

mod context_texts;
mod naming_words;
mod unsafe_list;
mod walk;

pub(crate) use unsafe_list::{holds, unsafe_by_records};

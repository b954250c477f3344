//! The elements of texts, by `CollationElements` or as lists (`whole_texts`), and the elements of characters that no record
//! names.

mod collation_elements;
mod reader;
mod runs;
mod upcoming;
pub mod whole_texts;

pub use crate::table_words::defaults::{primary_element, special_primary, unranged_primary};
pub use collation_elements::CollationElements;

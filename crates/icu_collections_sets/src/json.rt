//! Sets of code points, and of code points and strings, as JSON values.
mod code_point_list;
mod error;
pub mod laws;
mod spelling;
mod string_list;

pub use error::JsonError;

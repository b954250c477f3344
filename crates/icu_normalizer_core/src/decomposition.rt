//! The decomposed characters of an iterator of characters, and what normal forms are made by (UAX 15).

mod characters;
mod classed;
mod form_data;
mod run;

pub use characters::Decomposition;
pub use classed::Classed;
pub use form_data::FormData;
pub use run::{Run, sort_marks};

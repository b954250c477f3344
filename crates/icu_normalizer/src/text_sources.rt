//! Texts that are read from the front: known UTF-8, any bytes, any units.

mod bytes;
mod known;
mod text;
mod units;
mod writing;

pub(crate) use bytes::{known as known_text, valid as valid_text};
pub(crate) use text::Text;
pub(crate) use writing::{HoldIn, WriteTo};

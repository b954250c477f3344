//! Sets of code points as inversion lists, as ICU4X's `icu_collections::codepointinvlist`.
mod builder;
mod char_range;
mod gaps;
mod inversion_list;
pub mod laws;
mod operation;
mod ranges;
mod set_characters;
mod spans;

pub use builder::CodePointInversionListBuilder;
pub use char_range::{CharRange, FromRangeError, RangeError};
pub use gaps::ComplementedRanges;
pub use inversion_list::{CodePointInversionList, InvalidSetError, SetError};
pub use ranges::CodePointRanges;
pub use set_characters::Chars;

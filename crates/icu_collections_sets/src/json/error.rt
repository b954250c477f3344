//! Why a JSON value is not a set.
ghost use Rattle.std.specs.Prelude.{◌≡◌};

use crate::codepointinvliststringlist::InvalidStringList;
use std::alloc::AllocError;
use std::error::Error;
use std::fmt;

/// Why a JSON value is not a set of code points, or of code points and strings.
#[derive(Debug, PartialEq, Eq, Drop)]
pub enum JsonError {
    /// The value does not have the shape of a set: an array, or for a set with strings an object
    /// of two members, the second an array of strings.
    JsonShape,
    /// The item at this index is the first at fault: it is not a text that spells a range.
    JsonItem(usize),
    /// The item at this index is the first at fault: its range begins at most one past the end of
    /// the range before.
    JsonOrder(usize),
    /// The strings are not those of a set.
    Strings(InvalidStringList),
    /// Memory was refused.
    Memory,
}

impl From<AllocError> for JsonError {
    ghost use Rattle.std.specs.Prelude.{◌≡◌};
    ghost use Rattle.icu_collections_sets.specs.declared.json.error.JsonError.TheVariants.{Memory};

    ghost from_gives = { λ _ error. error ≡ Memory };

    fn from(_: AllocError) -> JsonError {
        JsonError::Memory
    }
}

impl fmt::Display for JsonError {
    ghost use Rattle.std.specs.Prelude.{Some};
    ghost use Rattle.icu_collections_sets.specs.JsonFaults.{refusal_text};

    ghost output = { λ error. Some (refusal_text error) };

    fn fmt<W: fmt::Write>(&self, f: &mut fmt::Formatter<W>) -> fmt::Result {
        match self {
            JsonError::JsonShape => f.write_str("not the shape of a set"),
            JsonError::JsonItem(index) => write!(f, "no range at item {index}"),
            JsonError::JsonOrder(index) => write!(f, "not sorted at item {index}"),
            JsonError::Strings(fault) => write!(f, "{fault}"),
            JsonError::Memory => f.write_str("out of memory"),
        }
    }
}

impl Error for JsonError {}

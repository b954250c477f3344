//! Why units are not read.
use std::alloc::AllocError;
use std::error::Error;
use std::fmt;

/// Why units are not read.
#[derive(Clone, Copy, Debug, PartialEq, Eq, Drop)]
pub enum ReadUnitsError {
    /// The units break the grammar of unit tries, or a key in them is too long. Reading stops at the
    /// index, counted in units from the first.
    BadUnits(usize),
    /// Out of memory.
    Memory,
}

impl fmt::Display for ReadUnitsError {
    ghost use Rattle.std.specs.Prelude.{Some};
    ghost use Rattle.icu_char16trie.specs.UnitReadingOrder.{error_text};

    ghost output = { λ error. Some (error_text error) };

    fn fmt<W: fmt::Write>(&self, f: &mut fmt::Formatter<W>) -> fmt::Result {
        match *self {
            ReadUnitsError::BadUnits(index) => write!(f, "bad units at {index}"),
            ReadUnitsError::Memory => f.write_str("out of memory"),
        }
    }
}

impl Error for ReadUnitsError {}

impl From<AllocError> for ReadUnitsError {
    ghost use Rattle.std.specs.Prelude.{◌≡◌};
    ghost use Rattle.icu_char16trie.specs.declared.reader.error.ReadUnitsError.TheVariants.{Memory};

    ghost from_gives = { λ _ error. error ≡ Memory };

    fn from(_error: AllocError) -> ReadUnitsError {
        ReadUnitsError::Memory
    }
}

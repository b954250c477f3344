//! Why a collator can't be made.

use icu_collator_core::check::TableFault;
use icu_normalizer_core::provider::DataError;
use std::error::Error;
use std::fmt;

/// Why a collator can't be made.
#[derive(Clone, Copy, Debug, PartialEq, Eq)]
pub enum CollatorError {
    /// A table can't be had, or the canonical tables are refused.
    Data(DataError),
    /// The tables of the collation are refused for this fault.
    Table(TableFault),
    /// Memory was refused, in a load or a check.
    Memory,
}

impl fmt::Display for CollatorError {
    ghost use Rattle.std.specs.Prelude.{Some};
    ghost use Rattle.icu_collator.specs.CollatorErrors.{collator_error_text};

    ghost output = { λ error. Some (collator_error_text error) };

    fn fmt<W: fmt::Write>(&self, f: &mut fmt::Formatter<W>) -> fmt::Result {
        match self {
            CollatorError::Data(error) => write!(f, "{error}"),
            CollatorError::Table(fault) => write!(f, "{fault}"),
            CollatorError::Memory => f.write_str("out of memory"),
        }
    }
}

impl Error for CollatorError {}

impl From<DataError> for CollatorError {
    ghost use Rattle.std.specs.Prelude.{◌≡◌};
    ghost use Rattle.icu_collator.specs.CollatorErrors.{of_data};

    ghost from_gives = { λ refused error. error ≡ of_data refused };

    fn from(refused: DataError) -> CollatorError {
        match refused {
            DataError::Memory => CollatorError::Memory,
            other => CollatorError::Data(other),
        }
    }
}

impl From<TableFault> for CollatorError {
    ghost use Rattle.std.specs.Prelude.{◌≡◌};
    ghost use Rattle.icu_collator.specs.CollatorErrors.{of_fault};

    ghost from_gives = { λ fault error. error ≡ of_fault fault };

    fn from(fault: TableFault) -> CollatorError {
        match fault {
            TableFault::Memory => CollatorError::Memory,
            other => CollatorError::Table(other),
        }
    }
}

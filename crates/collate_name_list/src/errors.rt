//! Why a name isn't added.

ghost use Rattle.std.specs.Prelude.{◌≡◌, Some};
ghost use Rattle.collate_name_list.specs.AddErrors.{add_error_text};
ghost use Rattle.collate_name_list.specs.declared.errors.AddError.TheVariants.{Memory};

use std::alloc::AllocError;
use std::fmt;

/// Why a name isn't added.
#[derive(Clone, Copy, Debug, PartialEq, Eq)]
pub enum AddError {
    /// The same bytes are there already.
    Duplicate,
    /// Memory was refused.
    Memory,
}

impl fmt::Display for AddError {
    ghost output = { λ e. Some (add_error_text e) };

    fn fmt<W: fmt::Write>(&self, f: &mut fmt::Formatter<W>) -> fmt::Result {
        match self {
            AddError::Duplicate => write!(f, "the name is already in the index"),
            AddError::Memory => write!(f, "out of memory"),
        }
    }
}

impl std::error::Error for AddError {}

impl From<AllocError> for AddError {
    ghost from_gives = { λ _ e. e ≡ Memory };

    fn from(_error: AllocError) -> AddError {
        AddError::Memory
    }
}

//! What is given to a builder of canonical tables, and why it builds none.

use std::alloc::AllocError;
use thiserror::Error;

/// Why no canonical tables are built.
#[derive(Clone, Copy, Debug, PartialEq, Eq, Error)]
pub enum CanonicalDataBuildError {
    /// The maps break a rule of canonical data (docs/RECORDS.md, C1 to C9), of which C1 asks that no character has two
    /// mappings that differ, name more different characters than the builder takes, or lack room in tables.
    #[error("a rule of canonical data is broken")]
    Rules,
    /// Memory was refused.
    #[error("out of memory")]
    Memory,
}

impl From<AllocError> for CanonicalDataBuildError {
    ghost use Rattle.std.specs.Prelude.{◌≡◌};
    ghost use Rattle.icu_normalizer_core.specs.declared.builder.given.CanonicalDataBuildError.TheVariants.{Memory};

    ghost from_gives = { λ _ error. error ≡ Memory };

    fn from(_: AllocError) -> CanonicalDataBuildError {
        CanonicalDataBuildError::Memory
    }
}

/// A class that is given for a character.
#[derive(Clone, Copy, Debug)]
pub struct GivenClass {
    pub(super) character: char,
    pub(super) class: u8,
}

/// A mapping that is given for a character, and whether the character is composed of the two.
#[derive(Clone, Copy, Debug, PartialEq, Eq)]
pub struct GivenMapping {
    pub(super) character: char,
    pub(super) first: char,
    pub(super) second: Option<char>,
    pub(super) is_composed: bool,
}

/// A compatibility mapping that is given for a character, to one character or more.
#[derive(Debug, Drop)]
pub struct GivenCompatibility {
    pub(super) character: char,
    pub(super) mapping: Vec<char>,
}

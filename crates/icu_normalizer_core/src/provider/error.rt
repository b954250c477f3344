//! The names of tables, and why data can't be had.

use crate::canonical::{CanonicalDataError, CanonicalFault};
use std::alloc::AllocError;
use std::error::Error;
use std::fmt;

/// The name of what one call of a provider loads, of canonical data or, in the crates above, of a collation.
#[derive(Clone, Copy, Debug, PartialEq, Eq)]
pub enum TableName {
    /// What `load_nfd` gives: the canonical words.
    Nfd,
    /// What `load_nfd_tables` gives: the characters of canonical full lists, and the mappings.
    NfdTables,
    /// What `load_nfkd` gives: the compatibility words.
    Nfkd,
    /// What `load_nfkd_tables` gives: the characters of compatibility full lists.
    NfkdTables,
    /// What `load_pairs` gives: the composed pairs.
    Pairs,
    /// What `load_uts46` gives: what the mapper of domain names does.
    Uts46,
    /// What `load_root` gives: the collation data of all characters.
    Root,
    /// What `load_jamo` gives: the words of Hangul jamo.
    Jamo,
    /// What `load_special_primaries` gives: groups, compressible leads, and the lead of numbers.
    SpecialPrimaries,
    /// What `load_tailoring` gives: collation data that count before the root's.
    Tailoring,
    /// What `load_diacritics` gives: the secondaries of marks.
    Diacritics,
    /// What `load_metadata` gives: the settings of a collation.
    Metadata,
    /// What `load_reordering` gives: what primaries stand in the place of others.
    Reordering,
}

impl TableName {
    ghost use Rattle.std.specs.Prelude.{◌≡◌};
    ghost use Rattle.icu_normalizer_core.specs.DataErrors.{table_text};

    /// The name as it is printed.
    fn as_str(self) -> &'static str
        ensures { result.now ≡ table_text self }
    {
        match self {
            TableName::Nfd => "nfd",
            TableName::NfdTables => "nfd_tables",
            TableName::Nfkd => "nfkd",
            TableName::NfkdTables => "nfkd_tables",
            TableName::Pairs => "pairs",
            TableName::Uts46 => "uts46",
            TableName::Root => "root",
            TableName::Jamo => "jamo",
            TableName::SpecialPrimaries => "special_primaries",
            TableName::Tailoring => "tailoring",
            TableName::Diacritics => "diacritics",
            TableName::Metadata => "metadata",
            TableName::Reordering => "reordering",
        }
    }
}

impl fmt::Display for TableName {
    ghost use Rattle.std.specs.Prelude.{Some};
    ghost use Rattle.icu_normalizer_core.specs.DataErrors.{table_text};

    ghost output = { λ name. Some (table_text name) };

    fn fmt<W: fmt::Write>(&self, f: &mut fmt::Formatter<W>) -> fmt::Result {
        f.write_str(self.as_str())
    }
}

/// Why data can't be had.
#[derive(Clone, Copy, Debug, PartialEq, Eq)]
pub enum DataError {
    /// The provider doesn't have the table.
    Missing(TableName),
    /// The table is there, but no table of its kind. A provider says so of one that it can't read: its bytes end too
    /// early, say, or hold a value that is none of its type. Of a table that was loaded it is said of the mapper's
    /// alone, by `Uts46Mapper::try_new`: a character has no word there, a word of none of the forms, or one whose list
    /// ends past the characters. Faults of canonical and compatibility tables are `Canonical`.
    Invalid(TableName),
    /// The tables were loaded, and `CanonicalData::try_new` or `CompatibilityData::try_new` refuses them for this
    /// fault.
    Canonical(CanonicalFault),
    /// Memory was refused.
    Memory,
}

impl fmt::Display for DataError {
    ghost use Rattle.std.specs.Prelude.{Some};
    ghost use Rattle.icu_normalizer_core.specs.DataErrors.{data_error_text};

    ghost output = { λ error. Some (data_error_text error) };

    fn fmt<W: fmt::Write>(&self, f: &mut fmt::Formatter<W>) -> fmt::Result {
        match self {
            DataError::Missing(name) => write!(f, "no table {name}"),
            DataError::Invalid(name) => write!(f, "damaged table {name}"),
            DataError::Canonical(fault) => write!(f, "{fault}"),
            DataError::Memory => f.write_str("out of memory"),
        }
    }
}

impl Error for DataError {}

impl From<AllocError> for DataError {
    ghost use Rattle.std.specs.Prelude.{◌≡◌};
    ghost use Rattle.icu_normalizer_core.specs.declared.provider.error.DataError.TheVariants.{Memory};

    ghost from_gives = { λ refused error. error ≡ Memory };

    fn from(_refused: AllocError) -> DataError {
        DataError::Memory
    }
}

impl From<CanonicalDataError> for DataError {
    ghost use Rattle.std.specs.Prelude.{◌≡◌};
    ghost use Rattle.icu_normalizer_core.specs.Loading.{refusal_of};

    ghost from_gives = { λ refused error. error ≡ refusal_of refused };

    fn from(refused: CanonicalDataError) -> DataError {
        match refused {
            CanonicalDataError::Fault(fault) => DataError::Canonical(fault),
            CanonicalDataError::Memory => DataError::Memory,
        }
    }
}

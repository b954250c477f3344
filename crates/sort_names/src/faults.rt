//! Why a run ends with status 2, as one line of standard error tells it.

use crate::shown::Shown;
use collate_lines::rule::Rule;
use std::alloc::{AllocError, AllocFailed};
use std::error::Error;
use std::{fmt, io};

/// Why a run ends with status 2.
#[derive(Debug, Drop)]
pub enum RunFault<'w> {
    /// Memory was refused.
    Memory,
    /// The file of this path can't be opened or read; `-` is standard input.
    Unreadable(&'w str, io::Error),
    /// The file of this path has a line, counted from 1, that breaks a rule of records files.
    Refused(usize, Rule, &'w str),
    /// The file of this path has a line, counted from 1, that leaves out what the root doesn't weigh.
    Without(usize, &'w str),
    /// The CSV file of this path has a record, in this line, counted from 1, of another number of fields than its first.
    Ragged(&'w str, u64),
    /// The CSV file of this path has another first record than those before.
    OtherHeader(&'w str),
    /// The CSV file of this path has no column of this name.
    NoColumn(&'w str, &'w str),
    /// The file of this path can't be merged: this line, counted from 1, is below the one before it.
    Unordered(&'w str, usize),
    /// Parts of lists can't be kept in the folder of this path.
    Unkept(&'w str, io::Error),
    /// The file of this path can't be written; `None` is standard output.
    Unwritable(Option<&'w str>, io::Error),
}

impl fmt::Display for RunFault<'_> {
    fn fmt<W: fmt::Write>(&self, f: &mut fmt::Formatter<W>) -> fmt::Result {
        match self {
            RunFault::Memory => f.write_str("memory"),
            RunFault::Unreadable(path, error) => {
                write!(f, "cannot read {}: {error}", Shown(*path))
            }
            RunFault::Refused(line, rule, path) => {
                write!(f, "refused {line} {rule} {}", Shown(*path))
            }
            RunFault::Without(line, path) => write!(f, "refused {line} without {}", Shown(*path)),
            RunFault::Ragged(path, line) => write!(
                f,
                "{}:{line}: another number of fields than in the first record",
                Shown(*path)
            ),
            RunFault::OtherHeader(path) => {
                write!(f, "{}: another first record than before", Shown(*path))
            }
            RunFault::NoColumn(path, column) => {
                write!(f, "{}: no column {}", Shown(*path), Shown(*column))
            }
            RunFault::Unordered(path, line) => {
                write!(
                    f,
                    "cannot merge {}: line {line} isn't in order",
                    Shown(*path)
                )
            }
            RunFault::Unkept(folder, error) => {
                write!(f, "cannot keep parts in {}: {error}", Shown(*folder))
            }
            RunFault::Unwritable(Some(path), error) => {
                write!(f, "cannot write {}: {error}", Shown(*path))
            }
            RunFault::Unwritable(None, error) => write!(f, "cannot write: {error}"),
        }
    }
}

impl Error for RunFault<'_> {}

impl From<AllocError> for RunFault<'_> {
    fn from(_: AllocError) -> Self {
        RunFault::Memory
    }
}

impl<T: Drop> From<AllocFailed<T>> for RunFault<'_> {
    fn from(_: AllocFailed<T>) -> Self {
        RunFault::Memory
    }
}

//! Why a merge ends before its end.

use std::io;
use thiserror::Error;

/// Why readers weren't merged to their ends.
#[derive(Debug, Drop, Error)]
pub enum MergeError {
    /// A reader failed: which one, counted from 0, and how.
    #[error("reader {reader}: {error}")]
    Read { reader: usize, error: io::Error },
    /// The writer failed, or took no byte.
    #[error("{0}")]
    Write(io::Error),
    /// A reader isn't in order: which one, counted from 0, and its first line, counted from 1, that is below the one
    /// before it.
    #[error("reader {reader}: line {line} isn't in order")]
    Unordered { reader: usize, line: usize },
    /// Memory was refused.
    #[error("out of memory")]
    Memory,
    /// There are more lines than 2^64 - 1.
    #[error("too many lines")]
    TooManyLines,
}

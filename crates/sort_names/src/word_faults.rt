//! Why the words of the program aren't understood.

use crate::flags::values_of_option;
use crate::shown::Shown;
use std::alloc::{AllocError, AllocFailed};
use std::error::Error;
use std::fmt;

/// Why the words of the program aren't understood.
#[derive(Clone, Copy, Debug, PartialEq, Eq)]
pub enum WordFault<'w> {
    /// Memory was refused.
    Memory,
    /// No such word is known.
    Unknown(&'w str),
    /// The word stands last, and takes a value.
    NoValue(&'w str),
    /// Of this word's kind only one may be given.
    Twice(&'static str),
    /// The option of this name has no such value.
    Value(&'static str, &'w str),
    /// These fields are none.
    Fields(&'w str),
    /// This is no byte between fields.
    Separator(&'w str),
    /// This is no size.
    Size(&'w str),
    /// These words don't go together.
    Together(&'static str, &'static str),
    /// This second file stands beside `-c` or `-C`.
    SecondFile(&'w str),
    /// This operand is a records file, which `--records` gives.
    RecordsAsOperand(&'w str),
    /// This operand gives an option as a word of its own does, and no records are given.
    OptionAsOperand(&'w str),
    /// No records are given.
    NoRecords,
}

impl fmt::Display for WordFault<'_> {
    fn fmt<W: fmt::Write>(&self, f: &mut fmt::Formatter<W>) -> fmt::Result {
        match *self {
            WordFault::Memory => f.write_str("memory"),
            WordFault::Unknown(word) => write!(f, "not understood: {}", Shown(word)),
            WordFault::NoValue(word) => write!(f, "no value is given behind {}", Shown(word)),
            WordFault::Twice(name) => write!(f, "given twice: {name}"),
            WordFault::Value(name, value) => write_value(f, name, value),
            WordFault::Fields(fields) => write!(
                f,
                "not understood: -k {} (fields are F or F,G: numbers from 1, G not below F)",
                Shown(fields)
            ),
            WordFault::Separator(word) => write!(
                f,
                "not understood: -t {} (what stands between fields is one byte)",
                Shown(word)
            ),
            WordFault::Size(word) => write!(
                f,
                "not understood: -S {} (a number of KiB, or of the unit behind it: b, K, M, G, T)",
                Shown(word)
            ),
            WordFault::Together(a, b) => write!(f, "{a} and {b} don't go together"),
            WordFault::SecondFile(word) => {
                write!(f, "one file is checked at a time: {}", Shown(word))
            }
            WordFault::RecordsAsOperand(word) => write_new_form(f, word),
            WordFault::OptionAsOperand(word) => write_new_option(f, word),
            WordFault::NoRecords => f.write_str("no records are given: --records FILE"),
        }
    }
}

impl Error for WordFault<'_> {}

/// Writes that an option has no such value, and which it has.
fn write_value<W: fmt::Write>(f: &mut fmt::Formatter<W>, name: &str, value: &str) -> fmt::Result {
    let values = values_of_option(name);
    write!(
        f,
        "not understood: {name}={} (values of {name}: {values})",
        Shown(value)
    )
}

/// Writes how a records file is given, and how a file of that name is sorted.
fn write_new_form<W: fmt::Write>(f: &mut fmt::Formatter<W>, word: &str) -> fmt::Result {
    write!(
        f,
        "a records file is given by --records {} (./NAME is a list that is so called)",
        Shown(word)
    )
}

/// Writes how an option is given, and how a file of that name is sorted.
fn write_new_option<W: fmt::Write>(f: &mut fmt::Formatter<W>, word: &str) -> fmt::Result {
    write!(
        f,
        "an option is given by --{} (./NAME is a list that is so called)",
        Shown(word)
    )
}

impl From<AllocError> for WordFault<'_> {
    fn from(_: AllocError) -> Self {
        WordFault::Memory
    }
}

impl<T: Drop> From<AllocFailed<T>> for WordFault<'_> {
    fn from(_: AllocFailed<T>) -> Self {
        WordFault::Memory
    }
}

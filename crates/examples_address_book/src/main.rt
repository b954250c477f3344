//! A book of names in a SQLite database, which orders and finds them by their sort keys:
//!
//!     address_book RECORDS BOOK FIRST LAST WANTED < names
//!
//! RECORDS is a records file (docs/RECORDS.md), BOOK the database, made where it isn't there; other programs may open it.
//! The names, a line each, are put into the book with their keys. Then the names of the book are printed in order, those
//! that are neither below FIRST nor above LAST, and those that have the letters of WANTED, whatever accents and case.
#![tactic(auto)]

mod book;
mod keys;

use book::{ask, fill};
use collate_lines::rule::RecordsError;
use collate_records::compile::compile;
use collate_records::records::Records;
use icu_codepointtrie::TrieType;
use icu_collator::options::CollatorOptions;
use icu_collator::provider::CollatorProvider;
use keys::{Keying, collator_over, letters_alone};
use sqlite::{Alter, Connection};
use std::process::ExitCode;
use std::{env, fs, io};
use thiserror::Error;

/// Why the book could not be filled or asked.
#[derive(Debug, Drop, Error)]
pub enum Fault {
    /// The words of the command line are others than these.
    #[error("usage: address_book RECORDS BOOK FIRST LAST WANTED")]
    Usage,
    /// The records file breaks a rule, or memory is refused.
    #[error("refused {0}")]
    Refused(#[from] RecordsError),
    /// The database refuses a statement, or memory is refused.
    #[error("{0}")]
    Book(#[from] sqlite::Error),
    /// A file, the input or the output fails.
    #[error("{0}")]
    Files(#[from] io::Error),
}

/// What is asked of the book: the names from a first one to a last one, and those that have the letters of another.
#[derive(Clone, Copy)]
pub struct Asked<'a> {
    pub first: &'a str,
    pub last: &'a str,
    pub wanted: &'a str,
}

/// The words of the command line, without the program's name.
fn words(rt: &HostRuntime) -> io::Result<Vec<String>> {
    let mut words = Vec::new(rt.alloc());
    for word in env::args(rt)?.skip(1) {
        words.push(word)?;
    }
    Ok(words)
}

/// Puts the lines of a text into a book with their keys, and prints what is asked of it.
fn fill_and_ask<S: Alter>(
    rt: &HostRuntime,
    book: &mut Connection<S>,
    keying: &Keying<'_>,
    names: &str,
    asked: &Asked<'_>,
) -> Result<(), Fault> {
    fill(rt.alloc(), book, keying, names)?;
    ask(rt, book, keying, asked)
}

/// The same over the database of a path, which is made where it isn't there.
fn open_and_ask(
    rt: &HostRuntime,
    path: &str,
    keying: &Keying<'_>,
    asked: &Asked<'_>,
) -> Result<(), Fault> {
    let names = io::read_to_string(rt.alloc(), rt.reader())?;
    let mut book = Connection::open(rt, path)?;
    let asked = fill_and_ask(rt, &mut book, keying, names.as_str(), asked);
    let closed = book.close();
    asked?;
    Ok(closed?)
}

/// The same by keys that a provider's tables give.
fn ask_by_tables<P: CollatorProvider>(
    rt: &HostRuntime,
    provider: &P,
    path: &str,
    asked: &Asked<'_>,
) -> Result<(), Fault> {
    let all = collator_over(rt.alloc(), provider, CollatorOptions::default());
    let letters = collator_over(rt.alloc(), provider, letters_alone());
    let Some((all, letters)) = all.zip(letters) else {
        return Err(Fault::Refused(RecordsError::Memory));
    };
    let keying = Keying {
        all: all.as_borrowed(),
        letters: letters.as_borrowed(),
    };
    open_and_ask(rt, path, &keying, asked)
}

/// The same by the records of a file.
fn ask_by_file(rt: &HostRuntime, file: &str, path: &str, asked: &Asked<'_>) -> Result<(), Fault> {
    let bytes = fs::read(rt, file)?;
    let records = Records::read(rt.alloc(), &bytes)?;
    match compile(rt.alloc(), &records, TrieType::Fast) {
        Ok(provider) => ask_by_tables(rt, &provider, path, asked),
        Err(_) => Err(Fault::Refused(RecordsError::Memory)),
    }
}

/// Does what the words say.
fn run(rt: &HostRuntime) -> Result<(), Fault> {
    let words = words(rt)?;
    match words.as_slice() {
        [file, path, first, last, wanted] => {
            let asked = Asked {
                first: first.as_str(),
                last: last.as_str(),
                wanted: wanted.as_str(),
            };
            ask_by_file(rt, file.as_str(), path.as_str(), &asked)
        }
        _ => Err(Fault::Usage),
    }
}

fn main(rt: HostRuntime) -> ExitCode {
    match run(&rt) {
        Ok(()) => ExitCode::SUCCESS,
        Err(fault) => {
            let _ = eprintln!(rt; "address_book: {fault}");
            ExitCode::from(1)
        }
    }
}

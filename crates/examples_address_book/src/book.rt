//! The book: a table of names with their keys.

ghost use Rattle.sqlite.specs.Held.{state};
ghost use Rattle.sqlite.specs.State.{Executes, HasCleanDisk};
ghost use Rattle.examples_address_book.specs.Book.{columns_of, insertion};

use crate::keys::{Keying, Keys, key_of, keys_of};
use crate::{Asked, Fault};
use sqlite::types::ValueRef;
use sqlite::{Alter, Connection, Error, Rows, params};
use std::alloc::Global;

/// Makes the table and its indexes, where they aren't there.
fn make_table<S: Alter>(book: &mut Connection<S>) -> Result<(), Error> {
    book.execute_batch(
        "CREATE TABLE IF NOT EXISTS person (id INTEGER PRIMARY KEY, name TEXT NOT NULL,
            sort_key BLOB NOT NULL, letters BLOB NOT NULL) STRICT;
        CREATE INDEX IF NOT EXISTS person_by_sort_key ON person (sort_key);
        CREATE INDEX IF NOT EXISTS person_by_letters ON person (letters)",
    )
}

/// Puts a name into the book with its keys.
fn keep<S: Alter>(book: &mut Connection<S>, name: &str, keys: &Keys) -> Result<usize, Error>
    ensures { HasCleanDisk (state S.Store book.new) → Executes insertion (columns_of name.now keys.now)
        (state S.Store book.old) (state S.Store book.new) result }
{
    book.execute(
        "INSERT INTO person (name, sort_key, letters) VALUES (?1, ?2, ?3)",
        params![name, &keys.sort_key, &keys.letters],
    )
}

/// Puts the lines of a text into the book with their keys, all of them or none.
pub fn fill<S: Alter>(
    alloc: Global,
    book: &mut Connection<S>,
    keying: &Keying<'_>,
    names: &str,
) -> Result<(), Error> {
    make_table(book)?;
    book.execute("BEGIN", &[])?;
    for name in names.lines() {
        let keys = keys_of(alloc, keying, name)?;
        keep(book, name, &keys)?;
    }
    book.execute("COMMIT", &[])?;
    Ok(())
}

/// Prints the first column of the rows that a query has left, a line each.
fn print_rows<S: Alter>(rt: &HostRuntime, rows: &mut Rows<'_, S>) -> Result<(), Fault> {
    for _row in 0..u64::MAX {
        let Some(row) = rows.next()? else {
            return Ok(());
        };
        let name: String = row.get(0)?;
        println!(rt; "    {name}")?;
    }
    Ok(())
}

/// Prints the names that a query answers for the values of its parameters, after a heading.
fn print_names<S: Alter>(
    rt: &HostRuntime,
    book: &mut Connection<S>,
    heading: &str,
    query: &str,
    values: &[ValueRef<'_>],
) -> Result<(), Fault> {
    println!(rt; "{heading}")?;
    let mut rows = book.query(query, values)?;
    print_rows(rt, &mut rows)
}

/// Prints the names from the first to the last that are asked for.
fn print_between<S: Alter>(
    rt: &HostRuntime,
    book: &mut Connection<S>,
    keying: &Keying<'_>,
    asked: &Asked<'_>,
) -> Result<(), Fault> {
    let first = key_of(rt.alloc(), &keying.all, asked.first)?;
    let last = key_of(rt.alloc(), &keying.all, asked.last)?;
    print_names(
        rt,
        book,
        "from the first to the last:",
        "SELECT name FROM person WHERE sort_key BETWEEN ?1 AND ?2 ORDER BY sort_key, id",
        params![&first, &last],
    )
}

/// Prints the names that have the letters of the one that is wanted.
fn print_wanted<S: Alter>(
    rt: &HostRuntime,
    book: &mut Connection<S>,
    keying: &Keying<'_>,
    asked: &Asked<'_>,
) -> Result<(), Fault> {
    let letters = key_of(rt.alloc(), &keying.letters, asked.wanted)?;
    print_names(
        rt,
        book,
        "by the letters of the wanted:",
        "SELECT name FROM person WHERE letters = ?1 ORDER BY sort_key, id",
        params![&letters],
    )
}

/// Prints the names of the book in order, and those that are asked for. Equal names stand as they came.
pub fn ask<S: Alter>(
    rt: &HostRuntime,
    book: &mut Connection<S>,
    keying: &Keying<'_>,
    asked: &Asked<'_>,
) -> Result<(), Fault> {
    let query = "SELECT name FROM person ORDER BY sort_key, id";
    print_names(rt, book, "in order:", query, &[])?;
    print_between(rt, book, keying, asked)?;
    print_wanted(rt, book, keying, asked)
}

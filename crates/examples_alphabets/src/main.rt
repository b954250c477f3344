//! Puts names in order, each list by the records of its language: `alphabets < LANGUAGES`, a language a line
//! (docs/ALPHABETS.md).
//!
//! Of a language three files lie in the folder: its records, `LANGUAGE.records`, its names, a line each, `LANGUAGE.names`,
//! and the same names in order by another collator, `LANGUAGE.sorted`. In a line `LANGUAGE over ROOT` its records are a
//! tailoring, which is put over `ROOT.records` (docs/LANGUAGES.md). It is printed whether the order is that one, and then
//! the names in order.
#![tactic(auto)]

mod names;

use names::{in_order, index_of, records_of};
use std::fs;
use std::io::{self, Write};

/// Prints a language, whether its names are in the order of the stored ones, and the names.
fn answer(rt: &HostRuntime, line: &str, ordered: &[u8], sorted: &[u8]) -> io::Result<()> {
    let verdict = if ordered == sorted {
        "in order"
    } else {
        "in another order"
    };
    println!(rt; "{line}: {verdict}")?;
    io::writer(rt).write_all(ordered)?;
    println!(rt; "")
}

/// The root that a language's records are put over, none where a line names no root.
fn read_root(rt: &HostRuntime, root: &str) -> anyhow::Result<Vec<u8>> {
    let alloc = rt.alloc();
    if root.is_empty() {
        return Ok(Vec::new(alloc));
    }
    Ok(fs::read(rt, format!(in alloc; "{root}.records")?)?)
}

/// Orders the names of a line's language by its records.
fn order(rt: &HostRuntime, line: &str) -> anyhow::Result<()> {
    let alloc = rt.alloc();
    let (language, root) = line.split_once(" over ").unwrap_or((line, ""));
    let root = read_root(rt, root)?;
    let records = fs::read(rt, format!(in alloc; "{language}.records")?)?;
    let names = fs::read(rt, format!(in alloc; "{language}.names")?)?;
    let sorted = fs::read(rt, format!(in alloc; "{language}.sorted")?)?;
    let records = records_of(alloc, &root, &records)?;
    let ordered = in_order(alloc, &index_of(alloc, records, &names)?)?;
    Ok(answer(rt, line, &ordered, &sorted)?)
}

fn main(rt: HostRuntime) -> anyhow::Result<()> {
    let languages = io::read_to_string(rt.alloc(), rt.reader())?;
    for line in languages.split('\n') {
        if !line.is_empty() {
            order(&rt, line)?;
        }
    }
    Ok(())
}

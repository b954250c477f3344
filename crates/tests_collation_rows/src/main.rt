//! Answers a script of questions about collations and files of records, and serves runs: `tests_collation_rows < SCRIPT`.
//!
//! The paragraphs of a script stand apart by an empty line. Each begins with a line that says what it is:
//!
//! - `records`: the lines after it are a records file, which counts from there on.
//! - `more`: so are these, after those of the last `records`.
//! - `file`: questions to the reader of records (module `files`).
//! - `normalisers`: questions to normalisers over the records (module `forms`).
//! - `collators`: questions to collators over the records (module `asked`).
//! - `tables`: questions to the tables of the records (module `element_rows`).
//! - `provider`: changes of what a provider gives of the records' tables. The answer to each, upon those before it, is what a
//!   collator is refused for then, or that it is made (module `provider`).
//! - `run WORDS`: commands of a run of `collate` over the records (module `runs`).
//! - `files`: all paragraphs after it are files of records, and questions on two (module `file_paragraphs`).
//! - `#` and anything: a comment. A question to collators or tables, or a change, may be one too.
//!
//! The records are compiled twice, with fast tries and with small ones, and each question is asked over both: where the
//! answers differ, both are printed (module `both`).
//!
//! Texts are bytes in hexadecimal, those of a unit of UTF-16 the upper one first, or `-` for none. A question and its answer
//! are printed as a line, and so is the first line of a paragraph that asks, and one with options. A script with another line
//! ends there, with a line that says so.
#![tactic(auto)]

mod asked;
mod asked_texts;
mod both;
mod element_rows;
mod file_lines;
mod file_pairs;
mod file_paragraphs;
mod files;
mod forms;
mod keys;
mod options;
mod orders;
mod provider;
mod runs;
mod script;
mod sinks;

use script::answer_script;
use std::io;

fn main(rt: HostRuntime) -> io::Result<()> {
    let script = io::read_to_string(rt.alloc(), rt.reader())?;
    match answer_script(&rt, script.as_str()) {
        Some(()) => Ok(()),
        None => println!(rt; "not a script, or no memory"),
    }
}

//! What tables are asked, a line each, after one that says whether they are accepted. Characters are numbers in hexadecimal.
//!
//! - `read CHARACTER..`: the elements of a text as the reader of elements gives them, 64 bits in hexadecimal each; `plain`: as
//!   they are read slowly, by the rules alone. `read_numbers` and `plain_numbers` read digits as numbers.
//! - `unsafe CHARACTER..`: whether each is one at which no reading begins.
//! - `compose CHARACTER CHARACTER`: the character that two compose to, or a stroke.

use crate::asked_texts::{characters, halves};
use crate::both::print_answers;
use icu_codepointtrie::TrieType;
use icu_collator_core::checked::CheckedTables;
use samples_icu_collator::compiled::checked_tables;
use samples_icu_collator::plain::plain_elements;
use samples_icu_collator::plain::recorded::Tables;
use samples_icu_collator::read::read_elements;
use std::alloc::Global;

/// Elements, or a stroke for none.
fn shown(alloc: Global, elements: &[u64]) -> Option<String> {
    let mut line = String::new(alloc);
    if elements.is_empty() {
        line.push_str("-").ok()?;
    }
    for (index, element) in elements.iter().enumerate() {
        let separator = if index == 0 { "" } else { " " };
        write!(line, "{separator}{element:016x}").ok()?;
    }
    Some(line)
}

/// The answer with the elements of a text.
fn read_answer(
    tables: &CheckedTables<'_>,
    alloc: Global,
    text: &[char],
    lead: Option<u8>,
) -> Option<String> {
    let elements = read_elements(alloc, tables, text, lead)?;
    shown(alloc, &elements)
}

/// The answer with the elements of a text that are read slowly.
fn plain_answer(
    tables: &CheckedTables<'_>,
    alloc: Global,
    text: &[char],
    lead: Option<u8>,
) -> Option<String> {
    let tables = Tables {
        canonical: tables.canonical(),
        tables: tables.tables(),
    };
    let elements = plain_elements(alloc, &tables, text, lead)?;
    shown(alloc, &elements)
}

/// The answer whether characters are unsafe.
fn unsafe_answer(tables: &CheckedTables<'_>, alloc: Global, text: &[char]) -> Option<String> {
    let mut line = String::new(alloc);
    for (index, c) in text.iter().enumerate() {
        let separator = if index == 0 { "" } else { " " };
        let is_unsafe = tables.is_unsafe(*c);
        write!(line, "{separator}{is_unsafe}").ok()?;
    }
    Some(line)
}

/// The answer what two characters compose to.
fn compose_answer(tables: &CheckedTables<'_>, alloc: Global, text: &[char]) -> Option<String> {
    let [first, second] = text else {
        return None;
    };
    match tables.canonical().compose(*first, *second) {
        Some(c) => format!(in alloc; "{:04X}", c as u32).ok(),
        None => String::from_str(alloc, "-").ok(),
    }
}

/// The answer to a question.
fn answer(tables: &CheckedTables<'_>, alloc: Global, line: &str) -> Option<String> {
    let (call, words) = halves(line, ' ');
    let text = characters(alloc, words)?;
    let lead = Some(tables.tables().special_primaries.numeric_primary);
    match call {
        "read" => read_answer(tables, alloc, &text, None),
        "read_numbers" => read_answer(tables, alloc, &text, lead),
        "plain" => plain_answer(tables, alloc, &text, None),
        "plain_numbers" => plain_answer(tables, alloc, &text, lead),
        "unsafe" => unsafe_answer(tables, alloc, &text),
        "compose" => compose_answer(tables, alloc, &text),
        _ => None,
    }
}

/// Prints the answer to a question.
fn answer_line(
    rt: &HostRuntime,
    fast: &CheckedTables<'_>,
    small: &CheckedTables<'_>,
    line: &str,
) -> Option<()> {
    if line.starts_with('#') {
        return Some(());
    }
    let by_fast = answer(fast, rt.alloc(), line)?;
    let by_small = answer(small, rt.alloc(), line)?;
    print_answers(rt, line, by_fast.as_str(), by_small.as_str())
}

/// Prints the answers to questions.
fn answer_lines(
    rt: &HostRuntime,
    fast: &CheckedTables<'_>,
    small: &CheckedTables<'_>,
    lines: &str,
) -> Option<()> {
    println!(rt; "accepted").ok()?;
    for line in lines.lines() {
        answer_line(rt, fast, small, line)?;
    }
    Some(())
}

/// Asks tables with fast tries, and those of the records with small ones.
fn ask_beside(
    rt: &HostRuntime,
    fast: &CheckedTables<'_>,
    records: &str,
    lines: &str,
) -> Option<()> {
    match checked_tables(rt.alloc(), records, TrieType::Small) {
        Some(small) => answer_lines(rt, fast, &small, lines),
        None => None,
    }
}

/// Prints that the tables of records are accepted, and asks them what these lines do; `None` where the records are refused, a
/// line asks nothing, or memory is refused.
pub fn ask_tables(rt: &HostRuntime, records: &str, lines: &str) -> Option<()> {
    match checked_tables(rt.alloc(), records, TrieType::Fast) {
        Some(fast) => ask_beside(rt, &fast, records, lines),
        None => None,
    }
}

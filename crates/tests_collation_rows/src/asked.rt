//! What collators are asked, a line each. `options OPTIONS` is no question, but makes a collator for the questions after it: words
//! with commas between them.
//!
//! - `compare ENCODING TEXT TEXT`: how two texts order. ENCODING is `text`, `utf8`, `utf16`, `latin1`, or `mixed`: the first
//!   in Latin-1, the second in UTF-16.
//! - `key ENCODING TEXT`: the sort key of a text, in `text`, `utf8` or `utf16`.
//! - `sink SINK TEXT`: what a sink holds that a key is written to, one of `deque`, `small`, or the length of a slice (module
//!   `sinks`).
//! - `place TEXT TEXT`: from which index two texts are read: `0`, `1 to 9`, or `at least 10`.
//! - `options?`: the options that the collator goes by.

use crate::asked_texts::{bytes, halves, shown};
use crate::both::{Both, held_both, print_answers};
use crate::keys::key_of;
use crate::options::{options_of, preferences_of};
use crate::orders::order_of;
use crate::sinks::sink_of;
use icu_collator::{Collator, CollatorBorrowed};
use icu_collator_types::options::{CollatorOptions, CollatorPreferences};
use samples_icu_collator::held::HeldCollation;
use std::alloc::Global;

/// The answer how two texts order.
fn order_answer(collator: &CollatorBorrowed<'_>, alloc: Global, words: &str) -> Option<String> {
    let (encoding, pair) = words.split_once(' ')?;
    let (left, right) = pair.split_once(' ')?;
    let order = order_of(
        collator,
        alloc,
        encoding,
        &bytes(alloc, left)?,
        &bytes(alloc, right)?,
    )?;
    format!(in alloc; "{order:?}").ok()
}

/// The answer with a key.
fn key_answer(collator: &CollatorBorrowed<'_>, alloc: Global, words: &str) -> Option<String> {
    let (encoding, text) = words.split_once(' ')?;
    let key = key_of(collator, alloc, encoding, &bytes(alloc, text)?)?;
    shown(alloc, &key)
}

/// The answer with what a sink holds.
fn sink_answer(collator: &CollatorBorrowed<'_>, alloc: Global, words: &str) -> Option<String> {
    let (sink, text) = words.split_once(' ')?;
    let bytes = bytes(alloc, text)?;
    let text = str::from_utf8(&bytes).ok()?;
    sink_of(collator, alloc, sink, text)
}

/// What is told of an index: no more than is promised.
fn told(index: usize) -> &'static str {
    match index {
        0 => "0",
        1..=9 => "1 to 9",
        _ => "at least 10",
    }
}

/// The answer from which index two texts are read.
fn index_answer(collator: &CollatorBorrowed<'_>, alloc: Global, words: &str) -> Option<String> {
    let (left, right) = words.split_once(' ')?;
    let (left, right) = (bytes(alloc, left)?, bytes(alloc, right)?);
    let (left, right) = (str::from_utf8(&left).ok()?, str::from_utf8(&right).ok()?);
    String::from_str(alloc, told(collator.reading_start(left, right))).ok()
}

/// The answer with the options.
fn options_answer(collator: &CollatorBorrowed<'_>, alloc: Global) -> Option<String> {
    let options = collator.resolved_options();
    format!(in alloc; "{options:?}").ok()
}

/// The answer to a question.
fn answer(collator: &CollatorBorrowed<'_>, alloc: Global, line: &str) -> Option<String> {
    let (call, words) = halves(line, ' ');
    match call {
        "compare" => order_answer(collator, alloc, words),
        "key" => key_answer(collator, alloc, words),
        "sink" => sink_answer(collator, alloc, words),
        "place" => index_answer(collator, alloc, words),
        "options?" => options_answer(collator, alloc),
        _ => None,
    }
}

/// Prints the answer to a question.
fn answer_line(
    rt: &HostRuntime,
    fast: &CollatorBorrowed<'_>,
    small: &CollatorBorrowed<'_>,
    line: &str,
) -> Option<()> {
    if line.starts_with('#') {
        return Some(());
    }
    let by_fast = answer(fast, rt.alloc(), line)?;
    let by_small = answer(small, rt.alloc(), line)?;
    print_answers(rt, line, by_fast.as_str(), by_small.as_str())
}

/// Prints the answers to questions.
fn answer_lines(
    rt: &HostRuntime,
    fast: &CollatorBorrowed<'_>,
    small: &CollatorBorrowed<'_>,
    lines: &str,
) -> Option<()> {
    for line in lines.lines() {
        answer_line(rt, fast, small, line)?;
    }
    Some(())
}

/// Asks a collator over fast tries, and one that is made of a provider of small ones.
fn ask_beside(
    rt: &HostRuntime,
    fast: &CollatorBorrowed<'_>,
    small: &HeldCollation<'static>,
    preferences: CollatorPreferences<'static>,
    options: CollatorOptions,
    lines: &str,
) -> Option<()> {
    match Collator::try_new_unstable(rt.alloc(), small, preferences, options) {
        Ok(small) => answer_lines(rt, fast, &small.as_borrowed(), lines),
        Err(_) => None,
    }
}

/// Asks collators over the tables of both providers, with options, what these lines do; `None` where one asks nothing, the
/// tables are refused, or memory is.
pub fn ask_over(rt: &HostRuntime, both: &Both, options: &str, lines: &str) -> Option<()> {
    let preferences = preferences_of(options);
    let options = options_of(options);
    match Collator::try_new_unstable(rt.alloc(), &both.fast, preferences, options) {
        Ok(fast) => {
            let fast = fast.as_borrowed();
            ask_beside(rt, &fast, &both.small, preferences, options, lines)
        }
        Err(_) => None,
    }
}

/// Asks collators over the tables of both providers, with the options of a line.
fn ask_each(rt: &HostRuntime, both: &Both, lines: &str) -> Option<()> {
    for part in lines.split("options ").skip(1) {
        let (options, questions) = halves(part, '\n');
        println!(rt; "options {options}").ok()?;
        ask_over(rt, both, options, questions)?;
    }
    Some(())
}

/// Asks collators over the tables of records, with the options of a line, what the lines after that do; `None` as in
/// `ask_over`.
pub fn ask_collators(rt: &HostRuntime, records: &str, lines: &str) -> Option<()> {
    match held_both(rt.alloc(), records) {
        Some(both) => ask_each(rt, &both, lines),
        None => None,
    }
}

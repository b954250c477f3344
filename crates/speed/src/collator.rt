//! Measures collators and the reading of elements, over the tables that a records file is compiled to, and the making of those
//! tables, each by processor time.
//!
//! `speed collator RECORDS NAMES` prints how many keys of names are written in a second (`keys`), how many pairs of names are
//! compared, each name with one far from it (`cmp_random`), and each with the next in the order of their keys
//! (`cmp_near`): the best of three rounds at strength Tertiary, over the lines of a file of names. An empty line ends a list
//! of names, and the next is measured in turn, over the same tables.
//!
//! `speed collator RECORDS NAMES TASK ROUNDS [OPTION=VALUE]..` prints the best of so many rounds. TASK is one of:
//!
//! - `names`: as above, but with the options that are given, in the words of `collate` (README.md); `keys`, `random`, `near`:
//!   one of the three. With `16` after it: the same of a file of names in UTF-16, low bytes first.
//! - `elements`: how many characters of the lines of a file are read in a second; `numeric_elements`: the same, with digits
//!   read as numbers.
//! - `try_new`: how many microseconds a check of the tables takes, with tries of type `Small` and of type `Fast`.
//! - `compile`: how many microseconds reading the records file takes (`read`), and how many compiling what was read
//!   (`compile`), with tries of type `Small` and of type `Fast`.
//!
//! The last two look past NAMES, which has to be a file, and all but the first past options.

mod clock;
mod compiling;
mod element_speed;
mod names;
mod speed;

use collate_choice::Choice;
use compiling::measure_compiling;
use element_speed::{measure_check, measure_elements};
use icu_collator_types::options::{CollatorOptions, CollatorPreferences};
use speed::measure_collator;
use std::{fs, io};

/// Does a task over a records file and a file of names.
fn run(
    rt: &HostRuntime,
    records: &str,
    names: &[u8],
    task: &str,
    choice: &Choice<'_>,
    rounds: u32,
) -> Option<()> {
    match task {
        "names" | "keys" | "random" | "near" | "names16" | "keys16" | "random16" | "near16" => {
            measure_collator(rt, records, names, task, choice, rounds)
        }
        "elements" => measure_elements(rt, records, str::from_utf8(names).ok()?, false, rounds),
        "numeric_elements" => {
            measure_elements(rt, records, str::from_utf8(names).ok()?, true, rounds)
        }
        "try_new" => measure_check(rt, records, rounds),
        "compile" => measure_compiling(rt, records, rounds),
        _ => None,
    }
}

/// The task that words name, and after it its rounds and the options; with no words, three rounds of all with no options.
fn task_and_choice(words: &[String]) -> Option<(&str, Choice<'_>)> {
    let Some((task, rest)) = words.split_first() else {
        let choice = Choice {
            file: "3",
            prefs: CollatorPreferences::default(),
            options: CollatorOptions::default(),
        };
        return Some(("names", choice));
    };
    Some((task.as_str(), Choice::read(rest)?))
}

/// Does what the words say.
fn run_words(rt: &HostRuntime, words: &[String]) -> Option<()> {
    let [records, names, rest @ ..] = words else {
        return None;
    };
    let (task, choice) = task_and_choice(rest)?;
    let rounds = choice.file.parse::<u32>().ok()?;
    let records = fs::read_to_string(rt, records.as_str()).ok()?;
    let names = fs::read(rt, names.as_str()).ok()?;
    run(rt, records.as_str(), &names, task, &choice, rounds)
}

/// Does what the words say; where they are wrong, prints how they are to be.
pub fn answer(rt: &HostRuntime, words: &[String]) -> io::Result<()> {
    match run_words(rt, words) {
        Some(()) => Ok(()),
        None => println!(rt; "usage: speed collator RECORDS NAMES [TASK ROUNDS [OPTION=VALUE]..]"),
    }
}

//! Measures sets of code points, code point tries and unit tries: `speed collections TASK [NUMBER..]`.
//! `bench/libraries.sh` has the tasks and takes the times; the program prints what it counted. With no
//! word it does a short task of each of the three.

mod sets;
mod tries;
mod units;

use std::alloc::{AllocError, Global};
use std::io;

/// What is said of words that are no task with its numbers.
const USAGE: &str =
    "usage: speed collections TASK [COUNT] | speed collections units KEYS ROUNDS [FOLLOWS]";

/// The line that a task prints, if it has the numbers that it needs.
fn line_of(alloc: Global, task: &str, numbers: &[u32]) -> Result<Option<String>, AllocError> {
    if task == "units" {
        return units::line_of(alloc, numbers);
    }
    if let Some(line) = sets::line_of(alloc, task)? {
        return Ok(Some(line));
    }
    Ok(Some(tries::line_of(alloc, task, numbers)?))
}

/// The numbers that the words are, if each is one.
fn numbers_of(alloc: Global, words: &[String]) -> Result<Option<Vec<u32>>, AllocError> {
    let mut numbers = Vec::new(alloc);
    for word in words {
        let Ok(number) = word.as_str().parse::<u32>() else {
            return Ok(None);
        };
        numbers.push(number)?;
    }
    Ok(Some(numbers))
}

/// Prints the line of a task; where there is none, the error has the usage.
fn print_line(rt: &HostRuntime, task: &str, numbers: &[u32]) -> io::Result<()> {
    match line_of(rt.alloc(), task, numbers)? {
        Some(line) => println!(rt; "{line}"),
        None => Err(io::Error::other(USAGE)),
    }
}

/// Prints what the words ask for; where they are wrong, the error has the usage.
pub fn answer(rt: &HostRuntime, words: &[String]) -> io::Result<()> {
    let Some((task, words)) = words.split_first() else {
        print_line(rt, "add_random", &[])?;
        print_line(rt, "build", &[])?;
        return print_line(rt, "units", &[200, 2]);
    };
    match numbers_of(rt.alloc(), words)? {
        Some(numbers) => print_line(rt, task.as_str(), &numbers),
        None => Err(io::Error::other(USAGE)),
    }
}

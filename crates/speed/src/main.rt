//! Measures the libraries: `speed SUBJECT WORD..`. The subjects are `collections`, `normal` and `collator`, each with its words
//! at the head of its module. `speed short RECORDS TEXTS TASK ROUNDS` does a short task of `collections` and a task of
//! `normal`, and says how `collator` is asked.
#![tactic(auto)]

mod collator;
mod collections;
mod normal;

use std::{env, io};

/// What is said of words that name no subject.
const USAGE: &str =
    "usage: speed collections|normal|collator WORD.. | speed short RECORDS TEXTS TASK ROUNDS";

/// A short task of each subject, the words being those of `normal`.
fn answer_short(rt: &HostRuntime, words: &[String]) -> io::Result<()> {
    collections::answer(rt, &[])?;
    normal::answer(rt, words)?;
    collator::answer(rt, &[])
}

/// Does what the words after a subject ask of it; where there is no such subject, the error has the usage.
fn answer(rt: &HostRuntime, words: &[String]) -> io::Result<()> {
    let Some((subject, words)) = words.split_first() else {
        return Err(io::Error::other(USAGE));
    };
    match subject.as_str() {
        "collections" => collections::answer(rt, words),
        "normal" => normal::answer(rt, words),
        "collator" => collator::answer(rt, words),
        "short" => answer_short(rt, words),
        _ => Err(io::Error::other(USAGE)),
    }
}

fn main(rt: HostRuntime) -> io::Result<()> {
    let mut words = Vec::new(rt.alloc());
    for word in env::args(&rt)?.skip(1) {
        words.push(word)?;
    }
    answer(&rt, &words)
}

//! Measures normal forms, and shows them: `speed normal RECORDS TEXTS TASK ROUNDS`, over the data of a records file and the
//! lines of a file of texts.
//!
//! A task is the name of a form, `nfc`, `nfd`, `nfkc` or `nfkd`, and `_utf8` or `_utf16` after it where the file is taken
//! as any bytes, or any units, low bytes first. Each text is brought to the form as many rounds as asked for, and the
//! program prints how many bytes or units the forms have; with `is_` before it, how many texts are in the form. With
//! `show_`, `tell_` or `split_` before it, it prints of each text its form, whether it is in the form, or the two parts
//! that it is split in, before such a number. `try_new` and `try_new_k` load the data so often; `uts46` shows what a
//! mapper gives.

mod data;
mod forms;
mod line_texts;
mod mapper;
mod task;

use data::provider;
use forms::{load, run_form};
use icu_normalizer_core::provider::NormalizerProvider;
use std::{fs, io};
use task::task_of;

/// What the task of this name comes to, over the data of a provider, if it could be made; `None` where there is no such task.
fn run<P: NormalizerProvider + Drop>(
    rt: &HostRuntime,
    provider: Option<P>,
    file: &[u8],
    task: &str,
    rounds: u32,
) -> Option<usize> {
    let provider = provider?;
    match task {
        "try_new" => load(rt.alloc(), &provider, false, rounds),
        "try_new_k" => load(rt.alloc(), &provider, true, rounds),
        _ => run_form(rt, &provider, file, &task_of(task, rounds)),
    }
}

/// Does what the words say: records file, texts file, task, rounds.
fn run_words(rt: &HostRuntime, words: &[String]) -> Option<usize> {
    let [records, texts, task, rounds] = words else {
        return None;
    };
    let rounds = rounds.as_str().parse::<u32>().ok()?;
    let records = fs::read_to_string(rt, records.as_str()).ok()?;
    let file = fs::read(rt, texts.as_str()).ok()?;
    let provider = provider(rt.alloc(), records.as_str());
    run(rt, provider, &file, task.as_str(), rounds)
}

/// Does what the words say, and prints what the task comes to; where they are wrong, how they are to be.
pub fn answer(rt: &HostRuntime, words: &[String]) -> io::Result<()> {
    match run_words(rt, words) {
        Some(number) => println!(rt; "{number}"),
        None => println!(rt; "usage: speed normal RECORDS TEXTS TASK ROUNDS"),
    }
}

//! How fast records files are read, and compiled.

use super::clock::{nanoseconds, time_between};
use collate_records::compile::compile;
use collate_records::limits::Limits;
use collate_records::records::Records;
use icu_codepointtrie::TrieType;

/// The nanoseconds that reading a file takes, and letting go of what was read.
fn read_once(rt: &HostRuntime, file: &str) -> Option<u64> {
    let before = nanoseconds(rt);
    let is_read = Records::read_within(rt.alloc(), file.as_bytes(), Limits::UNICODE).is_ok();
    let after = nanoseconds(rt);
    if is_read {
        time_between(before, after)
    } else {
        None
    }
}

/// The nanoseconds that compiling records takes, and letting go of the tables.
fn compile_once(rt: &HostRuntime, records: &Records, trie_type: TrieType) -> Option<u64> {
    let before = nanoseconds(rt);
    let is_compiled = compile(rt.alloc(), records, trie_type).is_ok();
    let after = nanoseconds(rt);
    if is_compiled {
        time_between(before, after)
    } else {
        None
    }
}

/// The least of as many readings as rounds are asked for.
fn least_reading(rt: &HostRuntime, file: &str, rounds: u32) -> Option<u64> {
    let mut least = u64::MAX;
    for _round in 0..rounds {
        least = least.min(read_once(rt, file)?);
    }
    Some(least)
}

/// The least of as many compilations as rounds are asked for.
fn least_compiling(
    rt: &HostRuntime,
    records: &Records,
    trie_type: TrieType,
    rounds: u32,
) -> Option<u64> {
    let mut least = u64::MAX;
    for _round in 0..rounds {
        least = least.min(compile_once(rt, records, trie_type)?);
    }
    Some(least)
}

/// Prints how many microseconds reading a file takes.
fn measure_reading(rt: &HostRuntime, file: &str, rounds: u32) -> Option<()> {
    let least = least_reading(rt, file, rounds)? / 1000;
    println!(rt; "read {least}").ok()
}

/// Prints how many microseconds compiling records takes, with tries of either type.
fn measure_compiling_records(rt: &HostRuntime, records: &Records, rounds: u32) -> Option<()> {
    let small = least_compiling(rt, records, TrieType::Small, rounds)? / 1000;
    let fast = least_compiling(rt, records, TrieType::Fast, rounds)? / 1000;
    println!(rt; "compile {small} {fast}").ok()
}

/// Prints how many microseconds reading a records file takes, and how many compiling what it says takes, with tries of
/// either type; `None` where the file is refused, or memory is.
pub fn measure_compiling(rt: &HostRuntime, file: &str, rounds: u32) -> Option<()> {
    measure_reading(rt, file, rounds)?;
    match Records::read_within(rt.alloc(), file.as_bytes(), Limits::UNICODE) {
        Ok(records) => measure_compiling_records(rt, &records, rounds),
        Err(_) => None,
    }
}

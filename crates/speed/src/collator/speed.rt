//! How fast keys are written and names compared.

use super::clock::{a_second, nanoseconds};
use super::names::{Name, in_order, unit_lines, units};
use collate_choice::Choice;
use icu_codepointtrie::TrieType;
use icu_collator::{Collator, CollatorBorrowed};
use samples_icu_collator::compiled::held_tables;
use samples_icu_collator::held::HeldCollation;
use std::alloc::Global;
use std::cmp::Ordering;

/// The bytes of the keys of all names together, each written to the same vector.
///
/// (a function of its own in the executable, so that a profiler sees where a round begins and ends)
#[inline(never)]
fn write_keys<N: Name>(
    collator: &CollatorBorrowed<'_>,
    alloc: Global,
    names: &[N],
    key: &mut Vec<u8>,
) -> Option<usize> {
    let mut sum: usize = 0;
    for name in names {
        key.clear();
        name.add_key(collator, alloc, key)?;
        sum = sum.wrapping_add(key.len());
    }
    Some(sum)
}

/// Prints how many keys are written in a second, and how many bytes they have.
fn measure_keys<N: Name>(
    rt: &HostRuntime,
    collator: &CollatorBorrowed<'_>,
    names: &[N],
    rounds: u32,
) -> Option<()> {
    let mut least = u64::MAX;
    let mut sum = 0;
    let mut key = Vec::new(rt.alloc());
    for _round in 0..rounds {
        let before = nanoseconds(rt)?;
        sum = write_keys(collator, rt.alloc(), names, &mut key)?;
        let after = nanoseconds(rt)?;
        least = least.min(after.checked_sub(before)?);
    }
    let speed = a_second(names.len(), least)?;
    println!(rt; "keys {speed} {sum}").ok()
}

/// How many of these pairs are below one another.
///
/// (a function of its own, as `write_keys` is)
#[inline(never)]
fn compare_pairs<N: Name>(
    collator: &CollatorBorrowed<'_>,
    alloc: Global,
    pairs: &[(N, N)],
) -> Option<usize> {
    let mut count: usize = 0;
    for (left, right) in pairs {
        if left.order(collator, alloc, *right)? == Ordering::Less {
            count = count.wrapping_add(1);
        }
    }
    Some(count)
}

/// Prints how many pairs are compared in a second, and how many of them are below one another.
fn measure_pairs<N: Name>(
    rt: &HostRuntime,
    collator: &CollatorBorrowed<'_>,
    name: &str,
    pairs: &[(N, N)],
    rounds: u32,
) -> Option<()> {
    let mut least = u64::MAX;
    let mut count = 0;
    for _round in 0..rounds {
        let before = nanoseconds(rt)?;
        count = compare_pairs(collator, rt.alloc(), pairs)?;
        let after = nanoseconds(rt)?;
        least = least.min(after.checked_sub(before)?);
    }
    let speed = a_second(pairs.len(), least)?;
    println!(rt; "{name} {speed} {count}").ok()
}

/// Each name with one far from it.
fn far_pairs<N: Name>(alloc: Global, names: &[N]) -> Option<Vec<(N, N)>> {
    let mut pairs = Vec::new(alloc);
    for (i, name) in names.iter().enumerate() {
        let other = i
            .wrapping_mul(7919)
            .wrapping_add(13)
            .checked_rem(names.len())?;
        pairs.push((*name, *names.get(other)?)).ok()?;
    }
    Some(pairs)
}

/// Each name with the next.
fn near_pairs<N: Name>(alloc: Global, names: &[N]) -> Option<Vec<(N, N)>> {
    let mut pairs = Vec::new(alloc);
    for (name, next) in names.iter().zip(names.iter().skip(1)) {
        pairs.push((*name, *next)).ok()?;
    }
    Some(pairs)
}

/// Prints how fast keys of names are written, and names compared: all of it, or what the task names.
fn measure<N: Name>(
    rt: &HostRuntime,
    collator: &CollatorBorrowed<'_>,
    names: &[N],
    task: &str,
    rounds: u32,
) -> Option<()> {
    if task == "names" || task == "keys" {
        measure_keys(rt, collator, names, rounds)?;
    }
    if task == "names" || task == "random" {
        let far = far_pairs(rt.alloc(), names)?;
        measure_pairs(rt, collator, "cmp_random", &far, rounds)?;
    }
    if task == "names" || task == "near" {
        let ordered = in_order(collator, rt.alloc(), names)?;
        let near = near_pairs(rt.alloc(), &ordered)?;
        measure_pairs(rt, collator, "cmp_near", &near, rounds)?;
    }
    Some(())
}

/// The same of each list of names of a file in UTF-8.
fn measure_lists(
    rt: &HostRuntime,
    collator: &CollatorBorrowed<'_>,
    file: &str,
    task: &str,
    rounds: u32,
) -> Option<()> {
    for list in file.split("\n\n") {
        let names: Vec<&str> = list.lines().collect(rt.alloc()).ok()?;
        measure(rt, collator, &names, task, rounds)?;
    }
    Some(())
}

/// The same of the lists of a file in UTF-8; of the lines of one in UTF-16, low bytes first, where the task ends in 16.
fn measure_lines(
    rt: &HostRuntime,
    collator: &CollatorBorrowed<'_>,
    file: &[u8],
    task: &str,
    rounds: u32,
) -> Option<()> {
    match task.strip_suffix("16") {
        Some(task) => {
            let units = units(rt.alloc(), file)?;
            let names = unit_lines(rt.alloc(), &units)?;
            measure(rt, collator, &names, task, rounds)
        }
        None => measure_lists(rt, collator, str::from_utf8(file).ok()?, task, rounds),
    }
}

/// The same, by a collator over a provider's tables.
fn measure_over(
    rt: &HostRuntime,
    held: &HeldCollation<'static>,
    file: &[u8],
    task: &str,
    choice: &Choice<'_>,
    rounds: u32,
) -> Option<()> {
    match Collator::try_new_unstable(rt.alloc(), held, choice.prefs, choice.options) {
        Ok(collator) => measure_lines(rt, &collator.as_borrowed(), file, task, rounds),
        Err(_) => None,
    }
}

/// The same, by a collator with chosen options over the tables of records; `None` where it can't be made, or memory is refused.
pub fn measure_collator(
    rt: &HostRuntime,
    records: &str,
    file: &[u8],
    task: &str,
    choice: &Choice<'_>,
    rounds: u32,
) -> Option<()> {
    match held_tables(rt.alloc(), records, TrieType::Small) {
        Some(held) => measure_over(rt, &held, file, task, choice, rounds),
        None => None,
    }
}

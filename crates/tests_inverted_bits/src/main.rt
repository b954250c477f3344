//! Changes good tables bit by bit: each item of their lists in turn, each of its bits in turn. Changed tables are refused,
//! for a fault that has a name, or their texts have the elements that the changed tables mean, read slowly by the rules
//! alone. A line says of each list how many changed tables there were, and whether some were refused and some read; each
//! that was neither has a line `misread: LIST ITEM bit BIT`.
//!
//! How many tables are changed follows from the lists alone. An item that is like the one before it has one of its bits
//! changed, the next one in turn, so that the lists of many items alike take no longer than the others. With any word, as
//! in `tests_inverted_bits all`, all have all their bits changed, which takes some minutes.
#![tactic(auto)]

mod byte_lists;
mod decomposed;
mod good;
mod judged;
mod tables;

use byte_lists::{Change, Lists, PARTS, Part};
use good::good_lists;
use judged::{Answer, answer_of};
use std::alloc::Global;
use std::{env, io};

/// How many changed tables became what.
#[derive(Clone, Copy, Default)]
struct Counts {
    changed: u32,
    refused: u32,
    read: u32,
    misread: u32,
}

impl Counts {
    /// Counts changed tables.
    fn count(&mut self, answer: Answer) {
        self.changed = self.changed.wrapping_add(1);
        let counted = match answer {
            Answer::Refused => &mut self.refused,
            Answer::Read => &mut self.read,
            Answer::Misread => &mut self.misread,
        };
        *counted = counted.wrapping_add(1);
    }
}

/// Whether there are some.
fn amount(count: u32) -> &'static str {
    if count == 0 { "none" } else { "some" }
}

/// What becomes of tables with a bit changed; the lists are as before.
fn changed_answer(alloc: Global, lists: &mut Lists, change: Change) -> Answer {
    lists.flip(change);
    let answer = answer_of(alloc, lists);
    lists.flip(change);
    answer
}

/// Changes bits of an item, each in turn.
fn change_item(
    rt: &HostRuntime,
    lists: &mut Lists,
    part: Part,
    index: usize,
    is_whole: bool,
    counts: &mut Counts,
) -> io::Result<()> {
    for bit in lists.bits_of(part, index, is_whole) {
        let answer = changed_answer(rt.alloc(), lists, Change { part, index, bit });
        counts.count(answer);
        if matches!(answer, Answer::Misread) {
            println!(rt; "misread: {} {index} bit {bit}", part.name())?;
        }
    }
    Ok(())
}

/// Prints what became of the changed tables of a list.
fn print_counts(rt: &HostRuntime, part: Part, counts: Counts) -> io::Result<()> {
    let Counts {
        changed,
        misread,
        ..
    } = counts;
    let refused = amount(counts.refused);
    let read = amount(counts.read);
    let name = part.name();
    println!(rt; "{name}: {changed} changed, {refused} refused, {read} read, {misread} misread")
}

/// Changes the items of a list, each in turn.
fn change_list(rt: &HostRuntime, lists: &mut Lists, part: Part, is_whole: bool) -> io::Result<()> {
    let mut counts = Counts::default();
    for index in 0..lists.count(part) {
        change_item(rt, lists, part, index, is_whole, &mut counts)?;
    }
    print_counts(rt, part, counts)
}

/// Changes all lists, each in turn.
fn change_all(rt: &HostRuntime, lists: &mut Lists, is_whole: bool) -> io::Result<()> {
    println!(rt; "good tables: {}", answer_of(rt.alloc(), lists).name())?;
    for part in PARTS {
        change_list(rt, lists, part, is_whole)?;
    }
    Ok(())
}

fn main(rt: HostRuntime) -> io::Result<()> {
    let is_whole = env::args(&rt)?.count() > 1;
    match good_lists(rt.alloc()) {
        Some(mut lists) => change_all(&rt, &mut lists, is_whole),
        None => println!(rt; "no tables"),
    }
}

//! Keys, written to each sink.

use crate::asked_texts::{LONG, SHORT, UNITS};
use icu_collator::{CollationKeySink, CollatorBorrowed, KeyError};
use smallvec::SmallVec;
use std::alloc::Global;
use std::collections::VecDeque;
use std::fmt::Debug;

/// Writes three keys to a sink, one after the other: of a text, of bytes and of units.
fn write_keys<S: CollationKeySink>(
    alloc: Global,
    collator: &CollatorBorrowed<'_>,
    sink: &mut S,
) -> Result<(), KeyError<S::Error>>
where
    S::Output: Drop,
{
    collator.write_sort_key_to(alloc, SHORT, sink)?;
    collator.write_sort_key_utf8_to(alloc, LONG.as_bytes(), sink)?;
    collator.write_sort_key_utf16_to(alloc, &UNITS, sink)?;
    Ok(())
}

/// Prints what a sink holds, and what writing to it answered.
fn print_sink<T: Debug, E: Debug>(
    rt: &HostRuntime,
    name: &str,
    bytes: &[u8],
    answer: &Result<T, KeyError<E>>,
) {
    let _ = println!(rt; "{name} | {bytes:?} | {answer:?}");
}

/// Keys in a list.
fn tell_list(rt: &HostRuntime, collator: &CollatorBorrowed<'_>) {
    for _ in 0..2 {
        let mut sink = Vec::new(rt.alloc());
        let answer = write_keys(rt.alloc(), collator, &mut sink);
        print_sink(rt, "keys in a list", &sink, &answer);
        if answer.is_ok() {
            break;
        }
    }
}

/// Keys in a queue.
fn tell_queue(rt: &HostRuntime, collator: &CollatorBorrowed<'_>) {
    for _ in 0..2 {
        let mut sink = VecDeque::new(rt.alloc());
        let answer = write_keys(rt.alloc(), collator, &mut sink);
        let (front, _) = sink.as_slices();
        print_sink(rt, "keys in a queue", front, &answer);
        if answer.is_ok() {
            break;
        }
    }
}

/// Keys in a list that begins inline.
fn tell_small_list(rt: &HostRuntime, collator: &CollatorBorrowed<'_>) {
    for _ in 0..2 {
        let mut sink = SmallVec::<u8, 8>::new(rt.alloc());
        let answer = write_keys(rt.alloc(), collator, &mut sink);
        print_sink(rt, "keys in a small list", sink.as_slice(), &answer);
        if answer.is_ok() {
            break;
        }
    }
}

/// Prints a key in a slice, whose zeros after it are left out, and tells whether memory was granted.
fn is_slice_told(
    rt: &HostRuntime,
    collator: &CollatorBorrowed<'_>,
    name: &str,
    room: &mut [u8],
) -> bool {
    let mut slice = &mut *room;
    let answer = collator.write_sort_key_to(rt.alloc(), LONG, &mut slice);
    let count = room.iter().take_while(|byte| **byte != 0).count();
    print_sink(rt, name, room.get(..count).unwrap_or(&[]), &answer);
    !matches!(answer, Err(KeyError::Memory))
}

/// A key in a slice that has room for it, and in one that hasn't.
fn tell_slices(rt: &HostRuntime, collator: &CollatorBorrowed<'_>) {
    for _ in 0..2 {
        if is_slice_told(rt, collator, "a key in a slice", &mut [0; 128]) {
            break;
        }
    }
    for _ in 0..2 {
        if is_slice_told(rt, collator, "a key in a short slice", &mut [0; 5]) {
            break;
        }
    }
}

/// Prints what is told of keys in each sink.
pub fn tell_keys(rt: &HostRuntime, collator: &CollatorBorrowed<'_>) {
    tell_list(rt, collator);
    tell_queue(rt, collator);
    tell_small_list(rt, collator);
    tell_slices(rt, collator);
}

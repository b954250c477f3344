//! Sinks that keys are written to: a queue that grows (`deque`), a list that begins inline and outgrows that (`small`), and
//! slices, by their length. For a slice `Ok(LENGTH) KEY` is told, or the error.

use crate::asked_texts::shown;
use icu_collator::{CollatorBorrowed, KeyError};
use smallvec::SmallVec;
use std::alloc::Global;
use std::collections::VecDeque;

/// What a queue holds.
fn queue_of(collator: &CollatorBorrowed<'_>, alloc: Global, text: &str) -> Option<String> {
    let mut sink = VecDeque::new(alloc);
    collator.write_sort_key_to(alloc, text, &mut sink).ok()?;
    let key: Vec<u8> = sink.iter().copied().collect(alloc).ok()?;
    shown(alloc, &key)
}

/// What a list holds that begins inline.
fn small_list_of(collator: &CollatorBorrowed<'_>, alloc: Global, text: &str) -> Option<String> {
    let mut sink = SmallVec::<u8, 4>::new(alloc);
    collator.write_sort_key_to(alloc, text, &mut sink).ok()?;
    shown(alloc, sink.as_slice())
}

/// What is told of a slice.
fn slice_told(
    collator: &CollatorBorrowed<'_>,
    alloc: Global,
    text: &str,
    bytes: &mut [u8],
) -> Option<String> {
    let mut slice = &mut bytes[..];
    match collator.write_sort_key_to(alloc, text, &mut slice) {
        Ok(length) => {
            let key = shown(alloc, bytes.get(..length)?)?;
            format!(in alloc; "Ok({length}) {}", key.as_str()).ok()
        }
        Err(KeyError::Sink(refused)) => format!(in alloc; "{refused:?}").ok(),
        Err(KeyError::Memory) => None,
    }
}

/// What is told of a slice of a length.
fn slice_of(
    collator: &CollatorBorrowed<'_>,
    alloc: Global,
    length: &str,
    text: &str,
) -> Option<String> {
    let length = length.parse::<u8>().ok()?;
    let mut bytes = vec![in alloc; 0u8; usize::from(length)].ok()?;
    slice_told(collator, alloc, text, bytes.as_mut_slice())
}

/// What a sink holds that the key of a text was written to.
pub fn sink_of(
    collator: &CollatorBorrowed<'_>,
    alloc: Global,
    sink: &str,
    text: &str,
) -> Option<String> {
    match sink {
        "deque" => queue_of(collator, alloc, text),
        "small" => small_list_of(collator, alloc, text),
        length => slice_of(collator, alloc, length, text),
    }
}

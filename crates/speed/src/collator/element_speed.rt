//! How fast elements are read, and tables checked.

use super::clock::{a_second, nanoseconds, time_between};
use icu_codepointtrie::TrieType;
use icu_collator_core::checked::CheckedTables;
use icu_collator_core::elements::CollationElements;
use icu_collator_types::elements::CollationElement;
use samples_icu_collator::compiled::{checked_tables, tables_of};
use std::alloc::Global;

/// The nanoseconds that a check of the tables of a records file takes.
fn check_once(rt: &HostRuntime, records: &str, trie_type: TrieType) -> Option<u64> {
    let (canonical, tables) = tables_of(rt.alloc(), records, trie_type)?;
    let before = nanoseconds(rt);
    let is_accepted = CheckedTables::try_new(rt.alloc(), canonical, tables).is_ok();
    let after = nanoseconds(rt);
    if is_accepted {
        time_between(before, after)
    } else {
        None
    }
}

/// The least of as many checks as rounds are asked for.
fn least_check(rt: &HostRuntime, records: &str, trie_type: TrieType, rounds: u32) -> Option<u64> {
    let mut least = u64::MAX;
    for _round in 0..rounds {
        least = least.min(check_once(rt, records, trie_type)?);
    }
    Some(least)
}

/// Prints how many microseconds a check of the tables of a records file takes, with tries of either type.
pub fn measure_check(rt: &HostRuntime, records: &str, rounds: u32) -> Option<()> {
    let small = least_check(rt, records, TrieType::Small, rounds)? / 1000;
    let fast = least_check(rt, records, TrieType::Fast, rounds)? / 1000;
    println!(rt; "try_new {small} {fast}").ok()
}

/// The sum of the primaries of a text.
fn read_text(
    alloc: Global,
    tables: &CheckedTables<'_>,
    text: &str,
    lead: Option<u8>,
) -> Option<u64> {
    let mut reader = CollationElements::new(alloc, text.chars(), tables, lead);
    reader.init().ok()?;
    let mut sum: u64 = 0;
    for _ in 0..u32::MAX {
        let element = reader.next().ok()?;
        if element == CollationElement::default() {
            return Some(sum);
        }
        sum = sum.wrapping_add(u64::from(element.primary()));
    }
    None
}

/// The sum of the primaries of all texts.
fn read_texts(
    alloc: Global,
    tables: &CheckedTables<'_>,
    texts: &str,
    lead: Option<u8>,
) -> Option<u64> {
    let mut sum: u64 = 0;
    for text in texts.lines() {
        sum = sum.wrapping_add(read_text(alloc, tables, text, lead)?);
    }
    Some(sum)
}

/// The least nanoseconds that a reading of all texts takes, of as many as rounds are asked for, and the sum of the primaries.
fn least_reading(
    rt: &HostRuntime,
    tables: &CheckedTables<'_>,
    texts: &str,
    lead: Option<u8>,
    rounds: u32,
) -> Option<(u64, u64)> {
    let mut least = u64::MAX;
    let mut sum = 0;
    for _round in 0..rounds {
        let before = nanoseconds(rt)?;
        sum = read_texts(rt.alloc(), tables, texts, lead)?;
        let after = nanoseconds(rt)?;
        least = least.min(after.checked_sub(before)?);
    }
    Some((least, sum))
}

/// The number of characters of all texts.
fn count(texts: &str) -> usize {
    let mut count: usize = 0;
    for text in texts.lines() {
        count = count.saturating_add(text.chars().count());
    }
    count
}

/// Prints how many characters are read in a second, and the sum of the primaries.
fn measure_reading(
    rt: &HostRuntime,
    tables: &CheckedTables<'_>,
    texts: &str,
    lead: Option<u8>,
    rounds: u32,
) -> Option<()> {
    let (least, sum) = least_reading(rt, tables, texts, lead, rounds)?;
    let speed = a_second(count(texts), least)?;
    println!(rt; "elements {speed} {sum}").ok()
}

/// Prints how many characters of the lines of a text are read in a second, and the sum of the primaries, over the tables of
/// records; `None` where they are refused, or memory is. With numbers digits are read as numbers.
pub fn measure_elements(
    rt: &HostRuntime,
    records: &str,
    texts: &str,
    has_numbers: bool,
    rounds: u32,
) -> Option<()> {
    match checked_tables(rt.alloc(), records, TrieType::Small) {
        Some(tables) => {
            let lead = tables.tables().special_primaries.numeric_primary;
            measure_reading(rt, &tables, texts, has_numbers.then_some(lead), rounds)
        }
        None => None,
    }
}

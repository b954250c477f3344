//! The sort key of a text, by its levels.

use crate::levels::{FIRST_QUATERNARY, Levels};
use icu_collator_types::options::{
    AlternateHandling, CaseLevel, CollationCaseFirst, ResolvedCollatorOptions, Strength,
};
use std::alloc::Global;

/// The bytes, or half bytes, of runs of common weights on a level.
#[derive(Clone, Copy)]
struct Runs {
    /// The common weight.
    common: u64,
    /// The byte of one of them before a lower weight.
    low: u8,
    /// The byte of as many as may be.
    middle: u8,
    /// The byte of one of them before a higher weight.
    high: u8,
    /// As many as may be.
    most: usize,
}

/// Those of secondaries.
const SECONDARIES: Runs = Runs {
    common: 0x500,
    low: 0x05,
    middle: 0x25,
    high: 0x45,
    most: 33,
};

/// Those of cases.
const CASES: Runs = Runs {
    common: 0,
    low: 1,
    middle: 7,
    high: 13,
    most: 7,
};

/// Those of cases with upper case first, among which no weight is higher.
const UPPER_CASES: Runs = Runs {
    common: 2,
    low: 3,
    middle: 15,
    high: 15,
    most: 13,
};

/// Those of tertiaries.
const TERTIARIES: Runs = Runs {
    common: 0x500,
    low: 0x05,
    middle: 0x65,
    high: 0xc5,
    most: 97,
};

/// Those of tertiaries with lower case first.
const LOWER_TERTIARIES: Runs = Runs {
    common: 0x500,
    low: 0x05,
    middle: 0x25,
    high: 0x45,
    most: 33,
};

/// Those of tertiaries with upper case first.
const UPPER_TERTIARIES: Runs = Runs {
    common: 0xc500,
    low: 0x85,
    middle: 0xa5,
    high: 0xc5,
    most: 33,
};

/// Those of quaternaries.
const QUATERNARIES: Runs = Runs {
    common: FIRST_QUATERNARY,
    low: 0x1c,
    middle: 0x8c,
    high: 0xfc,
    most: 113,
};

/// Bytes of a weight; they end at the last that isn't 0.
type Bytes = [u8; 5];

/// Appends a number's low byte.
fn push_byte(key: &mut Vec<u8>, number: u64) -> Option<()> {
    key.push((number & 0xff) as u8).ok()
}

/// Appends bytes up to the last that isn't 0.
fn push_bytes(key: &mut Vec<u8>, bytes: &[u8]) -> Option<()> {
    let zeros = bytes.iter().rev().take_while(|byte| **byte == 0).count();
    let count = bytes.len().saturating_sub(zeros);
    key.extend_from_slice(bytes.get(..count)?).ok()
}

/// Appends the byte that ends primaries with one compressible lead before another primary.
fn push_end(key: &mut Vec<u8>, lead: u64, next: u64) -> Option<()> {
    if next == 2 {
        return Some(());
    }
    push_byte(key, if next < lead { 3 } else { 0xff })
}

/// Appends the primaries.
fn push_primaries(key: &mut Vec<u8>, levels: &Levels) -> Option<()> {
    let mut left_out = None;
    for (primary, compressible) in levels.primaries.iter().zip(levels.compressible.iter()) {
        let lead = primary >> 24;
        if left_out != Some(lead) {
            if let Some(before) = left_out {
                push_end(key, before, lead)?;
            }
            push_byte(key, lead)?;
        }
        let bytes = primary.to_be_bytes();
        push_bytes(key, bytes.get(5..)?)?;
        left_out = if *compressible { Some(lead) } else { None };
    }
    Some(())
}

/// Appends the bytes of common weights.
fn push_run(key: &mut Vec<u8>, runs: Runs, count: usize, before_higher: bool) -> Option<()> {
    let Some(less) = count.checked_sub(1) else {
        return Some(());
    };
    for _whole in 0..less.checked_div(runs.most)? {
        key.push(runs.middle).ok()?;
    }
    let rest = u8::try_from(less.checked_rem(runs.most)?).ok()?;
    let byte = if before_higher {
        runs.high.wrapping_sub(rest)
    } else {
        runs.low.wrapping_add(rest)
    };
    key.push(byte).ok()
}

/// Appends weights with runs of common ones; the others as they are written.
fn push_weights<W: Fn(u64) -> Bytes>(
    key: &mut Vec<u8>,
    runs: Runs,
    weights: &[u64],
    written: W,
) -> Option<()>
    requires { W.IsAlwaysCallable written }
{
    let mut count: usize = 0;
    for weight in weights {
        if *weight == runs.common {
            count = count.wrapping_add(1);
        } else {
            push_run(key, runs, count, *weight > runs.common)?;
            count = 0;
            let bytes = written(*weight);
            push_bytes(key, &bytes)?;
        }
    }
    push_run(key, runs, count, false)
}

/// The two bytes of a weight.
fn two_bytes(weight: u64) -> Bytes {
    [((weight >> 8) & 0xff) as u8, (weight & 0xff) as u8, 0, 0, 0]
}

/// The bytes of a secondary; the end of a segment is 02.
fn secondary_bytes(weight: u64) -> Bytes {
    if weight == 0 {
        return [2, 0, 0, 0, 0];
    }
    two_bytes(weight)
}

/// The half byte of a case that isn't the lowest.
fn case_half(weight: u64) -> Bytes {
    [13u8.wrapping_add((weight & 3) as u8), 0, 0, 0, 0]
}

/// The half byte of a case that isn't the lowest, with upper case first.
fn upper_case_half(weight: u64) -> Bytes {
    [1u8.wrapping_add((weight & 3) as u8), 0, 0, 0, 0]
}

/// The bytes of a tertiary: one above the common weight is moved up.
fn tertiary_bytes(weight: u64) -> Bytes {
    if weight > TERTIARIES.common {
        return two_bytes(weight.wrapping_add(0xc000));
    }
    two_bytes(weight)
}

/// The bytes of a tertiary with lower case first.
fn lower_tertiary_bytes(weight: u64) -> Bytes {
    if weight > LOWER_TERTIARIES.common {
        return two_bytes(weight.wrapping_add(0x4000));
    }
    two_bytes(weight)
}

/// The bytes of a tertiary with upper case first: one below the common weight is moved down.
fn upper_tertiary_bytes(weight: u64) -> Bytes {
    if weight < UPPER_TERTIARIES.common {
        return two_bytes(weight.wrapping_sub(0x4000));
    }
    two_bytes(weight)
}

/// The bytes of a quaternary that isn't common, or of a primary that is shifted.
fn quaternary_bytes(weight: u64) -> Bytes {
    if weight >= FIRST_QUATERNARY {
        return [0xfcu8.wrapping_add((weight & 3) as u8), 0, 0, 0, 0];
    }
    let [first, second, third, fourth] = ((weight & 0xffff_ffff) as u32).to_be_bytes();
    if first < 0x1b {
        [first, second, third, fourth, 0]
    } else {
        [0x1b, first, second, third, fourth]
    }
}

/// Appends the half bytes of cases in pairs, the upper one first, and 0 after an odd one. Cases that are all the lowest
/// are written with upper case first alone.
fn push_cases(
    alloc: Global,
    key: &mut Vec<u8>,
    case_first: CollationCaseFirst,
    cases: &[u64],
) -> Option<()> {
    let mut halves = Vec::new(alloc);
    if case_first == CollationCaseFirst::Upper {
        push_weights(&mut halves, UPPER_CASES, cases, upper_case_half)?;
    } else if cases.iter().any(|case| *case != CASES.common) {
        push_weights(&mut halves, CASES, cases, case_half)?;
    }
    for pair in halves.as_slice().chunks(2) {
        let lower = pair.get(1).copied().unwrap_or(0);
        key.push((*pair.first()? << 4) | lower).ok()?;
    }
    Some(())
}

/// Appends the tertiaries.
fn push_tertiaries(
    key: &mut Vec<u8>,
    options: &ResolvedCollatorOptions,
    weights: &[u64],
) -> Option<()> {
    match (options.case_level, options.case_first) {
        (CaseLevel::On, _) | (_, CollationCaseFirst::False) => {
            push_weights(key, TERTIARIES, weights, tertiary_bytes)
        }
        (_, CollationCaseFirst::Lower) => {
            push_weights(key, LOWER_TERTIARIES, weights, lower_tertiary_bytes)
        }
        (_, CollationCaseFirst::Upper) => {
            push_weights(key, UPPER_TERTIARIES, weights, upper_tertiary_bytes)
        }
    }
}

/// Appends the quaternaries; where nothing can be shifted and all are common, none.
fn push_quaternaries(
    key: &mut Vec<u8>,
    alternate_handling: AlternateHandling,
    weights: &[u64],
) -> Option<()> {
    let all_are_common = weights.iter().all(|weight| *weight == FIRST_QUATERNARY);
    if alternate_handling == AlternateHandling::NonIgnorable && all_are_common {
        return Some(());
    }
    push_weights(key, QUATERNARIES, weights, quaternary_bytes)
}

/// A whole number of tails: differences are counted from here, so that none is below 0.
const ZERO: u64 = TAILS * TAILS * TAILS;

/// The number of bytes that may stand after a lead byte.
const TAILS: u64 = 253;

/// Appends the tail of an index: 0 is the last.
fn push_tail(key: &mut Vec<u8>, number: u64) -> Option<()> {
    push_byte(key, 3 + number % TAILS)
}

/// Appends a difference that takes two bytes, by the lead byte of 0.
fn push_two(key: &mut Vec<u8>, lead: u64, counted: u64) -> Option<()> {
    push_byte(
        key,
        lead.wrapping_add(counted / TAILS)
            .wrapping_sub(ZERO / TAILS),
    )?;
    push_tail(key, counted)
}

/// Appends a difference that takes three bytes, by the lead byte of 0.
fn push_three(key: &mut Vec<u8>, lead: u64, counted: u64) -> Option<()> {
    let upper = counted / TAILS / TAILS;
    push_byte(key, lead.wrapping_add(upper).wrapping_sub(TAILS))?;
    push_tail(key, counted / TAILS)?;
    push_tail(key, counted)
}

/// Appends a difference that takes four bytes.
fn push_four(key: &mut Vec<u8>, lead: u64, counted: u64) -> Option<()> {
    push_byte(key, lead)?;
    push_tail(key, counted / TAILS / TAILS)?;
    push_tail(key, counted / TAILS)?;
    push_tail(key, counted)
}

/// Appends a difference, counted from ZERO on.
fn push_difference(key: &mut Vec<u8>, counted: u64) -> Option<()> {
    if counted > ZERO + 192_785 {
        push_four(key, 255, counted)
    } else if counted > ZERO + 10_667 {
        push_three(key, 252, counted)
    } else if counted > ZERO + 80 {
        push_two(key, 210, counted)
    } else if counted >= ZERO - 80 {
        push_byte(key, 129u64.wrapping_add(counted).wrapping_sub(ZERO))
    } else if counted >= ZERO - 10_668 {
        push_two(key, 49, counted)
    } else if counted >= ZERO - 192_786 {
        push_three(key, 7, counted)
    } else {
        push_four(key, 3, counted)
    }
}

/// What the character after another one is counted from.
fn counted_from(last: u64) -> u64 {
    if 0x4e00 <= last && last <= 0x9fff {
        return 0x9fff - 10_667;
    }
    (last & !0x7f).wrapping_add(80)
}

/// Appends the characters.
fn push_characters(key: &mut Vec<u8>, weights: &[u64]) -> Option<()> {
    let mut last = 0;
    for weight in weights {
        match weight.checked_sub(1) {
            Some(c) => {
                let counted = ZERO.wrapping_add(c).wrapping_sub(counted_from(last));
                push_difference(key, counted)?;
                last = c;
            }
            None => {
                key.push(2).ok()?;
                last = 0;
            }
        }
    }
    Some(())
}

/// Appends the levels after the primaries that stand at a strength.
fn push_further(alloc: Global, key: &mut Vec<u8>, levels: &Levels) -> Option<()> {
    let options = levels.options;
    if options.strength.is_at_least(Strength::Secondary) {
        key.push(1).ok()?;
        push_weights(key, SECONDARIES, &levels.secondaries, secondary_bytes)?;
        key.push(1).ok()?;
    }
    if options.case_level == CaseLevel::On {
        key.push(1).ok()?;
        push_cases(alloc, key, options.case_first, &levels.cases)?;
    }
    if options.strength.is_at_least(Strength::Tertiary) {
        key.push(1).ok()?;
        push_tertiaries(key, &options, &levels.tertiaries)?;
        key.push(1).ok()?;
    }
    if options.strength.is_at_least(Strength::Quaternary) {
        key.push(1).ok()?;
        push_quaternaries(key, options.alternate_handling, &levels.quaternaries)?;
        key.push(1).ok()?;
    }
    if options.strength.is_at_least(Strength::Identical) {
        key.push(1).ok()?;
        push_characters(key, &levels.characters)?;
    }
    Some(())
}

/// The sort key of a text with these levels, under their options.
pub fn key_of_levels(alloc: Global, levels: &Levels) -> Option<Vec<u8>> {
    let mut key = Vec::new(alloc);
    push_primaries(&mut key, levels)?;
    push_further(alloc, &mut key, levels)?;
    Some(key)
}

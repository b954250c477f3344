//! Sets of code points: 10,000 ranges added in rising or in random order, or a set of them asked 10
//! million times.
ghost use Rattle.std.specs.Prelude.{◌<◌};

use icu_collections_sets::codepointinvlist::{
    CodePointInversionList, CodePointInversionListBuilder,
};
use std::alloc::{AllocError, Global};

/// How many ranges are added.
const RANGES: u32 = 10_000;

/// How often the set is asked.
const QUESTIONS: u32 = 10_000_000;

/// In which order the ranges are added.
#[derive(Clone, Copy)]
enum Order {
    Rising,
    Random,
}

impl Order {
    /// The index of the range that is added so many ranges in.
    fn index(self, count: u32) -> u32
        requires { count < 10000 }
        ensures { result < 10000 }
    {
        match self {
            Order::Rising => count,
            Order::Random => count * 7919 % RANGES,
        }
    }
}

/// The set of 50 code points in each 100.
fn build(alloc: Global, order: Order) -> Result<CodePointInversionList<'static>, AllocError> {
    let mut builder = CodePointInversionListBuilder::new(alloc);
    for count in 0..RANGES {
        let first = 100 * order.index(count);
        builder.add_range32(first..=first + 49)?;
    }
    builder.build()
}

/// How many of code points all over the code space the set holds.
fn count_held(set: &CodePointInversionList<'_>) -> u32 {
    let mut held: u32 = 0;
    for question in 0..QUESTIONS {
        if set.contains32(question.wrapping_mul(0x9E37_79B1) % 0x11_0000) {
            held = held.saturating_add(1);
        }
    }
    held
}

/// How many ranges the set has whose ranges were added in this order.
fn ranges(alloc: Global, order: Order) -> Result<usize, AllocError> {
    Ok(build(alloc, order)?.get_range_count())
}

/// The line of a task with sets, if it is one.
pub fn line_of(alloc: Global, task: &str) -> Result<Option<String>, AllocError> {
    let line = match task {
        "add_rising" => format!(in alloc; "{} ranges", ranges(alloc, Order::Rising)?)?,
        "add_random" => format!(in alloc; "{} ranges", ranges(alloc, Order::Random)?)?,
        "contains" => {
            let held = count_held(&build(alloc, Order::Rising)?);
            format!(in alloc; "{held} of {QUESTIONS} held")?
        }
        _ => return Ok(None),
    };
    Ok(Some(line))
}

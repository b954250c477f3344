//! Unit tries: random keys of 1 to 12 units, the same each time, are written as a unit trie and all
//! followed, in each round.
ghost use Rattle.std.specs.Prelude.{◌<◌};

use icu_collections::char16trie::{Char16Trie, TrieResult, WriteUnitsError, write_units};
use icu_collections_sets::packed_vector::PackedVec;
use std::alloc::{AllocError, Global};

/// Random numbers, the same each time.
#[derive(Drop)]
struct Random {
    state: u64,
}

impl Random {
    /// The next number below a bound.
    fn below(&mut self, bound: u32) -> u32
        requires { 0 < bound }
        ensures { result < bound }
    {
        self.state = self
            .state
            .wrapping_mul(6_364_136_223_846_793_005)
            .wrapping_add(1_442_695_040_888_963_407);
        (self.state >> 33) as u32 % bound
    }
}

/// Random keys up to the count, sorted, each once.
fn random_keys(alloc: Global, count: u32) -> Result<Vec<Vec<u16>>, AllocError> {
    let mut random = Random { state: 1 };
    let mut keys = Vec::new(alloc);
    for _ in 0..count {
        let mut key = Vec::new(alloc);
        key.push(random.below(0x250) as u16)?;
        for _ in 0..random.below(12) {
            key.push(random.below(0x250) as u16)?;
        }
        keys.push(key)?;
    }
    keys.sort()?;
    keys.dedup();
    Ok(keys)
}

/// The keys, each with its index as its value.
fn with_values(alloc: Global, keys: &[Vec<u16>]) -> Result<Vec<(&[u16], i32)>, AllocError> {
    let mut pairs = Vec::new(alloc);
    for (value, key) in (0i32..i32::MAX).zip(keys) {
        pairs.push((key.as_slice(), value))?;
    }
    Ok(pairs)
}

/// What a cursor says of all the units of a key.
fn answer_to(trie: &Char16Trie<'_>, key: &[u16]) -> TrieResult {
    let mut cursor = trie.iter();
    let mut answer = TrieResult::NoMatch;
    for unit in key {
        answer = cursor.next16(*unit);
    }
    answer
}

/// For how many pairs a cursor gives the value.
fn found(trie: &Char16Trie<'_>, pairs: &[(&[u16], i32)]) -> usize {
    pairs
        .iter()
        .filter(|(key, value)| {
            let answer = answer_to(trie, key);
            answer == TrieResult::FinalValue(*value) || answer == TrieResult::Intermediate(*value)
        })
        .count()
}

/// How many units are written, and for how many pairs a cursor gives the value, at least, each time.
fn write_and_follow(
    alloc: Global,
    pairs: &[(&[u16], i32)],
    follows: u32,
) -> Result<(usize, usize), WriteUnitsError> {
    let units = write_units(alloc, pairs)?;
    let written = units.len();
    let trie = Char16Trie::new(PackedVec::from_slice(alloc, &units)?);
    let mut least = pairs.len();
    for _ in 0..follows {
        least = least.min(found(&trie, pairs));
    }
    Ok((written, least))
}

/// What the last of the rounds comes to.
fn rounds_of(
    alloc: Global,
    pairs: &[(&[u16], i32)],
    rounds: u32,
    follows: u32,
) -> Result<(usize, usize), WriteUnitsError> {
    let mut counts = (0, 0);
    for _ in 0..rounds {
        counts = write_and_follow(alloc, pairs, follows)?;
    }
    Ok(counts)
}

/// The line for so many keys and rounds, where all are followed so often in each.
fn line_of_rounds(
    alloc: Global,
    count: u32,
    rounds: u32,
    follows: u32,
) -> Result<String, AllocError> {
    let keys = random_keys(alloc, count)?;
    let pairs = with_values(alloc, &keys)?;
    match rounds_of(alloc, &pairs, rounds, follows) {
        Ok((written, found)) => {
            format!(in alloc; "{} keys in {written} units, {found} found", keys.len())
        }
        Err(error) => format!(in alloc; "{error}"),
    }
}

/// The line of a task with unit tries: how many keys, rounds, and times all are followed in each, once
/// if it is not given. None without the first two.
pub fn line_of(alloc: Global, numbers: &[u32]) -> Result<Option<String>, AllocError> {
    let Some(count) = numbers.first().copied() else {
        return Ok(None);
    };
    let Some(rounds) = numbers.get(1).copied() else {
        return Ok(None);
    };
    let follows = numbers.get(2).copied().unwrap_or(1);
    Ok(Some(line_of_rounds(alloc, count, rounds, follows)?))
}

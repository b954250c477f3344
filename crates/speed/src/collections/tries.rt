//! Code point tries: one of 12,000 different small blocks is built, or one of a single written range;
//! all code points of one of either type are read 100 times, by a typed trie too, or as often code
//! points at random, up to FFFF (hex) or any; or the ranges of a map of one range are gone over.
ghost use Rattle.std.specs.Prelude.{◌≤◌, ◌<◌};

use icu_collections::codepointtrie::{
    CodePointTrie, CodePointTrieBuildError, CodePointTrieBuilder, FastCodePointTrie,
    SmallCodePointTrie, TrieType, TypedCodePointTrie,
};
use std::alloc::{AllocError, Global};

/// How many small blocks have a value of their own at most: with that of all others 12,000 are
/// different.
const BLOCKS: u32 = 11_999;

/// How often all code points are read.
const ROUNDS: u32 = 100;

/// How many code points are read at random.
const READS: u32 = 111_411_200;

/// By what the small blocks of a map are told apart.
#[derive(Clone, Copy)]
enum Blocks {
    /// By their first values.
    First,
    /// By their last values.
    Last,
    /// Two blocks that alternate.
    Two,
}

/// The code point of the small block with this number that has a value, and the value.
fn write_of(blocks: Blocks, number: u32) -> (u32, u32)
    requires { number < 11999 }
{
    let start = 0x1_0000 + 0x10 * number;
    match blocks {
        Blocks::First => (start, number + 1),
        Blocks::Last => (start + 0xf, number + 1),
        Blocks::Two => (start, number % 2 + 1),
    }
}

/// The trie of a map with so many written small blocks.
fn build(
    alloc: Global,
    trie_type: TrieType,
    blocks: Blocks,
    count: u32,
) -> Result<CodePointTrie<'static, u32>, CodePointTrieBuildError>
    requires { count ≤ 11999 }
{
    let mut map = CodePointTrieBuilder::new(alloc, 0u32, 0, trie_type)?;
    for number in 0..count {
        let (code_point, value) = write_of(blocks, number);
        let _ = map.set_value(code_point, value);
    }
    map.build()
}

/// The trie of a map whose blocks differ in their first values.
fn build_first(
    alloc: Global,
    trie_type: TrieType,
    count: u32,
) -> Result<CodePointTrie<'static, u32>, CodePointTrieBuildError>
    requires { count ≤ 11999 }
{
    build(alloc, trie_type, Blocks::First, count)
}

/// The sum of the values of the first small blocks with a value.
fn sum_of_blocks(trie: &CodePointTrie<'_, u32>) -> u32 {
    let mut sum: u32 = 0;
    for code_point in 0x1_0000..0x4_0000u32 {
        sum = sum.wrapping_add(trie.get32(code_point));
    }
    sum
}

/// The sum of a value of as many tries as asked for, each of a map with one written range that ends
/// before the last code point.
fn build_ranges(
    alloc: Global,
    trie_type: TrieType,
    count: u32,
) -> Result<u32, CodePointTrieBuildError> {
    let mut sum: u32 = 0;
    for _number in 0..count {
        let mut map = CodePointTrieBuilder::new(alloc, 0u32, 0, trie_type)?;
        let _ = map.set_range_value(0xF_0000..=0x10_FFFD, 1);
        let trie = map.build()?;
        sum = sum.wrapping_add(trie.get32(0xF_8000));
    }
    Ok(sum)
}

/// The sum of the values of all code points, round by round.
fn sum_of_rounds(trie: &CodePointTrie<'_, u32>) -> u32 {
    let mut sum: u32 = 0;
    for _round in 0..ROUNDS {
        for code_point in 0..0x11_0000u32 {
            sum = sum.wrapping_add(trie.get32(code_point));
        }
    }
    sum
}

/// The same for a trie whose type is known.
fn sum_of_typed<T: TypedCodePointTrie<u32>>(trie: &T) -> u32 {
    let mut sum: u32 = 0;
    for _round in 0..ROUNDS {
        for code_point in 0..0x11_0000u32 {
            sum = sum.wrapping_add(trie.get32(code_point));
        }
    }
    sum
}

/// The sum of the values of code points at random below a limit.
fn sum_at_random(trie: &CodePointTrie<'_, u32>, limit: u32) -> u32 {
    let mut sum: u32 = 0;
    let mut random: u32 = 1;
    for _read in 0..READS {
        random = random.wrapping_mul(0x0019_660D).wrapping_add(0x3C6E_F35F);
        let code_point = ((random as u64 * limit as u64) >> 32) as u32;
        sum = sum.wrapping_add(trie.get32(code_point));
    }
    sum
}

/// How many ranges so many walks over those of a map of one range give.
fn count_ranges(alloc: Global, walks: u32) -> Result<u32, CodePointTrieBuildError> {
    let mut map = CodePointTrieBuilder::new(alloc, 0u32, 0, TrieType::Fast)?;
    let _ = map.set_range_value(0x400..=0x1_FFFF, 1);
    let trie = map.build()?;
    let mut count: u32 = 0;
    for _walk in 0..walks {
        for _range in trie.iter_ranges() {
            count = count.saturating_add(1);
        }
    }
    Ok(count)
}

/// The number that a task prints. The count is that of blocks, of tries or of walks.
fn number_of(alloc: Global, task: &str, count: u32) -> Result<u32, CodePointTrieBuildError> {
    let blocks = count.min(BLOCKS);
    Ok(match task {
        "last" => sum_of_blocks(&build(alloc, TrieType::Fast, Blocks::Last, blocks)?),
        "two" => sum_of_blocks(&build(alloc, TrieType::Fast, Blocks::Two, blocks)?),
        "range" => build_ranges(alloc, TrieType::Fast, count)?,
        "ranges" => count_ranges(alloc, count)?,
        "low" => sum_at_random(&build_first(alloc, TrieType::Fast, blocks)?, 0x1_0000),
        "random" => sum_at_random(&build_first(alloc, TrieType::Fast, blocks)?, 0x11_0000),
        "fast" => sum_of_rounds(&build_first(alloc, TrieType::Fast, blocks)?),
        "small" => sum_of_rounds(&build_first(alloc, TrieType::Small, blocks)?),
        "typed_fast" => {
            let trie = build_first(alloc, TrieType::Fast, blocks)?;
            FastCodePointTrie::try_from(trie).map_or(0, |trie| sum_of_typed(&trie))
        }
        "typed_small" => {
            let trie = build_first(alloc, TrieType::Small, blocks)?;
            SmallCodePointTrie::try_from(trie).map_or(0, |trie| sum_of_typed(&trie))
        }
        _ => sum_of_blocks(&build_first(alloc, TrieType::Fast, blocks)?),
    })
}

/// The line of a task with code point tries.
pub fn line_of(alloc: Global, task: &str, numbers: &[u32]) -> Result<String, AllocError> {
    let count = numbers.first().copied().unwrap_or(BLOCKS);
    match number_of(alloc, task, count) {
        Ok(number) => format!(in alloc; "{number}"),
        Err(error) => format!(in alloc; "{error:?}"),
    }
}

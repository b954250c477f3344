//! Blocks of values that are kept once each.
ghost use Rattle.std.specs.Prelude.{◌≡◌, ℕ, ◌+◌, ◌*◌, ◌<◌, ◌≤◌, ◌⊎◌, map, length, slice_index, IfOk, IfErr, IfSome};
ghost use Rattle.icu_codepointtrie.specs.Blocks.{AreKept, AreSlots, IsKeptAt, HasMore, FindsKept};
ghost use Rattle.icu_codepointtrie.specs.declared.builder.compaction.CodePointTrieBuildError.TheVariants.{TooLarge, Memory};

use super::super::value::TrieValue;
use super::blocks::{Block, are_alike, block_of};
use std::alloc::{AllocError, AllocFailed, Global};
use std::collections::HashMap;
use thiserror::Error;

/// Why no trie is built.
#[derive(Clone, Copy, Debug, PartialEq, Eq, Error)]
pub enum CodePointTrieBuildError {
    /// The map has more than 800 different aligned blocks of 512 code points, or more than 12,000
    /// of 16 from U+10000 on.
    #[error("too many different blocks")]
    TooLarge,
    /// Memory was refused.
    #[error("out of memory")]
    Memory,
}

impl From<AllocError> for CodePointTrieBuildError {
    ghost use Rattle.std.specs.Prelude.{◌≡◌};
    ghost use Rattle.icu_codepointtrie.specs.declared.builder.compaction.CodePointTrieBuildError.TheVariants.{Memory};

    ghost from_gives = { λ _ error. error ≡ Memory };

    fn from(_: AllocError) -> CodePointTrieBuildError {
        CodePointTrieBuildError::Memory
    }
}

/// The blocks of one width from a first one on, each kept once.
#[derive(Drop)]
pub(super) struct Compaction {
    /// For each block the slot among the kept ones of the one that it is like.
    pub(super) slots: Vec<usize>,
    /// The numbers of the blocks that are kept.
    pub(super) kept: Vec<usize>,
}

/// The slot of the kept block that is like this one, which is kept if there is none. The map finds
/// the kept blocks by their values.
fn find_or_keep<T: TrieValue>(
    alloc: Global,
    values: &[T],
    width: usize,
    first: usize,
    kept: &mut Vec<usize>,
    found: &mut HashMap<Block, usize>,
    number: usize,
) -> Result<usize, AllocError>
    requires first { first ≤ number }
    requires number { number * width + width ≤ length values.now }
    requires kept { AreKept width (map T.number values.now) first number kept.old.items }
    requires found { FindsKept width (map T.number values.now) kept.old.items found.old }
    ensures kept { IfOk result (λ _. AreKept width (map T.number values.now) first (number + 1) kept.new.items) }
    ensures found { IfOk result (λ _. FindsKept width (map T.number values.now) kept.new.items found.new) }
    ensures slot { IfOk result (IsKeptAt width (map T.number values.now) number kept.new.items) }
    ensures grown { IfOk result (λ _. (i : ℕ) → i < length kept.old.items → (i < length kept.new.items) × (slice_index kept.new.items i ≡ slice_index kept.old.items i)) }
{
    let block = block_of(alloc, values, width, number)?;
    if let Some(slot) = found.get(&block).copied() {
        return Ok(slot);
    }
    let slot = kept.len();
    kept.push(number)?;
    found.insert(block, slot)?;
    Ok(slot)
}

/// The slot of the kept block that is like this one, which is kept if there is none. The slot of
/// the block before is tried first.
fn keep<T: TrieValue>(
    alloc: Global,
    values: &[T],
    width: usize,
    first: usize,
    kept: &mut Vec<usize>,
    found: &mut HashMap<Block, usize>,
    last: Option<usize>,
    number: usize,
) -> Result<usize, AllocError>
    requires last { IfSome last (λ slot. slot < length kept.old.items) }
    requires first { first ≤ number }
    requires number { number * width + width ≤ length values.now }
    requires kept { AreKept width (map T.number values.now) first number kept.old.items }
    requires found { FindsKept width (map T.number values.now) kept.old.items found.old }
    ensures kept { IfOk result (λ _. AreKept width (map T.number values.now) first (number + 1) kept.new.items) }
    ensures found { IfOk result (λ _. FindsKept width (map T.number values.now) kept.new.items found.new) }
    ensures slot { IfOk result (IsKeptAt width (map T.number values.now) number kept.new.items) }
    ensures grown { IfOk result (λ _. (i : ℕ) → i < length kept.old.items → (i < length kept.new.items) × (slice_index kept.new.items i ≡ slice_index kept.old.items i)) }
{
    if let Some(slot) = last {
        if are_alike(values, width, kept[slot], number) {
            return Ok(slot);
        }
    }
    find_or_keep(alloc, values, width, first, kept, found, number)
}

impl Compaction {
    /// Keeps each of the blocks from the first to before the end once. Refused as `TooLarge` where
    /// more than the limit are different, or as `Memory`.
    pub(super) fn new<T: TrieValue>(
        alloc: Global,
        values: &[T],
        width: usize,
        first: usize,
        end: usize,
        limit: usize,
    ) -> Result<Compaction, CodePointTrieBuildError>
        requires order { first ≤ end }
        requires whole { (b : ℕ) → b < end → b * width + width ≤ length values.now }
        ensures kept { IfOk result (λ blocks. AreKept width (map T.number values.now) first end blocks.kept.items) }
        ensures slots { IfOk result (λ blocks. AreSlots width (map T.number values.now) first end blocks.slots.items blocks.kept.items) }
        ensures few { IfOk result (λ blocks. length blocks.kept.items ≤ limit) }
        ensures refused { IfErr result (λ e. (e ≡ Memory) ⊎ ((e ≡ TooLarge) × HasMore width (map T.number values.now) first end limit)) }
    {
        let mut slots = Vec::new(alloc);
        let mut kept = Vec::new(alloc);
        let mut found = HashMap::new(alloc);
        for number in first..end {
            let last = slots.last().copied();
            let slot = keep(
                alloc, values, width, first, &mut kept, &mut found, last, number,
            )?;
            if kept.len() > limit {
                return Err(CodePointTrieBuildError::TooLarge);
            }
            if slots.push(slot).is_err() {
                return Err(CodePointTrieBuildError::Memory);
            }
        }
        Ok(Compaction { slots, kept })
    }
}

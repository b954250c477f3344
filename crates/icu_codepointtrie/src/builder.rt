//! The code point map from which a trie is to be built.
ghost use Rattle.std.specs.Prelude.{◌≡◌, ℕ, ◌<◌, ◌≤◌, ◌⊎◌, ◌==◌, ◌&&◌, nat_le, nat_lt, length, slice_index_or, if◌then◌else◌, ◌+◌, IfOk, OnOk, MatchResult};
ghost use Rattle.std.specs.Range.{range_inclusive_start, range_inclusive_end};
ghost use Rattle.icu_codepointtrie.specs.Blocks.{different_blocks};
ghost use Rattle.icu_codepointtrie.specs.CodePointMaps.{CodePointMap, mapped, IsMap, IsWritten, covers};
ghost use Rattle.icu_codepointtrie.specs.declared.builder.CodePointTrieBuilderError.TheVariants.{OutOfRange};

mod blocks;
mod build;
mod cells;
mod compaction;
mod layout;
mod thirds;

use super::trie::TrieType;
use super::value::TrieValue;
pub use compaction::CodePointTrieBuildError;
use std::alloc::{AllocError, Global};
use std::marker::Model;
use std::ops::RangeInclusive;
use thiserror::Error;

/// Why a write is refused.
#[derive(Clone, Copy, Debug, PartialEq, Eq, Error)]
pub enum CodePointTrieBuilderError {
    /// The write goes past 10FFFF (hex).
    #[error("code point past 10FFFF")]
    OutOfRange,
}

/// A code point map in the making: a default, overwritten by the writes that are accepted.
#[derive(Drop)]
pub struct CodePointTrieBuilder<T: TrieValue> {
    default_value: T,
    error_value: T,
    trie_type: TrieType,
    values: Vec<T>,
}

impl<T: TrieValue> Model for CodePointTrieBuilder<T> {
    ghost use Rattle.icu_codepointtrie.specs.CodePointMaps.{CodePointMap, IsMap};

    ghost Value = { CodePointMap T };

    ghost view = { λ inside. record { default = inside.default_value; error = inside.error_value; trie_type = inside.trie_type; values = inside.values.items } };

    ghost invariant = { λ inside. IsMap (record { default = inside.default_value; error = inside.error_value; trie_type = inside.trie_type; values = inside.values.items }) };
}

impl<T: TrieValue> CodePointTrieBuilder<T> {
    /// The map of all code points to the default, for a trie of this type whose value past 10FFFF
    /// (hex) is `error_value`. It has at most one different block of a width. Each write for a code
    /// point makes at most one more, and each for a range at most three, so few writes keep a map
    /// within what `build` takes. The only error is `AllocError`.
    pub fn new(
        alloc: Global,
        default_value: T,
        error_value: T,
        trie_type: TrieType,
    ) -> Result<CodePointTrieBuilder<T>, AllocError>
        ensures all { IfOk result (λ map. length map.values ≡ 0x110000) }
        ensures values { IfOk result (λ map. (c : ℕ) → mapped map c ≡ default_value) }
        ensures blocks { IfOk result (λ map. (width : ℕ) → different_blocks T.number width map.values ≤ 1) }
        ensures kept { IfOk result (λ map. (map.default ≡ default_value) × (map.error ≡ error_value) × (map.trie_type ≡ trie_type)) }
    {
        let mut values = Vec::new(alloc);
        values.resize(0x11_0000, default_value)?;
        Ok(CodePointTrieBuilder {
            default_value,
            error_value,
            trie_type,
            values,
        })
    }

    /// Whether the value is the default.
    fn is_default(&self, value: T) -> bool
        ensures { result ≡ (T.number value == T.number self.now.default) }
    {
        value.to_u32() == self.default_value.to_u32()
    }

    /// Gives the code point the value, unless it is the default. Refused as `OutOfRange` past 10FFFF
    /// (hex); then nothing changes.
    pub fn set_value(&mut self, code_point: u32, value: T) -> Result<(), CodePointTrieBuilderError>
        ensures written { MatchResult result
            (λ _. IsWritten T.number self.old (λ c. c == code_point) value self.new)
            (λ _. self.new ≡ self.old) }
        ensures blocks { OnOk result ((width : ℕ) → different_blocks T.number width self.new.values ≤ different_blocks T.number width self.old.values + 1) }
        ensures refused { MatchResult result (λ _. code_point ≤ 0x10FFFF) (λ e. (e ≡ OutOfRange) × (0x10FFFF < code_point)) }
    {
        if code_point > 0x10_FFFF {
            return Err(CodePointTrieBuilderError::OutOfRange);
        }
        if !self.is_default(value) {
            self.values[code_point as usize] = value;
        }
        Ok(())
    }

    /// Gives each code point of the range the value, unless it is the default. Refused as
    /// `OutOfRange` where the range begins or ends past 10FFFF (hex), also where it is empty; then
    /// nothing changes. An empty or exhausted range covers no code point.
    pub fn set_range_value(
        &mut self,
        range: RangeInclusive<u32>,
        value: T,
    ) -> Result<(), CodePointTrieBuilderError>
        ensures written { MatchResult result
            (λ _. IsWritten T.number self.old (covers range) value self.new)
            (λ _. self.new ≡ self.old) }
        ensures blocks { OnOk result ((width : ℕ) →
            different_blocks T.number width self.new.values ≤ different_blocks T.number width self.old.values + 3) }
        ensures refused { MatchResult result
            (λ _. (range_inclusive_start range ≤ 0x10FFFF) × (range_inclusive_end range ≤ 0x10FFFF))
            (λ e. (e ≡ OutOfRange) × ((0x10FFFF < range_inclusive_start range) ⊎ (0x10FFFF < range_inclusive_end range))) }
    {
        if *range.start() > 0x10_FFFF || *range.end() > 0x10_FFFF {
            return Err(CodePointTrieBuilderError::OutOfRange);
        }
        if !range.is_empty() && !self.is_default(value) {
            let first = *range.start() as usize;
            let end = *range.end() as usize + 1;
            overwrite(self.values.as_mut_slice(), first, end, value);
        }
        Ok(())
    }
}

/// Overwrites the values at the slots from the first to before the end.
fn overwrite<T: TrieValue>(values: &mut [T], first: usize, end: usize, value: T)
    requires order { first ≤ end }
    requires end { end ≤ length values.old }
    ensures length { length values.new ≡ length values.old }
    ensures values { (c : ℕ) (default : T) → c < length values.old → slice_index_or values.new c default ≡ (if nat_le first c && nat_lt c end then value else slice_index_or values.old c default) }
    ensures blocks { (width : ℕ) → different_blocks T.number width values.new ≤ different_blocks T.number width values.old + 3 }
{
    for slot in first..end {
        values[slot] = value;
    }
}

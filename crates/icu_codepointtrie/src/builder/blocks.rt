//! Blocks of values, told apart by the values' numbers.
ghost use Rattle.std.specs.Prelude.{◌≡◌, ℕ, ◌+◌, ◌*◌, ◌<◌, ◌≤◌, ◌↔◌, IsTrue, map, length, slice_index, IfOk};
ghost use Rattle.std.specs.Cmp.{partial_equiv_from_equiv, on_equiv};
ghost use Rattle.std.specs.Cmp.Lexicographic.{bytes_decides, nat_list_eq_equiv};
ghost use Rattle.std.specs.Hash as fed;
ghost use mathlib.Core.Path.{ap};
ghost use Rattle.icu_codepointtrie.specs.Blocks.{block, has_same_numbers};

use super::super::value::TrieValue;
use std::alloc::{AllocError, Global};
use std::hash::{Hash, Hasher};

/// The numbers of a block of values. Blocks are equal where all of their numbers are.
#[derive(Drop)]
pub(super) struct Block {
    numbers: Vec<u32>,
}

impl PartialEq for Block {
    ghost eq = { has_same_numbers };

    ghost laws = { partial_equiv_from_equiv (on_equiv (λ b. b.numbers.items) nat_list_eq_equiv) };

    fn eq(&self, other: &Block) -> bool {
        self.numbers == other.numbers
    }
}

impl Eq for Block {
    ghost laws = { on_equiv (λ b. b.numbers.items) nat_list_eq_equiv };
}

impl Hash for Block {
    ghost hash_input = { λ b. fed.slice fed.u32 b.numbers.items };

    ghost respects_eq = { λ x y h. ap (λ items. fed.slice fed.u32 items) ((bytes_decides x.numbers.items y.numbers.items).0 h) };

    fn hash<H: Hasher>(&self, state: &mut H) {
        self.numbers.hash(state);
    }
}

/// The number of the value at a slot.
pub(super) fn number_at<T: TrieValue>(values: &[T], slot: usize) -> u32
    requires { slot < length values.now }
    ensures { result ≡ slice_index (map T.number values.now) slot }
{
    values[slot].to_u32()
}

/// Whether two blocks are alike. All values are always compared, which takes few instructions.
pub(super) fn are_alike<T: TrieValue>(values: &[T], width: usize, one: usize, other: usize) -> bool
    requires one { one * width + width ≤ length values.now }
    requires other { other * width + width ≤ length values.now }
    ensures { IsTrue result ↔ (block width (map T.number values.now) one ≡ block width (map T.number values.now) other) }
{
    let mut alike = true;
    for slot in 0..width {
        let first = number_at(values, one * width + slot);
        alike &= first == number_at(values, other * width + slot);
    }
    alike
}

/// Whether each value of a block has this number.
pub(super) fn has_only<T: TrieValue>(values: &[T], width: usize, number: usize, value: u32) -> bool
    requires { number * width + width ≤ length values.now }
    ensures { IsTrue result ↔ ((i : ℕ) → i < width → slice_index (map T.number values.now) (number * width + i) ≡ value) }
{
    let mut alike = true;
    for slot in 0..width {
        alike &= number_at(values, number * width + slot) == value;
    }
    alike
}

/// The numbers of a block. The only error is `AllocError`.
pub(super) fn block_of<T: TrieValue>(
    alloc: Global,
    values: &[T],
    width: usize,
    number: usize,
) -> Result<Block, AllocError>
    requires { number * width + width ≤ length values.now }
    ensures { IfOk result (λ b. b.numbers.items ≡ block width (map T.number values.now) number) }
{
    let first = number * width;
    let mut numbers = Vec::new(alloc);
    for value in &values[first..first + width] {
        numbers.push(value.to_u32())?;
    }
    Ok(Block { numbers })
}

//! Texts that stand after a character.

ghost use Rattle.std.specs.Prelude.{◌≡◌, ◌^◌, ◌<◌, ◌∷◌, ◌↔◌, IsTrue, IfOk};
ghost use Rattle.icu_normalizer_core.specs.BorrowedMeaning.{borrowed_meaning};
ghost use Rattle.icu_collator_types.specs.declared.elements.word_tags.Tag.TheVariants.{Contraction};
ghost use Rattle.icu_collator_types.specs.ElementWords.{has_tag};
ghost use Rattle.icu_collator_core.specs.ContextFaults.{entry_in, is_short};
ghost use Rattle.icu_collator_core.specs.ContextRules.{KeysPass, has_marks_last, is_recorded_by, is_suffix};
ghost use Rattle.icu_collator_core.specs.Pools.{index_of, trie_of, unprefixed_word};
ghost use Rattle.icu_collator_core.specs.TableMeaning.{pools_of};

use super::records::are_recorded_shorter;
use super::walks::{TextTest, keys_pass};
use crate::tables::CollationData;
use icu_normalizer_core::canonical::CanonicalBorrowed;
use icu_packed_vector::PackedVec;
use std::alloc::{AllocError, Global};

/// The test for texts of at most seven characters, which counts up to eight.
#[derive(Drop)]
struct ShortTest;

impl TextTest for ShortTest {
    ghost use Rattle.icu_collator_core.specs.TextFolds.{count_with, is_short_count};

    type Folded = usize;

    ghost onward = { λ _ count c. count_with count c };

    ghost test = { λ _ count. is_short_count count };

    fn fold_character(&self, count: usize, _c: char) -> usize {
        if count <= 7 { count + 1 } else { count }
    }

    fn passes(&self, count: usize) -> bool {
        count <= 7
    }

    fn is_same(&self, one: usize, other: usize) -> bool {
        one == other
    }
}

/// Whether all keys of the context at an index have at most seven characters. Fails only if memory is refused.
fn are_short(alloc: Global, contexts: &PackedVec<'_, u16>, index: usize) -> Result<bool, AllocError>
    requires { index < 2 ^ 32 }
    ensures { IfOk result (λ all. IsTrue all ↔ KeysPass is_short (trie_of contexts.now index)) }
{
    let test = ShortTest;
    let all = keys_pass(alloc, contexts, index, &test, 0)?;
    Ok(all)
}

/// In which order starters and marks stand.
#[derive(Clone, Copy, Debug, PartialEq, Eq)]
pub(super) enum Order {
    /// There are starters alone.
    Starters,
    /// A mark stands last, and marks alone stand after a mark.
    Marks,
    /// A starter stands after a mark.
    Mixed,
}

/// The test for texts in which only marks stand after a mark.
#[derive(Drop)]
struct OrderTest<'d> {
    canonical: CanonicalBorrowed<'d>,
}

impl<'d> TextTest for OrderTest<'d> {
    ghost use Rattle.icu_normalizer_core.specs.BorrowedMeaning.{borrowed_meaning};
    ghost use Rattle.icu_collator_core.specs.TextFolds.{is_ordered, order_with};

    type Folded = Order;

    ghost onward = { λ orders. order_with (borrowed_meaning orders.canonical) };

    ghost test = { λ _ order. is_ordered order };

    fn fold_character(&self, order: Order, c: char) -> Order {
        let is_starter = self.canonical.is_starter(c);
        match order {
            Order::Starters => if is_starter {
                Order::Starters
            } else {
                Order::Marks
            },
            Order::Marks => if is_starter {
                Order::Mixed
            } else {
                Order::Marks
            },
            Order::Mixed => Order::Mixed,
        }
    }

    fn passes(&self, order: Order) -> bool {
        match order {
            Order::Starters | Order::Marks => true,
            Order::Mixed => false,
        }
    }

    fn is_same(&self, one: Order, other: Order) -> bool {
        match (one, other) {
            (Order::Starters, Order::Starters) => true,
            (Order::Marks, Order::Marks) => true,
            (Order::Mixed, Order::Mixed) => true,
            _ => false,
        }
    }
}

/// Whether only marks stand after a mark in all keys of the context at an index, after a character. Fails only if memory is
/// refused.
fn have_marks_last(
    alloc: Global,
    canonical: CanonicalBorrowed<'_>,
    contexts: &PackedVec<'_, u16>,
    c: char,
    index: usize,
) -> Result<bool, AllocError>
    requires { index < 2 ^ 32 }
    ensures { IfOk result (λ all. IsTrue all ↔ KeysPass (λ cs. has_marks_last (borrowed_meaning canonical.entry) (c ∷ cs)) (trie_of contexts.now index)) }
{
    let test = OrderTest { canonical };
    let start = test.fold_character(Order::Starters, c);
    let all = keys_pass(alloc, contexts, index, &test, start)?;
    Ok(all)
}

/// Whether all keys of the context that the word of a character names where no prefix counts are suffixes of it. Fails only
/// if memory is refused.
pub(super) fn are_suffixes(
    alloc: Global,
    canonical: CanonicalBorrowed<'_>,
    source: &CollationData<'_>,
    c: char,
    word: u32,
    index: usize,
) -> Result<bool, AllocError>
    requires tagged { IsTrue (has_tag Contraction (unprefixed_word (pools_of source.now) word)) }
    requires named { index ≡ index_of (unprefixed_word (pools_of source.now) word) }
    requires index { index < 2 ^ 32 }
    ensures { IfOk result (λ all. IsTrue all ↔ KeysPass (is_suffix (borrowed_meaning canonical.entry) (is_recorded_by (entry_in source.now word)) c) (trie_of source.now.contexts index)) }
{
    let short = are_short(alloc, &source.contexts, index)?;
    if !short {
        return Ok(false);
    }
    let last = have_marks_last(alloc, canonical, &source.contexts, c, index)?;
    if !last {
        return Ok(false);
    }
    let recorded = are_recorded_shorter(alloc, canonical, source, c, word, index)?;
    Ok(recorded)
}

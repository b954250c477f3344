//! Texts that stand before a character: of which characters they are made.

ghost use Rattle.std.specs.Prelude.{◌≡◌, ◌^◌, ◌<◌, ◌↔◌, IsTrue, IfOk};
ghost use Rattle.icu_normalizer_core.specs.BorrowedMeaning.{borrowed_meaning};
ghost use Rattle.icu_collator_core.specs.ContextRules.{KeysPass, is_prefix, is_prefix_character};
ghost use Rattle.icu_collator_core.specs.Pools.{trie_of};
ghost use Rattle.icu_collator_core.specs.TableMeaning.{weights_of};

use super::digits::is_digit;
use super::walks::{TextTest, keys_pass};
use crate::tables::CollationTables;
use icu_normalizer_core::built_in::is_jamo;
use icu_normalizer_core::canonical::CanonicalBorrowed;
use icu_packed_vector::PackedVec;
use std::alloc::{AllocError, Global};

/// Whether a character may stand in a prefix.
fn is_prefix_character(
    canonical: CanonicalBorrowed<'_>,
    tables: &CollationTables<'_>,
    c: char,
) -> bool
    ensures { result ≡ is_prefix_character (borrowed_meaning canonical.entry) (weights_of (borrowed_meaning canonical.entry) tables.now).digit c }
{
    canonical.is_starter(c) && !is_digit(canonical, tables, c) && !is_jamo(c as u32) && c != '\0'
}

/// The test for prefixes, which counts their characters: four are too many, and stand for what is no prefix.
#[derive(Drop)]
struct PrefixTest<'d, 'a> {
    canonical: CanonicalBorrowed<'d>,
    tables: &'d CollationTables<'a>,
}

impl<'d, 'a> TextTest for PrefixTest<'d, 'a> {
    ghost use Rattle.icu_normalizer_core.specs.BorrowedMeaning.{borrowed_meaning};
    ghost use Rattle.icu_collator_core.specs.TableMeaning.{weights_of};
    ghost use Rattle.icu_collator_core.specs.TextFolds.{is_prefix_count, prefix_with};

    type Folded = usize;

    ghost onward = { λ prefixes. prefix_with (borrowed_meaning prefixes.canonical) (weights_of (borrowed_meaning prefixes.canonical) prefixes.tables.now).digit };

    ghost test = { λ _ count. is_prefix_count count };

    fn fold_character(&self, count: usize, c: char) -> usize {
        if count <= 2 && is_prefix_character(self.canonical, self.tables, c) {
            count + 1
        } else {
            4
        }
    }

    fn passes(&self, count: usize) -> bool {
        count <= 3
    }

    fn is_same(&self, one: usize, other: usize) -> bool {
        one == other
    }
}

/// Whether all keys of the context at an index are prefixes. Fails only if memory is refused.
pub(super) fn are_prefixes(
    alloc: Global,
    canonical: CanonicalBorrowed<'_>,
    tables: &CollationTables<'_>,
    contexts: &PackedVec<'_, u16>,
    index: usize,
) -> Result<bool, AllocError>
    requires { index < 2 ^ 32 }
    ensures { IfOk result (λ all. IsTrue all ↔ KeysPass (is_prefix (borrowed_meaning canonical.entry) (weights_of (borrowed_meaning canonical.entry) tables.now).digit) (trie_of contexts.now index)) }
{
    let test = PrefixTest { canonical, tables };
    let all = keys_pass(alloc, contexts, index, &test, 0)?;
    Ok(all)
}

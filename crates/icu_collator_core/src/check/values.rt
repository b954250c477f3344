//! The values of contexts. A node of their units that many jumps share is looked at once, however many keys lead there.

ghost use Rattle.std.specs.Prelude.{◌≡◌, ◌^◌, ◌<◌, ◌↔◌, ℕ, ℤ, ⊤, IsTrue, IfOk, MatchOption, length};
ghost use Rattle.std.specs.Int.{cast_unsigned, w32};
ghost use Rattle.std.specs.List.{Contains};
ghost use Rattle.icu_char16trie.specs.KeyFolds.{AreFolded};
ghost use Rattle.icu_char16trie.specs.UnitGrammar.{IsUnitTrie};
ghost use Rattle.icu_collator_core.specs.Pools.{trie_of};
ghost use Rattle.icu_collator_core.specs.WordForms.{EntriesPass, by_word, keeps_nothing};

use crate::table_words::contexts::units_of;
use icu_char16trie::{KeyFold, fold_keys};
use icu_packed_vector::PackedVec;
use std::alloc::{AllocError, Global};

/// The fold that keeps nothing of keys.
#[derive(Drop)]
struct NoKey;

impl KeyFold for NoKey {
    ghost use Rattle.icu_collator_core.specs.WordForms.{keeps_nothing};

    type Folded = ();

    ghost onward = { λ _ folded unit. keeps_nothing folded unit };

    fn fold_unit(&self, _folded: (), _unit: u16) {}

    fn is_same(&self, _one: (), _other: ()) -> bool {
        true
    }
}

/// A test of values, as words.
pub(super) trait ValueTest {
    ghost use Rattle.std.specs.Prelude.{◌≡◌, ℕ, Bool};

    /// Whether a word passes.
    ghost test: { Self → ℕ → Bool };

    /// Whether a word passes.
    fn passes(&self, word: u32) -> bool
        ensures { result ≡ test self.now word };
}

/// The values of the context at an index, in any order. `None` where its units break the grammar of unit tries. Fails only
/// if memory is refused.
pub(crate) fn values_of(
    alloc: Global,
    contexts: &PackedVec<'_, u16>,
    index: usize,
) -> Result<Option<Vec<((), i32)>>, AllocError>
    requires { index < 2 ^ 32 }
    ensures values { IfOk result (λ found. MatchOption found (IsUnitTrie (trie_of contexts.now index) → ⊥)
        (λ values. AreFolded keeps_nothing tt (trie_of contexts.now index) values.items)) }
    ensures bound { length contexts.now < 2 ^ 64 }
{
    let units = units_of(contexts, index);
    let fold = NoKey;
    let found = fold_keys(alloc, &units, &fold, ())?;
    Ok(found)
}

/// Whether all values of a list pass a test.
fn all_pass<T: ValueTest>(values: &Vec<((), i32)>, test: &T) -> bool
    ensures { IsTrue result ↔ ((value : ⊤ × ℤ) → Contains values.now.items value → IsTrue (T.test test.now (cast_unsigned w32 value.1))) }
{
    for index in 0..values.len() {
        let value = values[index].1;
        if !test.passes(value.cast_unsigned()) {
            return false;
        }
    }
    true
}

/// Whether all values of the context at an index pass a test. Where its units break the grammar of unit tries, there are
/// none. Fails only if memory is refused.
pub(super) fn values_pass<T: ValueTest>(
    alloc: Global,
    contexts: &PackedVec<'_, u16>,
    index: usize,
    test: &T,
) -> Result<bool, AllocError>
    requires { index < 2 ^ 32 }
    ensures { IfOk result (λ all. IsTrue all ↔ EntriesPass (by_word (T.test test.now)) (trie_of contexts.now index)) }
{
    let found = values_of(alloc, contexts, index)?;
    match found {
        Some(values) => Ok(all_pass(&values, test)),
        None => Ok(true),
    }
}

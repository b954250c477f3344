//! Tests of all keys of a context by their characters. A node of its units that many jumps share is looked at once for each
//! thing that the characters before it are folded to.

ghost use Rattle.std.specs.Prelude.{◌≡◌, ◌^◌, ◌<◌, ◌↔◌, ℤ, IsTrue, IfOk, MatchOption, length};
ghost use Rattle.std.specs.List.{Contains};
ghost use Rattle.icu_char16trie.specs.KeyFolds.{AreFolded};
ghost use Rattle.icu_char16trie.specs.UnitGrammar.{IsUnitTrie};
ghost use Rattle.icu_collator_core.specs.ContextRules.{KeysPass};
ghost use Rattle.icu_collator_core.specs.KeyTexts.{by_fold, read_unit, tells};
ghost use Rattle.icu_collator_core.specs.Pools.{trie_of};
ghost use Rattle.icu_collator_core.specs.declared.check.walks.Reading.{Reading};
ghost use Rattle.icu_collator_core.specs.declared.check.walks.Reading.TheVariants.{Half, Whole};

use super::keys::{is_upper_half, joined_halves, single_character};
use crate::table_words::contexts::{trie_of, units_of};
use icu_char16trie::{KeyFold, fold_keys};
use icu_packed_vector::PackedVec;
use std::alloc::{AllocError, Global};

/// A test of the characters of keys, which goes by what they are folded to, one after another.
pub(crate) trait TextTest {
    ghost use Rattle.std.specs.Prelude.{◌≡◌, ℕ, Bool, IsTrue};

    /// What the characters so far are folded to.
    type Folded: Copy;

    /// What a character more makes of it.
    ghost onward: { Self → Self.Folded → ℕ → Self.Folded };

    /// Whether characters pass that are folded to it.
    ghost test: { Self → Self.Folded → Bool };

    /// What a character more makes of it.
    fn fold_character(&self, folded: Self::Folded, c: char) -> Self::Folded
        ensures { result ≡ onward self.now folded c };

    /// Whether characters pass that are folded to it.
    fn passes(&self, folded: Self::Folded) -> bool
        ensures { result ≡ test self.now folded };

    /// Whether two are the same.
    fn is_same(&self, one: Self::Folded, other: Self::Folded) -> bool
        ensures { IsTrue result → one ≡ other };
}

/// What the units of a key so far come to.
#[derive(Clone, Copy)]
pub(crate) enum Reading<S> {
    /// They are whole characters, folded to this.
    Whole(S),
    /// The same, and the upper half of a character after them.
    Half(S, u16),
    /// A half stands alone among them.
    Broken,
}

/// What a unit after whole characters makes of them.
fn read_first<T: TextTest>(test: &T, folded: T::Folded, unit: u16) -> Reading<T::Folded>
    ensures { result ≡ read_unit (T.onward test.now) (Whole folded) unit }
{
    match single_character(unit) {
        Some(c) => Reading::Whole(test.fold_character(folded, c)),
        None => {
            if is_upper_half(unit) {
                Reading::Half(folded, unit)
            } else {
                Reading::Broken
            }
        }
    }
}

/// What a unit after an upper half makes of it.
fn read_second<T: TextTest>(
    test: &T,
    folded: T::Folded,
    upper: u16,
    unit: u16,
) -> Reading<T::Folded>
    ensures { result ≡ read_unit (T.onward test.now) (Half folded upper) unit }
{
    match joined_halves(upper, unit) {
        Some(c) => Reading::Whole(test.fold_character(folded, c)),
        None => Reading::Broken,
    }
}

/// The fold of units by the characters that they spell.
#[derive(Drop)]
pub(crate) struct UnitFold<'t, T: TextTest> {
    pub(crate) test: &'t T,
}

impl<'t, T: TextTest> KeyFold for UnitFold<'t, T> {
    ghost use Rattle.icu_collator_core.specs.KeyTexts.{read_unit};

    type Folded = Reading<T::Folded>;

    ghost onward = { λ units. read_unit (T.onward units.test.now) };

    fn fold_unit(&self, folded: Reading<T::Folded>, unit: u16) -> Reading<T::Folded> {
        match folded {
            Reading::Whole(folded) => read_first(self.test, folded, unit),
            Reading::Half(folded, upper) => read_second(self.test, folded, upper, unit),
            Reading::Broken => Reading::Broken,
        }
    }

    fn is_same(&self, one: Reading<T::Folded>, other: Reading<T::Folded>) -> bool {
        match (one, other) {
            (Reading::Whole(one), Reading::Whole(other)) => self.test.is_same(one, other),
            (Reading::Half(one, upper), Reading::Half(other, upper2)) => {
                upper == upper2 && self.test.is_same(one, other)
            }
            (Reading::Broken, Reading::Broken) => true,
            _ => false,
        }
    }
}

/// What the units of each key of the context at an index come to, with the value of the key, in any order. `None` where the
/// units break the grammar of unit tries. Fails only if memory is refused.
fn readings_of<T: TextTest>(
    alloc: Global,
    contexts: &PackedVec<'_, u16>,
    index: usize,
    test: &T,
    start: T::Folded,
) -> Result<Option<Vec<(Reading<T::Folded>, i32)>>, AllocError>
    requires { index < 2 ^ 32 }
    ensures readings { IfOk result (λ found. MatchOption found (IsUnitTrie (trie_of contexts.now index) → ⊥)
        (λ readings. AreFolded (read_unit (T.onward test.now)) (Whole start) (trie_of contexts.now index) readings.items)) }
    ensures bound { length contexts.now < 2 ^ 64 }
{
    let units = units_of(contexts, index);
    let fold = UnitFold { test };
    let found = fold_keys(alloc, &units, &fold, Reading::Whole(start))?;
    Ok(found)
}

/// Whether units are whole characters that pass a test.
fn is_passed<T: TextTest>(test: &T, reading: Reading<T::Folded>) -> bool
    ensures { result ≡ tells (T.test test.now) reading }
{
    match reading {
        Reading::Whole(folded) => test.passes(folded),
        Reading::Half(_, _) | Reading::Broken => false,
    }
}

/// Whether the units of all keys are whole characters that pass a test.
fn are_passed<T: TextTest>(test: &T, readings: &Vec<(Reading<T::Folded>, i32)>) -> bool
    ensures { IsTrue result ↔ ((one : Reading T.Folded × ℤ) → Contains readings.now.items one → IsTrue (tells (T.test test.now) one.0)) }
{
    for index in 0..readings.len() {
        if !is_passed(test, readings[index].0) {
            return false;
        }
    }
    true
}

/// Whether the units of the context at an index keep the grammar of unit tries, and the characters of all its keys pass a
/// test, folded from this start on. Fails only if memory is refused.
pub(super) fn keys_pass<T: TextTest>(
    alloc: Global,
    contexts: &PackedVec<'_, u16>,
    index: usize,
    test: &T,
    start: T::Folded,
) -> Result<bool, AllocError>
    requires { index < 2 ^ 32 }
    ensures { IfOk result (λ all. IsTrue all ↔ KeysPass (by_fold (T.test test.now) (T.onward test.now) start) (trie_of contexts.now index)) }
{
    let found = readings_of(alloc, contexts, index, test, start)?;
    match found {
        Some(readings) => Ok(are_passed(test, &readings)),
        None => Ok(false),
    }
}

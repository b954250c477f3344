//! The first character that a test refuses, the root's before the tailoring's; and characters without a word.

ghost use Rattle.std.specs.Prelude.{◌≡◌, IfOk, MatchOption};
ghost use Rattle.std.specs.Char.{IsScalar};
ghost use Rattle.icu_collator_core.specs.TableFaults.{AllPass, AllPassIn, HasCell, IsFirstRefused, IsLeastRefused};

use super::layers::Layer;
use crate::tables::{CollationData, CollationTables};
use std::alloc::{AllocError, Global};

/// A test of the word of a character.
pub(crate) trait CharacterTest {
    ghost use Rattle.std.specs.Prelude.{ℕ, IsTrue, IfOk, ◌↔◌, ◌<◌, ◌≤◌};
    ghost use Rattle.icu_collator_core.specs.declared.check.layers.Layer.{Layer};
    ghost use Rattle.icu_collator_core.specs.declared.tables.data.CollationData.{CollationData};

    /// The word that data have for a character passes, in the root or in the tailoring.
    ghost Passes: { Self → Layer → CollationData → ℕ → Type 0 };

    /// Whether the word of a character passes. Fails only if memory is refused.
    fn passes(
        &self,
        alloc: Global,
        layer: Layer,
        source: &CollationData<'_>,
        c: char,
    ) -> Result<bool, AllocError>
        ensures { IfOk result (λ yes. IsTrue yes ↔ Passes self.now layer source.now c) };

    /// Where a walk over all codes goes on after this one: the words of those before it pass.
    fn next_code(&self, layer: Layer, source: &CollationData<'_>, code: u32) -> u32
        requires { code < 0x11_0000 }
        ensures onward { code < result }
        ensures bound { result ≤ 0x11_0000 }
        ensures passed { (c : ℕ) → code < c → c < result → Passes self.now layer source.now c };
}

/// The character of a code, if it is one of which a test says no.
fn refused_at<T: CharacterTest>(
    alloc: Global,
    layer: Layer,
    source: &CollationData<'_>,
    code: u32,
    test: &T,
) -> Result<Option<char>, AllocError>
    ensures { IfOk result (λ found. MatchOption found
        (IsScalar code → T.Passes test.now layer source.now code)
        (λ c. (c ≡ code) × IsScalar c × (T.Passes test.now layer source.now c → ⊥))) }
{
    let Some(c) = char::from_u32(code) else {
        return Ok(None);
    };
    let passes = test.passes(alloc, layer, source, c)?;
    if passes { Ok(None) } else { Ok(Some(c)) }
}

/// The least character of which a test says no, `None` where it says yes of each.
fn first_refused_in<T: CharacterTest>(
    alloc: Global,
    layer: Layer,
    source: &CollationData<'_>,
    test: &T,
) -> Result<Option<char>, AllocError>
    ensures { IfOk result (λ found. MatchOption found
        (AllPass (T.Passes test.now layer source.now))
        (IsLeastRefused (T.Passes test.now layer source.now))) }
{
    let mut code = 0;
    while code < 0x11_0000 {
        let found = refused_at(alloc, layer, source, code, test)?;
        if let Some(c) = found {
            return Ok(Some(c));
        }
        code = test.next_code(layer, source, code);
    }
    Ok(None)
}

/// The root's least character of which a test says no, or else the tailoring's; `None` where it says yes of each.
pub(crate) fn first_refused<T: CharacterTest>(
    alloc: Global,
    tables: &CollationTables<'_>,
    test: &T,
) -> Result<Option<char>, AllocError>
    ensures { IfOk result (λ found. MatchOption found
        (AllPassIn tables.now (T.Passes test.now))
        (IsFirstRefused tables.now (T.Passes test.now))) }
{
    if let Some(c) = first_refused_in(alloc, Layer::Root, &tables.root, test)? {
        return Ok(Some(c));
    }
    match &tables.tailoring {
        Some(source) => {
            let found = first_refused_in(alloc, Layer::Tailoring, source, test)?;
            Ok(found)
        }
        None => Ok(None),
    }
}

/// The test for a cell of the trie.
#[derive(Drop)]
struct CellTest;

impl CharacterTest for CellTest {
    ghost use Rattle.icu_collator_core.specs.TableFaults.{HasCell};

    ghost Passes = { λ _ layer source c. HasCell layer source c };

    fn passes(
        &self,
        _alloc: Global,
        _layer: Layer,
        source: &CollationData<'_>,
        c: char,
    ) -> Result<bool, AllocError> {
        Ok(source.trie.has_cell(c as u32))
    }

    fn next_code(&self, _layer: Layer, source: &CollationData<'_>, code: u32) -> u32 {
        if code >= source.trie.tail_start() && source.trie.has_cell(code) {
            0x11_0000
        } else {
            code + 1
        }
    }
}

/// The first character without a word, `None` where each has one. Fails only if memory is refused.
pub(crate) fn first_trie_fault(
    alloc: Global,
    tables: &CollationTables<'_>,
) -> Result<Option<char>, AllocError>
    ensures { IfOk result (λ found. MatchOption found (AllPassIn tables.now HasCell) (IsFirstRefused tables.now HasCell)) }
{
    let test = CellTest;
    let found = first_refused(alloc, tables, &test)?;
    Ok(found)
}

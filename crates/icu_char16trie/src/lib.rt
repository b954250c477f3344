//! Maps from texts in UTF-16 units to numbers, packed into units: a trie that a cursor follows one
//! unit or character at a time. The form is that of ICU4X's `Char16Trie`. `write_units` writes the
//! units; `Char16Trie::new` and `iter` give a cursor over them. Callers use it through `icu_collections`.
#![tactic(auto)]

ghost use Rattle.std.specs.Prelude.{◌≡◌, ◌+◌, ◌*◌, ◌^◌, ◌<◌, ◌≤◌, ◌-◌, ◌/◌, ◌%◌, [], ◌∷◌, ◌↔◌, ℕ, ℤ, List, IfOk, IsTrue};
ghost use Rattle.icu_char16trie.specs.Cursors.{IsEntry, IsEntryFrom, IsStopped, IsWholeFrom, IsWholeTrie, Follows, trie_units, cursor_units, cursor_state, place_state, follow, answer_of, answer_to, state_of, units_of};
ghost use Rattle.icu_char16trie.specs.UnitSteps.{start, step};

use icu_packed_vector::PackedVec;
use std::alloc::{AllocError, Global};

mod cells;
pub mod laws;
mod node;
mod reader;
mod writer;

use node::{State, is_same_state, start, step};
pub use reader::{EntryTest, KeyFold, ReadUnitsError, all_pass, fold_keys, read_units};
pub use writer::{WriteUnitsError, write_units};

/// What a cursor answers to the units that it was given.
#[derive(Clone, Copy, Debug, PartialEq, Eq)]
pub enum TrieResult {
    /// No key begins with the units.
    NoMatch,
    /// Keys begin with the units, which are no key themselves.
    NoValue,
    /// The units are a key with this value, and longer keys begin with them.
    Intermediate(i32),
    /// The units are a key with this value, and no longer key begins with them.
    FinalValue(i32),
}

/// A map from texts to numbers, in units that are borrowed or owned.
#[derive(Debug, PartialEq, Eq, Drop)]
pub struct Char16Trie<'a> {
    units: PackedVec<'a, u16>,
}

/// A cursor in a unit trie: it is given the units of a text one after another, and says of all of
/// them so far whether they are a key and whether longer keys begin with them.
#[derive(Clone, Copy, Debug)]
pub struct Char16TrieIterator<'t> {
    units: &'t PackedVec<'t, u16>,
    state: State,
}

/// A place in a unit trie where a cursor stood, from which another one may go on.
#[derive(Clone, Copy, Debug)]
pub struct CursorPlace {
    state: State,
}

impl CursorPlace {
    /// Whether two places are the same.
    pub fn is_same(self, other: CursorPlace) -> bool
        ensures { IsTrue result → self ≡ other }
    {
        is_same_state(self.state, other.state)
    }
}

impl<'a> Char16Trie<'a> {
    /// The trie of these units, whatever they are: units that break the grammar match nothing.
    pub fn new(units: PackedVec<'a, u16>) -> Char16Trie<'a>
        ensures { trie_units result ≡ units.entry }
    {
        Char16Trie { units }
    }

    /// A cursor before the first unit.
    pub fn iter(&self) -> Char16TrieIterator<'_>
        ensures units { cursor_units result ≡ trie_units self.now }
        ensures start { cursor_state result ≡ start (trie_units self.now) }
        ensures entries { (key : List ℕ) (number : ℤ) → IsEntryFrom result key number ↔ IsEntry self.now key number }
        ensures whole { IsWholeFrom result ↔ IsWholeTrie self.now }
    {
        Char16TrieIterator {
            units: &self.units,
            state: start(&self.units),
        }
    }

    /// A cursor at a place where another one stood.
    pub fn iter_from(&self, place: CursorPlace) -> Char16TrieIterator<'_>
        ensures units { cursor_units result ≡ trie_units self.now }
        ensures stands { cursor_state result ≡ place_state place }
    {
        Char16TrieIterator {
            units: &self.units,
            state: place.state,
        }
    }

    /// The same trie: borrowed units are borrowed again, others copied. Fails only when out of
    /// memory.
    pub fn clone(&self, alloc: Global) -> Result<Char16Trie<'a>, AllocError>
        ensures { IfOk result (λ trie. trie_units trie ≡ trie_units self.now) }
    {
        let units = self.units.clone(alloc)?;
        Ok(Char16Trie { units })
    }
}

impl Char16TrieIterator<'_> {
    /// The place where it stands.
    pub fn place(&self) -> CursorPlace
        ensures { place_state result ≡ cursor_state self.now }
    {
        CursorPlace { state: self.state }
    }

    /// Follows one unit more, and answers what the units so far are. After `NoMatch` or `FinalValue`
    /// every answer is `NoMatch`, and so it is where the units of the trie break the grammar.
    pub fn next16(&mut self, unit: u16) -> TrieResult
        ensures { Follows self.old (unit ∷ []) result self.new }
    {
        self.take_unit(unit)
    }

    /// Follows the units of a code point, one up to FFFF and a surrogate pair up to 10FFFF, and
    /// answers what the units so far are. A larger number is answered `NoMatch`, as a unit that
    /// matches nothing. After `NoMatch` or `FinalValue` every answer is `NoMatch`, and so it is where
    /// the units of the trie break the grammar.
    pub fn next32(&mut self, code: u32) -> TrieResult
        ensures units { cursor_units self.new ≡ cursor_units self.old }
        ensures follows { code ≤ 0x10ffff → Follows self.old (units_of code) result self.new }
        ensures past { 0x10ffff < code → (result ≡ TrieResult.NoMatch) × IsStopped self.new }
    {
        if code > 0x10_ffff {
            self.state = State::Stopped;
            return TrieResult::NoMatch;
        }
        self.follow_code(code)
    }

    /// Follows the units of a character, one or past U+FFFF two, and answers what the units so far
    /// are. After `NoMatch` or `FinalValue` every answer is `NoMatch`, and so it is where the units of
    /// the trie break the grammar.
    pub fn next(&mut self, character: char) -> TrieResult
        ensures { Follows self.old (units_of character) result self.new }
    {
        self.follow_code(character as u32)
    }

    /// Follows the units of a code point.
    fn follow_code(&mut self, code: u32) -> TrieResult
        requires { code ≤ 0x10ffff }
        ensures units { cursor_units self.new ≡ cursor_units self.old }
        ensures found { result ≡ answer_to (cursor_units self.old) (cursor_state self.old) (units_of code) }
        ensures stands { cursor_state self.new ≡ follow (cursor_units self.old) (cursor_state self.old) (units_of code) }
    {
        if code < 0x1_0000 {
            return self.take_unit(code as u16);
        }
        self.take_unit((0xd800 + (code - 0x1_0000) / 0x400) as u16);
        self.take_unit((0xdc00 + code % 0x400) as u16)
    }

    /// Follows a unit.
    #[inline(always)]
    fn take_unit(&mut self, unit: u16) -> TrieResult
        ensures units { cursor_units self.new ≡ cursor_units self.old }
        ensures found { result ≡ answer_of (step (cursor_units self.old) (cursor_state self.old) unit) }
        ensures stands { cursor_state self.new ≡ state_of (step (cursor_units self.old) (cursor_state self.old) unit) }
    {
        match step(self.units, self.state, unit) {
            Some(arrival) => {
                self.state = arrival.state;
                arrival.answer
            }
            None => {
                self.state = State::Stopped;
                TrieResult::NoMatch
            }
        }
    }
}

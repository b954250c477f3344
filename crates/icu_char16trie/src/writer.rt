//! Sorted keys and their values, written as the units of a unit trie.
ghost use Rattle.std.specs.Prelude.{◌≡◌, ◌≢◌, ◌+◌, ◌*◌, ◌<◌, ◌≤◌, ◌↔◌, [], ℕ, ℤ, List, length, IsTrue, IfOk, MatchOption, MatchResult};
ghost use Rattle.icu_char16trie.specs.UnitPairs.{Below, Has};
ghost use Rattle.icu_char16trie.specs.UnitMaps.{MapsKey, IsWhole, at_node, at_state};
ghost use Rattle.icu_char16trie.specs.UnitSteps.{start};
ghost use Rattle.icu_char16trie.specs.UnitGrammar.{IsUnitTrie};
ghost use Rattle.icu_char16trie.specs.WrittenUnits.{keyed, total, NoneBefore, AreWritten, Explains};

use std::alloc::{AllocError, Global};
use std::cmp::Ordering;
use std::error::Error;
use std::fmt;

mod backward;
mod group;
mod groups;
mod layout;
mod marks;
mod plan;
mod task;

use layout::write_pairs;

/// How many units all keys may have together.
const MOST_UNITS: usize = 268_435_456;

/// Why keys are not written.
#[derive(Clone, Copy, Debug, PartialEq, Eq)]
pub enum WriteUnitsError {
    /// The key of the pair at this index is empty.
    EmptyKey(usize),
    /// The key of the pair at this index does not come after the one before it.
    NotSorted(usize),
    /// The keys have more than 268,435,456 units in all.
    TooLarge,
    /// Out of memory.
    Memory,
}

impl fmt::Display for WriteUnitsError {
    ghost use Rattle.std.specs.Prelude.{Some};
    ghost use Rattle.icu_char16trie.specs.WrittenUnits.{error_text};

    ghost output = { λ error. Some (error_text error) };

    fn fmt<W: fmt::Write>(&self, f: &mut fmt::Formatter<W>) -> fmt::Result {
        match self {
            WriteUnitsError::EmptyKey(index) => write!(f, "key {index} is empty"),
            WriteUnitsError::NotSorted(index) => write!(
                f,
                "key {index} is not after the one before it"
            ),
            WriteUnitsError::TooLarge => write!(f, "the keys have over 268435456 units"),
            WriteUnitsError::Memory => write!(f, "out of memory"),
        }
    }
}

impl Error for WriteUnitsError {}

impl From<AllocError> for WriteUnitsError {
    ghost use Rattle.std.specs.Prelude.{◌≡◌};
    ghost use Rattle.icu_char16trie.specs.declared.writer.WriteUnitsError.TheVariants.{Memory};

    ghost from_gives = { λ _ e. e ≡ Memory };

    fn from(_: AllocError) -> WriteUnitsError {
        WriteUnitsError::Memory
    }
}

/// Whether the first units come before the second ones.
#[tactic(auto, using(crate::proofs::Writing::KeyFaultLemmas::less_below, crate::proofs::Writing::KeyFaultLemmas::below_less))]
fn comes_before(first: &[u16], second: &[u16]) -> bool
    ensures { IsTrue result ↔ Below first.now second.now }
{
    first.cmp(second) == Ordering::Less
}

/// The first key at fault, if one is.
fn first_fault(pairs: &[(&[u16], i32)]) -> Option<WriteUnitsError>
    ensures { MatchOption result (NoneBefore (keyed pairs.now) (length (keyed pairs.now))) (Explains (keyed pairs.now)) }
{
    for (index, (key, _)) in pairs.iter().enumerate() {
        if key.is_empty() {
            return Some(WriteUnitsError::EmptyKey(index));
        }
        if index > 0 && !comes_before(pairs[index - 1].0, key) {
            return Some(WriteUnitsError::NotSorted(index));
        }
    }
    None
}

/// Whether the keys have more units than are written.
fn is_too_large(pairs: &[(&[u16], i32)]) -> bool
    ensures { IsTrue result ↔ (268_435_456 < total (keyed pairs.now)) }
{
    let mut left = MOST_UNITS;
    for (key, _) in pairs {
        if key.len() > left {
            return true;
        }
        left -= key.len();
    }
    false
}

/// The units of a unit trie that maps these keys, in units, to these values, and no other keys. They
/// keep the grammar, and are at most ten for each unit of the keys and three for each key, and none
/// where there are no pairs.
///
/// The keys must not be empty and must rise by their units. Else the answer is the first fault:
/// `EmptyKey` or `NotSorted` of the first pair at fault, then `TooLarge` where the keys have more
/// than 268,435,456 units in all, and `Memory` when out of memory.
pub fn write_units(alloc: Global, pairs: &[(&[u16], i32)]) -> Result<Vec<u16>, WriteUnitsError>
    ensures refused { MatchResult result (λ _. AreWritten (keyed pairs.now)) (Explains (keyed pairs.now)) }
    ensures entries { IfOk result (λ units. (key : List ℕ) (number : ℤ) → MapsKey units.items (at_node 0) key number ↔ Has (keyed pairs.now) key number) }
    ensures followed { IfOk result (λ units. (key : List ℕ) (number : ℤ) → MapsKey units.items (at_state (start units.items)) key number ↔ Has (keyed pairs.now) key number) }
    ensures whole { IfOk result (λ units. 0 < length pairs.now → IsWhole units.items (at_node 0)) }
    ensures whole_start { IfOk result (λ units. 0 < length pairs.now → IsWhole units.items (at_state (start units.items))) }
    ensures grammar { IfOk result (λ units. IsUnitTrie units.items) }
    ensures size { IfOk result (λ units. length units.items ≤ 10 * total (keyed pairs.now) + 3 * length pairs.now) }
    ensures none { IfOk result (λ units. pairs.now ≡ [] → units.items ≡ []) }
{
    if let Some(fault) = first_fault(pairs) {
        return Err(fault);
    }
    if is_too_large(pairs) {
        return Err(WriteUnitsError::TooLarge);
    }
    if pairs.is_empty() {
        return Ok(Vec::new(alloc));
    }
    let out = write_pairs(alloc, pairs)?;
    Ok(out.into_units())
}

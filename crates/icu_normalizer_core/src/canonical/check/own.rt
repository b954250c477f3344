//! Whether a character is its own composed list.

ghost use Rattle.std.specs.Prelude.{◌≡◌, ◌↔◌, ◌<◌, ◌≤◌, [], ◌∷◌, length, IsTrue, MatchOption};
ghost use Rattle.icu_normalizer_core.specs.Canonical.{composed, composing, recomposed};
ghost use Rattle.icu_normalizer_core.specs.CanonicalFaults.{NoneOffends, IsLeastOffender, OffendsList};
ghost use Rattle.icu_normalizer_core.specs.CanonicalLists.{ArePairs};
ghost use Rattle.icu_normalizer_core.specs.CanonicalMeaning.{lists_of, meaning};
ghost use Rattle.icu_normalizer_core.specs.PairTests.{IsNotOwn};

use super::full_start::full_start;
use super::marks::{class_of, put_marks_in_order};
use crate::built_in::syllable_of;
use crate::canonical::packing::CODE_LIMIT;
use crate::canonical::pairs::listed_pair;
use crate::canonical::tables::CanonicalTables;

/// The character that two compose to, `None` where they don't compose.
fn composed_pair(tables: &CanonicalTables<'_>, first: u32, second: u32) -> Option<char>
    requires { ArePairs tables.now.pairs }
    ensures { result ≡ (meaning tables.now).pair first second }
{
    match syllable_of(first, second) {
        Some(syllable) => Some(syllable),
        None => {
            if first as u64 >= CODE_LIMIT || second as u64 >= CODE_LIMIT {
                return None;
            }
            listed_pair(&tables.pairs, first, second)
        }
    }
}

/// Whether composing makes one character of a starter and what follows it.
fn composes_from(tables: &CanonicalTables<'_>, first: u32, rest: &[u32], c: u32) -> bool
    requires { ArePairs tables.now.pairs }
    ensures { IsTrue result ↔ (composing (meaning tables.now) first [] rest.now ≡ c ∷ []) }
{
    let mut starter = first;
    for next in rest {
        match composed_pair(tables, starter, *next) {
            Some(z) => starter = z as u32,
            None => return false,
        }
    }
    starter == c
}

/// Whether composing makes one character of a decomposed list.
fn composes_to(tables: &CanonicalTables<'_>, list: &[u32], c: u32) -> bool
    requires { ArePairs tables.now.pairs }
    ensures { IsTrue result ↔ (recomposed (meaning tables.now) list.now ≡ c ∷ []) }
{
    if list.is_empty() {
        return false;
    }
    let first = list[0];
    let rest = &list[1..];
    if class_of(tables, first) != 0 {
        return rest.is_empty() && first == c;
    }
    composes_from(tables, first, rest, c)
}

/// Whether a character with a full list of at most eight is its own composed list.
pub(super) fn is_own(tables: &CanonicalTables<'_>, c: char) -> bool
    requires pairs { ArePairs tables.now.pairs }
    requires short { length ((meaning tables.now).full c) ≤ 8 }
    ensures { IsTrue result ↔ (composed (meaning tables.now) (c ∷ []) ≡ c ∷ []) }
{
    let left = full_start(tables, c);
    let mut characters = left.characters;
    let list = &mut characters[..left.count];
    put_marks_in_order(tables, list);
    composes_to(tables, list, c as u32)
}

/// The least character below U+0300 that is not its own composed list, `None` where there is none.
pub(super) fn first_not_own(tables: &CanonicalTables<'_>) -> Option<char>
    requires pairs { ArePairs tables.now.pairs }
    requires lists { NoneOffends (OffendsList (lists_of tables.now)) }
    ensures { MatchOption result (NoneOffends (IsNotOwn (lists_of tables.now))) (IsLeastOffender (IsNotOwn (lists_of tables.now))) }
{
    for code in 0..0x300u32 {
        let c = char::from_u32(code).unwrap();
        if !is_own(tables, c) {
            return Some(c);
        }
    }
    None
}

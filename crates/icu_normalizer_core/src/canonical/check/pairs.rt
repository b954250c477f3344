//! Pairs that are not the mapping of what they compose to, and characters that aren't their own composed list.

ghost use Rattle.std.specs.Prelude.{◌≡◌, [], ◌∷◌, nat_eq, MatchOption};
ghost use Rattle.std.specs.Cmp.Lexicographic.{pointwise};
ghost use Rattle.std.specs.Char.{IsScalar};
ghost use Rattle.icu_normalizer_core.specs.CanonicalFaults.{NoneOffends, IsLeastOffender, OffendsList, OffendsPair};
ghost use Rattle.icu_normalizer_core.specs.CanonicalLists.{AreTriples, ArePairs, pair_composed};
ghost use Rattle.icu_normalizer_core.specs.CanonicalMeaning.{lists_of};
ghost use Rattle.icu_normalizer_core.specs.PairTests.{is_bad_pair, least, IsBadlyComposed};
ghost use Rattle.icu_normalizer_core.specs.Properties.{mapped_to};

use super::forms::are_pairs;
use super::own::first_not_own;
use crate::built_in::built_in_step;
use crate::canonical::packing::CODE_LIMIT;
use crate::canonical::steps::listed_step;
use crate::canonical::tables::CanonicalTables;
use crate::decomposed::Decomposed;

/// The lower of two characters, of as many as there are.
fn least_of(a: Option<char>, b: Option<char>) -> Option<char>
    ensures { result ≡ least a b }
{
    match a {
        None => b,
        Some(x) => match b {
            None => Some(x),
            Some(y) => if y < x { Some(y) } else { Some(x) },
        },
    }
}

/// Whether a mapping is to two characters, these.
fn is_step_to(step: Decomposed, first: u32, second: u32) -> bool
    ensures { result ≡ pointwise nat_eq (mapped_to step) (first ∷ second ∷ []) }
{
    match step {
        Decomposed::Expansion(a, b) => a as u32 == first && b as u32 == second,
        Decomposed::Singleton(_) => false,
        Decomposed::Default => false,
    }
}

/// Whether an entry is not the mapping of what it composes to, or has a second that no pair has.
#[tactic(auto, unfolding(crate::specs::PairTests::is_bad_pair))]
fn is_bad_pair(tables: &CanonicalTables<'_>, pair: u64) -> bool
    requires { AreTriples tables.now.steps }
    ensures { result ≡ is_bad_pair (lists_of tables.now) pair }
{
    let first = (pair >> 42) as u32;
    let second = ((pair >> 21) % CODE_LIMIT) as u32;
    let composed = (pair % CODE_LIMIT) as u32;
    built_in_step(composed).is_some()
        || !is_step_to(listed_step(&tables.steps, composed), first, second)
        || second < 0x300
        || (0x1161..=0x11ff).contains(&second)
}

/// The character that an entry composes to.
fn composed_of(pair: u64) -> char
    requires { IsScalar (pair_composed pair) }
    ensures { result ≡ pair_composed pair }
{
    char::from_u32((pair % CODE_LIMIT) as u32).unwrap()
}

/// The least character that a bad entry composes to, `None` where there is none.
fn first_badly_composed(tables: &CanonicalTables<'_>) -> Option<char>
    requires triples { AreTriples tables.now.steps }
    requires pairs { ArePairs tables.now.pairs }
    ensures { MatchOption result (NoneOffends (IsBadlyComposed (lists_of tables.now))) (IsLeastOffender (IsBadlyComposed (lists_of tables.now))) }
{
    let mut found = None;
    for index in 0..tables.pairs.len() {
        let pair = tables.pairs.at(index);
        if is_bad_pair(tables, pair) {
            found = least_of(found, Some(composed_of(pair)));
        }
    }
    found
}

/// The least character with a bad pair, or that is below U+0300 and not its own composed list; `None` where there is none.
pub(super) fn first_bad_pair(tables: &CanonicalTables<'_>) -> Option<char>
    requires triples { AreTriples tables.now.steps }
    requires lists { NoneOffends (OffendsList (lists_of tables.now)) }
    ensures { MatchOption result (NoneOffends (OffendsPair (lists_of tables.now))) (IsLeastOffender (OffendsPair (lists_of tables.now))) }
{
    if !are_pairs(&tables.pairs) {
        return Some('\0');
    }
    least_of(first_badly_composed(tables), first_not_own(tables))
}

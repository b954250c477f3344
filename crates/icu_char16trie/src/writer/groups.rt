//! Sorted keys and their values, as groups of those that go on with the same unit.
ghost use Rattle.std.specs.Prelude.{◌≡◌, ◌+◌, ◌<◌, ◌≤◌, [], ◌∷◌, ◌++◌, length, take, drop, ℕ, List, IfOk, IfSome, MatchOption, ◌^◌};
ghost use Rattle.std.specs.Int.{cast_signed, cast_unsigned, w32};
ghost use Rattle.icu_char16trie.specs.UnitPairs.{rests, prefixed, spread, parts, AreSorted, HaveUnits, AreGroups, StartsOther, StartsWith, FirstEnds, FirstGoesOn};

use super::group::Group;
use std::alloc::{AllocError, Global};

/// How many of the keys go on with the unit, up to the first that does not.
fn group_length(pairs: &[(&[u16], i32)], depth: usize, unit: u16) -> usize
    ensures bound { result ≤ length pairs.now }
    ensures same { rests depth (take result pairs.now) ≡ prefixed (unit ∷ []) (rests (depth + 1) (take result pairs.now)) }
    ensures other { StartsOther unit (rests depth (drop result pairs.now)) }
{
    for (index, (key, _)) in pairs.iter().enumerate() {
        if depth >= key.len() || key[depth] != unit {
            return index;
        }
    }
    pairs.len()
}

/// The unit that the first key goes on with, or `None` where it ends.
fn first_unit(pairs: &[(&[u16], i32)], depth: usize) -> Option<u16>
    ensures { MatchOption result (FirstEnds (rests depth pairs.now)) (λ unit. StartsWith unit (rests depth pairs.now)) }
{
    match pairs {
        [(key, _), ..] if depth < key.len() => Some(key[depth]),
        _ => None,
    }
}

/// How many units all the keys go on with, up to 16.
pub(super) fn run_length(pairs: &[(&[u16], i32)], depth: usize) -> usize
    requires some { 0 < length pairs.now }
    requires deep { depth < 2 ^ 32 }
    ensures bound { result ≤ 16 }
    ensures same { (run : List ℕ) × (length run ≡ result) × (rests depth pairs.now ≡ prefixed run (rests (depth + result) pairs.now)) }
    ensures longest { result < 16 → (unit : ℕ) → rests (depth + result) pairs.now ≡ prefixed (unit ∷ []) (rests (depth + result + 1) pairs.now) → ⊥ }
{
    for run in 0..16 {
        let Some(unit) = first_unit(pairs, depth + run) else {
            return run;
        };
        if group_length(pairs, depth + run, unit) < pairs.len() {
            return run;
        }
    }
    16
}

/// The value of the first key, if it ends at the depth.
pub(super) fn ended_value(pairs: &[(&[u16], i32)], depth: usize) -> Option<i32>
    requires { 0 < length pairs.now }
    ensures pairs { MatchOption result (FirstGoesOn (rests depth pairs.now)) (λ value. rests depth pairs.now ≡ ([], value) ∷ rests depth (drop 1 pairs.now)) }
    ensures value { IfSome result (λ value. cast_signed w32 (cast_unsigned w32 value) ≡ value) }
{
    match pairs {
        [(key, value), ..] if key.len() <= depth => Some(*value),
        _ => None,
    }
}

/// The value of the only key, if it ends at the depth.
pub(super) fn lone_value(pairs: &[(&[u16], i32)], depth: usize) -> Option<i32>
    ensures pairs { MatchOption result (length pairs.now ≡ 1 → FirstGoesOn (rests depth pairs.now)) (λ value. rests depth pairs.now ≡ ([], value) ∷ []) }
    ensures value { IfSome result (λ value. cast_signed w32 (cast_unsigned w32 value) ≡ value) }
{
    match pairs {
        [(key, value)] if key.len() <= depth => Some(*value),
        _ => None,
    }
}

/// The groups of keys that go on with the same unit.
pub(super) fn groups_of<'a>(
    alloc: Global,
    pairs: &'a [(&'a [u16], i32)],
    depth: usize,
) -> Result<Vec<Group<'a>>, AllocError>
    requires sorted { AreSorted (rests depth pairs.now) }
    requires longer { HaveUnits (rests depth pairs.now) }
    ensures pairs { IfOk result (λ groups. spread (parts depth groups.items) ≡ rests depth pairs.now) }
    ensures groups { IfOk result (λ groups. AreGroups 0 0x10000 (parts depth groups.items)) }
{
    let mut groups = Vec::new(alloc);
    let mut start = 0;
    while start < pairs.len() {
        let (_, rest) = pairs.split_at(start);
        let unit = first_unit(rest, depth).unwrap();
        let count = group_length(rest, depth, unit);
        let (group, _) = rest.split_at(count);
        groups.push(Group { unit, pairs: group })?;
        start += count;
    }
    Ok(groups)
}

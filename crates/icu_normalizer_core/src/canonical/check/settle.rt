//! What mapping steps leave of each character, found triple by triple.

ghost use Rattle.std.specs.Prelude.{◌≡◌, ◌+◌, ◌*◌, ◌/◌, ◌^◌, ◌<◌, ◌↔◌, [], ◌∷◌, ◌++◌, true, false, length, take, slice_get, Some, None, IsTrue, IfSome, MatchOption, IfOk, All, nat_eq};
ghost use Rattle.std.specs.Cmp.Lexicographic.{pointwise};
ghost use Rattle.icu_normalizer_core.specs.BuiltIn.{is_syllable, built_in_step};
ghost use Rattle.icu_normalizer_core.specs.Canonical.{IsFree};
ghost use Rattle.icu_normalizer_core.specs.CanonicalLists.{AreTriples};
ghost use Rattle.icu_normalizer_core.specs.CanonicalWords.{syllable_letters};
ghost use Rattle.icu_normalizer_core.specs.Properties.{mapped_to};
ghost use Rattle.icu_normalizer_core.specs.Settled.{left_items, IsStartOf, AreStarts, IsOpen, IsStuck, HasStuck, IsDone, mapping_of, open_count};

use super::left::Left;
use crate::built_in::{built_in_step, is_syllable};
use crate::canonical::steps::{NO_SECOND, triple_of};
use crate::decomposed::Decomposed;
use icu_packed_vector::PackedVec;
use std::alloc::{AllocError, Global};

impl Left {
    /// One character.
    pub(crate) fn one(c: u32) -> Left
        ensures { left_items result ≡ c ∷ [] }
    {
        Left {
            characters: [c; 9],
            count: 1,
        }
    }

    /// Both, one after the other, cut to nine.
    pub(crate) fn joined(self, other: Left) -> Left
        ensures { left_items result ≡ take 9 (left_items self ++ left_items other) }
    {
        let mut left = self;
        for i in 0..other.count {
            left = left.with(other.characters[i]);
        }
        left
    }

    /// With one more character, if there is room.
    pub(crate) fn with(self, c: u32) -> Left
        ensures { left_items result ≡ take 9 (left_items self ++ c ∷ []) }
    {
        if self.count == 9 {
            return self;
        }
        let mut characters = self.characters;
        characters[self.count] = c;
        Left {
            characters,
            count: self.count + 1,
        }
    }

    /// Whether both are the same characters.
    pub(crate) fn is(&self, other: &Left) -> bool
        ensures same { IsTrue result ↔ (left_items self.now ≡ left_items other.now) }
        ensures test { result ≡ pointwise nat_eq (left_items self.now) (left_items other.now) }
    {
        self.characters[..self.count] == other.characters[..other.count]
    }
}

/// The letters of a Hangul syllable (UAX 15).
#[tactic(auto, unfolding(crate::specs::CanonicalWords::syllable_letters))]
pub(super) fn letters(c: u32) -> Left
    requires { is_syllable c ≡ true }
    ensures { left_items result ≡ syllable_letters c }
{
    let index = c - 0xac00;
    let pair = Left::one(0x1100 + index / 588).with(0x1161 + index % 588 / 28);
    if index % 28 == 0 {
        pair
    } else {
        pair.with(0x11a7 + index % 28)
    }
}

/// What steps leave of a character without a built-in mapping; `None` where that isn't settled.
pub(super) fn listed_left(
    steps: &PackedVec<'_, u32>,
    settled: &[Option<Left>],
    c: u32,
) -> Option<Left>
    requires triples { AreTriples steps.now }
    requires starts { AreStarts steps.now settled.now }
    requires free { IsFree c }
    ensures { MatchOption result (IsOpen steps.now settled.now c) (IsStartOf steps.now (c ∷ [])) }
{
    match triple_of(steps, c) {
        Some(index) => settled[index],
        None => Some(Left::one(c)),
    }
}

/// What steps leave of a character with a built-in mapping; `None` where that isn't settled.
fn built_in_left(
    steps: &PackedVec<'_, u32>,
    settled: &[Option<Left>],
    c: u32,
    step: Decomposed,
) -> Option<Left>
    requires triples { AreTriples steps.now }
    requires starts { AreStarts steps.now settled.now }
    requires built_in { built_in_step c ≡ Some (mapped_to step) }
    ensures { MatchOption result (IsStuck steps.now settled.now c) (IsStartOf steps.now (c ∷ [])) }
{
    if is_syllable(c) {
        return Some(letters(c));
    }
    match step {
        Decomposed::Default => Some(Left::one(c)),
        Decomposed::Singleton(a) => {
            let Some(left) = listed_left(steps, settled, a as u32) else {
                return None;
            };
            Some(left)
        }
        Decomposed::Expansion(a, b) => {
            let Some(first) = listed_left(steps, settled, a as u32) else {
                return None;
            };
            let Some(second) = listed_left(steps, settled, b as u32) else {
                return None;
            };
            Some(first.joined(second))
        }
    }
}

/// What steps leave of a character; `None` where that isn't settled.
pub(super) fn left_of(steps: &PackedVec<'_, u32>, settled: &[Option<Left>], c: u32) -> Option<Left>
    requires triples { AreTriples steps.now }
    requires starts { AreStarts steps.now settled.now }
    ensures { MatchOption result (IsStuck steps.now settled.now c) (IsStartOf steps.now (c ∷ [])) }
{
    match built_in_step(c) {
        None => listed_left(steps, settled, c),
        Some(step) => built_in_left(steps, settled, c, step),
    }
}

/// What steps leave of the mapping of a triple; `None` where that isn't settled.
fn mapping_left(steps: &PackedVec<'_, u32>, settled: &[Option<Left>], index: usize) -> Option<Left>
    requires triples { AreTriples steps.now }
    requires starts { AreStarts steps.now settled.now }
    requires inside { 3 * index + 2 < length steps.now }
    requires fits { 3 * index + 2 < 2 ^ 64 }
    ensures { MatchOption result (HasStuck steps.now settled.now (mapping_of steps.now index)) (IsStartOf steps.now (mapping_of steps.now index)) }
{
    let Some(first) = left_of(steps, settled, steps.at(3 * index + 1)) else {
        return None;
    };
    let second = steps.at(3 * index + 2);
    if second == NO_SECOND {
        return Some(first);
    }
    let Some(other) = left_of(steps, settled, second) else {
        return None;
    };
    Some(first.joined(other))
}

/// Settles a triple, where it wasn't settled and can be; whether it was.
fn settle_at(steps: &PackedVec<'_, u32>, settled: &mut [Option<Left>], index: usize) -> bool
    requires triples { AreTriples steps.now }
    requires starts { AreStarts steps.now settled.old }
    requires inside { 3 * index + 2 < length steps.now }
    requires fits { 3 * index + 2 < 2 ^ 64 }
    ensures starts { AreStarts steps.now settled.new }
    ensures progress { result ≡ true → open_count settled.new < open_count settled.old }
    ensures same { result ≡ false → settled.new ≡ settled.old }
    ensures stuck { result ≡ false → slice_get settled.new index ≡ Some None → HasStuck steps.now settled.new (mapping_of steps.now index) }
{
    if settled[index].is_some() {
        return false;
    }
    let Some(left) = mapping_left(steps, settled, index) else {
        return false;
    };
    settled[index] = Some(left);
    true
}

/// Settles the triples that can be, one after another; whether there was one.
fn settle_once(steps: &PackedVec<'_, u32>, settled: &mut [Option<Left>]) -> bool
    requires triples { AreTriples steps.now }
    requires starts { AreStarts steps.now settled.old }
    ensures starts { AreStarts steps.now settled.new }
    ensures progress { result ≡ true → open_count settled.new < open_count settled.old }
    ensures done { result ≡ false → IsDone steps.now settled.new }
{
    let count = steps.len() / 3;
    let mut more = false;
    for index in 0..count {
        if settle_at(steps, settled, index) {
            more = true;
        }
    }
    more
}

/// The index of a character's triple, where that is neither settled nor visited.
fn unvisited_triple(
    steps: &PackedVec<'_, u32>,
    settled: &[Option<Left>],
    visited: &[bool],
    c: u32,
) -> Option<usize>
    requires triples { AreTriples steps.now }
    requires settled { length settled.now ≡ length steps.now / 3 }
    requires visited { length visited.now ≡ length steps.now / 3 }
    ensures { IfSome result (λ index. slice_get visited.now index ≡ Some false) }
{
    let index = triple_of(steps, c)?;
    if settled[index].is_some() || visited[index] {
        return None;
    }
    Some(index)
}

/// A triple without which it isn't known what steps leave of a character, neither settled nor visited.
fn needed_by(
    steps: &PackedVec<'_, u32>,
    settled: &[Option<Left>],
    visited: &[bool],
    c: u32,
) -> Option<usize>
    requires triples { AreTriples steps.now }
    requires settled { length settled.now ≡ length steps.now / 3 }
    requires visited { length visited.now ≡ length steps.now / 3 }
    ensures { IfSome result (λ index. slice_get visited.now index ≡ Some false) }
{
    if is_syllable(c) {
        return None;
    }
    match built_in_step(c) {
        None => unvisited_triple(steps, settled, visited, c),
        Some(Decomposed::Default) => None,
        Some(Decomposed::Singleton(a)) => unvisited_triple(steps, settled, visited, a as u32),
        Some(Decomposed::Expansion(a, b)) => {
            match unvisited_triple(steps, settled, visited, a as u32) {
                Some(index) => Some(index),
                None => unvisited_triple(steps, settled, visited, b as u32),
            }
        }
    }
}

/// A triple without which that at an index can't be settled, neither settled nor visited.
fn needed_at(
    steps: &PackedVec<'_, u32>,
    settled: &[Option<Left>],
    visited: &[bool],
    index: usize,
) -> Option<usize>
    requires triples { AreTriples steps.now }
    requires settled { length settled.now ≡ length steps.now / 3 }
    requires visited { length visited.now ≡ length steps.now / 3 }
    requires inside { 3 * index + 2 < length steps.now }
    requires fits { 3 * index + 2 < 2 ^ 64 }
    ensures { IfSome result (λ index. slice_get visited.now index ≡ Some false) }
{
    match needed_by(steps, settled, visited, steps.at(3 * index + 1)) {
        Some(needed) => Some(needed),
        None => needed_by(steps, settled, visited, steps.at(3 * index + 2)),
    }
}

/// The indices of the triples, the first one last. Fails only if memory is refused.
fn all_indices(alloc: Global, steps: &PackedVec<'_, u32>) -> Result<Vec<usize>, AllocError>
    ensures { IfOk result (λ indices. All (λ index. 3 * index + 2 < length steps.now) indices.items) }
{
    let mut indices = Vec::new(alloc);
    for index in (0..steps.len() / 3).rev() {
        indices.push(index)?;
    }
    Ok(indices)
}

/// Settles the triples that can be, each after those that it needs, by a walk in depth that visits each but once. Fails
/// only if memory is refused.
fn settle_in_depth(
    alloc: Global,
    steps: &PackedVec<'_, u32>,
    settled: &mut [Option<Left>],
) -> Result<(), AllocError>
    requires triples { AreTriples steps.now }
    requires starts { AreStarts steps.now settled.old }
    ensures starts { AreStarts steps.now settled.new }
{
    let mut visited = vec![in alloc; false; steps.len() / 3]?;
    let mut path = all_indices(alloc, steps)?;
    while let Some(index) = path.pop() {
        if settle_at(steps, settled, index) {
            continue;
        }
        if let Some(needed) = needed_at(steps, settled, &visited, index) {
            visited[needed] = true;
            path.push(index)?;
            path.push(needed)?;
        }
    }
    Ok(())
}

/// What steps leave of the triples' characters, where they end. Fails only if memory is refused.
pub(crate) fn settle(
    alloc: Global,
    steps: &PackedVec<'_, u32>,
) -> Result<Vec<Option<Left>>, AllocError>
    requires { AreTriples steps.now }
    ensures starts { IfOk result (λ settled. AreStarts steps.now settled.items) }
    ensures done { IfOk result (λ settled. IsDone steps.now settled.items) }
{
    let mut settled = all_open(alloc, steps)?;
    settle_in_depth(alloc, steps, settled.as_mut_slice())?;
    // Now all are settled that can be, and the last look at each finds no more.
    while settle_once(steps, settled.as_mut_slice()) {}
    Ok(settled)
}

/// No triple is settled yet. Fails only if memory is refused.
fn all_open(alloc: Global, steps: &PackedVec<'_, u32>) -> Result<Vec<Option<Left>>, AllocError>
    ensures { IfOk result (λ settled. AreStarts steps.now settled.items) }
{
    let mut settled = Vec::new(alloc);
    for _ in 0..steps.len() / 3 {
        settled.push(None)?;
    }
    Ok(settled)
}

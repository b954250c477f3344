//! What canonical and compatibility steps leave together, found mapping by mapping.

ghost use Rattle.std.specs.Prelude.{◌≡◌, ◌<◌, ℕ, ◌∷◌, [], true, false, length, slice_get, List, Some, None, MatchOption, IfOk, IfSome, All};
ghost use Rattle.std.specs.Char.{IsScalar};
ghost use Rattle.icu_normalizer_core.specs.CanonicalMeaning.{meaning};
ghost use Rattle.icu_normalizer_core.specs.FirstMappings.{HasFirstIndices};
ghost use Rattle.icu_normalizer_core.specs.Settled.{open_count};
ghost use Rattle.icu_normalizer_core.specs.SettledMappings.{AreMappingStarts, HasOpen, IsAllSettled, IsOpenMapping, IsSound, StartsLeft, mapping_at, steps_in};

use super::given::GivenCompatibility;
use super::mappings::Mappings;
use crate::built_in::{built_in_compatibility_step, built_in_step};
use crate::canonical::check::built_in::step_characters;
use crate::canonical::check::left::Left;
use crate::canonical::full_list::full_list;
use std::alloc::{AllocError, Global};
use std::collections::BTreeMap;

impl Mappings<'_> {
    /// What steps leave of a character without a canonical mapping; `None` where that isn't settled.
    fn listed_left(
        self,
        indices: &BTreeMap<char, usize>,
        settled: &[Option<Left>],
        c: char,
    ) -> Option<Left>
        requires sound { IsSound self }
        requires indices { HasFirstIndices self.given.now indices.now }
        requires starts { AreMappingStarts (steps_in self) self.given.now settled.now }
        requires unmapped { (meaning self.tables.now).step c ≡ [] }
        ensures { MatchOption result (IsOpenMapping self.entry.given.now settled.now c) (StartsLeft (steps_in self.entry) (c ∷ [])) }
    {
        if let Some(step) = built_in_compatibility_step(c as u32) {
            return Some(step_characters(step));
        }
        if built_in_step(c as u32).is_some() {
            return Some(Left::one(c as u32));
        }
        match indices.get(&c).copied() {
            Some(index) => settled[index],
            None => Some(Left::one(c as u32)),
        }
    }

    /// What steps leave of a character; `None` where that isn't settled.
    pub(super) fn left_of(
        self,
        indices: &BTreeMap<char, usize>,
        settled: &[Option<Left>],
        c: char,
    ) -> Option<Left>
        requires sound { IsSound self }
        requires indices { HasFirstIndices self.given.now indices.now }
        requires starts { AreMappingStarts (steps_in self) self.given.now settled.now }
        ensures { MatchOption result (HasOpen (meaning self.entry.tables.now).full self.entry.given.now settled.now (c ∷ [])) (StartsLeft (steps_in self.entry) (c ∷ [])) }
    {
        let mut left = Left::none();
        for d in full_list(self.tables, c) {
            let Some(more) = self.listed_left(indices, settled, d) else {
                return None;
            };
            left = left.joined(more);
        }
        Some(left)
    }

    /// What steps leave of a mapping; `None` where that isn't settled.
    fn mapping_left(
        self,
        indices: &BTreeMap<char, usize>,
        settled: &[Option<Left>],
        mapping: &[char],
    ) -> Option<Left>
        requires sound { IsSound self }
        requires indices { HasFirstIndices self.given.now indices.now }
        requires starts { AreMappingStarts (steps_in self) self.given.now settled.now }
        requires scalars { All IsScalar mapping.now }
        ensures { MatchOption result (HasOpen (meaning self.entry.tables.now).full self.entry.given.now settled.now mapping.now) (StartsLeft (steps_in self.entry) mapping.now) }
    {
        let mut left = Left::none();
        for c in mapping {
            let Some(more) = self.left_of(indices, settled, *c) else {
                return None;
            };
            left = left.joined(more);
        }
        Some(left)
    }

    /// Settles a mapping, where it wasn't settled and can be; whether it was.
    fn settle_at(
        self,
        indices: &BTreeMap<char, usize>,
        settled: &mut [Option<Left>],
        index: usize,
    ) -> bool
        requires sound { IsSound self }
        requires indices { HasFirstIndices self.given.now indices.now }
        requires starts { AreMappingStarts (steps_in self) self.given.now settled.old }
        requires inside { index < length self.given.now }
        ensures starts { AreMappingStarts (steps_in self.entry) self.entry.given.now settled.new }
        ensures progress { result ≡ true → open_count settled.new < open_count settled.old }
        ensures same { result ≡ false → settled.new ≡ settled.old }
        ensures open { result ≡ false → slice_get settled.new index ≡ Some None → HasOpen (meaning self.entry.tables.now).full self.entry.given.now settled.new (mapping_at self.entry.given.now index) }
    {
        if settled[index].is_some() {
            return false;
        }
        let Some(left) = self.mapping_left(indices, settled, self.given[index].mapping.as_slice())
        else {
            return false;
        };
        settled[index] = Some(left);
        true
    }

    /// The index of a character's mapping, where that is neither settled nor visited.
    fn unvisited_index(
        self,
        indices: &BTreeMap<char, usize>,
        settled: &[Option<Left>],
        visited: &[bool],
        c: char,
    ) -> Option<usize>
        requires sound { IsSound self }
        requires indices { HasFirstIndices self.given.now indices.now }
        requires settled { length settled.now ≡ length self.given.now }
        requires visited { length visited.now ≡ length self.given.now }
        ensures { IfSome result (λ index. slice_get visited.now index ≡ Some false) }
    {
        let index = indices.get(&c).copied()?;
        if settled[index].is_some() || visited[index] {
            return None;
        }
        Some(index)
    }

    /// A mapping without which it isn't known what steps leave of a character, neither settled nor visited.
    fn needed_by(
        self,
        indices: &BTreeMap<char, usize>,
        settled: &[Option<Left>],
        visited: &[bool],
        c: char,
    ) -> Option<usize>
        requires sound { IsSound self }
        requires indices { HasFirstIndices self.given.now indices.now }
        requires settled { length settled.now ≡ length self.given.now }
        requires visited { length visited.now ≡ length self.given.now }
        ensures { IfSome result (λ index. slice_get visited.now index ≡ Some false) }
    {
        for d in full_list(self.tables, c) {
            if let Some(needed) = self.unvisited_index(indices, settled, visited, d) {
                return Some(needed);
            }
        }
        None
    }

    /// A mapping without which that at an index can't be settled, neither settled nor visited.
    fn needed_at(
        self,
        indices: &BTreeMap<char, usize>,
        settled: &[Option<Left>],
        visited: &[bool],
        index: usize,
    ) -> Option<usize>
        requires sound { IsSound self }
        requires indices { HasFirstIndices self.given.now indices.now }
        requires settled { length settled.now ≡ length self.given.now }
        requires visited { length visited.now ≡ length self.given.now }
        requires inside { index < length self.given.now }
        ensures { IfSome result (λ index. slice_get visited.now index ≡ Some false) }
    {
        for c in self.given[index].mapping.as_slice() {
            if let Some(needed) = self.needed_by(indices, settled, visited, *c) {
                return Some(needed);
            }
        }
        None
    }

    /// The indices of the mappings, the first one last. Fails only if memory is refused.
    fn all_indices(self, alloc: Global) -> Result<Vec<usize>, AllocError>
        ensures { IfOk result (λ indices. All (λ index. index < length self.entry.given.now) indices.items) }
    {
        let mut indices = Vec::new(alloc);
        for index in (0..self.given.len()).rev() {
            indices.push(index)?;
        }
        Ok(indices)
    }

    /// Settles the mappings that can be, each after those that it needs, by a walk in depth that visits each but once.
    /// Fails only if memory is refused.
    fn settle_in_depth(
        self,
        alloc: Global,
        indices: &BTreeMap<char, usize>,
        settled: &mut [Option<Left>],
    ) -> Result<(), AllocError>
        requires sound { IsSound self }
        requires indices { HasFirstIndices self.given.now indices.now }
        requires starts { AreMappingStarts (steps_in self) self.given.now settled.old }
        ensures starts { AreMappingStarts (steps_in self.entry) self.entry.given.now settled.new }
    {
        let mut visited = vec![in alloc; false; self.given.len()]?;
        let mut path = self.all_indices(alloc)?;
        while let Some(index) = path.pop() {
            if self.settle_at(indices, settled, index) {
                continue;
            }
            if let Some(needed) = self.needed_at(indices, settled, &visited, index) {
                visited[needed] = true;
                path.push(index)?;
                path.push(needed)?;
            }
        }
        Ok(())
    }

    /// Settles the mappings that can be, one after another; whether there was one.
    fn settle_once(self, indices: &BTreeMap<char, usize>, settled: &mut [Option<Left>]) -> bool
        requires sound { IsSound self }
        requires indices { HasFirstIndices self.given.now indices.now }
        requires starts { AreMappingStarts (steps_in self) self.given.now settled.old }
        ensures starts { AreMappingStarts (steps_in self.entry) self.entry.given.now settled.new }
        ensures progress { result ≡ true → open_count settled.new < open_count settled.old }
        ensures done { result ≡ false → IsAllSettled (meaning self.entry.tables.now).full self.entry.given.now settled.new }
    {
        let mut more = false;
        for index in 0..self.given.len() {
            if self.settle_at(indices, settled, index) {
                more = true;
            }
        }
        more
    }

    /// What steps leave of the mappings, where they end. Fails only if memory is refused.
    pub(super) fn settle(
        self,
        alloc: Global,
        indices: &BTreeMap<char, usize>,
    ) -> Result<Vec<Option<Left>>, AllocError>
        requires sound { IsSound self }
        requires indices { HasFirstIndices self.given.now indices.now }
        ensures starts { IfOk result (λ settled. AreMappingStarts (steps_in self.entry) self.entry.given.now settled.items) }
        ensures done { IfOk result (λ settled. IsAllSettled (meaning self.entry.tables.now).full self.entry.given.now settled.items) }
    {
        let mut settled = all_open(alloc, self.given)?;
        self.settle_in_depth(alloc, indices, settled.as_mut_slice())?;
        // Now all are settled that can be, and the last look at each finds no more.
        while self.settle_once(indices, settled.as_mut_slice()) {}
        Ok(settled)
    }
}

/// No mapping is settled yet. Fails only if memory is refused.
fn all_open(alloc: Global, given: &[GivenCompatibility]) -> Result<Vec<Option<Left>>, AllocError>
    ensures { (step : ℕ → List ℕ) → IfOk result (λ settled. AreMappingStarts step given.now settled.items) }
{
    let mut settled = Vec::new(alloc);
    for _ in 0..given.len() {
        settled.push(None)?;
    }
    Ok(settled)
}

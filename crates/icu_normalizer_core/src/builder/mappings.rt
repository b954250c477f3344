//! Compatibility mappings that are given, over canonical tables.

ghost use Rattle.std.specs.Prelude.{◌≡◌, ◌↔◌, ◌==◌, ℕ, cond, IsTrue, Some, None, IfOk, OnOk};
ghost use Rattle.std.specs.BTreeMap.{get};
ghost use Rattle.std.specs.Option.{option_or};
ghost use Rattle.std.specs.Ordering.{nat_cmp};
ghost use Rattle.icu_normalizer_core.specs.BuiltIn.{is_built_in};
ghost use Rattle.icu_normalizer_core.specs.CanonicalMeaning.{meaning};
ghost use Rattle.icu_normalizer_core.specs.FirstMappings.{HasFirstIndices};
ghost use Rattle.icu_normalizer_core.specs.SettledMappings.{AreOnStarters};

use super::given::GivenCompatibility;
use crate::built_in::is_built_in;
use crate::canonical::tables::CanonicalTables;
use std::alloc::{AllocError, Global};
use std::collections::BTreeMap;

/// Compatibility mappings, and the canonical tables over which they stand.
#[derive(Clone, Copy, Debug)]
pub(super) struct Mappings<'t> {
    pub(super) tables: &'t CanonicalTables<'t>,
    pub(super) given: &'t [GivenCompatibility],
}

/// Whether each mapping stands on a starter, what is built in aside.
pub(super) fn are_on_starters(tables: &CanonicalTables<'_>, given: &[GivenCompatibility]) -> bool
    ensures { IsTrue result ↔ AreOnStarters (meaning tables.now).class given.now }
{
    for one in given {
        if !is_built_in(one.character as u32) && tables.class(one.character) != 0 {
            return false;
        }
    }
    true
}

/// The index of the first mapping of each character. Fails only if memory is refused.
pub(super) fn first_indices(
    alloc: Global,
    given: &[GivenCompatibility],
) -> Result<BTreeMap<char, usize>, AllocError>
    ensures { IfOk result (HasFirstIndices given.now) }
{
    let mut indices = BTreeMap::new(alloc);
    for index in 0..given.len() {
        note_index(&mut indices, given[index].character, index)?;
    }
    Ok(indices)
}

/// Notes an index as that of the first mapping of a character, unless another one is. Fails only if memory is refused.
fn note_index(
    indices: &mut BTreeMap<char, usize>,
    character: char,
    index: usize,
) -> Result<(), AllocError>
    ensures { OnOk result ((c : ℕ) → get nat_cmp indices.new c ≡ option_or (get nat_cmp indices.old c) (cond (character == c) (Some index) None)) }
{
    if indices.get(&character).is_none() {
        indices.insert(character, index)?;
    }
    Ok(())
}

//! Whether characters have one mapping each.

ghost use Rattle.std.specs.Prelude.{◌≡◌, ◌==◌, ◌↔◌, ℕ, false, IsTrue, None, Some, All, cond, option_copied, IfOk, OnOk};
ghost use Rattle.std.specs.BTreeMap.{get};
ghost use Rattle.std.specs.Option.{option_or};
ghost use Rattle.std.specs.Ordering.{nat_cmp};
ghost use Rattle.icu_normalizer_core.specs.BuiltIn.{is_built_in};
ghost use Rattle.icu_normalizer_core.specs.CanonicalMaps.{HaveOneMapping, first_mapping};
ghost use Rattle.icu_normalizer_core.specs.CompatibilityMaps.{HaveOneCompatibility};
ghost use Rattle.icu_normalizer_core.specs.FirstMappings.{HasFirstCompatibilities, HasFirstMappings, mapping_of};

use super::given::{GivenCompatibility, GivenMapping};
use crate::built_in::is_built_in;
use std::alloc::{AllocError, Global};
use std::collections::BTreeMap;

/// Notes a mapping as the first of its character, unless another one is. Fails only if memory is refused.
fn note_mapping(
    firsts: &mut BTreeMap<char, GivenMapping>,
    given: GivenMapping,
) -> Result<(), AllocError>
    ensures { OnOk result ((c : ℕ) → get nat_cmp firsts.new c ≡ option_or (get nat_cmp firsts.old c) (cond (given.character == c) (Some given) None)) }
{
    if firsts.get(&given.character).is_none() {
        firsts.insert(given.character, given)?;
    }
    Ok(())
}

/// The first mapping of each character. Fails only if memory is refused.
fn first_mappings(
    alloc: Global,
    mappings: &[GivenMapping],
) -> Result<BTreeMap<char, GivenMapping>, AllocError>
    ensures { IfOk result (HasFirstMappings mappings.now) }
{
    let mut firsts = BTreeMap::new(alloc);
    for given in mappings {
        note_mapping(&mut firsts, *given)?;
    }
    Ok(firsts)
}

/// Whether a mapping is noted, and it is this one.
fn is_mapping(noted: Option<GivenMapping>, given: GivenMapping) -> bool
    ensures { IsTrue result ↔ (noted ≡ Some given) }
{
    noted == Some(given)
}

/// Whether each mapping is the one that is noted of its character.
fn are_noted(firsts: &BTreeMap<char, GivenMapping>, mappings: &[GivenMapping]) -> bool
    ensures { IsTrue result ↔ All (λ g. get nat_cmp firsts.now g.character ≡ Some g) mappings.now }
{
    for given in mappings {
        if !is_mapping(firsts.get(&given.character).copied(), *given) {
            return false;
        }
    }
    true
}

/// Whether no character has two canonical mappings that differ. Fails only if memory is refused.
pub(super) fn have_one_mapping(alloc: Global, mappings: &[GivenMapping]) -> Result<bool, AllocError>
    ensures { IfOk result (λ one. IsTrue one ↔ HaveOneMapping mappings.now) }
{
    let firsts = first_mappings(alloc, mappings)?;
    Ok(are_noted(&firsts, mappings))
}

/// Notes a compatibility mapping as the first of its character, unless another one is. Fails only if memory is refused.
fn note_compatibility<'g>(
    firsts: &mut BTreeMap<char, &'g GivenCompatibility>,
    one: &'g GivenCompatibility,
) -> Result<(), AllocError>
    ensures { OnOk result ((c : ℕ) → get nat_cmp firsts.new c ≡ option_or (get nat_cmp firsts.old c) (cond (one.entry.now.character == c) (Some one.entry) None)) }
{
    if firsts.get(&one.character).is_none() {
        firsts.insert(one.character, one)?;
    }
    Ok(())
}

/// The first compatibility mapping of each character. Fails only if memory is refused.
fn first_compatibilities(
    alloc: Global,
    given: &[GivenCompatibility],
) -> Result<BTreeMap<char, &GivenCompatibility>, AllocError>
    ensures { IfOk result (HasFirstCompatibilities given.now) }
{
    let mut firsts = BTreeMap::new(alloc);
    for one in given {
        note_compatibility(&mut firsts, one)?;
    }
    Ok(firsts)
}

/// The characters of a compatibility mapping; nothing without one.
fn mapping_of(one: Option<&GivenCompatibility>) -> &[char]
    ensures { result.now ≡ mapping_of (option_copied one.entry) }
{
    match one {
        Some(one) => one.mapping.as_slice(),
        None => &[],
    }
}

/// Whether a compatibility mapping is to the same characters as the one that is noted of its character.
fn is_noted(firsts: &BTreeMap<char, &GivenCompatibility>, one: &GivenCompatibility) -> bool
    ensures { IsTrue result ↔ (mapping_of (option_copied (get nat_cmp firsts.now one.now.character)) ≡ one.now.mapping.items) }
{
    let first = firsts.get(&one.character).copied();
    mapping_of(first) == one.mapping.as_slice()
}

/// Whether each compatibility mapping is to the same characters as the one that is noted of its character.
fn are_alike(firsts: &BTreeMap<char, &GivenCompatibility>, given: &[GivenCompatibility]) -> bool
    ensures { IsTrue result ↔ All (λ g. mapping_of (option_copied (get nat_cmp firsts.now g.character)) ≡ g.mapping.items) given.now }
{
    for one in given {
        if !is_noted(firsts, one) {
            return false;
        }
    }
    true
}

/// Whether no character has two compatibility mappings that differ. Fails only if memory is refused.
pub(super) fn have_one_compatibility(
    alloc: Global,
    given: &[GivenCompatibility],
) -> Result<bool, AllocError>
    ensures { IfOk result (λ one. IsTrue one ↔ HaveOneCompatibility given.now) }
{
    let firsts = first_compatibilities(alloc, given)?;
    Ok(are_alike(&firsts, given))
}

/// Whether no mapping is noted of these characters, what is built in aside.
fn are_unnoted(firsts: &BTreeMap<char, GivenMapping>, given: &[GivenCompatibility]) -> bool
    ensures { IsTrue result ↔ All (λ g. is_built_in g.character ≡ false → get nat_cmp firsts.now g.character ≡ None) given.now }
{
    for one in given {
        if !is_built_in(one.character as u32) && firsts.get(&one.character).is_some() {
            return false;
        }
    }
    true
}

/// Whether no character has mappings of both kinds, what is built in aside. Fails only if memory is refused.
pub(super) fn are_apart(
    alloc: Global,
    mappings: &[GivenMapping],
    given: &[GivenCompatibility],
) -> Result<bool, AllocError>
    ensures { IfOk result (λ apart. IsTrue apart ↔ All (λ g. is_built_in g.character ≡ false → first_mapping mappings.now g.character ≡ None) given.now) }
{
    let firsts = first_mappings(alloc, mappings)?;
    Ok(are_unnoted(&firsts, given))
}

//! The weights of a level, in order, and whether one begins another.

ghost use Rattle.std.specs.Prelude.{◌≡◌, ◌↔◌, ◌&&◌, map, IsTrue, IfOk, true};
ghost use Rattle.std.specs.List.{Contains};
ghost use Rattle.icu_collator_types.specs.declared.elements.Element.{Element};
ghost use Rattle.icu_collator_core.specs.ElementLists.{unpacked};
ghost use Rattle.icu_collator_core.specs.Pools.{element_of};
ghost use Rattle.icu_collator_core.specs.WeightLists.{weight_on};
ghost use Rattle.icu_collator_core.specs.WeightRules.{are_apart, are_apart_elements, primary_bytes};

use crate::weight_rules;
use icu_collator_types::elements::CollationElement;
use std::alloc::{AllocError, Global};

/// A level on which weights keep apart.
#[derive(Clone, Copy, Debug)]
pub(super) enum Level {
    /// The first.
    Primary,
    /// The second.
    Secondary,
    /// The third.
    Tertiary,
}

/// The weight of an element on a level, its lead in the uppermost byte.
#[tactic(auto, using(crate::proofs::lookups::PackedLemmas::secondary_of, crate::proofs::lookups::PackedLemmas::tertiary_of))]
fn weight_on(level: Level, element: CollationElement) -> u32
    ensures { result ≡ weight_on level (element_of element) }
{
    match level {
        Level::Primary => element.primary(),
        Level::Secondary => element.secondary() as u32 * 0x1_0000,
        Level::Tertiary => element.non_primary().tertiary() as u32 * 0x1_0000,
    }
}

/// The weights of elements on a level.
fn weights_on(
    alloc: Global,
    level: Level,
    elements: &[CollationElement],
) -> Result<Vec<u32>, AllocError>
    ensures { IfOk result (λ weights. weights.items ≡ map (weight_on level) (unpacked elements.now)) }
{
    let mut weights = Vec::new(alloc);
    for index in 0..elements.len() {
        weights.push(weight_on(level, elements[index]))?;
    }
    Ok(weights)
}

/// Whether no weight of elements begins another one on a level. Fails only if memory is refused.
fn are_apart_on(
    alloc: Global,
    level: Level,
    elements: &[CollationElement],
) -> Result<bool, AllocError>
    ensures { IfOk result (λ yes. IsTrue yes ↔ ((d e : Element) → Contains (unpacked elements.now) d → Contains (unpacked elements.now) e → are_apart primary_bytes (weight_on level d) (weight_on level e) ≡ true)) }
{
    let weights = weights_on(alloc, level, elements)?;
    let apart = weight_rules::are_apart(weights)?;
    Ok(apart)
}

/// Whether three answers are all yes.
fn are_all(primaries: bool, secondaries: bool, tertiaries: bool) -> bool
    ensures { result ≡ (primaries && secondaries && tertiaries) }
{
    primaries && secondaries && tertiaries
}

/// Whether no weight of elements begins another one on its level. Fails only if memory is refused.
pub(super) fn are_apart(alloc: Global, elements: &[CollationElement]) -> Result<bool, AllocError>
    ensures { IfOk result (λ yes. IsTrue yes ↔ ((d e : Element) → Contains (unpacked elements.now) d → Contains (unpacked elements.now) e → are_apart_elements d e ≡ true)) }
{
    let primaries = are_apart_on(alloc, Level::Primary, elements)?;
    let secondaries = are_apart_on(alloc, Level::Secondary, elements)?;
    let tertiaries = are_apart_on(alloc, Level::Tertiary, elements)?;
    Ok(are_all(primaries, secondaries, tertiaries))
}

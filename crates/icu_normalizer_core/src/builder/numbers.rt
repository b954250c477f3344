//! Mappings as numbers, to be put in order.

ghost use Rattle.std.specs.Prelude.{◌≡◌, ◌&&◌, not, flat_map, IfOk, All};
ghost use Rattle.std.specs.Option.{is_some};
ghost use Rattle.icu_normalizer_core.specs.BuiltIn.{built_in_step};
ghost use Rattle.icu_normalizer_core.specs.GivenMaps.{IsOfScalars};
ghost use Rattle.icu_normalizer_core.specs.MapNumbers.{second_code, mapping_number, mapping_numbers, pair_number, pair_numbers, triple, IsMappingNumber};

use super::given::GivenMapping;
use crate::built_in::built_in_step;
use crate::canonical::packing::CODE_LIMIT;
use crate::canonical::steps::NO_SECOND;
use std::alloc::{AllocError, Global};

/// Whether a mapping of the character, or that it has none, is built in.
pub(super) fn is_fixed(c: char) -> bool
    ensures { result ≡ is_some (built_in_step c) }
{
    built_in_step(c as u32).is_some()
}

/// The second character of a mapping, 110000 (hex) where there is none.
fn second_code(given: GivenMapping) -> u64
    ensures { result ≡ second_code given }
{
    match given.second {
        Some(second) => second as u64,
        None => NO_SECOND as u64,
    }
}

/// The number of a mapping.
fn mapping_number(given: GivenMapping) -> u64
    requires { IsOfScalars given }
    ensures { result ≡ mapping_number given }
{
    ((given.character as u64) << 42) + ((given.first as u64) << 21) + second_code(given)
}

/// The number of a composed pair.
fn pair_number(given: GivenMapping) -> u64
    requires { IsOfScalars given }
    ensures { result ≡ pair_number given }
{
    ((given.first as u64) << 42) + (second_code(given) << 21) + given.character as u64
}

/// Whether a mapping composes a character, which isn't built in.
fn is_pair(given: GivenMapping) -> bool
    ensures { result ≡ (given.is_composed && (is_some given.second && not (is_some (built_in_step given.character)))) }
{
    given.is_composed && given.second.is_some() && !is_fixed(given.character)
}

/// The numbers of the mappings that aren't built in. Fails only if memory is refused.
pub(super) fn mapping_numbers(
    alloc: Global,
    mappings: &[GivenMapping],
) -> Result<Vec<u64>, AllocError>
    requires { All IsOfScalars mappings.now }
    ensures { IfOk result (λ numbers. numbers.items ≡ flat_map mapping_numbers mappings.now) }
{
    let mut numbers = Vec::new(alloc);
    for given in mappings {
        if !is_fixed(given.character) {
            numbers.push(mapping_number(*given))?;
        }
    }
    Ok(numbers)
}

/// The numbers of the composed pairs that aren't built in. Fails only if memory is refused.
pub(super) fn pair_numbers(alloc: Global, mappings: &[GivenMapping]) -> Result<Vec<u64>, AllocError>
    requires { All IsOfScalars mappings.now }
    ensures { IfOk result (λ numbers. numbers.items ≡ flat_map pair_numbers mappings.now) }
{
    let mut numbers = Vec::new(alloc);
    for given in mappings {
        if is_pair(*given) {
            numbers.push(pair_number(*given))?;
        }
    }
    Ok(numbers)
}

/// The parts of numbers, three each. Fails only if memory is refused.
pub(super) fn triples(alloc: Global, numbers: &[u64]) -> Result<Vec<u32>, AllocError>
    requires { All IsMappingNumber numbers.now }
    ensures { IfOk result (λ parts. parts.items ≡ flat_map triple numbers.now) }
{
    let mut parts = Vec::new(alloc);
    for n in numbers {
        parts.push((*n >> 42) as u32)?;
        parts.push(((*n >> 21) % CODE_LIMIT) as u32)?;
        parts.push((*n % CODE_LIMIT) as u32)?;
    }
    Ok(parts)
}

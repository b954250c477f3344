//! The mappings of tables, from those that were given.

ghost use Rattle.std.specs.Prelude.{◌≡◌, ◌*◌, ◌/◌, ◌<◌, ◌≤◌, ℕ, cond, [], length, map, nat_eq, IfOk, All};
ghost use Rattle.std.specs.Option.{is_some};
ghost use Rattle.std.specs.Set.{distinct_count};
ghost use Rattle.icu_normalizer_core.specs.BuiltIn.{built_in_step};
ghost use Rattle.icu_normalizer_core.specs.Canonical.{IsFree};
ghost use Rattle.icu_normalizer_core.specs.CanonicalLists.{AreTriples, listed_step};
ghost use Rattle.icu_normalizer_core.specs.CanonicalMaps.{given_step};
ghost use Rattle.icu_normalizer_core.specs.GivenMaps.{IsOfScalars};
ghost use Rattle.icu_normalizer_core.specs.Settled.{key_at};

use super::given::GivenMapping;
use super::in_order::in_order;
use super::numbers::{mapping_numbers, triples};
use crate::canonical::packing::TWO_CODES_LIMIT;
use std::alloc::{AllocError, Global};

/// The mappings that aren't built in, three numbers each in rising order. Fails only if memory is refused.
pub(super) fn steps(alloc: Global, mappings: &[GivenMapping]) -> Result<Vec<u32>, AllocError>
    requires { All IsOfScalars mappings.now }
    ensures triples { IfOk result (λ steps. AreTriples steps.items) }
    ensures listed { IfOk result (λ steps. (c : ℕ) → listed_step steps.items c ≡ cond (is_some (built_in_step c)) [] (given_step mappings.now c)) }
    ensures few { IfOk result (λ steps. length steps.items ≤ 3 * distinct_count nat_eq (map (λ g. g.character) mappings.now)) }
    ensures free { IfOk result (λ steps. (index : ℕ) → index < length steps.items / 3 → IsFree (key_at steps.items index)) }
{
    let numbers = mapping_numbers(alloc, mappings)?;
    let sorted = in_order(alloc, numbers.as_slice(), TWO_CODES_LIMIT)?;
    let steps = triples(alloc, sorted.as_slice())?;
    Ok(steps)
}

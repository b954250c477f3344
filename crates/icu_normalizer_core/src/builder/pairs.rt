//! The composed pairs of tables, from the mappings that were given.

ghost use Rattle.std.specs.Prelude.{◌≡◌, ℕ, ◌<◌, ◌^◌, IfOk, All};
ghost use Rattle.icu_normalizer_core.specs.CanonicalLists.{ArePairs, listed_pair};
ghost use Rattle.icu_normalizer_core.specs.CanonicalMaps.{given_pair};
ghost use Rattle.icu_normalizer_core.specs.GivenMaps.{IsOfScalars};

use super::given::GivenMapping;
use super::in_order::in_order;
use super::numbers::pair_numbers;
use crate::canonical::packing::CODE_LIMIT;
use std::alloc::{AllocError, Global};

/// The composed pairs that aren't built in, one number each in rising order. Fails only if memory is refused.
pub(super) fn pairs(alloc: Global, mappings: &[GivenMapping]) -> Result<Vec<u64>, AllocError>
    requires { All IsOfScalars mappings.now }
    ensures pairs { IfOk result (λ pairs. ArePairs pairs.items) }
    ensures listed { IfOk result (λ pairs. (a b : ℕ) → b < 2 ^ 21 → listed_pair pairs.items a b ≡ given_pair mappings.now a b) }
{
    let numbers = pair_numbers(alloc, mappings)?;
    let sorted = in_order(alloc, numbers.as_slice(), CODE_LIMIT)?;
    Ok(sorted)
}

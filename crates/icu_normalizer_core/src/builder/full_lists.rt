//! The full lists of mapped characters, as words.

ghost use Rattle.std.specs.Prelude.{◌≡◌, ◌/◌, ◌<◌, ◌⊎◌, ℕ, length, IfOk, IfErr};
ghost use Rattle.icu_normalizer_core.specs.declared.builder.given.CanonicalDataBuildError.TheVariants.{Rules, Memory};
ghost use Rattle.icu_normalizer_core.specs.Canonical.{IsFree};
ghost use Rattle.icu_normalizer_core.specs.CanonicalLists.{AreTriples};
ghost use Rattle.icu_normalizer_core.specs.CharacterWords.{AreListWords, HasBadEnd, HasLongLists};
ghost use Rattle.icu_normalizer_core.specs.Settled.{key_at};

use super::given::CanonicalDataBuildError;
use super::list_words::{ListWords, list_words};
use crate::canonical::check::settle::settle;
use icu_packed_vector::PackedVec;
use std::alloc::Global;

/// The words of what mapping steps leave of mapped characters. `Rules` where steps don't end or leave more than eight
/// characters, or the lists take more slots than words name.
pub(super) fn full_lists(
    alloc: Global,
    steps: &PackedVec<'_, u32>,
) -> Result<ListWords, CanonicalDataBuildError>
    requires triples { AreTriples steps.now }
    requires free { (index : ℕ) → index < length steps.now / 3 → IsFree (key_at steps.now index) }
    ensures words { IfOk result (AreListWords steps.now) }
    ensures refused { IfErr result (λ e. (e ≡ Memory) ⊎ ((e ≡ Rules) × (HasBadEnd steps.now ⊎ HasLongLists steps.now))) }
{
    let settled = settle(alloc, steps)?;
    match list_words(alloc, settled.as_slice()) {
        Ok(lists) => Ok(lists),
        Err(error) => Err(error),
    }
}

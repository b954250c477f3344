//! Sets of code points: building one, and asking it.
ghost use Rattle.std.specs.Prelude.{◌≡◌, ◌<◌, ◌↔◌, ◌&&◌, ◌||◌, ℕ, IsTrue, IfOk};
ghost use Rattle.icu_collections_sets.specs.CodePoints.{holds, count_below};
ghost use Rattle.icu_collections_sets.specs.SetEdits.{in_range};

use icu_collections_sets::codepointinvlist::{
    CodePointInversionList, CodePointInversionListBuilder,
};
use std::alloc::{AllocError, Global};
use std::ops::RangeInclusive;

/// The set of the code points of two ranges.
pub fn set_of_ranges(
    alloc: Global,
    first: RangeInclusive<u32>,
    second: RangeInclusive<u32>,
) -> Result<CodePointInversionList<'static>, AllocError>
    ensures { IfOk result (λ set. (c : ℕ) → holds set c ≡ (in_range first c || in_range second c)) }
{
    let mut builder = CodePointInversionListBuilder::new(alloc);
    builder.add_range32(first)?;
    builder.add_range32(second)?;
    builder.build()
}

/// Whether the set holds both characters. It takes no memory.
pub fn holds_both(set: &CodePointInversionList<'_>, first: char, second: char) -> bool
    ensures { result ≡ (holds set.now first && holds set.now second) }
{
    set.contains(first) && set.contains(second)
}

/// Whether the first set holds more code points than the second. It takes no memory.
pub fn is_larger(first: &CodePointInversionList<'_>, second: &CodePointInversionList<'_>) -> bool
    ensures { IsTrue result ↔ (count_below (holds second.now) 0x110000 < count_below (holds first.now) 0x110000) }
{
    first.size() > second.size()
}

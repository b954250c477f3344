//! The reordering of compiled tables.

ghost use Rattle.std.specs.Prelude.{◌≡◌, ℕ, ◌<◌, length, map, slice_index, IfOk};
ghost use Rattle.collate_lines.specs.Record.{said};
ghost use Rattle.collate_rules.specs.KeptSettings.{AreSoundlySet};
ghost use Rattle.collate_rules.specs.Meaning.{place_among};
ghost use Rattle.collate_compile.specs.Compiled.{IsReorderingOf};

use crate::set_lines::{place_among, reordered};
use collate_lines::record::Record;
use icu_collator_core::tables::CollationReordering;
use icu_packed_vector::PackedVec;
use std::alloc::{AllocError, Global};

/// The lead that takes the place of each lead among pairs.
///
/// Errors: `AllocError` where memory is refused.
fn places(alloc: Global, pairs: &[(u8, u8)]) -> Result<Vec<u8>, AllocError>
    ensures count { IfOk result (λ bytes. length bytes.items ≡ 256) }
    ensures places { IfOk result (λ bytes. (lead : ℕ) → lead < 256
        → slice_index bytes.items lead ≡ place_among pairs.now lead) }
{
    let mut bytes = Vec::new(alloc);
    for lead in 0..256u16 {
        bytes.push(place_among(pairs, lead as u8))?;
    }
    Ok(bytes)
}

/// The reordering that lines set: a byte for each lead; none where they set none.
///
/// Errors: `AllocError` where memory is refused.
pub(crate) fn reordering(
    alloc: Global,
    lines: &[Record],
) -> Result<Option<CollationReordering<'static>>, AllocError>
    requires { AreSoundlySet (map said lines.now) }
    ensures { IfOk result (IsReorderingOf (map said lines.now)) }
{
    let pairs = reordered(lines);
    if pairs.is_empty() {
        return Ok(None);
    }
    let bytes = places(alloc, pairs)?;
    let reorder_table = PackedVec::from_slice(alloc, bytes.as_slice())?;
    let reorder_ranges = PackedVec::from_slice(alloc, &[])?;
    Ok(Some(CollationReordering {
        min_high_no_reorder: 0,
        reorder_table,
        reorder_ranges,
    }))
}

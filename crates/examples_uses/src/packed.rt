//! Packed vectors: making one, and reading it.
ghost use Rattle.std.specs.Prelude.{◌≡◌, ◌↔◌, IsTrue, IfOk, slice_get};
ghost use Rattle.std.specs.List.{Contains};

use icu_collections_sets::packed_vector::PackedVec;
use std::alloc::{AllocError, Global};

/// The item at a place, after all of them were packed.
pub fn pack_and_get(alloc: Global, items: &[u32], place: usize) -> Result<Option<u32>, AllocError>
    ensures { IfOk result (λ item. item ≡ slice_get items.now place) }
{
    let packed = PackedVec::from_slice(alloc, items)?;
    Ok(packed.get(place))
}

/// Whether a character is among the items. It takes no memory.
pub fn has_item(packed: &PackedVec<'_, char>, sought: char) -> bool
    ensures { IsTrue result ↔ Contains packed.now sought }
{
    packed.iter().any(|item| item == sought)
}

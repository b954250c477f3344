//! The elements of a text that is read flat or by stretches, into an array.

ghost use Rattle.std.specs.Prelude.{◌≡◌, ◌≤◌, [], All, IfOk, drop, length, true};
ghost use Rattle.std.specs.Char.{IsScalar};
ghost use Rattle.icu_collator_core.specs.ElementLists.{unpacked};
ghost use Rattle.icu_collator_core.specs.ElementTexts.{text_elements};

use crate::common_front::behind;
use crate::encodings::Characters;
use icu_collator_core::checked::CheckedTables;
use icu_collator_core::flat::FlatElements;
use std::alloc::{AllocError, Global};

/// Reads what stands in a text after so many characters into an empty list: flat, or else by stretches; `false` where it can't be read
/// so, or the list has no room, and then what the list has is not said. Fails only if memory is refused.
#[inline(always)]
pub(crate) fn read_elements<T: Characters, const N: usize>(
    alloc: Global,
    checked: &CheckedTables<'_>,
    numeric: Option<u8>,
    text: T,
    index: usize,
    elements: &mut FlatElements<N>,
) -> Result<bool, AllocError>
    requires reaches { index ≤ length (T.characters text) }
    requires empty { elements.old.items ≡ [] }
    ensures elements { IfOk result (λ is_read. is_read ≡ true → unpacked elements.new.items ≡ text_elements checked.now numeric (drop index (T.characters text))) }
    ensures scalars { All IsScalar (T.characters text) }
{
    if checked.read_flat(numeric, behind(text.chars(), index), elements) {
        return Ok(true);
    }
    let chars = behind(text.chars(), index);
    let is_read = checked.read_stretches(alloc, numeric, chars, elements)?;
    Ok(is_read)
}

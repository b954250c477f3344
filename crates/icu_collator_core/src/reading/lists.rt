//! The elements of a decomposed list, by the tables alone.

ghost use Rattle.std.specs.Prelude.{◌≡◌, [], true, IfOk, OnOk, is_some};
ghost use lib.Utf8.{scalars};
ghost use Rattle.icu_collator_core.specs.ElementLists.{unpacked};
ghost use Rattle.icu_collator_core.specs.Elements.{elements_of_list};
ghost use Rattle.icu_collator_core.specs.ReadSources.{canonical_by, weights_by};

use super::next::read_next;
use crate::sound::SoundTables;
use icu_collator_types::elements::CollationElement;
use smallvec::SmallVec;
use std::alloc::{AllocError, Global};

/// Appends the elements of a decomposed list, whose marks may change places. Fails only if memory is refused.
fn push_all(
    sound: &SoundTables<'_>,
    numeric: Option<u8>,
    list: &mut SmallVec<char, 64>,
    elements: &mut SmallVec<CollationElement, 32>,
) -> Result<(), AllocError>
    requires characters { scalars list.old.items ≡ true }
    requires empty { elements.old.items ≡ [] }
    ensures { OnOk result (unpacked elements.new.items ≡ elements_of_list (canonical_by sound.now) (weights_by numeric sound.now) (is_some numeric) list.old.items) }
{
    let mut index = 0;
    'reading: while index < list.len() {
        index = read_next(sound, numeric, list, index, elements)?;
    }
    Ok(())
}

/// The elements of a decomposed list, by these tables. Where a lead byte is given, digits that stand together are read as
/// a number, whose primaries have this lead byte. Fails only if memory is refused.
pub(crate) fn list_elements(
    alloc: Global,
    sound: &SoundTables<'_>,
    numeric: Option<u8>,
    mut list: SmallVec<char, 64>,
) -> Result<SmallVec<CollationElement, 32>, AllocError>
    requires { scalars list.items ≡ true }
    ensures { IfOk result (λ elements. unpacked elements.items ≡ elements_of_list (canonical_by sound.now) (weights_by numeric sound.now) (is_some numeric) list.items) }
{
    let mut elements = SmallVec::new(alloc);
    push_all(sound, numeric, &mut list, &mut elements)?;
    Ok(elements)
}

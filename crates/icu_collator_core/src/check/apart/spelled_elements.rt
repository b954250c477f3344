//! The elements that words spell, in a list.

ghost use Rattle.std.specs.Prelude.{OnOk};
ghost use Rattle.icu_collator_core.specs.ElementLists.{unpacked};
ghost use Rattle.icu_collator_core.specs.TableMeaning.{pools_of};
ghost use Rattle.icu_collator_core.specs.WeightLists.{AreSpelling, Grows};

use crate::table_words::word_elements::push_elements;
use crate::tables::CollationData;
use icu_collator_types::elements::CollationElement;
use smallvec::SmallVec;
use std::alloc::AllocError;

/// The elements of all words of a list.
pub(super) fn gather_spelled(
    elements: &mut SmallVec<CollationElement, 32>,
    source: &CollationData<'_>,
    words: &[u32],
) -> Result<(), AllocError>
    ensures { OnOk result (Grows (AreSpelling (pools_of source.now) words.now) (unpacked elements.old.items) (unpacked elements.new.items)) }
{
    for index in 0..words.len() {
        push_elements(source, words[index], elements)?;
    }
    Ok(())
}

//! Secondaries backward: reversed in each segment that U+FFFE ends.

ghost use Rattle.std.specs.Prelude.{◌≡◌, ◌++◌, [], IfOk, OnOk, map, reverse};
ghost use Rattle.icu_collator.specs.LevelLists.{counted_list};
ghost use Rattle.icu_collator.specs.Levels.{backward_from};
ghost use Rattle.icu_collator.specs.Order.{secondary_rank};

use super::counted_elements::counted_element;
use super::weights::{is_segment_end, secondary_rank_at};
use icu_collator_types::elements::CollationElement;
use smallvec::SmallVec;
use std::alloc::{AllocError, Global};

/// The rank of the end of a segment, below those of all weights.
const SEGMENT_END_RANK: u32 = 0;

/// Moves the ranks of a segment to the end of a list, the last first. Fails only if memory is refused.
fn move_reversed(
    segment: &mut SmallVec<u32, 32>,
    list: &mut SmallVec<u32, 32>,
) -> Result<(), AllocError>
    ensures list { OnOk result (list.new.items ≡ list.old.items ++ reverse segment.old.items) }
    ensures segment { OnOk result (segment.new.items ≡ []) }
{
    'ranks: while let Some(rank) = segment.pop() {
        list.push(rank)?;
    }
    Ok(())
}

/// The ranks of the secondaries, reversed in each segment. Fails only if memory is refused.
pub(super) fn backward_ranks(
    alloc: Global,
    elements: &[CollationElement],
    variable_end: u32,
) -> Result<SmallVec<u32, 32>, AllocError>
    ensures { IfOk result (λ list. list.items ≡ map secondary_rank (backward_from [] (counted_list variable_end elements.now))) }
{
    let mut list = SmallVec::new(alloc);
    let mut segment: SmallVec<u32, 32> = SmallVec::new(alloc);
    for element in elements {
        if is_segment_end(counted_element(*element, variable_end)) {
            move_reversed(&mut segment, &mut list)?;
            list.push(SEGMENT_END_RANK)?;
        } else if let Some(rank) = secondary_rank_at(counted_element(*element, variable_end)) {
            segment.push(rank)?;
        }
    }
    move_reversed(&mut segment, &mut list)?;
    Ok(list)
}

//! What primaries stand in the place of others.

ghost use Rattle.std.specs.Prelude.{◌≡◌, IfOk};
ghost use Rattle.icu_collator_core.specs.TableSettings.{led_by, moved_in_parts, reordered_by, without_byte};

use icu_packed_vector::PackedVec;
use std::alloc::{AllocError, Global};

/// What primaries stand in the place of others.
#[derive(Debug, PartialEq)]
pub struct CollationReordering<'a> {
    /// From this primary on, one whose lead has no byte in `reorder_table` stays.
    pub min_high_no_reorder: u32,
    /// The byte that takes the place of each lead; 0 where there is none for the whole lead.
    pub reorder_table: PackedVec<'a, u8>,
    /// For leads that are cut, in rising order: in the upper half of each where a part ends, in its low
    /// byte what is added to the lead of a primary in that part.
    pub reorder_ranges: PackedVec<'a, u32>,
}

// (let go of as one, and not part by part, so that what owns one is proved sooner)
impl Drop for CollationReordering<'_> {
    fn drop(self) {
        let CollationReordering {
            min_high_no_reorder: _,
            reorder_table: _,
            reorder_ranges: _,
        } = self;
    }
}

/// The primary with this lead byte in the place of its own.
#[inline]
fn with_lead(lead: u8, primary: u32) -> u32
    ensures { result ≡ led_by lead primary }
{
    ((lead as u32) << 24) + (primary & 0xff_ffff)
}

impl<'a> CollationReordering<'a> {
    /// The primary that stands in the place of another.
    #[tactic(auto, unfolding(crate::specs::TableSettings::reordered_by))]
    pub fn reorder(&self, primary: u32) -> u32
        ensures { result ≡ reordered_by self.now primary }
    {
        match self.reorder_table.get((primary >> 24) as usize) {
            Some(0) => self.reorder_without_byte(primary),
            Some(lead) => with_lead(lead, primary),
            None => primary,
        }
    }

    /// The primary that stands in the place of one whose lead has no byte.
    fn reorder_without_byte(&self, primary: u32) -> u32
        ensures { result ≡ without_byte self.now primary }
    {
        if primary <= 1 || primary >= self.min_high_no_reorder {
            primary
        } else {
            self.reorder_in_parts(primary)
        }
    }

    /// The primary that stands in the place of one in a lead that is cut.
    fn reorder_in_parts(&self, primary: u32) -> u32
        ensures { result ≡ moved_in_parts self.now.reorder_ranges primary }
    {
        let last = (primary >> 16 << 16) + 0xffff;
        for range in self.reorder_ranges.iter() {
            if last < range {
                let lead = (primary >> 24) as u8;
                return with_lead(lead.wrapping_add((range & 0xff) as u8), primary);
            }
        }
        primary
    }

    /// The same reordering: borrowed lists are borrowed again, others copied. Fails only if memory is refused.
    pub fn clone(&self, alloc: Global) -> Result<CollationReordering<'a>, AllocError>
        ensures { IfOk result (λ copy. copy ≡ self.now) }
    {
        let reorder_table = self.reorder_table.clone(alloc)?;
        let reorder_ranges = self.reorder_ranges.clone(alloc)?;
        Ok(CollationReordering {
            min_high_no_reorder: self.min_high_no_reorder,
            reorder_table,
            reorder_ranges,
        })
    }
}

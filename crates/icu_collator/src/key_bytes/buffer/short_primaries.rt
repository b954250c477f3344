//! Short primaries: those of two bytes. After no run those of a plain lead follow one another, and in a run those of its lead,
//! without their first bytes.

ghost use Rattle.std.specs.Prelude.{◌≡◌, ◌<◌, ◌≤◌, ◌/◌, ◌^◌, ◌∷◌, ◌++◌, [], All, bit_and, flat_map, length, true};
ghost use Rattle.icu_collator_core.specs.WeightRules.{primary_rest};
ghost use Rattle.icu_collator.specs.PlainPrimaries.{GivesPlain, between, own_bytes};

use super::{KeyBytes, ROOM};
use icu_collator_types::elements::CollationElement;

/// Whether a primary has two bytes, the first of them this lead.
#[inline(always)]
pub(in crate::key_bytes) fn is_short(primary: u32, lead: u16) -> bool
    ensures lead { result ≡ true → lead ≡ primary / 2 ^ 24 }
    ensures low { result ≡ true → lead < 256 }
    ensures rest { result ≡ true → primary_rest primary ≡ bit_and (primary / 2 ^ 16) 0xff ∷ [] }
{
    if primary & 0xffff != 0 {
        return false;
    }
    let first = u32::from(lead) * 256 + 1;
    (primary >> 16).wrapping_sub(first) < 255
}

impl KeyBytes {
    /// Appends the short primaries with this lead of the elements from an index on, each without so many of its first bytes, up to
    /// the first element with another primary, or with one below this end; or as many as there is room for without memory. Answers
    /// the index after them.
    #[inline(always)]
    pub(crate) fn put_short_primaries(
        &mut self,
        elements: &[CollationElement],
        variable_end: u32,
        from: usize,
        lead: u16,
        left_out: usize,
    ) -> usize
        requires within { from ≤ length elements.now }
        requires few { left_out ≤ 1 }
        ensures onward { from ≤ result }
        ensures within { result ≤ length elements.now }
        ensures plain { All (GivesPlain lead variable_end) (between from result elements.now) }
        ensures put { self.new.items ≡ self.old.items ++ flat_map (own_bytes left_out) (between from result elements.now) }
    {
        // (kept apart from the key while the loop runs, so that it isn't stored for each element)
        let mut length = self.length;
        let mut index = from;
        'elements: while index < elements.len() && length <= ROOM - 2 {
            let primary = elements[index].primary();
            if primary != 0 {
                if primary < variable_end || !is_short(primary, lead) {
                    break 'elements;
                }
                self.array[length] = lead as u8;
                self.array[length + 1 - left_out] = ((primary >> 16) & 0xff) as u8;
                length = length + 2 - left_out;
            }
            index += 1;
        }
        self.length = length;
        index
    }
}

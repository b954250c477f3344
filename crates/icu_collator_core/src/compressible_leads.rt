//! Which lead bytes are compressible, found once for all and looked up by one read.

ghost use Rattle.std.specs.Prelude.{◌≡◌, false, slice_index_or};
ghost use Rattle.icu_collator_core.specs.CompressibleLeads.{AreCompressibleLeads};

use crate::tables::CollationSpecialPrimaries;

/// How many lead bytes there are.
const LEAD_COUNT: usize = 256;

/// For each lead byte whether it is compressible.
pub(crate) fn compressible_leads(special: &CollationSpecialPrimaries<'_>) -> [bool; 256]
    ensures { AreCompressibleLeads special.now.last_primaries result }
{
    let mut leads = [false; LEAD_COUNT];
    for lead in 0..LEAD_COUNT {
        leads[lead] = special.is_compressible(lead as u8);
    }
    leads
}

/// What such a list says of a lead byte.
#[inline(always)]
pub(crate) fn is_compressible_by(leads: &[bool; 256], lead: u8) -> bool
    ensures { result ≡ slice_index_or leads.now lead false }
{
    leads[lead as usize]
}

//! The groups of primaries that may be variable, the leads that are compressible, and that of numbers.

ghost use Rattle.std.specs.Prelude.{◌≡◌, IfOk};
ghost use Rattle.icu_collator_core.specs.TableSettings.{is_compressible_in};

use icu_packed_vector::PackedVec;
use std::alloc::{AllocError, Global};

/// How many groups there are.
const GROUP_COUNT: usize = 4;

/// The number of values where 16 words of compressible leads stand after the groups.
const COUNT_WITH_COMPRESSIBLE_BYTES: usize = 20;

/// The groups of primaries that may be variable, the leads that are compressible, and that of numbers.
#[derive(Debug, PartialEq, Drop)]
pub struct CollationSpecialPrimaries<'a> {
    /// The upper halves of the first primaries after spaces, punctuation, symbols and currency signs. Of 20
    /// values the last 16 are a bit for each lead byte, set where it is compressible.
    pub last_primaries: PackedVec<'a, u16>,
    /// The lead byte of numbers.
    pub numeric_primary: u8,
}

impl<'a> CollationSpecialPrimaries<'a> {
    /// Whether a lead byte is left out of a key after a primary with the same lead. Where the tables don't
    /// say, 61 to 80 and FE (hex) are.
    #[tactic(auto, unfolding(crate::specs::TableSettings::is_compressible_in))]
    pub fn is_compressible(&self, lead: u8) -> bool
        ensures { result ≡ is_compressible_in self.now.last_primaries lead }
    {
        if self.last_primaries.len() != COUNT_WITH_COMPRESSIBLE_BYTES {
            return (lead >= 0x61 && lead <= 0x80) || lead == 0xfe;
        }
        match self.last_primaries.get(GROUP_COUNT + (lead / 16) as usize) {
            Some(word) => (word >> (lead % 16)) & 1 == 1,
            None => false,
        }
    }

    /// The same groups and leads: borrowed again, or copied. Fails only if memory is refused.
    pub fn clone(&self, alloc: Global) -> Result<CollationSpecialPrimaries<'a>, AllocError>
        ensures { IfOk result (λ copy. copy ≡ self.now) }
    {
        let last_primaries = self.last_primaries.clone(alloc)?;
        Ok(CollationSpecialPrimaries {
            last_primaries,
            numeric_primary: self.numeric_primary,
        })
    }
}

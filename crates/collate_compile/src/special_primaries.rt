//! The special primaries of compiled tables: where groups end, compressible leads, and the lead of numbers.

ghost use Rattle.std.specs.Prelude.{◌≡◌, ℕ, ◌+◌, ◌*◌, ◌<◌, map, IfOk};
ghost use Rattle.icu_collator_core.specs.TableSettings.{has_bit};
ghost use Rattle.collate_lines.specs.Record.{said};
ghost use Rattle.collate_rules.specs.KeptSettings.{AreSoundlySet};
ghost use Rattle.collate_rules.specs.Meaning.{is_compressible_in};
ghost use Rattle.collate_compile.specs.Compiled.{ArePrimariesOf};

use crate::by_lines::is_compressible;
use crate::set_lines::{group_ends, numeric_lead};
use collate_lines::record::Record;
use icu_collator_core::tables::CollationSpecialPrimaries;
use icu_packed_vector::PackedVec;
use std::alloc::{AllocError, Global};

/// Which of 16 leads are compressible: a bit for each, the lowest for the first.
fn compressible_bits(lines: &[Record], part: u8) -> u16
    requires { part < 16 }
    ensures { (index : ℕ) → index < 16
        → has_bit index result ≡ is_compressible_in (map said lines.now) (16 * part + index) }
{
    let mut bits: u16 = 0;
    for i in 0..16u8 {
        let lead = part * 16 + (15 - i);
        bits = bits * 2 + u16::from(is_compressible(lines, lead));
    }
    bits
}

/// The special primaries that lines set.
///
/// Errors: `AllocError` where memory is refused.
pub(crate) fn special_primaries(
    alloc: Global,
    lines: &[Record],
) -> Result<CollationSpecialPrimaries<'static>, AllocError>
    requires { AreSoundlySet (map said lines.now) }
    ensures { IfOk result (ArePrimariesOf (map said lines.now)) }
{
    let mut values = Vec::new(alloc);
    values.extend_from_slice(&group_ends(lines))?;
    for part in 0..16u8 {
        values.push(compressible_bits(lines, part))?;
    }
    let last_primaries = PackedVec::from_slice(alloc, values.as_slice())?;
    Ok(CollationSpecialPrimaries {
        last_primaries,
        numeric_primary: numeric_lead(lines),
    })
}

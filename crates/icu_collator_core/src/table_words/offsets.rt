//! The primaries of characters in a range, and whether they keep the rules.

ghost use Rattle.std.specs.Prelude.{◌≡◌, ◌+◌, ◌-◌, ◌*◌, ◌/◌, ◌%◌, ◌^◌, ◌<◌};
ghost use Rattle.icu_collator_core.specs.Defaults.{moved_primary};
ghost use Rattle.icu_collator_core.specs.Pools.{offset_primary};
ghost use Rattle.icu_collator_core.specs.WeightFaults.{is_sound_offset, leads_of};
ghost use Rattle.icu_collator_core.specs.WeightRules.{is_sound_ranged};

use crate::tables::CollationSpecialPrimaries;
use crate::weight_rules::{
    is_sound_primary, keeps_lead, lowest_second, second_count, second_place, third_place,
};

/// A primary moved on.
#[tactic(auto, unfolding(crate::specs::Defaults::moved_primary))]
fn moved_primary(compressible: bool, primary: u32, by: u32) -> u32
    requires { by < 2 ^ 29 }
    ensures { result ≡ moved_primary compressible primary by }
{
    let lowest = lowest_second(compressible);
    let second = lowest + second_place(compressible, primary, by) % second_count(compressible);
    let third = 2 + third_place(primary, by) % 254;
    ((primary >> 24) << 24) + (second << 16) + (third << 8)
}

/// How far the entry of a range moves its primary for a character.
fn moved_by(bits: u64, c: u32) -> u32
    requires { c < 0x110000 }
    ensures by { result ≡ (c - bits / 2 ^ 8 % 2 ^ 24) * (bits % 2 ^ 7) }
    ensures bound { result < 2 ^ 29 }
{
    let base = ((bits >> 8) & 0xff_ffff) as u32;
    c.saturating_sub(base) * (bits & 0x7f) as u32
}

/// The primary of a character in a range, by the range's entry.
#[tactic(auto, unfolding(crate::specs::Pools::offset_primary))]
pub(crate) fn offset_primary(bits: u64, c: u32) -> u32
    requires { c < 0x110000 }
    ensures { result ≡ offset_primary bits c }
{
    moved_primary((bits >> 7) & 1 == 1, (bits >> 32) as u32, moved_by(bits, c))
}

/// Whether a primary is one that a range may give.
fn is_sound_ranged(special: &CollationSpecialPrimaries<'_>, primary: u32) -> bool
    ensures { result ≡ is_sound_ranged (leads_of special.now) primary }
{
    is_sound_primary(special, primary) && primary & 0xff == 0 && (primary >> 8) & 0xff != 0
}

/// Whether the entry of a range gives a character a primary that keeps the rules.
#[tactic(auto, unfolding(crate::specs::WeightFaults::is_sound_offset))]
pub(crate) fn is_sound_offset(special: &CollationSpecialPrimaries<'_>, bits: u64, c: u32) -> bool
    requires { c < 0x110000 }
    ensures { result ≡ is_sound_offset special.now bits c }
{
    let base = ((bits >> 8) & 0xff_ffff) as u32;
    base <= c
        && keeps_lead((bits >> 7) & 1 == 1, (bits >> 32) as u32, moved_by(bits, c))
        && is_sound_ranged(special, offset_primary(bits, c))
}

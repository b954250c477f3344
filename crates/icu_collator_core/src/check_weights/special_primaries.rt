//! Whether groups, compressible leads and the lead of numbers keep the rules on settings.

ghost use Rattle.std.specs.Prelude.{◌≡◌, ◌↔◌, ◌∷◌, [], IsTrue};
ghost use Rattle.std.specs.List.{list_all};
ghost use Rattle.icu_collator_core.specs.SettingRules.{are_sound_groups, is_sound_group, never_falls};
ghost use Rattle.icu_collator_core.specs.TableSettings.{groups_of};
ghost use Rattle.icu_collator_core.specs.WeightFaults.{AreSoundCompressible, AreSoundSpecialPrimaries, KeepsCompressibleLead, may_be_compressible};

use crate::tables::CollationSpecialPrimaries;
use crate::weight_rules::is_letter_lead;
use icu_packed_vector::PackedVec;

/// Whether a group ends where it may: not below letters, and not within numbers.
fn is_sound_group(numeric_lead: u8, group: u16) -> bool
    ensures { result ≡ is_sound_group numeric_lead group }
{
    let first = (numeric_lead as u16) * 256;
    group >= 0x300 && !(group >= first + 1 && group <= first + 0xff)
}

/// Whether each of four groups ends where it may.
fn are_sound_ends(numeric_lead: u8, first: u16, second: u16, third: u16, fourth: u16) -> bool
    ensures { result ≡ list_all (is_sound_group numeric_lead) (first ∷ second ∷ third ∷ fourth ∷ []) }
{
    is_sound_group(numeric_lead, first)
        && is_sound_group(numeric_lead, second)
        && is_sound_group(numeric_lead, third)
        && is_sound_group(numeric_lead, fourth)
}

/// Whether none of four groups is below the one before it.
fn never_falls(first: u16, second: u16, third: u16, fourth: u16) -> bool
    ensures { result ≡ never_falls (first ∷ second ∷ third ∷ fourth ∷ []) }
{
    first <= second && second <= third && third <= fourth
}

/// Whether the first four values are groups that end where they may, none below the one before it.
fn are_sound_groups(numeric_lead: u8, last_primaries: &PackedVec<'_, u16>) -> bool
    ensures { result ≡ are_sound_groups numeric_lead (groups_of last_primaries.now) }
{
    if last_primaries.len() < 4 {
        return false;
    }
    let first = last_primaries.at(0);
    let second = last_primaries.at(1);
    let third = last_primaries.at(2);
    let fourth = last_primaries.at(3);
    if !are_sound_ends(numeric_lead, first, second, third, fourth) {
        return false;
    }
    never_falls(first, second, third, fourth)
}

/// Whether a lead byte may be left out of a key after a primary with the same lead.
fn may_be_compressible(lead: u8) -> bool
    ensures { result ≡ may_be_compressible lead }
{
    is_letter_lead(lead) || lead == 0xfe
}

/// Whether a lead is not compressible, or may be.
fn keeps_compressible(special: &CollationSpecialPrimaries<'_>, lead: u8) -> bool
    ensures { IsTrue result ↔ KeepsCompressibleLead special.now.last_primaries lead }
{
    !special.is_compressible(lead) || may_be_compressible(lead)
}

/// Whether no other lead is compressible.
fn are_sound_compressible(special: &CollationSpecialPrimaries<'_>) -> bool
    ensures { IsTrue result ↔ AreSoundCompressible special.now.last_primaries }
{
    for lead in 0..0x100u32 {
        if !keeps_compressible(special, lead as u8) {
            return false;
        }
    }
    true
}

/// Whether groups, compressible leads and the lead of numbers keep the rules on settings.
pub(crate) fn are_sound_special_primaries(special: &CollationSpecialPrimaries<'_>) -> bool
    ensures { IsTrue result ↔ AreSoundSpecialPrimaries special.now }
{
    is_letter_lead(special.numeric_primary)
        && are_sound_groups(special.numeric_primary, &special.last_primaries)
        && are_sound_compressible(special)
}

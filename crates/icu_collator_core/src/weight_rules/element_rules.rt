//! The rules on one element: V1 to V4.

ghost use Rattle.std.specs.Prelude.{◌≡◌, ◌&&◌, ◌∷◌, [], not};
ghost use Rattle.icu_collator_core.specs.WeightRules.{are_inner_bytes, is_empty, is_letter_lead, is_sound_element, is_sound_kind, is_sound_primary, is_sound_secondary, is_sound_tertiary, primary_rest};

use super::lead_bytes::LeadBytes;
use icu_collator_types::elements::{COMMON_WEIGHT, Element};

/// Whether a lead byte may be used by letters, numbers and ranges.
pub fn is_letter_lead(lead: u8) -> bool
    ensures { result ≡ is_letter_lead lead }
{
    lead >= 0x03 && lead <= 0xfc
}

/// Whether none of three bytes is one that ends or separates levels.
fn are_three_inner(second: u32, third: u32, fourth: u32) -> bool
    ensures { result ≡ are_inner_bytes (second ∷ third ∷ fourth ∷ []) }
{
    second >= 2 && third >= 2 && fourth >= 2
}

/// The same of two.
fn are_two_inner(second: u32, third: u32) -> bool
    ensures { result ≡ are_inner_bytes (second ∷ third ∷ []) }
{
    second >= 2 && third >= 2
}

/// Whether bytes stand after a primary's lead, none of them one that ends or separates levels; those of
/// 00 at the end aside.
fn is_sound_rest(primary: u32) -> bool
    ensures { result ≡ (not (is_empty (primary_rest primary)) && are_inner_bytes (primary_rest primary)) }
{
    let second = (primary >> 16) % 256;
    let third = (primary >> 8) % 256;
    let fourth = primary % 256;
    if fourth != 0 {
        return are_three_inner(second, third, fourth);
    }
    if third != 0 {
        return are_two_inner(second, third);
    }
    second >= 2
}

/// Whether a primary keeps the rule on primaries, V2.
pub fn is_sound_primary<L: LeadBytes>(leads: &L, primary: u32) -> bool
    ensures { result ≡ is_sound_primary (L.weights leads.now) primary }
{
    let lead = (primary >> 24) as u8;
    let second = (primary >> 16) & 0xff;
    is_letter_lead(lead)
        && lead != leads.numeric_lead()
        && is_sound_rest(primary)
        && (!leads.is_compressible_lead(lead) || (second >= 0x04 && second <= 0xfe))
}

/// Whether a secondary keeps the rule on secondaries, V3.
pub fn is_sound_secondary(secondary: u16) -> bool
    ensures { result ≡ is_sound_secondary secondary }
{
    let lead = secondary / 256;
    secondary == COMMON_WEIGHT
        || (((lead >= 0x03 && lead <= 0x04) || lead >= 0x46) && secondary % 256 != 1)
}

/// Whether a tertiary keeps the rule on tertiaries, V4.
pub fn is_sound_tertiary(tertiary: u16) -> bool
    ensures { result ≡ is_sound_tertiary tertiary }
{
    let lead = tertiary / 256;
    let low = tertiary % 256;
    tertiary == COMMON_WEIGHT
        || (((lead >= 0x02 && lead <= 0x04) || (lead >= 0x06 && lead <= 0x3f))
            && low <= 0x3f
            && low != 1)
}

/// Whether an element is primary, secondary or tertiary, V1.
pub fn is_sound_kind(element: Element) -> bool
    ensures { result ≡ is_sound_kind element }
{
    if element.primary != 0 {
        element.secondary != 0 && element.tertiary != 0
    } else if element.secondary != 0 {
        element.tertiary != 0
    } else {
        element.case == 2 && element.tertiary / 256 >= 0x06
    }
}

/// Whether an element keeps the rules on elements, V1 to V4.
pub fn is_sound_element<L: LeadBytes>(leads: &L, element: Element) -> bool
    ensures { result ≡ is_sound_element (L.weights leads.now) element }
{
    is_sound_kind(element)
        && (element.primary == 0 || is_sound_primary(leads, element.primary))
        && (element.secondary == 0 || is_sound_secondary(element.secondary))
        && (element.tertiary == 0 || is_sound_tertiary(element.tertiary))
}

//! The rules on ranges: V6, of a range by itself, of two, and of one beside an element.

ghost use Rattle.std.specs.Prelude.{◌≡◌, ◌+◌, ◌-◌, ◌*◌, ◌/◌, ◌%◌, ◌^◌, ◌<◌, ◌≤◌};
ghost use Rattle.icu_collator_core.specs.PrimaryRanges.{range_of};
ghost use Rattle.icu_collator_core.specs.WeightFaults.{keeps_lead};
ghost use Rattle.icu_collator_core.specs.WeightRules.{are_disjoint, is_of_other_lead, is_sound_range, lowest_second, second_count, stays_in_lead};

use super::element_rules::is_sound_primary;
use super::lead_bytes::LeadBytes;
use icu_collator_types::elements::Element;

/// Characters whose primaries follow each other.
#[derive(Clone, Copy, Debug, PartialEq, Eq)]
pub struct PrimaryRange {
    /// The first character.
    pub first: char,
    /// The last character, which belongs to the range.
    pub last: char,
    /// The primary of the first character, its lead in the uppermost byte.
    pub primary: u32,
    /// How far the primaries of neighbours lie apart, counted in third bytes.
    pub step: u16,
}

/// The lowest second byte under a lead.
pub(crate) fn lowest_second(compressible: bool) -> u32
    ensures low { result ≡ lowest_second compressible }
    ensures bound { result < 5 }
{
    if compressible { 4 } else { 2 }
}

/// How many second bytes stand under a lead.
pub(crate) fn second_count(compressible: bool) -> u32
    ensures count { result ≡ second_count compressible }
    ensures filled { 0 < result }
    ensures bound { result < 255 }
{
    if compressible { 251 } else { 254 }
}

/// Where the third byte of a primary would be, counted from the lowest one, if there were enough of them.
pub(crate) fn third_place(primary: u32, by: u32) -> u32
    requires { by < 2 ^ 29 }
    ensures index { result ≡ primary / 2 ^ 8 % 256 - 2 + by }
    ensures bound { result < 2 ^ 30 }
{
    ((primary >> 8) & 0xff).saturating_sub(2) + by
}

/// Where the second byte would be.
pub(crate) fn second_place(compressible: bool, primary: u32, by: u32) -> u32
    requires { by < 2 ^ 29 }
    ensures index { result ≡ primary / 2 ^ 16 % 256 - lowest_second compressible + (primary / 2 ^ 8 % 256 - 2 + by) / 254 }
    ensures bound { result < 2 ^ 30 }
{
    let second = (primary >> 16) & 0xff;
    second.saturating_sub(lowest_second(compressible)) + third_place(primary, by) / 254
}

/// Whether a primary that is moved on keeps its lead.
pub(crate) fn keeps_lead(compressible: bool, primary: u32, by: u32) -> bool
    requires { by < 2 ^ 29 }
    ensures { result ≡ keeps_lead compressible primary by }
{
    second_place(compressible, primary, by) < second_count(compressible)
}

/// How far the primary of the last character lies from that of the first; 0 where the last is before the first.
fn moved_to_end(range: PrimaryRange) -> u32
    requires { range.step ≤ 127 }
    ensures by { result ≡ (range.last - range.first) * range.step }
    ensures bound { result < 2 ^ 29 }
{
    (range.last as u32).saturating_sub(range.first as u32) * range.step as u32
}

/// Whether the primary of a range's last character has the lead of the first.
fn stays_in_lead<L: LeadBytes>(leads: &L, range: PrimaryRange) -> bool
    requires { range.step ≤ 127 }
    ensures { result ≡ stays_in_lead (L.weights leads.now) (range_of range) }
{
    let compressible = leads.is_compressible_lead((range.primary >> 24) as u8);
    keeps_lead(compressible, range.primary, moved_to_end(range))
}

/// Whether a range by itself keeps the rule on ranges, V6: its characters are in order and no jamo, its primary has
/// three bytes, and they all stay in one lead.
pub fn is_sound_range<L: LeadBytes>(leads: &L, range: PrimaryRange) -> bool
    ensures { result ≡ is_sound_range (L.weights leads.now) (range_of range) }
{
    range.first <= range.last
        && (range.step >= 1 && range.step <= 127)
        && is_sound_primary(leads, range.primary)
        && range.primary & 0xff == 0
        && (range.primary >> 8) & 0xff >= 2
        && stays_in_lead(leads, range)
        && (range.last < '\u{1100}' || range.first > '\u{11ff}')
}

/// Whether no character is in both of two ranges.
pub fn are_disjoint(range: PrimaryRange, other: PrimaryRange) -> bool
    ensures { result ≡ are_disjoint (range_of range) (range_of other) }
{
    range.last < other.first || other.last < range.first
}

/// Whether the primary of an element, if it has one, has another lead than a range.
pub fn is_of_other_lead(range: PrimaryRange, element: Element) -> bool
    ensures { result ≡ is_of_other_lead (range_of range) element }
{
    element.primary == 0 || element.primary >> 24 != range.primary >> 24
}

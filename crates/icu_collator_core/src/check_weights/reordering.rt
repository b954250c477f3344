//! Whether what primaries stand in the place of others keeps them apart.

ghost use Rattle.std.specs.Prelude.{◌≡◌, ◌↔◌, ◌+◌, ◌*◌, ◌^◌, ◌<◌, IsTrue};
ghost use Rattle.icu_collator_core.specs.ReorderingTests.{AreAllApart, AreAlikeCompressible, AreApartUnder, AreSteadyHalves, compressible_bit, is_steady_half, new_lead};
ghost use Rattle.icu_collator_core.specs.WeightFaults.{HasSoundReordering, IsSoundReordering};

use super::noted::note;
use crate::tables::{CollationReordering, CollationSpecialPrimaries, CollationTables};
use crate::weight_rules::is_letter_lead;

/// How many lead bytes there are, and how many second bytes.
const BYTE_COUNT: usize = 256;

/// How many upper halves primaries have.
const HALF_COUNT: u32 = 0x1_0000;

/// The lead that a primary gets, by its upper half and the lower one.
fn new_lead(reordering: &CollationReordering<'_>, half: u32, rest: u32) -> u8
    requires half { half < 2 ^ 16 }
    requires rest { rest < 2 ^ 16 }
    ensures { result ≡ new_lead reordering.now half rest }
{
    (reordering.reorder((half << 16) + rest) >> 24) as u8
}

/// Whether all primaries with an upper half get one lead, which is their own where that is none of letters.
fn is_steady_half(reordering: &CollationReordering<'_>, half: u32) -> bool
    requires { half < 2 ^ 16 }
    ensures { result ≡ is_steady_half reordering.now half }
{
    let lead = (half >> 8) as u8;
    let first = new_lead(reordering, half, 0);
    new_lead(reordering, half, 2) == first
        && new_lead(reordering, half, 0xffff) == first
        && (is_letter_lead(lead) || first == lead)
}

/// Whether the same is so of each upper half.
fn are_steady_halves(reordering: &CollationReordering<'_>) -> bool
    ensures { IsTrue result ↔ AreSteadyHalves reordering.now }
{
    for half in 0..HALF_COUNT {
        if !is_steady_half(reordering, half) {
            return false;
        }
    }
    true
}

/// Whether the upper halves with one second byte get different leads.
fn are_apart_under(reordering: &CollationReordering<'_>, second: u32) -> bool
    requires { second < 2 ^ 8 }
    ensures { IsTrue result ↔ AreApartUnder reordering.now second }
{
    let mut noted = [None; BYTE_COUNT];
    for lead in 0..0x100u32 {
        let key = new_lead(reordering, lead * 0x100 + second, 0);
        if !note(&mut noted, key, lead as u8) {
            return false;
        }
    }
    true
}

/// Whether the same is so of each second byte.
fn are_all_apart(reordering: &CollationReordering<'_>) -> bool
    ensures { IsTrue result ↔ AreAllApart reordering.now }
{
    for second in 0..0x100u32 {
        if !are_apart_under(reordering, second) {
            return false;
        }
    }
    true
}

/// 1 for a compressible lead, 0 for any other.
fn compressible_bit(special: &CollationSpecialPrimaries<'_>, lead: u8) -> u8
    ensures { result ≡ compressible_bit special.now lead }
{
    if special.is_compressible(lead) { 1 } else { 0 }
}

/// Whether upper halves that get one lead have leads that are alike compressible.
fn are_alike(special: &CollationSpecialPrimaries<'_>, reordering: &CollationReordering<'_>) -> bool
    ensures { IsTrue result ↔ AreAlikeCompressible special.now reordering.now }
{
    let mut noted = [None; BYTE_COUNT];
    for half in 0..HALF_COUNT {
        let key = new_lead(reordering, half, 0);
        if !note(
            &mut noted,
            key,
            compressible_bit(special, (half >> 8) as u8),
        ) {
            return false;
        }
    }
    true
}

/// Whether a reordering keeps the rules.
fn is_sound_reordering(
    special: &CollationSpecialPrimaries<'_>,
    reordering: &CollationReordering<'_>,
) -> bool
    ensures { IsTrue result ↔ IsSoundReordering special.now reordering.now }
{
    if reordering.reorder_table.len() != BYTE_COUNT {
        return false;
    }
    if !are_steady_halves(reordering) {
        return false;
    }
    if !are_all_apart(reordering) {
        return false;
    }
    are_alike(special, reordering)
}

/// Whether the reordering keeps the rules, where there is one.
pub(crate) fn has_sound_reordering(tables: &CollationTables<'_>) -> bool
    ensures { IsTrue result ↔ HasSoundReordering tables.now }
{
    match &tables.reordering {
        Some(reordering) => is_sound_reordering(&tables.special_primaries, reordering),
        None => true,
    }
}

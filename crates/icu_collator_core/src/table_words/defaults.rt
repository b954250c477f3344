//! The elements of characters that no record names: special ones, jamo and implicit ones, as UTS 10 has them, with weights
//! that are this project's own (`docs/RECORDS.md`).

ghost use Rattle.std.specs.Prelude.{◌≡◌, cond};
ghost use Rattle.icu_normalizer_core.specs.BuiltIn.{is_jamo};
ghost use Rattle.icu_collator_core.specs.Defaults.{implicit_primary, jamo_primary, primary_element, special_primary};

use icu_collator_types::elements::{COMMON_WEIGHT, Element};
use icu_normalizer_core::built_in::is_jamo;

/// The element with this primary, and common weights on the other levels.
pub fn primary_element(primary: u32) -> Element
    ensures { result ≡ primary_element primary }
{
    Element {
        primary,
        secondary: COMMON_WEIGHT,
        case: 0,
        tertiary: COMMON_WEIGHT,
        quaternary: 0,
    }
}

/// The primary of a character that is below or above all others, whatever a record says: U+FFFE, U+FFFD and U+FFFF.
#[tactic(auto, unfolding(crate::specs::Defaults::special_primary))]
pub fn special_primary(c: u32) -> Option<u32>
    ensures { result ≡ special_primary c }
{
    match c {
        0xfffe => Some(0x0200_0000),
        0xfffd => Some(0xfffd_0000),
        0xffff => Some(0xffff_0000),
        _ => None,
    }
}

/// The primary of a code point in no range: that of a jamo, or the implicit one.
#[tactic(auto, unfolding(crate::specs::Defaults::jamo_primary, crate::specs::Defaults::implicit_primary))]
pub fn unranged_primary(c: u32) -> u32
    ensures { result ≡ cond (is_jamo c) (jamo_primary c) (implicit_primary c) }
{
    if is_jamo(c) {
        let i = c - 0x1100;
        (0xfd << 24) + ((4 + i / 128) << 16) + ((2 + i % 128) << 8)
    } else {
        let x = u64::from(c) + 1;
        let second = 4 + x / 18 / 254 % 251;
        let third = 2 + x / 18 % 254;
        ((0xfe << 24) + (second << 16) + (third << 8) + (2 + x % 18 * 14)) as u32
    }
}

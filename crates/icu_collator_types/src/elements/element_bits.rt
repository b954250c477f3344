//! Elements as ICU4X packs them, 64 bits each.

ghost use Rattle.std.specs.Prelude.{◌≡◌, ℕ, ◌*◌, ◌/◌, ◌%◌, ◌^◌, leb, ◌==◌, ◌||◌, bit_or};
ghost use Rattle.icu_collator_types.specs.ElementBits.{element_bits, implicit_primary};

use super::non_primaries::NonPrimary;
use std::marker::Model;

/// The element that ends a text.
const NO_CE: u64 = 0x1_0100_0100;

/// The common weights below a primary.
const COMMON_SECONDARY_AND_TERTIARY: u64 = 0x0500_0500;

/// The common tertiary weight.
const COMMON_TERTIARY: u64 = 0x0500;

/// An element: the primary in the upper 32 bits, a `NonPrimary` in the lower 32. A contract sees
/// the 64 bits as a number.
#[derive(Clone, Copy, PartialEq, Eq, Debug)]
pub struct CollationElement {
    bits: u64,
}

impl Model for CollationElement {
    ghost Value = { ℕ };

    ghost view = { λ inside. inside.bits };

    ghost inverse = { λ bits. record { bits = bits } };
}

impl CollationElement {
    /// The element of these bits.
    #[inline]
    pub const fn new(bits: u64) -> Self
        ensures { result ≡ bits }
    {
        CollationElement { bits }
    }

    /// The element that ends a text, below all others.
    pub const fn default() -> Self
        ensures { result ≡ element_bits 1 0x0100 0x0100 }
    {
        CollationElement { bits: NO_CE }
    }

    /// The element with this primary, and common weights at the other levels.
    #[inline]
    pub fn new_from_primary(primary: u32) -> Self
        ensures { result ≡ element_bits primary 0x0500 0x0500 }
    {
        CollationElement {
            bits: ((primary as u64) << 32) + COMMON_SECONDARY_AND_TERTIARY,
        }
    }

    /// The element without primary, with this secondary and the common tertiary.
    #[inline]
    pub fn new_from_secondary(secondary: u16) -> Self
        ensures { result ≡ element_bits 0 secondary 0x0500 }
    {
        CollationElement {
            bits: ((secondary as u64) << 16) + COMMON_TERTIARY,
        }
    }

    /// The element of a character that no table names, by its code point.
    pub fn new_implicit_from_char(c: char) -> Self
        ensures { result ≡ element_bits (implicit_primary c) 0x0500 0x0500 }
    {
        let x = u64::from(c as u32) + 1;
        let second = 4 + x / 18 / 254 % 251;
        let third = 2 + x / 18 % 254;
        let primary = (0xfe << 24) + (second << 16) + (third << 8) + (2 + x % 18 * 14);
        Self::new_from_primary(primary as u32)
    }

    /// The element that has nothing but the primary.
    #[inline]
    pub fn clone_with_non_primary_zeroed(self) -> Self
        ensures { result ≡ self / 2 ^ 32 * 2 ^ 32 }
    {
        CollationElement {
            bits: (self.bits >> 32) << 32,
        }
    }

    /// The primary.
    #[inline]
    pub fn primary(self) -> u32
        ensures { result ≡ self / 2 ^ 32 }
    {
        (self.bits >> 32) as u32
    }

    /// All but the primary.
    #[inline]
    pub fn non_primary(self) -> NonPrimary
        ensures { result ≡ self % 2 ^ 32 }
    {
        NonPrimary::new((self.bits & 0xffff_ffff) as u32)
    }

    /// The secondary.
    #[inline]
    pub fn secondary(self) -> u16
        ensures { result ≡ self % 2 ^ 32 / 2 ^ 16 }
    {
        self.non_primary().secondary()
    }

    /// The two bits of the quaternary, all other bits set.
    #[inline]
    pub fn quaternary(self) -> u32
        ensures { result ≡ bit_or (self % 2 ^ 32) 0xffff_ff3f }
    {
        self.non_primary().quaternary()
    }

    /// Whether there is nothing at the tertiary level and at that of case, or the end of a text.
    #[inline]
    pub fn tertiary_ignorable(self) -> bool
        ensures { result ≡ leb (self % 2 ^ 32 % 2 ^ 16) 0x0100 }
    {
        self.non_primary().tertiary_ignorable()
    }

    /// Whether there is no primary, or nothing but the primary.
    #[inline]
    pub fn either_half_zero(self) -> bool
        ensures { result ≡ ((self / 2 ^ 32 == 0) || (self % 2 ^ 32 == 0)) }
    {
        self.primary() == 0 || self.non_primary().ignorable()
    }
}

impl Default for CollationElement {
    /// The element that ends a text, below all others.
    fn default() -> Self
        ensures { result ≡ element_bits 1 0x0100 0x0100 }
    {
        CollationElement::new(NO_CE)
    }
}

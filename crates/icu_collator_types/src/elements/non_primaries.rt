//! The lower half of an element: all of it but the primary.

ghost use Rattle.std.specs.Prelude.{◌≡◌, ℕ, ◌/◌, ◌%◌, ◌^◌, IsTrue, leb, ◌==◌, bit_and, bit_or};
ghost use Rattle.icu_collator_types.specs.ElementBits.{is_whole_or_absent};

use std::marker::Model;

/// The two bits of case.
const CASE_MASK: u32 = 0xc000;

/// The bits of the tertiary.
const TERTIARY_MASK: u32 = 0x3f3f;

/// The two bits of the quaternary.
pub(super) const QUATERNARY_MASK: u32 = 0xc0;

/// What the element that ends a text has below its primary.
const NO_CE_NON_PRIMARY: u32 = 0x0100_0100;

/// The tertiary of the element that ends a text.
const NO_CE_TERTIARY: u32 = 0x0100;

/// The secondary, in the upper 16 bits; below them two bits of case, the tertiary, and among its
/// bits two of the quaternary. A contract sees the 32 bits as a number.
#[derive(Clone, Copy, PartialEq, Eq, Debug)]
pub struct NonPrimary {
    bits: u32,
}

impl Model for NonPrimary {
    ghost Value = { ℕ };

    ghost view = { λ inside. inside.bits };

    ghost inverse = { λ bits. record { bits = bits } };
}

impl NonPrimary {
    /// That of these bits.
    pub const fn new(bits: u32) -> Self
        ensures { result ≡ bits }
    {
        NonPrimary { bits }
    }

    /// That of the element that ends a text.
    pub const fn default() -> Self
        ensures { result ≡ 0x0100_0100 }
    {
        NonPrimary {
            bits: NO_CE_NON_PRIMARY,
        }
    }

    /// All bits.
    #[inline]
    pub fn bits(self) -> u32
        ensures { result ≡ self }
    {
        self.bits
    }

    /// The secondary.
    #[inline]
    pub fn secondary(self) -> u16
        ensures { result ≡ self / 2 ^ 16 }
    {
        (self.bits >> 16) as u16
    }

    /// The two bits of case, where they stand.
    #[inline]
    pub fn case(self) -> u16
        ensures { result ≡ bit_and self 0xc000 }
    {
        (self.bits & CASE_MASK) as u16
    }

    /// The tertiary, without case and quaternary.
    #[inline]
    pub fn tertiary(self) -> u16
        ensures { result ≡ bit_and self 0x3f3f }
    {
        (self.bits & TERTIARY_MASK) as u16
    }

    /// Whether there is nothing at the tertiary level and at that of case, or the end of a text.
    #[inline]
    pub fn tertiary_ignorable(self) -> bool
        ensures { result ≡ leb (self % 2 ^ 16) 0x0100 }
    {
        self.bits & 0xffff <= NO_CE_TERTIARY
    }

    /// The two bits of the quaternary, all other bits set.
    #[inline]
    pub fn quaternary(self) -> u32
        ensures { result ≡ bit_or self 0xffff_ff3f }
    {
        self.bits | 0xffff_ff3f
    }

    /// Those of the tertiary, the case and the quaternary that the mask has.
    #[inline]
    pub fn tertiary_case_quarternary(self, mask: u16) -> u16
        requires case { IsTrue (is_whole_or_absent mask 0xc000) }
        requires tertiary { IsTrue (is_whole_or_absent mask 0x3f3f) }
        requires quaternary { IsTrue (is_whole_or_absent mask 0x00c0) }
        ensures { result ≡ bit_and self mask }
    {
        (self.bits & mask as u32) as u16
    }

    /// The bits of case and quaternary, where they stand.
    #[inline]
    pub fn case_quaternary(self) -> u16
        ensures { result ≡ bit_and self 0xc0c0 }
    {
        (self.bits & (CASE_MASK | QUATERNARY_MASK)) as u16
    }

    /// Whether there is nothing at any level but the primary.
    #[inline]
    pub fn ignorable(self) -> bool
        ensures { result ≡ (self == 0) }
    {
        self.bits == 0
    }
}

impl Default for NonPrimary {
    /// That of the element that ends a text.
    fn default() -> Self
        ensures { result ≡ 0x0100_0100 }
    {
        NonPrimary::new(NO_CE_NON_PRIMARY)
    }
}

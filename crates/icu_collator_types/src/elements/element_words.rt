//! The words of the tables, 32 bits each.

ghost use Rattle.std.specs.Prelude.{◌≡◌, ℕ, ◌/◌, ◌%◌, ◌^◌, false, IsTrue, ◌==◌, MatchOption};
ghost use Rattle.std.specs.Int.{w32, from_le_bytes};
ghost use Rattle.icu_collator_types.specs.ElementWords.{has_index, has_tag, is_expansion, is_special, self_contained, simple_element, simple_or_long_primary};

use super::element_bits::CollationElement;
use super::word_tags::Tag;
use std::marker::Model;

/// The word of no element.
const NO_CE32: u32 = 1;

/// The least low byte of a word that isn't the bytes of an element.
const SPECIAL_CE32_LOW_BYTE: u32 = 0xc0;

/// The low byte of a word that is a primary of three bytes.
const LONG_PRIMARY_CE32_LOW_BYTE: u32 = 0xc1;

/// A word of the tables: the bytes of an element, a primary of three bytes, or by its tag what else
/// stands for a character. A contract sees the 32 bits as a number.
#[derive(Clone, Copy, PartialEq, Eq, Debug)]
pub struct CollationElement32 {
    bits: u32,
}

impl Model for CollationElement32 {
    ghost Value = { ℕ };

    ghost view = { λ inside. inside.bits };

    ghost inverse = { λ bits. record { bits = bits } };
}

impl CollationElement32 {
    /// The word of these bits.
    #[inline]
    pub const fn new(bits: u32) -> Self
        ensures { result ≡ bits }
    {
        CollationElement32 { bits }
    }

    /// The word of these bytes, the lowest first.
    #[inline]
    pub fn new_from_ule(ule: [u8; 4]) -> Self
        ensures { result ≡ from_le_bytes w32 ule }
    {
        CollationElement32 {
            bits: u32::from_le_bytes(ule),
        }
    }

    /// The word of no element.
    pub const fn default() -> Self
        ensures { result ≡ 1 }
    {
        CollationElement32 { bits: NO_CE32 }
    }

    /// The low byte.
    #[inline]
    fn low_byte(self) -> u32
        ensures { result ≡ self % 2 ^ 8 }
    {
        self.bits & 0xff
    }

    /// The tag, and `None` of a word that is the bytes of an element.
    #[inline]
    pub fn tag_checked(self) -> Option<Tag>
        ensures { MatchOption result (is_special self ≡ false) (λ tag. IsTrue (has_tag tag self)) }
    {
        if self.low_byte() < SPECIAL_CE32_LOW_BYTE {
            None
        } else {
            Some(self.tag())
        }
    }

    /// The tag. The word's low byte is from C0 (hex).
    pub fn tag(self) -> Tag
        requires { IsTrue (is_special self) }
        ensures { IsTrue (has_tag result self) }
    {
        match self.bits & 0xf {
            0 => Tag::Fallback,
            1 => Tag::LongPrimary,
            2 => Tag::LongSecondary,
            3 => Tag::Reserved3,
            4 => Tag::LatinExpansion,
            5 => Tag::Expansion32,
            6 => Tag::Expansion,
            7 => Tag::BuilderData,
            8 => Tag::Prefix,
            9 => Tag::Contraction,
            10 => Tag::Digit,
            11 => Tag::U0000,
            12 => Tag::Hangul,
            13 => Tag::LeadSurrogate,
            14 => Tag::Offset,
            _ => Tag::Implicit,
        }
    }

    /// The element of a word that is the bytes of one.
    #[inline]
    fn simple_element(self) -> CollationElement
        ensures { result ≡ simple_element self }
    {
        let bits = self.bits as u64;
        let primary = (bits >> 16) << 48;
        let secondary = ((bits >> 8) & 0xff) << 24;
        CollationElement::new(primary + secondary + ((bits & 0xff) << 8))
    }

    /// The element of a word that is the bytes of one, or a primary of three bytes.
    #[inline]
    pub fn to_ce_simple_or_long_primary(self) -> Option<CollationElement>
        ensures { result ≡ simple_or_long_primary self }
    {
        let low_byte = self.low_byte();
        if low_byte < SPECIAL_CE32_LOW_BYTE {
            Some(self.simple_element())
        } else if low_byte == LONG_PRIMARY_CE32_LOW_BYTE {
            Some(CollationElement::new_from_primary(self.bits - LONG_PRIMARY_CE32_LOW_BYTE))
        } else {
            None
        }
    }

    /// The element of a word that states one by itself.
    #[inline]
    pub fn to_ce_self_contained(self) -> Option<CollationElement>
        ensures { result ≡ self_contained self }
    {
        if self.low_byte() >= SPECIAL_CE32_LOW_BYTE && self.bits & 0xf == 2 {
            Some(CollationElement::new(((self.bits >> 8) << 8) as u64))
        } else {
            self.to_ce_simple_or_long_primary()
        }
    }

    /// How many words or elements the list has that an expansion names.
    #[inline]
    pub fn len(self) -> usize
        requires { IsTrue (is_expansion self) }
        ensures { result ≡ self / 2 ^ 8 % 2 ^ 5 }
    {
        ((self.bits >> 8) & 0x1f) as usize
    }

    /// The index in the tables that an expansion, a prefix, a contraction, a digit or an offset
    /// names.
    #[inline]
    pub fn index(self) -> usize
        requires { IsTrue (has_index self) }
        ensures { result ≡ self / 2 ^ 13 }
    {
        (self.bits >> 13) as usize
    }

    /// The value of a digit.
    #[inline]
    pub fn digit(self) -> u8
        requires { IsTrue (has_tag Tag.Digit self) }
        ensures { result ≡ self / 2 ^ 8 % 2 ^ 4 }
    {
        ((self.bits >> 8) & 0xf) as u8
    }

    /// Whether each suffix of a contraction begins with a mark.
    #[inline]
    pub fn every_suffix_starts_with_combining(self) -> bool
        requires { IsTrue (has_tag Tag.Contraction self) }
        ensures { result ≡ (self / 2 ^ 9 % 2 == 1) }
    {
        (self.bits >> 9) & 1 == 1
    }

    /// Whether a suffix of a contraction holds a starter.
    #[inline]
    pub fn at_least_one_suffix_contains_starter(self) -> bool
        requires { IsTrue (has_tag Tag.Contraction self) }
        ensures { result ≡ (self / 2 ^ 11 % 2 == 1) }
    {
        (self.bits >> 11) & 1 == 1
    }

    /// Whether a suffix of a contraction ends in a mark.
    #[inline]
    pub fn at_least_one_suffix_ends_with_non_starter(self) -> bool
        requires { IsTrue (has_tag Tag.Contraction self) }
        ensures { result ≡ (self / 2 ^ 10 % 2 == 1) }
    {
        (self.bits >> 10) & 1 == 1
    }
}

impl Default for CollationElement32 {
    /// The word of no element.
    fn default() -> Self
        ensures { result ≡ 1 }
    {
        CollationElement32::new(NO_CE32)
    }
}

//! What a code point trie holds: numbers and characters that fit into 32 bits.
ghost use Rattle.std.specs.Prelude.{◌≡◌, ℕ, ◌<◌, nat_lt, Option, Some, IfSome};
ghost use Rattle.std.specs.Char.{IsScalar};
ghost use Rattle.std.proofs.Common.{refl};
ghost use lib.Utf8.{scalar};
ghost use Rattle.icu_codepointtrie.specs.TrieValues.{fitting};
ghost use Rattle.icu_codepointtrie.specs.TrieValueLaws.{fitting-value, below-limit};

use icu_packed_vector::PackedItem;

/// A type whose values are told apart by a number of 32 bits. Implemented for `u8`, `u16`, `u32`
/// and `char`.
pub trait TrieValue: PackedItem {
    /// The number of a value.
    ghost number: { Self → ℕ };

    /// The value of a number, where there is one.
    ghost of_number: { ℕ → Option Self };

    /// The number of the value.
    fn to_u32(self) -> u32
        ensures { result ≡ number self };

    /// The value of the number, or `None` where no value of the type has it.
    fn try_from_u32(code: u32) -> Option<Self>
        ensures value { result ≡ of_number code }
        ensures is_value { IfSome result Self.is_value };

    ghost round_trip: { (value : Self) → Self.is_value value → of_number (number value) ≡ Some value };

    ghost tells_apart: { (x y : Self) → number x ≡ number y → x ≡ y };
}

impl TrieValue for u8 {
    ghost number = { λ value. value };

    ghost of_number = { fitting (λ code. nat_lt code 0x100) };

    fn to_u32(self) -> u32 {
        self as u32
    }

    fn try_from_u32(code: u32) -> Option<u8> {
        if code < 0x100 { Some(code as u8) } else { None }
    }

    ghost round_trip = { λ value h. fitting-value (λ code. nat_lt code 0x100) value (below-limit 0x100 value h) };

    ghost tells_apart = { λ x y same. same };
}

impl TrieValue for u16 {
    ghost number = { λ value. value };

    ghost of_number = { fitting (λ code. nat_lt code 0x1_0000) };

    fn to_u32(self) -> u32 {
        self as u32
    }

    fn try_from_u32(code: u32) -> Option<u16> {
        if code < 0x1_0000 {
            Some(code as u16)
        } else {
            None
        }
    }

    ghost round_trip = { λ value h. fitting-value (λ code. nat_lt code 0x1_0000) value (below-limit 0x1_0000 value h) };

    ghost tells_apart = { λ x y same. same };
}

impl TrieValue for u32 {
    ghost number = { λ value. value };

    ghost of_number = { Some };

    fn to_u32(self) -> u32 {
        self
    }

    fn try_from_u32(code: u32) -> Option<u32> {
        Some(code)
    }

    ghost round_trip = { λ value h. refl };

    ghost tells_apart = { λ x y same. same };
}

impl TrieValue for char {
    ghost number = { λ value. value };

    ghost of_number = { fitting scalar };

    fn to_u32(self) -> u32 {
        self as u32
    }

    fn try_from_u32(code: u32) -> Option<char> {
        char::from_u32(code)
    }

    ghost round_trip = { fitting-value scalar };

    ghost tells_apart = { λ x y same. same };
}

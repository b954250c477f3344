//! What a packed vector holds: numbers and characters, each of one width in bytes.
ghost use Rattle.std.specs.Prelude.{◌≡◌, ℕ, ◌<◌, ◌^◌, ◌++◌, ◌↔◌, IsTrue, List, length, All, if◌then◌else◌};
ghost use Rattle.std.specs.Result.{is_ok};
ghost use Rattle.std.specs.Char.{IsScalar};
ghost use Rattle.std.proofs.Common.{arith, refl};
ghost use Rattle.icu_packed_vector.specs.Bytes.{little_endian, little_endian_bytes};
ghost use Rattle.icu_packed_vector.specs.ByteLaws.{little_endian-bytes1, little_endian-bytes2, little_endian-bytes3, little_endian-bytes4, little_endian-bytes8, is_scalar-bytes3, little_endian-below};

use std::alloc::AllocError;

/// A type whose values are packed into bytes, the least byte first, each value into the same
/// number of bytes. Implemented for `u8`, `u16`, `u32`, `u64`, and `char`, which takes three bytes.
pub trait PackedItem: Copy + Eq {
    /// How many bytes a value takes.
    ghost WIDTH: { ℕ };

    /// The value of `WIDTH` bytes.
    ghost meaning: { List ℕ → Self };

    /// The bytes of a value.
    ghost encoding: { Self → List ℕ };

    /// Bytes that mean a value: for a character those of a scalar value, else all.
    ghost is_encoding: { List ℕ → Type 0 };

    /// Which numbers are values of the type.
    ghost is_value: { Self → Type 0 };

    /// How many bytes a value takes.
    const WIDTH: usize;

    /// Whether these bytes mean a value.
    fn is_item(bytes: &[u8]) -> bool
        requires { length bytes.now ≡ WIDTH }
        ensures { IsTrue result ↔ is_encoding bytes.now };

    /// The value that these bytes mean.
    fn read(bytes: &[u8]) -> Self
        requires width { length bytes.now ≡ WIDTH }
        requires encodes { is_encoding bytes.now }
        ensures meaning { result ≡ meaning bytes.now }
        ensures value { is_value result };

    /// Appends the bytes of the value. Fails only when out of memory, and then nothing is appended.
    fn write(self, out: &mut Vec<u8>) -> Result<(), AllocError>
        ensures appended { out.new.items ≡ (if is_ok result then out.old.items ++ encoding self else out.old.items) }
        ensures value { is_value self };

    ghost width_positive: { 0 < WIDTH };

    ghost encoding_width: { (value : Self) → length (encoding value) ≡ WIDTH };

    ghost encoding_is_encoding: { (value : Self) → is_value value → is_encoding (encoding value) };

    ghost encoding_means: { (value : Self) → is_value value → meaning (encoding value) ≡ value };

    ghost meaning_is_value: { (bytes : List ℕ) → All (λ byte. byte < 2 ^ 8) bytes → length bytes ≡ WIDTH → is_encoding bytes → is_value (meaning bytes) };
}

impl PackedItem for u8 {
    ghost WIDTH = { 1 };

    ghost meaning = { little_endian };

    ghost encoding = { little_endian_bytes 1 };

    ghost is_encoding = { λ _. Unit {0} };

    ghost is_value = { λ value. value < 2 ^ 8 };

    const WIDTH: usize = 1;

    fn is_item(_bytes: &[u8]) -> bool {
        true
    }

    #[inline]
    fn read(bytes: &[u8]) -> u8 {
        bytes[0]
    }

    fn write(self, out: &mut Vec<u8>) -> Result<(), AllocError> {
        out.extend_from_slice(&[self])
    }

    ghost width_positive = { Prim.omega arith };

    ghost encoding_width = { λ value. refl };

    ghost encoding_is_encoding = { λ value h. tt };

    ghost encoding_means = { little_endian-bytes1 };

    ghost meaning_is_value = { λ bytes small width h. little_endian-below 1 bytes small width };
}

impl PackedItem for u16 {
    ghost WIDTH = { 2 };

    ghost meaning = { little_endian };

    ghost encoding = { little_endian_bytes 2 };

    ghost is_encoding = { λ _. Unit {0} };

    ghost is_value = { λ value. value < 2 ^ 16 };

    const WIDTH: usize = 2;

    fn is_item(_bytes: &[u8]) -> bool {
        true
    }

    #[inline]
    fn read(bytes: &[u8]) -> u16 {
        bytes[0] as u16 + 0x100 * bytes[1] as u16
    }

    fn write(self, out: &mut Vec<u8>) -> Result<(), AllocError> {
        out.extend_from_slice(&[(self & 0xff) as u8, ((self >> 8) & 0xff) as u8])
    }

    ghost width_positive = { Prim.omega arith };

    ghost encoding_width = { λ value. refl };

    ghost encoding_is_encoding = { λ value h. tt };

    ghost encoding_means = { little_endian-bytes2 };

    ghost meaning_is_value = { λ bytes small width h. little_endian-below 2 bytes small width };
}

impl PackedItem for u32 {
    ghost WIDTH = { 4 };

    ghost meaning = { little_endian };

    ghost encoding = { little_endian_bytes 4 };

    ghost is_encoding = { λ _. Unit {0} };

    ghost is_value = { λ value. value < 2 ^ 32 };

    const WIDTH: usize = 4;

    fn is_item(_bytes: &[u8]) -> bool {
        true
    }

    #[inline]
    fn read(bytes: &[u8]) -> u32 {
        bytes[0] as u32
            + 0x100 * bytes[1] as u32
            + 0x10000 * bytes[2] as u32
            + 0x1000000 * bytes[3] as u32
    }

    fn write(self, out: &mut Vec<u8>) -> Result<(), AllocError> {
        out.extend_from_slice(&[
            (self & 0xff) as u8,
            ((self >> 8) & 0xff) as u8,
            ((self >> 16) & 0xff) as u8,
            ((self >> 24) & 0xff) as u8,
        ])
    }

    ghost width_positive = { Prim.omega arith };

    ghost encoding_width = { λ value. refl };

    ghost encoding_is_encoding = { λ value h. tt };

    ghost encoding_means = { little_endian-bytes4 };

    ghost meaning_is_value = { λ bytes small width h. little_endian-below 4 bytes small width };
}

impl PackedItem for u64 {
    ghost WIDTH = { 8 };

    ghost meaning = { little_endian };

    ghost encoding = { little_endian_bytes 8 };

    ghost is_encoding = { λ _. Unit {0} };

    ghost is_value = { λ value. value < 2 ^ 64 };

    const WIDTH: usize = 8;

    fn is_item(_bytes: &[u8]) -> bool {
        true
    }

    #[inline]
    fn read(bytes: &[u8]) -> u64 {
        bytes[0] as u64
            + 0x100 * bytes[1] as u64
            + 0x10000 * bytes[2] as u64
            + 0x1000000 * bytes[3] as u64
            + 0x100000000 * bytes[4] as u64
            + 0x10000000000 * bytes[5] as u64
            + 0x1000000000000 * bytes[6] as u64
            + 0x100000000000000 * bytes[7] as u64
    }

    fn write(self, out: &mut Vec<u8>) -> Result<(), AllocError> {
        out.extend_from_slice(&[
            (self & 0xff) as u8,
            ((self >> 8) & 0xff) as u8,
            ((self >> 16) & 0xff) as u8,
            ((self >> 24) & 0xff) as u8,
            ((self >> 32) & 0xff) as u8,
            ((self >> 40) & 0xff) as u8,
            ((self >> 48) & 0xff) as u8,
            ((self >> 56) & 0xff) as u8,
        ])
    }

    ghost width_positive = { Prim.omega arith };

    ghost encoding_width = { λ value. refl };

    ghost encoding_is_encoding = { λ value h. tt };

    ghost encoding_means = { little_endian-bytes8 };

    ghost meaning_is_value = { λ bytes small width h. little_endian-below 8 bytes small width };
}

impl PackedItem for char {
    ghost WIDTH = { 3 };

    ghost meaning = { little_endian };

    ghost encoding = { little_endian_bytes 3 };

    ghost is_encoding = { λ bytes. IsScalar (little_endian bytes) };

    ghost is_value = { IsScalar };

    const WIDTH: usize = 3;

    fn is_item(bytes: &[u8]) -> bool {
        let code = bytes[0] as u32 + 0x100 * bytes[1] as u32 + 0x1_0000 * bytes[2] as u32;
        char::from_u32(code).is_some()
    }

    #[inline]
    fn read(bytes: &[u8]) -> char {
        let code = bytes[0] as u32 + 0x100 * bytes[1] as u32 + 0x1_0000 * bytes[2] as u32;
        char::from_u32(code).unwrap()
    }

    fn write(self, out: &mut Vec<u8>) -> Result<(), AllocError> {
        let code = self as u32;
        out.extend_from_slice(&[
            (code & 0xff) as u8,
            ((code >> 8) & 0xff) as u8,
            ((code >> 16) & 0xff) as u8,
        ])
    }

    ghost width_positive = { Prim.omega arith };

    ghost encoding_width = { λ value. refl };

    ghost encoding_is_encoding = { is_scalar-bytes3 };

    ghost encoding_means = { λ value h. little_endian-bytes3 value h };

    ghost meaning_is_value = { λ bytes small width h. h };
}

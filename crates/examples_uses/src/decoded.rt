//! Text in an encoding: reading its characters.
ghost use Rattle.std.specs.Prelude.{◌≡◌, length, IfOk};
ghost use Rattle.icu_normalizer_core.specs.Decoding.{utf8_chars, utf16_chars};

use icu_normalizer_core::decoding::{decode_utf8, decode_utf16};
use std::alloc::{AllocError, Global};

/// The characters of bytes, in a vector: U+FFFD for what is damaged.
pub fn chars_of_bytes(alloc: Global, bytes: &[u8]) -> Result<Vec<char>, AllocError>
    ensures { IfOk result (λ chars. chars.items ≡ utf8_chars bytes.now) }
{
    decode_utf8(bytes).collect(alloc)
}

/// How many characters UTF-16 units spell. It takes no memory.
pub fn count_chars(units: &[u16]) -> usize
    ensures { result ≡ length (utf16_chars units.now) }
{
    decode_utf16(units).count()
}

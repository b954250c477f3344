//! Any bytes, read as UTF-8.

ghost use Rattle.std.specs.Prelude.{◌≡◌, ℕ, ◌<◌, ◌≤◌, IfSome, IfNone, length, slice_index, chars, encode_utf8_all};
ghost use Rattle.icu_normalizer_core.specs.Decoding.{utf8_chars};
ghost use Rattle.icu_normalizer.specs.Encodings.{utf8_encoding};
ghost use Rattle.icu_normalizer.specs.Texts.{utf8_text, BeginsWith, IsUndamaged};

use super::text::Text;
use bstr::decode_utf8;
use simdutf8::basic::from_utf8;

impl<'t> Text for &'t [u8] {
    ghost spelled = { λ text. utf8_text text.now };

    ghost encode = { encode_utf8_all };

    ghost encoding = { utf8_encoding };

    #[inline]
    fn len(self) -> usize {
        <[u8]>::len(self)
    }

    #[inline]
    fn is_at_end(self) -> bool {
        <[u8]>::is_empty(self)
    }

    #[inline]
    fn plain_len(self) -> usize {
        plain_bytes(self)
    }

    #[inline]
    fn behind_plain(self, count: usize) -> Self {
        &self[count..]
    }

    #[inline]
    fn keep_promise(self) {}

    #[inline(always)]
    fn split_char(self) -> Option<(Option<char>, Self)> {
        if let Some((c, rest)) = short_char(self) {
            return Some((Some(c), rest));
        }
        let (first, size) = decode_utf8(self);
        if size == 0 {
            return None;
        }
        Some((first, &self[size..]))
    }

    #[inline]
    fn split_before(self, rest: Self) -> (Self, Self) {
        self.split_at(Text::len(self) - Text::len(rest))
    }
}

/// The first character and what stands after it, where one or two bytes spell it, or three with a lead from E1 to EC
/// (hex). `None` says nothing.
#[inline(always)]
fn short_char(bytes: &[u8]) -> Option<(char, &[u8])>
    ensures first { IfSome result (λ r. BeginsWith encode_utf8_all (utf8_text bytes.now) r.0 (utf8_text r.1.now)) }
    ensures fewer { IfSome result (λ r. length r.1.now < length bytes.now) }
{
    let (lead, rest) = bytes.split_first()?;
    if *lead < 0x80 {
        return Some((*lead as char, rest));
    }
    if *lead < 0xC2 || 0xED <= *lead || *lead == 0xE0 {
        return None;
    }
    let (next, behind) = rest.split_first()?;
    if *next < 0x80 || 0xC0 <= *next {
        return None;
    }
    if *lead < 0xE0 {
        let code = (*lead as u32 - 0xC0) * 0x40 + (*next as u32 - 0x80);
        return Some((char::from_u32(code)?, behind));
    }
    let (last, after) = behind.split_first()?;
    if *last < 0x80 || 0xC0 <= *last {
        return None;
    }
    let front = (*lead as u32 - 0xE0) * 0x40 + (*next as u32 - 0x80);
    let code = front * 0x40 + (*last as u32 - 0x80);
    Some((char::from_u32(code)?, after))
}

/// How many bytes of ASCII come first.
pub(super) fn plain_bytes(bytes: &[u8]) -> usize
    ensures within { result ≤ length bytes.now }
    ensures plain { (k : ℕ) → k < result → slice_index bytes.now k < 0x80 }
{
    for (index, byte) in bytes.iter().enumerate() {
        if *byte >= 0x80 {
            return index;
        }
    }
    bytes.len()
}

/// Bytes that are UTF-8, as text.
#[inline]
pub(crate) fn known(bytes: &[u8]) -> &str
    requires { IsUndamaged encode_utf8_all (utf8_text bytes.now) }
    ensures { result.now ≡ bytes.now }
{
    unsafe { str::from_utf8_unchecked(bytes) }
}

/// Bytes as text; `None` where they are damaged.
#[inline]
pub(crate) fn valid(bytes: &[u8]) -> Option<&str>
    ensures same { IfSome result (λ text. text.now ≡ bytes.now) }
    ensures read { IfSome result (λ text. chars text.now ≡ utf8_chars bytes.now) }
    ensures undamaged { IfSome result (λ _. IsUndamaged encode_utf8_all (utf8_text bytes.now)) }
    ensures damaged { IfNone result (IsUndamaged encode_utf8_all (utf8_text bytes.now) → ⊥) }
{
    match from_utf8(bytes) {
        Ok(text) => Some(text),
        Err(_) => None,
    }
}

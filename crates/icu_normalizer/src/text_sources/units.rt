//! Any units, read as UTF-16.

ghost use Rattle.std.specs.Prelude.{◌≡◌, ℕ, ◌<◌, ◌≤◌, ◌&&◌, true, false, List, ◌∷◌, MatchOption, length, slice_index};
ghost use Rattle.std.specs.Char.Utf16.{is_high_surrogate, is_low_surrogate, surrogate_pair_char};
ghost use Rattle.icu_normalizer.specs.Encodings.{utf16_encoding};
ghost use Rattle.icu_normalizer.specs.Texts.{utf16_text, encode_utf16_all};

use super::text::Text;
use icu_normalizer_core::decoding::decode_utf16;

impl<'t> Text for &'t [u16] {
    ghost spelled = { λ text. utf16_text text.now };

    ghost encode = { encode_utf16_all };

    ghost encoding = { utf16_encoding };

    #[inline]
    fn len(self) -> usize {
        <[u16]>::len(self)
    }

    #[inline]
    fn is_at_end(self) -> bool {
        <[u16]>::is_empty(self)
    }

    #[inline]
    fn plain_len(self) -> usize {
        plain_units(self)
    }

    #[inline]
    fn behind_plain(self, count: usize) -> Self {
        &self[count..]
    }

    #[inline]
    #[tactic(auto, using(crate::proofs::passed::FormTextLemmas::utf16_characters))]
    fn keep_promise(self) {}

    #[inline(always)]
    fn split_char(self) -> Option<(Option<char>, Self)> {
        let Some((unit, rest)) = self.split_first() else {
            return None;
        };
        if let Some(c) = char::from_u32(*unit as u32) {
            return Some((Some(c), rest));
        }
        match first_pair(self) {
            Some((c, behind)) => Some((Some(c), behind)),
            None => Some((None, rest)),
        }
    }

    #[inline]
    fn split_before(self, rest: Self) -> (Self, Self) {
        self.split_at(Text::len(self) - Text::len(rest))
    }
}

/// The character of a pair of surrogates that comes first, and what stands after both. `None` where none does.
fn first_pair(units: &[u16]) -> Option<(char, &[u16])>
    ensures { MatchOption result ((high low : ℕ) (more : List ℕ) → units.now ≡ high ∷ low ∷ more → (is_high_surrogate high && is_low_surrogate low) ≡ false) (λ r. (high : ℕ) × (low : ℕ) × (units.now ≡ high ∷ low ∷ r.1.now) × ((is_high_surrogate high && is_low_surrogate low) ≡ true) × (r.0 ≡ surrogate_pair_char high low)) }
{
    let first = decode_utf16(units).next()?;
    if first < '\u{10000}' {
        return None;
    }
    Some((first, &units[2..]))
}

/// How many units of ASCII come first.
fn plain_units(units: &[u16]) -> usize
    ensures within { result ≤ length units.now }
    ensures plain { (k : ℕ) → k < result → slice_index units.now k < 0x80 }
{
    for (index, unit) in units.iter().enumerate() {
        if *unit >= 0x80 {
            return index;
        }
    }
    units.len()
}

//! Where two texts first differ, by the letters of Hangul syllables (UAX 15).

ghost use Rattle.std.specs.Char.{IsScalar};
ghost use Rattle.std.specs.Prelude.{◌≡◌, ◌<◌, ℕ, true, All, IfSome, List};
ghost use Rattle.icu_normalizer_core.specs.BuiltIn.{is_syllable};
ghost use Rattle.icu_normalizer_core.specs.Canonical.{Canonical, IsDecomposing};
ghost use Rattle.icu_collator.specs.Fronts.{PartAt};
ghost use Rattle.icu_collator.specs.Syllables.{DifferInLetters, EquivalentPartAt};

use super::differences::FirstDifference;
use icu_normalizer_core::built_in::is_syllable;

/// A Hangul letter, by its code point.
#[inline]
fn letter(code: u32) -> char
    requires { code < 0xd800 }
    ensures { result ≡ code }
{
    char::from_u32(code).unwrap()
}

/// The first letters that differ of two Hangul syllables; `None` where only one has a trailing consonant, and no others
/// differ.
fn letters_of_syllables(left: char, right: char) -> Option<(char, char)>
    requires left { is_syllable left ≡ true }
    requires right { is_syllable right ≡ true }
    ensures { IfSome result (λ letters. DifferInLetters left right letters.0 letters.1) }
{
    let first = left as u32 - 0xac00;
    let second = right as u32 - 0xac00;
    if first / 588 != second / 588 {
        return Some((letter(0x1100 + first / 588), letter(0x1100 + second / 588)));
    }
    if first % 588 / 28 != second % 588 / 28 {
        return Some((
            letter(0x1161 + first % 588 / 28),
            letter(0x1161 + second % 588 / 28),
        ));
    }
    if first % 28 == 0 || second % 28 == 0 {
        return None;
    }
    Some((letter(0x11a7 + first % 28), letter(0x11a7 + second % 28)))
}

/// The letters in which two characters first differ, if both are Hangul syllables; `None` too where only one has a trailing
/// consonant, and no others differ.
#[inline]
fn differing_letters(left: char, right: char) -> Option<(char, char)>
    ensures { IfSome result (λ letters. DifferInLetters left right letters.0 letters.1) }
{
    if is_syllable(left as u32) && is_syllable(right as u32) {
        letters_of_syllables(left, right)
    } else {
        None
    }
}

/// Where two texts first differ, once the syllables in which they do are spelled by their letters.
pub(super) fn by_letters(difference: FirstDifference) -> FirstDifference
    ensures { (canonical : Canonical) (a b : List ℕ) → IsDecomposing canonical → All IsScalar a → All IsScalar b
        → PartAt a b difference.common difference.left difference.right → EquivalentPartAt canonical a b result.common result.left result.right }
{
    let (Some(left), Some(right)) = (difference.left, difference.right) else {
        return difference;
    };
    match differing_letters(left, right) {
        Some((left, right)) => FirstDifference {
            common: difference.common,
            left: Some(left),
            right: Some(right),
        },
        None => difference,
    }
}

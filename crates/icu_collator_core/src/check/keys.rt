//! The characters that the units of keys spell.

ghost use Rattle.std.specs.Prelude.{◌≡◌, ◌<◌, ◌&&◌, true, false, MatchOption};
ghost use Rattle.icu_normalizer_core.specs.BuiltIn.{is_within};
ghost use Rattle.icu_collator_core.specs.ContextRules.{is_upper_half, is_lower_half, joined_halves};

/// Whether a unit is a half of a character.
fn is_half(unit: u16) -> bool
    ensures { result ≡ is_within 0xd800 0xdfff unit }
{
    unit >= 0xd800 && unit <= 0xdfff
}

/// Whether a unit is the upper half of one.
pub(super) fn is_upper_half(unit: u16) -> bool
    ensures { result ≡ is_upper_half unit }
{
    unit >= 0xd800 && unit <= 0xdbff
}

/// The character of a unit that is no half.
pub(super) fn single_character(unit: u16) -> Option<char>
    ensures { MatchOption result (is_within 0xd800 0xdfff unit ≡ true) (λ c. (is_within 0xd800 0xdfff unit ≡ false) × (c ≡ unit)) }
{
    if is_half(unit) {
        return None;
    }
    char::from_u32(unit as u32)
}

/// The character of two halves, unless they aren't an upper and a lower one.
pub(super) fn joined_halves(upper: u16, lower: u16) -> Option<char>
    ensures { MatchOption result ((is_upper_half upper && is_lower_half lower) ≡ false)
        (λ c. ((is_upper_half upper && is_lower_half lower) ≡ true) × (c ≡ joined_halves upper lower)) }
{
    if upper < 0xd800 || upper > 0xdbff || lower < 0xdc00 || lower > 0xdfff {
        return None;
    }
    char::from_u32(0x1_0000 + (upper as u32 - 0xd800) * 0x400 + (lower as u32 - 0xdc00))
}

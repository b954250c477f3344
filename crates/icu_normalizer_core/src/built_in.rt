// What is built in: Hangul, jamo, U+FFFD, seven decompositions, two compatibility mappings, and classes.

ghost use Rattle.std.specs.Prelude.{◌≡◌, ◌↔◌, ◌<◌, ◌≤◌, Option, Some, option_map, is_some, true, IsTrue};
ghost use Rattle.icu_normalizer_core.specs.BuiltIn.{is_syllable, is_open_syllable, is_jamo, singled_out, syllable_step, syllable_of, built_in_step, built_in_compatibility_step, is_built_in, built_in_class};
ghost use Rattle.icu_normalizer_core.specs.Properties.{mapped_to};

use crate::decomposed::Decomposed;

/// Whether a code point is a Hangul syllable (UAX 15).
pub fn is_syllable(c: u32) -> bool
    ensures { result ≡ is_syllable c }
{
    (0xac00..=0xd7a3).contains(&c)
}

/// Whether a code point is in the block of Hangul jamo, U+1100 to U+11FF (docs/RECORDS.md, "What is built in").
pub fn is_jamo(c: u32) -> bool
    ensures { result ≡ is_jamo c }
{
    (0x1100..=0x11ff).contains(&c)
}

/// The canonical mapping of the seven characters whose mapping is built in without a composed pair (docs/RECORDS.md, "What is built in"); `None`
/// for any other.
#[tactic(auto, unfolding(crate::specs::BuiltIn::singled_out))]
pub(crate) fn singled_out(c: u32) -> Option<Decomposed>
    ensures { option_map mapped_to result ≡ singled_out c }
{
    match c {
        0x340 => Some(Decomposed::Singleton('\u{300}')),
        0x341 => Some(Decomposed::Singleton('\u{301}')),
        0x343 => Some(Decomposed::Singleton('\u{313}')),
        0x344 => Some(Decomposed::Expansion('\u{308}', '\u{301}')),
        0xf73 => Some(Decomposed::Expansion('\u{f71}', '\u{f72}')),
        0xf75 => Some(Decomposed::Expansion('\u{f71}', '\u{f74}')),
        0xf81 => Some(Decomposed::Expansion('\u{f71}', '\u{f80}')),
        _ => None,
    }
}

/// Whether the character is one of those seven.
#[tactic(auto, unfolding(crate::specs::BuiltIn::singled_out))]
pub(crate) fn is_singled_out(c: u32) -> bool
    ensures { result ≡ is_some (singled_out c) }
{
    matches!(c, 0x340 | 0x341 | 0x343 | 0x344 | 0xf73 | 0xf75 | 0xf81)
}

/// The built-in mapping of a Hangul syllable: its leading consonant and vowel, or the syllable without its trailing
/// consonant, and that consonant (UAX 15).
#[tactic(auto, unfolding(crate::specs::BuiltIn::syllable_step))]
fn syllable_step(c: u32) -> Decomposed
    requires { is_syllable c ≡ true }
    ensures { mapped_to result ≡ syllable_step c }
{
    let index = c - 0xac00;
    let trailing = index % 28;
    if trailing == 0 {
        Decomposed::Expansion(
            letter(0x1100 + index / 588),
            letter(0x1161 + index % 588 / 28),
        )
    } else {
        Decomposed::Expansion(letter(c - trailing), letter(0x11a7 + trailing))
    }
}

/// The Hangul syllable that two characters compose to: a leading consonant and a vowel, or a syllable of two and a
/// trailing consonant (UAX 15); `None` of any other two.
#[tactic(auto, unfolding(crate::specs::BuiltIn::syllable_of))]
pub fn syllable_of(first: u32, second: u32) -> Option<char>
    ensures { result ≡ syllable_of first second }
{
    if (0x1100..=0x1112).contains(&first) && (0x1161..=0x1175).contains(&second) {
        let index = (first - 0x1100) * 21 + (second - 0x1161);
        Some(letter(0xac00 + index * 28))
    } else if is_open_syllable(first) && (0x11a8..=0x11c2).contains(&second) {
        Some(letter(first + (second - 0x11a7)))
    } else {
        None
    }
}

/// Whether a code point is a Hangul syllable of two jamo.
fn is_open_syllable(c: u32) -> bool
    ensures { result ≡ is_open_syllable c }
{
    is_syllable(c) && (c - 0xac00) % 28 == 0
}

/// A Hangul syllable or a jamo as a character.
pub(crate) fn letter(c: u32) -> char
    requires from { 0x1100 ≤ c }
    requires to { c < 0xd800 }
    ensures { result ≡ c }
{
    char::from_u32(c).unwrap()
}

/// The canonical mapping of a character that has a built-in one, `Default` where it is built in that there is none; `None`
/// where nothing is built in (docs/RECORDS.md, "What is built in").
#[tactic(auto, unfolding(crate::specs::BuiltIn::built_in_step))]
pub fn built_in_step(c: u32) -> Option<Decomposed>
    ensures { option_map mapped_to result ≡ built_in_step c }
{
    if is_syllable(c) {
        Some(syllable_step(c))
    } else if is_jamo(c) || c == 0xfffd {
        Some(Decomposed::Default)
    } else {
        singled_out(c)
    }
}

/// The compatibility mapping of a character that has a built-in one (docs/RECORDS.md, "What is built in").
#[tactic(auto, unfolding(crate::specs::BuiltIn::built_in_compatibility_step))]
pub fn built_in_compatibility_step(c: u32) -> Option<Decomposed>
    ensures { option_map mapped_to result ≡ built_in_compatibility_step c }
{
    match c {
        0xff9e => Some(Decomposed::Singleton('\u{3099}')),
        0xff9f => Some(Decomposed::Singleton('\u{309a}')),
        _ => None,
    }
}

/// Whether a mapping of this character, of either kind, or that it has none, is built in (docs/RECORDS.md, "What is built
/// in").
pub fn is_built_in(c: u32) -> bool
    ensures { result ≡ is_built_in c }
{
    built_in_step(c).is_some() || built_in_compatibility_step(c).is_some()
}

/// The canonical combining class of a character that has a built-in one (docs/RECORDS.md, "What is built in").
#[tactic(auto, unfolding(crate::specs::BuiltIn::built_in_class))]
pub fn built_in_class(c: u32) -> Option<u8>
    ensures { result ≡ built_in_class c }
{
    match c {
        0x300 | 0x301 | 0x308 | 0x313 | 0x340 | 0x341 | 0x343 | 0x344 => Some(230),
        0xf71 => Some(129),
        0xf72 | 0xf80 => Some(130),
        0xf74 => Some(132),
        0x3099 | 0x309a => Some(8),
        _ if is_built_in_starter(c) => Some(0),
        _ => None,
    }
}

/// Whether it is built in that the character's class is 0.
#[tactic(auto, unfolding(crate::specs::BuiltIn::built_in_class))]
fn is_built_in_starter(c: u32) -> bool
    ensures { IsTrue result ↔ (built_in_class c ≡ Some 0) }
{
    is_syllable(c) || is_jamo(c) || matches!(c, 0xfffd | 0xf73 | 0xf75 | 0xf81 | 0xff9e | 0xff9f)
}

//! The same properties as functions for text shaping, which takes two characters for each mapping.

ghost use Rattle.std.specs.Prelude.{◌≡◌};
ghost use Rattle.icu_normalizer_core.specs.PropertyMeanings.{class_map_data, composition_data, decomposition_data, shaped};

use super::classes::CanonicalCombiningClassMapBorrowed;
use super::composition::CanonicalCompositionBorrowed;
use super::decomposition::CanonicalDecompositionBorrowed;
use crate::decomposed::Decomposed;

/// The canonical combining class of a character; a starter has 0 (UAX 15).
#[inline]
pub fn combining_class(classes: CanonicalCombiningClassMapBorrowed<'_>, c: char) -> u8
    ensures { result ≡ (class_map_data classes.entry).class c }
{
    classes.get_u8(c)
}

/// The character that two compose to, `None` where they don't compose (UAX 15); Hangul too.
#[inline]
pub fn shape_compose(
    composition: CanonicalCompositionBorrowed<'_>,
    first: char,
    second: char,
) -> Option<char>
    ensures { result ≡ (composition_data composition.entry).pair first second }
{
    composition.compose(first, second)
}

/// The two characters that a character is mapped to, with U+0000 for the second where it is mapped to one; `None`
/// where there is no mapping (UAX 15). Hangul too.
pub fn shape_decompose(
    decomposition: CanonicalDecompositionBorrowed<'_>,
    c: char,
) -> Option<(char, char)>
    ensures { result ≡ shaped ((decomposition_data decomposition.entry).step c) }
{
    match decomposition.decompose(c) {
        Decomposed::Default => None,
        Decomposed::Singleton(first) => Some((first, '\0')),
        Decomposed::Expansion(first, second) => Some((first, second)),
    }
}

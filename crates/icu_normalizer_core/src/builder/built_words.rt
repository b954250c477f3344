//! The word of each character.

ghost use Rattle.std.specs.Prelude.{◌≡◌, ◌↔◌, ◌*◌, ◌+◌, ◌/◌, ◌<◌, ℕ, List, [], false, IsTrue, All};
ghost use Rattle.std.specs.Option.{unwrap_or};
ghost use Rattle.icu_normalizer_core.specs.BuiltIn.{built_in_class, is_syllable};
ghost use Rattle.icu_normalizer_core.specs.CanonicalLists.{AreTriples};
ghost use Rattle.icu_normalizer_core.specs.CharacterWords.{class_with, AreListWords, AreStarters, IsWordOf};

use super::classes::Classes;
use super::list_words::ListWords;
use crate::built_in::{is_singled_out, is_syllable};
use crate::canonical::steps::triple_of;
use icu_packed_vector::PackedVec;

/// Whether the classes of characters are below 255.
pub(super) fn are_classes(classes: &Classes<'_>, characters: &[char]) -> bool
    ensures { IsTrue result ↔ All (λ c. class_with classes.now.given.now c < 255) characters.now }
{
    for c in characters {
        if classes.class_with(*c as u32) >= 255 {
            return false;
        }
    }
    true
}

/// Whether each mapped character is a starter.
pub(super) fn are_starters(classes: &Classes<'_>, steps: &PackedVec<'_, u32>) -> bool
    ensures { IsTrue result ↔ AreStarters classes.now.given.now steps.now }
{
    for index in 0..steps.len() / 3 {
        if classes.class_with(steps.at(3 * index)) != 0 {
            return false;
        }
    }
    true
}

/// The word of a character of a class that no list stands for: its mapping is built in, or it has none.
pub(super) fn unlisted_word(c: u32, class: u8) -> u32
    requires bound { class < 255 }
    requires class { unwrap_or (built_in_class c) class ≡ class }
    ensures says { (scalars24 : List ℕ) → IsWordOf class [] scalars24 c result }
    ensures syllable { result ≡ 0 → is_syllable c ≡ false }
{
    let class = class as u32;
    if is_syllable(c) {
        1
    } else if is_singled_out(c) {
        0xd900 + class
    } else if class == 0 {
        0
    } else {
        0xd800 + class
    }
}

/// The word of a character.
pub(super) fn word_of(
    classes: &Classes<'_>,
    steps: &PackedVec<'_, u32>,
    lists: &ListWords,
    c: u32,
) -> u32
    requires class { class_with classes.now.given.now c < 255 }
    requires triples { AreTriples steps.now }
    requires starters { AreStarters classes.now.given.now steps.now }
    requires lists { AreListWords steps.now lists.now }
    ensures says { IsWordOf (class_with classes.now.given.now c) steps.now lists.now.scalars24.items c result }
    ensures syllable { result ≡ 0 → is_syllable c ≡ false }
{
    match triple_of(steps, c) {
        Some(index) => lists.words[index],
        None => unlisted_word(c, classes.class_with(c)),
    }
}

//! What is known of the elements that a word spells, read one after another.

ghost use Rattle.std.specs.Prelude.{◌≡◌, ◌∷◌, []};
ghost use Rattle.icu_collator_core.specs.SpelledTests.{if_any, nothing_read, passes, with_bits, with_element, with_word};
ghost use Rattle.icu_collator_core.specs.WeightFaults.{are_sound_spelled};

use super::own::is_own_element;
use super::rules::is_sound_spelled;
use super::unpacked_elements::{element_of, stated_element};
use crate::tables::CollationSpecialPrimaries;
use icu_collator_types::elements::Element;

/// What is known of the elements that were read.
#[derive(Clone, Copy, Debug)]
pub(super) struct Spelled {
    /// There was none.
    is_empty: bool,
    /// There was one, which the character has by itself.
    is_own: bool,
    /// Each keeps the rules.
    is_sound: bool,
}

impl Spelled {
    /// Nothing was read.
    pub(super) fn new() -> Self
        ensures { result ≡ nothing_read }
    {
        Spelled {
            is_empty: true,
            is_own: false,
            is_sound: true,
        }
    }

    /// One element more was read.
    pub(super) fn with(
        self,
        special: &CollationSpecialPrimaries<'_>,
        own: Option<u32>,
        element: Element,
    ) -> Self
        ensures { result ≡ with_element special.now own self element }
    {
        Spelled {
            is_empty: false,
            is_own: self.is_empty && is_own_element(own, element),
            is_sound: self.is_sound && is_sound_spelled(special, element),
        }
    }

    /// A word was read, if there was one.
    pub(super) fn with_word(
        self,
        special: &CollationSpecialPrimaries<'_>,
        own: Option<u32>,
        word: Option<u32>,
    ) -> Self
        ensures { result ≡ if_any (with_word special.now own) self word }
    {
        let Some(word) = word else {
            return self;
        };
        match stated_element(word) {
            Some(element) => self.with(special, own, element),
            None => self,
        }
    }

    /// An element of 64 bits was read, if there was one.
    pub(super) fn with_bits(
        self,
        special: &CollationSpecialPrimaries<'_>,
        own: Option<u32>,
        bits: Option<u64>,
    ) -> Self
        ensures { result ≡ if_any (with_bits special.now own) self bits }
    {
        match bits {
            Some(bits) => self.with(special, own, element_of(bits)),
            None => self,
        }
    }

    /// Whether there was one element, which the character has by itself.
    pub(super) fn is_own(self) -> bool
        ensures { result ≡ self.is_own }
    {
        self.is_own
    }

    /// Whether the elements keep the rules, or are the one that the character has by itself.
    pub(super) fn passes(self) -> bool
        ensures { result ≡ passes self }
    {
        self.is_own || self.is_sound
    }
}

/// Whether an element of a character keeps the rules, or is the one that the character has by itself.
pub(super) fn is_sound_lone(
    special: &CollationSpecialPrimaries<'_>,
    own: Option<u32>,
    element: Element,
) -> bool
    ensures { result ≡ are_sound_spelled special.now own (element ∷ []) }
{
    is_own_element(own, element) || is_sound_spelled(special, element)
}

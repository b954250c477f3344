//! Characters that are read alone, whatever stands before or after them.

ghost use Rattle.std.specs.Prelude.{◌≡◌, ◌||◌, ℕ, IfSome, true};
ghost use Rattle.icu_collator_types.specs.ElementWords.{has_tag};
ghost use Rattle.icu_collator_types.specs.declared.elements.word_tags.Tag.TheVariants.{Implicit, Offset};
ghost use Rattle.icu_collator_core.specs.PlainWords.{IsReadAlone, IsReadUncounted, IsUnprefixed};
ghost use Rattle.icu_collator_core.specs.ReadWords.{AreSaidBy, table_word};
ghost use Rattle.icu_collator_core.specs.Weights.{Weights};

use crate::table_words::counting_words::CountingWord;
use crate::table_words::fields::has_tag;
use crate::table_words::lone_words::lone_word;
use crate::table_words::word_elements::stated_by;
use icu_collator_types::elements::{CollationElement, Tag};

impl CountingWord<'_> {
    /// Whether no prefix is recorded with the word's characters, by its tag.
    pub(crate) fn is_unprefixed(self) -> bool
        ensures { result ≡ true → (weights : Weights) (c : ℕ) → AreSaidBy weights (table_word self.entry) c → IsUnprefixed weights c }
    {
        !has_tag(self.word, Tag::Prefix)
    }

    /// Whether a word leaves its characters to a range or to their code points.
    fn is_left(self) -> bool
        ensures { result ≡ (has_tag Implicit self.entry.word || has_tag Offset self.entry.word) }
    {
        has_tag(self.word, Tag::Implicit) || has_tag(self.word, Tag::Offset)
    }

    /// The element of a character that its word leaves to a range or to its code point: nothing that stands before or
    /// after it changes it. `None` of another word.
    fn own_element(self, c: char) -> Option<CollationElement>
        ensures { IfSome result (λ bits. (weights : Weights) → AreSaidBy weights (table_word self.entry) c → IsReadAlone weights c bits) }
    {
        if self.is_left() {
            Some(self.default_element(c))
        } else {
            None
        }
    }

    /// The element of a character whose word states one, or leaves it to a range or to its code point: nothing that stands
    /// before or after it changes it. `None` of another word.
    #[inline]
    pub(crate) fn alone_element(self, c: char) -> Option<CollationElement>
        ensures { IfSome result (λ bits. (weights : Weights) → AreSaidBy weights (table_word self.entry) c → IsReadAlone weights c bits) }
    {
        match stated_by(self.word) {
            Some(element) => Some(element),
            None => self.own_element(c),
        }
    }

    /// The element of a digit whose word states one for it where digits don't count: nothing that stands before or after it
    /// changes it then. `None` of another word.
    pub(crate) fn digit_element(self) -> Option<CollationElement>
        ensures { IfSome result (λ bits. (weights : Weights) (c : ℕ) → AreSaidBy weights (table_word self.entry) c → IsReadUncounted weights c bits) }
    {
        if has_tag(self.word, Tag::Digit) {
            stated_by(lone_word(self.source, self.word))
        } else {
            None
        }
    }
}

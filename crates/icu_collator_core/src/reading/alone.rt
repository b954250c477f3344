//! What the word of a character says of it with nothing before or after.

ghost use Rattle.std.specs.Prelude.{◌≡◌, ◌∷◌, [], OnOk};
ghost use Rattle.std.specs.Option.{unwrap_or};
ghost use Rattle.icu_collator_core.specs.Defaults.{default_elements};
ghost use Rattle.icu_collator_core.specs.ElementLists.{AddsElements};
ghost use Rattle.icu_collator_core.specs.Pools.{element_of, elements_of_word};
ghost use Rattle.icu_collator_core.specs.Weights.{Weights};
ghost use Rattle.icu_collator_core.specs.ReadWords.{AreSaidBy, default_by, elements_alone_by, elements_spelled_by, table_word};
ghost use Rattle.icu_collator_core.specs.TableMeaning.{digit_by, pools_of, ranged_by};

use crate::table_words::counting_words::CountingWord;
use crate::table_words::defaults::{special_primary, unranged_primary};
use crate::table_words::fields::{digit_value, entry_at, has_tag, index_of};
use crate::table_words::lone_words::lone_word;
use crate::table_words::offsets::offset_primary;
use crate::table_words::word_elements::push_elements;
use icu_collator_types::elements::{CollationElement, Tag};
use smallvec::SmallVec;
use std::alloc::AllocError;

impl CountingWord<'_> {
    /// The value of a digit.
    pub(crate) fn digit(self) -> Option<u32>
        ensures { result ≡ digit_by (table_word self.entry) }
    {
        if has_tag(self.word, Tag::Digit) {
            Some(digit_value(self.word))
        } else {
            None
        }
    }

    /// The primary of a character in a range.
    #[tactic(auto, unfolding(crate::specs::TableMeaning::ranged_by))]
    fn ranged_primary(self, c: char) -> Option<u32>
        ensures { result ≡ ranged_by (table_word self.entry) c }
    {
        let lone = lone_word(self.source, self.word);
        if has_tag(lone, Tag::Offset) {
            let bits = entry_at(&self.source.ces, index_of(lone));
            Some(offset_primary(bits, c as u32))
        } else {
            None
        }
    }

    /// The element of a character by itself: special, in a range, a jamo, or implicit.
    #[tactic(auto, unfolding(crate::specs::ReadWords::default_by))]
    pub(crate) fn default_element(self, c: char) -> CollationElement
        ensures element { element_of result ≡ default_by (table_word self.entry) c }
    {
        let primary = match special_primary(c as u32) {
            Some(primary) => primary,
            None => match self.ranged_primary(c) {
                Some(primary) => primary,
                None => unranged_primary(c as u32),
            },
        };
        CollationElement::new_from_primary(primary)
    }

    /// Appends the elements of a word, that of a text or of a character after a prefix; where it has none, the element
    /// of the character by itself. Fails only if memory is refused.
    pub(crate) fn push_spelled(
        self,
        c: char,
        word: u32,
        elements: &mut SmallVec<CollationElement, 32>,
    ) -> Result<(), AllocError>
        ensures elements { OnOk result (AddsElements elements.old.items (elements_spelled_by (table_word self.entry) c word) elements.new.items) }
        ensures said { OnOk result ((weights : Weights) → AreSaidBy weights (table_word self.entry) c
            → AddsElements elements.old.items (unwrap_or (elements_of_word (pools_of self.entry.source.now) word) (default_elements weights c)) elements.new.items) }
    {
        let found = push_elements(self.source, word, elements)?;
        if !found {
            elements.push(self.default_element(c))?;
        }
        Ok(())
    }

    /// Appends the elements of a character with nothing before or after it. Fails only if memory is refused.
    pub(crate) fn push_alone(
        self,
        c: char,
        elements: &mut SmallVec<CollationElement, 32>,
    ) -> Result<(), AllocError>
        ensures elements { OnOk result (AddsElements elements.old.items (elements_alone_by (table_word self.entry) c) elements.new.items) }
        ensures said { OnOk result ((weights : Weights) → AreSaidBy weights (table_word self.entry) c
            → AddsElements elements.old.items (unwrap_or (weights.recorded [] (c ∷ [])) (default_elements weights c)) elements.new.items) }
    {
        let lone = lone_word(self.source, self.word);
        self.push_spelled(c, lone, elements)?;
        Ok(())
    }
}

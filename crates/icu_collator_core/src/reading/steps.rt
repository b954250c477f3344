//! The reading of a character that is neither special nor a digit that counts: the record after a prefix, or the longest
//! recorded text with the marks that join it.

ghost use Rattle.std.specs.Prelude.{◌≡◌, ◌+◌, ◌<◌, ◌≤◌, ◌∷◌, ℕ, [], true, IfOk, OnOk, drop, is_some, length, take};
ghost use Rattle.std.specs.Option.{unwrap_or};
ghost use lib.Utf8.{scalars};
ghost use Rattle.smallvec.specs.SmallVec.{small_vec_len};
ghost use Rattle.icu_normalizer_core.specs.BorrowedMeaning.{borrowed_meaning};
ghost use Rattle.icu_collator_core.specs.ElementLists.{AddsElements};
ghost use Rattle.icu_collator_core.specs.Elements.{placed, prefix_match, text_reading};
ghost use Rattle.icu_collator_core.specs.ReadSteps.{IsReadAs, placed_at, reading_in_context};
ghost use Rattle.icu_collator_core.specs.ReadWords.{AreSaidBy, table_word};
ghost use Rattle.icu_collator_core.specs.Weights.{Weights};

use super::joining::text_match;
use crate::table_words::counting_words::CountingWord;
use crate::table_words::word_elements::push_elements;
use icu_collator_types::elements::CollationElement;
use icu_normalizer_core::canonical::CanonicalBorrowed;
use smallvec::SmallVec;
use std::alloc::AllocError;

impl CountingWord<'_> {
    /// Appends the record of the character after the longest recorded prefix that stands before its index in a list, and
    /// says whether there is one. Fails only if memory is refused.
    fn push_prefixed(
        self,
        list: &[char],
        index: usize,
        ready: &mut SmallVec<CollationElement, 32>,
    ) -> Result<bool, AllocError>
        requires { index ≤ length list.now }
        ensures found { IfOk result (λ found. (weights : Weights) (c : ℕ) → AreSaidBy weights (table_word self.entry) c → scalars (take index list.now) ≡ true
            → found ≡ is_some (prefix_match weights (placed_at list.now index c))) }
        ensures elements { OnOk result ((weights : Weights) (c : ℕ) → AreSaidBy weights (table_word self.entry) c → scalars (take index list.now) ≡ true
            → AddsElements ready.old.items (unwrap_or (prefix_match weights (placed_at list.now index c)) []) ready.new.items) }
    {
        match self.prefixed_text(list, index) {
            Some(text) => {
                let found = push_elements(self.source, text.word, ready)?;
                Ok(found)
            }
            None => Ok(false),
        }
    }

    /// Appends the elements of the longest recorded text at an index of a list, with the marks that join it, or what the
    /// character is by itself; answers where what is left begins. Marks that join are moved in front of those left
    /// between. Fails only if memory is refused.
    fn push_match(
        self,
        canonical: CanonicalBorrowed<'_>,
        c: char,
        list: &mut SmallVec<char, 64>,
        index: usize,
        ready: &mut SmallVec<CollationElement, 32>,
    ) -> Result<usize, AllocError>
        requires inside { index < small_vec_len list.old }
        requires here { drop index list.old.items ≡ c ∷ drop (index + 1) list.old.items }
        ensures read { IfOk result (λ next. (weights : Weights) → AreSaidBy weights (table_word self.entry) c → scalars (drop index list.old.items) ≡ true
            → IsReadAs (borrowed_meaning canonical.entry) weights (text_reading (borrowed_meaning canonical.entry) weights c (drop index (placed list.old.items))) ready.old.items list.new.items next ready.new.items) }
        ensures kept { scalars list.old.items ≡ true → scalars list.new.items ≡ true }
        ensures same_length { small_vec_len list.new ≡ small_vec_len list.old }
        ensures onward { IfOk result (λ next. index < next) }
        ensures within { IfOk result (λ next. next ≤ small_vec_len list.old) }
    {
        let found = text_match(canonical, self, list, index);
        match found.word {
            Some(word) => self.push_spelled(c, word, ready)?,
            None => self.push_alone(c, ready)?,
        }
        Ok(found.next)
    }

    /// Reads the character at an index of a list: appends the record after a prefix, or else the elements of the text
    /// match there; answers where what is left begins. Marks that join are moved in front of those left between. Fails
    /// only if memory is refused.
    pub(crate) fn read_text(
        self,
        canonical: CanonicalBorrowed<'_>,
        c: char,
        list: &mut SmallVec<char, 64>,
        index: usize,
        ready: &mut SmallVec<CollationElement, 32>,
    ) -> Result<usize, AllocError>
        requires inside { index < small_vec_len list.old }
        requires here { drop index list.old.items ≡ c ∷ drop (index + 1) list.old.items }
        ensures read { IfOk result (λ next. (weights : Weights) → AreSaidBy weights (table_word self.entry) c → scalars list.old.items ≡ true
            → IsReadAs (borrowed_meaning canonical.entry) weights
            (reading_in_context (borrowed_meaning canonical.entry) weights (placed_at list.old.items index c) (drop (index + 1) (placed list.old.items)))
            ready.old.items list.new.items next ready.new.items) }
        ensures kept { scalars list.old.items ≡ true → scalars list.new.items ≡ true }
        ensures same_length { small_vec_len list.new ≡ small_vec_len list.old }
        ensures onward { IfOk result (λ next. index < next) }
        ensures within { IfOk result (λ next. next ≤ small_vec_len list.old) }
    {
        let found = self.push_prefixed(list, index, ready)?;
        if found {
            return Ok(index + 1);
        }
        let next = self.push_match(canonical, c, list, index, ready)?;
        Ok(next)
    }
}

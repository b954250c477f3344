//! The calls that compare two texts.

ghost use Rattle.std.specs.Prelude.{◌≡◌, ◌≤◌, ◌⊎◌, IfOk, drop, length, take};
ghost use Rattle.icu_normalizer_core.specs.Decoding.{latin1_chars, utf16_chars, utf8_chars};

use super::CollatorBorrowed;
use crate::compare::{common_start, compare_texts};
use crate::encodings::{Latin1Text, Utf8Text, Utf16Text};
use std::alloc::{AllocError, Global};
use std::cmp::Ordering;

impl<'d> CollatorBorrowed<'d> {
    ghost use Rattle.icu_collator.specs.Collators.{borrowed_collation, borrowed_options};
    ghost use Rattle.icu_collator.specs.Order.{collation_order};
    ghost use Rattle.icu_collator.specs.ReadingStarts.{MaySkip, StandsSafely};

    /// The order of two texts. Fails only if memory is refused.
    pub fn compare(&self, alloc: Global, left: &str, right: &str) -> Result<Ordering, AllocError>
        ensures { IfOk result (λ answer. answer ≡ collation_order (borrowed_collation self.now) (borrowed_options self.now) (utf8_chars left.now) (utf8_chars right.now)) }
    {
        let answer = self.compare_utf8(alloc, left.as_bytes(), right.as_bytes())?;
        Ok(answer)
    }

    /// The order of two texts in UTF-8. Bytes that are no character count as U+FFFD, one for each maximal subpart, as
    /// `decode_utf8` reads them. Fails only if memory is refused.
    pub fn compare_utf8(
        &self,
        alloc: Global,
        left: &[u8],
        right: &[u8],
    ) -> Result<Ordering, AllocError>
        ensures { IfOk result (λ answer. answer ≡ collation_order (borrowed_collation self.now) (borrowed_options self.now) (utf8_chars left.now) (utf8_chars right.now)) }
    {
        let lefts = Utf8Text { bytes: left };
        let rights = Utf8Text { bytes: right };
        let answer = compare_texts(alloc, self.tables, &self.options, lefts, rights)?;
        Ok(answer)
    }

    /// The order of two texts in UTF-16. A surrogate without its partner counts as U+FFFD. Fails only if memory is
    /// refused.
    pub fn compare_utf16(
        &self,
        alloc: Global,
        left: &[u16],
        right: &[u16],
    ) -> Result<Ordering, AllocError>
        ensures { IfOk result (λ answer. answer ≡ collation_order (borrowed_collation self.now) (borrowed_options self.now) (utf16_chars left.now) (utf16_chars right.now)) }
    {
        let lefts = Utf16Text { units: left };
        let rights = Utf16Text { units: right };
        let answer = compare_texts(alloc, self.tables, &self.options, lefts, rights)?;
        Ok(answer)
    }

    /// The order of two texts in Latin-1: each byte is a character. Fails only if memory is refused.
    pub fn compare_latin1(
        &self,
        alloc: Global,
        left: &[u8],
        right: &[u8],
    ) -> Result<Ordering, AllocError>
        ensures { IfOk result (λ answer. answer ≡ collation_order (borrowed_collation self.now) (borrowed_options self.now) (latin1_chars left.now) (latin1_chars right.now)) }
    {
        let lefts = Latin1Text { bytes: left };
        let rights = Latin1Text { bytes: right };
        let answer = compare_texts(alloc, self.tables, &self.options, lefts, rights)?;
        Ok(answer)
    }

    /// The order of a text in Latin-1 and one in UTF-16. A surrogate without its partner counts as U+FFFD. Fails only
    /// if memory is refused.
    pub fn compare_latin1_utf16(
        &self,
        alloc: Global,
        left: &[u8],
        right: &[u16],
    ) -> Result<Ordering, AllocError>
        ensures { IfOk result (λ answer. answer ≡ collation_order (borrowed_collation self.now) (borrowed_options self.now) (latin1_chars left.now) (utf16_chars right.now)) }
    {
        let lefts = Latin1Text { bytes: left };
        let rights = Utf16Text { units: right };
        let answer = compare_texts(alloc, self.tables, &self.options, lefts, rights)?;
        Ok(answer)
    }

    /// The index from which `compare` reads two texts, where the first characters that differ don't decide alone: in
    /// characters of each, not bytes. What stands before it is the same in both, and isn't read. It is 0, their
    /// beginning, or the index of a character that isn't unsafe; always 0 where secondaries are read backward, a dot
    /// above may be dropped, elements are shifted, or numbers are sought. No memory is taken.
    pub fn reading_start(&self, left: &str, right: &str) -> usize
        ensures left_reaches { result ≤ length (utf8_chars left.now) }
        ensures right_reaches { result ≤ length (utf8_chars right.now) }
        ensures common { take result (utf8_chars left.now) ≡ take result (utf8_chars right.now) }
        ensures may_skip { (result ≡ 0) ⊎ MaySkip (borrowed_collation self.now) (borrowed_options self.now) }
        ensures safe { (result ≡ 0) ⊎ StandsSafely (borrowed_collation self.now) (utf8_chars left.now) result }
        ensures same { collation_order (borrowed_collation self.now) (borrowed_options self.now) (utf8_chars left.now) (utf8_chars right.now)
            ≡ collation_order (borrowed_collation self.now) (borrowed_options self.now) (drop result (utf8_chars left.now)) (drop result (utf8_chars right.now)) }
    {
        let lefts = Utf8Text {
            bytes: left.as_bytes(),
        };
        let rights = Utf8Text {
            bytes: right.as_bytes(),
        };
        common_start(self.tables, &self.options, lefts, rights)
    }
}

//! Canonical data, borrowed: what they say of each character. No call here takes memory.

ghost use Rattle.std.specs.Prelude.{◌≡◌, ◌≢◌, [], IfSome, IfNone, IsTrue};
ghost use Rattle.icu_normalizer_core.specs.Boundaries.{IsSteady};
ghost use Rattle.icu_normalizer_core.specs.Canonical.{is_starter, IsCanonical};
ghost use Rattle.icu_normalizer_core.specs.BorrowedMeaning.{borrowed_meaning, borrowed_tables};
ghost use Rattle.icu_normalizer_core.specs.Properties.{mapped_to};
ghost use Rattle.icu_normalizer_core.specs.Readings.{IsTold};
ghost use Rattle.icu_normalizer_core.specs.declared.decomposed.Decomposed.TheVariants.{Default};

use super::character_data::{Reading, read_character};
use super::data::CanonicalData;
use super::full_list::{FullList, full_list};
use super::pairs::listed_pair;
use super::steps::listed_step;
use crate::built_in::{built_in_step, syllable_of};
use crate::decomposed::Decomposed;

/// Canonical data, borrowed.
#[derive(Clone, Copy, Debug)]
pub struct CanonicalBorrowed<'d> {
    pub(super) checked: &'d CanonicalData<'d>,
}

impl CanonicalData<'_> {
    /// The data, borrowed.
    pub fn as_borrowed(&self) -> CanonicalBorrowed<'_>
        ensures same { borrowed_tables result ≡ self.now }
        ensures canonical { IsCanonical (borrowed_meaning result) }
    {
        let _tables = self.tables();
        CanonicalBorrowed { checked: self }
    }
}

impl<'d> CanonicalBorrowed<'d> {
    /// Checked data keep what canonical data promise (UAX 15): classes, mappings, full lists and composed pairs fit
    /// together, and nothing contradicts what is built in.
    ///
    /// It computes nothing: its contract is what every holder of canonical data knows.
    #[inline]
    pub fn keep_promise(&self)
        ensures { IsCanonical (borrowed_meaning self.now) }
    {
        let _tables = self.checked.tables();
    }

    /// The canonical combining class of a character; a starter has 0 (UAX 15).
    #[inline]
    pub fn class(&self, c: char) -> u8
        ensures { result ≡ (borrowed_meaning self.now).class c }
    {
        self.checked.tables().class(c)
    }

    /// Whether a character is a starter: its class is 0 (UAX 15).
    #[inline]
    pub fn is_starter(&self, c: char) -> bool
        ensures { result ≡ is_starter (borrowed_meaning self.now) c }
    {
        self.class(c) == 0
    }

    /// Whether one read tells that composing leaves a character alone, whatever stands before it: it is its own
    /// composed list (NFC), and its full list begins with a starter that is no pair's second (UAX 15). `false` says
    /// nothing: it may come of such characters too, and comes of each from U+10000 on.
    #[inline]
    pub fn is_steady(&self, c: char) -> bool
        ensures { IsTrue result → IsSteady (borrowed_meaning self.now) c }
    {
        self.checked.is_steady(c)
    }

    /// What one read tells of a character: whether it is its own full list, and of which class, or its full list of
    /// two or three characters; of other characters nothing.
    #[inline(always)]
    pub fn reading(&self, c: char) -> Reading
        ensures { IsTold (borrowed_meaning self.now) c result }
    {
        read_character(self.checked.tables(), c)
    }

    /// The canonical mapping of a character (UAX 15), `None` where it has none; built-in ones too.
    pub fn step(&self, c: char) -> Option<Decomposed>
        ensures mapped { IfSome result (λ step. mapped_to step ≡ (borrowed_meaning self.now).step c) }
        ensures some { IfSome result (λ step. step ≢ Default) }
        ensures none { IfNone result ((borrowed_meaning self.now).step c ≡ []) }
    {
        match self.mapping(c) {
            Decomposed::Default => None,
            step => Some(step),
        }
    }

    /// The same, with a variant of its own where there is no mapping.
    pub(crate) fn mapping(&self, c: char) -> Decomposed
        ensures { mapped_to result ≡ (borrowed_meaning self.now).step c }
    {
        match built_in_step(c as u32) {
            Some(step) => step,
            None => listed_step(&self.checked.tables().steps, c as u32),
        }
    }

    /// The character that two compose to, `None` where they don't compose (UAX 15); Hangul too.
    #[inline]
    pub fn compose(&self, first: char, second: char) -> Option<char>
        ensures { result ≡ (borrowed_meaning self.now).pair first second }
    {
        match syllable_of(first as u32, second as u32) {
            Some(syllable) => Some(syllable),
            None => listed_pair(&self.checked.tables().pairs, first as u32, second as u32),
        }
    }

    /// The full list of a character: what mapping steps leave of it (UAX 15). It has one to eight characters.
    #[inline]
    pub fn full_list(&self, c: char) -> FullList<'d>
        ensures { result ≡ (borrowed_meaning self.now).full c }
    {
        full_list(self.checked.tables(), c)
    }
}

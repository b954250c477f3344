//! Compatibility data, borrowed: what they say of each character. No call here takes memory.

ghost use Rattle.std.specs.Prelude.{◌≡◌, IsTrue};
ghost use Rattle.icu_normalizer_core.specs.BorrowedCompatibility.{borrowed_compatibility, canonical_beneath, compatibility_tables};
ghost use Rattle.icu_normalizer_core.specs.BorrowedMeaning.{borrowed_tables};
ghost use Rattle.icu_normalizer_core.specs.Boundaries.{IsSteady};
ghost use Rattle.icu_normalizer_core.specs.Canonical.{is_starter, IsCanonical};
ghost use Rattle.icu_normalizer_core.specs.Compatibility.{IsCompatibility};
ghost use Rattle.icu_normalizer_core.specs.Readings.{IsTold};

use super::data::CompatibilityData;
use crate::canonical::{CanonicalBorrowed, FullList, Reading};

/// Compatibility data, borrowed.
#[derive(Clone, Copy, Debug)]
pub struct CompatibilityBorrowed<'d> {
    pub(super) checked: &'d CompatibilityData<'d>,
}

impl CompatibilityData<'_> {
    /// The data, borrowed.
    pub fn as_borrowed(&self) -> CompatibilityBorrowed<'_>
        ensures { compatibility_tables result ≡ self.now }
    {
        CompatibilityBorrowed { checked: self }
    }
}

impl<'d> CompatibilityBorrowed<'d> {
    /// Checked data keep what compatibility data promise (UAX 15): their full lists fit to canonical data, and to
    /// what is built in.
    ///
    /// It computes nothing: its contract is what every holder of compatibility data knows.
    #[inline]
    pub fn keep_promise(&self)
        ensures canonical { IsCanonical (canonical_beneath self.now) }
        ensures compatibility { IsCompatibility (canonical_beneath self.now) (borrowed_compatibility self.now) }
    {
        let _tables = self.checked.tables();
    }

    /// The canonical data beneath.
    #[inline]
    pub fn canonical(&self) -> CanonicalBorrowed<'d>
        ensures { borrowed_tables result ≡ (compatibility_tables self.now).canonical }
    {
        self.checked.canonical().as_borrowed()
    }

    /// The canonical combining class of a character; a starter has 0 (UAX 15).
    #[inline]
    pub fn class(&self, c: char) -> u8
        ensures { result ≡ (borrowed_compatibility self.now).class c }
    {
        self.canonical().class(c)
    }

    /// Whether a character is a starter: its class is 0 (UAX 15).
    #[inline]
    pub fn is_starter(&self, c: char) -> bool
        ensures { result ≡ is_starter (borrowed_compatibility self.now) c }
    {
        self.class(c) == 0
    }

    /// Whether one read tells that composing leaves a character alone, whatever stands before it: it is its own
    /// composed list (NFKC), and its full list begins with a starter that is no pair's second (UAX 15). `false` says
    /// nothing: it may come of such characters too, and comes of each from U+10000 on.
    #[inline]
    pub fn is_steady(&self, c: char) -> bool
        ensures { IsTrue result → IsSteady (borrowed_compatibility self.now) c }
    {
        self.checked.is_steady(c)
    }

    /// What one read tells of a character: whether it is its own full list, and of which class, or its full list of
    /// two or three characters; of other characters nothing.
    #[inline(always)]
    pub fn reading(&self, c: char) -> Reading
        ensures { IsTold (borrowed_compatibility self.now) c result }
    {
        self.checked.tables().words().reading(c)
    }

    /// The character that two compose to, `None` where they don't compose (UAX 15); Hangul too.
    #[inline]
    pub fn compose(&self, first: char, second: char) -> Option<char>
        ensures { result ≡ (borrowed_compatibility self.now).pair first second }
    {
        self.canonical().compose(first, second)
    }

    /// The full list of a character: what canonical and compatibility mapping steps leave of it (UAX 15). It has one
    /// to eight characters.
    #[inline]
    pub fn full_list(&self, c: char) -> FullList<'d>
        ensures { result ≡ (borrowed_compatibility self.now).full c }
    {
        self.checked.tables().words().full_list(c)
    }
}

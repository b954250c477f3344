//! The data that normal forms are made by.

ghost use Rattle.std.specs.Prelude.{◌≡◌, IsTrue};
ghost use Rattle.icu_normalizer_core.specs.Boundaries.{IsSteady};
ghost use Rattle.icu_normalizer_core.specs.Canonical.{IsCanonical};
ghost use Rattle.icu_normalizer_core.specs.Readings.{IsTold};
ghost use Rattle.icu_normalizer_core.specs.FormData.{form_meaning, form_canonical, low_bound};
ghost use Rattle.icu_normalizer_core.specs.Forming.{IsForming, AreLowBelow, IsSaidOver};

use crate::canonical::{CanonicalBorrowed, FullList, Reading};
use crate::compatibility::CompatibilityBorrowed;

/// What a normal form is made by.
#[derive(Clone, Copy, Debug)]
pub enum FormData<'d> {
    /// Canonical data: NFD and NFC.
    Canonical(CanonicalBorrowed<'d>),
    /// Compatibility data: NFKD and NFKC.
    Compatibility(CompatibilityBorrowed<'d>),
}

impl<'d> FormData<'d> {
    /// The data keep what making a normal form rests on. It computes nothing.
    #[inline]
    #[tactic(auto, using(crate::proofs::decomposed_lists::FormingLemmas::forming_canonical, crate::proofs::decomposed_lists::FormingLemmas::low_canonical, crate::proofs::compatible::CompatibleLemmas::forming_compatibility, crate::proofs::compatible::CompatibleLemmas::low_compatibility))]
    pub fn keep_promise(&self)
        ensures forming { IsForming (form_meaning self.now) }
        ensures low { AreLowBelow (low_bound self.now) (form_meaning self.now) }
    {
        match self {
            FormData::Canonical(canonical) => canonical.keep_promise(),
            FormData::Compatibility(both) => both.keep_promise(),
        }
    }

    /// The data keep what canonical data promise, and what compatibility data do. It computes nothing.
    #[inline]
    pub fn keep_promises(&self)
        ensures canonical { IsCanonical (form_canonical self.now) }
        ensures said { IsSaidOver (form_canonical self.now) (form_meaning self.now) }
    {
        match self {
            FormData::Canonical(canonical) => canonical.keep_promise(),
            FormData::Compatibility(both) => both.keep_promise(),
        }
    }

    /// The canonical combining class of a character; a starter has 0.
    #[inline(always)]
    pub fn class(&self, c: char) -> u8
        ensures { result ≡ (form_meaning self.now).class c }
    {
        match self {
            FormData::Canonical(canonical) => canonical.class(c),
            FormData::Compatibility(both) => both.class(c),
        }
    }

    /// Whether it is told at once that composing leaves a character alone, whatever stands before it. `false` says
    /// nothing.
    #[inline]
    pub fn is_steady(&self, c: char) -> bool
        ensures { IsTrue result → IsSteady (form_meaning self.now) c }
    {
        match self {
            FormData::Canonical(canonical) => canonical.is_steady(c),
            FormData::Compatibility(both) => both.is_steady(c),
        }
    }

    /// What one read tells of a character.
    #[inline(always)]
    pub fn reading(&self, c: char) -> Reading
        ensures { IsTold (form_meaning self.now) c result }
    {
        match self {
            FormData::Canonical(canonical) => canonical.reading(c),
            FormData::Compatibility(both) => both.reading(c),
        }
    }

    /// The character that two compose to, `None` where they don't compose.
    #[inline]
    pub fn compose(&self, first: char, second: char) -> Option<char>
        ensures { result ≡ (form_meaning self.now).pair first second }
    {
        match self {
            FormData::Canonical(canonical) => canonical.compose(first, second),
            FormData::Compatibility(both) => both.compose(first, second),
        }
    }

    /// The full list of a character: what mapping steps leave of it.
    #[inline]
    pub fn full_list(&self, c: char) -> FullList<'d>
        ensures { result ≡ (form_meaning self.now).full c }
    {
        match self {
            FormData::Canonical(canonical) => canonical.full_list(c),
            FormData::Compatibility(both) => both.full_list(c),
        }
    }
}

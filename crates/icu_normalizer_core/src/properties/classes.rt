//! Canonical combining classes.

ghost use Rattle.std.specs.Prelude.{◌≡◌};
ghost use Rattle.std.specs.Char.{IsScalar};
ghost use Rattle.icu_normalizer_core.specs.CanonicalMeaning.{meaning};
ghost use Rattle.icu_normalizer_core.specs.Loading.{CheckedMemoryAside, loaded};

use crate::canonical::{CanonicalBorrowed, CanonicalData};
use crate::provider::{DataError, NormalizerProvider, load_canonical_data};
use std::alloc::Global;
use std::marker::Model;

/// The canonical combining class of each character (UAX 15). It is seen as the canonical tables that it reads.
#[derive(Debug, Drop)]
pub struct CanonicalCombiningClassMap<'a> {
    canonical: CanonicalData<'a>,
}

impl<'a> Model for CanonicalCombiningClassMap<'a> {
    ghost use Rattle.icu_normalizer_core.specs.declared.canonical.tables.CanonicalTables.{CanonicalTables};

    ghost Value = { CanonicalTables };

    ghost view = { λ inside. inside.canonical };
}

impl<'a> CanonicalCombiningClassMap<'a> {
    ghost use Rattle.icu_normalizer_core.specs.PropertyMeanings.{class_map_data};

    /// The classes that a provider's tables say. The answer is the first refusal, if there is one: of `load_nfd`, of
    /// `load_nfd_tables`, of `load_pairs`, then of `CanonicalData::try_new`.
    pub fn try_new_unstable<P: NormalizerProvider>(
        alloc: Global,
        provider: &'a P,
    ) -> Result<CanonicalCombiningClassMap<'a>, DataError>
        ensures { CheckedMemoryAside result (loaded (P.nfd provider.now) (P.nfd_tables provider.now) (P.pairs provider.now)) }
    {
        let canonical = load_canonical_data(alloc, provider)?;
        Ok(CanonicalCombiningClassMap { canonical })
    }

    /// The same, borrowed: that has the calls.
    pub fn as_borrowed(&self) -> CanonicalCombiningClassMapBorrowed<'_>
        ensures { class_map_data result ≡ meaning self.now }
    {
        CanonicalCombiningClassMapBorrowed {
            canonical: self.canonical.as_borrowed(),
        }
    }
}

/// The canonical combining class of each character (UAX 15), borrowed. No call takes memory.
#[derive(Clone, Copy, Debug)]
pub struct CanonicalCombiningClassMapBorrowed<'a> {
    canonical: CanonicalBorrowed<'a>,
}

impl CanonicalCombiningClassMapBorrowed<'_> {
    ghost use Rattle.icu_normalizer_core.specs.PropertyMeanings.{class_map_data};

    /// The class of a character; a starter has 0.
    #[inline]
    pub fn get(&self, c: char) -> u8
        ensures { result ≡ (class_map_data self.now).class c }
    {
        self.canonical.class(c)
    }

    /// The class of a character, as `get` gives it.
    #[inline]
    pub fn get_u8(&self, c: char) -> u8
        ensures { result ≡ (class_map_data self.now).class c }
    {
        self.get(c)
    }

    /// The class of the character with this number; 0 where no character has it, as with surrogates and numbers past
    /// 10FFFF (hex).
    #[inline]
    pub fn get32(&self, c: u32) -> u8
        ensures character { IsScalar c → result ≡ (class_map_data self.now).class c }
        ensures other { ¬ IsScalar c → result ≡ 0 }
    {
        match char::from_u32(c) {
            Some(c) => self.get(c),
            None => 0,
        }
    }

    /// The class of the character with this number, as `get32` gives it.
    #[inline]
    pub fn get32_u8(&self, c: u32) -> u8
        ensures character { IsScalar c → result ≡ (class_map_data self.now).class c }
        ensures other { ¬ IsScalar c → result ≡ 0 }
    {
        self.get32(c)
    }
}

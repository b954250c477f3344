//! Characters that two compose to.

ghost use Rattle.std.specs.Prelude.{◌≡◌};
ghost use Rattle.icu_normalizer_core.specs.CanonicalMeaning.{meaning};
ghost use Rattle.icu_normalizer_core.specs.Loading.{CheckedMemoryAside, loaded};

use crate::canonical::{CanonicalBorrowed, CanonicalData};
use crate::provider::{DataError, NormalizerProvider, load_canonical_data};
use std::alloc::Global;
use std::marker::Model;

/// What two characters compose to (UAX 15). It is seen as the canonical tables that it reads.
#[derive(Debug, Drop)]
pub struct CanonicalComposition<'a> {
    canonical: CanonicalData<'a>,
}

impl<'a> Model for CanonicalComposition<'a> {
    ghost use Rattle.icu_normalizer_core.specs.declared.canonical.tables.CanonicalTables.{CanonicalTables};

    ghost Value = { CanonicalTables };

    ghost view = { λ inside. inside.canonical };
}

impl<'a> CanonicalComposition<'a> {
    ghost use Rattle.icu_normalizer_core.specs.PropertyMeanings.{composition_data};

    /// The composed pairs that a provider's tables say. The answer is the first refusal, if there is one: of
    /// `load_nfd`, of `load_nfd_tables`, of `load_pairs`, then of `CanonicalData::try_new`.
    pub fn try_new_unstable<P: NormalizerProvider>(
        alloc: Global,
        provider: &'a P,
    ) -> Result<CanonicalComposition<'a>, DataError>
        ensures { CheckedMemoryAside result (loaded (P.nfd provider.now) (P.nfd_tables provider.now) (P.pairs provider.now)) }
    {
        let canonical = load_canonical_data(alloc, provider)?;
        Ok(CanonicalComposition { canonical })
    }

    /// The same, borrowed: that has the calls.
    pub fn as_borrowed(&self) -> CanonicalCompositionBorrowed<'_>
        ensures { composition_data result ≡ meaning self.now }
    {
        CanonicalCompositionBorrowed {
            canonical: self.canonical.as_borrowed(),
        }
    }
}

/// What two characters compose to (UAX 15), borrowed. No call takes memory.
#[derive(Clone, Copy, Debug)]
pub struct CanonicalCompositionBorrowed<'a> {
    canonical: CanonicalBorrowed<'a>,
}

impl CanonicalCompositionBorrowed<'_> {
    ghost use Rattle.icu_normalizer_core.specs.PropertyMeanings.{composition_data};

    /// The character that a starter and what follows it compose to, `None` where they don't compose; Hangul too.
    #[inline]
    pub fn compose(self, starter: char, second: char) -> Option<char>
        ensures { result ≡ (composition_data self.entry).pair starter second }
    {
        self.canonical.compose(starter, second)
    }
}

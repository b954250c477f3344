//! Mappings, one step at a time.

ghost use Rattle.std.specs.Prelude.{◌≡◌};
ghost use Rattle.icu_normalizer_core.specs.CanonicalMeaning.{meaning};
ghost use Rattle.icu_normalizer_core.specs.Loading.{CheckedMemoryAside, loaded};
ghost use Rattle.icu_normalizer_core.specs.Properties.{mapped_to};

use crate::canonical::{CanonicalBorrowed, CanonicalData};
use crate::decomposed::Decomposed;
use crate::provider::{DataError, NormalizerProvider, load_canonical_data};
use std::alloc::Global;
use std::marker::Model;

/// The canonical mapping of each character (UAX 15), one step. It is seen as the canonical tables that it reads.
#[derive(Debug, Drop)]
pub struct CanonicalDecomposition<'a> {
    canonical: CanonicalData<'a>,
}

impl<'a> Model for CanonicalDecomposition<'a> {
    ghost use Rattle.icu_normalizer_core.specs.declared.canonical.tables.CanonicalTables.{CanonicalTables};

    ghost Value = { CanonicalTables };

    ghost view = { λ inside. inside.canonical };
}

impl<'a> CanonicalDecomposition<'a> {
    ghost use Rattle.icu_normalizer_core.specs.PropertyMeanings.{decomposition_data};

    /// The mappings that a provider's tables say. The answer is the first refusal, if there is one: of `load_nfd`, of
    /// `load_nfd_tables`, of `load_pairs`, then of `CanonicalData::try_new`.
    pub fn try_new_unstable<P: NormalizerProvider>(
        alloc: Global,
        provider: &'a P,
    ) -> Result<CanonicalDecomposition<'a>, DataError>
        ensures { CheckedMemoryAside result (loaded (P.nfd provider.now) (P.nfd_tables provider.now) (P.pairs provider.now)) }
    {
        let canonical = load_canonical_data(alloc, provider)?;
        Ok(CanonicalDecomposition { canonical })
    }

    /// The same, borrowed: that has the calls.
    pub fn as_borrowed(&self) -> CanonicalDecompositionBorrowed<'_>
        ensures { decomposition_data result ≡ meaning self.now }
    {
        CanonicalDecompositionBorrowed {
            canonical: self.canonical.as_borrowed(),
        }
    }
}

/// The canonical mapping of each character (UAX 15), one step, borrowed. No call takes memory.
#[derive(Clone, Copy, Debug)]
pub struct CanonicalDecompositionBorrowed<'a> {
    canonical: CanonicalBorrowed<'a>,
}

impl CanonicalDecompositionBorrowed<'_> {
    ghost use Rattle.icu_normalizer_core.specs.PropertyMeanings.{decomposition_data};

    /// The canonical mapping of a character, one step; Hangul too.
    #[inline]
    pub fn decompose(&self, c: char) -> Decomposed
        ensures { mapped_to result ≡ (decomposition_data self.now).step c }
    {
        self.canonical.mapping(c)
    }
}

//! Decomposed characters with their classes.

ghost use Rattle.std.specs.Prelude.{◌≡◌, ℕ, ◌*◌, List};
ghost use Rattle.std.specs.Iterator.{at_most, IsFinite, size};
ghost use Rattle.icu_normalizer_core.specs.BorrowedMeaning.{borrowed_meaning};
ghost use Rattle.icu_normalizer_core.specs.Canonical.{decomposed};
ghost use Rattle.icu_normalizer_core.specs.Iter.{Spells};

use super::characters::Decomposition;
use crate::canonical::CanonicalBorrowed;
use std::alloc::{AllocError, Global};
use std::iter::FusedIterator;

/// The decomposed characters of an iterator of characters, in order (NFD, UAX 15), each with its canonical combining
/// class. Memory is taken for long runs of marks alone; where it is refused, that error comes once and nothing after it.
#[derive(Debug, Drop)]
pub struct Classed<'d, I> {
    canonical: CanonicalBorrowed<'d>,
    chars: Decomposition<'d, I>,
}

impl<'d, I: Iterator<Item = char> + Drop> Classed<'d, I> {
    ghost use Rattle.icu_normalizer_core.specs.Classes.{with_classes, ClassesTo, CanClass, classed_size};

    /// The decomposed list of the characters that `chars` gives, with classes, by canonical data.
    #[inline]
    pub(crate) fn new(alloc: Global, canonical: CanonicalBorrowed<'d>, chars: I) -> Classed<'d, I>
        ensures text { (cs : List ℕ) → Spells I.next_gives chars cs → ClassesTo I.next_gives result (with_classes (borrowed_meaning canonical.entry) (decomposed (borrowed_meaning canonical.entry) cs)) }
        ensures ready { I.can_next chars → IsFinite (I.remaining chars) → CanClass I.can_next I.remaining result }
        ensures size { classed_size I.remaining result ≡ 8 * size (I.remaining chars) }
    {
        Classed {
            canonical,
            chars: Decomposition::new(alloc, canonical, chars),
        }
    }
}

impl<I: Iterator<Item = char> + Drop> Iterator for Classed<'_, I> {
    ghost use Rattle.icu_normalizer_core.specs.Classes.{ClassedSteps, CanClass, classed_size};

    type Item = Result<(char, u8), AllocError>;

    ghost can_next = { CanClass I.can_next I.remaining };

    ghost next_gives = { ClassedSteps I.can_next I.next_gives I.remaining };

    ghost remaining = { λ s. at_most (classed_size I.remaining s) };

    #[inline]
    fn next(&mut self) -> Option<Result<(char, u8), AllocError>> {
        match self.chars.next() {
            Some(Ok(c)) => Some(Ok((c, self.canonical.class(c)))),
            Some(Err(error)) => Some(Err(error)),
            None => None,
        }
    }
}

impl<I: Iterator<Item = char> + Drop> FusedIterator for Classed<'_, I> {}

impl<'d> CanonicalBorrowed<'d> {
    ghost use Rattle.icu_normalizer_core.specs.Classes.{with_classes, ClassesTo, CanClass, classed_size};

    /// The decomposed list of the characters that `chars` gives (NFD, UAX 15), each with its canonical combining class.
    #[inline]
    pub fn classed<I: Iterator<Item = char> + Drop>(
        &self,
        alloc: Global,
        chars: I,
    ) -> Classed<'d, I>
        ensures text { (cs : List ℕ) → Spells I.next_gives chars cs → ClassesTo I.next_gives result (with_classes (borrowed_meaning self.now) (decomposed (borrowed_meaning self.now) cs)) }
        ensures ready { I.can_next chars → IsFinite (I.remaining chars) → CanClass I.can_next I.remaining result }
        ensures size { classed_size I.remaining result ≡ 8 * size (I.remaining chars) }
    {
        Classed::new(alloc, *self, chars)
    }
}

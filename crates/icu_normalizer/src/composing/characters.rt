//! The composed characters of an iterator of characters.

ghost use Rattle.std.specs.Prelude.{◌≡◌, ℕ, ◌*◌, List};
ghost use Rattle.std.specs.Iterator.{at_most, IsFinite, size};
ghost use Rattle.icu_normalizer_core.specs.BorrowedMeaning.{borrowed_meaning};
ghost use Rattle.icu_normalizer_core.specs.Canonical.{composed};
ghost use Rattle.icu_normalizer_core.specs.FormData.{form_meaning};
ghost use Rattle.icu_normalizer_core.specs.Iter.{Spells};
ghost use Rattle.icu_normalizer_core.specs.Readable.{IsReadable};
ghost use Rattle.icu_normalizer.specs.Composing.{IsComposable};

use super::composer::Composer;
use icu_normalizer_core::canonical::CanonicalBorrowed;
use icu_normalizer_core::decomposition::{Decomposition, FormData};
use std::alloc::{AllocError, Global};
use std::iter::FusedIterator;

/// The composed characters of an iterator of characters, in order (NFC, UAX 15). Memory is taken for long runs of marks
/// alone; where it is refused, that error comes once and nothing after it.
#[derive(Debug, Drop)]
pub struct Composition<'d, I> {
    chars: Decomposition<'d, I>,
    composer: Composer<'d>,
}

impl<'d, I: Iterator<Item = char> + Drop> Composition<'d, I> {
    ghost use Rattle.icu_normalizer.specs.Compositions.{ComposesTo, CanCompose, composition_size};

    /// The composed list of the characters that `chars` gives, by canonical data.
    #[inline]
    pub fn new(alloc: Global, canonical: CanonicalBorrowed<'d>, chars: I) -> Composition<'d, I>
        ensures text { (cs : List ℕ) → Spells I.next_gives chars cs → ComposesTo I.next_gives result (composed (borrowed_meaning canonical.entry) cs) }
        ensures ready { I.can_next chars → IsFinite (I.remaining chars) → CanCompose I.can_next I.remaining result }
        ensures size { composition_size I.remaining result ≡ 8 * size (I.remaining chars) }
    {
        let basis = FormData::Canonical(canonical);
        basis.keep_promise();
        Self::over(alloc, basis, chars)
    }

    /// The same, by data that are read fast.
    #[inline]
    pub(crate) fn over(alloc: Global, basis: FormData<'d>, chars: I) -> Composition<'d, I>
        requires readable { IsReadable (form_meaning basis) }
        requires composable { IsComposable (form_meaning basis) }
        ensures text { (cs : List ℕ) → Spells I.next_gives chars cs → ComposesTo I.next_gives result (composed (form_meaning basis.entry) cs) }
        ensures ready { I.can_next chars → IsFinite (I.remaining chars) → CanCompose I.can_next I.remaining result }
        ensures size { composition_size I.remaining result ≡ 8 * size (I.remaining chars) }
    {
        Composition {
            chars: Decomposition::over(alloc, basis, chars),
            composer: Composer::new(alloc, basis),
        }
    }
}

impl<I: Iterator<Item = char> + Drop> Iterator for Composition<'_, I> {
    ghost use Rattle.icu_normalizer.specs.Compositions.{CompositionSteps, CanCompose, composition_size};

    type Item = Result<char, AllocError>;

    ghost can_next = { CanCompose I.can_next I.remaining };

    ghost next_gives = { CompositionSteps I.can_next I.next_gives I.remaining };

    ghost remaining = { λ s. at_most (composition_size I.remaining s) };

    #[inline]
    fn next(&mut self) -> Option<Result<char, AllocError>> {
        if let Some(c) = self.composer.pop() {
            return Some(Ok(c));
        }
        while let Some(item) = self.chars.next() {
            let c = match item {
                Ok(c) => c,
                Err(error) => {
                    self.composer.clear();
                    return Some(Err(error));
                }
            };
            match self.composer.push(c) {
                Ok(None) => {}
                Ok(Some(out)) => return Some(Ok(out)),
                Err(error) => {
                    self.chars.stop();
                    self.composer.clear();
                    return Some(Err(error));
                }
            }
        }
        match self.composer.finish() {
            Some(c) => Some(Ok(c)),
            None => None,
        }
    }
}

impl<I: Iterator<Item = char> + Drop> FusedIterator for Composition<'_, I> {}

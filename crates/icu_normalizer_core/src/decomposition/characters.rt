//! The decomposed characters of an iterator of characters (UAX 15).

ghost use Rattle.std.specs.Prelude.{◌≡◌, ℕ, ◌+◌, ◌*◌, ◌<◌, ◌≤◌, List, [], length, true, false, option_to_list, IfOk, OnOk, OnErr};
ghost use Rattle.std.specs.Iterator.{at_most, IsFinite, size};
ghost use Rattle.icu_normalizer_core.specs.BorrowedMeaning.{borrowed_meaning};
ghost use Rattle.icu_normalizer_core.specs.Canonical.{decomposed};
ghost use Rattle.icu_normalizer_core.specs.FormData.{form_meaning};
ghost use Rattle.icu_normalizer_core.specs.Iter.{Spells, KeepsLeft};
ghost use Rattle.icu_normalizer_core.specs.Readable.{IsReadable};
ghost use Rattle.icu_normalizer_core.specs.Run.{pending};

use super::form_data::FormData;
use super::run::Run;
use crate::canonical::CanonicalBorrowed;
use std::alloc::{AllocError, Global};
use std::iter::FusedIterator;

/// The decomposed characters of an iterator of characters, in order (NFD, UAX 15). Memory is taken for long runs of marks
/// alone; where it is refused, that error comes once and nothing after it.
#[derive(Debug, Drop)]
pub struct Decomposition<'d, I> {
    chars: I,
    done: bool,
    run: Run<'d>,
    ghost settled: { done ≡ true → pending run ≡ 0 },
}

impl<'d, I: Iterator<Item = char> + Drop> Decomposition<'d, I> {
    ghost use Rattle.icu_normalizer_core.specs.Decompositions.{DecomposesTo, CanDecompose, IsFinished, canonical_by_run, decomposition_size, pulls_left};

    /// The decomposed list of the characters that `chars` gives, by canonical data.
    #[inline]
    pub fn new(alloc: Global, canonical: CanonicalBorrowed<'d>, chars: I) -> Decomposition<'d, I>
        ensures text { (cs : List ℕ) → Spells I.next_gives chars cs → DecomposesTo I.next_gives result (decomposed (borrowed_meaning canonical.entry) cs) }
        ensures ready { I.can_next chars → IsFinite (I.remaining chars) → CanDecompose I.can_next I.remaining result }
        ensures size { decomposition_size I.remaining result ≡ 8 * size (I.remaining chars) }
    {
        let basis = FormData::Canonical(canonical);
        basis.keep_promise();
        Self::over(alloc, basis, chars)
    }

    /// The same, by data that are read fast.
    #[inline]
    pub fn over(alloc: Global, basis: FormData<'d>, chars: I) -> Decomposition<'d, I>
        requires { IsReadable (form_meaning basis) }
        ensures text { (cs : List ℕ) → Spells I.next_gives chars cs → DecomposesTo I.next_gives result (decomposed (form_meaning basis.entry) cs) }
        ensures ready { I.can_next chars → IsFinite (I.remaining chars) → CanDecompose I.can_next I.remaining result }
        ensures size { decomposition_size I.remaining result ≡ 8 * size (I.remaining chars) }
    {
        Decomposition {
            chars,
            done: false,
            run: Run::new(alloc, basis),
        }
    }

    /// Reads one character, and gives it back at once if nothing can come before it.
    #[inline]
    fn pull(&mut self) -> Result<Option<char>, AllocError>
        requires running { self.old.done ≡ false }
        requires ready { CanDecompose I.can_next I.remaining self.old }
        ensures text { IfOk result (λ out. KeepsLeft (DecomposesTo I.next_gives) self.old (option_to_list out) self.new) }
        ensures ready { OnOk result (CanDecompose I.can_next I.remaining self.new) }
        ensures size { IfOk result (λ out. decomposition_size I.remaining self.new + length (option_to_list out) ≤ decomposition_size I.remaining self.old) }
        ensures nearer { OnOk result (pulls_left I.remaining self.new < pulls_left I.remaining self.old) }
        ensures some { OnErr result (0 < decomposition_size I.remaining self.old) }
        ensures same { canonical_by_run self.new ≡ canonical_by_run self.old }
    {
        let Some(c) = self.chars.next() else {
            self.run.finish()?;
            self.done = true;
            return Ok(None);
        };
        if c < '\u{a0}' && self.run.is_empty() {
            return Ok(Some(c));
        }
        self.run.push_decomposed(c)?;
        Ok(None)
    }

    /// Drops what is left: nothing is to come.
    pub fn stop(&mut self)
        ensures text { DecomposesTo I.next_gives self.new [] }
        ensures finished { IsFinished self.new }
        ensures ready { CanDecompose I.can_next I.remaining self.new }
        ensures size { decomposition_size I.remaining self.new ≡ 0 }
        ensures same { canonical_by_run self.new ≡ canonical_by_run self.old }
    {
        self.run.clear();
        self.done = true;
    }
}

impl<I: Iterator<Item = char> + Drop> Iterator for Decomposition<'_, I> {
    ghost use Rattle.icu_normalizer_core.specs.Decompositions.{DecompositionSteps, CanDecompose, decomposition_size};

    type Item = Result<char, AllocError>;

    ghost can_next = { CanDecompose I.can_next I.remaining };

    ghost next_gives = { DecompositionSteps I.can_next I.next_gives I.remaining };

    ghost remaining = { λ s. at_most (decomposition_size I.remaining s) };

    #[inline]
    fn next(&mut self) -> Option<Result<char, AllocError>> {
        if let Some(c) = self.run.pop() {
            return Some(Ok(c));
        }
        while !self.done {
            match self.pull() {
                Ok(None) => {}
                Ok(Some(c)) => return Some(Ok(c)),
                Err(error) => {
                    self.stop();
                    return Some(Err(error));
                }
            }
            if let Some(c) = self.run.pop() {
                return Some(Ok(c));
            }
        }
        None
    }
}

impl<I: Iterator<Item = char> + Drop> FusedIterator for Decomposition<'_, I> {}

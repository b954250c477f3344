//! Mapped and composed characters.

ghost use Rattle.std.specs.Iterator.{at_most};

use super::mapped_characters::MappedChars;
use crate::composing::Composition;
use std::alloc::AllocError;
use std::iter::FusedIterator;

/// The characters of a source, mapped and then composed (UTS 46). Memory is taken for long runs of marks alone; where it
/// is refused, that error comes once and nothing after it.
#[derive(Debug, Drop)]
pub struct Uts46Iter<'d, I> {
    pub(super) composed: Composition<'d, MappedChars<'d, I>>,
}

impl<I: Iterator<Item = char> + Drop> Iterator for Uts46Iter<'_, I> {
    ghost use Rattle.icu_normalizer.specs.Uts46Texts.{Uts46Steps, CanGive, uts46_size};

    type Item = Result<char, AllocError>;

    ghost can_next = { CanGive I.can_next I.remaining };

    ghost next_gives = { Uts46Steps I.can_next I.next_gives I.remaining };

    ghost remaining = { λ s. at_most (uts46_size I.remaining s) };

    #[inline]
    fn next(&mut self) -> Option<Result<char, AllocError>> {
        self.composed.next()
    }
}

impl<I: Iterator<Item = char> + Drop> FusedIterator for Uts46Iter<'_, I> {}

//! What is to be read of a text: characters that were put before, then those of an iterator.

ghost use Rattle.std.specs.Prelude.{◌∷◌, ◌<◌, ◌≤◌, ℕ, List, [], OnErr, OnOk, OnSome};
ghost use Rattle.std.specs.Iterator.{at_most, IsFinite};
ghost use Rattle.icu_normalizer_core.specs.Iter.{Spells};

use smallvec::SmallVec;
use std::alloc::{AllocError, Global};

/// Characters that were put before an iterator's, the last one first, and the iterator's after them.
#[derive(Debug, Drop)]
pub(super) struct Upcoming<I> {
    first: SmallVec<char, 4>,
    chars: I,
    done: bool,
}

impl<I: Iterator<Item = char> + Drop> Upcoming<I> {
    ghost use Rattle.icu_collator_core.specs.Upcoming.{CanComeUp, HasUnread, PullsFirst, upcoming_size};

    /// The characters of an iterator, with none put before.
    pub(super) fn new(alloc: Global, chars: I) -> Upcoming<I>
        ensures text { (cs : List ℕ) → Spells I.next_gives chars cs → HasUnread I.next_gives result [] cs }
        ensures ready { I.can_next chars → IsFinite (I.remaining chars) → CanComeUp I.can_next I.remaining result }
    {
        Upcoming {
            first: SmallVec::new(alloc),
            chars,
            done: false,
        }
    }

    /// The next character of the iterator, whatever was put before. After `None` the iterator isn't asked again.
    pub(super) fn pull(&mut self) -> Option<char>
        requires ready { CanComeUp I.can_next I.remaining self.old }
        ensures text { PullsFirst I.next_gives self.old result self.new }
        ensures ready { CanComeUp I.can_next I.remaining self.new }
        ensures size { upcoming_size I.remaining self.new ≤ upcoming_size I.remaining self.old }
        ensures fewer { OnSome result (upcoming_size I.remaining self.new < upcoming_size I.remaining self.old) }
    {
        if self.done {
            return None;
        }
        match self.chars.next() {
            Some(c) => Some(c),
            None => {
                self.done = true;
                None
            }
        }
    }

    /// Puts a character before all others. Nothing changes where memory lacks.
    pub(super) fn put_before(&mut self, c: char) -> Result<(), AllocError>
        ensures text { (before rest : List ℕ) → HasUnread I.next_gives self.old before rest → OnOk result (HasUnread I.next_gives self.new (c ∷ before) rest) }
        ensures kept { (before rest : List ℕ) → HasUnread I.next_gives self.old before rest → OnErr result (HasUnread I.next_gives self.new before rest) }
        ensures ready { CanComeUp I.can_next I.remaining self.old → CanComeUp I.can_next I.remaining self.new }
    {
        self.first.push(c)?;
        Ok(())
    }
}

impl<I: Iterator<Item = char> + Drop> Iterator for Upcoming<I> {
    ghost use Rattle.icu_collator_core.specs.Upcoming.{CanComeUp, UpcomingSteps, upcoming_size};

    type Item = char;

    ghost can_next = { CanComeUp I.can_next I.remaining };

    ghost next_gives = { UpcomingSteps I.can_next I.next_gives I.remaining };

    ghost remaining = { λ s. at_most (upcoming_size I.remaining s) };

    #[inline]
    fn next(&mut self) -> Option<char> {
        match self.first.pop() {
            Some(c) => Some(c),
            None => self.pull(),
        }
    }
}

//! The collation elements of a text.

ghost use Rattle.std.specs.Prelude.{◌≡◌, ◌++◌, ◌∷◌, ℕ, List, [], None, Ok, IfOk, MatchOption, OnErr, OnOk};
ghost use Rattle.std.specs.Iterator.{IsFinite};
ghost use Rattle.icu_normalizer_core.specs.Iter.{IsFirstOf, Spells};

use super::reader::Reader;
use super::upcoming::Upcoming;
use crate::checked::CheckedTables;
use icu_collator_types::elements::CollationElement;
use std::alloc::{AllocError, Global};

/// The collation elements of a text (UTS 10): `new`, then what is wanted of `iter_next_before_init` and
/// `prepend_upcoming_before_init`, then `init` once, and `next` as often as wanted.
///
/// The text is the characters that were put before, the last one first, and then those that the iterator still gives. It
/// is decomposed (UAX 15) and read by the tables. No memory is meant to be taken where the decomposed list has at most 64
/// characters, four at most were put before, and no reading has more than 32 elements, unless many marks or digits stand
/// together.
#[derive(Debug, Drop)]
pub struct CollationElements<'t, 'a, I> {
    source: Option<Upcoming<I>>,
    reader: Reader<'t, 'a>,
}

impl<'t, 'a, I: Iterator<Item = char> + Drop> CollationElements<'t, 'a, I> {
    ghost use Rattle.icu_collator_core.specs.ElementTexts.{CanBegin, GivesElement, HasFailed, IsBefore, IsFinished, KeepsTables, elements_to_come, end_element, numbers_of, tables_of, text_elements};

    /// The elements of the characters of an iterator, by these tables. Where a lead byte is given, digits that stand
    /// together are read as a number, whose primaries have this lead byte. No memory is taken.
    pub fn new(
        alloc: Global,
        chars: I,
        checked: &'t CheckedTables<'a>,
        numeric_primary: Option<u8>,
    ) -> CollationElements<'t, 'a, I>
        ensures before { (cs : List ℕ) → Spells I.next_gives chars cs → IsBefore I.next_gives result [] cs }
        ensures ready { I.can_next chars → IsFinite (I.remaining chars) → CanBegin I.can_next I.remaining result }
        ensures tables { tables_of result ≡ checked.now }
        ensures numbers { numbers_of result ≡ numeric_primary }
    {
        CollationElements {
            source: Some(Upcoming::new(alloc, chars)),
            reader: Reader::new(alloc, checked, numeric_primary),
        }
    }

    /// Takes the next character of the iterator, before `init`: it is no more part of the text.
    pub fn iter_next_before_init(&mut self) -> Option<char>
        requires ready { CanBegin I.can_next I.remaining self.old }
        ensures first { (before rest : List ℕ) → IsBefore I.next_gives self.old before rest
            → MatchOption result ((rest ≡ []) × IsBefore I.next_gives self.new before []) (IsFirstOf (λ s cs. IsBefore I.next_gives s before cs) rest self.new) }
        ensures ready { CanBegin I.can_next I.remaining self.new }
        ensures none { HasFailed self.old → result ≡ None }
        ensures stays { HasFailed self.old → HasFailed self.new }
        ensures tables { KeepsTables self.old self.new }
    {
        match &mut self.source {
            Some(source) => source.pull(),
            None => None,
        }
    }

    /// Puts a character before all that is to be read, before `init`. Fails only if memory is refused, and then no element
    /// is to come, whatever is called: `next` gives the element that ends a text, for ever.
    pub fn prepend_upcoming_before_init(&mut self, c: char) -> Result<(), AllocError>
        requires ready { CanBegin I.can_next I.remaining self.old }
        ensures before { (before rest : List ℕ) → IsBefore I.next_gives self.old before rest → OnOk result (IsBefore I.next_gives self.new (c ∷ before) rest) }
        ensures failed { OnErr result (HasFailed self.new) }
        ensures ready { CanBegin I.can_next I.remaining self.new }
        ensures stays { HasFailed self.old → HasFailed self.new }
        ensures tables { KeepsTables self.old self.new }
    {
        let Some(source) = &mut self.source else {
            return Ok(());
        };
        match source.put_before(c) {
            Ok(()) => Ok(()),
            Err(error) => {
                self.source = None;
                self.reader.stop();
                Err(error)
            }
        }
    }

    /// Decomposes the text. Fails only if memory is refused, and then no element is to come: `next` gives the element
    /// that ends a text, for ever. After a refused `prepend_upcoming_before_init` it does nothing.
    pub fn init(&mut self) -> Result<(), AllocError>
        requires ready { CanBegin I.can_next I.remaining self.old }
        ensures elements { (before rest : List ℕ) → IsBefore I.next_gives self.old before rest
            → OnOk result (elements_to_come self.new ≡ text_elements (tables_of self.old) (numbers_of self.old) (before ++ rest)) }
        ensures none { OnErr result (elements_to_come self.new ≡ []) }
        ensures finished { OnErr result (IsFinished self.new) }
        ensures stays { HasFailed self.old → HasFailed self.new }
        ensures tables { KeepsTables self.old self.new }
    {
        let Some(source) = self.source.take() else {
            return Ok(());
        };
        self.reader.begin(source)?;
        Ok(())
    }

    /// The next element, after `init`; after the last, and after refused memory, the element that ends a text,
    /// `CollationElement::default()`, for ever. Fails only if memory is refused.
    #[inline]
    pub fn next(&mut self) -> Result<CollationElement, AllocError>
        ensures first { IfOk result (λ bits. GivesElement (elements_to_come self.old) bits (elements_to_come self.new)) }
        ensures none { OnErr result (elements_to_come self.new ≡ []) }
        ensures finished { OnErr result (IsFinished self.new) }
        ensures last { elements_to_come self.old ≡ [] → OnOk result (IsFinished self.new) }
        ensures ended { IsFinished self.old → result ≡ Ok end_element }
        ensures stays { IsFinished self.old → IsFinished self.new }
        ensures tables { KeepsTables self.old self.new }
    {
        match self.reader.next()? {
            Some(element) => Ok(element),
            None => Ok(CollationElement::default()),
        }
    }
}

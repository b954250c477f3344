//! A text that is being read: its decomposed list, and the elements that are ready.

ghost use Rattle.std.specs.Prelude.{◌≡◌, ◌-◌, ◌<◌, ◌≤◌, ◌∷◌, ℕ, List, [], true, None, Ok, MatchOption, IfOk, IsOk, OnOk, OnErr, is_some};
ghost use Rattle.std.specs.Iterator.{IsFinite};
ghost use lib.Utf8.{scalars};
ghost use Rattle.smallvec.specs.SmallVec.{small_vec_len};
ghost use Rattle.icu_normalizer_core.specs.Canonical.{decomposed};
ghost use Rattle.icu_normalizer_core.specs.Iter.{Spells};
ghost use Rattle.icu_collator_core.specs.Elements.{elements_of_list};
ghost use Rattle.icu_collator_core.specs.Pools.{element_of};
ghost use Rattle.icu_collator_core.specs.ReadSources.{canonical_by, weights_by};

use super::runs::read_run;
use crate::checked::CheckedTables;
use crate::reading::decomposing::decompose_into;
use icu_collator_types::elements::CollationElement;
use smallvec::SmallVec;
use std::alloc::{AllocError, Global};

/// A text that is being read.
#[derive(Debug)]
pub(crate) struct Reader<'t, 'a> {
    checked: &'t CheckedTables<'a>,
    numeric: Option<u8>,
    list: SmallVec<char, 64>,
    index: usize,
    ready: SmallVec<CollationElement, 32>,
    given: usize,
    ghost within: { index ≤ small_vec_len list },
    ghost counted: { given ≤ small_vec_len ready },
    ghost characters: { scalars list.items ≡ true },
}

// (let go of as one, and not part by part, so that what owns one is proved sooner)
impl Drop for Reader<'_, '_> {
    fn drop(self) {
        let Reader {
            checked: _,
            numeric: _,
            list: _,
            index: _,
            ready: _,
            given: _,
        } = self;
    }
}

impl<'t, 'a> Reader<'t, 'a> {
    ghost use Rattle.icu_collator_core.specs.Readers.{HasEnded, ReadsOn, elements_left, numeric_of, source_of};

    /// A text of no characters, to be read by these tables; where a lead byte of numbers is given, digits count.
    pub(crate) fn new(
        alloc: Global,
        checked: &'t CheckedTables<'a>,
        numeric: Option<u8>,
    ) -> Reader<'t, 'a>
        ensures source { source_of result ≡ checked.now }
        ensures numeric { numeric_of result ≡ numeric }
        ensures left { elements_left result ≡ [] }
    {
        Reader {
            checked,
            numeric,
            list: SmallVec::new(alloc),
            index: 0,
            ready: SmallVec::new(alloc),
            given: 0,
        }
    }

    /// Takes the text that an iterator gives in place of what it had, and decomposes it. Fails only if memory is refused,
    /// and then the text has ended.
    pub(crate) fn begin<I: Iterator<Item = char> + Drop>(
        &mut self,
        chars: I,
    ) -> Result<(), AllocError>
        requires can { I.can_next chars }
        requires finite { IsFinite (I.remaining chars) }
        ensures same { ReadsOn self.old self.new }
        ensures left { OnOk result ((cs : List ℕ) → Spells I.next_gives chars cs
            → elements_left self.new ≡ elements_of_list (canonical_by (source_of self.old)) (weights_by (numeric_of self.old) (source_of self.old)) (is_some (numeric_of self.old)) (decomposed (canonical_by (source_of self.old)) cs)) }
        ensures none { OnErr result (elements_left self.new ≡ []) }
        ensures ended { OnErr result (HasEnded self.new) }
    {
        self.given = 0;
        self.ready.clear();
        self.index = 0;
        let canonical = self.checked.canonical();
        decompose_into(canonical, chars, &mut self.list)
    }

    /// Drops what is left.
    pub(crate) fn stop(&mut self)
        ensures same { ReadsOn self.old self.new }
        ensures left { elements_left self.new ≡ [] }
        ensures ended { HasEnded self.new }
    {
        self.given = 0;
        self.ready.clear();
        self.index = self.list.len();
    }

    /// Reads the next characters, where all elements that were ready are given. Fails only if memory is refused.
    fn read(&mut self) -> Result<(), AllocError>
        requires more { self.old.index < small_vec_len self.old.list }
        requires given { self.old.given ≡ small_vec_len self.old.ready }
        ensures same { ReadsOn self.old self.new }
        ensures left { OnOk result (elements_left self.new ≡ elements_left self.old) }
        ensures nearer { OnOk result (small_vec_len self.new.list - self.new.index < small_vec_len self.old.list - self.old.index) }
    {
        self.given = 0;
        self.ready.clear();
        self.index = read_run(
            self.checked,
            self.numeric,
            &mut self.list,
            self.index,
            &mut self.ready,
        )?;
        Ok(())
    }

    /// Reads on until an element is ready, or the text ends. Fails only if memory is refused, and never where it has
    /// ended.
    fn fill(&mut self) -> Result<(), AllocError>
        ensures same { ReadsOn self.old self.new }
        ensures left { OnOk result (elements_left self.new ≡ elements_left self.old) }
        ensures ready { OnOk result (self.new.given ≡ small_vec_len self.new.ready → self.new.index ≡ small_vec_len self.new.list) }
        ensures past { HasEnded self.old → IsOk result }
        ensures stays { HasEnded self.old → HasEnded self.new }
    {
        'reading: while self.given == self.ready.len() && self.index < self.list.len() {
            self.read()?;
        }
        Ok(())
    }

    /// The same; where memory lacks, the text has ended.
    #[cold]
    #[inline(never)]
    fn refill(&mut self) -> Result<(), AllocError>
        ensures same { ReadsOn self.old self.new }
        ensures left { OnOk result (elements_left self.new ≡ elements_left self.old) }
        ensures ready { OnOk result (self.new.given ≡ small_vec_len self.new.ready → self.new.index ≡ small_vec_len self.new.list) }
        ensures none { OnErr result (elements_left self.new ≡ []) }
        ensures ended { OnErr result (HasEnded self.new) }
        ensures past { HasEnded self.old → IsOk result }
        ensures stays { HasEnded self.old → HasEnded self.new }
    {
        if let Err(error) = self.fill() {
            self.stop();
            return Err(error);
        }
        Ok(())
    }

    /// Gives the first element that is ready; `None` where the text has ended.
    #[inline]
    fn give(&mut self) -> Option<CollationElement>
        requires { self.old.given ≡ small_vec_len self.old.ready → self.old.index ≡ small_vec_len self.old.list }
        ensures same { ReadsOn self.old self.new }
        ensures left { MatchOption result ((elements_left self.old ≡ []) × (elements_left self.new ≡ [])) (λ bits. elements_left self.old ≡ element_of bits ∷ elements_left self.new) }
        ensures ended { result ≡ None → HasEnded self.new }
        ensures past { HasEnded self.old → result ≡ None }
    {
        if self.given == self.ready.len() {
            return None;
        }
        let element = self.ready[self.given];
        self.given += 1;
        Some(element)
    }

    /// The next element; `None` where none is left, and then for ever. Fails only if memory is refused, and then the text
    /// has ended.
    #[inline]
    pub(crate) fn next(&mut self) -> Result<Option<CollationElement>, AllocError>
        ensures same { ReadsOn self.old self.new }
        ensures left { IfOk result (λ next. MatchOption next ((elements_left self.old ≡ []) × (elements_left self.new ≡ [])) (λ bits. elements_left self.old ≡ element_of bits ∷ elements_left self.new)) }
        ensures none { OnErr result (elements_left self.new ≡ []) }
        ensures ended { OnErr result (HasEnded self.new) }
        ensures last { result ≡ Ok None → HasEnded self.new }
        ensures past { HasEnded self.old → result ≡ Ok None }
        ensures stays { HasEnded self.old → HasEnded self.new }
    {
        if self.given == self.ready.len() {
            self.refill()?;
        }
        Ok(self.give())
    }
}

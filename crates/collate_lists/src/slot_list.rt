//! A long list of slots that is kept in parts, so that a slot is put in or taken out without moving all that stand
//! after it.

ghost use Rattle.std.specs.Prelude.{◌≡◌, ◌+◌, ◌++◌, ◌<◌, ◌≤◌, ◌↔◌, ◌∷◌, [], All, length, Some, OnOk, OnErr, IsTrue, slice_get, insert, remove};
ghost use Rattle.collate_lists.specs.Lists.{renumbered};
ghost use Rattle.collate_lists.specs.Windows.{shows};

use crate::parts::Parts;
use crate::windows::{FrontedSlot, Window};
use std::alloc::{AllocError, Global};
use std::marker::Model;

/// A list of slots with their fronts, each at its rank: the number of slots before it. A contract sees the list.
#[derive(Drop)]
pub struct SlotList {
    parts: Parts,
}

impl Model for SlotList {
    ghost use Rattle.std.specs.Prelude.{List};
    ghost use Rattle.collate_lists.specs.declared.windows.FrontedSlot.{FrontedSlot};
    ghost use Rattle.collate_lists.specs.Lists.{joined};
    ghost use Rattle.collate_lists.specs.Parts.{IsSound};

    ghost Value = { List FrontedSlot };

    ghost view = { λ inside. joined inside.parts.lists.items };

    ghost invariant = { λ inside. IsSound inside.parts };
}

impl SlotList {
    /// A list with no slots. It asks for no memory.
    pub fn new(alloc: Global) -> SlotList
        ensures { result ≡ [] }
    {
        SlotList {
            parts: Parts::new(alloc),
        }
    }

    /// How many slots there are.
    pub fn len(&self) -> usize
        ensures { result ≡ length self.now }
    {
        self.parts.count
    }

    /// Whether there are none.
    pub fn is_empty(&self) -> bool
        ensures { IsTrue result ↔ (self.now ≡ []) }
    {
        self.parts.count == 0
    }

    /// The slot at a rank, if there are so many.
    pub fn at(&self, rank: usize) -> Option<FrontedSlot>
        ensures { result ≡ slice_get self.now rank }
    {
        if rank < self.parts.count {
            Some(self.parts.at(rank))
        } else {
            None
        }
    }

    /// The part of the list in which a rank is; past the last rank an empty one. Parts are looked through between the
    /// first and the last first, if the rank is there.
    pub fn around(&self, rank: usize, first: usize, last: usize) -> Window<'_>
        ensures shown { shows self.now result.start result.slots.now }
        ensures from { rank < length self.now → result.start ≤ rank }
        ensures before { rank < length self.now → rank < result.start + length result.slots.now }
    {
        if rank < self.parts.count {
            return self.parts.around(rank, first, last);
        }
        Window {
            part: 0,
            start: rank,
            slots: self.parts.spare.as_slice(),
        }
    }

    /// Puts a slot at a rank, before all that stood there and after. Memory that is left over is given back first. An
    /// error if memory is refused, or if the slots are as many as a `usize` counts; the list is then as before.
    pub fn insert(&mut self, rank: usize, value: FrontedSlot) -> Result<(), AllocError>
        requires { rank ≤ length self.old }
        ensures inserted { OnOk result (self.new ≡ insert self.old rank value) }
        ensures unchanged { OnErr result (self.new ≡ self.old) }
    {
        self.parts.shrink();
        self.parts.reserve()?;
        self.parts.insert(rank, value);
        Ok(())
    }

    /// Puts a slot after all others, into a part of its own where the last one is full: so slots that are pushed in order
    /// fill their parts. An error if memory is refused, or if the slots are as many as a `usize` counts; the list is then as
    /// before.
    pub fn push(&mut self, value: FrontedSlot) -> Result<(), AllocError>
        ensures pushed { OnOk result (self.new ≡ self.old ++ value ∷ []) }
        ensures unchanged { OnErr result (self.new ≡ self.old) }
    {
        self.parts.reserve()?;
        self.parts.push(value);
        Ok(())
    }

    /// Takes the slot at a rank out, and answers it. It asks for no memory, and gives some back when a part is empty, or
    /// holds so little that it goes into the one beside it.
    pub fn remove(&mut self, rank: usize) -> FrontedSlot
        requires { rank < length self.old }
        ensures value { slice_get self.old rank ≡ Some result }
        ensures removed { self.new ≡ remove self.old rank }
    {
        self.parts.remove(rank)
    }

    /// Puts in place of each slot the number that stands at it; the fronts stay. It asks for no memory.
    pub fn renumber(&mut self, numbers: &[usize])
        requires { All (λ value. value.slot < length numbers.now) self.old }
        ensures { self.new ≡ renumbered numbers.now self.old }
    {
        self.parts.renumber(numbers);
    }
}

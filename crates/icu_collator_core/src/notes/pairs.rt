//! Notes of two characters that stand together, looked up by few reads.

ghost use Rattle.std.specs.Prelude.{◌≡◌, ◌<◌, All, [], IfOk, IfSome, length};
ghost use Rattle.icu_collator_core.specs.Acceptance.{CollationSource};
ghost use Rattle.icu_collator_core.specs.Pairs.{ArePairNotes, IsPair, IsPairNote, noted_elements};

use icu_collator_types::elements::CollationElement;
use std::alloc::{AllocError, Global};

/// How many slots are looked at for a pair.
const PROBES: usize = 8;

/// Two characters, and what is noted of them where they stand together.
#[derive(Clone, Copy, Debug)]
pub(crate) struct PairNote {
    /// The first character.
    first: char,
    /// The second one.
    second: char,
    /// The elements of both, whatever stands before them.
    elements: [CollationElement; 3],
    /// How many these are, 0 where nothing is noted.
    count: usize,
    /// The class of the second, 256 where a boundary has to follow.
    trail: u16,
}

/// Notes of pairs, at slots that their characters tell.
#[derive(Debug)]
pub(crate) struct PairNotes {
    /// The notes, and between them some of nothing.
    slots: Vec<PairNote>,
    /// How many of them a pair may be looked for at first.
    size: u32,
    /// Whether prefixes are recorded with characters from U+0800 on.
    are_high_prefixed: bool,
}

// (let go of as one, and not part by part, so that what owns one is proved sooner)
impl Drop for PairNotes {
    fn drop(self) {
        let PairNotes {
            slots: _,
            size: _,
            are_high_prefixed: _,
        } = self;
    }
}

impl PairNote {
    /// A note of nothing.
    fn none() -> Self
        ensures { result.count ≡ 0 }
    {
        PairNote {
            first: '\0',
            second: '\0',
            elements: [CollationElement::new(0); 3],
            count: 0,
            trail: 0,
        }
    }

    /// A note of one element to three; `None` for none and for more.
    #[tactic(auto, using(crate::proofs::readings::PairLemmas::one_noted, crate::proofs::readings::PairLemmas::two_noted, crate::proofs::readings::PairLemmas::three_noted))]
    pub(super) fn of(
        first: char,
        second: char,
        elements: &[CollationElement],
        trail: u16,
    ) -> Option<Self>
        ensures first { IfSome result (λ pair. pair.first ≡ first) }
        ensures second { IfSome result (λ pair. pair.second ≡ second) }
        ensures trail { IfSome result (λ pair. pair.trail ≡ trail) }
        ensures elements { IfSome result (λ pair. noted_elements pair ≡ elements.now) }
    {
        let count = elements.len();
        if count == 1 {
            let elements = [elements[0], elements[0], elements[0]];
            return Some(PairNote {
                first,
                second,
                elements,
                count,
                trail,
            });
        }
        if count == 2 {
            let elements = [elements[0], elements[1], elements[1]];
            return Some(PairNote {
                first,
                second,
                elements,
                count,
                trail,
            });
        }
        if count == 3 {
            let elements = [elements[0], elements[1], elements[2]];
            return Some(PairNote {
                first,
                second,
                elements,
                count,
                trail,
            });
        }
        None
    }

    /// The elements of both.
    #[inline(always)]
    pub(crate) fn elements(&self) -> &[CollationElement]
        ensures { result.now ≡ noted_elements self.now }
    {
        &self.elements[..self.count.min(3)]
    }

    /// The class of the second, 256 where a boundary has to follow.
    #[inline(always)]
    pub(crate) fn trail(&self) -> u16
        ensures { result ≡ self.now.trail }
    {
        self.trail
    }
}

/// Where a pair is looked for first, of so many slots.
#[inline(always)]
fn slot_of(first: char, second: char, size: u32) -> usize {
    let mixed = (first as u32)
        .wrapping_mul(0x9E37_79B1)
        .wrapping_add((second as u32).wrapping_mul(0x85EB_CA6B));
    ((mixed as u64).wrapping_mul(size as u64) >> 32) as usize
}

impl PairNotes {
    /// No notes. No memory is taken.
    pub(crate) fn new(alloc: Global) -> Self
        ensures { result.slots.items ≡ [] }
    {
        PairNotes {
            slots: Vec::new(alloc),
            size: 0,
            are_high_prefixed: false,
        }
    }

    /// Whether prefixes are recorded with characters from U+0800 on.
    #[inline(always)]
    pub(crate) fn are_high_prefixed(&self) -> bool {
        self.are_high_prefixed
    }

    /// What is noted of two characters; `None` of others.
    #[inline(always)]
    pub(crate) fn get(&self, first: char, second: char) -> Option<&PairNote>
        ensures { IfSome result (λ pair. (source : CollationSource) → ArePairNotes source self.now
            → IsPair source first second (noted_elements pair.now) pair.now.trail) }
    {
        let slot = slot_of(first, second, self.size);
        for probe in 0..PROBES {
            let pair = self.slots.get(slot.wrapping_add(probe))?;
            if pair.count == 0 {
                return None;
            }
            if pair.first == first && pair.second == second {
                return Some(pair);
            }
        }
        None
    }

    /// So many slots, with a note of nothing in each.
    fn empty_slots(
        alloc: Global,
        none: &PairNote,
        count: usize,
    ) -> Result<Vec<PairNote>, AllocError>
        requires { none.now.count ≡ 0 }
        ensures { IfOk result (λ slots. (source : CollationSource) → All (IsPairNote source) slots.items) }
    {
        let mut slots = Vec::new(alloc);
        for _slot in 0..count {
            slots.push(*none)?;
        }
        Ok(slots)
    }

    /// Notes of pairs, each in a slot of its own; where there is none near the first, the pair isn't noted.
    pub(super) fn placed(
        alloc: Global,
        pairs: &[PairNote],
        are_high_prefixed: bool,
    ) -> Result<Self, AllocError>
        ensures { IfOk result (λ notes. (source : CollationSource) → All (IsPairNote source) pairs.now → ArePairNotes source notes) }
    {
        let size = room_for(pairs.len());
        let count = (size as usize).saturating_add(PROBES);
        let slots = PairNotes::empty_slots(alloc, &PairNote::none(), count)?;
        let mut notes = PairNotes {
            slots,
            size,
            are_high_prefixed,
        };
        for pair in pairs {
            notes.put(*pair);
        }
        Ok(notes)
    }

    /// The first free of the slots of a pair, if one is.
    fn free_slot(&self, first: char, second: char) -> Option<usize>
        ensures { IfSome result (λ at. at < length self.now.slots.items) }
    {
        let slot = slot_of(first, second, self.size);
        for probe in 0..PROBES {
            let at = slot.wrapping_add(probe);
            if at < self.slots.len() && self.slots[at].count == 0 {
                return Some(at);
            }
        }
        None
    }

    /// Puts the note of a pair in the first free of its slots, if one is.
    fn put(&mut self, pair: PairNote)
        ensures { (source : CollationSource) → IsPairNote source pair → ArePairNotes source self.old → ArePairNotes source self.new }
    {
        if let Some(at) = self.free_slot(pair.first, pair.second) {
            self.slots[at] = pair;
        }
    }
}

/// In how many slots so many pairs are looked for: four a pair or more, as far as a million go.
fn room_for(count: usize) -> u32 {
    let mut size = 16u32;
    for _doubling in 0..16 {
        if size as usize >= count.saturating_mul(4) {
            return size;
        }
        size = size.saturating_mul(2);
    }
    size
}

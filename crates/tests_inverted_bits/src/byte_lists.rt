//! Tables as lists of bytes, which can be changed bit by bit.

use icu_packed_vector::{PackedItem, PackedVec, PackedVecError};
use std::alloc::Global;
use std::ops::Range;

/// One of the lists, or of the numbers beside them.
#[derive(Clone, Copy)]
pub enum Part {
    /// The index of the root's trie.
    RootIndex,
    /// The words of characters in the root.
    RootCells,
    /// Elements, and the primaries of ranges.
    RootCes,
    /// Words of expansions and of digits.
    RootCe32s,
    /// Contexts.
    RootContexts,
    /// The index of the tailoring's trie.
    TailoringIndex,
    /// The words of characters in the tailoring.
    TailoringCells,
    /// The tailoring's elements.
    TailoringCes,
    /// The tailoring's words of expansions and of digits.
    TailoringCe32s,
    /// The tailoring's contexts.
    TailoringContexts,
    /// The secondaries of marks.
    Secondaries,
    /// The words of jamo.
    Jamo,
    /// What takes the place of each lead.
    Leads,
    /// The parts of leads that are cut.
    Ranges,
    /// The primary from which on others stay.
    Bound,
    /// The groups and the compressible leads.
    LastPrimaries,
    /// The lead of numbers.
    NumericPrimary,
    /// The metadata.
    Metadata,
    /// The index of the canonical trie.
    CanonicalIndex,
    /// The canonical words.
    CanonicalCells,
    /// Full lists of characters below 10000 (hex).
    Scalars16,
    /// Other full lists.
    Scalars24,
    /// The mappings.
    Steps,
    /// The composed pairs.
    Pairs,
}

/// All of them, in this order.
pub const PARTS: [Part; 24] = [
    Part::RootIndex,
    Part::RootCells,
    Part::RootCes,
    Part::RootCe32s,
    Part::RootContexts,
    Part::TailoringIndex,
    Part::TailoringCells,
    Part::TailoringCes,
    Part::TailoringCe32s,
    Part::TailoringContexts,
    Part::Secondaries,
    Part::Jamo,
    Part::Leads,
    Part::Ranges,
    Part::Bound,
    Part::LastPrimaries,
    Part::NumericPrimary,
    Part::Metadata,
    Part::CanonicalIndex,
    Part::CanonicalCells,
    Part::Scalars16,
    Part::Scalars24,
    Part::Steps,
    Part::Pairs,
];

/// A bit of an item of a list.
#[derive(Clone, Copy)]
pub struct Change {
    /// The list.
    pub part: Part,
    /// The index of the item.
    pub index: usize,
    /// The bit.
    pub bit: usize,
}

/// The bytes of all lists, in the order of the parts; of each item the lowest byte comes first.
#[derive(Drop)]
pub struct Lists {
    lists: Vec<Vec<u8>>,
}

impl Part {
    /// The list's name.
    pub fn name(self) -> &'static str {
        match self {
            Part::RootIndex => "root index",
            Part::RootCells => "root cells",
            Part::RootCes => "root ces",
            Part::RootCe32s => "root ce32s",
            Part::RootContexts => "root contexts",
            Part::TailoringIndex => "tailoring index",
            Part::TailoringCells => "tailoring cells",
            Part::TailoringCes => "tailoring ces",
            Part::TailoringCe32s => "tailoring ce32s",
            Part::TailoringContexts => "tailoring contexts",
            Part::Secondaries => "secondaries",
            Part::Jamo => "jamo",
            Part::Leads => "reordered leads",
            Part::Ranges => "reordered ranges",
            Part::Bound => "reordering bound",
            Part::LastPrimaries => "last primaries",
            Part::NumericPrimary => "numeric primary",
            Part::Metadata => "metadata",
            Part::CanonicalIndex => "canonical index",
            Part::CanonicalCells => "canonical cells",
            Part::Scalars16 => "scalars16",
            Part::Scalars24 => "scalars24",
            Part::Steps => "steps",
            Part::Pairs => "pairs",
        }
    }

    /// The number of bytes of an item.
    fn width(self) -> usize {
        match self {
            Part::Leads | Part::NumericPrimary => 1,
            Part::RootIndex | Part::RootContexts => 2,
            Part::TailoringIndex | Part::TailoringContexts => 2,
            Part::Secondaries | Part::LastPrimaries => 2,
            Part::CanonicalIndex | Part::Scalars16 => 2,
            Part::Scalars24 => 3,
            Part::RootCes | Part::TailoringCes | Part::Pairs => 8,
            _ => 4,
        }
    }

    /// So many lowest bytes of two items that are alike are the same: all, but of a jamo's word the lowest, which has its tag.
    fn compared(self) -> usize {
        match self {
            Part::Jamo => 1,
            _ => self.width(),
        }
    }
}

impl Lists {
    /// Lists without items; `None` where memory is refused.
    pub fn new(alloc: Global) -> Option<Lists> {
        let mut lists = Vec::new(alloc);
        for _part in PARTS {
            lists.push(Vec::new(alloc)).ok()?;
        }
        Some(Lists { lists })
    }

    /// Appends an item to a list; `None` where memory is refused.
    pub fn push<T: PackedItem>(&mut self, part: Part, item: T) -> Option<()> {
        let list = self.lists.get_mut(part as usize)?;
        item.write(list).ok()
    }

    /// The bytes of a list.
    fn bytes(&self, part: Part) -> &[u8] {
        match self.lists.get(part as usize) {
            Some(list) => list.as_slice(),
            None => &[],
        }
    }

    /// The items of a list; refused where bytes mean none.
    pub fn items<T: PackedItem>(&self, part: Part) -> Result<PackedVec<'_, T>, PackedVecError> {
        PackedVec::try_from_bytes(self.bytes(part))
    }

    /// The number of items of a list.
    pub fn count(&self, part: Part) -> usize {
        self.bytes(part)
            .len()
            .checked_div(part.width())
            .unwrap_or(0)
    }

    /// What an item has in common with those that are like it.
    fn form(&self, part: Part, index: usize) -> Option<&[u8]> {
        let start = index.wrapping_mul(part.width());
        self.bytes(part)
            .get(start..start.wrapping_add(part.compared()))
    }

    /// Whether an item is like the one before it.
    fn is_like_previous(&self, part: Part, index: usize) -> bool {
        let Some(previous) = index.checked_sub(1) else {
            return false;
        };
        match (self.form(part, previous), self.form(part, index)) {
            (Some(previous), Some(form)) => previous == form,
            _ => false,
        }
    }

    /// The bits of an item that are to be changed: all, or one in turn if it is like the item before it.
    pub fn bits_of(&self, part: Part, index: usize, is_whole: bool) -> Range<usize> {
        let bits = part.width().wrapping_mul(8);
        if is_whole || !self.is_like_previous(part, index) {
            return 0..bits;
        }
        let bit = index.checked_rem(bits).unwrap_or(0);
        bit..bit.wrapping_add(1)
    }

    /// Changes a bit.
    pub fn flip(&mut self, change: Change) {
        let start = change.index.wrapping_mul(change.part.width());
        if let Some(list) = self.lists.get_mut(change.part as usize) {
            if let Some(byte) = list.get_mut(start.wrapping_add(change.bit / 8)) {
                *byte ^= 1 << (change.bit % 8);
            }
        }
    }
}

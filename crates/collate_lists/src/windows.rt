//! What stands in a list of slots: a slot with the front of what it keeps, and a part of a list that is lent.

use crate::fronts::Front;

/// A slot with the front of what stands there, by which most of what stands at slots can be compared, so that a search
/// need not look there.
#[derive(Clone, Copy)]
pub struct FrontedSlot {
    /// The front.
    pub front: Front,
    /// The slot.
    pub slot: usize,
}

/// A part of a list of slots, lent.
#[derive(Clone, Copy)]
pub struct Window<'a> {
    /// Which part it is.
    pub part: usize,
    /// The rank of its first slot.
    pub start: usize,
    /// Its slots.
    pub slots: &'a [FrontedSlot],
}

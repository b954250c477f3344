//! Where the parts of a line lie, and the slots that are put in order in its stead.

ghost use Rattle.std.specs.Prelude.{◌≡◌, slice_get, slice_index, slice_index_or, slice_range};
ghost use Rattle.collate_lists.specs.Fronts.{IsFrontOf};
ghost use Rattle.collate_keyed_lines.specs.Slots.{line_of, no_bounds, slot_order};

use std::cmp::Ordering;

/// Where the parts of a line lie among the bytes of all: the line, what of it is compared, and the key of that, which begins
/// where what is compared ends.
#[derive(Clone, Copy)]
pub struct Bounds {
    pub line_start: usize,
    pub line_end: usize,
    pub text_start: usize,
    pub key_start: usize,
    pub key_end: usize,
}

/// What is put in order in the stead of a line: the index of its bounds, and the front of its key, by which most lines
/// compare.
#[derive(Clone, Copy)]
pub struct Slot {
    /// The first eight bytes of the key as a number, the first of them counting most; zeros stand for those that it misses.
    pub front: u64,
    pub index: usize,
}

/// The bytes from an index to another, as many as there are.
fn part(bytes: &[u8], start: usize, end: usize) -> &[u8]
    ensures { result.now ≡ slice_range bytes.now start end }
{
    let end = end.min(bytes.len());
    let start = start.min(end);
    &bytes[start..end]
}

/// The bounds of an index, and past the last those of no bytes.
fn bounds_at(bounds: &[Bounds], index: usize) -> Bounds
    ensures { result ≡ slice_index_or bounds.now index no_bounds }
{
    if index < bounds.len() {
        bounds[index]
    } else {
        Bounds {
            line_start: 0,
            line_end: 0,
            text_start: 0,
            key_start: 0,
            key_end: 0,
        }
    }
}

/// The key of a slot's line.
pub fn key_of<'b>(bytes: &'b [u8], bounds: &[Bounds], slot: &Slot) -> &'b [u8]
    ensures { result.now ≡ (line_of bytes.now bounds.now slot.now).key }
{
    let bounds = bounds_at(bounds, slot.index);
    part(bytes, bounds.key_start, bounds.key_end)
}

/// The bytes of a slot's line.
pub fn line_in<'b>(bytes: &'b [u8], bounds: &[Bounds], slot: &Slot) -> &'b [u8]
    ensures { result.now ≡ (line_of bytes.now bounds.now slot.now).line }
{
    let bounds = bounds_at(bounds, slot.index);
    part(bytes, bounds.line_start, bounds.line_end)
}

/// The slot at an index; `None` past the last.
pub fn slot_at(slots: &[Slot], index: usize) -> Option<Slot>
    ensures { result ≡ slice_get slots.now index }
{
    slots.get(index).copied()
}

/// How two slots compare: by their fronts, and where these are the same by the keys.
pub fn compare(bytes: &[u8], bounds: &[Bounds], slot: &Slot, other: &Slot) -> Ordering
    ensures { result ≡ slot_order bytes.now bounds.now slot.now other.now }
{
    match slot.front.cmp(&other.front) {
        Ordering::Equal => key_of(bytes, bounds, slot).cmp(key_of(bytes, bounds, other)),
        ordering => ordering,
    }
}

/// The front of a key.
pub fn front_of(key: &[u8]) -> u64
    ensures { IsFrontOf result key.now }
{
    u64::from_be_bytes([
        byte_at(key, 0),
        byte_at(key, 1),
        byte_at(key, 2),
        byte_at(key, 3),
        byte_at(key, 4),
        byte_at(key, 5),
        byte_at(key, 6),
        byte_at(key, 7),
    ])
}

/// A byte of a list, and zero past its end.
fn byte_at(bytes: &[u8], index: usize) -> u8
    ensures { result ≡ slice_index bytes.now index }
{
    if index < bytes.len() { bytes[index] } else { 0 }
}

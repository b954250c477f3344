//! A list of lines with their keys.

ghost use Rattle.std.specs.Prelude.{◌≡◌, ◌==◌, List, [], ◌∷◌, ◌++◌, length, IfNone, IfOk, IfSome, OnErr, OnOk, map, slice_get, unwrap_or};
ghost use Rattle.std.specs.List.{dedup};
ghost use Rattle.std.specs.Option.{option_copied};
ghost use Rattle.collate_lists.specs.Names.{in_order};
ghost use Rattle.collate_keyed_lines.specs.KeyedLines.{AreInOrder, IsFirstUnordered, KeyedLine, first_of_equals, is_same, key_order, turned};
ghost use Rattle.collate_keyed_lines.specs.Slots.{AreWithin, line_between};

use crate::direction::Direction;
use crate::ordering::{first_unordered, keep_first, sort_slots};
use crate::slots::{Bounds, Slot, front_of, key_of, line_in, slot_at};
use std::alloc::{AllocError, Global};
use std::marker::Model;

/// How much memory a line takes beside its bytes and those of its key: its bounds, its slot, and the slot's index while
/// slots are put in order.
const BYTES_BESIDE: usize = 72;

/// Lines with what of each is compared and its key, in the order in which they were added or put. A contract sees them so.
pub struct KeyedLines {
    /// Of each line its bytes, what of it is compared if that isn't the line, and the key, one line after another.
    bytes: Vec<u8>,
    /// Where the parts of each line lie, in the order in which they were added.
    bounds: Vec<Bounds>,
    /// The lines as they stand.
    slots: Vec<Slot>,
}

// (let go of as one, and not part by part, so that what owns one is proved sooner)
impl Drop for KeyedLines {
    fn drop(self) {
        let KeyedLines {
            bytes: _,
            bounds: _,
            slots: _,
        } = self;
    }
}

impl Model for KeyedLines {
    ghost use Rattle.std.specs.Prelude.{List};
    ghost use Rattle.collate_keyed_lines.specs.KeyedLines.{KeyedLine};

    ghost Value = { List KeyedLine };

    ghost use Rattle.collate_keyed_lines.specs.Slots.{IsKept, lines_inside};

    ghost view = { lines_inside };

    ghost invariant = { IsKept };
}

impl KeyedLines {
    /// A list of no lines. It asks for no memory.
    pub fn new(alloc: Global) -> KeyedLines
        ensures { result ≡ [] }
    {
        KeyedLines {
            bytes: Vec::new(alloc),
            bounds: Vec::new(alloc),
            slots: Vec::new(alloc),
        }
    }

    /// How many lines there are.
    pub fn len(&self) -> usize
        ensures { result ≡ length self.now }
    {
        self.slots.len()
    }

    /// Whether there are none.
    pub fn is_empty(&self) -> bool
        ensures { result ≡ (length self.now == 0) }
    {
        self.slots.len() == 0
    }

    /// Adds a line with its key after the last. What of it is compared is all of it, if nothing is given.
    ///
    /// Errors: `AllocError` where memory is refused; the list is then as before.
    pub fn add(&mut self, line: &[u8], text: Option<&[u8]>, key: &[u8]) -> Result<(), AllocError>
        ensures added { OnOk result (self.new ≡ self.old ++ record { line = line.now; text = unwrap_or (option_copied text.entry) line.now; key = key.now } ∷ []) }
        ensures unchanged { OnErr result (self.new ≡ self.old) }
    {
        self.bounds.reserve(1)?;
        self.slots.reserve(1)?;
        let bounds = append(&mut self.bytes, line, text, key)?;
        let front = front_of(key);
        let index = self.bounds.len();
        self.bounds.push_reserved(bounds);
        self.slots.push_reserved(Slot { front, index });
        Ok(())
    }

    /// Puts the lines in order of their keys, those of one key as they stood. Of more than twenty lines it takes a buffer of
    /// sixteen bytes a line.
    ///
    /// Errors: `AllocError` where memory is refused; the lines then stand as before.
    pub fn sort(&mut self, direction: Direction) -> Result<(), AllocError>
        ensures sorted { OnOk result (self.new ≡ in_order (turned direction key_order) self.old) }
        ensures unchanged { OnErr result (self.new ≡ self.old) }
    {
        let bytes = self.bytes.as_slice();
        let bounds = self.bounds.as_slice();
        sort_slots(bytes, bounds, &mut self.slots, direction)
    }

    /// Puts the lines in order of their keys, and keeps of those with one key the first. It takes memory as `sort` does.
    ///
    /// Errors: `AllocError` where memory is refused; the lines then stand as before.
    pub fn sort_unique(&mut self, direction: Direction) -> Result<(), AllocError>
        ensures sorted { OnOk result (self.new ≡ first_of_equals (turned direction key_order) (in_order (turned direction key_order) self.old)) }
        ensures unchanged { OnErr result (self.new ≡ self.old) }
    {
        self.sort(direction)?;
        self.keep_first();
        Ok(())
    }

    /// Keeps of lines in a row that have one key the first.
    fn keep_first(&mut self)
        ensures { self.new ≡ dedup (is_same key_order) self.old }
    {
        let bytes = self.bytes.as_slice();
        let bounds = self.bounds.as_slice();
        keep_first(bytes, bounds, &mut self.slots);
    }

    /// The index of the first line that may not stand after the one before it: that is below it or, where no two may be
    /// equal, isn't above it. `None` where the lines are in order.
    pub fn first_unordered(&self, direction: Direction, unique: bool) -> Option<usize>
        ensures none { IfNone result (AreInOrder unique (turned direction key_order) self.now (length self.now)) }
        ensures first { IfSome result (IsFirstUnordered unique (turned direction key_order) self.now) }
    {
        let bytes = self.bytes.as_slice();
        let bounds = self.bounds.as_slice();
        first_unordered(bytes, bounds, self.slots.as_slice(), direction, unique)
    }

    /// The line at an index, counted from 0; `None` past the last.
    pub fn get(&self, index: usize) -> Option<&[u8]>
        ensures { option_copied result ≡ slice_get (map (λ (line : KeyedLine). line.line) self.now) index }
    {
        let slot = slot_at(self.slots.as_slice(), index)?;
        Some(line_in(self.bytes.as_slice(), self.bounds.as_slice(), &slot))
    }

    /// The key of the line at an index, counted from 0; `None` past the last.
    pub fn key(&self, index: usize) -> Option<&[u8]>
        ensures { option_copied result ≡ slice_get (map (λ (line : KeyedLine). line.key) self.now) index }
    {
        let slot = slot_at(self.slots.as_slice(), index)?;
        Some(key_of(self.bytes.as_slice(), self.bounds.as_slice(), &slot))
    }

    /// How many bytes of memory the lines fill, and putting them in order takes.
    pub fn held(&self) -> usize {
        let beside = self.bounds.len().saturating_mul(BYTES_BESIDE);
        self.bytes.len().saturating_add(beside)
    }

    /// Lets go of all lines, and keeps the memory for others.
    pub fn clear(&mut self)
        ensures { self.new ≡ [] }
    {
        self.slots.clear();
        self.bounds.clear();
        self.bytes.clear();
    }
}

/// Puts a line, what of it is compared if that is given, and its key after the bytes, and answers where they lie.
///
/// Errors: `AllocError` where memory is refused; the bytes are then as before.
fn append(
    bytes: &mut Vec<u8>,
    line: &[u8],
    text: Option<&[u8]>,
    key: &[u8],
) -> Result<Bounds, AllocError>
    ensures kept { OnOk result (bytes.new.items ≡ bytes.old.items ++ (line.now ++ (unwrap_or (option_copied text.entry) [] ++ key.now))) }
    ensures appended { IfOk result (λ bounds. line_between bytes.new.items bounds ≡ record { line = line.now; text = unwrap_or (option_copied text.entry) line.now; key = key.now }) }
    ensures within { IfOk result (AreWithin bytes.new.items) }
    ensures unchanged { OnErr result (bytes.new.items ≡ bytes.old.items) }
{
    let other = text.unwrap_or(&[]);
    let added = line.len().saturating_add(other.len());
    bytes.reserve(added.saturating_add(key.len()))?;
    let line_start = bytes.len();
    bytes.extend_from_slice(line)?;
    let line_end = bytes.len();
    bytes.extend_from_slice(other)?;
    let key_start = bytes.len();
    bytes.extend_from_slice(key)?;
    let key_end = bytes.len();
    let text_start = if text.is_some() { line_end } else { line_start };
    Ok(Bounds {
        line_start,
        line_end,
        text_start,
        key_start,
        key_end,
    })
}

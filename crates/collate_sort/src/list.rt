//! A list of lines by an order.

ghost use Rattle.std.specs.Prelude.{◌≡◌, ◌==◌, ◌++◌, ◌∷◌, [], IfNone, IfSome, OnErr, OnOk, length, map, slice_get, unwrap_or};
ghost use Rattle.std.specs.Option.{option_copied};
ghost use Rattle.collate_keyed_lines.specs.KeyedLines.{AreInOrder, IsFirstUnordered, first_of_equals};
ghost use Rattle.collate_lists.specs.Names.{in_order};
ghost use Rattle.collate_sort.specs.Keys.{key_by_rule};
ghost use Rattle.collate_sort.specs.Listing.{Listing};
ghost use Rattle.collate_sort.specs.Orders.{Line, line_order};

use crate::order::LineOrder;
use collate_keyed_lines::lines::KeyedLines;
use std::alloc::{AllocError, Global};
use std::marker::Model;

/// Lines by an order, as they were added or put. A line takes the memory of its bytes, of those of its key, of what of it is
/// compared if that isn't all of it, and of 72 bytes besides, sixteen of them only while lines are put in order.
pub struct LineList<'o> {
    order: &'o LineOrder,
    lines: KeyedLines,
    /// The key of the line that is added.
    key: Vec<u8>,
}

// (let go of as one, and not part by part, so that what owns one is proved sooner)
impl<'o> Drop for LineList<'o> {
    fn drop(self) {
        let LineList {
            order: _,
            lines: _,
            key: _,
        } = self;
    }
}

impl<'o> Model for LineList<'o> {
    ghost use Rattle.collate_sort.specs.Listing.{Listing};

    ghost Value = { Listing };

    ghost use Rattle.collate_sort.specs.Lists.{IsKept, listing_of};

    ghost view = { listing_of };

    ghost invariant = { IsKept };
}

impl<'o> LineList<'o> {
    /// A list of no lines. It asks for no memory.
    pub fn new(alloc: Global, order: &'o LineOrder) -> LineList<'o>
        ensures { result ≡ record { rule = order.now; lines = [] } }
    {
        order.keep_rules();
        LineList {
            order,
            lines: KeyedLines::new(alloc),
            key: Vec::new(alloc),
        }
    }

    /// How many lines there are.
    pub fn len(&self) -> usize
        ensures { result ≡ length self.now.lines }
    {
        self.lines.len()
    }

    /// Whether there are none.
    pub fn is_empty(&self) -> bool
        ensures { result ≡ (length self.now.lines == 0) }
    {
        self.lines.is_empty()
    }

    /// Adds a line after the last. Compared is what is given beside it, or all of it.
    ///
    /// Errors: `AllocError` where memory is refused; the list is then as before.
    pub fn add(&mut self, line: &[u8], text: Option<&[u8]>) -> Result<(), AllocError>
        ensures added { OnOk result (self.new ≡ record self.old { lines = self.old.lines ++ record { line = line.now; text = unwrap_or (option_copied text.entry) line.now } ∷ [] }) }
        ensures unchanged { OnErr result (self.new ≡ self.old) }
    {
        self.key.clear();
        self.order.write_key(compared(line, text), &mut self.key)?;
        self.lines.add(line, text, self.key.as_slice())
    }

    /// Puts the lines in order, equal ones as they stood. It is done in place, but for a buffer of sixteen bytes a line where
    /// there are more than twenty.
    ///
    /// Errors: `AllocError` where memory is refused; the lines then stand as before.
    pub fn sort(&mut self) -> Result<(), AllocError>
        ensures sorted { OnOk result (self.new ≡ record self.old { lines = in_order (line_order self.old.rule) self.old.lines }) }
        ensures unchanged { OnErr result (self.new ≡ self.old) }
    {
        self.lines.sort(self.order.direction())
    }

    /// Puts the lines in order, and keeps of equal ones the first. It takes memory as `sort` does.
    ///
    /// Errors: `AllocError` where memory is refused; the lines then stand as before.
    pub fn sort_unique(&mut self) -> Result<(), AllocError>
        ensures sorted { OnOk result (self.new ≡ record self.old { lines = first_of_equals (line_order self.old.rule) (in_order (line_order self.old.rule) self.old.lines) }) }
        ensures unchanged { OnErr result (self.new ≡ self.old) }
    {
        self.lines.sort_unique(self.order.direction())
    }

    /// The index, counted from 0, of the first line that may not stand after the one before it: that is below it or, where
    /// no two may be equal, isn't above it. `None` where the lines are in order.
    pub fn first_unordered(&self, unique: bool) -> Option<usize>
        ensures none { IfNone result (AreInOrder unique (line_order self.now.rule) self.now.lines (length self.now.lines)) }
        ensures first { IfSome result (IsFirstUnordered unique (line_order self.now.rule) self.now.lines) }
    {
        self.lines.first_unordered(self.order.direction(), unique)
    }

    /// The line at an index, counted from 0; `None` past the last.
    pub fn get(&self, index: usize) -> Option<&[u8]>
        ensures { option_copied result ≡ slice_get (map (λ (line : Line). line.line) self.now.lines) index }
    {
        self.lines.get(index)
    }

    /// The sort key of the line at an index, counted from 0: that of what of it is compared; `None` past the last.
    pub fn key(&self, index: usize) -> Option<&[u8]>
        ensures { option_copied result ≡ slice_get (map (λ (line : Line). key_by_rule self.now.rule line.text) self.now.lines) index }
    {
        self.lines.key(index)
    }

    /// How many bytes of memory the lines fill, and putting them in order takes.
    pub fn held(&self) -> usize {
        self.lines.held()
    }

    /// Lets go of all lines, and keeps the memory for others.
    pub fn clear(&mut self)
        ensures { self.new ≡ record self.old { lines = [] } }
    {
        self.lines.clear();
    }
}

/// What of a line is compared: what is given, or all of it.
fn compared<'a>(line: &'a [u8], text: Option<&'a [u8]>) -> &'a [u8]
    ensures { result.now ≡ unwrap_or (option_copied text.entry) line.now }
{
    match text {
        Some(text) => text,
        None => line,
    }
}

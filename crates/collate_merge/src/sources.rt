//! Readers of lines, with the first line that each has left.

ghost use Rattle.std.specs.Prelude.{◌≡◌, ◌+◌, ◌<◌, ℕ, List, Some, IfErr, IfOk, OnOk, length};
ghost use Rattle.collate_merge.specs.Least.{FindsLeast};
ghost use Rattle.collate_merge.specs.Lines.{lines_in};
ghost use Rattle.collate_merge.specs.Merges.{Merge};
ghost use Rattle.collate_merge.specs.Sources.{Advances, HasLeft, HasLine, IsBehind, IsOfReading, source_order};

use crate::compare::is_above;
use crate::errors::MergeError;
use crate::lines::{LineReader, ReadLineError};
use crate::part::LinePart;
use collate_keyed_lines::direction::Direction;
use collate_sort::order::LineOrder;
use std::alloc::Global;
use std::io::BufRead;
use std::mem;

/// A reader of lines, with the first line that it has left.
#[derive(Drop)]
pub struct Source<R> {
    lines: LineReader<R>,
    /// The first line that is left.
    line: Vec<u8>,
    /// The key of what is compared of it.
    key: Vec<u8>,
    /// The key of the line before it.
    previous: Vec<u8>,
    /// How many lines were read.
    count: usize,
    /// Whether no line is left.
    is_done: bool,
}

impl<R> Source<R> {
    /// The first line that is left, and its key.
    pub fn line(&self) -> (&[u8], &[u8])
        ensures line { result.0.now ≡ self.now.line.items }
        ensures key { result.1.now ≡ self.now.key.items }
    {
        (self.line.as_slice(), self.key.as_slice())
    }
}

impl<R: BufRead> Source<R> {
    /// Reads the first line of the reader of an index.
    ///
    /// Errors: `Read`, `Memory` and `TooManyLines` of `MergeError`.
    pub fn open(
        alloc: Global,
        order: &LineOrder,
        part: LinePart,
        index: usize,
        reader: R,
        separator: u8,
    ) -> Result<Source<R>, MergeError>
    where
        R: Drop,
        ensures opened { (m : Merge) (file : List ℕ) → (m.rule ≡ order.now) × (m.part ≡ part) × (m.separator ≡ separator) → R.remaining reader ≡ Some file
            → IfOk result (HasLeft R.remaining m (length (lines_in m.separator file)) (lines_in m.separator file)) }
        ensures fault { IfErr result (IsOfReading index) }
    {
        let mut source = Source {
            lines: LineReader::new(reader, separator),
            line: Vec::new(alloc),
            key: Vec::new(alloc),
            previous: Vec::new(alloc),
            count: 0,
            is_done: false,
        };
        match source.read(order, part, index) {
            Ok(()) => Ok(source),
            Err(error) => Err(error),
        }
    }

    /// Reads the next line, and makes its key.
    fn read(&mut self, order: &LineOrder, part: LinePart, index: usize) -> Result<(), MergeError>
        ensures read { (m : Merge) (all : ℕ) (rest : List ℕ) → (m.rule ≡ order.now) × (m.part ≡ part) → IsBehind R.remaining m all rest self.old
            → OnOk result (HasLeft R.remaining m all (lines_in m.separator rest) self.new) }
        ensures previous { self.new.previous.items ≡ self.old.previous.items }
        ensures fault { IfErr result (IsOfReading index) }
    {
        self.key.clear();
        let more = match self.lines.next(&mut self.line) {
            Ok(more) => more,
            Err(ReadLineError::Memory) => return Err(MergeError::Memory),
            Err(ReadLineError::Read(error)) => return Err(MergeError::Read {
                reader: index,
                error,
            }),
        };
        self.is_done = !more;
        if !more {
            return Ok(());
        }
        self.count = match self.count.checked_add(1) {
            Some(count) => count,
            None => return Err(MergeError::TooManyLines),
        };
        match order.write_key(part.of(self.line.as_slice()), &mut self.key) {
            Ok(()) => Ok(()),
            Err(_) => Err(MergeError::Memory),
        }
    }

    /// Goes on from the first line that is left to the next.
    ///
    /// Errors: as `open`, and `Unordered` where the next is below it.
    pub fn advance(
        &mut self,
        order: &LineOrder,
        part: LinePart,
        index: usize,
    ) -> Result<(), MergeError>
        ensures { (m : Merge) (all : ℕ) (more : List (List ℕ)) → (m.rule ≡ order.now) × (m.part ≡ part) → HasLine R.remaining m all more self.old
            → Advances R.remaining m all self.old.line.items more index result self.new }
    {
        order.keep_rules();
        mem::swap(&mut self.key, &mut self.previous);
        match self.read(order, part, index) {
            Ok(()) => {}
            Err(error) => return Err(error),
        }
        if self.is_done {
            return Ok(());
        }
        if is_above(order.direction(), &self.previous, &self.key) {
            return Err(MergeError::Unordered {
                reader: index,
                line: self.count,
            });
        }
        Ok(())
    }
}

/// The first of those sources that have the least line; `None` where none has a line left.
pub fn least<R>(direction: Direction, sources: &[Source<R>]) -> Option<usize>
    ensures { FindsLeast (λ source. source.is_done) (source_order direction) sources.now (length sources.now) result }
{
    let mut least = None;
    'sources: for index in 0..sources.len() {
        least = lesser(direction, sources, index, least);
    }
    least
}

/// The first of those that have the least line up to an index, if that before it is known.
fn lesser<R>(
    direction: Direction,
    sources: &[Source<R>],
    index: usize,
    least: Option<usize>,
) -> Option<usize>
    requires within { index < length sources.now }
    requires before { FindsLeast (λ source. source.is_done) (source_order direction) sources.now index least }
    ensures { FindsLeast (λ source. source.is_done) (source_order direction) sources.now (index + 1) result }
{
    if sources[index].is_done {
        return least;
    }
    match least {
        None => Some(index),
        Some(other) if is_above(direction, &sources[other].key, &sources[index].key) => Some(index),
        Some(other) => Some(other),
    }
}

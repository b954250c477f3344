//! Readers of lines that are in order, merged.

ghost use Rattle.std.specs.Prelude.{◌≡◌, ℕ, List, Option, None, All, IfErr, IfOk, OnOk};
ghost use Rattle.std.specs.Io.KnownBytes.{Appends};
ghost use Rattle.collate_merge.specs.Merges.{GotFirstPart, HaveLeft, IsOrdered, IsTrueOf, Merge, merge_of, merged_text, ordered_text, parts_of};
ghost use Rattle.collate_merge.specs.Sources.{AreLeft, Goes, HasLine, IsOutput, Merges};

pub use crate::errors::MergeError;
use crate::output::Output;
use crate::part::LinePart;
use crate::sources::{Source, least};
use collate_sort::order::LineOrder;
use std::alloc::Global;
use std::io::{BufRead, Write};

/// Writes the lines of readers, each of which is in order, in order: equal lines in the order of the readers, and then
/// as they stood. Compared is that part of a line, by the order; a line ends at a separator, the last one
/// there or at the end, and each is written with one. With `unique`, of equal lines the first alone is written. At no
/// time it holds more of a reader than a line and two keys. It doesn't flush the writer.
///
/// Errors: `Unordered` where a reader isn't in order, as soon as its line is read; `Read`, `Write` (an interrupted
/// write too) and `Memory` where a read, a write or memory fails. A first part of the lines is then written: of those
/// that stand in order in their readers.
pub fn merge_lines<R, W>(
    alloc: Global,
    order: &LineOrder,
    part: LinePart,
    unique: bool,
    separator: u8,
    readers: Vec<R>,
    writer: &mut W,
) -> Result<(), MergeError>
where
    R: BufRead + Drop,
    W: Write,
    ensures merged { (files : List (List ℕ)) → HaveLeft R.remaining readers.items files
        → OnOk result (Appends (W.contents writer.old) (W.contents writer.new) (merged_text (merge_of order.now part unique separator) files)) }
    ensures ordered { (files : List (List ℕ)) → HaveLeft R.remaining readers.items files
        → OnOk result (All (IsOrdered (merge_of order.now part unique separator)) files) }
    ensures first_part { (files : List (List ℕ)) → HaveLeft R.remaining readers.items files
        → GotFirstPart (W.contents writer.old) (W.contents writer.new) (ordered_text (merge_of order.now part unique separator) files) }
    ensures told { (files : List (List ℕ)) → HaveLeft R.remaining readers.items files
        → IfErr result (IsTrueOf (merge_of order.now part unique separator) files) }
{
    let mut sources = match open_all(alloc, order, part, separator, readers) {
        Ok(sources) => sources,
        Err(error) => return Err(error),
    };
    let mut output = Output::new(alloc, order.direction(), unique, separator);
    merge_sources(order, part, &mut sources, &mut output, writer)
}

/// Reads the first line of each reader.
fn open_all<R: BufRead + Drop>(
    alloc: Global,
    order: &LineOrder,
    part: LinePart,
    separator: u8,
    readers: Vec<R>,
) -> Result<Vec<Source<R>>, MergeError>
    ensures opened { (m : Merge) (files : List (List ℕ)) → (m.rule ≡ order.now) × (m.part ≡ part) × (m.separator ≡ separator) → HaveLeft R.remaining readers.items files
        → IfOk result (λ sources. AreLeft R.remaining m files (parts_of m files) sources.items) }
    ensures told { (m : Merge) (files : List (List ℕ)) → HaveLeft R.remaining readers.items files → IfErr result (IsTrueOf m files) }
{
    let mut sources = Vec::new(alloc);
    for reader in readers {
        let index = sources.len();
        let source = match Source::open(alloc, order, part, index, reader, separator) {
            Ok(source) => source,
            Err(error) => return Err(error),
        };
        match sources.push(source) {
            Ok(()) => {}
            Err(_) => return Err(MergeError::Memory),
        }
    }
    Ok(sources)
}

/// Writes the lines that sources have left, in order.
fn merge_sources<R: BufRead + Drop, W: Write>(
    order: &LineOrder,
    part: LinePart,
    sources: &mut Vec<Source<R>>,
    output: &mut Output,
    writer: &mut W,
) -> Result<(), MergeError>
    ensures { (m : Merge) (files : List (List ℕ)) → (m.rule ≡ order.now) × (m.part ≡ part) → AreLeft R.remaining m files (parts_of m files) sources.old.items
        → IsOutput m None output.old → Merges m files result (W.contents writer.old) (W.contents writer.new) }
{
    order.keep_rules();
    'merge: for _ in 0..u64::MAX {
        let index = match least(order.direction(), sources.as_slice()) {
            Some(index) => index,
            None => return Ok(()),
        };
        match step(order, part, index, &mut sources[index], output, writer) {
            Ok(()) => {}
            Err(error) => return Err(error),
        }
    }
    Err(MergeError::TooManyLines)
}

/// Writes the first line that a source has left, and goes on to the next.
fn step<R: BufRead, W: Write>(
    order: &LineOrder,
    part: LinePart,
    index: usize,
    source: &mut Source<R>,
    output: &mut Output,
    writer: &mut W,
) -> Result<(), MergeError>
    ensures { (m : Merge) (all : ℕ) (more : List (List ℕ)) (last : Option (List ℕ)) → (m.rule ≡ order.now) × (m.part ≡ part)
        → HasLine R.remaining m all more source.old → IsOutput m last output.old
        → Goes R.remaining m all source.old.line.items more last index result source.new output.new (W.contents writer.old) (W.contents writer.new) }
{
    order.keep_rules();
    let (line, key) = source.line();
    match output.put(writer, line, key) {
        Ok(()) => source.advance(order, part, index),
        Err(error) => Err(error),
    }
}

//! What is written: a list, or readers that are merged.

use crate::faults::RunFault;
use crate::output::{WriteFault, write_behind};
use crate::request::Shape;
use collate_merge::merge::{MergeError, merge_lines};
use collate_sort::list::LineList;
use collate_sort::order::LineOrder;
use std::alloc::Global;
use std::io::{self, BufRead, BufWriter, Write};

/// What can be written.
pub trait Content<'w>: Drop {
    /// Writes it to what a path names; `None` is standard output.
    ///
    /// Errors: a write fails, memory is refused, or what is written can't be read on; a first part may then be written.
    fn write_to<W: Write + Drop>(
        self,
        path: Option<&'w str>,
        writer: W,
    ) -> Result<(), RunFault<'w>>;
}

/// The lines of a list as they stand, after a text.
#[derive(Drop)]
pub struct Listed<'l, 'o> {
    pub alloc: Global,
    pub front: &'l [u8],
    pub list: &'l LineList<'o>,
    /// The byte that ends a line.
    pub end: u8,
    /// Whether each line is written after its key.
    pub keys: bool,
}

impl<'w> Content<'w> for Listed<'_, '_> {
    fn write_to<W: Write + Drop>(
        self,
        path: Option<&'w str>,
        mut writer: W,
    ) -> Result<(), RunFault<'w>> {
        match write_behind(
            self.alloc,
            &mut writer,
            self.front,
            self.list,
            self.end,
            self.keys,
        ) {
            Ok(()) => Ok(()),
            Err(WriteFault::Memory) => Err(RunFault::Memory),
            Err(WriteFault::Write(error)) => Err(RunFault::Unwritable(path, error)),
        }
    }
}

/// Readers of lines, each of which is in order, merged.
#[derive(Drop)]
pub struct Merging<'m, 'w, R: BufRead + Drop> {
    pub alloc: Global,
    pub order: &'m LineOrder,
    pub shape: Shape,
    /// Whether of equal lines the first alone is written.
    pub unique: bool,
    pub readers: Vec<R>,
    /// What the readers are called.
    pub paths: Vec<&'w str>,
}

/// What is called so by its index; standard input past the last.
fn path_at<'w>(paths: &[&'w str], index: usize) -> &'w str {
    match paths.get(index) {
        Some(path) => *path,
        None => "-",
    }
}

/// Why a merge ended, by what readers are called and by what is written.
fn merge_fault<'w>(error: MergeError, paths: &[&'w str], path: Option<&'w str>) -> RunFault<'w> {
    match error {
        MergeError::Memory | MergeError::TooManyLines => RunFault::Memory,
        MergeError::Write(error) => write_fault(error, path),
        MergeError::Read { reader, error } => RunFault::Unreadable(path_at(paths, reader), error),
        MergeError::Unordered { reader, line } => {
            RunFault::Unordered(path_at(paths, reader), line)
        }
    }
}

/// Why a write failed, which may be refused memory.
fn write_fault<'w>(error: io::Error, path: Option<&'w str>) -> RunFault<'w> {
    if error.kind() == io::ErrorKind::OutOfMemory {
        RunFault::Memory
    } else {
        RunFault::Unwritable(path, error)
    }
}

/// Merges readers into a writer, and flushes it.
fn merge_flushed<R: BufRead + Drop, W: Write + Drop>(
    alloc: Global,
    order: &LineOrder,
    shape: Shape,
    unique: bool,
    readers: Vec<R>,
    mut writer: W,
) -> Result<(), MergeError> {
    merge_lines(
        alloc,
        order,
        shape.part(),
        unique,
        shape.end,
        readers,
        &mut writer,
    )?;
    match writer.flush() {
        Ok(()) => Ok(()),
        Err(error) => Err(MergeError::Write(error)),
    }
}

impl<'w, R: BufRead + Drop> Content<'w> for Merging<'_, 'w, R> {
    fn write_to<W: Write + Drop>(
        self,
        path: Option<&'w str>,
        writer: W,
    ) -> Result<(), RunFault<'w>> {
        let Merging {
            alloc,
            order,
            shape,
            unique,
            readers,
            paths,
        } = self;
        let gathered = match BufWriter::new(alloc, writer) {
            Ok(gathered) => gathered,
            Err(_) => return Err(RunFault::Memory),
        };
        let merged = merge_flushed(alloc, order, shape, unique, readers, gathered);
        match merged {
            Ok(()) => Ok(()),
            Err(error) => Err(merge_fault(error, &paths, path)),
        }
    }
}

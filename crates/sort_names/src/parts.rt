//! Lists that are read line by line, and past a size are sorted in parts, which are kept in files.

use crate::content::{Content, Listed, Merging};
use crate::faults::RunFault;
use crate::output::sort_list;
use crate::output_files::{Sent, create_beside, write_content};
use crate::progress::Progress;
use crate::request::Request;
use crate::texts::part;
use crate::unnamed::Finder;
use collate_merge::lines::{LineReader, ReadLineError};
use collate_sort::list::LineList;
use collate_sort::order::LineOrder;
use std::fs::{self, File};
use std::io::{self, BufRead, BufReader, Seek, SeekFrom};
use std::mem;
use std::path::PathBuf;

/// How many parts of one level are merged into one of the next, so that no more than these are open at each.
const MOST_OF_LEVEL: usize = 32;
/// How many levels there are at most.
const LEVELS: usize = 64;

/// Lines in order, kept in a file that has no name any more.
#[derive(Drop)]
pub struct Part {
    file: File,
    /// How often its lines were merged.
    level: usize,
}

/// Lists on their way into parts.
#[derive(Drop)]
pub struct Parts<'r, 'o, 'w> {
    rt: &'r HostRuntime,
    request: &'r Request<'w>,
    order: &'o LineOrder,
    folder: &'w str,
    progress: Progress<'r>,
    /// The lines that no part holds yet.
    list: LineList<'o>,
    /// How many lines were read.
    lines: usize,
    finder: Option<Finder<'o>>,
    /// The parts, in the order of their lists.
    parts: Vec<Part>,
}

/// A file without a name in a folder.
fn create_unnamed(rt: &HostRuntime, folder: &str) -> io::Result<File> {
    let mut path = PathBuf::new(rt.alloc());
    path.push(folder)?;
    path.push("part")?;
    let file = create_beside(rt, &mut path, 0o600)?;
    fs::remove_file(rt, path.as_path())?;
    Ok(file)
}

/// Writes content to a new file of a folder.
fn keep<'w, C: Content<'w>>(
    rt: &HostRuntime,
    folder: &'w str,
    content: C,
    level: usize,
) -> Result<Part, RunFault<'w>> {
    match create_unnamed(rt, folder) {
        Ok(file) => match content.write_to(None, &file) {
            Ok(()) => Ok(Part { file, level }),
            Err(RunFault::Unwritable(_, error)) => Err(RunFault::Unkept(folder, error)),
            Err(fault) => Err(fault),
        },
        Err(error) => Err(RunFault::Unkept(folder, error)),
    }
}

impl<'r, 'o, 'w> Parts<'r, 'o, 'w> {
    /// No lists yet. `finder` looks for what the records don't say, if that is wanted.
    pub fn new(
        rt: &'r HostRuntime,
        request: &'r Request<'w>,
        order: &'o LineOrder,
        finder: Option<Finder<'o>>,
    ) -> Parts<'r, 'o, 'w> {
        Parts {
            rt,
            request,
            order,
            folder: request.folder.unwrap_or("/tmp"),
            progress: Progress {
                rt,
                told: request.progress,
            },
            list: LineList::new(rt.alloc(), order),
            lines: 0,
            finder,
            parts: Vec::new(rt.alloc()),
        }
    }

    /// Looks through the lines that no part holds yet, and puts them in order.
    fn sort_rest(&mut self) -> Result<(), RunFault<'w>> {
        self.progress.step("sorting", self.list.len());
        if let Some(finder) = &mut self.finder {
            finder.look(&self.request.shape, &self.list)?;
        }
        sort_list(&mut self.list, self.request.order.unique)?;
        Ok(())
    }

    /// Makes a part of the lines that none holds yet.
    fn keep_rest(&mut self) -> Result<(), RunFault<'w>> {
        self.sort_rest()?;
        let listed = Listed {
            alloc: self.rt.alloc(),
            front: b"",
            list: &self.list,
            end: self.request.shape.end,
            keys: false,
        };
        let part = keep(self.rt, self.folder, listed, 0)?;
        self.list.clear();
        self.parts.push(part)?;
        self.fold()
    }

    /// The level of the last parts, where there are as many of it as are merged.
    fn full_level(&self) -> Option<usize> {
        let level = self.parts.last()?.level;
        let count = self.parts.iter().filter(|part| part.level == level).count();
        (count >= MOST_OF_LEVEL).then_some(level)
    }

    /// Merges the last parts into one while there are as many of one level as that takes.
    fn fold(&mut self) -> Result<(), RunFault<'w>> {
        for _ in 0..LEVELS {
            let Some(level) = self.full_level() else {
                return Ok(());
            };
            let start = self.parts.len().saturating_sub(MOST_OF_LEVEL);
            let last = self.parts.split_off(start)?;
            let part = match self.merging(last) {
                Ok(merging) => keep(self.rt, self.folder, merging, level.saturating_add(1))?,
                Err(fault) => return Err(fault),
            };
            self.parts.push(part)?;
        }
        Ok(())
    }

    /// Parts merged.
    fn merging(&self, parts: Vec<Part>) -> Result<Merging<'o, 'w, BufReader<File>>, RunFault<'w>> {
        let alloc = self.rt.alloc();
        let mut readers = Vec::new(alloc);
        let mut paths = Vec::new(alloc);
        for part in parts {
            let mut file = part.file;
            if let Err(error) = file.seek(SeekFrom::Start(0)) {
                return Err(RunFault::Unkept(self.folder, error));
            }
            match BufReader::new(alloc, file) {
                Ok(reader) => readers.push(reader)?,
                Err(_) => return Err(RunFault::Memory),
            }
            paths.push(self.folder)?;
        }
        Ok(Merging {
            alloc,
            order: self.order,
            shape: self.request.shape,
            unique: self.request.order.unique,
            readers,
            paths,
        })
    }

    /// Takes a line after all others.
    fn add(&mut self, line: &[u8]) -> Result<(), RunFault<'w>> {
        self.list.add(line, part(&self.request.shape, line))?;
        self.lines = self.lines.saturating_add(1);
        self.progress.read(self.lines);
        match self.request.size {
            Some(size) if self.list.held() >= size => self.keep_rest(),
            _ => Ok(()),
        }
    }

    /// Takes the lines of a reader, which is called so, after all others.
    ///
    /// Errors: the reader fails, memory is refused, or a part can't be kept; what was read is of no use then.
    pub fn read<R: BufRead + Drop>(
        &mut self,
        path: &'w str,
        reader: R,
    ) -> Result<(), RunFault<'w>> {
        let mut lines = LineReader::new(reader, self.request.shape.end);
        let mut line = Vec::new(self.rt.alloc());
        for _ in 0..u64::MAX {
            match lines.next(&mut line) {
                Ok(true) => self.add(&line)?,
                Ok(false) => return Ok(()),
                Err(ReadLineError::Memory) => return Err(RunFault::Memory),
                Err(ReadLineError::Read(error)) => return Err(RunFault::Unreadable(path, error)),
            }
        }
        Ok(())
    }

    /// What looked for what the records don't say.
    pub fn finder(&self) -> Option<&Finder<'o>> {
        self.finder.as_ref()
    }

    /// Writes all lines in order to where the request wants them.
    ///
    /// Errors: memory is refused, a part can't be kept or read, or a write fails.
    pub fn write(&mut self) -> Result<Sent, RunFault<'w>> {
        if self.parts.is_empty() {
            self.sort_rest()?;
            self.progress.step("writing", self.lines);
            let listed = Listed {
                alloc: self.rt.alloc(),
                front: b"",
                list: &self.list,
                end: self.request.shape.end,
                keys: self.request.keys,
            };
            return write_content(self.rt, self.request.output, listed);
        }
        if !self.list.is_empty() {
            self.keep_rest()?;
        }
        self.progress.step("writing", self.lines);
        let parts = mem::replace(&mut self.parts, Vec::new(self.rt.alloc()));
        match self.merging(parts) {
            Ok(merging) => write_content(self.rt, self.request.output, merging),
            Err(fault) => Err(fault),
        }
    }
}

//! A run: lists are read, put in order, merged or looked through, and written.

use crate::content::{Listed, Merging};
use crate::csv_lists::add_records;
use crate::faults::RunFault;
use crate::operands::{Operand, add_operands, read_text};
use crate::output::sort_list;
use crate::output_files::{Sent, write_content};
use crate::parts::Parts;
use crate::records_files::order_of;
use crate::request::{Request, Task};
use crate::shown::{Character, Shown};
use crate::unnamed::{Finder, Found};
use collate_sort::list::LineList;
use collate_sort::order::LineOrder;
use std::alloc::AllocError;
use std::fs::{self, File};
use std::io::{self, BufReader, Read, Write};

/// How a run ended that no fault cut short.
#[derive(Clone, Copy, Debug, PartialEq, Eq)]
pub enum Ended {
    /// What was asked for is done, and the lines that were looked through are in order; or nobody reads standard output any
    /// more.
    Well,
    /// A line isn't in order.
    OutOfOrder,
}

/// Says which line is out of order, with its text.
fn tell_disorder(rt: &HostRuntime, request: &Request<'_>, index: usize, line: &[u8]) {
    let path = match request.operands.first() {
        Some(path) => *path,
        None => "-",
    };
    let mut errors = rt.stderr();
    let number = index.saturating_add(1);
    let _ = eprint!(rt; "sort_names: {}:{number}: disorder: ", Shown(path));
    let _ = errors.write_all(line);
    let _ = errors.write_all(b"\n");
}

/// Looks for the first line out of order, and says which it is where that isn't to be silent.
fn check(rt: &HostRuntime, request: &Request<'_>, list: &LineList<'_>, silent: bool) -> Ended {
    let Some(index) = list.first_unordered(request.order.unique) else {
        return Ended::Well;
    };
    if !silent && let Some(line) = list.get(index) {
        tell_disorder(rt, request, index, line);
    }
    Ended::OutOfOrder
}

/// Says what the lists hold that the records don't say.
fn tell_found(rt: &HostRuntime, finder: &Finder<'_>) -> Result<(), AllocError> {
    let found = finder.found(rt.alloc())?;
    if let Some(line) = found.told_characters(rt.alloc())? {
        let _ = eprintln!(rt; "sort_names: {line}");
    }
    if let Some(line) = found.told_cr(rt.alloc())? {
        let _ = eprintln!(rt; "sort_names: {line}");
    }
    Ok(())
}

/// Ends a run whose lines were written: says what they hold that the records don't say, if that is wanted and somebody reads.
fn end<'w>(
    rt: &HostRuntime,
    sent: Sent,
    finder: Option<&Finder<'_>>,
) -> Result<Ended, RunFault<'w>> {
    if let Some(finder) = finder
        && sent == Sent::Whole
    {
        tell_found(rt, finder)?;
    }
    Ok(Ended::Well)
}

/// Lists the characters that the records don't name: code point, how often, in which line first, and the character, with
/// TABs between.
fn list_found<'w>(rt: &HostRuntime, found: &Found) -> Result<Ended, RunFault<'w>> {
    for unnamed in &found.characters {
        let shown = Character(unnamed.character);
        let count = unnamed.count;
        let first = unnamed.first;
        match println!(rt; "{shown}\t{count}\t{first}") {
            Ok(()) => {}
            Err(error) if error.kind() == io::ErrorKind::BrokenPipe => break,
            Err(error) => return Err(RunFault::Unwritable(None, error)),
        }
    }
    Ok(Ended::Well)
}

/// What looks for what the records don't say, if that is wanted.
fn finder_for<'o>(
    rt: &HostRuntime,
    request: &Request<'_>,
    order: &'o LineOrder,
) -> Result<Option<Finder<'o>>, AllocError> {
    if request.quiet {
        Ok(None)
    } else {
        Ok(Some(Finder::new(rt.alloc(), order)?))
    }
}

/// Puts a list in order and writes it, and then says what it holds that the records don't say.
fn sort<'w>(
    rt: &HostRuntime,
    request: &Request<'w>,
    order: &LineOrder,
    list: &mut LineList<'_>,
) -> Result<Ended, RunFault<'w>> {
    let mut finder = finder_for(rt, request, order)?;
    if let Some(finder) = &mut finder {
        finder.look(&request.shape, list)?;
    }
    sort_list(list, request.order.unique)?;
    let listed = Listed {
        alloc: rt.alloc(),
        front: b"",
        list,
        end: request.shape.end,
        keys: request.keys,
    };
    let sent = write_content(rt, request.output, listed)?;
    end(rt, sent, finder.as_ref())
}

/// Sorts the records of CSV files by a column: after the header, which is that of all of them.
fn sort_csv<'w, F: Read + Drop, O: Fn(&str) -> io::Result<F>>(
    rt: &HostRuntime,
    request: &Request<'w>,
    column: &'w str,
    order: &LineOrder,
    opener: &O,
) -> Result<Ended, RunFault<'w>>
    requires { O.IsAlwaysCallable opener.now }
{
    let alloc = rt.alloc();
    let mut finder = finder_for(rt, request, order)?;
    let mut list = LineList::new(alloc, order);
    let mut header = None;
    for path in &request.operands {
        let text = match opener(path) {
            Ok(file) => read_text(alloc, path, file)?,
            Err(error) => return Err(RunFault::Unreadable(path, error)),
        };
        header = match add_records(alloc, path, column, header, &text, &mut finder, &mut list) {
            Ok(header) => header,
            Err(fault) => return Err(fault),
        };
    }
    let front = match &header {
        Some(header) => header.text(alloc)?,
        None => Vec::new(alloc),
    };
    sort_list(&mut list, request.order.unique)?;
    let listed = Listed {
        alloc,
        front: &front,
        list: &list,
        end: request.shape.end,
        keys: false,
    };
    let sent = write_content(rt, request.output, listed)?;
    end(rt, sent, finder.as_ref())
}

/// Sorts lists that are read line by line, in parts past a size.
fn sort_in_parts<'w, F: Read + Drop, O: Fn(&str) -> io::Result<F>>(
    rt: &HostRuntime,
    request: &Request<'w>,
    order: &LineOrder,
    opener: &O,
) -> Result<Ended, RunFault<'w>>
    requires { O.IsAlwaysCallable opener.now }
{
    let finder = finder_for(rt, request, order)?;
    let mut parts = Parts::new(rt, request, order, finder);
    for path in &request.operands {
        let reader = open_reader(rt, path, opener)?;
        parts.read(path, reader)?;
    }
    let sent = parts.write()?;
    end(rt, sent, parts.finder())
}

/// Opens what a path names, to be read in buffers.
fn open_reader<'w, F: Read + Drop, O: Fn(&str) -> io::Result<F>>(
    rt: &HostRuntime,
    path: &'w str,
    opener: &O,
) -> Result<BufReader<F>, RunFault<'w>>
    requires { O.IsAlwaysCallable opener.now }
{
    match opener(path) {
        Ok(file) => match BufReader::new(rt.alloc(), file) {
            Ok(reader) => Ok(reader),
            Err(_) => Err(RunFault::Memory),
        },
        Err(error) => Err(RunFault::Unreadable(path, error)),
    }
}

/// Merges the files of a request, each of which is in order.
fn merge<'w, F: Read + Drop, O: Fn(&str) -> io::Result<F>>(
    rt: &HostRuntime,
    request: &Request<'w>,
    order: &LineOrder,
    opener: &O,
) -> Result<Ended, RunFault<'w>>
    requires { O.IsAlwaysCallable opener.now }
{
    let mut readers = Vec::new(rt.alloc());
    let mut paths = Vec::new(rt.alloc());
    let mut has_input = false;
    for path in &request.operands {
        // what is left of standard input where it is named again is nothing
        if *path == "-" && has_input {
            continue;
        }
        has_input = has_input || *path == "-";
        let reader = open_reader(rt, path, opener)?;
        readers.push(reader)?;
        paths.push(*path)?;
    }
    let merging = Merging {
        alloc: rt.alloc(),
        order,
        shape: request.shape,
        unique: request.order.unique,
        readers,
        paths,
    };
    write_content(rt, request.output, merging)?;
    Ok(Ended::Well)
}

/// Refuses a folder for parts that is none.
fn check_folder<'w>(rt: &HostRuntime, request: &Request<'w>) -> Result<(), RunFault<'w>> {
    let Some(folder) = request.folder else {
        return Ok(());
    };
    match fs::metadata(rt, folder) {
        Ok(found) if found.is_dir() => Ok(()),
        Ok(_) => Err(RunFault::Unkept(folder, io::Error::from(io::ErrorKind::NotADirectory))),
        Err(error) => Err(RunFault::Unkept(folder, error)),
    }
}

/// Runs what is asked for.
///
/// Errors: a file can't be read or written, records are refused, a file that is merged isn't in order, or memory is refused.
/// Nothing is written before all is read, but where files are merged.
pub fn run<'w>(rt: &HostRuntime, request: &Request<'w>) -> Result<Ended, RunFault<'w>> {
    let alloc = rt.alloc();
    check_folder(rt, request)?;
    let order = match order_of(rt, alloc, &request.order) {
        Ok(order) => order,
        Err(fault) => return Err(fault),
    };
    let opener = |path: &str| {
        if path == "-" {
            Ok(Operand::Input(rt.reader()))
        } else {
            match File::open(rt, path) {
                Ok(file) => Ok(Operand::File(file)),
                Err(error) => Err(error),
            }
        }
    };
    if let Some(column) = request.csv {
        return sort_csv(rt, request, column, &order, &opener);
    }
    match request.task {
        Task::Merge => return merge(rt, request, &order, &opener),
        Task::Sort if request.size.is_some() || request.progress => {
            return sort_in_parts(rt, request, &order, &opener);
        }
        _ => {}
    }
    let mut list = LineList::new(alloc, &order);
    add_operands(alloc, &request.operands, &opener, &request.shape, &mut list)?;
    match request.task {
        Task::Check { silent } => Ok(check(rt, request, &list, silent)),
        Task::Unknown => {
            let mut finder = Finder::new(alloc, &order)?;
            finder.look(&request.shape, &list)?;
            list_found(rt, &finder.found(alloc)?)
        }
        Task::Sort | Task::Merge => sort(rt, request, &order, &mut list),
    }
}

//! CSV files as lists: a record is a line as the writer of `csv` writes it, and one of its fields is compared.

use crate::faults::RunFault;
use crate::unnamed::Finder;
use collate_sort::list::LineList;
use csv::{ByteRecord, Error, ErrorKind, ReaderBuilder, WriterBuilder};
use std::alloc::Global;

/// The first record of CSV files, and which of its fields names the column that is compared.
#[derive(Drop)]
pub struct Header {
    record: ByteRecord,
    index: usize,
}

/// Why a record can't be read or written.
fn fault_of<'w>(path: &'w str, error: Error) -> RunFault<'w> {
    match error.into_kind() {
        ErrorKind::Io(error) => RunFault::Unreadable(path, error),
        ErrorKind::UnequalLengths { pos, .. } => {
            let line = match pos {
                Some(index) => index.line(),
                None => 0,
            };
            RunFault::Ragged(path, line)
        }
        _ => RunFault::Memory,
    }
}

/// A record as a line, without its LF.
fn line_of<'w>(alloc: Global, path: &'w str, record: &ByteRecord) -> Result<Vec<u8>, RunFault<'w>> {
    let mut writer = WriterBuilder::new().from_writer(Vec::new(alloc));
    match writer.write_byte_record(record) {
        Ok(()) => {}
        Err(error) => return Err(fault_of(path, error)),
    }
    match writer.into_inner() {
        Ok(mut line) => {
            let _ = line.pop();
            Ok(line)
        }
        Err(error) => Err(fault_of(path, error.into_error())),
    }
}

/// Whether two records have the same fields.
fn is_same(a: &ByteRecord, b: &ByteRecord) -> bool {
    if a.len() != b.len() {
        return false;
    }
    for index in 0..a.len() {
        if a.get(index) != b.get(index) {
            return false;
        }
    }
    true
}

/// Which field of a header has this name; `None` where none has.
fn index_of(record: &ByteRecord, column: &str) -> Option<usize> {
    (0..record.len()).find(|index| record.get(*index) == Some(column.as_bytes()))
}

/// The header that a record is, where it has the column and is like that of the files before.
fn header_of<'w>(
    path: &'w str,
    record: ByteRecord,
    column: &'w str,
    before: Option<Header>,
) -> Result<Header, RunFault<'w>> {
    match before {
        Some(header) => {
            if is_same(&header.record, &record) {
                Ok(header)
            } else {
                Err(RunFault::OtherHeader(path))
            }
        }
        None => match index_of(&record, column) {
            Some(index) => Ok(Header { record, index }),
            None => Err(RunFault::NoColumn(path, column)),
        },
    }
}

impl Header {
    /// The header as it is written: with its LF.
    ///
    /// Errors: memory is refused.
    pub fn text<'w>(&self, alloc: Global) -> Result<Vec<u8>, RunFault<'w>> {
        let mut text = line_of(alloc, "", &self.record)?;
        text.push(b'\n')?;
        Ok(text)
    }
}

/// Adds the records of a CSV text after those of a list, but for the first, which is its header. `before` is the header of the
/// files before; the header is answered, `None` where there is none yet and the text has no record. `finder` looks at what is
/// compared, if that is wanted.
///
/// Errors: a record has another number of fields than the header, which is told by its line; the header isn't that of the files
/// before, or doesn't name the column; or memory is refused.
pub fn add_records<'w>(
    alloc: Global,
    path: &'w str,
    column: &'w str,
    before: Option<Header>,
    text: &[u8],
    finder: &mut Option<Finder<'_>>,
    list: &mut LineList<'_>,
) -> Result<Option<Header>, RunFault<'w>> {
    let mut reader = ReaderBuilder::new()
        .has_headers(false)
        .from_reader(alloc, text);
    let mut first = ByteRecord::new(alloc);
    match reader.read_byte_record(&mut first) {
        Ok(true) => {}
        Ok(false) => return Ok(before),
        Err(error) => return Err(fault_of(path, error)),
    }
    let header = match header_of(path, first, column, before) {
        Ok(header) => header,
        Err(fault) => return Err(fault),
    };
    let mut record = ByteRecord::new(alloc);
    for _ in 0..u64::MAX {
        match reader.read_byte_record(&mut record) {
            Ok(true) => {}
            Ok(false) => break,
            Err(error) => return Err(fault_of(path, error)),
        }
        let line = line_of(alloc, path, &record)?;
        let field = record.get(header.index).unwrap_or(b"");
        if let Some(finder) = finder {
            finder.look_at_text(field)?;
        }
        list.add(&line, Some(field))?;
    }
    Ok(Some(header))
}

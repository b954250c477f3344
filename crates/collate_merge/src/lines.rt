//! Lines of a reader.

ghost use Rattle.std.specs.Prelude.{◌≡◌, IfOk, IfSome, OnErr};
ghost use Rattle.std.specs.Io.KnownBytes.{Consumes};
ghost use Rattle.bstr.specs.Records.{trim_record};
ghost use Rattle.collate_merge.specs.Lines.{ReadsLine, reader_inside, separator_of};

use std::io::{self, BufRead, ErrorKind};
use thiserror::Error;

/// Why no line was read.
#[derive(Debug, Drop, Error)]
pub enum ReadLineError {
    /// Memory for the line was refused.
    #[error("out of memory")]
    Memory,
    /// The reader failed.
    #[error("{0}")]
    Read(io::Error),
}

/// The lines of a reader, one at a time: bytes up to a separator, without it. A last line needs no separator.
#[derive(Drop)]
pub struct LineReader<R> {
    reader: R,
    separator: u8,
}

impl<R> LineReader<R> {
    /// Reads lines from a reader.
    pub fn new(reader: R, separator: u8) -> LineReader<R>
        ensures reader { reader_inside result ≡ reader }
        ensures separator { separator_of result ≡ separator }
    {
        LineReader { reader, separator }
    }
}

impl<R: BufRead> LineReader<R> {
    /// Reads the next line in the place of what `line` holds, and answers whether there was one. An interrupted read is
    /// tried again.
    ///
    /// Errors: `Memory` where memory for the line is refused, `Read` where the reader fails. `line` then holds what was
    /// read of the line, which the next call doesn't give again.
    pub fn next(&mut self, line: &mut Vec<u8>) -> Result<bool, ReadLineError>
        ensures separator { separator_of self.new ≡ separator_of self.old }
        ensures read { IfOk result (λ more. IfSome (R.remaining (reader_inside self.old)) (λ bytes.
            ReadsLine (separator_of self.old) bytes more line.new.items (R.remaining (reader_inside self.new)))) }
        ensures none_lost { OnErr result (Consumes (R.remaining (reader_inside self.old)) (R.remaining (reader_inside self.new)) line.new.items) }
    {
        line.clear();
        match self.reader.read_until(self.separator, line) {
            Ok(0) => Ok(false),
            Ok(_) => {
                trim(line, self.separator);
                Ok(true)
            }
            Err(error) if error.kind() == ErrorKind::OutOfMemory => Err(ReadLineError::Memory),
            Err(error) => Err(ReadLineError::Read(error)),
        }
    }
}

/// Takes the separator off, if the bytes end in it.
fn trim(bytes: &mut Vec<u8>, separator: u8)
    ensures { bytes.new.items ≡ trim_record separator bytes.old.items }
{
    let len = bytes.len();
    if len > 0 && bytes[len - 1] == separator {
        bytes.truncate(len - 1);
    }
}

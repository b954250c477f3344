//! A run: the commands of a reader, each answered to a writer.

ghost use Rattle.std.specs.Prelude.{◌≡◌, ◌+◌, ◌≤◌, ◌↔◌, ◌++◌, ℕ, List, flat_map, false, true, Ok, Err, IfErr, IfOk, IfSome, OnOk, is_err, ◌||◌};
ghost use Rattle.std.specs.Io.KnownBytes.{Consumes};
ghost use Rattle.collate_index.specs.Catalogue.{opened};
ghost use Rattle.collate_run.specs.Reading.{GivesByte, ReadsLine, ReadsRequest, is_read_fault};
ghost use Rattle.collate_run.specs.Replies.{AreFirst, ended};
ghost use Rattle.collate_run.specs.ReplyText.{reply_text};
ghost use Rattle.collate_run.specs.Runs.{Ran, input_limit};
ghost use Rattle.collate_run.specs.Sending.{Sends};
ghost use Rattle.collate_run.specs.Watched.{watched_inner, watched_failed};

use crate::replies::{Reply, answer, records_behind};
use crate::watched::Watched;
use collate_index::FIXED_SEED;
use collate_index::index::Index;
use collate_records::records::Records;
use icu_collator_types::options::{CollatorOptions, CollatorPreferences};
use itoa::Buffer;
use std::alloc::{AllocError, Global};
use std::io::{Read, Write};
use thiserror::Error;

/// The most bytes that a line may have, its LF not counted.
pub(crate) const LINE_LIMIT: usize = 65_536;

/// The most bytes that a run reads.
pub(crate) const INPUT_LIMIT: u64 = 4_294_967_295;

/// Why a run ended before its input did.
#[derive(Clone, Copy, Debug, PartialEq, Eq, Error)]
pub enum RunFault {
    /// Memory was refused: the index can't be opened, or a line can't be held.
    #[error("out of memory")]
    Memory,
    /// A call of the reader failed.
    #[error("a read failed")]
    Read,
    /// A call of the writer failed, or took no byte.
    #[error("a write failed")]
    Write,
    /// A line has more than 65,536 bytes.
    #[error("a line has more than 65,536 bytes")]
    LineTooLong,
    /// The input has more than 4,294,967,295 bytes.
    #[error("the input has more than 4,294,967,295 bytes")]
    InputTooLong,
    /// The input ended before the record lines of a `reload`.
    #[error("the input ends within a reload")]
    CutReload,
}

/// A line that was read, without its LF. The last line of an input may lack the LF.
#[derive(Drop)]
struct Line {
    bytes: Vec<u8>,
    is_ended: bool,
}

/// A line that was read, and the record lines after it.
#[derive(Drop)]
pub(crate) struct Request {
    pub(crate) line: Vec<u8>,
    /// The record lines, an LF after each, but for those past the limit; `None` where memory for them was refused.
    pub(crate) records: Option<Vec<u8>>,
    /// The most bytes that a file of records may have. Once more than that are kept, no line more is.
    limit: usize,
    /// Whether the last of the lines has its LF.
    pub(crate) is_ended: bool,
}

/// Reads one byte; `None` at the end of the input.
fn read_byte<R: Read>(reader: &mut Watched<R>) -> Result<Option<u8>, RunFault>
    ensures bytes { GivesByte
        (R.remaining (watched_inner reader.old)) (R.remaining (watched_inner reader.new)) result }
    ensures failed { watched_failed reader.new ≡ watched_failed reader.old || is_err result }
    ensures fault { IfErr result (λ fault. fault ≡ RunFault.Read) }
{
    let mut byte = [0];
    match reader.read(&mut byte) {
        Ok(0) => Ok(None),
        Ok(_) => Ok(Some(byte[0])),
        Err(_) => Err(RunFault::Read),
    }
}

/// Reads the next line; `None` at the end of the input. `count` is how many bytes have been read.
fn next_line<R: Read>(
    alloc: Global,
    reader: &mut Watched<R>,
    count: &mut u64,
) -> Result<Option<Line>, RunFault>
    requires within { count.old ≤ input_limit }
    ensures bytes { (bytes : List ℕ)
        × Consumes (R.remaining (watched_inner reader.old)) (R.remaining (watched_inner reader.new)) bytes
        × ReadsLine result (R.remaining (watched_inner reader.new)) count.old count.new bytes }
    ensures failed { watched_failed reader.new ≡ watched_failed reader.old || is_read_fault result }
{
    let mut bytes = Vec::new(alloc);
    'bytes: loop {
        let byte = match read_byte(reader) {
            Ok(Some(byte)) => byte,
            Ok(None) if bytes.is_empty() => return Ok(None),
            Ok(None) => {
                return Ok(Some(Line {
                    bytes,
                    is_ended: false,
                }));
            }
            Err(fault) => return Err(fault),
        };
        if *count >= INPUT_LIMIT {
            return Err(RunFault::InputTooLong);
        }
        *count += 1;
        if byte == b'\n' {
            return Ok(Some(Line {
                bytes,
                is_ended: true,
            }));
        }
        if bytes.len() >= LINE_LIMIT {
            return Err(RunFault::LineTooLong);
        }
        if bytes.push(byte).is_err() {
            return Err(RunFault::Memory);
        }
    }
}

/// Writes all bytes, up to the first call that fails, an interrupted one too, or takes no byte.
pub(crate) fn write_whole<W: Write>(writer: &mut Watched<W>, bytes: &[u8]) -> Result<(), RunFault>
    ensures bytes { Sends result
        (W.contents (watched_inner writer.old)) (W.contents (watched_inner writer.new)) bytes.now }
    ensures failed { watched_failed writer.new ≡ watched_failed writer.old || is_err result }
    ensures fault { IfErr result (λ fault. fault ≡ RunFault.Write) }
{
    let mut rest = bytes;
    'writes: while !rest.is_empty() {
        match writer.write(rest) {
            Ok(taken) if taken > 0 => rest = &rest[taken..],
            Ok(_) | Err(_) => return Err(RunFault::Write),
        }
    }
    Ok(())
}

/// Puts a line, ended, after the others, unless they pass the limit, so that the file is refused whatever comes after.
///
/// Errors: `AllocError` where memory is refused.
fn put_line(records: &mut Vec<u8>, line: &[u8], limit: usize) -> Result<(), AllocError>
    ensures { OnOk result ((before : List ℕ) → AreFirst limit records.old.items before
        → AreFirst limit records.new.items (before ++ ended line.now)) }
{
    if records.len() > limit {
        return Ok(());
    }
    records.extend_from_slice(line)?;
    records.push(b'\n')?;
    Ok(())
}

/// Puts a line, ended, after the others, as `put_line` does; gives all of them up where memory is refused.
fn with_line(records: Option<Vec<u8>>, line: &[u8], limit: usize) -> Option<Vec<u8>>
    ensures { (before : List ℕ) → IfSome records (λ kept. AreFirst limit kept.items before)
        → IfSome result (λ kept. AreFirst limit kept.items (before ++ ended line.now)) }
{
    match records {
        Some(mut records) => match put_line(&mut records, line, limit) {
            Ok(()) => Some(records),
            Err(_) => None,
        },
        None => None,
    }
}

/// Reads the next line and the record lines after it; `None` at the end of the input. `limit` is how many bytes a file of
/// records may have, and `count` how many have been read.
pub(crate) fn next_request<R: Read>(
    alloc: Global,
    reader: &mut Watched<R>,
    limit: usize,
    count: &mut u64,
) -> Result<Option<Request>, RunFault>
    requires within { count.old ≤ input_limit }
    ensures bytes { (bytes : List ℕ)
        × Consumes (R.remaining (watched_inner reader.old)) (R.remaining (watched_inner reader.new)) bytes
        × ReadsRequest result (R.remaining (watched_inner reader.new)) count.old count.new bytes }
    ensures limit { IfOk result (λ given. IfSome given (λ request. request.limit ≡ limit)) }
    ensures failed { watched_failed reader.new ≡ watched_failed reader.old || is_read_fault result }
{
    let Line { bytes, is_ended } = match next_line(alloc, reader, count) {
        Ok(Some(line)) => line,
        Ok(None) => return Ok(None),
        Err(fault) => return Err(fault),
    };
    let wanted = records_behind(&bytes);
    let mut request = Request {
        line: bytes,
        records: Some(Vec::new(alloc)),
        limit,
        is_ended,
    };
    for _ in 0..wanted {
        if !request.is_ended {
            return Err(RunFault::CutReload);
        }
        let record = match next_line(alloc, reader, count) {
            Ok(Some(record)) => record,
            Ok(None) => return Err(RunFault::CutReload),
            Err(fault) => return Err(fault),
        };
        request.records = with_line(request.records, &record.bytes, request.limit);
        request.is_ended = record.is_ended;
    }
    Ok(Some(request))
}

/// Writes the parts of a text, one after another, up to the first call that fails or takes no byte.
fn write_parts<W: Write>(writer: &mut Watched<W>, parts: &[&[u8]]) -> Result<(), RunFault>
    ensures bytes { Sends result
        (W.contents (watched_inner writer.old)) (W.contents (watched_inner writer.new)) (flat_map (λ part. part.now) parts.now) }
    ensures failed { watched_failed writer.new ≡ watched_failed writer.old || is_err result }
    ensures fault { IfErr result (λ fault. fault ≡ RunFault.Write) }
{
    for part in parts {
        match write_whole(writer, part) {
            Ok(()) => {}
            Err(fault) => return Err(fault),
        }
    }
    Ok(())
}

/// Writes a reply, with the LF of each of its lines. It takes no memory.
pub(crate) fn write_reply<W: Write>(writer: &mut Watched<W>, reply: &Reply) -> Result<(), RunFault>
    ensures bytes { Sends result
        (W.contents (watched_inner writer.old)) (W.contents (watched_inner writer.new)) (reply_text reply.now) }
    ensures failed { watched_failed writer.new ≡ watched_failed writer.old || is_err result }
    ensures fault { IfErr result (λ fault. fault ≡ RunFault.Write) }
{
    let mut buffer = Buffer::new();
    match reply {
        Reply::Added => write_whole(writer, b"added\n"),
        Reply::Duplicate => write_whole(writer, b"duplicate\n"),
        Reply::Removed => write_whole(writer, b"removed\n"),
        Reply::Absent => write_whole(writer, b"absent\n"),
        Reply::Lines(text) => write_whole(writer, text),
        Reply::Reloaded(made) => {
            let made = buffer.format(*made).as_bytes();
            write_parts(writer, &[b"reloaded ", made, b"\n"])
        }
        Reply::Refused(fault) => {
            let line = buffer.format(fault.line).as_bytes();
            let rule = fault.rule.as_str().as_bytes();
            write_parts(writer, &[b"refused ", line, b" ", rule, b"\n"])
        }
        Reply::Bad => write_whole(writer, b"bad\n"),
        Reply::Memory => write_whole(writer, b"memory\n"),
    }
}

/// Answers each command of the reader from the index, which commands change.
fn answer_requests<R: Read, W: Write>(
    alloc: Global,
    index: &mut Index,
    reader: &mut Watched<R>,
    writer: &mut Watched<W>,
) -> Result<(), RunFault>
    requires reader { watched_failed reader.old ≡ false }
    requires writer { watched_failed writer.old ≡ false }
    ensures ran { Ran index.old result
        (R.remaining (watched_inner reader.old)) (R.remaining (watched_inner reader.new))
        (W.contents (watched_inner writer.old)) (W.contents (watched_inner writer.new)) }
    ensures read { (watched_failed reader.new ≡ true) ↔ (result ≡ Err RunFault.Read) }
    ensures write { (watched_failed writer.new ≡ true) ↔ (result ≡ Err RunFault.Write) }
{
    let mut count = 0;
    'requests: loop {
        let limit = index.limits().bytes;
        let asked = match next_request(alloc, reader, limit, &mut count) {
            Ok(Some(asked)) => asked,
            Ok(None) => return Ok(()),
            Err(fault) => return Err(fault),
        };
        let reply = answer(alloc, index, &asked.line, asked.records.as_deref());
        match write_reply(writer, &reply) {
            Ok(()) => {}
            Err(fault) => return Err(fault),
        }
        if !asked.is_ended {
            return Ok(());
        }
    }
}

/// Opens an index over records and answers each command of the reader to the writer, one reply a command, until the input
/// ends (README.md, "The program").
///
/// A line is `add NAME`, `remove NAME`, `find NAME`, `between FIRST<TAB>LAST`, `key NAME`, `list` or `reload K`, of at most
/// 65,536 bytes. After `reload K` stand K lines of the same length, the new file of records; with its line they are one
/// command. Any other line is answered `bad`, and a command that was refused memory `memory`. A fault ends the run: the
/// replies to all whole commands before it have been written, and at `RunFault::Write` a first part of them. An interrupted
/// call of the reader or writer is a fault like any other.
pub fn run<R: Read, W: Write>(
    alloc: Global,
    records: Records,
    preferences: &CollatorPreferences<'_>,
    options: &CollatorOptions,
    reader: &mut Watched<R>,
    writer: &mut Watched<W>,
) -> Result<(), RunFault>
    requires reader { watched_failed reader.old ≡ false }
    requires writer { watched_failed writer.old ≡ false }

    // What it wrote is the replies to the lines that it read, reloads included.
    ensures ran { Ran (opened records preferences.now options.now) result
        (R.remaining (watched_inner reader.old)) (R.remaining (watched_inner reader.new))
        (W.contents (watched_inner writer.old)) (W.contents (watched_inner writer.new)) }

    // `Read` and `Write` are answered exactly if a call of the reader or writer failed.
    ensures read { (watched_failed reader.new ≡ true) ↔ (result ≡ Err RunFault.Read) }
    ensures write { (watched_failed writer.new ≡ true) ↔ (result ≡ Err RunFault.Write) }
{
    run_with_seed(
        alloc,
        records,
        preferences,
        options,
        FIXED_SEED,
        reader,
        writer,
    )
}

/// A run as `run` does it, by an index whose names are looked up by hashes under this seed, which no reply shows
/// (`Index::with_seed`).
pub fn run_with_seed<R: Read, W: Write>(
    alloc: Global,
    records: Records,
    preferences: &CollatorPreferences<'_>,
    options: &CollatorOptions,
    seed: u64,
    reader: &mut Watched<R>,
    writer: &mut Watched<W>,
) -> Result<(), RunFault>
    requires reader { watched_failed reader.old ≡ false }
    requires writer { watched_failed writer.old ≡ false }
    ensures ran { Ran (opened records preferences.now options.now) result
        (R.remaining (watched_inner reader.old)) (R.remaining (watched_inner reader.new))
        (W.contents (watched_inner writer.old)) (W.contents (watched_inner writer.new)) }
    ensures read { (watched_failed reader.new ≡ true) ↔ (result ≡ Err RunFault.Read) }
    ensures write { (watched_failed writer.new ≡ true) ↔ (result ≡ Err RunFault.Write) }
{
    match Index::with_seed(alloc, records, preferences, options, seed) {
        Ok(mut index) => answer_requests(alloc, &mut index, reader, writer),
        Err(_) => Err(RunFault::Memory),
    }
}

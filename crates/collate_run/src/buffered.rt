//! A run whose lines are taken from the reader's buffer, and whose replies are sent together where no whole line is ready.

ghost use Rattle.std.specs.Prelude.{◌≡◌, ◌≢◌, ◌==◌, ◌++◌, ◌<◌, if◌then◌else◌, ◌≤◌, ◌↔◌, ◌||◌, ℕ, [], List, length, take, false, true, Err, IfErr, IfSome, OnOk, is_err, position};
ghost use Rattle.std.specs.Io.KnownBytes.{Keeps};
ghost use Rattle.collate_index.specs.Catalogue.{opened};
ghost use Rattle.collate_run.specs.Buffered.{AnswersLines, Gathers, IsReadyLine, TakesReady, is_write_fault};
ghost use Rattle.collate_run.specs.Reading.{is_read_fault};
ghost use Rattle.collate_run.specs.Replies.{Answers};
ghost use Rattle.collate_run.specs.ReplyText.{reply_text};
ghost use Rattle.collate_run.specs.Runs.{Ran, input_limit};
ghost use Rattle.collate_run.specs.Sending.{Sends};
ghost use Rattle.collate_run.specs.Served.{ServesWithin};
ghost use Rattle.collate_run.specs.Watched.{watched_inner, watched_failed, watched_flushed};

use crate::replies::{Reply, answer, records_behind};
use crate::run::{INPUT_LIMIT, LINE_LIMIT, RunFault, next_request, write_reply, write_whole};
use crate::serve::{FileFault, open_file, status_of};
use crate::setup::Setup;
use crate::watched::Watched;
use collate_choice::Choice;
use collate_index::FIXED_SEED;
use collate_index::index::Index;
use collate_records::records::Records;
use icu_collator_types::options::{CollatorOptions, CollatorPreferences};
use std::alloc::Global;
use std::io::{BufRead, Write};

/// How many bytes of replies wait at most.
const REPLY_ROOM: usize = 65_536;

/// Sends the replies that wait.
fn send<W: Write>(writer: &mut Watched<W>, waiting: &mut Vec<u8>) -> Result<(), RunFault>
    ensures bytes { Sends result
        (W.contents (watched_inner writer.old)) (W.contents (watched_inner writer.new)) waiting.old.items }
    ensures none { OnOk result (waiting.new.items ≡ []) }
    ensures failed { watched_failed writer.new ≡ watched_failed writer.old || is_err result }
    ensures fault { IfErr result (λ fault. fault ≡ RunFault.Write) }
{
    match write_whole(writer, waiting) {
        Ok(()) => {
            waiting.clear();
            Ok(())
        }
        Err(fault) => Err(fault),
    }
}

/// Asks the writer to hold nothing back.
fn flush<W: Write>(writer: &mut Watched<W>) -> Result<(), RunFault>
    ensures bytes { Keeps (W.contents (watched_inner writer.old)) (W.contents (watched_inner writer.new)) }
    ensures failed { watched_failed writer.new ≡ watched_failed writer.old || is_err result }
    ensures flushed { OnOk result (watched_flushed writer.new ≡ true) }
    ensures fault { IfErr result (λ fault. fault ≡ RunFault.Write) }
{
    match writer.flush() {
        Ok(()) => Ok(()),
        Err(_) => Err(RunFault::Write),
    }
}

/// Sends the replies that wait, so that whoever reads them has them.
fn show<W: Write>(writer: &mut Watched<W>, waiting: &mut Vec<u8>) -> Result<(), RunFault>
    ensures bytes { Sends result
        (W.contents (watched_inner writer.old)) (W.contents (watched_inner writer.new)) waiting.old.items }
    ensures none { OnOk result (waiting.new.items ≡ []) }
    ensures failed { watched_failed writer.new ≡ watched_failed writer.old || is_err result }
    ensures flushed { OnOk result (watched_flushed writer.new ≡ true) }
    ensures fault { IfErr result (λ fault. fault ≡ RunFault.Write) }
{
    match send(writer, waiting) {
        Ok(()) => flush(writer),
        Err(fault) => Err(fault),
    }
}

/// Writes a reply, so that whoever reads it has it. It takes no memory.
fn show_reply<W: Write>(writer: &mut Watched<W>, reply: &Reply) -> Result<(), RunFault>
    ensures bytes { Sends result
        (W.contents (watched_inner writer.old)) (W.contents (watched_inner writer.new)) (reply_text reply.now) }
    ensures failed { watched_failed writer.new ≡ watched_failed writer.old || is_err result }
    ensures flushed { OnOk result (watched_flushed writer.new ≡ true) }
    ensures fault { IfErr result (λ fault. fault ≡ RunFault.Write) }
{
    match write_reply(writer, reply) {
        Ok(()) => flush(writer),
        Err(fault) => Err(fault),
    }
}

/// Lets bytes wait where the room holds them after those that wait, and tells whether it does. It takes no memory.
fn waits(waiting: &mut Vec<u8>, bytes: &[u8]) -> bool
    ensures { waiting.new.items ≡ (if result then waiting.old.items ++ bytes.now else waiting.old.items) }
{
    if bytes.len() > REPLY_ROOM.saturating_sub(waiting.len()) {
        return false;
    }
    waiting.extend_from_slice(bytes).is_ok()
}

/// Puts bytes after those that wait; where the room doesn't hold both, all are sent.
fn put<W: Write>(
    writer: &mut Watched<W>,
    waiting: &mut Vec<u8>,
    bytes: &[u8],
) -> Result<(), RunFault>
    ensures bytes { Gathers result
        (W.contents (watched_inner writer.old)) (W.contents (watched_inner writer.new)) waiting.old.items waiting.new.items bytes.now }
    ensures failed { watched_failed writer.new ≡ watched_failed writer.old || is_err result }
    ensures fault { IfErr result (λ fault. fault ≡ RunFault.Write) }
{
    if waits(waiting, bytes) {
        return Ok(());
    }
    match send(writer, waiting) {
        Ok(()) => write_whole(writer, bytes),
        Err(fault) => Err(fault),
    }
}

/// The bytes of a reply that has them at hand: all but those to a reload.
fn text_of(reply: &Reply) -> Option<&[u8]>
    ensures { IfSome result (λ text. text.now ≡ reply_text reply.now) }
{
    match reply {
        Reply::Added => Some(b"added\n"),
        Reply::Duplicate => Some(b"duplicate\n"),
        Reply::Removed => Some(b"removed\n"),
        Reply::Absent => Some(b"absent\n"),
        Reply::Lines(text) => Some(text.as_slice()),
        Reply::Reloaded(_) | Reply::Refused(_) => None,
        Reply::Bad => Some(b"bad\n"),
        Reply::Memory => Some(b"memory\n"),
    }
}

/// Puts a reply after those that wait, with the LF of each of its lines. It takes no memory.
fn put_reply<W: Write>(
    writer: &mut Watched<W>,
    waiting: &mut Vec<u8>,
    reply: &Reply,
) -> Result<(), RunFault>
    ensures bytes { Gathers result
        (W.contents (watched_inner writer.old)) (W.contents (watched_inner writer.new)) waiting.old.items waiting.new.items (reply_text reply.now) }
    ensures failed { watched_failed writer.new ≡ watched_failed writer.old || is_err result }
    ensures fault { IfErr result (λ fault. fault ≡ RunFault.Write) }
{
    match text_of(reply) {
        Some(text) => put(writer, waiting, text),
        None => match send(writer, waiting) {
            Ok(()) => write_reply(writer, reply),
            Err(fault) => Err(fault),
        },
    }
}

/// The index of the first LF.
fn first_end(bytes: &[u8]) -> Option<usize>
    ensures index { result ≡ position (λ byte. byte == 10) bytes.now }
    ensures bound { IfSome result (λ index. index < length bytes.now) }
{
    bytes.iter().position(|byte| *byte == b'\n')
}

/// The line at the front of these bytes, without its LF, if it is whole, within the limit, and no record line stands after it.
fn ready_line(bytes: &[u8]) -> Option<&[u8]>
    ensures { IfSome result (λ line. IsReadyLine line.now bytes.now) }
{
    let line = match first_end(bytes) {
        Some(end) => &bytes[..end],
        None => return None,
    };
    if line.len() > LINE_LIMIT {
        return None;
    }
    if records_behind(line) > 0 {
        return None;
    }
    Some(line)
}

/// Answers a line with no record line after it.
fn answer_alone(alloc: Global, index: &mut Index, line: &[u8]) -> Reply
    ensures { Answers line.now [] index.old index.new (reply_text result) }
{
    answer(alloc, index, line, Some(b""))
}

/// Answers the lines at the front of these bytes, as far as they are ready (`ready_line`), and lets the replies wait. Gives how
/// many bytes they take.
fn answer_lines<W: Write>(
    alloc: Global,
    index: &mut Index,
    bytes: &[u8],
    writer: &mut Watched<W>,
    waiting: &mut Vec<u8>,
) -> (usize, Result<(), RunFault>)
    ensures bound { result.0 ≤ length bytes.now }
    ensures answered { (text : List ℕ) × AnswersLines index.old index.new (take result.0 bytes.now) text
        × Gathers result.1
        (W.contents (watched_inner writer.old)) (W.contents (watched_inner writer.new)) waiting.old.items waiting.new.items text }
    ensures failed { watched_failed writer.new ≡ watched_failed writer.old || is_err result.1 }
    ensures fault { IfErr result.1 (λ fault. fault ≡ RunFault.Write) }
{
    let mut taken = 0;
    'lines: while let Some(line) = ready_line(&bytes[taken..]) {
        let reply = answer_alone(alloc, index, line);
        taken += line.len() + 1;
        match put_reply(writer, waiting, &reply) {
            Ok(()) => {}
            Err(fault) => return (taken, Err(fault)),
        }
    }
    (taken, Ok(()))
}

/// Answers the lines that the reader has ready in its buffer, which it fills where it is empty, and shows their replies. `count` is
/// how many bytes have been read.
fn answer_ready<R: BufRead, W: Write>(
    alloc: Global,
    index: &mut Index,
    reader: &mut Watched<R>,
    writer: &mut Watched<W>,
    waiting: &mut Vec<u8>,
    count: &mut u64,
) -> Result<(), RunFault>
    requires within { count.old ≤ input_limit }
    requires none { waiting.old.items ≡ [] }
    ensures answered { TakesReady result index.old index.new
        (R.remaining (watched_inner reader.old)) (R.remaining (watched_inner reader.new))
        (W.contents (watched_inner writer.old)) (W.contents (watched_inner writer.new)) count.old count.new }
    ensures none { OnOk result (waiting.new.items ≡ []) }
    ensures reader { watched_failed reader.new ≡ watched_failed reader.old || is_read_fault result }
    ensures writer { watched_failed writer.new ≡ watched_failed writer.old || is_write_fault result }
    ensures flushed { result ≢ Err RunFault.Write → watched_flushed writer.old ≡ true → watched_flushed writer.new ≡ true }
{
    let ready = match reader.inner.fill_buf() {
        Ok(ready) => ready,
        Err(_) => {
            reader.failed = true;
            return Err(RunFault::Read);
        }
    };
    let most = at_most(ready.len(), INPUT_LIMIT - *count);
    let (taken, answered) = answer_lines(alloc, index, &ready[..most], writer, waiting);
    reader.inner.consume(taken);
    *count += taken as u64;
    match answered {
        Ok(()) => {}
        Err(fault) => return Err(fault),
    }
    show(writer, waiting)
}

/// A number, or a limit if that is below it.
fn at_most(number: usize, limit: u64) -> usize
    ensures number { result ≤ number }
    ensures limit { result ≤ limit }
{
    if (number as u64) < limit {
        number
    } else {
        limit as usize
    }
}

/// Answers each command of the reader from the index, which commands change: those that are ready in the reader's buffer, then
/// one that is read byte by byte, since it isn't whole there, and so on.
fn answer_buffered<R: BufRead, W: Write>(
    alloc: Global,
    index: &mut Index,
    reader: &mut Watched<R>,
    writer: &mut Watched<W>,
    waiting: &mut Vec<u8>,
) -> Result<(), RunFault>
    requires reader { watched_failed reader.old ≡ false }
    requires writer { watched_failed writer.old ≡ false }
    requires none { waiting.old.items ≡ [] }
    ensures ran { Ran index.old result
        (R.remaining (watched_inner reader.old)) (R.remaining (watched_inner reader.new))
        (W.contents (watched_inner writer.old)) (W.contents (watched_inner writer.new)) }
    ensures read { (watched_failed reader.new ≡ true) ↔ (result ≡ Err RunFault.Read) }
    ensures write { (watched_failed writer.new ≡ true) ↔ (result ≡ Err RunFault.Write) }
    ensures flushed { result ≢ Err RunFault.Write → watched_flushed writer.old ≡ true → watched_flushed writer.new ≡ true }
{
    let mut count = 0;
    'requests: loop {
        match answer_ready(alloc, index, reader, writer, waiting, &mut count) {
            Ok(()) => {}
            Err(fault) => return Err(fault),
        }
        let limit = index.limits().bytes;
        let asked = match next_request(alloc, reader, limit, &mut count) {
            Ok(Some(asked)) => asked,
            Ok(None) => return Ok(()),
            Err(fault) => return Err(fault),
        };
        let reply = answer(alloc, index, &asked.line, asked.records.as_deref());
        match show_reply(writer, &reply) {
            Ok(()) => {}
            Err(fault) => return Err(fault),
        }
        if !asked.is_ended {
            return Ok(());
        }
    }
}

/// A run as `run` does it, over the reader's buffer: the lines that are whole there are answered one after another, and their
/// replies are written together, and flushed, before the reader is asked for more. So whoever types a line gets its reply at
/// once, and a long input takes few calls of the writer.
///
/// At `RunFault::Write` replies may be missing to commands that stood in the buffer together; none after them was read. Memory
/// for replies that wait, 64 KB, is had before the first read, else the run ends by `RunFault::Memory`. A reader that told its
/// end may be asked once more.
pub fn run_buffered<R: BufRead, W: Write>(
    alloc: Global,
    records: Records,
    preferences: &CollatorPreferences<'_>,
    options: &CollatorOptions,
    reader: &mut Watched<R>,
    writer: &mut Watched<W>,
) -> Result<(), RunFault>
    requires reader { watched_failed reader.old ≡ false }
    requires writer { watched_failed writer.old ≡ false }

    // What it wrote is the replies to the lines that it read, reloads included; at `Write` a first part of them.
    ensures ran { Ran (opened records preferences.now options.now) result
        (R.remaining (watched_inner reader.old)) (R.remaining (watched_inner reader.new))
        (W.contents (watched_inner writer.old)) (W.contents (watched_inner writer.new)) }

    // `Read` and `Write` are answered exactly if a call of the reader or writer failed.
    ensures read { (watched_failed reader.new ≡ true) ↔ (result ≡ Err RunFault.Read) }
    ensures write { (watched_failed writer.new ≡ true) ↔ (result ≡ Err RunFault.Write) }

    // All that it wrote was flushed, but at `Write`: so it was before each call of the reader, since any of them may fail.
    ensures flushed { result ≢ Err RunFault.Write → watched_flushed writer.old ≡ true → watched_flushed writer.new ≡ true }
{
    run_buffered_with_seed(
        alloc,
        records,
        preferences,
        options,
        FIXED_SEED,
        reader,
        writer,
    )
}

/// A run as `run_buffered` does it, by an index whose names are looked up by hashes under this seed, which no reply shows
/// (`Index::with_seed`).
pub fn run_buffered_with_seed<R: BufRead, W: Write>(
    alloc: Global,
    records: Records,
    preferences: &CollatorPreferences<'_>,
    options: &CollatorOptions,
    seed: u64,
    reader: &mut Watched<R>,
    writer: &mut Watched<W>,
) -> Result<(), RunFault>
    requires reader { watched_failed reader.old ≡ false }
    requires writer { watched_failed writer.old ≡ false }
    ensures ran { Ran (opened records preferences.now options.now) result
        (R.remaining (watched_inner reader.old)) (R.remaining (watched_inner reader.new))
        (W.contents (watched_inner writer.old)) (W.contents (watched_inner writer.new)) }
    ensures read { (watched_failed reader.new ≡ true) ↔ (result ≡ Err RunFault.Read) }
    ensures write { (watched_failed writer.new ≡ true) ↔ (result ≡ Err RunFault.Write) }
    ensures flushed { result ≢ Err RunFault.Write → watched_flushed writer.old ≡ true → watched_flushed writer.new ≡ true }
{
    let Ok(mut index) = Index::with_seed(alloc, records, preferences, options, seed) else {
        return Err(RunFault::Memory);
    };
    match Vec::with_capacity(alloc, REPLY_ROOM) {
        Ok(mut waiting) => answer_buffered(alloc, &mut index, reader, writer, &mut waiting),
        Err(_) => Err(RunFault::Memory),
    }
}

/// Serves the words of the program and the bytes of FILE, as `serve_within` does, by a run over the reader's buffer
/// (`run_buffered`).
pub fn serve_buffered<R: BufRead, W: Write, E: Write>(
    alloc: Global,
    setup: Setup,
    choice: Option<&Choice<'_>>,
    file: Result<&[u8], FileFault>,
    reader: &mut Watched<R>,
    writer: &mut Watched<W>,
    errors: &mut E,
) -> u8
    requires reader { watched_failed reader.old ≡ false }
    requires writer { watched_failed writer.old ≡ false }
    ensures { ServesWithin setup.limits result
        (R.remaining (watched_inner reader.old)) (R.remaining (watched_inner reader.new))
        (W.contents (watched_inner writer.old)) (W.contents (watched_inner writer.new))
        (E.contents errors.old) (E.contents errors.new)
        choice.entry file.entry }
{
    let (choice, records) = match open_file(alloc, setup.limits, choice, file, errors) {
        Ok(opened) => opened,
        Err(status) => return status,
    };
    let ended = run_buffered_with_seed(
        alloc,
        records,
        &choice.prefs,
        &choice.options,
        setup.seed,
        reader,
        writer,
    );
    status_of(errors, ended)
}

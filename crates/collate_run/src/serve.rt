//! All that the program does but reading its words and FILE.

ghost use Rattle.std.specs.Prelude.{◌≡◌, ℕ, Option, List, false, flat_map, IfErr, IfOk, OnOk};
ghost use Rattle.collate_run.specs.Sending.{Sends};
ghost use Rattle.collate_run.specs.Served.{OpensFile, Serves, ServesWithin, Tells, records_line, run_line, run_status, run_text};
ghost use Rattle.collate_run.specs.Watched.{watched_failed, watched_inner};

use crate::run::{RunFault, run_with_seed};
use crate::setup::{Limits, Setup};
use crate::watched::Watched;
use collate_choice::Choice;
use collate_records::records::Records;
use collate_records::rule::RecordsError;
use itoa::Buffer;
use std::alloc::Global;
use std::io::{Read, Write};
use thiserror::Error;

/// Why FILE has no bytes to read.
#[derive(Clone, Copy, Debug, PartialEq, Eq, Error)]
pub enum FileFault {
    /// It can't be opened or read.
    #[error("the file can't be opened or read")]
    Unreadable,
    /// Memory was refused.
    #[error("out of memory")]
    Memory,
}

/// The writer of errors took no more.
#[derive(Clone, Copy)]
struct Untold;

/// Writes all bytes, up to the first call that fails or takes no byte.
fn tell_part<E: Write>(errors: &mut E, part: &[u8]) -> Result<(), Untold>
    ensures { Sends result (E.contents errors.old) (E.contents errors.new) part.now }
{
    let mut rest = part;
    'writes: while !rest.is_empty() {
        match errors.write(rest) {
            Ok(taken) if taken > 0 => rest = &rest[taken..],
            Ok(_) | Err(_) => return Err(Untold),
        }
    }
    Ok(())
}

/// Writes the parts of a text, one after another, up to the first call that fails or takes no
/// byte.
pub(crate) fn tell<E: Write>(errors: &mut E, parts: &[&[u8]])
    ensures { Tells (E.contents errors.old) (E.contents errors.new)
        (flat_map (λ part. part.now) parts.now) }
{
    for part in parts {
        match tell_part(errors, part) {
            Ok(()) => {}
            Err(Untold) => return,
        }
    }
}

/// Tells why records were refused.
fn tell_refusal<E: Write>(errors: &mut E, error: RecordsError)
    ensures { Tells (E.contents errors.old) (E.contents errors.new) (records_line error) }
{
    match error {
        RecordsError::Fault(fault) => {
            let mut buffer = Buffer::new();
            let line = buffer.format(fault.line).as_bytes();
            let rule = fault.rule.as_str().as_bytes();
            tell(errors, &[b"collate: refused ", line, b" ", rule, b"\n"]);
        }
        RecordsError::Memory => tell(errors, &[b"collate: memory\n"]),
    }
}

/// Tells in one line why a run ended before its input did.
pub fn tell_run_fault<E: Write>(errors: &mut E, fault: RunFault)
    ensures { Tells (E.contents errors.old) (E.contents errors.new) (run_line fault) }
{
    let line: &[u8] = match fault {
        RunFault::Memory => b"collate: memory\n",
        RunFault::Read => b"collate: read\n",
        RunFault::Write => b"collate: write\n",
        RunFault::LineTooLong => b"collate: line too long\n",
        RunFault::InputTooLong => b"collate: input too long\n",
        RunFault::CutReload => b"collate: reload cut\n",
    };
    tell(errors, &[line]);
}

/// What a run is begun with: the words, and the records of FILE. Where there is none, the status of the program; why is told.
pub(crate) fn open_file<'a, 'w, E: Write>(
    alloc: Global,
    limits: Limits,
    choice: Option<&'a Choice<'w>>,
    file: Result<&[u8], FileFault>,
    errors: &mut E,
) -> Result<(&'a Choice<'w>, Records), u8>
    ensures opened { IfOk result (λ given. OpensFile limits choice.entry file.entry given.0 given.1) }
    ensures untold { OnOk result (E.contents errors.new ≡ E.contents errors.old) }
    ensures stopped { IfErr result (λ status. (reader writer : Option (List ℕ)) → ServesWithin limits status
        reader reader writer writer (E.contents errors.old) (E.contents errors.new) choice.entry file.entry) }
{
    let Some(choice) = choice else {
        tell(errors, &[b"usage: collate FILE [OPTION=VALUE]..\n"]);
        return Err(2);
    };
    let bytes = match file {
        Ok(bytes) => bytes,
        Err(FileFault::Unreadable) => {
            let path = choice.file.as_bytes();
            tell(errors, &[b"collate: cannot read ", path, b"\n"]);
            return Err(1);
        }
        Err(FileFault::Memory) => {
            tell(errors, &[b"collate: memory\n"]);
            return Err(1);
        }
    };
    match Records::read_within(alloc, bytes, limits) {
        Ok(records) => Ok((choice, records)),
        Err(error) => {
            tell_refusal(errors, error);
            Err(1)
        }
    }
}

/// The status of the program when its run has ended; why it ended before its input did is told.
pub(crate) fn status_of<E: Write>(errors: &mut E, ended: Result<(), RunFault>) -> u8
    ensures status { result ≡ run_status ended }
    ensures told { Tells (E.contents errors.old) (E.contents errors.new) (run_text ended) }
{
    match ended {
        Ok(()) => 0,
        Err(fault) => {
            tell_run_fault(errors, fault);
            1
        }
    }
}

/// Serves the words of the program and the bytes of FILE, as `serve_within` does within the standard limits.
pub fn serve<R: Read, W: Write, E: Write>(
    alloc: Global,
    choice: Option<&Choice<'_>>,
    file: Result<&[u8], FileFault>,
    reader: &mut Watched<R>,
    writer: &mut Watched<W>,
    errors: &mut E,
) -> u8
    requires reader { watched_failed reader.old ≡ false }
    requires writer { watched_failed writer.old ≡ false }
    ensures { Serves result
        (R.remaining (watched_inner reader.old)) (R.remaining (watched_inner reader.new))
        (W.contents (watched_inner writer.old)) (W.contents (watched_inner writer.new))
        (E.contents errors.old) (E.contents errors.new)
        choice.entry file.entry }
{
    serve_within(alloc, Setup::STANDARD, choice, file, reader, writer, errors)
}

/// Serves the words of the program and the bytes of FILE: a run over the records of FILE, from the
/// reader to the writer. Answers the status of the program (README.md, "The program").
///
/// Status 2 and the usage line to `errors` if `choice` is `None`, whatever `file` is. Status 1 and a line that begins with
/// `collate: ` if FILE wasn't read, its records are refused, or the run ends by a fault, in this order. Else status 0. An
/// error of `errors` is dropped. Before the run nothing is read or written. FILE, and each file that a command reloads, is read
/// within the limits of the setup.
pub fn serve_within<R: Read, W: Write, E: Write>(
    alloc: Global,
    setup: Setup,
    choice: Option<&Choice<'_>>,
    file: Result<&[u8], FileFault>,
    reader: &mut Watched<R>,
    writer: &mut Watched<W>,
    errors: &mut E,
) -> u8
    requires reader { watched_failed reader.old ≡ false }
    requires writer { watched_failed writer.old ≡ false }
    ensures { ServesWithin setup.limits result
        (R.remaining (watched_inner reader.old)) (R.remaining (watched_inner reader.new))
        (W.contents (watched_inner writer.old)) (W.contents (watched_inner writer.new))
        (E.contents errors.old) (E.contents errors.new)
        choice.entry file.entry }
{
    let (choice, records) = match open_file(alloc, setup.limits, choice, file, errors) {
        Ok(opened) => opened,
        Err(status) => return status,
    };
    let ended = run_with_seed(
        alloc,
        records,
        &choice.prefs,
        &choice.options,
        setup.seed,
        reader,
        writer,
    );
    status_of(errors, ended)
}

//! The program: its words, its file, and what it is served by them.

ghost use Rattle.std.specs.Fn.{FnOnceReturnsAt};
ghost use Rattle.std.specs.Prelude.{◌≡◌, ◌+◌, false, map, string_bytes, take, IfOk, IfSome};
ghost use Rattle.std.specs.Result.{result_map_both};
ghost use Rattle.collate_run.specs.Served.{IsContents, ServesWords};
ghost use Rattle.collate_run.specs.Watched.{watched_failed, watched_inner};

use crate::buffered::serve_buffered;
use crate::fused::Fused;
use crate::serve::FileFault;
use crate::setup::{Limits, Setup};
use crate::watched::Watched;
use collate_choice::Choice;
use std::alloc::Global;
use std::env;
use std::fs::File;
use std::io::{self, BufRead, BufReader, Read, Write};
use std::process::ExitCode;

/// The words of the program, without its name. An error if one isn't UTF-8.
pub(crate) fn words(rt: &HostRuntime) -> io::Result<Vec<String>> {
    let mut words = Vec::new(rt.alloc());
    for word in env::args(rt)?.skip(1) {
        words.push(word)?;
    }
    Ok(words)
}

/// What a file holds, but no more than one byte past the limit: a file that is longer is refused by that byte.
///
/// Errors: `Memory` where memory is refused, `Unreadable` where a read fails.
fn contents<F: Read + Drop>(alloc: Global, file: F, limits: Limits) -> Result<Vec<u8>, FileFault>
    ensures { IfOk result (λ bytes. IfSome (F.remaining file) (λ held. bytes.items ≡ take (limits.bytes + 1) held)) }
{
    let most = (limits.bytes as u64).saturating_add(1);
    let mut bytes = Vec::new(alloc);
    match file.take(most).read_to_end(&mut bytes) {
        Ok(_) => Ok(bytes),
        Err(e) if e.kind() == io::ErrorKind::OutOfMemory => Err(FileFault::Memory),
        Err(_) => Err(FileFault::Unreadable),
    }
}

/// The bytes of FILE, which was opened or wasn't. Without memory for the input they are of no use.
pub(crate) fn file_bytes<F: Read + Drop>(
    alloc: Global,
    limits: Limits,
    has_input: bool,
    opened: io::Result<F>,
) -> Result<Vec<u8>, FileFault>
    ensures { IsContents F.remaining limits.bytes has_input opened (result_map_both (λ bytes. bytes.items) (λ fault. fault) result) }
{
    match opened {
        Ok(file) => match contents(alloc, file, limits) {
            Ok(_) if !has_input => Err(FileFault::Memory),
            read => read,
        },
        Err(_) => Err(FileFault::Unreadable),
    }
}

/// Serves the words of the program: a run over the records of FILE, which is opened by its path, from the reader to the
/// writer. `has_input` is whether there was memory for the reader; else nothing is run. Answers the status of the program.
///
/// Status and messages are those of `serve_buffered`; refused memory for the reader is told where FILE itself has no fault.
pub fn serve_words<
    F: Read + Drop,
    O: FnOnce(&str) -> io::Result<F> + Drop,
    R: BufRead,
    W: Write,
    E: Write,
>(
    alloc: Global,
    setup: Setup,
    words: &[String],
    opener: O,
    has_input: bool,
    reader: &mut Watched<R>,
    writer: &mut Watched<W>,
    errors: &mut E,
) -> u8
    requires opener { O.IsAlwaysCallable opener }
    requires reader { watched_failed reader.old ≡ false }
    requires writer { watched_failed writer.old ≡ false }
    ensures { ServesWords setup.limits result
        (R.remaining (watched_inner reader.old)) (R.remaining (watched_inner reader.new))
        (W.contents (watched_inner writer.old)) (W.contents (watched_inner writer.new))
        (E.contents errors.old) (E.contents errors.new)
        (map string_bytes words.now)
        (λ path file. (opened : _) × FnOnceReturnsAt O.FnOnce opener path opened × IsContents F.remaining setup.limits.bytes has_input opened file) }
{
    let Some(choice) = Choice::read(words) else {
        let file = Err(FileFault::Unreadable);
        return serve_buffered(alloc, setup, None, file, reader, writer, errors);
    };
    let file = file_bytes(alloc, setup.limits, has_input, opener(choice.file));
    let bytes = match &file {
        Ok(bytes) => Ok(bytes.as_slice()),
        Err(fault) => Err(*fault),
    };
    serve_buffered(alloc, setup, Some(&choice), bytes, reader, writer, errors)
}

/// How many bytes of the input a read asks for.
pub(crate) const INPUT_ROOM: usize = 65_536;

/// Serves the words of the program from standard input to standard output. Answers its status.
fn serve_host(rt: &HostRuntime, setup: Setup, words: &[String]) -> u8 {
    let alloc = rt.alloc();
    let opener = |path: &str| File::open(rt, path);
    let mut writer = Watched::new(io::writer(rt));
    let mut errors = rt.stderr();
    match BufReader::with_capacity(alloc, INPUT_ROOM, Fused::new(rt.reader())) {
        Ok(input) => {
            let mut reader = Watched::new(input);
            serve_words(
                alloc,
                setup,
                words,
                opener,
                true,
                &mut reader,
                &mut writer,
                &mut errors,
            )
        }
        Err(_) => {
            let mut reader = Watched::new(io::empty());
            serve_words(
                alloc,
                setup,
                words,
                opener,
                false,
                &mut reader,
                &mut writer,
                &mut errors,
            )
        }
    }
}

/// The program, set up in this way: serves its words, from standard input to standard output (README.md, "The program").
/// Answers its status.
pub fn run_program_within(rt: &HostRuntime, setup: Setup) -> ExitCode {
    match words(rt) {
        Ok(words) => ExitCode::from(serve_host(rt, setup, &words)),
        Err(e) if e.kind() == io::ErrorKind::OutOfMemory => {
            let _ = rt.stderr().write_all(b"collate: memory\n");
            ExitCode::from(1)
        }
        Err(_) => ExitCode::from(serve_host(rt, setup, &[])),
    }
}

/// The program `collate`: as `run_program_within` does within the standard limits, by a seed of the system's where it gives one.
pub fn run_program(rt: &HostRuntime) -> ExitCode {
    run_program_within(rt, Setup::STANDARD.seeded(rt))
}

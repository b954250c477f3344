//! The program with FILE put over a root: both are served as one file.

ghost use Rattle.std.specs.Prelude.{◌≡◌, ◌++◌, codes, false};
ghost use Rattle.collate_run.specs.Over.{ServesJoined, ServesOver, join_line, place_line, refusal_line};
ghost use Rattle.collate_run.specs.Served.{Tells, file_line};
ghost use Rattle.collate_run.specs.Watched.{watched_failed, watched_inner};

use crate::buffered::run_buffered_with_seed;
use crate::fused::Fused;
use crate::program::{INPUT_ROOM, file_bytes, run_program_within, words};
use crate::serve::{FileFault, status_of, tell};
use crate::setup::Setup;
use crate::watched::Watched;
use collate_choice::Choice;
use collate_join::{JoinError, Joined, Origin, join};
use collate_records::records::Records;
use collate_records::rule::{RecordsError, Rule};
use itoa::Buffer;
use std::alloc::Global;
use std::fs::File;
use std::io::{self, BufRead, BufReader, Write};
use std::process::ExitCode;

/// Tells which line of a file breaks which rule, all as they are printed.
fn tell_place<'a, E: Write>(errors: &mut E, line: &'a [u8], rule: &'a [u8], path: &'a [u8])
    ensures { Tells (E.contents errors.old) (E.contents errors.new) (codes "collate: refused " ++ line.now ++ codes " " ++ rule.now ++ codes " " ++ path.now ++ codes "\n") }
{
    tell(
        errors,
        &[b"collate: refused ", line, b" ", rule, b" ", path, b"\n"],
    );
}

/// Tells which line of a file breaks which rule.
fn tell_fault<E: Write>(errors: &mut E, line: usize, rule: Rule, path: &str)
    ensures { Tells (E.contents errors.old) (E.contents errors.new) (place_line line rule path.now) }
{
    let mut buffer = Buffer::new();
    let line = buffer.format(line).as_bytes();
    tell_place(errors, line, rule.as_str().as_bytes(), path.as_bytes());
}

/// Tells why the records of a join were refused, by the file that has the line.
fn tell_refusal<E: Write>(
    errors: &mut E,
    joined: &Joined,
    root: &str,
    file: &str,
    error: RecordsError,
)
    ensures { Tells (E.contents errors.old) (E.contents errors.new) (refusal_line joined.now.kept.items root.now file.now error) }
{
    match error {
        RecordsError::Fault(fault) => match joined.origin(fault.line) {
            Origin::Root(line) => tell_fault(errors, line, fault.rule, root),
            Origin::Tailoring(line) => tell_fault(errors, line, fault.rule, file),
        },
        RecordsError::Memory => tell(errors, &[b"collate: memory\n"]),
    }
}

/// Tells why FILE can't be put over the root.
fn tell_join_error<E: Write>(errors: &mut E, file: &str, error: JoinError)
    ensures { Tells (E.contents errors.old) (E.contents errors.new) (join_line file.now error) }
{
    match error {
        JoinError::NoSuchRecord(line) => {
            let mut buffer = Buffer::new();
            let line = buffer.format(line).as_bytes();
            tell_place(errors, line, b"without", file.as_bytes());
        }
        JoinError::Memory => tell(errors, &[b"collate: memory\n"]),
    }
}

/// Tells why a file has no bytes to read.
fn tell_file_fault<E: Write>(errors: &mut E, path: &str, fault: FileFault)
    ensures { Tells (E.contents errors.old) (E.contents errors.new) (file_line path.now fault) }
{
    match fault {
        FileFault::Unreadable => tell(errors, &[b"collate: cannot read ", path.as_bytes(), b"\n"]),
        FileFault::Memory => tell(errors, &[b"collate: memory\n"]),
    }
}

/// Serves a join: a run over its records. Answers the status of the program.
fn serve_joined<R: BufRead, W: Write, E: Write>(
    alloc: Global,
    setup: Setup,
    choice: &Choice<'_>,
    root: &str,
    joined: &Joined,
    reader: &mut Watched<R>,
    writer: &mut Watched<W>,
    errors: &mut E,
) -> u8
    requires reader { watched_failed reader.old ≡ false }
    requires writer { watched_failed writer.old ≡ false }
    ensures { ServesJoined setup.limits result
        (R.remaining (watched_inner reader.old)) (R.remaining (watched_inner reader.new))
        (W.contents (watched_inner writer.old)) (W.contents (watched_inner writer.new))
        (E.contents errors.old) (E.contents errors.new)
        choice.now root.now joined.now }
{
    let records = match Records::read_within(alloc, joined.bytes(), setup.limits) {
        Ok(records) => records,
        Err(error) => {
            tell_refusal(errors, joined, root, choice.file, error);
            return 1;
        }
    };
    let ended = run_buffered_with_seed(
        alloc,
        records,
        &choice.prefs,
        &choice.options,
        setup.seed,
        reader,
        writer,
    );
    status_of(errors, ended)
}

/// Serves the words of the program, the bytes of a root and those of FILE, which is put over it, as `serve_buffered` serves
/// a FILE that holds the join of both. `root_path` is the path of the root. Answers the status of the program.
///
/// Status and messages are those of `serve_buffered`, but that a fault of the root comes before one of FILE, and that after
/// `refused LINE RULE` stands the path of the file that has the line; `refused LINE without PATH` says that FILE leaves out
/// in that line what the root doesn't weigh.
pub fn serve_over<R: BufRead, W: Write, E: Write>(
    alloc: Global,
    setup: Setup,
    choice: Option<&Choice<'_>>,
    root_path: &str,
    root: Result<&[u8], FileFault>,
    file: Result<&[u8], FileFault>,
    reader: &mut Watched<R>,
    writer: &mut Watched<W>,
    errors: &mut E,
) -> u8
    requires reader { watched_failed reader.old ≡ false }
    requires writer { watched_failed writer.old ≡ false }
    ensures { ServesOver setup.limits result
        (R.remaining (watched_inner reader.old)) (R.remaining (watched_inner reader.new))
        (W.contents (watched_inner writer.old)) (W.contents (watched_inner writer.new))
        (E.contents errors.old) (E.contents errors.new)
        choice.entry root_path.now root.entry file.entry }
{
    let Some(choice) = choice else {
        tell(errors, &[b"usage: collate FILE [OPTION=VALUE]..\n"]);
        return 2;
    };
    let root = match root {
        Ok(bytes) => bytes,
        Err(fault) => {
            tell_file_fault(errors, root_path, fault);
            return 1;
        }
    };
    let file = match file {
        Ok(bytes) => bytes,
        Err(fault) => {
            tell_file_fault(errors, choice.file, fault);
            return 1;
        }
    };
    match join(alloc, root, file) {
        Ok(joined) => serve_joined(
            alloc, setup, choice, root_path, &joined, reader, writer, errors,
        ),
        Err(error) => {
            tell_join_error(errors, choice.file, error);
            1
        }
    }
}

/// Serves the words after ROOT, which are FILE and options, over the files of these names. `has_input` is whether there
/// was memory for the reader. Answers the status of the program.
fn serve_paths<R: BufRead, W: Write, E: Write>(
    rt: &HostRuntime,
    setup: Setup,
    root_path: &str,
    words: &[String],
    has_input: bool,
    reader: &mut Watched<R>,
    writer: &mut Watched<W>,
    errors: &mut E,
) -> u8
    requires reader { watched_failed reader.old ≡ false }
    requires writer { watched_failed writer.old ≡ false }
{
    let alloc = rt.alloc();
    let Some(choice) = Choice::read(words) else {
        let file = Err(FileFault::Unreadable);
        return serve_over(
            alloc, setup, None, root_path, file, file, reader, writer, errors,
        );
    };
    let root = file_bytes(alloc, setup.limits, has_input, File::open(rt, root_path));
    let file = file_bytes(alloc, setup.limits, has_input, File::open(rt, choice.file));
    let root = match &root {
        Ok(bytes) => Ok(bytes.as_slice()),
        Err(fault) => Err(*fault),
    };
    let file = match &file {
        Ok(bytes) => Ok(bytes.as_slice()),
        Err(fault) => Err(*fault),
    };
    serve_over(
        alloc,
        setup,
        Some(&choice),
        root_path,
        root,
        file,
        reader,
        writer,
        errors,
    )
}

/// Serves FILE over ROOT from standard input to standard output. Answers the status of the program.
fn serve_host_over(rt: &HostRuntime, setup: Setup, root: &str, words: &[String]) -> u8 {
    let mut writer = Watched::new(io::writer(rt));
    let mut errors = rt.stderr();
    match BufReader::with_capacity(rt.alloc(), INPUT_ROOM, Fused::new(rt.reader())) {
        Ok(input) => {
            let mut reader = Watched::new(input);
            serve_paths(
                rt,
                setup,
                root,
                words,
                true,
                &mut reader,
                &mut writer,
                &mut errors,
            )
        }
        Err(_) => {
            let mut reader = Watched::new(io::empty());
            serve_paths(
                rt,
                setup,
                root,
                words,
                false,
                &mut reader,
                &mut writer,
                &mut errors,
            )
        }
    }
}

/// The program, set up in this way, with words of its own: `--over ROOT FILE [OPTION=VALUE]..` serves FILE put over ROOT
/// (docs/LANGUAGES.md); all other words are served as `run_program_within` does.
pub fn run_program_over(rt: &HostRuntime, setup: Setup) -> ExitCode {
    match words(rt) {
        Ok(words) => match words.as_slice() {
            [over, root, rest @ ..] if over.as_str() == "--over" => {
                ExitCode::from(serve_host_over(rt, setup, root, rest))
            }
            _ => run_program_within(rt, setup),
        },
        Err(_) => run_program_within(rt, setup),
    }
}

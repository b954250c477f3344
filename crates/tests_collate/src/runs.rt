//! Runs over fakes of a reader and a writer that fail in mid-stream, and the program's texts and statuses.

use crate::commands::words_of;
use crate::failing::{
    FailingReader, FailingWriter, Failure, READ_FAILURES, WRITE_FAILURES, assert_ended,
};
use crate::letters::{PREFERENCES, PRIMARY};
use assertions::assert_same;
use collate_index::index::{Absent, AddError, ReloadError};
use collate_records::records::Records;
use collate_run::choice::Choice;
use collate_run::run::{self, RunFault};
use collate_run::serve::{self, FileFault};
use collate_run::watched::Watched;
use std::alloc::{AllocError, Global};
use std::fmt::Display;
use std::io::{self, Read, Write};
use std::process::Abort;
use std::test::Fail;

pub(crate) const TEXT: &[u8] = b"add b\nadd b\nlist\nfind b\n\nreload 1\nremove b\nadd\nfind";

pub(crate) const REPLIES: &[u8] =
    b"added\nduplicate\nnames 1\nb\nnames 1\nb\nbad\nrefused 1 grammar\nbad\nbad\n";

/// Runs over no records.
fn run_over_nothing<R: Read, W: Write>(
    rt: &impl Abort,
    alloc: Global,
    reader: R,
    writer: W,
) -> Result<(), RunFault>
where
    R: Drop,
    W: Drop,
{
    let records = Records::read(alloc, b"")
        .ok()
        .expect(rt, "no line is accepted");
    let mut reader = Watched::new(reader);
    let mut writer = Watched::new(writer);
    let result = run::run(
        alloc,
        records,
        &PREFERENCES,
        &PRIMARY,
        &mut reader,
        &mut writer,
    );
    assert_same!(rt; reader.failed(), result == Err(RunFault::Read));
    assert_same!(rt; writer.failed(), result == Err(RunFault::Write));
    result
}

#[test]
fn ok_run(rt: HostRuntime) {
    let alloc = rt.alloc();
    let mut written = Vec::new(alloc);
    let result = run_over_nothing(&rt, alloc, TEXT, &mut written);
    assert_same!(rt; result, Ok(()));
    assert_same!(rt; *written.as_slice(), *REPLIES);
}

#[test]
fn ok_run_with_seed(rt: HostRuntime) -> Result<(), Fail> {
    let alloc = rt.alloc();
    let records = Records::read(alloc, b"")?;
    let mut written = Vec::new(alloc);
    let mut reader = Watched::new(TEXT);
    let mut writer = Watched::new(&mut written);
    let result = run::run_with_seed(
        alloc,
        records,
        &PREFERENCES,
        &PRIMARY,
        7,
        &mut reader,
        &mut writer,
    );
    assert_same!(rt; result, Ok(()));
    assert_same!(rt; *written.as_slice(), *REPLIES);
    Ok(())
}

#[test]
fn run_ends_where_a_read_fails(rt: HostRuntime) {
    let alloc = rt.alloc();
    // How many bytes are read, and how many bytes of replies their whole commands get.
    let stands = [
        (0, 0),
        (5, 0),
        (6, 6),
        (11, 6),
        (12, 16),
        (17, 26),
        (25, 40),
        (34, 40),
        (42, 40),
        (43, 58),
        (47, 62),
        (51, 62),
    ];
    for kind in READ_FAILURES {
        for (calls, bytes) in stands {
            let mut written = Vec::new(alloc);
            let reader = FailingReader {
                text: TEXT,
                most: TEXT.len(),
                calls,
                kind,
            };
            let result = run_over_nothing(&rt, alloc, reader, &mut written);
            assert_ended(&rt, calls, result, RunFault::Read, &written, REPLIES, bytes);
        }
    }
}

#[test]
fn run_ends_where_a_write_fails(rt: HostRuntime) {
    let alloc = rt.alloc();
    for failure in WRITE_FAILURES {
        // How many calls of up to four bytes succeed, and how many bytes have then been written.
        for (calls, bytes) in [(0, 0), (1, 4), (2, 6), (3, 10), (4, 14), (5, 16)] {
            let mut written = Vec::new(alloc);
            let writer = FailingWriter {
                written: &mut written,
                most: 4,
                calls,
                failure,
            };
            let result = run_over_nothing(&rt, alloc, TEXT, writer);
            assert_ended(
                &rt,
                calls,
                result,
                RunFault::Write,
                &written,
                REPLIES,
                bytes,
            );
        }
    }
}

#[test]
fn run_ends_at_a_long_line(rt: HostRuntime) -> Result<(), Fail> {
    let alloc = rt.alloc();
    let mut text = vec![in alloc; b'x'; 65_536]?;
    text.push(b'\n')?;
    let longest = text.len();
    text.extend_from_slice(&vec![in alloc; b'x'; 65_537]?)?;
    let mut written = Vec::new(alloc);
    let result = run_over_nothing(&rt, alloc, text.as_slice(), &mut written);
    assert_same!(rt; result, Err(RunFault::LineTooLong));
    assert_same!(rt; *written.as_slice(), *b"bad\n".as_slice());
    written.clear();
    let result = run_over_nothing(&rt, alloc, text.get(..longest).unwrap_or(b""), &mut written);
    assert_same!(rt; result, Ok(()));
    assert_same!(rt; *written.as_slice(), *b"bad\n".as_slice());
    Ok(())
}

/// Serves choice with a reader and a writer that fail after some calls, and looks at the status
/// and at what the writer of errors got.
fn assert_served(
    rt: &impl Abort,
    alloc: Global,
    choice: Option<&Choice<'_>>,
    file: Result<&[u8], FileFault>,
    reads: usize,
    writes: usize,
    wanted: (u8, &[u8]),
) {
    let mut written = Vec::new(alloc);
    let mut errors = Vec::new(alloc);
    let mut reader = Watched::new(FailingReader {
        text: b"list\n",
        most: 5,
        calls: reads,
        kind: io::ErrorKind::Interrupted,
    });
    let mut writer = Watched::new(FailingWriter {
        written: &mut written,
        most: 4,
        calls: writes,
        failure: Failure::NoByte,
    });
    let status = serve::serve(alloc, choice, file, &mut reader, &mut writer, &mut errors);
    assert_same!(rt; status, wanted.0);
    assert_same!(rt; *errors.as_slice(), *wanted.1);
}

#[test]
fn ok_serve(rt: HostRuntime) -> Result<(), Fail> {
    let alloc = rt.alloc();
    let words = words_of(alloc, &["a.records"])?;
    let choice = Choice::read(&words);
    let (mut written, mut errors) = (Vec::new(alloc), Vec::new(alloc));
    let mut reader = Watched::new(TEXT);
    let mut writer = Watched::new(&mut written);
    let file: Result<&[u8], FileFault> = Ok(b"");
    let status = serve::serve(
        alloc,
        choice.as_ref(),
        file,
        &mut reader,
        &mut writer,
        &mut errors,
    );
    assert_same!(rt; status, 0);
    assert_same!(rt; *written.as_slice(), *REPLIES);
    assert_same!(rt; *errors.as_slice(), *b"".as_slice());
    Ok(())
}

#[test]
fn serve_answers_status_and_text(rt: HostRuntime) -> Result<(), Fail> {
    let alloc = rt.alloc();
    let usage = (2, b"usage: collate FILE [OPTION=VALUE]..\n".as_slice());
    let loud = words_of(alloc, &["a.records", "strength=loud"])?;
    for choice in [Choice::read(&[]), Choice::read(&loud)] {
        assert_served(
            &rt,
            alloc,
            choice.as_ref(),
            Err(FileFault::Unreadable),
            9,
            9,
            usage,
        );
        assert_served(&rt, alloc, choice.as_ref(), Ok(b"x"), 9, 9, usage);
    }
    let words = words_of(alloc, &["a.records"])?;
    let choice = Choice::read(&words);
    let choice = choice.as_ref();
    let unreadable = (1, b"collate: cannot read a.records\n".as_slice());
    assert_served(
        &rt,
        alloc,
        choice,
        Err(FileFault::Unreadable),
        9,
        9,
        unreadable,
    );
    let memory = (1, b"collate: memory\n".as_slice());
    assert_served(&rt, alloc, choice, Err(FileFault::Memory), 9, 9, memory);
    let refused = (1, b"collate: refused 1 grammar\n".as_slice());
    assert_served(&rt, alloc, choice, Ok(b"x"), 9, 9, refused);
    assert_served(&rt, alloc, choice, Ok(b""), 9, 9, (0, b""));
    assert_served(&rt, alloc, choice, Ok(b""), 3, 9, (1, b"collate: read\n"));
    assert_served(&rt, alloc, choice, Ok(b""), 9, 1, (1, b"collate: write\n"));
    Ok(())
}

#[test]
fn serve_drops_an_error_of_the_writer_of_errors(rt: HostRuntime) {
    let alloc = rt.alloc();
    let (mut written, mut told) = (Vec::new(alloc), Vec::new(alloc));
    let mut errors = FailingWriter {
        written: &mut told,
        most: 4,
        calls: 2,
        failure: Failure::Error(io::ErrorKind::Other),
    };
    let mut reader = Watched::new(b"list\n".as_slice());
    let mut writer = Watched::new(&mut written);
    let file = Err(FileFault::Unreadable);
    let status = serve::serve(alloc, None, file, &mut reader, &mut writer, &mut errors);
    assert_same!(rt; status, 2);
    assert_same!(rt; *told.as_slice(), *b"usage: c".as_slice());
    assert_same!(rt; *written.as_slice(), *b"".as_slice());
}

#[test]
fn each_fault_of_a_run_has_its_line(rt: HostRuntime) {
    let rows: [(RunFault, &[u8]); 6] = [
        (RunFault::Memory, b"collate: memory\n"),
        (RunFault::Read, b"collate: read\n"),
        (RunFault::Write, b"collate: write\n"),
        (RunFault::LineTooLong, b"collate: line too long\n"),
        (RunFault::InputTooLong, b"collate: input too long\n"),
        (RunFault::CutReload, b"collate: reload cut\n"),
    ];
    for (fault, line) in rows {
        let mut errors = Vec::new(rt.alloc());
        serve::tell_run_fault(&mut errors, fault);
        assert_same!(rt; *errors.as_slice(), *line);
    }
}

/// Whether a value is shown as this text.
fn shows<D: Display + Drop>(alloc: Global, value: D, text: &str) -> Result<bool, AllocError> {
    let shown = format!(in alloc; "{value}")?;
    Ok(shown.as_str() == text)
}

#[test]
fn errors_say_what_is_at_fault(rt: HostRuntime) -> Result<(), Fail> {
    let alloc = rt.alloc();
    assert!(rt; shows(alloc, RunFault::Memory, "out of memory")?);
    assert!(rt; shows(alloc, RunFault::Read, "a read failed")?);
    assert!(rt; shows(alloc, RunFault::Write, "a write failed")?);
    let line = "a line has more than 65,536 bytes";
    assert!(rt; shows(alloc, RunFault::LineTooLong, line)?);
    let input = "the input has more than 4,294,967,295 bytes";
    assert!(rt; shows(alloc, RunFault::InputTooLong, input)?);
    let cut = "the input ends within a reload";
    assert!(rt; shows(alloc, RunFault::CutReload, cut)?);
    let file = "the file can't be opened or read";
    assert!(rt; shows(alloc, FileFault::Unreadable, file)?);
    assert!(rt; shows(alloc, FileFault::Memory, "out of memory")?);
    let duplicate = "the name is already in the index";
    assert!(rt; shows(alloc, AddError::Duplicate, duplicate)?);
    assert!(rt; shows(alloc, AddError::Memory, "out of memory")?);
    assert!(rt; shows(alloc, Absent, "the name is not in the index")?);
    assert!(rt; shows(alloc, ReloadError::Memory, "out of memory")?);
    Ok(())
}

//! Runs over the reader's buffer: who types gets each reply at once, replies to what stands there together are written
//! together, and calls of the reader and writer that fail.

use crate::commands::words_of;
use crate::failing::{FailingReader, FailingWriter, READ_FAILURES, WRITE_FAILURES, assert_ended};
use crate::letters::{PREFERENCES, PRIMARY};
use crate::runs::{REPLIES, TEXT};
use assertions::assert_same;
use collate_records::records::Records;
use collate_run::buffered::{run_buffered, run_buffered_with_seed, serve_buffered};
use collate_run::choice::Choice;
use collate_run::run::RunFault;
use collate_run::serve::FileFault;
use collate_run::setup::Setup;
use collate_run::watched::Watched;
use std::alloc::Global;
use std::cell::Cell;
use std::io::{self, BufRead, BufReader, Read, Write};
use std::process::Abort;
use std::test::Fail;

/// Who types: each call gives the next of these texts, and fails if less or more of the replies can be seen than stands beside
/// it. An empty text is the end, which is told as often as it is asked for.
#[derive(Drop)]
struct Typist<'s, 't> {
    script: &'s [(&'t [u8], usize)],
    seen: &'s Cell<usize>,
}

impl Read for Typist<'_, '_> {
    fn read(&mut self, buf: &mut [u8]) -> io::Result<usize> {
        match self.script {
            [(text, seen), rest @ ..] if self.seen.get() == *seen => {
                let mut typed: &[u8] = text;
                if !typed.is_empty() {
                    self.script = rest;
                }
                Read::read(&mut typed, buf)
            }
            _ => Err(io::Error::from(io::ErrorKind::Other)),
        }
    }
}

/// A screen on which that can be seen which was written before the last flush, and that counts the calls that write.
#[derive(Drop)]
struct Screen<'a> {
    shown: &'a mut Vec<u8>,
    seen: &'a Cell<usize>,
    calls: &'a Cell<usize>,
}

impl Write for Screen<'_> {
    fn write(&mut self, buf: &[u8]) -> io::Result<usize> {
        self.calls.set(self.calls.get().saturating_add(1));
        self.shown.extend_from_slice(buf)?;
        Ok(buf.len())
    }

    fn flush(&mut self) -> io::Result<()> {
        self.seen.set(self.shown.len());
        Ok(())
    }
}

/// Runs over no records.
fn run_over_nothing<R: BufRead, W: Write>(
    rt: &impl Abort,
    alloc: Global,
    reader: R,
    writer: W,
) -> Result<(), RunFault>
where
    R: Drop,
    W: Drop,
{
    let records = Records::read(alloc, b"")
        .ok()
        .expect(rt, "no line is accepted");
    let mut reader = Watched::new(reader);
    let mut writer = Watched::new(writer);
    let result = run_buffered(
        alloc,
        records,
        &PREFERENCES,
        &PRIMARY,
        &mut reader,
        &mut writer,
    );
    assert_same!(rt; reader.failed(), result == Err(RunFault::Read));
    assert_same!(rt; writer.failed(), result == Err(RunFault::Write));
    result
}

#[test]
fn ok_run_buffered(rt: HostRuntime) -> Result<(), Fail> {
    let alloc = rt.alloc();
    let mut written = Vec::new(alloc);
    let result = run_over_nothing(&rt, alloc, TEXT, &mut written);
    assert_same!(rt; result, Ok(()));
    assert_same!(rt; *written.as_slice(), *REPLIES);
    for room in [1, 5, 6, 7, 24, 34, 51, 64] {
        written.clear();
        let reader = BufReader::with_capacity(alloc, room, TEXT)?;
        let result = run_over_nothing(&rt, alloc, reader, &mut written);
        assert_same!(rt; result, Ok(()); room);
        assert_same!(rt; *written.as_slice(), *REPLIES; room);
    }
    Ok(())
}

#[test]
fn ok_run_buffered_with_seed(rt: HostRuntime) -> Result<(), Fail> {
    let alloc = rt.alloc();
    let records = Records::read(alloc, b"")?;
    let mut written = Vec::new(alloc);
    let mut reader = Watched::new(TEXT);
    let mut writer = Watched::new(&mut written);
    let result = run_buffered_with_seed(
        alloc,
        records,
        &PREFERENCES,
        &PRIMARY,
        7,
        &mut reader,
        &mut writer,
    );
    assert_same!(rt; result, Ok(()));
    assert_same!(rt; *written.as_slice(), *REPLIES);
    Ok(())
}

#[test]
fn ok_serve_buffered(rt: HostRuntime) -> Result<(), Fail> {
    let alloc = rt.alloc();
    let words = words_of(alloc, &["a.records"])?;
    let choice = Choice::read(&words);
    let (mut written, mut errors) = (Vec::new(alloc), Vec::new(alloc));
    let mut reader = Watched::new(TEXT);
    let mut writer = Watched::new(&mut written);
    let file: Result<&[u8], FileFault> = Ok(b"");
    let status = serve_buffered(
        alloc,
        Setup::UNICODE,
        choice.as_ref(),
        file,
        &mut reader,
        &mut writer,
        &mut errors,
    );
    assert_same!(rt; status, 0);
    assert_same!(rt; *written.as_slice(), *REPLIES);
    assert_same!(rt; *errors.as_slice(), *b"".as_slice());
    Ok(())
}

#[test]
fn who_types_gets_each_reply_at_once(rt: HostRuntime) -> Result<(), Fail> {
    let alloc = rt.alloc();
    let (seen, calls) = (Cell::new(0), Cell::new(0));
    let mut shown = Vec::new(alloc);
    let typist = Typist {
        script: &[
            (b"add b\n", 0),
            (b"add b\n", 6),
            (b"list\nfi", 16),
            (b"nd", 26),
            (b" b\n", 26),
            (b"reload 1\n", 36),
            (b"x", 36),
            (b"\nremove b\n", 36),
            (b"\nadd b\nadd b", 62),
            (b"", 72),
        ],
        seen: &seen,
    };
    let screen = Screen {
        shown: &mut shown,
        seen: &seen,
        calls: &calls,
    };
    let reader = BufReader::with_capacity(alloc, 64, typist)?;
    let result = run_over_nothing(&rt, alloc, reader, screen);
    assert_same!(rt; result, Ok(()));
    assert_same!(rt; seen.get(), shown.len());
    assert_same!(rt; *shown.as_slice(), *b"added\nduplicate\nnames 1\nb\nnames 1\nb\nrefused 1 grammar\nremoved\nbad\nadded\nduplicate\n".as_slice());
    Ok(())
}

/// What is typed where two names make a long list, with the bytes of replies that can be seen before.
fn script_of_lists<'t>(
    add: &'t [u8],
    other: &'t [u8],
    list: &'t [u8],
    end: &'t [u8],
) -> [(&'t [u8], usize); 4] {
    [(add, 0), (other, 6), (list, 100_030), (end, 200_041)]
}

#[test]
fn who_types_gets_long_replies_at_once(rt: HostRuntime) -> Result<(), Fail> {
    let alloc = rt.alloc();
    let (seen, calls) = (Cell::new(0), Cell::new(0));
    let (mut shown, mut add) = (Vec::new(alloc), Vec::new(alloc));
    add.extend_from_slice(b"add ")?;
    add.extend_from_slice(&vec![in alloc; b'x'; 50_000]?)?;
    // Two names make a list of more than the bytes of replies that wait together.
    let mut other = add.clone()?;
    add.push(b'\n')?;
    other.extend_from_slice(b"y\nlist\nremove x\n")?;
    let script = script_of_lists(&add, &other, b"list\n", b"");
    let typist = Typist {
        script: &script,
        seen: &seen,
    };
    let screen = Screen {
        shown: &mut shown,
        seen: &seen,
        calls: &calls,
    };
    let reader = BufReader::with_capacity(alloc, 65_536, typist)?;
    let result = run_over_nothing(&rt, alloc, reader, screen);
    assert_same!(rt; result, Ok(()));
    assert_same!(rt; (seen.get(), shown.len()), (200_041, 200_041));
    Ok(())
}

#[test]
fn replies_to_what_stands_together_are_written_together(rt: HostRuntime) -> Result<(), Fail> {
    let alloc = rt.alloc();
    let (seen, calls) = (Cell::new(0), Cell::new(0));
    let (mut text, mut shown) = (Vec::new(alloc), Vec::new(alloc));
    for _ in 0..1000 {
        text.extend_from_slice(b"remove a\n")?;
    }
    let screen = Screen {
        shown: &mut shown,
        seen: &seen,
        calls: &calls,
    };
    let result = run_over_nothing(&rt, alloc, text.as_slice(), screen);
    assert_same!(rt; result, Ok(()));
    assert_same!(rt; (seen.get(), shown.len()), (7000, 7000));
    assert_same!(rt; calls.get(), 1);
    Ok(())
}

#[test]
fn replies_past_the_room_are_all_written(rt: HostRuntime) -> Result<(), Fail> {
    let alloc = rt.alloc();
    let (seen, calls) = (Cell::new(0), Cell::new(0));
    let (mut text, mut shown) = (Vec::new(alloc), Vec::new(alloc));
    for _ in 0..20_000 {
        text.extend_from_slice(b"remove a\n")?;
    }
    let screen = Screen {
        shown: &mut shown,
        seen: &seen,
        calls: &calls,
    };
    let result = run_over_nothing(&rt, alloc, text.as_slice(), screen);
    assert_same!(rt; result, Ok(()));
    assert_same!(rt; (seen.get(), shown.len()), (140_000, 140_000));
    Ok(())
}

#[test]
fn run_buffered_ends_where_a_read_fails(rt: HostRuntime) -> Result<(), Fail> {
    let alloc = rt.alloc();
    // How many calls of six bytes are read, and how many bytes of replies their whole commands get.
    let stands = [
        (0, 0),
        (1, 6),
        (2, 16),
        (3, 26),
        (4, 36),
        (5, 40),
        (6, 40),
        (7, 40),
        (8, 62),
        (9, 62),
    ];
    for kind in READ_FAILURES {
        for (calls, bytes) in stands {
            let mut written = Vec::new(alloc);
            let reader = FailingReader {
                text: TEXT,
                most: 6,
                calls,
                kind,
            };
            let reader = BufReader::with_capacity(alloc, 64, reader)?;
            let result = run_over_nothing(&rt, alloc, reader, &mut written);
            assert_ended(&rt, calls, result, RunFault::Read, &written, REPLIES, bytes);
        }
    }
    Ok(())
}

#[test]
fn run_buffered_ends_where_a_write_fails(rt: HostRuntime) {
    let alloc = rt.alloc();
    for failure in WRITE_FAILURES {
        // How many calls of up to four bytes succeed, and how many bytes have then been written.
        for (calls, bytes) in [(0, 0), (1, 4), (2, 8), (5, 20), (9, 36), (10, 40), (11, 44)] {
            let mut written = Vec::new(alloc);
            let writer = FailingWriter {
                written: &mut written,
                most: 4,
                calls,
                failure,
            };
            let result = run_over_nothing(&rt, alloc, TEXT, writer);
            assert_ended(
                &rt,
                calls,
                result,
                RunFault::Write,
                &written,
                REPLIES,
                bytes,
            );
        }
    }
}

#[test]
fn run_buffered_ends_at_a_long_line(rt: HostRuntime) -> Result<(), Fail> {
    let alloc = rt.alloc();
    let mut text = vec![in alloc; b'x'; 65_536]?;
    text.push(b'\n')?;
    let longest = text.len();
    text.extend_from_slice(&vec![in alloc; b'x'; 65_537]?)?;
    text.push(b'\n')?;
    let mut written = Vec::new(alloc);
    let result = run_over_nothing(&rt, alloc, text.as_slice(), &mut written);
    assert_same!(rt; result, Err(RunFault::LineTooLong));
    assert_same!(rt; *written.as_slice(), *b"bad\n".as_slice());
    written.clear();
    let result = run_over_nothing(&rt, alloc, text.get(..longest).unwrap_or(b""), &mut written);
    assert_same!(rt; result, Ok(()));
    assert_same!(rt; *written.as_slice(), *b"bad\n".as_slice());
    Ok(())
}

//! The worked run with reloads, where each read or each write fails in turn, over readers that give few bytes a call and
//! writers that take few.

use crate::failing::{FailingReader, FailingWriter, Failure};
use crate::letters::{LETTERS, PREFERENCES, PRIMARY};
use crate::reloads::{CH, joined};
use assertions::assert_same;
use collate_records::records::Records;
use collate_run::run::{self, RunFault};
use collate_run::watched::Watched;
use std::alloc::{AllocError, Global};
use std::io::{self, BufReader, Read, Write};
use std::process::Abort;
use std::test::Fail;

/// The commands, with the record lines after them, and their replies. The last has a line too few.
const COMMANDS: [(&[&[u8]], &[u8]); 14] = [
    (&[b"add ch\n"], b"added\n"),
    (&[b"add cl\n"], b"added\n"),
    (&[b"add ab\n"], b"added\n"),
    (&[b"list\n"], b"names 3\nab\nch\ncl\n"),
    (&[b"add ab\n"], b"duplicate\n"),
    (&[b"between a\tch\n"], b"names 2\nab\nch\n"),
    (&[b"between ch\ta\n"], b"names 0\n"),
    (&[b"reload 16\n", LETTERS, CH], b"reloaded 2\n"),
    (&[b"list\n"], b"names 3\nab\ncl\nch\n"),
    (&[b"reload 1\n", b"w 61 ;\n"], b"refused 1 grammar\n"),
    (&[b"list\n"], b"names 3\nab\ncl\nch\n"),
    (&[b"remove x\n"], b"absent\n"),
    (&[b"add\n"], b"bad\n"),
    (&[b"reload 2\n", b"w 61 ;\n"], b""),
];

/// The input of the run.
fn input(alloc: Global) -> Result<Vec<u8>, AllocError> {
    let mut whole = Vec::new(alloc);
    for (lines, _) in COMMANDS {
        whole.extend_from_slice(&joined(alloc, lines)?)?;
    }
    Ok(whole)
}

/// The replies to the commands that are whole within so many bytes of the input.
fn replies_within(alloc: Global, bytes: usize) -> Result<Vec<u8>, AllocError> {
    let (mut left, mut replies) = (bytes, Vec::new(alloc));
    for (lines, reply) in COMMANDS {
        let length = joined(alloc, lines)?.len();
        if left < length {
            break;
        }
        left -= length;
        replies.extend_from_slice(reply)?;
    }
    Ok(replies)
}

/// How the run ends over a reader and a writer.
fn ended<R: Read + Drop, W: Write + Drop>(
    alloc: Global,
    reader: R,
    writer: W,
) -> Result<Result<(), RunFault>, Fail> {
    let records = Records::read(alloc, LETTERS)?;
    let mut reader = Watched::new(BufReader::new(alloc, reader)?);
    let mut writer = Watched::new(writer);
    Ok(run::run(
        alloc,
        records,
        &PREFERENCES,
        &PRIMARY,
        &mut reader,
        &mut writer,
    ))
}

/// How many calls read a text of so many bytes to its end, which the last of them tells.
fn calls_to_end(length: usize, most: usize) -> usize {
    length.div_ceil(most.max(1)).saturating_add(1)
}

/// Runs over a reader that gives up to so many bytes a call, and fails after so many calls. Each whole command before has its
/// reply, and nothing else is written.
fn assert_reads(
    rt: &impl Abort,
    alloc: Global,
    text: &[u8],
    most: usize,
    calls: usize,
) -> Result<(), Fail> {
    let mut written = Vec::new(alloc);
    let kind = io::ErrorKind::Interrupted;
    let reader = FailingReader {
        text,
        most,
        calls,
        kind,
    };
    let end = ended(alloc, reader, &mut written)?;
    let is_whole = calls >= calls_to_end(text.len(), most);
    let bytes = calls.saturating_mul(most).min(text.len());
    let wanted = if is_whole {
        RunFault::CutReload
    } else {
        RunFault::Read
    };
    assert_same!(rt; end, Err(wanted); (most, calls));
    let replies = replies_within(alloc, bytes)?;
    assert_same!(rt; *written.as_slice(), *replies.as_slice(); (most, calls));
    Ok(())
}

#[test]
fn each_read_fails_in_turn(rt: HostRuntime) -> Result<(), Fail> {
    let alloc = rt.alloc();
    let text = input(alloc)?;
    for most in [16usize, 4096] {
        for calls in 0..=calls_to_end(text.len(), most) {
            assert_reads(&rt, alloc, &text, most, calls)?;
        }
    }
    Ok(())
}

/// Runs over a writer that takes up to so many bytes a call, and fails after so many calls. A first part of the replies is
/// written, each call's bytes and no more; and it answers whether that was all.
fn wrote_all(
    rt: &impl Abort,
    alloc: Global,
    text: &[u8],
    most: usize,
    calls: usize,
    failure: Failure,
) -> Result<bool, Fail> {
    let mut written = Vec::new(alloc);
    let writer = FailingWriter {
        written: &mut written,
        most,
        calls,
        failure,
    };
    let end = ended(alloc, text, writer)?;
    let replies = replies_within(alloc, text.len())?;
    assert!(rt;
        replies.starts_with(&written),
        "{most} bytes a call, after {calls}"
    );
    assert!(rt; written.len() >= calls.min(replies.len()));
    assert!(rt; written.len() <= calls.saturating_mul(most));
    let is_whole = written.len() == replies.len();
    let wanted = if is_whole {
        RunFault::CutReload
    } else {
        RunFault::Write
    };
    assert_same!(rt; end, Err(wanted); (most, calls));
    Ok(is_whole)
}

/// Lets each write fail in turn, until a run meets no failure.
fn assert_writes(
    rt: &impl Abort,
    alloc: Global,
    text: &[u8],
    most: usize,
    failure: Failure,
) -> Result<(), Fail> {
    for calls in 0..200 {
        if wrote_all(rt, alloc, text, most, calls, failure)? {
            return Ok(());
        }
    }
    Err(Fail::from("no run meets no failure"))
}

#[test]
fn each_write_fails_in_turn(rt: HostRuntime) -> Result<(), Fail> {
    let alloc = rt.alloc();
    let text = input(alloc)?;
    assert_writes(&rt, alloc, &text, 3, Failure::NoByte)?;
    let interrupted = Failure::Error(io::ErrorKind::Interrupted);
    assert_writes(&rt, alloc, &text, 16, interrupted)?;
    assert_writes(
        &rt,
        alloc,
        &text,
        4096,
        Failure::Error(io::ErrorKind::Other),
    )
}

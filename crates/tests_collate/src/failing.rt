//! A reader and a writer over memory that take few bytes a call, and fail after some calls; what a run over them ends with.

use assertions::assert_same;
use collate_run::run::RunFault;
use std::io::{self, Read, Write};
use std::process::Abort;

/// How a fake fails.
#[derive(Clone, Copy)]
pub(crate) enum Failure {
    Error(io::ErrorKind),
    NoByte,
}

/// How a reader fails.
pub(crate) const READ_FAILURES: [io::ErrorKind; 2] = [
    io::ErrorKind::Interrupted,
    io::ErrorKind::Other,
];

/// How a writer fails.
pub(crate) const WRITE_FAILURES: [Failure; 3] = [
    Failure::Error(io::ErrorKind::Interrupted),
    Failure::Error(io::ErrorKind::Other),
    Failure::NoByte,
];

/// A reader of a text that gives up to so many bytes a call, and fails after some calls.
#[derive(Drop)]
pub(crate) struct FailingReader<'a> {
    pub(crate) text: &'a [u8],
    pub(crate) most: usize,
    pub(crate) calls: usize,
    pub(crate) kind: io::ErrorKind,
}

impl Read for FailingReader<'_> {
    fn read(&mut self, buf: &mut [u8]) -> io::Result<usize> {
        if self.calls == 0 {
            return Err(io::Error::from(self.kind));
        }
        self.calls -= 1;
        let count = buf.len().min(self.most);
        Read::read(&mut self.text, &mut buf[..count])
    }
}

/// A writer that takes up to so many bytes a call, and fails after some calls.
#[derive(Drop)]
pub(crate) struct FailingWriter<'a> {
    pub(crate) written: &'a mut Vec<u8>,
    pub(crate) most: usize,
    pub(crate) calls: usize,
    pub(crate) failure: Failure,
}

impl Write for FailingWriter<'_> {
    fn write(&mut self, buf: &[u8]) -> io::Result<usize> {
        if self.calls == 0 {
            return match self.failure {
                Failure::Error(kind) => Err(io::Error::from(kind)),
                Failure::NoByte => Ok(0),
            };
        }
        self.calls -= 1;
        let count = buf.len().min(self.most);
        self.written.extend_from_slice(&buf[..count])?;
        Ok(count)
    }

    fn flush(&mut self) -> io::Result<()> {
        Ok(())
    }
}

/// A run that failed after so many calls ended with this fault, and wrote so many bytes of these replies.
pub(crate) fn assert_ended(
    rt: &impl Abort,
    calls: usize,
    ended: Result<(), RunFault>,
    fault: RunFault,
    written: &[u8],
    replies: &[u8],
    bytes: usize,
) {
    assert_same!(rt; ended, Err(fault); calls);
    let wanted = replies.get(..bytes).unwrap_or(b"");
    assert_same!(rt; written.len(), bytes; calls);
    assert_same!(rt; *written, *wanted; calls);
}

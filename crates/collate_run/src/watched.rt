//! A reader or a writer that notes whether a call of it failed, and whether all that was written was flushed.

ghost use Rattle.std.specs.Prelude.{◌≡◌, ◌||◌, ◌&&◌, false, true, is_err, is_ok};
ghost use Rattle.std.specs.Io.{ReadsAtMost, WritesAtMost};
ghost use Rattle.std.specs.Io.KnownBytes.{ReadConsumes, WriteAppends, Keeps};

use std::io::{self, Read, Write};

/// A reader or a writer that notes whether a call of it failed, an interrupted one too, or a write
/// took no byte, and whether all that was written was flushed.
#[derive(Drop)]
pub struct Watched<T> {
    pub(crate) inner: T,
    pub(crate) failed: bool,
    /// Whether no byte was written since the last flush; of a reader it says nothing.
    flushed: bool,
}

impl<T> Watched<T> {
    ghost use Rattle.collate_run.specs.Watched.{watched_inner, watched_failed, watched_flushed};

    /// Watches `inner`; no call of it has failed yet, and nothing was written.
    pub fn new(inner: T) -> Self
        ensures inner { watched_inner result ≡ inner }
        ensures failed { watched_failed result ≡ false }
        ensures flushed { watched_flushed result ≡ true }
    {
        Watched {
            inner,
            failed: false,
            flushed: true,
        }
    }

    /// Whether a call has failed since `new`.
    pub fn failed(&self) -> bool
        ensures { result ≡ watched_failed self.now }
    {
        self.failed
    }

    /// Whether each byte that was written since `new` has been flushed.
    pub fn flushed(&self) -> bool
        ensures { result ≡ watched_flushed self.now }
    {
        self.flushed
    }
}

impl<R: Read> Read for Watched<R> {
    ghost use Rattle.collate_run.specs.Watched.{watched_inner, watched_failed};

    ghost remaining = { λ watched. R.remaining (watched_inner watched) };

    /// Reads once from the reader inside, and notes an error.
    fn read(&mut self, buf: &mut [u8]) -> io::Result<usize>
        ensures bound { ReadsAtMost result buf.new }
        ensures bytes { ReadConsumes (R.remaining (watched_inner self.old)) (R.remaining (watched_inner self.new)) result buf.new }
        ensures failed { watched_failed self.new ≡ watched_failed self.old || is_err result }
    {
        let result = self.inner.read(buf);
        if result.is_err() {
            self.failed = true;
        }
        result
    }
}

impl<W: Write> Write for Watched<W> {
    ghost use Rattle.collate_run.specs.Watched.{watched_inner, watched_failed, watched_flushed, took_none};

    ghost contents = { λ watched. W.contents (watched_inner watched) };

    /// Writes once to the writer inside, and notes an error or a write of no byte, else that it isn't flushed.
    fn write(&mut self, buf: &[u8]) -> io::Result<usize>
        ensures bound { WritesAtMost result buf.now }
        ensures bytes { WriteAppends (W.contents (watched_inner self.old)) (W.contents (watched_inner self.new)) result buf.now }
        ensures failed { watched_failed self.new ≡ watched_failed self.old || took_none result }
        ensures flushed { watched_flushed self.new ≡ watched_flushed self.old && took_none result }
    {
        let result = self.inner.write(buf);
        match &result {
            Ok(0) | Err(_) => self.failed = true,
            Ok(_) => self.flushed = false,
        }
        result
    }

    /// Flushes the writer inside, and notes an error, else that it is flushed.
    fn flush(&mut self) -> io::Result<()>
        ensures bytes { Keeps (W.contents (watched_inner self.old)) (W.contents (watched_inner self.new)) }
        ensures failed { watched_failed self.new ≡ watched_failed self.old || is_err result }
        ensures flushed { watched_flushed self.new ≡ watched_flushed self.old || is_ok result }
    {
        let result = self.inner.flush();
        match &result {
            Ok(()) => self.flushed = true,
            Err(_) => self.failed = true,
        }
        result
    }
}

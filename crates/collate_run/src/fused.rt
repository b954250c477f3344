//! A reader that stays at its end.

use std::io::{self, Read};

/// A reader that isn't asked again once it has told its end: at a terminal, an end that is typed once is the end.
#[derive(Drop)]
pub(crate) struct Fused<R> {
    inner: R,
    is_at_end: bool,
}

impl<R> Fused<R> {
    /// Reads from `inner`, which hasn't told its end yet.
    pub(crate) fn new(inner: R) -> Self {
        Fused {
            inner,
            is_at_end: false,
        }
    }
}

impl<R: Read> Read for Fused<R> {
    /// Reads once from the reader inside, or, at its end, no byte.
    fn read(&mut self, buf: &mut [u8]) -> io::Result<usize> {
        if self.is_at_end || buf.is_empty() {
            return Ok(0);
        }
        let result = self.inner.read(buf);
        if let Ok(0) = &result {
            self.is_at_end = true;
        }
        result
    }
}

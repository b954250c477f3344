//! Sinks of text and of units: what they hold after writes, and sinks that take some writes and then fail, under each call
//! that writes a normal form.

ghost use Rattle.std.specs.Prelude.{◌≡◌, ◌++◌, ⊤, OnOk, OnErr};

use icu_normalizer::sinks::{NormError, TextSink, UnitSink};
use std::alloc::{AllocError, Global};

/// Why a limited sink takes no more.
#[derive(Clone, Copy, Debug)]
pub enum Refused {
    /// It took as many writes as it was to take.
    Full,
    /// Memory was refused.
    Memory,
}

/// A sink that takes some writes, and then fails at each.
pub struct Limited<U> {
    /// How many it takes.
    limit: usize,
    /// How many units it held as each write that it took began.
    starts: Vec<usize>,
    held: Vec<U>,
}

// (let go of as one, and not part by part, so that what owns one is proved sooner)
impl<U: Drop> Drop for Limited<U> {
    fn drop(self) {
        let Limited {
            limit: _,
            starts: _,
            held: _,
        } = self;
    }
}

impl<U: Copy> Limited<U> {
    /// One that holds nothing.
    fn new(alloc: Global, limit: usize) -> Limited<U> {
        Limited {
            limit,
            starts: Vec::new(alloc),
            held: Vec::new(alloc),
        }
    }

    /// Takes what is written, if a write is left.
    fn take(&mut self, units: &[U]) -> Result<(), Refused>
        ensures ok { OnOk result (self.new.held.items ≡ self.old.held.items ++ units.now) }
        ensures err { OnErr result (self.new.held.items ≡ self.old.held.items) }
    {
        if self.starts.len() == self.limit {
            return Err(Refused::Full);
        }
        let start = self.held.len();
        if self.starts.push(start).is_err() {
            return Err(Refused::Memory);
        }
        match self.held.extend_from_slice(units) {
            Ok(()) => Ok(()),
            Err(_) => Err(Refused::Memory),
        }
    }
}

impl TextSink for Limited<u8> {
    type Error = Refused;

    ghost contents = { λ s. s.held.items };

    ghost takes = { λ _ _. ⊤ };

    ghost fails = { λ _ _ _. ⊤ };

    fn write_str(&mut self, text: &str) -> Result<(), Refused> {
        self.take(text.as_bytes())
    }

    fn write_char(&mut self, c: char) -> Result<(), Refused> {
        let mut bytes = [0; 4];
        let text = c.encode_utf8(&mut bytes);
        self.take(text.as_bytes())
    }
}

impl UnitSink for Limited<u16> {
    type Error = Refused;

    ghost contents = { λ s. s.held.items };

    ghost takes = { λ _ _. ⊤ };

    ghost fails = { λ _ _ _. ⊤ };

    fn write_slice(&mut self, units: &[u16]) -> Result<(), Refused> {
        self.take(units)
    }

    fn write_char(&mut self, c: char) -> Result<(), Refused> {
        let mut units = [0; 2];
        let units = c.encode_utf16(&mut units);
        self.take(units)
    }
}

/// Whether a call hands on the error of a sink that takes so many writes, and has given it just these units by then.
fn is_cut<U: Copy + PartialEq, F: Fn(&mut Limited<U>) -> Result<(), NormError<Refused>>>(
    alloc: Global,
    part: &[U],
    writes: usize,
    call: &F,
) -> bool
    requires { F.IsAlwaysCallable call.now }
{
    let mut sink = Limited::new(alloc, writes);
    match call(&mut sink) {
        Err(NormError::Sink(Refused::Full)) => {
            sink.starts.len() == writes && sink.held.as_slice() == part
        }
        _ => false,
    }
}

/// How many writes a call makes, which writes just these units. With a sink that takes fewer it hands on the error of that,
/// and has given it what the whole call had by then. `None` where anything else comes.
pub fn writes_of<U: Copy + PartialEq, F: Fn(&mut Limited<U>) -> Result<(), NormError<Refused>>>(
    alloc: Global,
    want: &[U],
    call: F,
) -> Option<usize>
    requires { F.IsAlwaysCallable call }
{
    let mut whole = Limited::new(alloc, usize::MAX);
    call(&mut whole).ok()?;
    if whole.held.as_slice() != want {
        return None;
    }
    for (writes, start) in whole.starts.iter().enumerate() {
        if !is_cut(alloc, want.get(..*start)?, writes, &call) {
            return None;
        }
    }
    Some(whole.starts.len())
}

#[test]
fn ok_write_str(rt: HostRuntime) -> Result<(), AllocError> {
    let mut sink = String::new(rt.alloc());
    TextSink::write_str(&mut sink, "a\u{e1}")?;
    TextSink::write_str(&mut sink, "b")?;
    assert!(rt; sink.as_str() == "a\u{e1}b");
    Ok(())
}

#[test]
fn ok_write_char_of_text(rt: HostRuntime) -> Result<(), AllocError> {
    let mut sink = String::new(rt.alloc());
    TextSink::write_char(&mut sink, '\u{e1}')?;
    TextSink::write_char(&mut sink, '\u{10330}')?;
    assert!(rt; sink.as_bytes() == b"\xc3\xa1\xf0\x90\x8c\xb0".as_slice());
    Ok(())
}

#[test]
fn ok_write_slice(rt: HostRuntime) -> Result<(), AllocError> {
    let mut sink = Vec::new(rt.alloc());
    sink.write_slice(&[0x61, 0xd800])?;
    sink.write_slice(&[0x62])?;
    assert!(rt; sink.as_slice() == [0x61, 0xd800, 0x62].as_slice());
    Ok(())
}

#[test]
fn ok_write_char_of_units(rt: HostRuntime) -> Result<(), AllocError> {
    let mut sink = Vec::new(rt.alloc());
    sink.write_char('\u{e1}')?;
    sink.write_char('\u{10330}')?;
    assert!(rt; sink.as_slice() == [0xe1, 0xd800, 0xdf30].as_slice());
    Ok(())
}

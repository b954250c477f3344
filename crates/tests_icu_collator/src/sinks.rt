//! What sinks hold when a key was written to them.

ghost use Rattle.std.specs.Prelude.{◌≤◌};

use icu_collator::{CollationKeySink, TooSmall};
use smallvec::SmallVec;
use std::alloc::Global;
use std::collections::VecDeque;

/// Writes a key of three bytes, in two pieces and a byte.
fn write_pieces<S: CollationKeySink>(sink: &mut S) -> Result<S::Output, S::Error>
where
    S::State: Default,
{
    let mut state = S::State::default();
    sink.write(&mut state, b"k")?;
    sink.write(&mut state, b"e")?;
    sink.write_byte(&mut state, b'y')?;
    let output = sink.finish(state)?;
    Ok(output)
}

/// Whether a vector with a byte in it has the key after that.
fn vector_holds_key(alloc: Global) -> bool {
    let mut sink = Vec::new(alloc);
    sink.push(1).is_ok()
        && write_pieces(&mut sink).is_ok()
        && sink.as_slice() == b"\x01key".as_slice()
}

/// Whether an inline vector with a byte in it does, where the key does not fit inline.
fn inline_vector_holds_key(alloc: Global) -> bool {
    let mut sink = SmallVec::<u8, 2>::new(alloc);
    sink.push(1).is_ok()
        && write_pieces(&mut sink).is_ok()
        && sink.as_slice() == b"\x01key".as_slice()
}

/// Whether a queue with a byte in it does.
fn queue_holds_key(alloc: Global) -> bool {
    let mut sink = VecDeque::new(alloc);
    sink.push_back(1).is_ok()
        && write_pieces(&mut sink).is_ok()
        && sink.pop_front() == Some(1)
        && sink.pop_front() == Some(b'k')
        && sink.pop_front() == Some(b'e')
        && sink.pop_front() == Some(b'y')
        && sink.is_empty()
}

#[test]
fn ok_write(rt: HostRuntime) {
    assert!(rt; vector_holds_key(rt.alloc()));
}

#[test]
fn ok_write_byte(rt: HostRuntime) {
    assert!(rt; inline_vector_holds_key(rt.alloc()));
}

#[test]
fn ok_finish(rt: HostRuntime) {
    assert!(rt; queue_holds_key(rt.alloc()));
}

/// Writes the key to a slice of some length, and says what came, and what the slice and a byte after it are then.
fn written(length: usize) -> (Result<usize, TooSmall>, [u8; 5])
    requires { length ≤ 4 }
{
    let mut bytes = [9; 5];
    let mut slice = &mut bytes[..length];
    let outcome = write_pieces(&mut slice);
    (outcome, bytes)
}

#[test]
fn slices_take_keys_that_fit(rt: HostRuntime) {
    assert!(rt; written(4) == (Ok(3), *b"key\x09\x09"));
    assert!(rt; written(3) == (Ok(3), *b"key\x09\x09"));
}

#[test]
fn short_slices_tell_the_whole_length(rt: HostRuntime) {
    assert!(rt; written(2) == (Err(TooSmall::new(3)), *b"ke\x09\x09\x09"));
    assert!(rt; written(0) == (Err(TooSmall::new(3)), *b"\x09\x09\x09\x09\x09"));
}

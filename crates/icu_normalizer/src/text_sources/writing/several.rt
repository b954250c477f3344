//! Several characters on their way to a sink.

ghost use Rattle.std.specs.Prelude.{◌≡◌, ◌≤◌, ◌++◌, length, take, OnOk, OnErr, encode_utf8_all};
ghost use Rattle.icu_normalizer.specs.Sinks.{AddsPrefix, EndsByFailure};
ghost use Rattle.icu_normalizer.specs.Texts.{encode_utf16_all};

use crate::sinks::{NormError, TextSink, UnitSink};

/// Writes characters to a sink of text.
#[inline]
pub(super) fn write_text_chars<S: TextSink>(
    sink: &mut S,
    chars: &[char],
) -> Result<(), NormError<S::Error>>
    ensures ok { OnOk result (S.contents sink.new ≡ S.contents sink.old ++ encode_utf8_all chars.now) }
    ensures err { OnErr result (AddsPrefix (S.contents sink.old) (encode_utf8_all chars.now) (S.contents sink.new)) }
    ensures failure { EndsByFailure S.takes S.fails sink.old result sink.new }
{
    for c in chars {
        if let Err(error) = sink.write_char(*c) {
            return Err(NormError::Sink(error));
        }
    }
    Ok(())
}

/// Writes characters to a sink of units: those of a unit each at the front by one write.
#[inline]
pub(super) fn write_unit_chars<S: UnitSink>(
    sink: &mut S,
    chars: &[char],
) -> Result<(), NormError<S::Error>>
    ensures ok { OnOk result (S.contents sink.new ≡ S.contents sink.old ++ encode_utf16_all chars.now) }
    ensures err { OnErr result (AddsPrefix (S.contents sink.old) (encode_utf16_all chars.now) (S.contents sink.new)) }
    ensures failure { EndsByFailure S.takes S.fails sink.old result sink.new }
{
    let mut units = [0; 64];
    let count = put_units(chars, &mut units);
    if let Err(error) = sink.write_slice(&units[..count]) {
        return Err(NormError::Sink(error));
    }
    write_each(sink, &chars[count..])
}

/// Puts the units of characters of a unit each in a list, as many as are at the front and as have room. The answer is
/// how many.
#[inline]
fn put_units(chars: &[char], units: &mut [u16; 64]) -> usize
    ensures within { result ≤ 64 }
    ensures front { result ≤ length chars.now }
    ensures units { take result units.new ≡ encode_utf16_all (take result chars.now) }
{
    let mut count = 0;
    for c in chars {
        if count == 64 || *c >= '\u{10000}' {
            return count;
        }
        units[count] = *c as u16;
        count += 1;
    }
    count
}

/// Writes characters to a sink of units, one after another.
fn write_each<S: UnitSink>(sink: &mut S, chars: &[char]) -> Result<(), NormError<S::Error>>
    ensures ok { OnOk result (S.contents sink.new ≡ S.contents sink.old ++ encode_utf16_all chars.now) }
    ensures err { OnErr result (AddsPrefix (S.contents sink.old) (encode_utf16_all chars.now) (S.contents sink.new)) }
    ensures failure { EndsByFailure S.takes S.fails sink.old result sink.new }
{
    for c in chars {
        if let Err(error) = sink.write_char(*c) {
            return Err(NormError::Sink(error));
        }
    }
    Ok(())
}

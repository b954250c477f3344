//! Vectors of the Unicode Standard from both ends, and callers as a library above writes them.
ghost use Rattle.std.specs.Prelude.{◌≡◌, IfOk};
ghost use Rattle.std.specs.List.{All};
ghost use Rattle.std.specs.Char.{IsScalar};
ghost use Rattle.icu_normalizer_core.specs.Decoding.{utf8_chars, utf16_chars};

use assertions::assert_same;
use icu_normalizer_core::decoding::{
    Utf8Chars, Utf16Chars, decode_latin1, decode_utf8, decode_utf16,
};
use std::alloc::{AllocError, Global};

/// The characters of UTF-8 bytes, kept.
fn kept_utf8(alloc: Global, bytes: &[u8]) -> Result<Vec<char>, AllocError>
    ensures chars { IfOk result (λ chars. chars.items ≡ utf8_chars bytes.now) }
    ensures scalars { IfOk result (λ chars. All IsScalar chars.items) }
{
    let mut chars = Vec::new(alloc);
    for c in decode_utf8(bytes) {
        chars.push(c)?;
    }
    Ok(chars)
}

/// The characters of UTF-16 units, collected.
fn collected_utf16(alloc: Global, units: &[u16]) -> Result<Vec<char>, AllocError>
    ensures { IfOk result (λ chars. chars.items ≡ utf16_chars units.now) }
{
    decode_utf16(units).collect(alloc)
}

/// Whether bytes read as these characters from the front.
fn reads_utf8(bytes: &[u8], want: &[char]) -> bool {
    decode_utf8(bytes).eq(want.iter().copied())
}

/// Whether they do from the back.
fn reads_utf8_back(bytes: &[u8], want: &[char]) -> bool {
    decode_utf8(bytes).rev().eq(want.iter().copied().rev())
}

/// Whether they are kept as these.
fn keeps_utf8(alloc: Global, bytes: &[u8], want: &[char]) -> bool {
    match kept_utf8(alloc, bytes) {
        Ok(kept) => kept.as_slice() == want,
        Err(_) => false,
    }
}

/// Whether units read as these characters from the front.
fn reads_utf16(units: &[u16], want: &[char]) -> bool {
    decode_utf16(units).eq(want.iter().copied())
}

/// Whether they do from the back.
fn reads_utf16_back(units: &[u16], want: &[char]) -> bool {
    decode_utf16(units).rev().eq(want.iter().copied().rev())
}

/// Whether they are collected as these.
fn collects_utf16(alloc: Global, units: &[u16], want: &[char]) -> bool {
    match collected_utf16(alloc, units) {
        Ok(collected) => collected.as_slice() == want,
        Err(_) => false,
    }
}

/// Bytes, and their characters.
const UTF8: [(&[u8], &[char]); 9] = [
    (b"", &[]),
    (b"\xF0\x90", &['\u{FFFD}']),
    (b"\xED\xA0\x80", &['\u{FFFD}', '\u{FFFD}', '\u{FFFD}']),
    (b"\xC0\xAF", &['\u{FFFD}', '\u{FFFD}']),
    (
        b"\xF4\x90\x80\x80",
        &['\u{FFFD}', '\u{FFFD}', '\u{FFFD}', '\u{FFFD}'],
    ),
    (b"a\xFF", &['a', '\u{FFFD}']),
    (b"a\xEF\xBF\xBD", &['a', '\u{FFFD}']),
    (
        b"Stra\xC3\x9Fe \xF0\x9F\x98\x80",
        &['S', 't', 'r', 'a', 'ß', 'e', ' ', '\u{1F600}'],
    ),
    (
        b"a\xF1\x80\x80\xE1\x80\xC2b\x80c\x80\xBFd",
        &[
            'a', '\u{FFFD}', '\u{FFFD}', '\u{FFFD}', 'b', '\u{FFFD}', 'c', '\u{FFFD}', '\u{FFFD}',
            'd',
        ],
    ),
];

/// The first bytes that don't read so, in one of these ways.
fn first_utf8_read_otherwise(alloc: Global) -> Option<&'static [u8]> {
    for (bytes, want) in UTF8 {
        if !(reads_utf8(bytes, want)
            && reads_utf8_back(bytes, want)
            && keeps_utf8(alloc, bytes, want))
        {
            return Some(bytes);
        }
    }
    None
}

#[test]
fn ok_decode_utf8(rt: HostRuntime) {
    assert_same!(rt; first_utf8_read_otherwise(rt.alloc()), None);
}

/// Units, and their characters.
const UTF16: [(&[u16], &[char]); 7] = [
    (&[], &[]),
    (&[0xDC00, 0xD800], &['\u{FFFD}', '\u{FFFD}']),
    (&[0x61, 0xD800], &['a', '\u{FFFD}']),
    (&[0xD83D, 0xDE00], &['\u{1F600}']),
    (
        &[0xD83D, 0xD83D, 0xDE00, 0xDE00],
        &['\u{FFFD}', '\u{1F600}', '\u{FFFD}'],
    ),
    (
        &[0xD800, 0xDC00, 0xDBFF, 0xDFFF],
        &['\u{10000}', '\u{10FFFF}'],
    ),
    (
        &[0x53, 0x74, 0x72, 0x61, 0xDF, 0x65],
        &['S', 't', 'r', 'a', 'ß', 'e'],
    ),
];

/// The first units that don't read so, in one of these ways.
fn first_utf16_read_otherwise(alloc: Global) -> Option<&'static [u16]> {
    for (units, want) in UTF16 {
        if !(reads_utf16(units, want)
            && reads_utf16_back(units, want)
            && collects_utf16(alloc, units, want))
        {
            return Some(units);
        }
    }
    None
}

#[test]
fn ok_decode_utf16(rt: HostRuntime) {
    assert_same!(rt; first_utf16_read_otherwise(rt.alloc()), None);
}

#[test]
fn ok_decode_latin1(rt: HostRuntime) {
    let street = b"Stra\xDFe";
    assert!(rt; decode_latin1(b"\xE1").eq(['á']));
    assert!(rt; decode_latin1(street).eq("Straße".chars()));
    assert!(rt; decode_latin1(street).rev().eq("eßartS".chars()));
    assert!(rt; decode_latin1(b"").next_back().is_none());
}

/// Whether an iterator of units gives this at its front.
fn gives_front16(chars: &mut Utf16Chars<'_>, wanted: Option<char>) -> bool {
    chars.next() == wanted
}

/// Whether it does at its back.
fn gives_back16(chars: &mut Utf16Chars<'_>, wanted: Option<char>) -> bool {
    chars.next_back() == wanted
}

/// Whether an iterator of units, and a copy of it, have one character left, from either end.
fn have_one_left16(chars: &mut Utf16Chars<'_>, left: char) -> bool {
    match chars.clone() {
        Ok(mut copy) => {
            gives_front16(chars, Some(left))
                && gives_back16(chars, None)
                && gives_back16(&mut copy, Some(left))
                && gives_front16(&mut copy, None)
        }
        Err(_) => false,
    }
}

/// Whether the ends of these units meet: a lone surrogate at each, and one character between.
fn ends_meet16(units: &[u16]) -> bool {
    let mut chars = decode_utf16(units);
    gives_back16(&mut chars, Some('\u{FFFD}'))
        && gives_front16(&mut chars, Some('\u{FFFD}'))
        && have_one_left16(&mut chars, '\u{1F600}')
}

// What is taken from one end is not there at the other.
#[test]
fn ends_of_utf16_meet(rt: HostRuntime) {
    assert!(rt; ends_meet16(&[0xD83D, 0xD83D, 0xDE00, 0xDE00]));
}

/// Whether an iterator of bytes gives this at its front.
fn gives_front8(chars: &mut Utf8Chars<'_>, wanted: Option<char>) -> bool {
    chars.next() == wanted
}

/// Whether it does at its back.
fn gives_back8(chars: &mut Utf8Chars<'_>, wanted: Option<char>) -> bool {
    chars.next_back() == wanted
}

/// Whether an iterator of bytes, and a copy of it, have one character left.
fn have_one_left8(chars: &mut Utf8Chars<'_>, left: char) -> bool {
    match chars.clone() {
        Ok(mut copy) => {
            gives_front8(chars, Some(left))
                && gives_back8(chars, None)
                && gives_front8(&mut copy, Some(left))
                && gives_front8(&mut copy, None)
        }
        Err(_) => false,
    }
}

/// Whether the ends of these bytes meet: two characters from the back, and one that is left.
fn ends_meet8(bytes: &[u8]) -> bool {
    let mut chars = decode_utf8(bytes);
    gives_back8(&mut chars, Some('\u{FFFD}'))
        && gives_back8(&mut chars, Some('a'))
        && have_one_left8(&mut chars, '\u{FFFD}')
}

#[test]
fn ends_of_utf8_meet(rt: HostRuntime) {
    assert!(rt; ends_meet8(b"\xE1\x80a\xF0\x90"));
}

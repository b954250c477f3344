//! The texts that are read, in each encoding.

use std::alloc::Global;

/// Texts that read what the tables say, and special, built-in and unknown characters.
pub const TEXTS: [&str; 17] = [
    "",
    "a",
    "\u{e1}",
    "a\u{323}\u{301}b",
    "\u{e1}\u{323}",
    "\u{1ea1}\u{301}c\u{301}cha",
    "abc",
    "abdec\u{302}\u{301}\u{300}",
    "\u{301}\u{323}aA",
    "\u{ac00}\u{ac01}\u{1100}\u{1161}\u{11a8}",
    "12a3jkm",
    "\u{4e00}\u{4efe}\u{9fff}\u{a000}z",
    "\u{fffe}z\u{fffd}\u{ffff}",
    "\u{fa6c}\u{242ee}\u{10ffff}",
    "\u{340}\u{344}\u{f73}\u{1ea5}",
    "ttat\u{212a}ho",
    "",
];

/// Texts in Latin-1.
pub const LATIN1_TEXTS: [&[u8]; 5] = [b"", b"a", b"\xe1", b"abc\xe1", b"t12\xff"];

/// A text in each encoding.
pub struct Encoded {
    /// In UTF-8.
    pub text: String,
    /// In UTF-16.
    pub units: Vec<u16>,
}

// (let go of as one, and not part by part, so that what owns one is proved sooner)
impl Drop for Encoded {
    fn drop(self) {
        let Encoded { text: _, units: _ } = self;
    }
}

/// Characters in each encoding.
pub fn in_each_encoding(alloc: Global, characters: &[char]) -> Option<Encoded> {
    let mut text = String::new(alloc);
    let mut units = Vec::new(alloc);
    for c in characters {
        text.push(*c).ok()?;
        let mut pair = [0; 2];
        units.extend_from_slice(c.encode_utf16(&mut pair)).ok()?;
    }
    Some(Encoded { text, units })
}

/// The characters of a text.
pub fn characters(alloc: Global, text: &str) -> Option<Vec<char>> {
    text.chars().collect(alloc).ok()
}

/// The characters of a text in Latin-1.
pub fn latin1_characters(alloc: Global, text: &[u8]) -> Option<Vec<char>> {
    text.iter()
        .map(|byte| char::from(*byte))
        .collect(alloc)
        .ok()
}

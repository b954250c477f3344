//! The texts of a file, a line each, in an encoding.

use std::alloc::Global;

/// A text in an encoding.
#[derive(Clone, Copy)]
pub enum Text<'t> {
    /// Known UTF-8.
    Known(&'t str),
    /// Any bytes, which normalisers read as UTF-8.
    Bytes(&'t [u8]),
    /// Any units, which normalisers read as UTF-16.
    Units(&'t [u16]),
}

/// The units that bytes are, the low byte first. A byte that is left over is dropped.
pub fn units(alloc: Global, bytes: &[u8]) -> Option<Vec<u16>> {
    let (pairs, _) = bytes.as_chunks::<2>();
    pairs
        .iter()
        .map(|pair| u16::from_le_bytes(*pair))
        .collect(alloc)
        .ok()
}

/// The lines of a text; `None` where it isn't UTF-8, or memory is refused.
pub fn known_lines(alloc: Global, file: &[u8]) -> Option<Vec<Text<'_>>> {
    let mut texts = Vec::new(alloc);
    for line in str::from_utf8(file).ok()?.lines() {
        texts.push(Text::Known(line)).ok()?;
    }
    Some(texts)
}

/// What stands between the newlines of bytes, before the first and after the last.
pub fn byte_lines(alloc: Global, file: &[u8]) -> Option<Vec<Text<'_>>> {
    let mut texts = Vec::new(alloc);
    for line in file.split(|byte| *byte == 0xa) {
        texts.push(Text::Bytes(line)).ok()?;
    }
    Some(texts)
}

/// The same of units.
pub fn unit_lines(alloc: Global, file: &[u16]) -> Option<Vec<Text<'_>>> {
    let mut texts = Vec::new(alloc);
    for line in file.split(|unit| *unit == 0xa) {
        texts.push(Text::Units(line)).ok()?;
    }
    Some(texts)
}

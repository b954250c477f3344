//! The texts of a question, and its parts.

use std::alloc::Global;

/// The bytes that a word says in hexadecimal; a stroke alone says none.
pub fn bytes(alloc: Global, word: &str) -> Option<Vec<u8>> {
    if word == "-" {
        return Some(Vec::new(alloc));
    }
    hex::decode(alloc, word).ok()
}

/// The units of bytes, the upper byte of each first.
pub fn units(alloc: Global, bytes: &[u8]) -> Option<Vec<u16>> {
    let (pairs, _) = bytes.as_chunks::<2>();
    pairs
        .iter()
        .map(|pair| u16::from_be_bytes(*pair))
        .collect(alloc)
        .ok()
}

/// Bytes in hexadecimal, or a stroke for none.
pub fn shown(alloc: Global, bytes: &[u8]) -> Option<String> {
    if bytes.is_empty() {
        return String::from_str(alloc, "-").ok();
    }
    hex::encode(alloc, bytes).ok()
}

/// The character of a number in hexadecimal.
pub fn character(word: &str) -> Option<char> {
    char::from_u32(u32::from_str_radix(word, 16).ok()?)
}

/// The characters of words, each a number in hexadecimal.
pub fn characters(alloc: Global, words: &str) -> Option<Vec<char>> {
    let mut list = Vec::new(alloc);
    for word in words.split_ascii_whitespace() {
        list.push(character(word)?).ok()?;
    }
    Some(list)
}

/// The two parts of a text before and after the first separator; all of it, and nothing, where there is none.
pub fn halves(text: &str, separator: char) -> (&str, &str) {
    match text.split_once(separator) {
        Some(halves) => halves,
        None => (text, ""),
    }
}

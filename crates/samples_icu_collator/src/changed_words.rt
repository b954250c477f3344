//! Another word of one character in a trie.

use icu_codepointtrie::{CodePointTrie, CodePointTrieBuilder, TrieType};
use std::alloc::Global;

/// The characters whose words are changed.
pub const CHARACTERS: [char; 4] = ['a', '\u{e1}', '\u{301}', '\u{ac00}'];

/// The same words, but for that of one character. Each is written, since a trie takes no write of its default.
pub fn with_word(
    alloc: Global,
    trie: &CodePointTrie<'_, u32>,
    c: char,
    word: u32,
) -> Option<CodePointTrie<'static, u32>> {
    let mut map = CodePointTrieBuilder::new(alloc, u32::MAX, 0, TrieType::Small).ok()?;
    for range in trie.iter_ranges() {
        map.set_range_value(range.range, range.value).ok()?;
    }
    map.set_value(c as u32, word).ok()?;
    map.build().ok()
}

/// The same words, with a bit of that of one character inverted.
pub fn with_bit(
    alloc: Global,
    trie: &CodePointTrie<'_, u32>,
    c: char,
    bit: u32,
) -> Option<CodePointTrie<'static, u32>> {
    let mask = 1u32.checked_shl(bit)?;
    with_word(alloc, trie, c, trie.get(c) ^ mask)
}

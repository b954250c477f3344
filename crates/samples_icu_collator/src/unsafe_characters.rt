//! The characters at which no reading begins, by what tables mean: marks, characters that stand after the first of a text
//! that is recorded or have a prefix that is, and characters whose full list begins with one of these.

use icu_char16trie::read_units;
use icu_collator_core::tables::{CollationData, CollationTables};
use icu_normalizer_core::canonical::CanonicalTables;
use icu_normalizer_core::decoding::decode_utf16;
use samples_icu_normalizer::canonical::{class_of, decomposed};
use std::alloc::Global;

/// The word by which a tailoring leaves a character to the root.
const FALLBACK: u32 = 0xc0;

/// The most units that a key of a context has.
const MOST_UNITS: usize = 14;

/// Tables of a collation, with the canonical ones.
#[derive(Clone, Copy)]
pub struct Both<'t> {
    /// The canonical tables.
    pub canonical: &'t CanonicalTables<'t>,
    /// Those of the collation.
    pub collation: &'t CollationTables<'t>,
}

/// Whether a word names a context: of prefixes, or of texts.
fn has_context(word: u32) -> bool {
    let low = word & 0xff;
    low == 0xc8 || low == 0xc9
}

/// The two units from an index on as a word.
fn word_at(source: &CollationData<'_>, index: usize) -> Option<u32> {
    let upper = source.contexts.get(index)?;
    let lower = source.contexts.get(index.wrapping_add(1))?;
    Some((u32::from(upper) << 16) | u32::from(lower))
}

/// Appends the characters of the keys of the context that a word names.
fn push_keys(
    alloc: Global,
    source: &CollationData<'_>,
    word: u32,
    unsafe_characters: &mut Vec<char>,
) -> Option<()> {
    let contexts = &source.contexts;
    let index = (word >> 13) as usize;
    let units = contexts.subslice(index.wrapping_add(2)..contexts.len())?;
    let keys = read_units(alloc, &units, MOST_UNITS).ok()?;
    for (key, _) in keys.iter() {
        for c in decode_utf16(key.as_slice()) {
            unsafe_characters.push(c).ok()?;
        }
    }
    Some(())
}

/// Appends a character that has prefixes, and those that stand after it in texts.
fn push_of_word(
    alloc: Global,
    source: &CollationData<'_>,
    c: char,
    word: u32,
    unsafe_characters: &mut Vec<char>,
) -> Option<()> {
    let mut word = word;
    if word & 0xff == 0xc8 {
        unsafe_characters.push(c).ok()?;
        word = word_at(source, (word >> 13) as usize)?;
    }
    if word & 0xff == 0xc9 {
        push_keys(alloc, source, word, unsafe_characters)?;
    }
    Some(())
}

/// Whether the word of a character stands in a table of its own: that of diacritics, or that of jamo.
fn is_apart(both: Both<'_>, c: char) -> bool {
    let count = both.collation.diacritics.secondaries.len();
    let is_diacritic = match (c as u32).checked_sub(0x300) {
        Some(index) => (index as usize) < count && class_of(both.canonical, c) != 0,
        None => false,
    };
    is_diacritic || ('\u{1100}' <= c && c <= '\u{11ff}')
}

/// Whether the tailoring says something of a character.
fn is_tailored(both: Both<'_>, c: char) -> bool {
    match &both.collation.tailoring {
        Some(tailoring) => tailoring.trie.get(c) != FALLBACK,
        None => false,
    }
}

/// Appends what the words of data with contexts make unsafe: those of the root, or of a tailoring, which the root's give way to.
fn push_of_data(
    alloc: Global,
    both: Both<'_>,
    source: &CollationData<'_>,
    is_root: bool,
    unsafe_characters: &mut Vec<char>,
) -> Option<()> {
    for range in source.trie.iter_ranges() {
        if has_context(range.value) {
            for code_point in range.range {
                let c = char::from_u32(code_point)?;
                let counts = !is_apart(both, c) && !(is_root && is_tailored(both, c));
                if counts {
                    push_of_word(alloc, source, c, range.value, unsafe_characters)?;
                }
            }
        }
    }
    Some(())
}

/// The characters that stand after the first of a recorded text, or have a recorded prefix.
pub fn unsafe_by_records(alloc: Global, both: Both<'_>) -> Option<Vec<char>> {
    let mut unsafe_characters = Vec::new(alloc);
    push_of_data(
        alloc,
        both,
        &both.collation.root,
        true,
        &mut unsafe_characters,
    )?;
    if let Some(tailoring) = &both.collation.tailoring {
        push_of_data(alloc, both, tailoring, false, &mut unsafe_characters)?;
    }
    Some(unsafe_characters)
}

/// Whether no reading begins at a character that is read as itself.
fn is_unsafe_by_records(both: Both<'_>, unsafe_characters: &[char], c: char) -> bool {
    class_of(both.canonical, c) != 0 || unsafe_characters.contains(&c)
}

/// Whether no reading begins at a character.
pub fn is_plainly_unsafe(
    alloc: Global,
    both: Both<'_>,
    unsafe_characters: &[char],
    c: char,
) -> Option<bool> {
    let list = decomposed(alloc, both.canonical, &[c])?;
    let first = *list.first()?;
    Some(
        is_unsafe_by_records(both, unsafe_characters, c)
            || is_unsafe_by_records(both, unsafe_characters, first),
    )
}

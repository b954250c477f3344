//! What tables say of texts and prefixes, looked up one by one.

ghost use Rattle.std.specs.Prelude.{◌<◌, ◌^◌};

use icu_char16trie::{Char16Trie, TrieResult};
use icu_collator_core::tables::{CollationData, CollationTables};
use icu_normalizer_core::canonical::CanonicalBorrowed;
use std::alloc::Global;

/// The word by which a tailoring leaves a character to the root.
const FALLBACK: u32 = 0xc0;

/// The bits below a primary: common weights.
const COMMON_REST: u64 = 0x0500_0500;

/// Tables, with their canonical data.
#[derive(Clone, Copy)]
pub struct Tables<'t> {
    /// The canonical data.
    pub canonical: CanonicalBorrowed<'t>,
    /// The tables.
    pub tables: &'t CollationTables<'t>,
}

/// A word, and the data in whose lists it names indices.
#[derive(Clone, Copy)]
struct Entry<'t> {
    word: u32,
    source: &'t CollationData<'t>,
}

/// The tag of a word; `None` where it is the bytes of an element.
fn tag_of(word: u32) -> Option<u32> {
    if word & 0xff < 0xc0 {
        return None;
    }
    Some(word & 15)
}

/// The index that a word names.
fn index_of(word: u32) -> usize
    ensures { result < 2 ^ 19 }
{
    (word >> 13) as usize
}

/// The length of the list that a word names.
fn length_of(word: u32) -> usize
    ensures { result < 2 ^ 5 }
{
    ((word >> 8) & 31) as usize
}

/// The element that a word states by itself.
fn stated(word: u32) -> Option<u64> {
    let bits = u64::from(word);
    match tag_of(word) {
        None => Some(((bits >> 16) << 48) | ((bits & 0xff00) << 16) | ((bits & 0xff) << 8)),
        Some(1) => Some((u64::from(word & 0xffff_ff00) << 32) | COMMON_REST),
        Some(2) => Some(u64::from(word & 0xffff_ff00)),
        _ => None,
    }
}

/// The elements that a list has from an index on.
fn unpacked(alloc: Global, source: &CollationData<'_>, word: u32) -> Option<Vec<u64>> {
    let mut elements = Vec::new(alloc);
    for i in 0..length_of(word) {
        elements.push(source.ces.get(index_of(word) + i)?).ok()?;
    }
    Some(elements)
}

/// The elements that the words of a list state from an index on; a word of no element adds none.
fn packed(alloc: Global, source: &CollationData<'_>, word: u32) -> Option<Vec<u64>> {
    let mut elements = Vec::new(alloc);
    for i in 0..length_of(word) {
        let word = source.ce32s.get(index_of(word) + i)?;
        if word != 0 {
            elements.push(stated(word)?).ok()?;
        }
    }
    Some(elements)
}

/// The list of one element.
fn alone(alloc: Global, element: u64) -> Option<Vec<u64>> {
    let mut elements = Vec::new(alloc);
    elements.push(element).ok()?;
    Some(elements)
}

/// The primary that an entry of a range gives to a character; a byte below the lowest counts as that.
fn moved_primary(bits: u64, c: char) -> Option<u32> {
    let primary = bits >> 32;
    let steps = u64::from(c as u32).checked_sub((bits >> 8) & 0x1f_ffff)?;
    let (least, size) = if bits & 0x80 == 0 { (2, 254) } else { (4, 251) };
    let third = ((primary >> 8) & 0xff).saturating_sub(2) + steps * (bits & 0x7f);
    let second = ((primary >> 16) & 0xff).saturating_sub(least) + third / 254;
    let lead = (primary >> 24) & 0xff;
    let moved = (lead << 24) | ((least + second % size) << 16) | ((2 + third % 254) << 8);
    u32::try_from(moved).ok()
}

/// The primary of a jamo, or the implicit one.
fn unranged_primary(c: char) -> u32 {
    let code = c as u32;
    if 0x1100 <= code && code <= 0x11ff {
        let i = code - 0x1100;
        return (0xfd << 24) | ((4 + i / 128) << 16) | ((2 + i % 128) << 8);
    }
    let x = u64::from(code) + 1;
    let bytes = ((4 + x / 18 / 254 % 251) << 16) | ((2 + x / 18 % 254) << 8) | (2 + x % 18 * 14);
    (0xfe << 24) | (bytes & 0xff_ffff) as u32
}

/// What a trie has for characters, one after another.
fn followed(trie: &Char16Trie<'_>, characters: &[char]) -> TrieResult {
    let mut cursor = trie.iter();
    let mut answer = TrieResult::NoMatch;
    for c in characters {
        answer = cursor.next(*c);
    }
    answer
}

/// The word that an answer has.
fn word_of(answer: TrieResult) -> Option<u32> {
    match answer {
        TrieResult::FinalValue(word) => Some(word.cast_unsigned()),
        TrieResult::Intermediate(word) => Some(word.cast_unsigned()),
        _ => None,
    }
}

impl<'t> Entry<'t> {
    /// The same with another word.
    fn with(self, word: u32) -> Entry<'t> {
        Entry {
            word,
            source: self.source,
        }
    }

    /// The default word of the context that the word names.
    fn default_word(self) -> Option<Entry<'t>> {
        let upper = self.source.contexts.get(index_of(self.word))?;
        let lower = self.source.contexts.get(index_of(self.word) + 1)?;
        Some(self.with((u32::from(upper) << 16) | u32::from(lower)))
    }

    /// The word of a character with nothing before it.
    fn unprefixed(self) -> Option<Entry<'t>> {
        if tag_of(self.word) == Some(8) {
            return self.default_word();
        }
        Some(self)
    }

    /// The word of a character with nothing before or after it.
    fn alone(self) -> Option<Entry<'t>> {
        let entry = self.unprefixed()?;
        match tag_of(entry.word) {
            Some(9) => entry.default_word(),
            Some(10) => Some(entry.with(entry.source.ce32s.get(index_of(entry.word))?)),
            _ => Some(entry),
        }
    }

    /// The elements of the word; `None` where it records none.
    fn elements(self, alloc: Global) -> Option<Vec<u64>> {
        if self.word == 0 {
            return Some(Vec::new(alloc));
        }
        match tag_of(self.word) {
            Some(5) => packed(alloc, self.source, self.word),
            Some(6) => unpacked(alloc, self.source, self.word),
            _ => alone(alloc, stated(self.word)?),
        }
    }

    /// The word of what a context has for characters in the order in which they are followed.
    fn found(self, characters: &[char]) -> Option<Entry<'t>> {
        let contexts = &self.source.contexts;
        let units = contexts.subslice(index_of(self.word) + 2..contexts.len())?;
        let answer = followed(&Char16Trie::new(units), characters);
        Some(self.with(word_of(answer)?))
    }
}

impl<'t> Tables<'t> {
    /// Whether the metadata have a bit.
    pub fn has_bit(&self, bit: u32) -> bool {
        self.tables.metadata.bits & bit != 0
    }

    /// The word of the tailoring, unless it leaves the character to the root.
    fn tailored(&self, c: char) -> Entry<'t> {
        if let Some(source) = &self.tables.tailoring {
            let word = source.trie.get(c);
            if word != FALLBACK {
                return Entry { word, source };
            }
        }
        let source = &self.tables.root;
        Entry {
            word: source.trie.get(c),
            source,
        }
    }

    /// The word that counts for a character.
    fn entry(&self, c: char) -> Entry<'t> {
        let code = c as u32;
        let other = self.tailored(c);
        let root = Entry {
            word: 0,
            source: &self.tables.root,
        };
        if code >= 0x300 && self.canonical.class(c) != 0 {
            if let Some(secondary) = self
                .tables
                .diacritics
                .secondaries
                .get((code - 0x300) as usize)
            {
                return root.with((u32::from(secondary) << 16) | 0x5c2);
            }
        }
        if 0x1100 <= code && code <= 0x11ff {
            if let Some(word) = self.tables.jamo.ce32s.get((code - 0x1100) as usize) {
                return root.with(word);
            }
        }
        other
    }

    /// The value of a digit.
    pub fn digit(&self, c: char) -> Option<u32> {
        let entry = self.entry(c);
        if tag_of(entry.word) != Some(10) {
            return None;
        }
        Some((entry.word >> 8) & 15)
    }

    /// The elements that are recorded of a character after a prefix.
    fn prefixed(&self, alloc: Global, prefix: &[char], c: char) -> Option<Vec<u64>> {
        let entry = self.entry(c);
        if tag_of(entry.word) != Some(8) {
            return None;
        }
        let nearest: Vec<char> = prefix.iter().rev().copied().collect(alloc).ok()?;
        entry.found(nearest.as_slice())?.elements(alloc)
    }

    /// The elements that are recorded of a longer text.
    fn longer(&self, alloc: Global, c: char, behind: &[char]) -> Option<Vec<u64>> {
        let entry = self.entry(c).unprefixed()?;
        if tag_of(entry.word) != Some(9) {
            return None;
        }
        entry.found(behind)?.elements(alloc)
    }

    /// The elements that are recorded of a text after a prefix.
    pub fn recorded(&self, alloc: Global, prefix: &[char], text: &[char]) -> Option<Vec<u64>> {
        match (prefix, text) {
            ([], [c]) => self.entry(*c).alone()?.elements(alloc),
            (_, [c]) => self.prefixed(alloc, prefix, *c),
            ([], [c, behind @ ..]) => self.longer(alloc, *c, behind),
            _ => None,
        }
    }

    /// Whether a text without prefix is recorded.
    pub fn is_text(&self, alloc: Global, text: &[char]) -> bool {
        self.recorded(alloc, &[], text).is_some()
    }

    /// The element of a character without record.
    fn own(&self, c: char) -> Option<u64> {
        let entry = self.entry(c).alone()?;
        let primary = match tag_of(entry.word) {
            Some(14) => moved_primary(entry.source.ces.get(index_of(entry.word))?, c)?,
            _ => unranged_primary(c),
        };
        Some((u64::from(primary) << 32) | COMMON_REST)
    }

    /// The elements of a text: those that are recorded, or its character's own.
    pub fn elements_of_text(&self, alloc: Global, text: &[char]) -> Option<Vec<u64>> {
        match self.recorded(alloc, &[], text) {
            Some(elements) => Some(elements),
            None => alone(alloc, self.own(*text.first()?)?),
        }
    }
}

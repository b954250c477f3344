//! The data of a records file: of its lines those of classes and mappings, and a mapper table, by lines `uts46 C KIND`, KIND one
//! of `valid`, `ignored`, `disallowed` and `mapped D [E..]`, and `uts46 others KIND` for characters of which no line says
//! anything; with no such line these are valid.

use icu_codepointtrie::{CodePointTrieBuilder, TrieType};
use icu_normalizer_core::builder::CanonicalDataBuilder;
use icu_normalizer_core::provider::Uts46Tables;
use icu_packed_vector::PackedVec;
use samples_icu_normalizer::held::{Held, provider_of};
use std::alloc::Global;

/// The greatest number of characters that one is mapped to.
const LIST_LIMIT: usize = 31;

/// How many characters a file may name: all.
const CHARACTER_LIMIT: usize = 0x110000;

/// The character of a number in hexadecimal digits.
fn character(word: &str) -> Option<char> {
    char::from_u32(u32::from_str_radix(word, 16).ok()?)
}

/// Adds the characters that words are to a list, if each is one.
fn add_characters(list: &mut Vec<char>, words: &[&str]) -> Option<()> {
    for word in words {
        list.push(character(word)?).ok()?;
    }
    Some(())
}

/// Gives a builder the compatibility mapping of a character to one, and those that words are.
fn give_compatibility(
    alloc: Global,
    builder: &mut CanonicalDataBuilder,
    (c, first): (char, char),
    words: &[&str],
) -> Option<()> {
    let mut others = Vec::new(alloc);
    add_characters(&mut others, words)?;
    builder.kmap(c, first, &others).ok()
}

/// Gives a builder what a line `class C N`, `map C D [E] [x]` or `kmap C D [E..]` says; with an x the two don't compose. Lines
/// of other kinds are passed over.
fn give(alloc: Global, builder: &mut CanonicalDataBuilder, words: &[&str]) -> Option<()> {
    let [kind, c, value, others @ ..] = words else {
        return Some(());
    };
    match *kind {
        "class" => builder.class(character(c)?, value.parse::<u8>().ok()?).ok(),
        "map" => {
            let second = others.first().and_then(|word| character(word));
            let is_composed = others.last() != Some(&"x");
            builder
                .map(character(c)?, character(value)?, second, is_composed)
                .ok()
        }
        "kmap" => {
            let first = character(value)?;
            give_compatibility(alloc, builder, (character(c)?, first), others)
        },
        _ => Some(()),
    }
}

/// Gives a builder what the lines say.
fn give_lines(alloc: Global, builder: &mut CanonicalDataBuilder, records: &str) -> Option<()> {
    for line in records.lines() {
        let words: Vec<&str> = line.split_ascii_whitespace().collect(alloc).ok()?;
        give(alloc, builder, words.as_slice())?;
    }
    Some(())
}

/// The word of a character of a kind that is mapped to nothing.
fn word_of_kind(kind: &str) -> Option<u32> {
    match kind {
        "valid" => Some(0),
        "ignored" => Some(1),
        "disallowed" => Some(2),
        _ => None,
    }
}

/// The word of characters of which no line says anything.
fn word_of_others(records: &str) -> Option<u32> {
    for line in records.lines() {
        if let Some(kind) = line.strip_prefix("uts46 others ") {
            return word_of_kind(kind);
        }
    }
    Some(0)
}

/// The mapper table so far.
#[derive(Drop)]
struct Mapping {
    /// The words of characters.
    words: CodePointTrieBuilder<u32>,
    /// What characters are mapped to, list after list.
    scalars: Vec<char>,
}

impl Mapping {
    /// Adds a list of characters; the answer is the word of a character that is mapped to it.
    fn add_list(&mut self, list: &[&str]) -> Option<u32> {
        if list.is_empty() || list.len() > LIST_LIMIT {
            return None;
        }
        let index = u32::try_from(self.scalars.len()).ok()?;
        let count = u32::try_from(list.len()).ok()?;
        add_characters(&mut self.scalars, list)?;
        Some(
            index
                .checked_mul(0x2000)?
                .checked_add(count.checked_mul(0x100)?)?
                .checked_add(3)?,
        )
    }

    /// Takes what a line says of a character, and passes over all other lines.
    fn give(&mut self, words: &[&str]) -> Option<()> {
        let ["uts46", c, kind, list @ ..] = words else {
            return Some(());
        };
        if *c == "others" {
            return Some(());
        }
        let word = if *kind == "mapped" {
            self.add_list(list)?
        } else {
            word_of_kind(kind)?
        };
        self.words.set_value(character(c)? as u32, word).ok()
    }
}

/// The mapper table that lines state.
fn mapper_table(alloc: Global, records: &str) -> Option<Uts46Tables<'static>> {
    let others = word_of_others(records)?;
    let words = CodePointTrieBuilder::new(alloc, others, 0, TrieType::Small).ok()?;
    let mut mapping = Mapping {
        words,
        scalars: Vec::new(alloc),
    };
    for line in records.lines() {
        let words: Vec<&str> = line.split_ascii_whitespace().collect(alloc).ok()?;
        mapping.give(words.as_slice())?;
    }
    let trie = mapping.words.build().ok()?;
    let scalars24 = PackedVec::from_slice(alloc, &mapping.scalars).ok()?;
    Some(Uts46Tables { trie, scalars24 })
}

/// A provider of the data that a records file states. It has no compatibility or mapper tables where these can't be built.
pub fn provider(alloc: Global, records: &str) -> Option<Held<'static>> {
    let mut builder = CanonicalDataBuilder::new_within(alloc, CHARACTER_LIMIT);
    give_lines(alloc, &mut builder, records)?;
    let mut held = provider_of(builder.build().ok()?);
    held.nfkd = builder.build_nfkd().ok();
    held.uts46 = mapper_table(alloc, records);
    Some(held)
}

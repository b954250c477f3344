//! The mapper of domain names over the canonical tables of the worked rows, and of a letter with a diaeresis.

use crate::calls::are_chars;
use assertions::assert_same;
use icu_codepointtrie::{
    CodePointTrie, CodePointTrieBuilder, CodePointTrieBuilderError, CodePointTrieHeader, TrieType,
};
use icu_normalizer::uts46::{Uts46Mapper, Uts46MapperBorrowed};
use icu_normalizer_core::canonical::CanonicalFault;
use icu_normalizer_core::provider::{DataError, TableName, Uts46Tables};
use icu_packed_vector::PackedVec;
use samples_icu_normalizer::held::{Held, letters, provider_of};
use samples_icu_normalizer::tables::{PAIRS, STEPS, tables};
use std::alloc::{AllocError, Global};

/// The words of a space, A, a soft hyphen, A with a diaeresis, alpha and a ligature: disallowed, mapped, ignored, and
/// mapped to two, to a mark and to two characters.
const WORDS: [(u32, u32); 6] = [
    (0x20, 2),
    (0x41, 0x103),
    (0xad, 1),
    (0xc4, 0x6203),
    (0x3b1, 0xa103),
    (0xfb01, 0x2203),
];

/// Words of none of the forms: one with no meaning, a list of no character, a list past the six characters, and one that
/// ends there.
const BAD_WORDS: [(u32, u32); 4] = [(0x10_ffff, 4), (0x61, 3), (0xe000, 0xc103), (0x61, 0xa203)];

/// A text, what `map_normalize` gives of it, and what `normalize_validate` does, as an independent reading of the
/// definitions gives them.
const ROWS: [(&str, &str, &str); 22] = [
    ("", "", ""),
    (" ", "\u{fffd}", "\u{fffd}"),
    ("A\u{ad}\u{301}", "\u{e1}", "a\u{fffd}\u{301}"),
    ("ab", "ab", "ab"),
    ("A\u{ad} b", "a\u{fffd}b", "a\u{fffd}\u{fffd}b"),
    ("\u{ad}\u{ad}", "", "\u{fffd}\u{fffd}"),
    ("\u{c4}", "\u{e4}", "\u{e4}"),
    ("\u{fb01}A", "fia", "fia"),
    ("A\u{308}", "\u{e4}", "\u{e4}"),
    ("A\u{301}", "\u{e1}", "\u{e1}"),
    ("A\u{ad}\u{308}", "\u{e4}", "a\u{fffd}\u{308}"),
    (
        "A\u{308}\u{ad}\u{301}",
        "\u{e4}\u{301}",
        "\u{e4}\u{fffd}\u{301}",
    ),
    (
        " A\u{323}\u{301}",
        "\u{fffd}\u{1ea1}\u{301}",
        "\u{fffd}\u{1ea1}\u{301}",
    ),
    (
        "a\u{ad}\u{323}\u{308}",
        "\u{1ea1}\u{308}",
        "a\u{fffd}\u{323}\u{308}",
    ),
    (
        "\u{ac00}\u{ad}\u{11a8}",
        "\u{ac01}",
        "\u{ac00}\u{fffd}\u{11a8}",
    ),
    (
        "\u{1100}\u{ad}\u{1161}",
        "\u{ac00}",
        "\u{1100}\u{fffd}\u{1161}",
    ),
    (
        "\u{3b1}A\u{3b1}\u{301}",
        "\u{323}\u{1ea1}\u{301}",
        "\u{323}\u{1ea1}\u{301}",
    ),
    ("\u{344}A", "\u{308}\u{301}a", "\u{308}\u{301}a"),
    ("\u{c4}\u{323}", "\u{1ea1}\u{308}", "\u{1ea1}\u{308}"),
    (
        "A\u{302}\u{ad}\u{3b1}",
        "\u{1ea1}\u{302}",
        "a\u{302}\u{fffd}\u{323}",
    ),
    ("\u{e1}\u{3b1}", "\u{1ea1}\u{301}", "\u{1ea1}\u{301}"),
    ("\u{fb01}\u{c4}\u{ad}", "fi\u{e4}", "fi\u{e4}\u{fffd}"),
];

/// Writes words to a map.
fn set_words(
    map: &mut CodePointTrieBuilder<u32>,
    words: &[(u32, u32)],
) -> Result<(), CodePointTrieBuilderError> {
    for (code_point, word) in words {
        map.set_value(*code_point, *word)?;
    }
    Ok(())
}

/// The words of characters, with others for some; a character of which nothing is said is valid. `None` where memory is
/// refused.
fn trie(alloc: Global, words: &[(u32, u32)]) -> Option<CodePointTrie<'static, u32>> {
    let mut map = CodePointTrieBuilder::new(alloc, 0, 0, TrieType::Small).ok()?;
    set_words(&mut map, &WORDS).ok()?;
    set_words(&mut map, words).ok()?;
    map.build().ok()
}

/// A trie of valid characters, in which those from U+1000 to U+1FFF have no cell.
fn trie_without_cells(alloc: Global) -> Option<CodePointTrie<'static, u32>> {
    let header = CodePointTrieHeader {
        high_start: 0x2000,
        shifted12_high_start: 2,
        index3_null_offset: 0xffff,
        data_null_offset: 0xf_ffff,
        null_value: 0,
        trie_type: TrieType::Small,
    };
    let index = PackedVec::from_slice(alloc, &[0u16; 64]).ok()?;
    let cells = PackedVec::from_slice(alloc, &[0u32; 66]).ok()?;
    CodePointTrie::try_new(header, index, cells).ok()
}

/// A mapper table of these words.
fn packed(
    alloc: Global,
    trie: CodePointTrie<'static, u32>,
) -> Result<Uts46Tables<'static>, AllocError> {
    let scalars24 = PackedVec::from_slice(alloc, &['a', 'f', 'i', 'a', '\u{308}', '\u{323}'])?;
    Ok(Uts46Tables { trie, scalars24 })
}

/// A provider of the letters and of such a mapper table.
fn provider(alloc: Global, trie: CodePointTrie<'static, u32>) -> Option<Held<'static>> {
    let mapping = packed(alloc, trie).ok()?;
    let mut held = letters(alloc)?;
    held.uts46 = Some(mapping);
    Some(held)
}

/// The same of the words above and these.
fn provider_of_words(alloc: Global, words: &[(u32, u32)]) -> Option<Held<'static>> {
    provider(alloc, trie(alloc, words)?)
}

/// Whether `map_normalize` gives this of a text.
fn maps_to(alloc: Global, mapper: Uts46MapperBorrowed<'_>, text: &str, want: &str) -> bool {
    are_chars(mapper.map_normalize(alloc, text.chars()), want)
}

/// Whether `normalize_validate` does.
fn validates_to(alloc: Global, mapper: Uts46MapperBorrowed<'_>, text: &str, want: &str) -> bool {
    are_chars(mapper.normalize_validate(alloc, text.chars()), want)
}

/// A call of a mapper.
#[derive(Clone, Copy)]
enum Call {
    MapNormalize,
    NormalizeValidate,
}

/// Whether a call gives what it should of a row.
fn gives(
    alloc: Global,
    mapper: Uts46MapperBorrowed<'_>,
    call: Call,
    (text, mapped, validated): (&str, &str, &str),
) -> bool {
    match call {
        Call::MapNormalize => maps_to(alloc, mapper, text, mapped),
        Call::NormalizeValidate => validates_to(alloc, mapper, text, validated),
    }
}

/// Whether it does so of each row.
fn gives_rows(alloc: Global, mapper: Uts46MapperBorrowed<'_>, call: Call) -> bool {
    for row in ROWS {
        if !gives(alloc, mapper, call, row) {
            return false;
        }
    }
    true
}

/// The same by a mapper over a provider's tables.
fn has_rows(alloc: Global, held: &Held<'_>, call: Call) -> bool {
    match Uts46Mapper::try_new(alloc, held) {
        Ok(mapper) => gives_rows(alloc, mapper.as_borrowed(), call),
        Err(_) => false,
    }
}

/// The same by one over the letters and the mapper table.
fn mapper_has_rows(alloc: Global, call: Call) -> bool {
    match provider_of_words(alloc, &[]) {
        Some(held) => has_rows(alloc, &held, call),
        None => false,
    }
}

#[test]
fn ok_map_normalize(rt: HostRuntime) {
    assert!(rt; mapper_has_rows(rt.alloc(), Call::MapNormalize));
}

#[test]
fn ok_normalize_validate(rt: HostRuntime) {
    assert!(rt; mapper_has_rows(rt.alloc(), Call::NormalizeValidate));
}

/// Whether there is no mapper over a provider's tables for this reason, or there is one where it is `None`.
fn is_judged(alloc: Global, held: &Held<'_>, expected: Option<DataError>) -> bool {
    match Uts46Mapper::try_new(alloc, held) {
        Ok(_) => expected.is_none(),
        Err(refusal) => expected == Some(refusal),
    }
}

/// Whether it is so of a provider with these words besides.
fn words_are_judged(alloc: Global, words: &[(u32, u32)], expected: Option<DataError>) -> bool {
    match provider_of_words(alloc, words) {
        Some(held) => is_judged(alloc, &held, expected),
        None => false,
    }
}

#[test]
fn ok_try_new(rt: HostRuntime) {
    assert!(rt; words_are_judged(rt.alloc(), &[], None));
}

const DAMAGED: Option<DataError> = Some(DataError::Invalid(TableName::Uts46));

/// The first bad word that is taken.
fn first_taken(alloc: Global) -> Option<(u32, u32)> {
    for word in BAD_WORDS {
        if !words_are_judged(alloc, &[word], DAMAGED) {
            return Some(word);
        }
    }
    None
}

#[test]
fn words_that_are_refused(rt: HostRuntime) {
    assert_same!(rt; first_taken(rt.alloc()), None);
}

/// A provider of the letters and of a mapper table that lacks some characters.
fn provider_without_cells(alloc: Global) -> Option<Held<'static>> {
    provider(alloc, trie_without_cells(alloc)?)
}

/// Whether there is no mapper over it for this reason.
fn without_cells_is_judged(alloc: Global, expected: Option<DataError>) -> bool {
    match provider_without_cells(alloc) {
        Some(held) => is_judged(alloc, &held, expected),
        None => false,
    }
}

#[test]
fn characters_without_a_cell(rt: HostRuntime) {
    assert!(rt; without_cells_is_judged(rt.alloc(), DAMAGED));
}

/// A provider whose canonical words are wrong about U+0300, and whose mapper table has bad words.
fn wrong_twice(alloc: Global) -> Option<Held<'static>> {
    let mapping = packed(alloc, trie(alloc, &BAD_WORDS)?).ok()?;
    let mut held = provider_of(tables(alloc, &[(0x300, 0)], &STEPS, &PAIRS)?);
    held.uts46 = Some(mapping);
    Some(held)
}

/// What of its tables a provider lacks, beside those of the row before.
#[derive(Clone, Copy)]
enum Lack {
    Nothing,
    Mapping,
    Pairs,
    Lists,
    Words,
}

/// Takes that from a provider.
fn take(held: &mut Held<'_>, lack: Lack) {
    match lack {
        Lack::Nothing => {}
        Lack::Mapping => held.uts46 = None,
        Lack::Pairs => held.lacks_pairs = true,
        Lack::Lists => held.lacks_lists = true,
        Lack::Words => held.lacks_words = true,
    }
}

/// What is named first: what is wrong with the canonical tables comes before what is wrong with the mapper table, and the
/// loads come before both, in their order.
const ORDER: [(Lack, DataError); 5] = [
    (
        Lack::Nothing,
        DataError::Canonical(CanonicalFault::BuiltIn('\u{300}')),
    ),
    (Lack::Mapping, DataError::Missing(TableName::Uts46)),
    (Lack::Pairs, DataError::Missing(TableName::Pairs)),
    (Lack::Lists, DataError::Missing(TableName::NfdTables)),
    (Lack::Words, DataError::Missing(TableName::Nfd)),
];

/// The number of the first row at which something else is named, where a provider comes to lack one table after another.
fn first_named_otherwise(alloc: Global, held: &mut Held<'_>) -> Option<usize> {
    for (number, (lack, expected)) in ORDER.iter().enumerate() {
        take(held, *lack);
        if !is_judged(alloc, held, Some(*expected)) {
            return Some(number);
        }
    }
    None
}

/// Whether all rows are so of the one that is wrong twice.
fn wrong_are_in_order(alloc: Global) -> bool {
    match wrong_twice(alloc) {
        Some(mut held) => first_named_otherwise(alloc, &mut held).is_none(),
        None => false,
    }
}

#[test]
fn refusals_in_order(rt: HostRuntime) {
    assert!(rt; wrong_are_in_order(rt.alloc()));
}

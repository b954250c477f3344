//! What the check of compatibility tables refuses, and what accepted ones say.

use assertions::assert_same;
use icu_codepointtrie::{CodePointTrie, CodePointTrieHeader, TrieType};
use icu_normalizer_core::canonical::{CanonicalData, CanonicalDataError, CanonicalFault, FullList};
use icu_normalizer_core::compatibility::{CompatibilityBorrowed, CompatibilityData, NfkdTables};
use icu_packed_vector::PackedVec;
use samples_icu_normalizer::tables::{PAIRS, STEPS, WORDS, tables, trie};
use std::alloc::{AllocError, Global};

/// The words that are added to the canonical ones: a character in place of another, two, three, and eight in
/// `scalars16`, two in `scalars24`, and the two marks of half width, whose mappings are built in.
const ADDED: [(u32, u32); 7] = [
    (0xa0, 0x20),
    (0xfb01, 0x34_8066),
    (0xfb03, 0x1_0001),
    (0xfdfa, 0x4_0006),
    (0xff9e, 0x3099),
    (0xff9f, 0x309a),
    (0x1_d15e, 0xe_0001),
];

/// Three letters, nine, and a number that is no character.
const SCALARS16: [u16; 13] = [
    0x66, 0x66, 0x69, 0x61, 0x62, 0x63, 0x64, 0x65, 0x66, 0x67, 0x68, 0x69, 0xd800,
];

/// Compatibility tables of these words.
fn packed(
    alloc: Global,
    trie: CodePointTrie<'static, u32>,
) -> Result<NfkdTables<'static>, AllocError> {
    let scalars16 = PackedVec::from_slice(alloc, &SCALARS16)?;
    let scalars24 = PackedVec::from_slice(alloc, &['\u{1d157}', '\u{1d165}'])?;
    Ok(NfkdTables {
        trie,
        scalars16,
        scalars24,
    })
}

/// Canonical data of the worked rows.
fn canonical(alloc: Global) -> Option<CanonicalData<'static>> {
    let tables = tables(alloc, &[], &STEPS, &PAIRS)?;
    CanonicalData::try_new(alloc, tables).ok()
}

/// Whether tables are refused for this over canonical data, or accepted where it is `None`.
fn is_judged(
    alloc: Global,
    canonical: CanonicalData<'_>,
    tables: NfkdTables<'_>,
    expected: Option<CanonicalFault>,
) -> bool {
    match CompatibilityData::try_new(alloc, canonical, tables) {
        Ok(_) => expected.is_none(),
        Err(CanonicalDataError::Fault(fault)) => expected == Some(fault),
        Err(CanonicalDataError::Memory) => false,
    }
}

/// Whether such tables are over the canonical data of the worked rows.
fn are_judged(alloc: Global, tables: NfkdTables<'_>, expected: Option<CanonicalFault>) -> bool {
    match canonical(alloc) {
        Some(canonical) => is_judged(alloc, canonical, tables, expected),
        None => false,
    }
}

/// Compatibility tables with these words besides; `None` where memory is refused.
fn nfkd_tables(alloc: Global, others: &[(u32, u32)]) -> Option<NfkdTables<'static>> {
    let trie = trie(alloc, &ADDED, others)?;
    packed(alloc, trie).ok()
}

/// Whether such tables are refused for this, or accepted where it is `None`.
fn words_are_judged(
    alloc: Global,
    others: &[(u32, u32)],
    expected: Option<CanonicalFault>,
) -> bool {
    match nfkd_tables(alloc, others) {
        Some(tables) => are_judged(alloc, tables, expected),
        None => false,
    }
}

/// Words of characters, and what tables with them are refused for.
type Row = (&'static [(u32, u32)], Option<CanonicalFault>);

/// Words with one damage each, a class, a form, or what they say of a list, and of two damages the one that is named.
const ROWS: [Row; 21] = [
    (&[], None),
    // another class, and a word of none of the forms
    (
        &[(0x301, 0xd8dc)],
        Some(CanonicalFault::BadValue('\u{301}')),
    ),
    (
        &[(0x3b1, 0xd8e6)],
        Some(CanonicalFault::BadValue('\u{3b1}')),
    ),
    (&[(0x3b1, 1)], Some(CanonicalFault::BadValue('\u{3b1}'))),
    // an index outside, nine characters, an item that is mapped, one that is no character, and a mark first
    (
        &[(0xfb01, 0x10_0000)],
        Some(CanonicalFault::BadList('\u{fb01}')),
    ),
    (
        &[(0xfdfa, 0x4_0007)],
        Some(CanonicalFault::BadList('\u{fdfa}')),
    ),
    (
        &[(0xfb01, 0x34_80e1)],
        Some(CanonicalFault::BadList('\u{fb01}')),
    ),
    (
        &[(0xfb01, 0xc_0000)],
        Some(CanonicalFault::BadList('\u{fb01}')),
    ),
    (
        &[(0xfb01, 0x34_8301)],
        Some(CanonicalFault::BadList('\u{fb01}')),
    ),
    // characters with a canonical mapping whose list isn't the lists of what it leaves
    (&[(0x1ea1, 0)], Some(CanonicalFault::BadList('\u{1ea1}'))),
    (
        &[(0xe1, 0x184_0061)],
        Some(CanonicalFault::BadList('\u{e1}')),
    ),
    (&[(0xac00, 0)], Some(CanonicalFault::BadList('\u{ac00}'))),
    (&[(0x61, 0x62)], Some(CanonicalFault::BadList('\u{e1}'))),
    // below U+00A0, and the two marks of half width
    (&[(0x7a, 0x79)], Some(CanonicalFault::BuiltIn('z'))),
    (&[(0xff9e, 0)], Some(CanonicalFault::BuiltIn('\u{ff9e}'))),
    (
        &[(0xff9f, 0x3099)],
        Some(CanonicalFault::BuiltIn('\u{ff9f}')),
    ),
    // the least character of a kind, and kinds in order
    (
        &[(0x302, 0), (0x301, 0)],
        Some(CanonicalFault::BadValue('\u{301}')),
    ),
    (
        &[(0x1ea1, 0), (0xe1, 0)],
        Some(CanonicalFault::BadList('\u{e1}')),
    ),
    (
        &[(0xff9f, 0), (0xff9e, 0)],
        Some(CanonicalFault::BuiltIn('\u{ff9e}')),
    ),
    (
        &[(0x7a, 0x79), (0xfb01, 0x34_8301)],
        Some(CanonicalFault::BadList('\u{fb01}')),
    ),
    (
        &[(0xe1, 0), (0x10_ffff, 1)],
        Some(CanonicalFault::BadValue('\u{10ffff}')),
    ),
];

/// The number of the first row that is judged otherwise.
fn first_judged_otherwise(alloc: Global) -> Option<usize> {
    for (number, (others, expected)) in ROWS.iter().enumerate() {
        if !words_are_judged(alloc, others, *expected) {
            return Some(number);
        }
    }
    None
}

#[test]
fn words_that_are_refused(rt: HostRuntime) {
    assert_same!(rt; first_judged_otherwise(rt.alloc()), None);
}

/// The cells of the words of the worked rows below U+1000.
fn low_cells(alloc: Global) -> Result<PackedVec<'static, u32>, AllocError> {
    let mut cells = vec![in alloc; 0u32; 4098]?;
    for (code_point, word) in WORDS {
        if let Some(cell) = cells.get_mut(code_point as usize) {
            *cell = word;
        }
    }
    PackedVec::from_slice(alloc, &cells)
}

/// Their blocks, one after another.
fn low_index(alloc: Global) -> Result<PackedVec<'static, u16>, AllocError> {
    let mut index = Vec::new(alloc);
    for block in 0..64u16 {
        index.push(block * 64)?;
    }
    PackedVec::from_slice(alloc, &index)
}

/// Compatibility tables in which the characters from U+1000 to U+1FFF have no word.
fn tables_without_words(alloc: Global) -> Option<NfkdTables<'static>> {
    let header = CodePointTrieHeader {
        high_start: 0x2000,
        shifted12_high_start: 2,
        index3_null_offset: 0xffff,
        data_null_offset: 0xf_ffff,
        null_value: 0,
        trie_type: TrieType::Small,
    };
    let index = low_index(alloc).ok()?;
    let cells = low_cells(alloc).ok()?;
    let trie = CodePointTrie::try_new(header, index, cells).ok()?;
    packed(alloc, trie).ok()
}

/// Whether they are refused for this.
fn without_words_are_judged(alloc: Global, expected: Option<CanonicalFault>) -> bool {
    match tables_without_words(alloc) {
        Some(tables) => are_judged(alloc, tables, expected),
        None => false,
    }
}

#[test]
fn characters_without_a_word(rt: HostRuntime) {
    assert!(rt; without_words_are_judged(rt.alloc(), Some(CanonicalFault::BadValue('\u{1000}'))));
}

/// Characters, and what is left of them by canonical and compatibility mappings.
const FULL_LISTS: [(char, &[char]); 9] = [
    ('\u{a0}', &[' ']),
    ('\u{fb01}', &['f', 'i']),
    ('\u{fb03}', &['f', 'f', 'i']),
    ('\u{fdfa}', &['a', 'b', 'c', 'd', 'e', 'f', 'g', 'h']),
    ('\u{1d15e}', &['\u{1d157}', '\u{1d165}']),
    ('\u{ff9e}', &['\u{3099}']),
    ('\u{ff9f}', &['\u{309a}']),
    ('\u{1ea1}', &['a', '\u{323}']),
    ('\u{ac01}', &['\u{1100}', '\u{1161}', '\u{11a8}']),
];

/// Whether a list has these characters.
fn is_list(list: FullList<'_>, expected: &[char]) -> bool {
    let mut list = list;
    for wanted in expected {
        if list.next() != Some(*wanted) {
            return false;
        }
    }
    list.next().is_none()
}

/// Whether accepted tables say what their words do.
fn say_what_was_given(borrowed: CompatibilityBorrowed<'_>) -> bool {
    for (c, expected) in FULL_LISTS {
        if !is_list(borrowed.full_list(c), expected) {
            return false;
        }
    }
    true
}

/// Whether a character has this class.
fn has_class(borrowed: CompatibilityBorrowed<'_>, c: char, class: u8) -> bool {
    borrowed.class(c) == class && borrowed.is_starter(c) == (class == 0)
}

/// Whether two characters compose to this.
fn composes(
    borrowed: CompatibilityBorrowed<'_>,
    first: char,
    second: char,
    composed: Option<char>,
) -> bool {
    borrowed.compose(first, second) == composed
}

/// Whether these are left of a character by canonical mappings alone.
fn has_canonical_list(borrowed: CompatibilityBorrowed<'_>, c: char, expected: &[char]) -> bool {
    is_list(borrowed.canonical().full_list(c), expected)
}

/// Whether they say of classes and pairs what canonical ones do, and have these beneath.
fn say_what_is_canonical(borrowed: CompatibilityBorrowed<'_>) -> bool {
    has_class(borrowed, '\u{323}', 220)
        && has_class(borrowed, '\u{344}', 230)
        && has_class(borrowed, '\u{ff9e}', 0)
        && has_class(borrowed, '\u{fb01}', 0)
        && composes(borrowed, 'a', '\u{323}', Some('\u{1ea1}'))
        && composes(borrowed, 'f', 'i', None)
        && has_canonical_list(borrowed, '\u{fb01}', &['\u{fb01}'])
}

/// Whether accepted data say both.
fn are_of_what_was_given(borrowed: CompatibilityBorrowed<'_>) -> bool {
    say_what_was_given(borrowed) && say_what_is_canonical(borrowed)
}

/// Compatibility data of the words above.
fn accepted(alloc: Global) -> Option<CompatibilityData<'static>> {
    let tables = nfkd_tables(alloc, &[])?;
    CompatibilityData::try_new(alloc, canonical(alloc)?, tables).ok()
}

/// Whether there are such data, and they say so.
fn accepted_say_so(alloc: Global) -> bool {
    match accepted(alloc) {
        Some(checked) => are_of_what_was_given(checked.as_borrowed()),
        None => false,
    }
}

#[test]
fn ok_try_new(rt: HostRuntime) {
    assert!(rt; accepted_say_so(rt.alloc()));
}

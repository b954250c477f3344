//! What the provider of a compiled file gives, and that a file that is as large as may be is compiled, within the limits that
//! count where none are named and past them.

use assertions::assert_same;
use collate_records::compile::compile;
use collate_records::limits::Limits;
use collate_records::provider::Provider;
use collate_records::records::Records;
use icu_codepointtrie::TrieType;
use icu_collator_core::checked::CheckedTables;
use icu_collator_core::elements::CollationElements;
use icu_collator_core::provider::CollatorProvider;
use icu_collator_core::tables::CollationData;
use icu_normalizer_core::canonical::CanonicalData;
use icu_normalizer_core::provider::{DataError, NormalizerProvider, TableName};
use std::alloc::Global;
use std::cmp::Ordering;
use std::process::Abort;
use std::test::Fail;

/// Lines of most kinds, without a tailoring.
const PLAIN: &[u8] = b"class 0323 220
map 1EA1 0061 0323
kmap 00B2 0032
w 0061 ; [2A100000.0500.0.0500.0]
w 0062 ;
w 0323 ; [0.8C00.0.0500.0]
";

/// A tailoring and settings.
const TAILORED: &[u8] = b"w 0061 ; [2A100000.0500.0.0500.0]
w 0062 ;
t 0061 ; [2A180000.0500.0.0500.0]
set reorder 2A 2B 2B 2A
set alternate shifted
set numeric 11
";

/// The provider of a file, with tries of a type.
fn compiled(alloc: Global, file: &[u8], trie_type: TrieType) -> Option<Provider> {
    match Records::read(alloc, file) {
        Ok(records) => compile(alloc, &records, trie_type).ok(),
        Err(_) => None,
    }
}

#[test]
fn ok_compile(rt: HostRuntime) -> Result<(), Fail> {
    for trie_type in [TrieType::Fast, TrieType::Small] {
        let provider = compiled(rt.alloc(), PLAIN, trie_type).ok_or("not compiled")?;
        lacks_what_no_line_says(&rt, rt.alloc(), &provider);
        has_canonical_tables(&rt, rt.alloc(), &provider);
        has_words_of_compatibility(&rt, rt.alloc(), &provider);
        has_words_of_root(&rt, rt.alloc(), &provider);
        has_settings(&rt, rt.alloc(), &provider, 0x10, 0x10);
    }
    Ok(())
}

fn lacks_what_no_line_says(rt: &impl Abort, alloc: Global, provider: &Provider) {
    let missing = [
        (provider.load_uts46(alloc).err(), TableName::Uts46),
        (
            provider.load_tailoring(alloc, "", None).err(),
            TableName::Tailoring,
        ),
        (
            provider.load_reordering(alloc, "", None).err(),
            TableName::Reordering,
        ),
    ];
    for (error, table) in missing {
        assert_same!(rt; error, Some(DataError::Missing(table)));
    }
}

/// The canonical word of a character.
fn canonical_word(alloc: Global, provider: &Provider, c: char) -> Option<u32> {
    match provider.load_nfd(alloc) {
        Ok(trie) => Some(trie.get(c)),
        Err(_) => None,
    }
}

/// The mappings, each as a character, what it is mapped to, and what after that.
fn steps(alloc: Global, provider: &Provider) -> Option<Vec<u32>> {
    match provider.load_nfd_tables(alloc) {
        Ok(lists) => lists.steps.iter().collect(alloc).ok(),
        Err(_) => None,
    }
}

/// The composed pairs.
fn pairs(alloc: Global, provider: &Provider) -> Option<Vec<u64>> {
    match provider.load_pairs(alloc) {
        Ok(pairs) => pairs.iter().collect(alloc).ok(),
        Err(_) => None,
    }
}

fn has_canonical_tables(rt: &impl Abort, alloc: Global, provider: &Provider) {
    for (c, word) in [
        ('a', 0),
        ('\u{323}', 0xd8dc),
        ('\u{1ea1}', 0x61 | 0x323 << 15),
        ('\u{ac00}', 1),
    ] {
        assert_eq!(rt; canonical_word(alloc, provider, c), Some(word));
    }
    let steps = steps(alloc, provider).unwrap_or(Vec::new(alloc));
    assert_eq!(rt; steps.as_slice(), [0x1ea1, 0x61, 0x323].as_slice());
    let pairs = pairs(alloc, provider).unwrap_or(Vec::new(alloc));
    assert_eq!(rt;
        pairs.as_slice(),
        [0x61 << 42 | 0x323 << 21 | 0x1ea1].as_slice()
    );
}

fn has_words_of_compatibility(rt: &impl Abort, alloc: Global, provider: &Provider) {
    let word = match provider.load_nfkd(alloc) {
        Ok(trie) => Some(trie.get('\u{b2}')),
        Err(_) => None,
    };
    assert_same!(rt; word, Some(0x32));
    assert!(rt; provider.load_nfkd_tables(alloc).is_ok());
}

/// The word of a character in data that were loaded.
fn word_in(data: Result<CollationData<'_>, DataError>, c: char) -> Option<u32> {
    match data {
        Ok(data) => Some(data.trie.get(c)),
        Err(_) => None,
    }
}

fn has_words_of_root(rt: &impl Abort, alloc: Global, provider: &Provider) {
    for (c, word) in [('a', 0x2a10_0505), ('b', 0)] {
        assert_same!(rt; word_in(provider.load_root(alloc), c), Some(word));
    }
}

fn has_settings(rt: &impl Abort, alloc: Global, provider: &Provider, bits: u32, numeric: u8) {
    let metadata = provider.load_metadata(alloc, "", None).ok();
    assert_same!(rt; metadata.map(|metadata| metadata.bits), Some(bits));
    let jamo = provider.load_jamo(alloc).ok();
    assert_same!(rt; jamo.map(|jamo| jamo.ce32s.len()), Some(256));
    let lead = match provider.load_special_primaries(alloc) {
        Ok(primaries) => Some(primaries.numeric_primary),
        Err(_) => None,
    };
    assert_same!(rt; lead, Some(numeric));
    assert!(rt; provider.load_diacritics(alloc, "", None).is_ok());
}

#[test]
fn a_tailoring_and_a_reordering_are_given(rt: HostRuntime) -> Result<(), Fail> {
    let alloc = rt.alloc();
    for trie_type in [TrieType::Fast, TrieType::Small] {
        let provider = compiled(alloc, TAILORED, trie_type).ok_or("not compiled")?;
        // tailored, tailored diacritics, reordered, shifted
        has_settings(&rt, alloc, &provider, 0x138, 0x11);
        has_words_of_tailoring(&rt, alloc, &provider);
        has_leads(&rt, alloc, &provider);
    }
    Ok(())
}

fn has_words_of_tailoring(rt: &impl Abort, alloc: Global, provider: &Provider) {
    for (c, word) in [('a', 0x2a18_0505), ('b', 0xc0)] {
        let data = provider.load_tailoring(alloc, "de", Some("phonebk"));
        assert_same!(rt; word_in(data, c), Some(word));
    }
    assert_same!(rt; word_in(provider.load_root(alloc), 'b'), Some(0));
}

/// The lead that stands in the place of another.
fn lead_for(alloc: Global, provider: &Provider, lead: usize) -> Option<u8> {
    match provider.load_reordering(alloc, "", None) {
        Ok(order) => order.reorder_table.get(lead),
        Err(_) => None,
    }
}

fn has_leads(rt: &impl Abort, alloc: Global, provider: &Provider) {
    assert_same!(rt; lead_for(alloc, provider, 0x2a), Some(0x2b));
    assert_same!(rt; lead_for(alloc, provider, 0x2b), Some(0x2a));
}

/// As many lines and characters as a file may have, each with as many characters and elements as a line may have, of which no
/// two are the same. Each beginning has six or seven texts.
fn largest_file(alloc: Global) -> Option<String> {
    let mut file = String::new(alloc);
    for i in 0..1000u32 {
        write!(file, "w {:04X}", 0x4e00 + i % 150).ok()?;
        for _ in 0..7 {
            write!(file, " {:04X}", 0x4e00 + i / 150).ok()?;
        }
        write!(file, " ;").ok()?;
        for k in 0..8u32 {
            let (second, third) = (4 + 8 * (i / 250) + k, 4 + i % 250);
            write!(file, " [60{second:02X}{third:02X}00.8C02.1.3F00.3]").ok()?;
        }
        file.push_str("\n").ok()?;
    }
    Some(file)
}

/// The tables of a provider, checked.
fn checked(alloc: Global, provider: Provider) -> Option<CheckedTables<'static>> {
    let (canonical, tables) = provider.into_tables();
    match CanonicalData::try_new(alloc, canonical) {
        Ok(canonical) => CheckedTables::try_new(alloc, canonical, tables).ok(),
        Err(_) => None,
    }
}

/// The primary of the last of a text's eight elements.
fn last_primary(alloc: Global, tables: &CheckedTables<'_>, text: &[char]) -> Option<u32> {
    let mut elements = CollationElements::new(alloc, text.iter().copied(), tables, None);
    elements.init().ok()?;
    for _ in 0..7 {
        elements.next().ok()?;
    }
    Some(elements.next().ok()?.primary())
}

#[test]
fn as_large_a_file_as_may_be_is_compiled(rt: HostRuntime) -> Result<(), Fail> {
    let alloc = rt.alloc();
    let file = largest_file(alloc).ok_or("no memory")?;
    for trie_type in [TrieType::Fast, TrieType::Small] {
        let provider = compiled(alloc, file.as_bytes(), trie_type).ok_or("not compiled")?;
        let tables = checked(alloc, provider).ok_or("not accepted")?;
        last_texts_are_read(&rt, alloc, &tables);
    }
    Ok(())
}

fn last_texts_are_read(rt: &impl Abort, alloc: Global, tables: &CheckedTables<'_>) {
    for (first, behind, primary) in [
        ('\u{4e63}', '\u{4e06}', 0x6023_fd00),
        ('\u{4e95}', '\u{4e00}', 0x600b_9900),
    ] {
        let text = [
            first, behind, behind, behind, behind, behind, behind, behind,
        ];
        assert_same!(rt; last_primary(alloc, tables, &text), Some(primary));
    }
}

/// A line more than `Limits::STANDARD` lets a file have: each gives its character a primary below that of the line before.
fn falling_file(alloc: Global) -> Option<String> {
    let mut file = String::new(alloc);
    for i in 0..1001u32 {
        let (second, third) = (8 - i / 250, 253 - i % 250);
        write!(file, "w {:04X}", 0x4e00 + i).ok()?;
        write!(file, " ; [60{second:02X}{third:02X}00.0500.0.0500.0]\n").ok()?;
    }
    Some(file)
}

/// The tables of a file within the limits that large files ask for, checked.
fn checked_within_unicode(
    alloc: Global,
    file: &[u8],
    trie_type: TrieType,
) -> Option<CheckedTables<'static>> {
    match Records::read_within(alloc, file, Limits::UNICODE) {
        Ok(records) => checked(alloc, compile(alloc, &records, trie_type).ok()?),
        Err(_) => None,
    }
}

/// The primaries of a text whose characters have one element each.
fn primaries(alloc: Global, tables: &CheckedTables<'_>, text: &[char]) -> Option<Vec<u32>> {
    let mut elements = CollationElements::new(alloc, text.iter().copied(), tables, None);
    elements.init().ok()?;
    let mut primaries = Vec::new(alloc);
    for _ in text {
        primaries.push(elements.next().ok()?.primary()).ok()?;
    }
    Some(primaries)
}

/// The order of two such texts by their primaries.
fn order(
    alloc: Global,
    tables: &CheckedTables<'_>,
    left: &[char],
    right: &[char],
) -> Option<Ordering> {
    let left = primaries(alloc, tables, left)?;
    let right = primaries(alloc, tables, right)?;
    Some(left.as_slice().cmp(right.as_slice()))
}

#[test]
fn a_file_past_the_standard_limits_is_compiled(rt: HostRuntime) -> Result<(), Fail> {
    let alloc = rt.alloc();
    let file = falling_file(alloc).ok_or("no memory")?;
    assert!(rt; Records::read(alloc, file.as_bytes()).is_err());
    for trie_type in [TrieType::Fast, TrieType::Small] {
        let tables = checked_within_unicode(alloc, file.as_bytes(), trie_type).ok_or(
            "not compiled",
        )?;
        falling_texts_are_ordered(&rt, alloc, &tables);
    }
    Ok(())
}

fn falling_texts_are_ordered(rt: &impl Abort, alloc: Global, tables: &CheckedTables<'_>) {
    let (first, second, last) = ('\u{4e00}', '\u{4e01}', '\u{51e8}');
    let rows: [(&[char], &[char], Ordering); 5] = [
        (&[first], &[second], Ordering::Greater),
        (&[last], &[first], Ordering::Less),
        (&[last], &[last], Ordering::Equal),
        (&[second, first], &[second, last], Ordering::Greater),
        (&[last, first], &[second, last], Ordering::Less),
    ];
    for (left, right, expected) in rows {
        assert_same!(rt; order(alloc, tables, left, right), Some(expected));
    }
}

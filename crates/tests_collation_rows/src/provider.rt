//! Changes of what a provider gives, a line each. Numbers are hexadecimal.
//!
//! - `lacks TABLE..`: these tables can't be had, and all others can: `nfd`, `nfd_tables`, `pairs`, `root`, `jamo`,
//!   `special_primaries`, `metadata`, `diacritics`.
//! - `nfd CHARACTER WORD`, `root CHARACTER WORD`: another canonical word of a character, or another word of it in the root.
//! - `steps NUMBER..`, `secondaries NUMBER..`, `groups NUMBER..`: all items of this list.
//! - `jamo COUNT`: so many items of the table of jamo.
//! - `reordering COUNT LEAST RANGE..`: a reordering of so many leads by ranges, where primaries from LEAST on stay.
//! - `metadata NUMBER`, `numeric NUMBER`: the metadata, the lead of numbers.
//! - `? QUESTION`: no change, but a question to a collator over what there is, with no option (module `asked`).

use crate::asked::ask_over;
use crate::both::{Both, held_both, print_answers};
use icu_codepointtrie::{CodePointTrie, CodePointTrieBuilder, TrieType};
use icu_collator::Collator;
use icu_collator_core::tables::{CollationJamo, CollationReordering, CollationTables};
use icu_collator_types::options::{CollatorOptions, CollatorPreferences};
use icu_normalizer_core::canonical::CanonicalTables;
use icu_packed_vector::PackedVec;
use samples_icu_collator::held::{HeldCollation, Lacking};
use std::alloc::Global;

/// The number that a word is.
fn number(word: &str) -> Option<u32> {
    u32::from_str_radix(word, 16).ok()
}

/// The list of the numbers that words are.
fn words_of(alloc: Global, words: &[&str]) -> Option<PackedVec<'static, u32>> {
    let mut list = Vec::new(alloc);
    for word in words {
        list.push(number(word)?).ok()?;
    }
    PackedVec::from_slice(alloc, &list).ok()
}

/// The list of the units that words are.
fn units_of(alloc: Global, words: &[&str]) -> Option<PackedVec<'static, u16>> {
    let mut list = Vec::new(alloc);
    for word in words {
        list.push(u16::try_from(number(word)?).ok()?).ok()?;
    }
    PackedVec::from_slice(alloc, &list).ok()
}

/// The same words, but for that of one character. Each is written, since a trie takes no write of its default.
fn with_word(
    alloc: Global,
    trie: &CodePointTrie<'_, u32>,
    words: &[&str],
    trie_type: TrieType,
) -> Option<CodePointTrie<'static, u32>> {
    let [c, word] = words else {
        return None;
    };
    let mut map = CodePointTrieBuilder::new(alloc, u32::MAX, 0, trie_type).ok()?;
    for range in trie.iter_ranges() {
        map.set_range_value(range.range, range.value).ok()?;
    }
    map.set_value(number(c)?, number(word)?).ok()?;
    map.build().ok()
}

/// The first so many items of the table of jamo.
fn cut_jamo(
    alloc: Global,
    jamo: &CollationJamo<'_>,
    words: &[&str],
) -> Option<CollationJamo<'static>> {
    let count = number(words.first()?)?;
    let items: Vec<u32> = jamo.ce32s.iter().take(count as usize).collect(alloc).ok()?;
    let ce32s = PackedVec::from_slice(alloc, &items).ok()?;
    Some(CollationJamo { ce32s })
}

/// A reordering by so many leads, which are all moved by ranges.
fn reordering_of(alloc: Global, words: &[&str]) -> Option<CollationReordering<'static>> {
    let [count, least, ranges @ ..] = words else {
        return None;
    };
    let leads = [0; 256];
    let leads = leads.get(..number(count)? as usize)?;
    Some(CollationReordering {
        min_high_no_reorder: number(least)?,
        reorder_table: PackedVec::from_slice(alloc, leads).ok()?,
        reorder_ranges: words_of(alloc, ranges)?,
    })
}

/// A reordering that exchanges two leads, and leaves all else.
fn exchange_of(alloc: Global, words: &[&str]) -> Option<CollationReordering<'static>> {
    let [first, second] = words else {
        return None;
    };
    let one = u8::try_from(number(first)?).ok()?;
    let other = u8::try_from(number(second)?).ok()?;
    let mut leads = [0; 256];
    leads[one as usize] = other;
    leads[other as usize] = one;
    Some(CollationReordering {
        min_high_no_reorder: 0,
        reorder_table: PackedVec::from_slice(alloc, &leads).ok()?,
        reorder_ranges: words_of(alloc, &[])?,
    })
}

/// Notes that a table can't be had.
fn note(lacking: &mut Lacking, table: &str) -> Option<()> {
    match table {
        "nfd" => lacking.nfd = true,
        "nfd_tables" => lacking.nfd_tables = true,
        "pairs" => lacking.pairs = true,
        "root" => lacking.root = true,
        "jamo" => lacking.jamo = true,
        "special_primaries" => lacking.special_primaries = true,
        "metadata" => lacking.metadata = true,
        "diacritics" => lacking.diacritics = true,
        _ => return None,
    }
    Some(())
}

/// What can't be had.
fn lacking_of(tables: &[&str]) -> Option<Lacking> {
    let mut lacking = Lacking::default();
    for table in tables {
        note(&mut lacking, table)?;
    }
    Some(lacking)
}

/// Changes canonical tables.
fn change_canonical(
    tables: &mut CanonicalTables<'static>,
    alloc: Global,
    part: &str,
    words: &[&str],
    trie_type: TrieType,
) -> Option<()> {
    match part {
        "nfd" => tables.trie = with_word(alloc, &tables.trie, words, trie_type)?,
        "steps" => tables.steps = words_of(alloc, words)?,
        _ => return None,
    }
    Some(())
}

/// Changes tables of a collation.
fn change_tables(
    tables: &mut CollationTables<'static>,
    alloc: Global,
    part: &str,
    words: &[&str],
    trie_type: TrieType,
) -> Option<()> {
    match part {
        "root" => tables.root.trie = with_word(alloc, &tables.root.trie, words, trie_type)?,
        "secondaries" => tables.diacritics.secondaries = units_of(alloc, words)?,
        "jamo" => tables.jamo = cut_jamo(alloc, &tables.jamo, words)?,
        "reordering" => tables.reordering = Some(reordering_of(alloc, words)?),
        "exchange" => tables.reordering = Some(exchange_of(alloc, words)?),
        "metadata" => tables.metadata.bits = number(words.first()?)?,
        "groups" => tables.special_primaries.last_primaries = units_of(alloc, words)?,
        "numeric" => {
            let lead = number(words.first()?)?;
            tables.special_primaries.numeric_primary = u8::try_from(lead).ok()?;
        }
        _ => return None,
    }
    Some(())
}

/// Makes the change of a line to what a provider gives, whose tries have this type.
fn change(
    held: &mut HeldCollation<'static>,
    alloc: Global,
    line: &str,
    trie_type: TrieType,
) -> Option<()> {
    let words: Vec<&str> = line.split_ascii_whitespace().collect(alloc).ok()?;
    let [part, words @ ..] = words.as_slice() else {
        return None;
    };
    match *part {
        "lacks" => {
            held.lacking = lacking_of(words)?;
            Some(())
        }
        "nfd" | "steps" => change_canonical(&mut held.canonical, alloc, part, words, trie_type),
        _ => change_tables(&mut held.tables, alloc, part, words, trie_type),
    }
}

/// What a collator over a provider is refused for, or that it is made.
fn outcome(alloc: Global, held: &HeldCollation<'_>) -> Option<String> {
    let preferences = CollatorPreferences::default();
    match Collator::try_new_unstable(alloc, held, preferences, CollatorOptions::default()) {
        Ok(_) => String::from_str(alloc, "made").ok(),
        Err(error) => format!(in alloc; "{error:?}").ok(),
    }
}

/// Prints what collators over both providers are refused for after a line, or that they are made.
fn print_outcomes(rt: &HostRuntime, both: &Both, line: &str) -> Option<()> {
    let fast = outcome(rt.alloc(), &both.fast)?;
    let small = outcome(rt.alloc(), &both.small)?;
    print_answers(rt, line, fast.as_str(), small.as_str())
}

/// Makes the change of a line, and prints what comes of it; or asks collators.
fn try_change(rt: &HostRuntime, both: &mut Both, line: &str) -> Option<()> {
    if line.starts_with('#') {
        return Some(());
    }
    if let Some(question) = line.strip_prefix("? ") {
        return ask_over(rt, both, "none", question);
    }
    change(&mut both.fast, rt.alloc(), line, TrieType::Fast)?;
    change(&mut both.small, rt.alloc(), line, TrieType::Small)?;
    print_outcomes(rt, both, line)
}

/// Makes the changes of lines.
fn try_lines(rt: &HostRuntime, both: &mut Both, lines: &str) -> Option<()> {
    for line in lines.lines() {
        try_change(rt, both, line)?;
    }
    Some(())
}

/// Makes the changes of lines, one upon another, to what providers give of the tables of records, and prints what collators
/// are refused for then; `None` where a line is no change, or memory is refused.
pub fn try_changes(rt: &HostRuntime, records: &str, lines: &str) -> Option<()> {
    match held_both(rt.alloc(), records) {
        Some(mut both) => try_lines(rt, &mut both, lines),
        None => None,
    }
}

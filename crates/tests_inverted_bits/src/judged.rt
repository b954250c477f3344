//! What becomes of tables: they are refused, or their texts are read.

use crate::byte_lists::Lists;
use crate::decomposed::slowly_decomposed;
use icu_collator_core::check::TableFault;
use icu_collator_core::checked::CheckedTables;
use icu_collator_core::tables::CollationTables;
use icu_normalizer_core::canonical::{CanonicalBorrowed, CanonicalData, CanonicalDataError};
use samples_icu_collator::plain::plain_elements;
use samples_icu_collator::plain::recorded::Tables;
use samples_icu_collator::read::read_elements;
use std::alloc::Global;

/// Texts that read all that the good tables say.
const TEXTS: [&str; 12] = [
    "a\u{302}\u{301}b",
    "abc\u{300}ac",
    "bac\u{e1}\u{302}",
    "a\u{300}\u{301}\u{302}\u{302}\u{1ea5}",
    "1210z2",
    "pqu\u{1100}\u{1101}\u{ac01}",
    "\u{303}@A\u{370}\u{33f}\u{212a}\u{fa6c}",
    "\u{fffd}\u{fffe}\u{ffff}\u{ffc0}\u{ffc1}\u{10000}\u{4e00}",
    "adcfgdc",
    "hihahijpapu",
    "22112",
    "\u{307}\u{300}\u{307}\u{f73}\u{344}",
];

/// One whose digits are read one by one, too.
const DIGITS: &str = "1210z2";

/// What became of tables.
#[derive(Clone, Copy)]
pub enum Answer {
    /// They were refused, for a fault that has a name.
    Refused,
    /// Their texts have the elements that they mean.
    Read,
    /// A text has others; or memory was refused.
    Misread,
}

impl Answer {
    /// What is printed of it.
    pub fn name(self) -> &'static str {
        match self {
            Answer::Refused => "refused",
            Answer::Read => "read",
            Answer::Misread => "misread",
        }
    }
}

/// The decomposed list of characters, as the call gives it.
fn decomposed(
    alloc: Global,
    canonical: CanonicalBorrowed<'_>,
    characters: &[char],
) -> Option<Vec<char>> {
    let mut list = Vec::new(alloc);
    for item in canonical.classed(alloc, characters.iter().copied()) {
        let (c, _) = item.ok()?;
        list.push(c).ok()?;
    }
    Some(list)
}

/// Whether characters have the decomposed list that the canonical tables mean.
fn are_decomposed(alloc: Global, canonical: CanonicalBorrowed<'_>, characters: &[char]) -> bool {
    let slow = slowly_decomposed(alloc, canonical, characters);
    match (slow, decomposed(alloc, canonical, characters)) {
        (Some(slow), Some(list)) => slow.as_slice() == list.as_slice(),
        _ => false,
    }
}

/// Whether characters have the elements that the tables mean. With a lead the digits are read as numbers.
fn have_elements(
    alloc: Global,
    tables: &CheckedTables<'_>,
    characters: &[char],
    lead: Option<u8>,
) -> bool {
    let plain = Tables {
        canonical: tables.canonical(),
        tables: tables.tables(),
    };
    let slow = plain_elements(alloc, &plain, characters, lead);
    match (slow, read_elements(alloc, tables, characters, lead)) {
        (Some(slow), Some(elements)) => slow.as_slice() == elements.as_slice(),
        _ => false,
    }
}

/// Whether a text has the decomposed list and the elements that the tables mean.
fn is_read(alloc: Global, tables: &CheckedTables<'_>, text: &str, lead: Option<u8>) -> bool {
    match text.chars().collect::<Vec<char>>(alloc) {
        Ok(characters) => {
            are_decomposed(alloc, tables.canonical(), characters.as_slice())
                && have_elements(alloc, tables, characters.as_slice(), lead)
        }
        Err(_) => false,
    }
}

/// Whether each text has.
fn are_read(alloc: Global, tables: &CheckedTables<'_>) -> bool {
    let lead = Some(tables.tables().special_primaries.numeric_primary);
    TEXTS.iter().all(|text| is_read(alloc, tables, text, lead))
        && is_read(alloc, tables, DIGITS, None)
}

/// What became of tables that were checked.
fn checked_answer(alloc: Global, checked: &Result<CheckedTables<'_>, TableFault>) -> Answer {
    match checked {
        Ok(tables) => {
            if are_read(alloc, tables) {
                Answer::Read
            } else {
                Answer::Misread
            }
        }
        Err(TableFault::Memory) => Answer::Misread,
        Err(_) => Answer::Refused,
    }
}

/// The canonical data of lists, or what became of their tables.
fn canonical_data(alloc: Global, lists: &Lists) -> Result<CanonicalData<'_>, Answer> {
    let Ok(tables) = lists.canonical_tables() else {
        return Err(Answer::Refused);
    };
    match CanonicalData::try_new(alloc, tables) {
        Ok(canonical) => Ok(canonical),
        Err(CanonicalDataError::Memory) => Err(Answer::Misread),
        Err(CanonicalDataError::Fault(_)) => Err(Answer::Refused),
    }
}

/// What becomes of collation tables with the canonical data of lists.
fn collation_answer(alloc: Global, lists: &Lists, tables: CollationTables<'_>) -> Answer {
    match canonical_data(alloc, lists) {
        Ok(canonical) => checked_answer(alloc, &CheckedTables::try_new(alloc, canonical, tables)),
        Err(answer) => answer,
    }
}

/// What becomes of the tables of lists.
pub fn answer_of(alloc: Global, lists: &Lists) -> Answer {
    match lists.collation_tables() {
        Ok(tables) => collation_answer(alloc, lists, tables),
        Err(_) => Answer::Refused,
    }
}

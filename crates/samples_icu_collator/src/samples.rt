//! The tables that are changed: those that the worked rows are over, with groups, and more, in which no list is empty.

use crate::changed_words::with_word;
use crate::compiled::held_tables;
use crate::held::HeldCollation;
use icu_codepointtrie::TrieType;
use icu_collator_core::tables::CollationTables;
use icu_normalizer_core::canonical::CanonicalTables;
use icu_packed_vector::PackedVec;
use std::alloc::Global;

/// The records of the worked rows, with groups: "a" is of the first, "b" up to the second, "c" and "e" up to the third,
/// "h" up to the last.
const LETTERS: &str = "class 0302 230
class 0323 220
map 00E1 0061 0301
map 1EA1 0061 0323
w 0061 ; [2A100000.0500.0.0500.0]
w 0062 ; [2A200000.0500.0.0500.0]
w 0063 ; [2A300000.0500.0.0500.0]
w 0065 ; [2A500000.0500.0.0500.0]
w 0068 ; [2A800000.0500.0.0500.0]
w 006C ; [2AC00000.0500.0.0500.0]
w 006F ; [2AF00000.0500.0.0500.0]
w 0074 ; [2B400000.0500.0.0500.0]
w 0301 ; [0.8800.0.0500.0]
w 0302 ; [0.8A00.0.0500.0]
w 0323 ; [0.8C00.0.0500.0]
set groups 2A18 2A28 2A58 2A88
";

/// What stands after them: further records of the worked rows, and such by which each list of the root, of the
/// tailoring and of the canonical tables has items.
const MORE: &str = "class 0300 230
map 00E2 0061 0302
map 1EA5 00E2 0301
map 212A 0062
map FA6C 242EE
w 0300 ; [0.8600.0.0500.0]
w 0041 ; [2A100000.0500.2.0900.0]
w 0061 0062 0063 ; [2B800000.0500.0.0500.0]
w 0061 0062 | 0063 ; [2A600000.0500.0.0500.0]
w 0063 0301 ; [2A700000.0500.0.0500.0]
w 0063 0068 0061 ; [2B900000.0500.0.0500.0]
w 0031 ; [11110000.0500.0.0500.0]
w 0032 ; [11120000.0500.0.0500.0]
digit 0031 1
digit 0032 2
range 4E00 9FFF E0020200 1
w 006A ; [2A3B0000.0500.0.0A03.2] [2A3C0000.0500.0.0500.0]
w 006B ; [2A350000.0500.0.0500.0] [0.8800.0.0500.0]
w 006D 0061 ; [2A360000.0500.0.0500.0]
w 1100 ; [2A370000.0500.0.0500.0]
t 0074 ; [0.0000.2.3F00.0]
t 006F ; [2AF00000.0500.0.0A03.1] [2A3D0000.0500.0.0500.0]
t 0071 ; [2A380000.0500.0.0500.0] [0.8A00.0.0500.0]
t 0072 ; [2A3A0000.0500.0.0500.0]
t 0072 0061 ; [2A390000.0500.0.0500.0]
set reorder 2A 2B 2B 2A
";

/// The parts of the leads 2C and 2D (hex) that are cut: primaries whose second byte is below 80 change places, others
/// stay.
const CUTS: [u32; 4] = [0x2c00_0000, 0x2c80_0001, 0x2d00_0000, 0x2d80_00ff];

/// From this primary on others stay.
const BOUND: u32 = 0x2d80_0000;

/// The secondaries of the marks from U+0300 on, as the records have them: the compiler writes none, and says of each
/// mark what its record has.
const SECONDARIES: [u16; 3] = [0x8600, 0x8800, 0x8a00];

/// A provider of the tables of the worked rows, with groups.
pub fn letters(alloc: Global, trie_type: TrieType) -> Option<HeldCollation<'static>> {
    held_tables(alloc, LETTERS, trie_type)
}

/// The word of a full list of three characters, which is the first one, where it stands in `scalars16`: the builder of
/// tables has it in `scalars24`.
const FIRST_LIST: (char, u32, usize) = ('\u{1ea5}', 0x1_0001, 3);

/// Leads of which those that stay have no byte.
fn sparse(alloc: Global, leads: &PackedVec<'_, u8>) -> Option<PackedVec<'static, u8>> {
    let mut bytes = Vec::new(alloc);
    for lead in 0..leads.len() {
        let other = leads.get(lead)?;
        let stays = usize::from(other) == lead;
        bytes.push(if stays { 0 } else { other }).ok()?;
    }
    PackedVec::from_slice(alloc, bytes.as_slice()).ok()
}

/// Cuts two leads of a reordering.
fn cut_leads(alloc: Global, tables: &mut CollationTables<'static>) -> Option<()> {
    let reordering = tables.reordering.as_mut()?;
    reordering.reorder_table = sparse(alloc, &reordering.reorder_table)?;
    reordering.reorder_ranges = PackedVec::from_slice(alloc, &CUTS).ok()?;
    reordering.min_high_no_reorder = BOUND;
    Some(())
}

/// The characters of a list from an index on.
fn scalars_from(
    alloc: Global,
    scalars: &PackedVec<'_, char>,
    index: usize,
) -> Option<PackedVec<'static, char>> {
    let rest: Vec<char> = scalars.iter().skip(index).collect(alloc).ok()?;
    PackedVec::from_slice(alloc, rest.as_slice()).ok()
}

/// Moves the first full list to `scalars16`.
fn move_list(alloc: Global, tables: &mut CanonicalTables<'static>) -> Option<()> {
    let (c, word, count) = FIRST_LIST;
    let mut units = Vec::new(alloc);
    for scalar in tables.scalars24.iter().take(count) {
        units.push(u16::try_from(scalar as u32).ok()?).ok()?;
    }
    tables.scalars16 = PackedVec::from_slice(alloc, units.as_slice()).ok()?;
    tables.scalars24 = scalars_from(alloc, &tables.scalars24, count)?;
    tables.trie = with_word(alloc, &tables.trie, c, word)?;
    Some(())
}

/// Adds what the compiler writes into no table: secondaries of marks, cut leads, and full lists of short units.
fn complete(alloc: Global, held: &mut HeldCollation<'static>) -> Option<()> {
    held.tables.diacritics.secondaries = PackedVec::from_slice(alloc, &SECONDARIES).ok()?;
    cut_leads(alloc, &mut held.tables)?;
    move_list(alloc, &mut held.canonical)
}

/// A provider of tables in which no list is empty.
pub fn full_tables(alloc: Global) -> Option<HeldCollation<'static>> {
    let lines = format!(in alloc; "{LETTERS}{MORE}").ok()?;
    let mut held = held_tables(alloc, lines.as_str(), TrieType::Small)?;
    match complete(alloc, &mut held) {
        Some(()) => Some(held),
        None => None,
    }
}

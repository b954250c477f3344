//! Good tables, which each say something of every kind that tables can say.

use crate::byte_lists::{Lists, Part};
use crate::tables::{CANONICAL, DataParts, ROOT, TAILORING, TrieParts};
use icu_codepointtrie::{CodePointTrie, TrieType};
use icu_collator_core::tables::{CollationData, CollationReordering, CollationTables};
use icu_normalizer_core::canonical::CanonicalTables;
use icu_packed_vector::{PackedItem, PackedVec};
use samples_icu_collator::compiled::held_tables;
use samples_icu_collator::held::HeldCollation;
use std::alloc::Global;

/// Records with each form of word, in the root and in a tailoring: of one element in three ways, of more in two, digits, a
/// range, contractions with and without marks, prefixes, and a jamo. Two leads are exchanged. Canonical mappings are to one
/// character and to two, with a list of three characters, and one of a character past U+FFFF.
const RECORDS: &str = "class 0300 230
class 0301 230
class 0302 220
map 00E1 0061 0301
map 00E2 0061 0302
map 1EA5 00E2 0301
map 212A 0062
map FA6C 242EE
w 0300 ; [0.8600.0.0500.0]
w 0301 ; [0.8800.0.0500.0]
w 0302 ; [0.8A02.0.0500.0]
w 0061 ; [2A100000.0500.0.0500.0]
w 0061 0301 ; [2A180000.0500.0.0500.0]
w 0061 0302 0301 ; [2A190000.8800.1.0900.0]
w 0061 0302 ; [2A150000.0500.0.0500.0]
w 0061 0062 ; [2A200000.0500.0.0500.0] [0.8800.0.0500.0]
w 0062 ; [2B202000.0500.0.0500.0]
w 0063 ; [2A300000.0500.0.0A03.2] [2A300000.0500.0.0500.0]
w 0061 | 0063 ; [2A340000.0500.0.0500.0]
w 0062 0061 | 0063 ;
w 0068 ; [2A380000.0500.0.0500.0]
w 0068 0069 ; [2A390000.0500.0.0500.0]
w 0061 | 0068 ; [2A3A0000.0500.0.0500.0] [0.8600.0.0500.0]
w 006A ; [2A3B0000.0500.0.0A03.2] [2A3C0000.0500.0.0500.0]
w 0031 ; [11110000.0500.0.0500.0]
w 0032 ; [0.8600.0.0500.0] [11120000.0500.0.0500.0]
w 1100 ; [2A350000.0500.0.0500.0]
w FFC1 ; [2A3E0000.0500.0.0500.0]
digit 0031 1
digit 0032 2
range 0070 0075 E0020200 3
t 0061 0064 ; [2A220000.0500.0.0500.0]
t 0062 ; [2B212000.0500.0.0500.0]
t 0064 | 0063 ; [2A240000.0500.0.0500.0] [0.8800.0.0500.0]
t 0066 ; [0.0000.2.3F00.0]
t 0067 ; [0.8A02.0.0500.0]
t 0031 ; [11130000.0500.0.0500.0]
t 0070 0061 ; [2A360000.0500.0.0500.0]
set reorder 2A 2B 2B 2A
";

/// The parts of the leads 2C and 2D (hex) that are cut: primaries whose second byte is below 80 change places, others stay.
const CUTS: [u32; 4] = [0x2c00_0000, 0x2c80_0001, 0x2d00_0000, 0x2d80_00ff];

/// From this primary on others stay.
const BOUND: u32 = 0x2d80_0000;

/// The secondaries of the marks from U+0300 on, as the records have them: the compiler writes none, and says of each mark what
/// its record has.
const SECONDARIES: [u16; 3] = [0x8600, 0x8800, 0x8a02];

/// The number of characters of the first list, which are put into `scalars16`: the builder of tables has them in `scalars24`.
const FIRST_LIST: usize = 3;

/// The canonical word of the first list where it stands in `scalars24`.
const IN_SCALARS24: u32 = 0x1_0002;

/// And where it stands in `scalars16`.
const IN_SCALARS16: u32 = 0x1_0001;

/// Appends the items of a packed vector to a list.
fn push_items<T: PackedItem>(
    lists: &mut Lists,
    part: Part,
    items: &PackedVec<'_, T>,
) -> Option<()> {
    for item in items.iter() {
        lists.push(part, item)?;
    }
    Some(())
}

/// What stands after some words on the line of a text that begins with them.
fn behind<'t>(text: &'t str, words: &str) -> Option<&'t str> {
    for line in text.lines() {
        if let Some(rest) = line.strip_prefix(words) {
            return Some(rest);
        }
    }
    None
}

/// Appends the units of an index, in decimal.
fn push_units(lists: &mut Lists, part: Part, units: &str) -> Option<()> {
    for unit in units.split(',') {
        lists.push(part, unit.trim().parse::<u16>().ok()?)?;
    }
    Some(())
}

/// Appends the words of cells, in decimal, that of the first list as it is in `scalars16`.
fn push_words(lists: &mut Lists, part: Part, words: &str) -> Option<()> {
    for word in words.split(',') {
        let word = word.trim().parse::<u32>().ok()?;
        let moved = matches!(part, Part::CanonicalCells) && word == IN_SCALARS24;
        lists.push(part, if moved { IN_SCALARS16 } else { word })?;
    }
    Some(())
}

/// Appends the index and the cells of a trie, from its text.
fn push_trie(
    alloc: Global,
    lists: &mut Lists,
    parts: TrieParts,
    trie: &CodePointTrie<'_, u32>,
) -> Option<()> {
    let text = trie.to_toml(alloc).ok()?;
    let index = behind(text.as_str(), "index = [")?;
    push_units(lists, parts.index, index.strip_suffix("]")?)?;
    let cells = behind(text.as_str(), "data = [")?;
    push_words(lists, parts.cells, cells.strip_suffix("]")?)
}

/// Appends the lists of the root or of the tailoring.
fn push_data(
    alloc: Global,
    lists: &mut Lists,
    parts: DataParts,
    data: &CollationData<'_>,
) -> Option<()> {
    push_trie(alloc, lists, parts.trie, &data.trie)?;
    push_items(lists, parts.ces, &data.ces)?;
    push_items(lists, parts.ce32s, &data.ce32s)?;
    push_items(lists, parts.contexts, &data.contexts)
}

/// Appends the leads of a reordering, and cuts two more. A lead that stays has no byte, as those that are cut.
fn push_reordering(lists: &mut Lists, reordering: &CollationReordering<'_>) -> Option<()> {
    for lead in 0..reordering.reorder_table.len() {
        let other = reordering.reorder_table.get(lead)?;
        let stays = usize::from(other) == lead;
        lists.push(Part::Leads, if stays { 0 } else { other })?;
    }
    for cut in CUTS {
        lists.push(Part::Ranges, cut)?;
    }
    lists.push(Part::Bound, BOUND)
}

/// Appends the secondaries of marks.
fn push_secondaries(lists: &mut Lists) -> Option<()> {
    for secondary in SECONDARIES {
        lists.push(Part::Secondaries, secondary)?;
    }
    Some(())
}

/// Appends the lists of collation tables, and secondaries of marks.
fn push_tables(alloc: Global, lists: &mut Lists, tables: &CollationTables<'_>) -> Option<()> {
    push_data(alloc, lists, ROOT, &tables.root)?;
    push_data(alloc, lists, TAILORING, tables.tailoring.as_ref()?)?;
    push_secondaries(lists)?;
    push_items(lists, Part::Jamo, &tables.jamo.ce32s)?;
    push_reordering(lists, tables.reordering.as_ref()?)?;
    lists.push(Part::Metadata, tables.metadata.bits)?;
    let special_primaries = &tables.special_primaries;
    push_items(
        lists,
        Part::LastPrimaries,
        &special_primaries.last_primaries,
    )?;
    lists.push(Part::NumericPrimary, special_primaries.numeric_primary)
}

/// Appends full lists, the first of them to `scalars16`.
fn push_scalars(lists: &mut Lists, scalars: &PackedVec<'_, char>) -> Option<()> {
    for index in 0..scalars.len() {
        let c = scalars.get(index)?;
        if index < FIRST_LIST {
            lists.push(Part::Scalars16, u16::try_from(c as u32).ok()?)?;
        } else {
            lists.push(Part::Scalars24, c)?;
        }
    }
    Some(())
}

/// Appends the lists of canonical tables.
fn push_canonical(alloc: Global, lists: &mut Lists, tables: &CanonicalTables<'_>) -> Option<()> {
    push_trie(alloc, lists, CANONICAL, &tables.trie)?;
    push_scalars(lists, &tables.scalars24)?;
    push_items(lists, Part::Steps, &tables.steps)?;
    push_items(lists, Part::Pairs, &tables.pairs)
}

/// The lists of tables.
fn lists_of(alloc: Global, held: &HeldCollation<'_>) -> Option<Lists> {
    let mut lists = Lists::new(alloc)?;
    push_tables(alloc, &mut lists, &held.tables)?;
    push_canonical(alloc, &mut lists, &held.canonical)?;
    Some(lists)
}

/// The lists of good tables; `None` where memory is refused.
pub fn good_lists(alloc: Global) -> Option<Lists> {
    let held = held_tables(alloc, RECORDS, TrieType::Small)?;
    lists_of(alloc, &held)
}

//! Changes of tables, one at a time: a list that is cut by its last item, and a bit that is inverted.

use crate::held::HeldCollation;
use icu_codepointtrie::{CodePointTrie, CodePointTrieTomlError};
use icu_collator_core::tables::{CollationData, CollationTables};
use icu_normalizer_core::canonical::CanonicalTables;
use icu_packed_vector::{PackedItem, PackedVec, PackedVecError};
use std::alloc::{AllocError, Global};

/// One of the lists of a trie, or beside it.
#[derive(Clone, Copy)]
pub enum DataField {
    /// The index of the trie.
    Index,
    /// The words of the trie.
    Cells,
    /// Elements, and the primaries of ranges.
    Ces,
    /// Words of expansions and of digits.
    Ce32s,
    /// Contexts.
    Contexts,
}

/// One of the lists of canonical tables.
#[derive(Clone, Copy)]
pub enum CanonicalField {
    /// The index of the trie.
    Index,
    /// The words of the trie.
    Cells,
    /// Full lists of characters below 10000 (hex).
    Scalars16,
    /// Other full lists.
    Scalars24,
    /// The mappings.
    Steps,
    /// The composed pairs.
    Pairs,
}

/// One of the lists that a provider's tables have.
#[derive(Clone, Copy)]
pub enum Field {
    /// One of the canonical tables.
    Canonical(CanonicalField),
    /// One of the root.
    Root(DataField),
    /// One of the tailoring.
    Tailoring(DataField),
    /// The secondaries of marks.
    Secondaries,
    /// The words of jamo.
    Jamo,
    /// What takes the place of each lead.
    Leads,
    /// The parts of leads that are cut.
    Ranges,
    /// The groups and the compressible leads.
    LastPrimaries,
}

impl Field {
    /// Whether it is a trie's: which cells a trie has is left to its builder.
    pub fn is_of_trie(self) -> bool {
        matches!(
            self,
            Field::Canonical(CanonicalField::Index | CanonicalField::Cells)
                | Field::Root(DataField::Index | DataField::Cells)
                | Field::Tailoring(DataField::Index | DataField::Cells)
        )
    }
}

/// All of them, with their names.
pub const FIELDS: [(Field, &str); 21] = [
    (Field::Canonical(CanonicalField::Index), "canonical index"),
    (Field::Canonical(CanonicalField::Cells), "canonical data"),
    (Field::Canonical(CanonicalField::Scalars16), "scalars16"),
    (Field::Canonical(CanonicalField::Scalars24), "scalars24"),
    (Field::Canonical(CanonicalField::Steps), "steps"),
    (Field::Canonical(CanonicalField::Pairs), "pairs"),
    (Field::Root(DataField::Index), "root index"),
    (Field::Root(DataField::Cells), "root data"),
    (Field::Root(DataField::Ces), "root ces"),
    (Field::Root(DataField::Ce32s), "root ce32s"),
    (Field::Root(DataField::Contexts), "root contexts"),
    (Field::Tailoring(DataField::Index), "tailoring index"),
    (Field::Tailoring(DataField::Cells), "tailoring data"),
    (Field::Tailoring(DataField::Ces), "tailoring ces"),
    (Field::Tailoring(DataField::Ce32s), "tailoring ce32s"),
    (Field::Tailoring(DataField::Contexts), "tailoring contexts"),
    (Field::Secondaries, "secondaries"),
    (Field::Jamo, "jamo"),
    (Field::Leads, "reorder_table"),
    (Field::Ranges, "reorder_ranges"),
    (Field::LastPrimaries, "last_primaries"),
];

/// What is done to a list.
#[derive(Clone, Copy)]
pub enum Change {
    /// Its last item goes.
    Cut,
    /// A bit is inverted, the lowest of an item first.
    Invert(usize),
}

/// Why a list isn't changed.
#[derive(Debug, Drop)]
pub enum NotChanged {
    /// There is no such list, item or bit.
    Nothing,
    /// The bytes mean no items.
    Packed(PackedVecError),
    /// They are no trie's.
    Trie(CodePointTrieTomlError),
    /// Memory was refused.
    Memory,
}

impl From<AllocError> for NotChanged {
    fn from(_: AllocError) -> NotChanged {
        NotChanged::Memory
    }
}

impl From<PackedVecError> for NotChanged {
    fn from(error: PackedVecError) -> NotChanged {
        NotChanged::Packed(error)
    }
}

impl From<CodePointTrieTomlError> for NotChanged {
    fn from(error: CodePointTrieTomlError) -> NotChanged {
        NotChanged::Trie(error)
    }
}

/// Changes the bytes of items of a width; `None` where there is no such item.
fn change_bytes(bytes: &mut Vec<u8>, width: usize, change: Change) -> Option<()> {
    match change {
        Change::Cut => bytes.truncate(bytes.len().checked_sub(width)?),
        Change::Invert(bit) => *bytes.get_mut(bit / 8)? ^= 1 << (bit % 8),
    }
    Some(())
}

/// The bytes of items.
fn bytes_of<T: PackedItem>(alloc: Global, items: &PackedVec<'_, T>) -> Result<Vec<u8>, AllocError> {
    let mut bytes = Vec::new(alloc);
    for item in items.iter() {
        item.write(&mut bytes)?;
    }
    Ok(bytes)
}

/// The items with a change.
fn changed<T: PackedItem>(
    alloc: Global,
    items: &PackedVec<'_, T>,
    change: Change,
) -> Result<PackedVec<'static, T>, NotChanged> {
    let mut bytes = bytes_of(alloc, items)?;
    if change_bytes(&mut bytes, T::WIDTH, change).is_none() {
        return Err(NotChanged::Nothing);
    }
    let items: PackedVec<'_, T> = PackedVec::try_from_bytes(bytes.as_slice())?;
    let items = items.into_owned(alloc)?;
    Ok(items)
}

/// The numbers of a line of a trie's text, of so many bits each.
#[derive(Drop)]
struct Numbers {
    numbers: Vec<u32>,
    bits: usize,
}

/// The numbers between commas.
fn numbers_of(alloc: Global, text: &str, bits: usize) -> Option<Numbers> {
    let mut numbers = Vec::new(alloc);
    for number in text.split(',') {
        numbers.push(number.trim().parse::<u32>().ok()?).ok()?;
    }
    Some(Numbers { numbers, bits })
}

impl Numbers {
    /// Changes the numbers; `None` where there is no such item.
    fn change(&mut self, change: Change) -> Option<()> {
        match change {
            Change::Cut => {
                self.numbers.pop()?;
            }
            Change::Invert(bit) => {
                let index = bit.checked_div(self.bits)?;
                let bit = u32::try_from(bit.checked_rem(self.bits)?).ok()?;
                let mask = 1u32.checked_shl(bit)?;
                *self.numbers.get_mut(index)? ^= mask;
            }
        }
        Some(())
    }

    /// Appends them to a text.
    fn write(&self, text: &mut String) -> Option<()> {
        for (index, number) in self.numbers.iter().enumerate() {
            let separator = if index == 0 { "" } else { ", " };
            write!(text, "{separator}{number}").ok()?;
        }
        Some(())
    }
}

/// Appends a line of a trie's text with a change of its numbers.
fn push_changed(
    alloc: Global,
    text: &mut String,
    numbers: &str,
    bits: usize,
    change: Change,
) -> Option<()> {
    let mut numbers = numbers_of(alloc, numbers.strip_suffix("]")?, bits)?;
    numbers.change(change)?;
    numbers.write(text)?;
    text.push_str("]\n").ok()
}

/// A trie's text with a change of the numbers after some words, of so many bits each.
fn changed_text(
    alloc: Global,
    text: &str,
    words: &str,
    bits: usize,
    change: Change,
) -> Option<String> {
    let mut changed = String::new(alloc);
    for line in text.lines() {
        match line.strip_prefix(words) {
            Some(numbers) => {
                changed.push_str(words).ok()?;
                push_changed(alloc, &mut changed, numbers, bits, change)?;
            }
            None => {
                changed.push_str(line).ok()?;
                changed.push_str("\n").ok()?;
            }
        }
    }
    Some(changed)
}

/// A trie with a change of its index, or of its cells.
fn changed_trie(
    alloc: Global,
    trie: &CodePointTrie<'_, u32>,
    of_index: bool,
    change: Change,
) -> Result<CodePointTrie<'static, u32>, NotChanged> {
    let text = trie.to_toml(alloc)?;
    let (words, bits) = if of_index {
        ("index = [", 16)
    } else {
        ("data = [", 32)
    };
    match changed_text(alloc, text.as_str(), words, bits, change) {
        Some(text) => {
            let trie = CodePointTrie::from_toml(alloc, text.as_str())?;
            Ok(trie)
        }
        None => Err(NotChanged::Nothing),
    }
}

/// Changes a list of canonical tables.
fn change_canonical(
    alloc: Global,
    tables: &mut CanonicalTables<'static>,
    field: CanonicalField,
    change: Change,
) -> Result<(), NotChanged> {
    match field {
        CanonicalField::Index => tables.trie = changed_trie(alloc, &tables.trie, true, change)?,
        CanonicalField::Cells => tables.trie = changed_trie(alloc, &tables.trie, false, change)?,
        CanonicalField::Scalars16 => tables.scalars16 = changed(alloc, &tables.scalars16, change)?,
        CanonicalField::Scalars24 => tables.scalars24 = changed(alloc, &tables.scalars24, change)?,
        CanonicalField::Steps => tables.steps = changed(alloc, &tables.steps, change)?,
        CanonicalField::Pairs => tables.pairs = changed(alloc, &tables.pairs, change)?,
    }
    Ok(())
}

/// Changes a list of the root or of a tailoring.
fn change_data(
    alloc: Global,
    data: &mut CollationData<'static>,
    field: DataField,
    change: Change,
) -> Result<(), NotChanged> {
    match field {
        DataField::Index => data.trie = changed_trie(alloc, &data.trie, true, change)?,
        DataField::Cells => data.trie = changed_trie(alloc, &data.trie, false, change)?,
        DataField::Ces => data.ces = changed(alloc, &data.ces, change)?,
        DataField::Ce32s => data.ce32s = changed(alloc, &data.ce32s, change)?,
        DataField::Contexts => data.contexts = changed(alloc, &data.contexts, change)?,
    }
    Ok(())
}

/// Changes a list of a reordering, if there is one.
fn change_reordering(
    alloc: Global,
    tables: &mut CollationTables<'static>,
    of_leads: bool,
    change: Change,
) -> Result<(), NotChanged> {
    let Some(reordering) = &mut tables.reordering else {
        return Err(NotChanged::Nothing);
    };
    if of_leads {
        reordering.reorder_table = changed(alloc, &reordering.reorder_table, change)?;
    } else {
        reordering.reorder_ranges = changed(alloc, &reordering.reorder_ranges, change)?;
    }
    Ok(())
}

/// Changes a list of a tailoring, if there is one.
fn change_tailoring(
    alloc: Global,
    tables: &mut CollationTables<'static>,
    field: DataField,
    change: Change,
) -> Result<(), NotChanged> {
    match &mut tables.tailoring {
        Some(tailoring) => change_data(alloc, tailoring, field, change),
        None => Err(NotChanged::Nothing),
    }
}

/// Changes a list of what stands beside the root and the tailoring.
fn change_other(
    alloc: Global,
    tables: &mut CollationTables<'static>,
    field: Field,
    change: Change,
) -> Result<(), NotChanged> {
    match field {
        Field::Secondaries => {
            tables.diacritics.secondaries = changed(alloc, &tables.diacritics.secondaries, change)?;
        }
        Field::Jamo => tables.jamo.ce32s = changed(alloc, &tables.jamo.ce32s, change)?,
        Field::LastPrimaries => {
            let words = changed(alloc, &tables.special_primaries.last_primaries, change)?;
            tables.special_primaries.last_primaries = words;
        }
        _ => return Err(NotChanged::Nothing),
    }
    Ok(())
}

/// Changes a list of what a provider holds; where it can't be changed, all is as before.
pub fn apply(
    alloc: Global,
    held: &mut HeldCollation<'static>,
    field: Field,
    change: Change,
) -> Result<(), NotChanged> {
    let tables = &mut held.tables;
    match field {
        Field::Canonical(field) => change_canonical(alloc, &mut held.canonical, field, change),
        Field::Root(field) => change_data(alloc, &mut tables.root, field, change),
        Field::Tailoring(field) => change_tailoring(alloc, tables, field, change),
        Field::Leads => change_reordering(alloc, tables, true, change),
        Field::Ranges => change_reordering(alloc, tables, false, change),
        field => change_other(alloc, tables, field, change),
    }
}

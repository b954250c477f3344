//! The tables that lists make, borrowed from them.

use crate::byte_lists::{Lists, Part};
use icu_codepointtrie::{CodePointTrie, CodePointTrieError, CodePointTrieHeader, TrieType};
use icu_collator_core::tables::{
    CollationData, CollationDiacritics, CollationJamo, CollationMetadata, CollationReordering,
    CollationSpecialPrimaries, CollationTables,
};
use icu_normalizer_core::canonical::CanonicalTables;
use icu_packed_vector::{PackedVec, PackedVecError};

/// Lists make no tables: bytes mean no item, or an index and cells are no trie's.
#[derive(Drop)]
pub struct NoTables;

impl From<PackedVecError> for NoTables {
    fn from(_: PackedVecError) -> NoTables {
        NoTables
    }
}

impl From<CodePointTrieError> for NoTables {
    fn from(_: CodePointTrieError) -> NoTables {
        NoTables
    }
}

/// The lists of a trie, and what its header says.
#[derive(Clone, Copy)]
pub struct TrieParts {
    /// The index.
    pub index: Part,
    /// The cells.
    pub cells: Part,
    /// From this code point on all have one word.
    pub high_start: u32,
    /// The type.
    pub trie_type: TrieType,
}

/// The lists of the root or of a tailoring.
#[derive(Clone, Copy)]
pub struct DataParts {
    /// Those of its trie.
    pub trie: TrieParts,
    /// Elements.
    pub ces: Part,
    /// Words.
    pub ce32s: Part,
    /// Contexts.
    pub contexts: Part,
}

/// The root.
pub const ROOT: DataParts = DataParts {
    trie: TrieParts {
        index: Part::RootIndex,
        cells: Part::RootCells,
        high_start: 0x1_0000,
        trie_type: TrieType::Small,
    },
    ces: Part::RootCes,
    ce32s: Part::RootCe32s,
    contexts: Part::RootContexts,
};

/// The tailoring.
pub const TAILORING: DataParts = DataParts {
    trie: TrieParts {
        index: Part::TailoringIndex,
        cells: Part::TailoringCells,
        high_start: 0x1000,
        trie_type: TrieType::Small,
    },
    ces: Part::TailoringCes,
    ce32s: Part::TailoringCe32s,
    contexts: Part::TailoringContexts,
};

/// The canonical tables.
pub const CANONICAL: TrieParts = TrieParts {
    index: Part::CanonicalIndex,
    cells: Part::CanonicalCells,
    high_start: 0x1_0000,
    trie_type: TrieType::Fast,
};

/// What stands beside the root and the tailoring.
#[derive(Drop)]
struct Settings<'t> {
    secondaries: PackedVec<'t, u16>,
    jamo: PackedVec<'t, u32>,
    reordering: CollationReordering<'t>,
    bits: u32,
    special_primaries: CollationSpecialPrimaries<'t>,
}

impl Lists {
    /// A trie.
    fn trie(&self, parts: TrieParts) -> Result<CodePointTrie<'_, u32>, NoTables> {
        let header = CodePointTrieHeader {
            high_start: parts.high_start,
            shifted12_high_start: 0x10,
            index3_null_offset: 0xffff,
            data_null_offset: 0xf_ffff,
            null_value: 0,
            trie_type: parts.trie_type,
        };
        let index = self.items(parts.index)?;
        let cells = self.items(parts.cells)?;
        let trie = CodePointTrie::try_new(header, index, cells)?;
        Ok(trie)
    }

    /// The root or the tailoring.
    fn data(&self, parts: DataParts) -> Result<CollationData<'_>, NoTables> {
        Ok(CollationData {
            trie: self.trie(parts.trie)?,
            ces: self.items(parts.ces)?,
            ce32s: self.items(parts.ce32s)?,
            contexts: self.items(parts.contexts)?,
        })
    }

    /// A number of four bytes.
    fn number(&self, part: Part) -> Result<u32, NoTables> {
        let items = self.items(part)?;
        Ok(items.get(0).unwrap_or(0))
    }

    /// The reordering.
    fn reordering(&self) -> Result<CollationReordering<'_>, NoTables> {
        Ok(CollationReordering {
            min_high_no_reorder: self.number(Part::Bound)?,
            reorder_table: self.items(Part::Leads)?,
            reorder_ranges: self.items(Part::Ranges)?,
        })
    }

    /// The groups, the compressible leads and the lead of numbers.
    fn special_primaries(&self) -> Result<CollationSpecialPrimaries<'_>, NoTables> {
        let leads = self.items(Part::NumericPrimary)?;
        Ok(CollationSpecialPrimaries {
            last_primaries: self.items(Part::LastPrimaries)?,
            numeric_primary: leads.get(0).unwrap_or(0),
        })
    }

    /// What stands beside the root and the tailoring.
    fn settings(&self) -> Result<Settings<'_>, NoTables> {
        Ok(Settings {
            secondaries: self.items(Part::Secondaries)?,
            jamo: self.items(Part::Jamo)?,
            reordering: self.reordering()?,
            bits: self.number(Part::Metadata)?,
            special_primaries: self.special_primaries()?,
        })
    }

    /// The collation tables with this root and tailoring.
    fn tables_of<'t>(
        &'t self,
        root: CollationData<'t>,
        tailoring: CollationData<'t>,
    ) -> Result<CollationTables<'t>, NoTables> {
        let settings = self.settings()?;
        Ok(CollationTables {
            root,
            tailoring: Some(tailoring),
            diacritics: CollationDiacritics {
                secondaries: settings.secondaries,
            },
            jamo: CollationJamo {
                ce32s: settings.jamo,
            },
            reordering: Some(settings.reordering),
            metadata: CollationMetadata {
                bits: settings.bits,
            },
            special_primaries: settings.special_primaries,
        })
    }

    /// The collation tables.
    pub fn collation_tables(&self) -> Result<CollationTables<'_>, NoTables> {
        let root = self.data(ROOT)?;
        let tailoring = self.data(TAILORING)?;
        self.tables_of(root, tailoring)
    }

    /// The canonical tables.
    pub fn canonical_tables(&self) -> Result<CanonicalTables<'_>, NoTables> {
        let scalars16 = self.items(Part::Scalars16)?;
        let scalars24 = self.items(Part::Scalars24)?;
        let steps = self.items(Part::Steps)?;
        let pairs = self.items(Part::Pairs)?;
        Ok(CanonicalTables {
            trie: self.trie(CANONICAL)?,
            scalars16,
            scalars24,
            steps,
            pairs,
        })
    }
}

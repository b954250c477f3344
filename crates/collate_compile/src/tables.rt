//! Collation tables, compiled of the lines of a records file.

ghost use Rattle.std.specs.Prelude.{map, IfOk};
ghost use Rattle.icu_normalizer_core.specs.BorrowedMeaning.{borrowed_meaning};
ghost use Rattle.icu_normalizer_core.specs.Sameness.{AreSameCanonical};
ghost use Rattle.collate_lines.specs.Record.{said};
ghost use Rattle.collate_rules.specs.Accepted.{AreAccepted};
ghost use Rattle.collate_rules.specs.KeptSettings.{AreSoundlySet};
ghost use Rattle.collate_rules.specs.Meaning.{canonical_of};
ghost use Rattle.collate_compile.specs.Compiled.{AreCompiledFrom, HaveTrieType};

use crate::jamo::jamo_words;
use crate::layers::{write_root, write_tailoring};
use crate::noted_lines::NotedLines;
use crate::reordering::reordering;
use crate::settings::metadata;
use crate::special_primaries::special_primaries;
use collate_lines::record::Record;
use icu_codepointtrie::TrieType;
use icu_collator_core::tables::{CollationDiacritics, CollationJamo, CollationTables};
use icu_normalizer_core::canonical::CanonicalBorrowed;
use icu_packed_vector::PackedVec;
use std::alloc::{AllocError, Global};

/// The tables of accepted lines, with tries of this type. That what accepted lines set is sound is a law of
/// `collate_record_rules`.
///
/// Errors: `AllocError` where memory is refused.
pub fn compile_tables(
    alloc: Global,
    lines: &[Record],
    canonical: &CanonicalBorrowed<'_>,
    trie_type: TrieType,
) -> Result<CollationTables<'static>, AllocError>
    requires accepted { AreAccepted (map said lines.now) }
    requires settings { AreSoundlySet (map said lines.now) }
    requires canonical { AreSameCanonical (borrowed_meaning canonical.now) (canonical_of (map said lines.now)) }
    ensures compiled { IfOk result (AreCompiledFrom (map said lines.now)) }
    ensures trie_type { IfOk result (HaveTrieType trie_type) }
{
    let noted = NotedLines::new(alloc, lines)?;
    let root = write_root(alloc, &noted, canonical, trie_type)?;
    let tailoring = write_tailoring(alloc, &noted, canonical, trie_type)?;
    let jamo = CollationJamo {
        ce32s: jamo_words(alloc, &noted)?,
    };
    let reordering = reordering(alloc, lines)?;
    let special_primaries = special_primaries(alloc, lines)?;
    let diacritics = CollationDiacritics {
        secondaries: PackedVec::from_slice(alloc, &[])?,
    };
    let metadata = metadata(lines, tailoring.is_some(), reordering.is_some());
    Ok(CollationTables {
        root,
        tailoring,
        diacritics,
        jamo,
        reordering,
        metadata,
        special_primaries,
    })
}

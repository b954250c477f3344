//! The data of the root and of the tailoring, written of the lines of a records file.

ghost use Rattle.std.specs.Prelude.{◌≡◌, ℕ, ◌+◌, ◌*◌, ◌==◌, ◌∷◌, [], cond, count_by, false, map, sum_by, List, IfOk, IfSome, MatchOption, OnOk};
ghost use Rattle.icu_normalizer_core.specs.BorrowedMeaning.{borrowed_meaning};
ghost use Rattle.icu_normalizer_core.specs.Sameness.{AreSameCanonical};
ghost use Rattle.collate_lines.specs.Record.{Layer as PlainLayer, Record as PlainRecord, said};
ghost use Rattle.collate_rules.specs.Accepted.{AreAccepted};
ghost use Rattle.collate_rules.specs.Meaning.{canonical_of};
ghost use Rattle.collate_rules.specs.Rules.{is_range};
ghost use Rattle.collate_words.specs.Entries.{saying_of};
ghost use Rattle.collate_words.specs.Fits.{HasRoom, IsFit};
ghost use Rattle.collate_words.specs.Growth.{GrowsFor};
ghost use Rattle.collate_words.specs.Sayings.{Saying};
ghost use Rattle.collate_compile.specs.Beginnings.{elements_begun, texts_begun};
ghost use Rattle.collate_compile.specs.LayerBuilds.{AreRangesWritten, AreWritten, GivesWord, GrowsBy, KeepsOthers};
ghost use Rattle.collate_compile.specs.Layers.{HasTrieType, IsRootOf, IsTailoringOf};
ghost use Rattle.collate_compile.specs.LineSayings.{IsSayingOf, is_tailored, ranged_saying};

use crate::beginnings::beginnings;
use crate::entries::{entry_of, offset_bits};
use crate::layer_builder::LayerBuilder;
use crate::noted_lines::NotedLines;
use collate_lines::record::{Layer, Record};
use collate_words::entry::{Entry, SuffixFlags};
use collate_words::write_entry::words_say_the_same_in_longer_lists;
use icu_codepointtrie::TrieType;
use icu_collator_core::tables::CollationData;
use icu_normalizer_core::canonical::CanonicalBorrowed;
use std::alloc::{AllocError, Global};

/// The word of a character that nothing is written for in the root: its primary goes by its code point.
const IMPLICIT: u32 = 0xCF;

/// The word of a character that a tailoring leaves to the root.
const FALLBACK: u32 = 0xC0;

/// What is said of the characters of a range.
fn ranged_entry<'a>(alloc: Global, bits: u64) -> Entry<'a>
    ensures says { saying_of result ≡ ranged_saying bits }
    ensures fit { IsFit (saying_of result) }
{
    Entry {
        own: None,
        offset: Some(bits),
        digit: None,
        suffixes: Vec::new(alloc),
        prefixes: Vec::new(alloc),
        flags: SuffixFlags {
            all_begin: true,
            one_ends: false,
            one_holds: false,
        },
    }
}

/// Writes the range of a line, if it is one.
///
/// Errors: `AllocError` where memory is refused.
fn write_range(
    alloc: Global,
    noted: &NotedLines<'_>,
    line: &Record,
    layer: &mut LayerBuilder,
) -> Result<(), AllocError>
    requires { HasRoom layer.old.pools (cond (is_range (said line.now)) 1 0) 0 }
    ensures written { (some : List PlainRecord) → AreRangesWritten (map said noted.now.lines.now) some layer.old
        → OnOk result (AreRangesWritten (map said noted.now.lines.now) (said line.now ∷ some) layer.new) }
    ensures size { let count = cond (is_range (said line.now)) 1 0
        in OnOk result (GrowsBy count (3 * count) layer.old layer.new) }
{
    match line {
        Record::Range(range) => {
            words_say_the_same_in_longer_lists();
            let entry = ranged_entry(alloc, offset_bits(noted, *range));
            layer.write_range(alloc, range.first, range.last, &entry)
        }
        _ => Ok(()),
    }
}

/// Writes all ranges, from the last line on: of those that share a character the first counts.
///
/// Errors: `AllocError` where memory is refused.
fn write_ranges(
    alloc: Global,
    noted: &NotedLines<'_>,
    layer: &mut LayerBuilder,
) -> Result<(), AllocError>
    requires room { HasRoom layer.old.pools (count_by is_range (map said noted.now.lines.now)) 0 }
    requires none { AreRangesWritten (map said noted.now.lines.now) [] layer.old }
    ensures written { OnOk result (AreRangesWritten (map said noted.now.lines.now) (map said noted.now.lines.now) layer.new) }
    ensures size { let count = count_by is_range (map said noted.now.lines.now)
        in OnOk result (GrowsBy count (3 * count) layer.old layer.new) }
{
    let lines = noted.lines;
    for i in 0..lines.len() {
        let line = &lines[lines.len() - 1 - i];
        write_range(alloc, noted, line, layer)?;
    }
    Ok(())
}

/// Writes what accepted lines record of the texts that begin with a character.
///
/// Errors: `AllocError` where memory is refused.
fn write_character(
    alloc: Global,
    noted: &NotedLines<'_>,
    canonical: &CanonicalBorrowed<'_>,
    character: char,
    layer: &mut LayerBuilder,
) -> Result<(), AllocError>
    requires accepted { AreAccepted (map said noted.now.lines.now) }
    requires canonical { AreSameCanonical (borrowed_meaning canonical.now) (canonical_of (map said noted.now.lines.now)) }
    requires room { HasRoom layer.old.pools (1 + elements_begun (map said noted.now.lines.now) character)
        (texts_begun (map said noted.now.lines.now) character) }
    ensures written { OnOk result ((saying : Saying) × IsSayingOf (map said noted.now.lines.now) character saying
        × GivesWord layer.old layer.new (λ c. c == character) saying) }
    ensures size { OnOk result (GrowsFor (1 + elements_begun (map said noted.now.lines.now) character)
        (texts_begun (map said noted.now.lines.now) character) layer.old.pools layer.new.pools) }
{
    let entry = entry_of(alloc, noted, character, canonical)?;
    layer.write_character(alloc, character, &entry)?;
    Ok(())
}

/// Writes what accepted lines record of the texts that begin with one of the characters.
///
/// Errors: `AllocError` where memory is refused.
fn write_characters(
    alloc: Global,
    noted: &NotedLines<'_>,
    canonical: &CanonicalBorrowed<'_>,
    characters: &[char],
    layer: &mut LayerBuilder,
) -> Result<(), AllocError>
    requires accepted { AreAccepted (map said noted.now.lines.now) }
    requires canonical { AreSameCanonical (borrowed_meaning canonical.now) (canonical_of (map said noted.now.lines.now)) }
    requires room { HasRoom layer.old.pools (sum_by (λ c. 1 + elements_begun (map said noted.now.lines.now) c) characters.now)
        (sum_by (texts_begun (map said noted.now.lines.now)) characters.now) }
    ensures written { (which : PlainLayer) → AreWritten which (map said noted.now.lines.now) [] layer.old
        → OnOk result (AreWritten which (map said noted.now.lines.now) characters.now layer.new) }
    ensures size { OnOk result (KeepsOthers (sum_by (λ c. 1 + elements_begun (map said noted.now.lines.now) c) characters.now)
        (sum_by (texts_begun (map said noted.now.lines.now)) characters.now) characters.now layer.old layer.new) }
{
    words_say_the_same_in_longer_lists();
    for character in characters {
        write_character(alloc, noted, canonical, *character, layer)?;
    }
    Ok(())
}

/// The data of the root, as accepted lines give them, over a trie of this type.
///
/// Errors: `AllocError` where memory is refused.
pub(crate) fn write_root(
    alloc: Global,
    noted: &NotedLines<'_>,
    canonical: &CanonicalBorrowed<'_>,
    trie_type: TrieType,
) -> Result<CollationData<'static>, AllocError>
    requires accepted { AreAccepted (map said noted.now.lines.now) }
    requires canonical { AreSameCanonical (borrowed_meaning canonical.now) (canonical_of (map said noted.now.lines.now)) }
    ensures root { IfOk result (IsRootOf (map said noted.now.lines.now)) }
    ensures trie_type { IfOk result (HasTrieType trie_type) }
{
    let characters = beginnings(alloc, noted, Layer::Root)?;
    let mut layer = LayerBuilder::new(alloc, IMPLICIT, trie_type)?;
    write_ranges(alloc, noted, &mut layer)?;
    write_characters(alloc, noted, canonical, characters.as_slice(), &mut layer)?;
    let root = layer.build(alloc)?;
    Ok(root)
}

/// The data of the tailoring, as accepted lines give them, over a trie of this type; none where no character needs it.
///
/// Errors: `AllocError` where memory is refused.
pub(crate) fn write_tailoring(
    alloc: Global,
    noted: &NotedLines<'_>,
    canonical: &CanonicalBorrowed<'_>,
    trie_type: TrieType,
) -> Result<Option<CollationData<'static>>, AllocError>
    requires accepted { AreAccepted (map said noted.now.lines.now) }
    requires canonical { AreSameCanonical (borrowed_meaning canonical.now) (canonical_of (map said noted.now.lines.now)) }
    ensures tailoring { IfOk result (λ tailoring. MatchOption tailoring
        ((c : ℕ) → is_tailored (map said noted.now.lines.now) c ≡ false)
        (IsTailoringOf (map said noted.now.lines.now))) }
    ensures trie_type { IfOk result (λ tailoring. IfSome tailoring (HasTrieType trie_type)) }
{
    let characters = beginnings(alloc, noted, Layer::Tailoring)?;
    if characters.is_empty() {
        return Ok(None);
    }
    let mut layer = LayerBuilder::new(alloc, FALLBACK, trie_type)?;
    write_characters(alloc, noted, canonical, characters.as_slice(), &mut layer)?;
    let tailoring = layer.build(alloc)?;
    Ok(Some(tailoring))
}

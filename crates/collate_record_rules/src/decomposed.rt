//! The rule that texts and prefixes equal their decomposed lists (V7).

ghost use Rattle.std.specs.Prelude.{◌≡◌, ◌&&◌, ◌||◌, ℕ, List, ltb, false, map, IfOk, MatchOption};
ghost use Rattle.std.specs.List.{list_any};
ghost use Rattle.icu_normalizer_core.specs.Canonical.{decomposed};
ghost use Rattle.collate_lines.specs.Record.{Record as PlainRecord, said};
ghost use Rattle.collate_rules.specs.Meaning.{canonical_of, class_of};
ghost use Rattle.collate_rules.specs.Offenders.{NoneOffends, IsFirstOffender};
ghost use Rattle.collate_rules.specs.RecordRules.{breaks_decomposed, has_mapping, is_disordered, is_undecomposed, is_unlike_decomposed};

use collate_lines::record::Record;
use collate_lines::rule::Rule;
use collate_rules::breaks::{LinesTest, first_to_break};
use collate_rules::noted::Characters;
use std::alloc::{AllocError, Global};

/// The first line with which a text or a prefix isn't its own decomposed list: a character of it has a canonical mapping, or
/// a mark stands after one of a higher class (rule V7, docs/RECORDS.md). Lines count from 0; `None` where no line offends.
///
/// Errors: `AllocError` where memory is refused.
pub fn first_undecomposed(alloc: Global, records: &[Record]) -> Result<Option<usize>, AllocError>
    ensures { IfOk result (λ found. MatchOption found (NoneOffends Rule.V7 (map said records.now)) (λ i. IsFirstOffender Rule.V7 (map said records.now) i)) }
{
    let found = first_to_break(alloc, records, &DecomposedTest)?;
    Ok(found)
}

/// A law, its contract: a list of which the rule asks no more is its own decomposed list.
pub fn kept_lists_are_decomposed()
    ensures { (lines : List PlainRecord) (list : List ℕ) → is_unlike_decomposed lines list ≡ false → decomposed (canonical_of lines) list ≡ list }
{}

/// The test of texts and prefixes by their decomposed lists.
#[derive(Drop)]
struct DecomposedTest;

impl LinesTest for DecomposedTest {
    ghost use Rattle.collate_rules.specs.RecordRules.{breaks_decomposed};

    ghost breach = { λ test. breaks_decomposed };

    fn breaks(&self, alloc: Global, lines: &[Record]) -> Result<bool, AllocError> {
        let given = Characters::new(alloc, lines)?;
        Ok(breaks_decomposed(&given, lines))
    }
}

/// Whether one of these lines has a text or a prefix that isn't its own decomposed list, by what
/// they say of characters.
fn breaks_decomposed(given: &Characters<'_>, lines: &[Record]) -> bool
    requires { given.now.lines.now ≡ lines.now }
    ensures { result ≡ breaks_decomposed (map said lines.now) }
{
    for line in lines {
        if is_undecomposed(given, line) {
            return true;
        }
    }
    false
}

/// Whether the text or the prefix of a line isn't.
fn is_undecomposed(given: &Characters<'_>, line: &Record) -> bool
    ensures { result ≡ is_undecomposed (map said given.now.lines.now) (said line.now) }
{
    match line {
        Record::Weights { prefix, text, .. } => {
            is_unlike_decomposed(given, prefix) || is_unlike_decomposed(given, text)
        }
        _ => false,
    }
}

/// Whether a list isn't.
fn is_unlike_decomposed(given: &Characters<'_>, list: &[char]) -> bool
    ensures { result ≡ is_unlike_decomposed (map said given.now.lines.now) list.now }
{
    has_mapped(given, list) || is_disordered(given, list)
}

/// Whether a character with a canonical mapping stands in a list.
fn has_mapped(given: &Characters<'_>, list: &[char]) -> bool
    ensures { result ≡ list_any (has_mapping (map said given.now.lines.now)) list.now }
{
    for c in list {
        if given.has_mapping(*c) {
            return true;
        }
    }
    false
}

/// Whether a mark stands directly after one of a higher class.
fn is_disordered(given: &Characters<'_>, list: &[char]) -> bool
    ensures { result ≡ is_disordered (class_of (map said given.now.lines.now)) list.now }
{
    let mut index = 0;
    while index + 1 < list.len() {
        let before = list[index];
        let behind = list[index + 1];
        if are_disordered(given, before, behind) {
            return true;
        }
        index += 1;
    }
    false
}

/// Whether the second of two characters is a mark, and of a lower class than the first.
fn are_disordered(given: &Characters<'_>, before: char, behind: char) -> bool
    ensures { result ≡ (ltb 0 (class_of (map said given.now.lines.now) behind) && ltb (class_of (map said given.now.lines.now) behind) (class_of (map said given.now.lines.now) before)) }
{
    let class = given.class_of(behind);
    0 < class && class < given.class_of(before)
}

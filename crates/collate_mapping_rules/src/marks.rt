//! The rule that a mapping stands on a starter that has no other (C1).

ghost use Rattle.std.specs.Prelude.{All, ◌↔◌, map, true, IsTrue, IfOk, MatchOption};
ghost use Rattle.collate_lines.specs.Record.{said};
ghost use Rattle.collate_rules.specs.CanonicalParts.{in_full, IsShort};
ghost use Rattle.collate_rules.specs.Rules.{IsMappedMark, MapsMark};
ghost use Rattle.collate_rules.specs.Breaches.{AnswersBreach, earlier};
ghost use Rattle.collate_rules.specs.Offenders.{NoneOffends, IsFirstOffender};

use collate_lines::record::Record;
use collate_lines::rule::Rule;
use collate_rules::canonical_parts::CanonicalParts;
use collate_rules::parts::first_breach_from;
use icu_normalizer_core::built_in::is_built_in;
use std::alloc::{AllocError, Global};

/// The first line with which a character that isn't built in has a mapping, and another one or a class other than
/// 0 (rule C1, docs/RECORDS.md). Lines count from 0; `None` where no line offends.
///
/// Errors: `AllocError` where memory is refused.
pub fn first_mapped_mark(alloc: Global, records: &[Record]) -> Result<Option<usize>, AllocError>
    requires { All IsShort (map said records.now) }
    ensures { IfOk result (λ found. MatchOption found (NoneOffends Rule.C1 (map said records.now)) (λ i. IsFirstOffender Rule.C1 (map said records.now) i)) }
{
    let parts = CanonicalParts::of_lines(alloc, records)?;
    if !map_any_mark(&parts) {
        return Ok(None);
    }
    first_breach_from(
        alloc,
        records,
        0,
        |parts: &CanonicalParts|
            ensures { AnswersBreach Rule.C1 parts.now.list.items result }
        { Ok(maps_mark(parts)) },
    )
}

/// Whether parts map a mark, where those before the last map none.
fn maps_mark(parts: &CanonicalParts) -> bool
    ensures { (MapsMark (map in_full (earlier parts.now.list.items)) → ⊥) → IsTrue result ↔ MapsMark (map in_full parts.now.list.items) }
{
    match parts.as_slice().split_last() {
        Some((part, _)) => is_mapped_mark(parts, part.character()),
        None => false,
    }
}

/// Whether a character that isn't built in has a mapping, and another one or a class other than 0.
fn is_mapped_mark(parts: &CanonicalParts, c: char) -> bool
    ensures { IsTrue result ↔ IsMappedMark (map in_full parts.now.list.items) c }
{
    parts.is_mapped(c)
        && !is_built_in(c as u32)
        && (parts.class_of(c) != 0 || parts.is_mapped_twice(c))
}

/// Whether parts map a mark.
pub(crate) fn map_any_mark(parts: &CanonicalParts) -> bool
    ensures { IsTrue result ↔ MapsMark (map in_full parts.now.list.items) }
{
    for part in &parts.list {
        if is_mapped_mark(parts, part.character()) {
            return true;
        }
    }
    false
}

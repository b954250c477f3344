//! The rule that full lists begin with a starter and have at most eight characters (C4).

ghost use Rattle.std.specs.Prelude.{All as Each, ◌≡◌, ℕ, ◌↔◌, List, map, true, IsTrue, IfOk, MatchOption};
ghost use Rattle.collate_lines.specs.Record.{said};
ghost use Rattle.collate_rules.specs.Meaning.{expanded};
ghost use Rattle.collate_rules.specs.Rules.{HasBadList, IsBadList, IsBadlyMapped};
ghost use Rattle.collate_rules.specs.CanonicalParts.{in_full, IsShort};
ghost use Rattle.collate_rules.specs.Lists.{steps_by, is_mark_at, IsFront};
ghost use Rattle.collate_rules.specs.Breaches.{AnswersBreach, AnswersClear};
ghost use Rattle.collate_rules.specs.Offenders.{NoneOffends, IsFirstOffender};
ghost use Rattle.collate_rules.specs.declared.full_list.Mappings.TheVariants.{Canonical, All};
ghost use Rattle.collate_mapping_rules.specs.Fronts.{AreFronts};

use crate::fronts::{followed, fronts_from};
use crate::marks::map_any_mark;
use crate::part_steps::{PartSteps, subjects};
use collate_lines::record::Record;
use collate_lines::rule::Rule;
use collate_rules::canonical_parts::CanonicalParts;
use collate_rules::full_list::{Front, Mappings};
use collate_rules::parts::first_breach;
use icu_normalizer_core::built_in::is_built_in;
use std::alloc::{AllocError, Global};
use std::collections::BTreeMap;

/// The first line with which a full list of a mapped character that isn't built in has over eight
/// characters, or begins with a mark (rule C4, docs/RECORDS.md). Lines count from 0; `None` where no
/// line offends.
///
/// It is meant for lines that close no loop (C2): else a list is followed for as many steps as there are code points.
///
/// Errors: `AllocError` where memory is refused.
pub fn first_bad_list(alloc: Global, records: &[Record]) -> Result<Option<usize>, AllocError>
    requires { Each IsShort (map said records.now) }
    ensures { IfOk result (λ found. MatchOption found (NoneOffends Rule.C4 (map said records.now)) (λ i. IsFirstOffender Rule.C4 (map said records.now) i)) }
{
    first_breach(
        alloc,
        records,
        |parts: &CanonicalParts|
            ensures { AnswersClear Rule.C4 parts.now.list.items result }
        { never_have_bad_list(alloc, parts) },
        |parts: &CanonicalParts|
            ensures { AnswersBreach Rule.C4 parts.now.list.items result }
        { have_bad_list(alloc, parts) },
    )
}

/// Whether it can be told of parts that map no mark that no beginning of them has a bad full list: a list only grows with
/// further parts, and where it begins with a mark it goes on to.
fn never_have_bad_list(alloc: Global, parts: &CanonicalParts) -> Result<bool, AllocError>
    ensures { AnswersClear Rule.C4 parts.now.list.items result }
{
    if map_any_mark(parts) {
        return Ok(false);
    }
    let is_bad = have_bad_list(alloc, parts)?;
    Ok(!is_bad)
}

/// Whether a full list of a mapped character that isn't built in is bad.
fn have_bad_list(alloc: Global, parts: &CanonicalParts) -> Result<bool, AllocError>
    ensures { IfOk result (λ b. IsTrue b ↔ HasBadList (map in_full parts.now.list.items)) }
{
    let subjects = subjects(alloc, parts)?;
    let canonical = fronts_by(alloc, parts, Mappings::Canonical, &subjects)?;
    let all = fronts_by(alloc, parts, Mappings::All, &subjects)?;
    for part in &parts.list {
        let is_bad = is_badly_mapped(alloc, parts, &canonical, &all, part.character())?;
        if is_bad {
            return Ok(true);
        }
    }
    Ok(false)
}

/// The fronts of the full lists that some mappings make of characters and of all that they lead to; none where they lead in
/// a loop.
fn fronts_by(
    alloc: Global,
    parts: &CanonicalParts,
    mappings: Mappings,
    characters: &[char],
) -> Result<BTreeMap<char, Front>, AllocError>
    ensures { IfOk result (AreFronts (expanded (steps_by mappings (map in_full parts.now.list.items)) 1114112)) }
{
    fronts_from(alloc, &PartSteps { parts, mappings }, characters)
}

/// Whether a character is mapped, not built in, and has a bad full list, by the fronts of the lists that are known.
fn is_badly_mapped(
    alloc: Global,
    parts: &CanonicalParts,
    canonical: &BTreeMap<char, Front>,
    all: &BTreeMap<char, Front>,
    c: char,
) -> Result<bool, AllocError>
    requires canonical { AreFronts (expanded (steps_by Canonical (map in_full parts.now.list.items)) 1114112) canonical.now }
    requires all { AreFronts (expanded (steps_by All (map in_full parts.now.list.items)) 1114112) all.now }
    ensures { IfOk result (λ b. IsTrue b ↔ IsBadlyMapped (map in_full parts.now.list.items) c) }
{
    if !parts.is_mapped(c) {
        return Ok(false);
    }
    if is_built_in(c as u32) {
        return Ok(false);
    }
    let is_bad = has_bad_list(alloc, parts, Mappings::Canonical, canonical, c)?;
    if is_bad {
        return Ok(true);
    }
    has_bad_list(alloc, parts, Mappings::All, all, c)
}

/// Whether the full list that some mappings make of a character is bad, by the fronts of the lists that are known.
fn has_bad_list(
    alloc: Global,
    parts: &CanonicalParts,
    mappings: Mappings,
    known: &BTreeMap<char, Front>,
    c: char,
) -> Result<bool, AllocError>
    requires { AreFronts (expanded (steps_by mappings (map in_full parts.now.list.items)) 1114112) known.now }
    ensures { IfOk result (λ b. IsTrue b ↔ IsBadList (map in_full parts.now.list.items) (expanded (steps_by mappings (map in_full parts.now.list.items)) 1114112 c)) }
{
    let front = full_front(alloc, parts, mappings, known, c)?;
    Ok(is_bad(parts, front))
}

/// The front of a character's full list: the one that is known, else by its steps, one after another.
fn full_front(
    alloc: Global,
    parts: &CanonicalParts,
    mappings: Mappings,
    known: &BTreeMap<char, Front>,
    c: char,
) -> Result<Front, AllocError>
    requires { AreFronts (expanded (steps_by mappings (map in_full parts.now.list.items)) 1114112) known.now }
    ensures { IfOk result (λ front. IsFront front (expanded (steps_by mappings (map in_full parts.now.list.items)) 1114112 c)) }
{
    match known.get(&c).copied() {
        Some(front) => Ok(front),
        None => followed(alloc, &PartSteps { parts, mappings }, c),
    }
}

/// Whether a list has over eight characters or begins with a mark, by its front.
fn is_bad(parts: &CanonicalParts, front: Front) -> bool
    ensures { (list : List ℕ) → IsFront front list → IsTrue result ↔ IsBadList (map in_full parts.now.list.items) list }
{
    front.count > 8 || is_mark(parts, front.first)
}

/// Whether there is a character, and it is a mark.
fn is_mark(parts: &CanonicalParts, first: Option<char>) -> bool
    ensures { result ≡ is_mark_at (map in_full parts.now.list.items) first }
{
    match first {
        Some(first) => parts.class_of(first) != 0,
        None => false,
    }
}

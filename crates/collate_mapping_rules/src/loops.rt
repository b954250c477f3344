//! The rule that mapping steps lead in no loop (C2).

ghost use Rattle.std.specs.Prelude.{All, ℕ, List, map, Contains, IfOk, MatchOption, MatchBool};
ghost use Rattle.icu_normalizer_core.specs.Canonical.{Reaches};
ghost use Rattle.icu_normalizer_core.specs.StepOrder.{IsWalk};
ghost use Rattle.collate_rules.specs.Meaning.{any_step};
ghost use Rattle.collate_lines.specs.Record.{said};
ghost use Rattle.collate_rules.specs.CanonicalParts.{in_full, IsShort};
ghost use Rattle.collate_rules.specs.Breaches.{AnswersBreach, AnswersClear};
ghost use Rattle.collate_rules.specs.Offenders.{NoneOffends, IsFirstOffender};
ghost use Rattle.collate_rules.specs.Rules.{HasLoop};

use crate::marks::map_any_mark;
use crate::part_steps::{PartSteps, subjects};
use collate_lines::record::Record;
use collate_lines::rule::Rule;
use collate_rules::canonical_parts::CanonicalParts;
use collate_rules::full_list::Mappings;
use collate_rules::parts::first_breach;
use icu_normalizer_core::step_order::{Walk, walk_steps};
use std::alloc::{AllocError, Global};

/// The first line that closes a loop of mapping steps, canonical or compatibility, built-in ones
/// among them (rule C2, docs/RECORDS.md). Lines count from 0; `None` where no line offends.
///
/// Errors: `AllocError` where memory is refused.
pub fn first_loop(alloc: Global, records: &[Record]) -> Result<Option<usize>, AllocError>
    requires { All IsShort (map said records.now) }
    ensures { IfOk result (λ found. MatchOption found (NoneOffends Rule.C2 (map said records.now)) (λ i. IsFirstOffender Rule.C2 (map said records.now) i)) }
{
    first_breach(
        alloc,
        records,
        |parts: &CanonicalParts|
            ensures { AnswersClear Rule.C2 parts.now.list.items result }
        { never_loop(alloc, parts) },
        |parts: &CanonicalParts|
            ensures { AnswersBreach Rule.C2 parts.now.list.items result }
        { end_in_loop(alloc, parts) },
    )
}

/// Whether it can be told of parts that map no mark that no beginning of them has a loop of steps: each part only adds steps
/// from a character that had none.
fn never_loop(alloc: Global, parts: &CanonicalParts) -> Result<bool, AllocError>
    ensures { AnswersClear Rule.C2 parts.now.list.items result }
{
    if map_any_mark(parts) {
        return Ok(false);
    }
    let subjects = subjects(alloc, parts)?;
    let has_loop = lead_in_loop(alloc, parts, &subjects)?;
    Ok(!has_loop)
}

/// Whether the last part closes a loop of steps, where those before it have none.
fn end_in_loop(alloc: Global, parts: &CanonicalParts) -> Result<bool, AllocError>
    ensures { AnswersBreach Rule.C2 parts.now.list.items result }
{
    match parts.as_slice().split_last() {
        Some((part, _)) => lead_in_loop(alloc, parts, &[part.character()]),
        None => Ok(false),
    }
}

/// Whether a loop is met where steps are followed from these characters on; else they lead from none of them back to itself.
fn lead_in_loop(alloc: Global, parts: &CanonicalParts, starts: &[char]) -> Result<bool, AllocError>
    ensures { IfOk result (λ b. MatchBool b (HasLoop (map in_full parts.now.list.items)) ((c : ℕ) → Contains starts.now c → Reaches (any_step (map in_full parts.now.list.items)) (any_step (map in_full parts.now.list.items) c) c → ⊥)) }
{
    let steps = PartSteps {
        parts,
        mappings: Mappings::All,
    };
    let walk = walk_steps(alloc, &steps, starts)?;
    Ok(is_loop(&walk))
}

/// Whether a walk met a loop; else steps lead from no character where it began back to itself.
fn is_loop(walk: &Walk) -> bool
    ensures { (step : ℕ → List ℕ) (starts : List ℕ) → IsWalk step starts walk.now → MatchBool result ((c : ℕ) × Reaches step (step c) c) ((c : ℕ) → Contains starts c → Reaches step (step c) c → ⊥) }
{
    match walk {
        Walk::Loop(_) => true,
        Walk::InOrder(_) => false,
    }
}

//! Mapping steps followed from characters on: a loop of steps, or else all characters that they lead to, each after those
//! that its own step gives.

ghost use Rattle.std.specs.Prelude.{◌≡◌, ℕ, ◌==◌, ◌++◌, ◌<◌, List, Some, cond, map, IfOk, OnOk};
ghost use Rattle.std.specs.BTreeMap.{get};
ghost use Rattle.std.specs.Ordering.{nat_cmp};
ghost use Rattle.icu_normalizer_core.specs.StepOrder.{FitsCodePoints, IsWalk};
ghost use Rattle.icu_normalizer_core.specs.StepVisits.{to_be_entered};

use std::alloc::{AllocError, Global};
use std::collections::BTreeMap;

/// Mapping steps that can be looked up.
pub trait Steps {
    ghost use Rattle.std.specs.Prelude.{◌≡◌, ℕ, ◌++◌, List, OnOk};

    /// The characters that a character's step gives; none where it has no step.
    ghost step: { Self → ℕ → List ℕ };

    /// Puts the characters that a character's step gives after a list.
    ///
    /// Errors: `AllocError` where memory is refused.
    fn add_step(&self, character: char, list: &mut Vec<char>) -> Result<(), AllocError>
        ensures { OnOk result (list.new.items ≡ list.old.items ++ step self.now character) };
}

/// What a walk along mapping steps comes to.
#[derive(Drop)]
pub enum Walk {
    /// Steps lead from this character back to itself.
    Loop(char),
    /// The characters where the walk began and all that steps lead to from them: each once, and after all that its own
    /// step gives.
    InOrder(Vec<char>),
}

/// A character that a walk comes to, or one that it leaves once all that its step gives is left.
#[derive(Clone, Copy)]
pub(crate) struct Visit {
    pub(crate) character: char,
    pub(crate) is_entered: bool,
}

/// Walks along mapping steps from these characters on.
///
/// Errors: `AllocError` where memory is refused.
pub fn walk_steps<S: Steps>(alloc: Global, steps: &S, starts: &[char]) -> Result<Walk, AllocError>
    ensures walked { IfOk result (IsWalk (S.step steps.now) starts.now) }
    ensures few { IfOk result FitsCodePoints }
{
    let mut order = Vec::new(alloc);
    // Whether the characters that were entered are left.
    let mut is_left = BTreeMap::new(alloc);
    let mut stack = Vec::new(alloc);
    let mut given = Vec::new(alloc);
    add_unentered(&mut stack, starts)?;
    while let Some(visit) = stack.pop() {
        let c = visit.character;
        if visit.is_entered {
            order.push(c)?;
            note(&mut is_left, c, true)?;
            continue;
        }
        match is_left.get(&c).copied() {
            Some(true) => {}
            Some(false) => return Ok(Walk::Loop(c)),
            None => {
                note(&mut is_left, c, false)?;
                stack.push(Visit {
                    character: c,
                    is_entered: true,
                })?;
                given.clear();
                steps.add_step(c, &mut given)?;
                add_unentered(&mut stack, &given)?;
            }
        }
    }
    Ok(Walk::InOrder(order))
}

/// Puts characters on a stack that are to be entered.
fn add_unentered(stack: &mut Vec<Visit>, characters: &[char]) -> Result<(), AllocError>
    ensures { OnOk result (stack.new.items ≡ stack.old.items ++ map to_be_entered characters.now) }
{
    for c in characters {
        stack.push(Visit {
            character: *c,
            is_entered: false,
        })?;
    }
    Ok(())
}

/// Notes of a character that it was entered, and whether it is left.
fn note(is_left: &mut BTreeMap<char, bool>, character: char, left: bool) -> Result<(), AllocError>
    ensures noted { OnOk result ((c : ℕ) → get nat_cmp is_left.new c ≡ cond (c == character) (Some left) (get nat_cmp is_left.old c)) }
    ensures in_range { character < 1114112 }
{
    is_left.insert(character, left)?;
    Ok(())
}

//! How full lists begin, and how long they are, as far as the rule on them asks.

ghost use Rattle.std.specs.Prelude.{◌≡◌, ◌≢◌, ◌==◌, ◌+◌, ◌-◌, ◌≤◌, ℕ, ◌++◌, ◌∷◌, List, [], Some, cond, flat_map, length, map, reverse, IfOk, OnOk};
ghost use Rattle.std.specs.Option.{ForSome};
ghost use Rattle.std.specs.BTreeMap.{get};
ghost use Rattle.std.specs.Ordering.{nat_cmp};
ghost use Rattle.icu_normalizer_core.specs.StepOrder.{AreInOrder};
ghost use Rattle.collate_rules.specs.Lists.{IsFront};
ghost use Rattle.collate_rules.specs.Meaning.{expanded};
ghost use Rattle.collate_mapping_rules.specs.Fronts.{AreFronts};
ghost use Rattle.collate_mapping_rules.specs.AheadLists.{at_limit};

use collate_rules::full_list::Front;
use icu_normalizer_core::step_order::{Steps, Walk, walk_steps};
use std::alloc::{AllocError, Global};
use std::collections::BTreeMap;

/// A character of which at most so many steps are to be made.
#[derive(Clone, Copy)]
pub(crate) struct Ahead {
    pub(crate) character: char,
    pub(crate) limit: u32,
}

/// The fronts of the full lists of characters and of all that steps lead to from them; none where steps lead in a loop. Fails
/// only if memory is refused.
pub(crate) fn fronts_from<S: Steps>(
    alloc: Global,
    steps: &S,
    starts: &[char],
) -> Result<BTreeMap<char, Front>, AllocError>
    ensures { IfOk result (AreFronts (expanded (S.step steps.now) 1114112)) }
{
    match walk_steps(alloc, steps, starts)? {
        Walk::Loop(_) => Ok(BTreeMap::new(alloc)),
        Walk::InOrder(order) => fronts_in_order(alloc, steps, &order),
    }
}

/// The fronts of the full lists of characters, each of which stands after those that its step gives.
fn fronts_in_order<S: Steps>(
    alloc: Global,
    steps: &S,
    order: &[char],
) -> Result<BTreeMap<char, Front>, AllocError>
    requires in_order { AreInOrder (S.step steps.now) order.now }
    requires fits { length order.now ≤ 1114112 }
    ensures { IfOk result (AreFronts (expanded (S.step steps.now) 1114112)) }
{
    let mut fronts = BTreeMap::new(alloc);
    let mut given = Vec::new(alloc);
    for c in order {
        given.clear();
        steps.add_step(*c, &mut given)?;
        note_front(&mut fronts, *c, &given)?;
    }
    Ok(fronts)
}

/// Notes the front of a character's list, if those of the characters that its step gives are noted.
fn note_front(fronts: &mut BTreeMap<char, Front>, c: char, given: &[char]) -> Result<(), AllocError>
    ensures { (full : ℕ → List ℕ) → AreFronts full fronts.old → (given.now ≡ [] → full c ≡ c ∷ []) → (given.now ≢ [] → full c ≡ flat_map full given.now) → OnOk result (AreFronts full fronts.new) }
{
    match front_by_step(fronts, c, given) {
        Some(front) => put_front(fronts, c, front),
        None => Ok(()),
    }
}

/// Notes a front of a character.
fn put_front(fronts: &mut BTreeMap<char, Front>, c: char, front: Front) -> Result<(), AllocError>
    ensures { OnOk result ((d : ℕ) → get nat_cmp fronts.new d ≡ cond (d == c) (Some front) (get nat_cmp fronts.old d)) }
{
    fronts.insert(c, front)?;
    Ok(())
}

/// The front of a character's list by those of the characters that its step gives, if they are all there.
fn front_by_step(fronts: &BTreeMap<char, Front>, c: char, given: &[char]) -> Option<Front>
    ensures alone { given.now ≡ [] → ForSome result (λ front. IsFront front (c ∷ [])) }
    ensures joined { given.now ≢ [] → (full : ℕ → List ℕ) → AreFronts full fronts.now → ForSome result (λ front. IsFront front (flat_map full given.now)) }
{
    if given.is_empty() {
        return Some(Front {
            first: Some(c),
            count: 1,
        });
    }
    joined_fronts(fronts, given)
}

/// The front of the lists of characters one after another, if theirs are all there.
fn joined_fronts(fronts: &BTreeMap<char, Front>, characters: &[char]) -> Option<Front>
    ensures { (full : ℕ → List ℕ) → AreFronts full fronts.now → ForSome result (λ front. IsFront front (flat_map full characters.now)) }
{
    let mut front = Front {
        first: None,
        count: 0,
    };
    for c in characters {
        let more = fronts.get(c).copied()?;
        front = joined(front, more);
    }
    Some(front)
}

/// The front of two lists, one after the other.
fn joined(front: Front, more: Front) -> Front
    ensures { (xs ys : List ℕ) → IsFront front xs → IsFront more ys → IsFront result (xs ++ ys) }
{
    Front {
        first: front.first.or(more.first),
        count: front.count.saturating_add(more.count).min(9),
    }
}

/// The front of what at most 0x110000 steps, one after another, leave of a character. Fails only if memory is refused.
pub(crate) fn followed<S: Steps>(alloc: Global, steps: &S, c: char) -> Result<Front, AllocError>
    ensures { IfOk result (λ front. IsFront front (expanded (S.step steps.now) 1114112 c)) }
{
    let mut front = Front {
        first: None,
        count: 0,
    };
    let mut given = Vec::new(alloc);
    let mut stack = Vec::new(alloc);
    stack.push(Ahead {
        character: c,
        limit: 0x110000,
    })?;
    while let Some(ahead) = stack.pop() {
        if front.count > 8 {
            return Ok(front);
        }
        step_within(steps, ahead, &mut given)?;
        if given.is_empty() {
            front = front.with(ahead.character);
            continue;
        }
        put_ahead(&mut stack, &given, ahead.limit)?;
    }
    Ok(front)
}

/// The characters that a character's step gives, if a step is left to be made.
fn step_within<S: Steps>(steps: &S, ahead: Ahead, given: &mut Vec<char>) -> Result<(), AllocError>
    ensures { OnOk result (given.new.items ≡ cond (ahead.limit == 0) [] (S.step steps.now ahead.character)) }
{
    given.clear();
    if ahead.limit == 0 {
        return Ok(());
    }
    steps.add_step(ahead.character, given)
}

/// Puts characters on a stack, the first on top, of which one step less is to be made.
fn put_ahead(stack: &mut Vec<Ahead>, characters: &[char], limit: u32) -> Result<(), AllocError>
    ensures { OnOk result (stack.new.items ≡ stack.old.items ++ reverse (map (at_limit (limit - 1)) characters.now)) }
{
    let mut i = characters.len();
    while i > 0 {
        i -= 1;
        stack.push(Ahead {
            character: characters[i],
            limit: limit.saturating_sub(1),
        })?;
    }
    Ok(())
}

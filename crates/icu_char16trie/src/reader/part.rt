//! The parts of a unit trie as a reader takes them, and what stands first in each.
ghost use Rattle.std.specs.Prelude.{◌≡◌, ◌<◌};
ghost use Rattle.icu_char16trie.specs.UnitPartSteps.{part_for, node_step, run_step, last_step, entry_step, halves_step, part_step, part_index};

use super::super::cells::{delta, final_number, intermediate_number, landing, unit_at};
use super::super::node::{Branch, Match, State, Target, entry_at, entry_target, opened};
use icu_packed_vector::PackedVec;

/// A branch whose units go from a low bound to below a high one.
#[derive(Clone, Copy)]
pub(super) struct Bounded {
    pub(super) branch: Branch,
    pub(super) low: usize,
    pub(super) high: usize,
}

/// A part of a unit trie.
#[derive(Clone, Copy)]
pub(super) enum Part {
    /// The node at an index.
    Node(usize),
    /// Units that must match.
    Run(Match),
    /// A branch, or what is left of one.
    Branch(Bounded),
}

/// What stands first in a part. Keys go on with the unit, if there is one. The value is that of the
/// key so far, `next` is how that key goes on, and `rest` has the keys that go on otherwise.
#[derive(Clone, Copy)]
pub(super) struct Step {
    pub(super) unit: Option<u16>,
    pub(super) value: Option<u32>,
    pub(super) next: Option<Part>,
    pub(super) rest: Option<Part>,
}

/// The part that a node's state stands for.
fn part_for(state: State) -> Option<Part>
    ensures { result ≡ part_for state }
{
    match state {
        State::Stopped => None,
        State::Match(run) => Some(Part::Run(run)),
        State::Branch(branch) => Some(Part::Branch(Bounded {
            branch,
            low: 0,
            high: 0x1_0000,
        })),
    }
}

/// A node: its value, and what follows it.
pub(super) fn node_step(units: &PackedVec<'_, u16>, index: usize) -> Option<Step>
    ensures { result ≡ node_step units.now index }
{
    let lead = unit_at(units, index)?;
    if lead >= 0x8000 {
        let number = final_number(units, lead - 0x8000, index + 1)?;
        return Some(Step {
            unit: None,
            value: Some(number.value),
            next: None,
            rest: None,
        });
    }
    if lead >= 0x40 {
        let number = intermediate_number(units, lead, index + 1)?;
        let state = opened(units, lead % 0x40, number.end)?;
        return Some(Step {
            unit: None,
            value: Some(number.value),
            next: part_for(state),
            rest: None,
        });
    }
    let state = opened(units, lead, index + 1)?;
    Some(Step {
        unit: None,
        value: None,
        next: part_for(state),
        rest: None,
    })
}

/// The first of the units that must match.
fn run_step(units: &PackedVec<'_, u16>, run: Match) -> Option<Step>
    ensures { result ≡ run_step units.now run }
{
    let unit = unit_at(units, run.index)?;
    let next = if run.left <= 1 {
        Part::Node(run.index + 1)
    } else {
        Part::Run(Match {
            left: run.left - 1,
            index: run.index + 1,
        })
    };
    Some(Step {
        unit: Some(unit),
        value: None,
        next: Some(next),
        rest: None,
    })
}

/// The last unit of a branch and the node after it.
fn last_step(units: &PackedVec<'_, u16>, bounded: Bounded) -> Result<Step, usize>
    ensures { result ≡ last_step units.now bounded }
{
    let index = bounded.branch.index;
    let Some(unit) = unit_at(units, index) else {
        return Err(units.len());
    };
    if (unit as usize) < bounded.low || bounded.high <= unit as usize {
        return Err(index);
    }
    Ok(Step {
        unit: Some(unit),
        value: None,
        next: Some(Part::Node(index + 1)),
        rest: None,
    })
}

/// A unit of a branch before the last, and what it leads to.
fn entry_step(units: &PackedVec<'_, u16>, bounded: Bounded) -> Result<Step, usize>
    requires { 1 < bounded.branch.count }
    ensures { result ≡ entry_step units.now bounded }
{
    let index = bounded.branch.index;
    let Some(entry) = entry_at(units, index) else {
        return Err(units.len());
    };
    if (entry.unit as usize) < bounded.low || bounded.high <= entry.unit as usize {
        return Err(index);
    }
    let Some(target) = entry_target(units, entry) else {
        return Err(units.len());
    };
    let (value, next) = match target {
        Target::Value(value) => (Some(value), None),
        Target::Node(node) => (None, Some(Part::Node(node))),
    };
    let branch = Branch {
        count: bounded.branch.count - 1,
        index: entry.number.end,
    };
    Ok(Step {
        unit: Some(entry.unit),
        value,
        next,
        rest: Some(Part::Branch(Bounded {
            branch,
            low: entry.unit as usize + 1,
            high: bounded.high,
        })),
    })
}

/// The halves of a branch of over five units.
fn halves_step(units: &PackedVec<'_, u16>, bounded: Bounded) -> Result<Step, usize>
    ensures { result ≡ halves_step units.now bounded }
{
    let branch = bounded.branch;
    let Some(middle) = unit_at(units, branch.index) else {
        return Err(units.len());
    };
    let middle = middle as usize;
    if middle <= bounded.low || bounded.high <= middle {
        return Err(branch.index);
    }
    let Some(jump) = delta(units, branch.index + 1) else {
        return Err(units.len());
    };
    let Some(index) = landing(units, jump) else {
        return Err(units.len());
    };
    let first = Branch {
        count: branch.count / 2,
        index,
    };
    let second = Branch {
        count: branch.count - branch.count / 2,
        index: jump.end,
    };
    Ok(Step {
        unit: None,
        value: None,
        next: Some(Part::Branch(Bounded {
            branch: first,
            low: bounded.low,
            high: middle,
        })),
        rest: Some(Part::Branch(Bounded {
            branch: second,
            low: middle,
            high: bounded.high,
        })),
    })
}

/// What stands first in a part, or the index where reading stops.
pub(super) fn part_step(units: &PackedVec<'_, u16>, part: Part) -> Result<Step, usize>
    ensures { result ≡ part_step units.now part }
{
    match part {
        Part::Node(index) => match node_step(units, index) {
            Some(step) => Ok(step),
            None => Err(units.len()),
        },
        Part::Run(run) => match run_step(units, run) {
            Some(step) => Ok(step),
            None => Err(units.len()),
        },
        Part::Branch(bounded) => {
            if bounded.branch.count <= 1 {
                last_step(units, bounded)
            } else if bounded.branch.count <= 5 {
                entry_step(units, bounded)
            } else {
                halves_step(units, bounded)
            }
        }
    }
}

/// Where the units of a part begin.
pub(super) fn part_index(part: Part) -> usize
    ensures { result ≡ part_index part }
{
    match part {
        Part::Node(index) => index,
        Part::Run(run) => run.index,
        Part::Branch(bounded) => bounded.branch.index,
    }
}

//! The nodes of a unit trie, and what a unit leads to at one. There is nothing where the units
//! match no key or break the grammar.
ghost use Rattle.std.specs.Prelude.{◌≡◌, ◌+◌, ◌*◌, ◌^◌, ◌<◌, ◌≤◌, ◌-◌, slice_get, IfSome, IsTrue, length};
ghost use Rattle.icu_char16trie.specs.UnitSteps.{half_of, small_part, entry_at, entry_target, target_in, opened, arrive_at, reached, matched, branched, step, start_node, start};

use super::TrieResult;
use super::cells::{Number, delta, final_number, intermediate_number, landing, unit_at};
use icu_packed_vector::PackedVec;

/// A branch: how many units it tells apart, and where it begins.
#[derive(Clone, Copy, Debug)]
pub(super) struct Branch {
    pub(super) count: usize,
    pub(super) index: usize,
}

/// Units that must match: how many are left, and where they begin.
#[derive(Clone, Copy, Debug)]
pub(super) struct Match {
    pub(super) left: usize,
    pub(super) index: usize,
}

/// A branch unit before the last, and its number: a value, or else a jump.
#[derive(Clone, Copy)]
pub(super) struct Entry {
    pub(super) unit: u16,
    pub(super) is_value: bool,
    pub(super) number: Number,
}

/// What a branch unit leads to.
#[derive(Clone, Copy)]
pub(super) enum Target {
    Value(u32),
    Node(usize),
}

/// Where a cursor stands.
#[derive(Clone, Copy, Debug)]
pub(super) enum State {
    /// No further unit matches.
    Stopped,
    /// A branch follows.
    Branch(Branch),
    /// A unit must match.
    Match(Match),
}

/// Whether two states are the same.
pub(super) fn is_same_state(one: State, other: State) -> bool
    ensures { IsTrue result → one ≡ other }
{
    match (one, other) {
        (State::Stopped, State::Stopped) => true,
        (State::Branch(one), State::Branch(other)) => {
            one.count == other.count && one.index == other.index
        }
        (State::Match(one), State::Match(other)) => {
            one.left == other.left && one.index == other.index
        }
        _ => false,
    }
}

/// What a unit led to: the answer, and where the cursor stands then.
#[derive(Clone, Copy)]
pub(super) struct Arrival {
    pub(super) answer: TrieResult,
    pub(super) state: State,
}

/// The half of a branch of over five units in which the unit is looked for.
#[inline(always)]
fn half_of(units: &PackedVec<'_, u16>, unit: u16, branch: Branch) -> Option<Branch>
    requires { 5 < branch.count }
    ensures half { result ≡ half_of units.now unit branch }
    ensures fewer { IfSome result (λ half. half.count < branch.count) }
{
    let middle = unit_at(units, branch.index)?;
    let jump = delta(units, branch.index + 1)?;
    if unit < middle {
        let index = landing(units, jump)?;
        Some(Branch {
            count: branch.count / 2,
            index,
        })
    } else {
        Some(Branch {
            count: branch.count - branch.count / 2,
            index: jump.end,
        })
    }
}

/// The part of at most five units in which the unit is looked for.
#[inline(always)]
fn small_part(units: &PackedVec<'_, u16>, unit: u16, branch: Branch) -> Option<Branch>
    ensures { result ≡ small_part units.now unit branch.count branch }
{
    let mut part = branch;
    while part.count > 5 {
        part = half_of(units, unit, part)?;
    }
    Some(part)
}

/// A branch unit before the last, and the number after it.
#[inline(always)]
pub(super) fn entry_at(units: &PackedVec<'_, u16>, index: usize) -> Option<Entry>
    ensures { result ≡ entry_at units.now index }
{
    let unit = unit_at(units, index)?;
    let lead = unit_at(units, index + 1)?;
    let number = final_number(units, lead % 0x8000, index + 2)?;
    Some(Entry {
        unit,
        is_value: lead >= 0x8000,
        number,
    })
}

/// What a branch unit leads to: its value, or the node that it jumps to.
#[inline(always)]
pub(super) fn entry_target(units: &PackedVec<'_, u16>, entry: Entry) -> Option<Target>
    ensures { result ≡ entry_target units.now entry }
{
    if entry.is_value {
        return Some(Target::Value(entry.number.value));
    }
    let index = landing(units, entry.number)?;
    Some(Target::Node(index))
}

/// What the unit leads to among the entries, the last unit and the node after it.
#[inline(always)]
fn target_in(units: &PackedVec<'_, u16>, unit: u16, entries: usize, index: usize) -> Option<Target>
    ensures { result ≡ target_in units.now unit entries index }
{
    let mut left = entries;
    let mut index = index;
    while left > 0 {
        let entry = entry_at(units, index)?;
        if entry.unit == unit {
            return entry_target(units, entry);
        }
        index = entry.number.end;
        left -= 1;
    }
    let last = unit_at(units, index)?;
    if last == unit {
        return Some(Target::Node(index + 1));
    }
    None
}

/// A node of a type below 40, whose units begin at the index.
#[inline(always)]
pub(super) fn opened(units: &PackedVec<'_, u16>, kind: u16, index: usize) -> Option<State>
    ensures { result ≡ opened units.now kind index }
{
    if kind >= 0x30 {
        return Some(State::Match(Match {
            left: kind as usize - 0x2f,
            index,
        }));
    }
    if kind == 0 {
        let last = unit_at(units, index)?;
        return Some(State::Branch(Branch {
            count: last as usize + 1,
            index: index + 1,
        }));
    }
    Some(State::Branch(Branch {
        count: kind as usize + 1,
        index,
    }))
}

/// What the node at an index says.
#[inline(always)]
fn arrive_at(units: &PackedVec<'_, u16>, index: usize) -> Option<Arrival>
    ensures { result ≡ arrive_at units.now index }
{
    let lead = unit_at(units, index)?;
    if lead >= 0x8000 {
        let number = final_number(units, lead - 0x8000, index + 1)?;
        return Some(Arrival {
            answer: TrieResult::FinalValue(number.value.cast_signed()),
            state: State::Stopped,
        });
    }
    if lead >= 0x40 {
        let number = intermediate_number(units, lead, index + 1)?;
        let state = opened(units, lead % 0x40, number.end)?;
        return Some(Arrival {
            answer: TrieResult::Intermediate(number.value.cast_signed()),
            state,
        });
    }
    let state = opened(units, lead, index + 1)?;
    Some(Arrival {
        answer: TrieResult::NoValue,
        state,
    })
}

/// What a unit leads to where a unit must match.
#[inline(always)]
fn matched(units: &PackedVec<'_, u16>, run: Match, unit: u16) -> Option<Arrival>
    ensures { result ≡ matched units.now run unit }
{
    let expected = unit_at(units, run.index)?;
    if expected != unit {
        return None;
    }
    if run.left <= 1 {
        return arrive_at(units, run.index + 1);
    }
    Some(Arrival {
        answer: TrieResult::NoValue,
        state: State::Match(Match {
            left: run.left - 1,
            index: run.index + 1,
        }),
    })
}

/// What a unit leads to at a branch.
#[inline(always)]
fn branched(units: &PackedVec<'_, u16>, branch: Branch, unit: u16) -> Option<Arrival>
    ensures { result ≡ branched units.now branch unit }
{
    let part = small_part(units, unit, branch)?;
    match target_in(units, unit, part.count.saturating_sub(1), part.index)? {
        Target::Value(value) => Some(Arrival {
            answer: TrieResult::FinalValue(value.cast_signed()),
            state: State::Stopped,
        }),
        Target::Node(index) => arrive_at(units, index),
    }
}

/// What a unit leads to.
#[inline(always)]
pub(super) fn step(units: &PackedVec<'_, u16>, state: State, unit: u16) -> Option<Arrival>
    ensures { result ≡ step units.now state unit }
{
    match state {
        State::Match(run) => matched(units, run, unit),
        State::Branch(branch) => branched(units, branch, unit),
        State::Stopped => None,
    }
}

/// Where a cursor starts: at a node with no value.
fn start_node(units: &PackedVec<'_, u16>) -> Option<State>
    ensures { result ≡ start_node units.now }
{
    let lead = unit_at(units, 0)?;
    if lead < 0x40 {
        opened(units, lead, 1)
    } else {
        None
    }
}

/// Where a cursor starts, stopped where there is no node with no value.
pub(super) fn start(units: &PackedVec<'_, u16>) -> State
    ensures { result ≡ start units.now }
{
    match start_node(units) {
        Some(state) => state,
        None => State::Stopped,
    }
}

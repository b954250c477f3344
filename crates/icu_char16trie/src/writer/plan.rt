//! What writes the nodes and branches of a unit trie, from the last to the first.
ghost use Rattle.std.specs.Prelude.{◌≡◌, ◌+◌, ◌*◌, ◌^◌, ◌<◌, ◌≤◌, ◌∷◌, length, OnOk};
ghost use Rattle.icu_char16trie.specs.UnitPairs.{rests, spread, parts, AreSorted, HaveUnits, AreGroups, room};
ghost use Rattle.icu_char16trie.specs.UnitWritingTasks.{Adds, IsNodeLaid, AreGroupsLaid, head_task, headed, weight};

use super::group::Group;
use super::groups::{ended_value, groups_of, lone_value, run_length};
use super::task::{Task, Tasks};
use std::alloc::{AllocError, Global};

/// A node of the pairs, whose keys are read from the depth on.
pub(super) fn plan_node<'a>(
    alloc: Global,
    tasks: &mut Tasks<'a>,
    pairs: &'a [(&'a [u16], i32)],
    depth: usize,
) -> Result<(), AllocError>
    requires some { 0 < length pairs.now }
    requires sorted { AreSorted (rests depth pairs.now) }
    requires deep { depth + room (rests depth pairs.now) < 2 ^ 32 }
    ensures adds { OnOk result (Adds tasks.old tasks.new (IsNodeLaid (rests depth pairs.now)) (room (rests depth pairs.now))) }
    ensures weight { OnOk result (weight tasks.new + 1 ≤ weight tasks.old + room (rests depth pairs.now)) }
{
    let Some(value) = ended_value(pairs, depth) else {
        plan_following(alloc, tasks, None, pairs, depth)?;
        return Ok(());
    };
    let number = value.cast_unsigned();
    if pairs.len() == 1 {
        tasks.put(Task::Final(number))?;
        return Ok(());
    }
    let (_, longer) = pairs.split_at(1);
    plan_following(alloc, tasks, Some(number), longer, depth)?;
    Ok(())
}

/// The type of a node, after the value of a key that ends there, if one does.
fn plan_head(tasks: &mut Tasks<'_>, kind: u16, value: Option<u32>) -> Result<(), AllocError>
    ensures { OnOk result (tasks.new ≡ head_task kind value ∷ tasks.old) }
{
    if let Some(number) = value {
        tasks.put(Task::Intermediate(kind, number))?;
        return Ok(());
    }
    tasks.put(Task::Unit(kind))?;
    Ok(())
}

/// A node of the value, if there is one, and of the pairs of longer keys: units that all of these go
/// on with, or a branch.
fn plan_following<'a>(
    alloc: Global,
    tasks: &mut Tasks<'a>,
    value: Option<u32>,
    pairs: &'a [(&'a [u16], i32)],
    depth: usize,
) -> Result<(), AllocError>
    requires some { 0 < length pairs.now }
    requires sorted { AreSorted (rests depth pairs.now) }
    requires longer { HaveUnits (rests depth pairs.now) }
    requires deep { depth + room (rests depth pairs.now) < 2 ^ 32 }
    ensures adds { OnOk result (Adds tasks.old tasks.new (IsNodeLaid (headed value (rests depth pairs.now))) (room (headed value (rests depth pairs.now)))) }
    ensures weight { OnOk result (weight tasks.new + 1 ≤ weight tasks.old + room (rests depth pairs.now)) }
{
    let run = run_length(pairs, depth);
    if run > 0 {
        plan_head(tasks, 0x2f + run as u16, value)?;
        let (key, _) = pairs[0];
        tasks.put(Task::Run(&key[depth..depth + run]))?;
        tasks.put(Task::Node(pairs, depth + run))?;
        return Ok(());
    }
    let groups = groups_of(alloc, pairs, depth)?;
    let last = groups.len() - 1;
    if 0 < last && last < 0x30 {
        plan_head(tasks, last as u16, value)?;
        plan_branch(tasks, &groups, depth)?;
        return Ok(());
    }
    plan_head(tasks, 0, value)?;
    tasks.put(Task::Unit(last as u16))?;
    plan_branch(tasks, &groups, depth)?;
    Ok(())
}

/// A branch of the groups, whose keys are read from the depth on.
fn plan_branch<'a>(
    tasks: &mut Tasks<'a>,
    groups: &[Group<'a>],
    depth: usize,
) -> Result<(), AllocError>
    requires some { 0 < length groups.now }
    requires groups { AreGroups 0 0x10000 (parts depth groups.now) }
    requires deep { depth + room (spread (parts depth groups.now)) < 2 ^ 32 }
    ensures adds { OnOk result (Adds tasks.old tasks.new (AreGroupsLaid (parts depth groups.now)) (room (spread (parts depth groups.now)))) }
    ensures weight { OnOk result (weight tasks.new + 7 ≤ weight tasks.old + room (spread (parts depth groups.now))) }
{
    if groups.len() <= 5 {
        plan_entries(tasks, groups, depth)?;
        return Ok(());
    }
    let (lower, upper) = groups.split_at(groups.len() / 2);
    tasks.put(Task::Unit(upper[0].unit))?;
    tasks.put(Task::Delta)?;
    plan_branch(tasks, upper, depth)?;
    tasks.put(Task::Mark)?;
    plan_branch(tasks, lower, depth)?;
    Ok(())
}

/// The units of a branch of up to five, each with its value, or how far it is to its node.
fn plan_entries<'a>(
    tasks: &mut Tasks<'a>,
    groups: &[Group<'a>],
    depth: usize,
) -> Result<(), AllocError>
    requires some { 0 < length groups.now }
    requires few { length groups.now ≤ 5 }
    requires groups { AreGroups 0 0x10000 (parts depth groups.now) }
    requires deep { depth + room (spread (parts depth groups.now)) < 2 ^ 32 }
    ensures adds { OnOk result (Adds tasks.old tasks.new (AreGroupsLaid (parts depth groups.now)) (room (spread (parts depth groups.now)))) }
    ensures weight { OnOk result (weight tasks.new + 7 ≤ weight tasks.old + room (spread (parts depth groups.now))) }
{
    let first = groups[0];
    tasks.put(Task::Unit(first.unit))?;
    if groups.len() == 1 {
        tasks.put(Task::Node(first.pairs, depth + 1))?;
        return Ok(());
    }
    let (_, rest) = groups.split_at(1);
    if let Some(value) = lone_value(first.pairs, depth + 1) {
        tasks.put(Task::Final(value.cast_unsigned()))?;
        plan_entries(tasks, rest, depth)?;
        return Ok(());
    }
    tasks.put(Task::Jump)?;
    plan_entries(tasks, rest, depth)?;
    tasks.put(Task::Mark)?;
    tasks.put(Task::Node(first.pairs, depth + 1))?;
    Ok(())
}

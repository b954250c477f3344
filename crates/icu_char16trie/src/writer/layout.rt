//! The units of a unit trie, written from the last to the first.
ghost use Rattle.std.specs.Prelude.{◌≡◌, ◌+◌, ◌*◌, ◌^◌, ◌<◌, ◌≤◌, ◌∷◌, length, OnOk, IfOk, ℕ, ℤ, List};
ghost use Rattle.icu_char16trie.specs.UnitPairs.{rests, AreSorted, room};
ghost use Rattle.icu_char16trie.specs.UnitLayouts.{Lays, node};
ghost use Rattle.icu_char16trie.specs.UnitWritingTasks.{CanTake, HasMark, Finishes, weight, since};

use super::backward::Backward;
use super::marks::Marks;
use super::plan::plan_node;
use super::task::{Task, Tasks};
use std::alloc::{AllocError, Global};

/// How many units were written since the last mark.
fn distance(marks: &mut Marks, out: &Backward) -> u32
    requires { HasMark marks.old out.now }
    ensures { since marks.old out.now ≡ (marks.new, result) }
{
    (out.len() - marks.take()) as u32
}

/// Does a task.
fn write_task<'a>(
    alloc: Global,
    tasks: &mut Tasks<'a>,
    marks: &mut Marks,
    out: &mut Backward,
    task: Task<'a>,
) -> Result<(), AllocError>
    requires { CanTake task marks.old out.old }
    ensures adds { OnOk result ((goal : List (List ℕ × ℤ)) → Finishes goal (task.entry ∷ tasks.old) marks.old out.old → Finishes goal tasks.new marks.new out.new) }
    ensures weight { OnOk result (weight tasks.new + 1 ≤ weight (task.entry ∷ tasks.old)) }
{
    match task {
        Task::Node(pairs, depth) => plan_node(alloc, tasks, pairs, depth),
        Task::Unit(unit) => out.put(unit),
        Task::Run(units) => out.put_all(units),
        Task::Final(number) => out.put_final(number),
        Task::Intermediate(kind, number) => out.put_intermediate(kind, number),
        Task::Mark => marks.put(out.len()),
        Task::Jump => {
            let distance = distance(marks, &*out);
            out.put_jump(distance)
        }
        Task::Delta => {
            let distance = distance(marks, &*out);
            out.put_delta(distance)
        }
    }
}

/// The units that spell the pairs, whose keys are not empty.
pub(super) fn write_pairs<'a>(
    alloc: Global,
    pairs: &'a [(&'a [u16], i32)],
) -> Result<Backward, AllocError>
    requires some { 0 < length pairs.now }
    requires sorted { AreSorted (rests 0 pairs.now) }
    requires fits { room (rests 0 pairs.now) < 2 ^ 32 }
    ensures lays { IfOk result (λ units. Lays units (node (rests 0 pairs.now))) }
    ensures room { IfOk result (λ units. length units ≤ room (rests 0 pairs.now)) }
{
    let mut tasks = Tasks::new(alloc);
    let mut marks = Marks::new(alloc);
    let mut out = Backward::new(alloc);
    tasks.put(Task::Node(pairs, 0))?;
    while let Some(task) = tasks.take() {
        write_task(alloc, &mut tasks, &mut marks, &mut out, task)?;
    }
    Ok(out)
}

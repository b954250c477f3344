//! What is still to be written of a unit trie.
ghost use Rattle.std.specs.Prelude.{◌≡◌, [], ◌∷◌, OnOk, MatchOption};

use std::alloc::{AllocError, Global};
use std::marker::Model;

/// What is written in front of the units so far.
#[derive(Clone, Copy)]
pub(super) enum Task<'a> {
    /// A node of the pairs, whose keys are read from the depth on.
    Node(&'a [(&'a [u16], i32)], usize),
    /// A unit.
    Unit(u16),
    /// Units that must match.
    Run(&'a [u16]),
    /// The value of a key with which no longer key begins.
    Final(u32),
    /// The type of a node, and the value of a key that ends there and with which longer ones begin.
    Intermediate(u16, u32),
    /// Nothing: it is noted how many units there are.
    Mark,
    /// How far it is to where the units were noted last, before a node of a branch.
    Jump,
    /// The same before the first half of a branch.
    Delta,
}

/// Tasks, the next one first.
#[derive(Drop)]
pub(super) struct Tasks<'a> {
    tasks: Vec<Task<'a>>,
}

impl<'a> Model for Tasks<'a> {
    ghost use Rattle.std.specs.Prelude.{List, reverse};
    ghost use Rattle.icu_char16trie.specs.declared.writer.task.Task.{Task};

    ghost Value = { List Task };

    ghost view = { λ inside. reverse inside.tasks.items };
}

impl<'a> Tasks<'a> {
    /// No tasks.
    pub(super) fn new(alloc: Global) -> Tasks<'a>
        ensures { result ≡ [] }
    {
        Tasks {
            tasks: Vec::new(alloc),
        }
    }

    /// A task is to be done before the others.
    pub(super) fn put(&mut self, task: Task<'a>) -> Result<(), AllocError>
        ensures { OnOk result (self.new ≡ task.entry ∷ self.old) }
    {
        self.tasks.push(task)?;
        Ok(())
    }

    /// The next task, if there is one.
    pub(super) fn take(&mut self) -> Option<Task<'a>>
        ensures { MatchOption result (self.old ≡ []) (λ task. self.old ≡ task ∷ self.new) }
    {
        self.tasks.pop()
    }
}

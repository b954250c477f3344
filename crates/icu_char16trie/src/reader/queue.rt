//! What a reader of a unit trie has read, and what is still to be read.
ghost use Rattle.std.specs.Prelude.{◌≡◌, ◌++◌, ◌<◌, ◌≤◌, ◌↔◌, ◌&&◌, ℕ, [], length, Result, IfOk, OnOk, IsTrue, Err, map};
ghost use Rattle.std.specs.Int.{cast_signed, w32};
ghost use Rattle.icu_char16trie.specs.UnitReadingOrder.{jobs_left, pairs_read, onward, noted, extended, HasRoom, IsTaken, IsStuck, HasRead, HasTested, passes_all, StopsIn};
ghost use Rattle.icu_char16trie.specs.declared.reader.error.ReadUnitsError.TheVariants.{BadUnits};

use super::entry_test::EntryTest;
use super::error::ReadUnitsError;
use super::part::{Part, part_index, part_step};
use icu_packed_vector::PackedVec;
use std::alloc::{AllocError, Global};

/// A part that is still to be read, and the units of the keys that lead to it.
#[derive(Drop)]
struct Task {
    key: Vec<u16>,
    part: Part,
}

/// The keys and values so far, and what is still to be read, the next part last.
#[derive(Drop)]
pub(super) struct Queue {
    tasks: Vec<Task>,
    entries: Vec<(Vec<u16>, i32)>,
}

/// The key, and a unit more if there is one.
fn extended(mut key: Vec<u16>, unit: Option<u16>) -> Result<Vec<u16>, AllocError>
    ensures { IfOk result (λ longer. longer.items ≡ extended key.items unit) }
{
    if let Some(unit) = unit {
        key.push(unit)?;
    }
    Ok(key)
}

/// Whether a key may go on with the unit, if there is one.
fn has_room(key: &Vec<u16>, unit: Option<u16>, limit: usize) -> bool
    ensures { IsTrue result ↔ HasRoom limit key.now.items unit }
{
    match unit {
        None => true,
        Some(_) => key.len() < limit,
    }
}

/// A copy of the key, and its value.
fn entry_of(key: &Vec<u16>, value: u32) -> Result<(Vec<u16>, i32), AllocError>
    ensures key { IfOk result (λ entry. entry.0.items ≡ key.now.items) }
    ensures value { IfOk result (λ entry. entry.1 ≡ cast_signed w32 value) }
{
    let copy = key.clone()?;
    Ok((copy, value.cast_signed()))
}

impl Queue {
    /// Nothing read, and nothing to be read.
    pub(super) fn new(alloc: Global) -> Queue
        ensures jobs { jobs_left result ≡ [] }
        ensures pairs { pairs_read result ≡ [] }
    {
        Queue {
            tasks: Vec::new(alloc),
            entries: Vec::new(alloc),
        }
    }

    /// The part is to be read next, if there is one.
    pub(super) fn put(&mut self, key: Vec<u16>, part: Option<Part>) -> Result<(), AllocError>
        ensures jobs { OnOk result (jobs_left self.new ≡ onward key.items part ++ jobs_left self.old) }
        ensures pairs { pairs_read self.new ≡ pairs_read self.old }
    {
        if let Some(part) = part {
            self.tasks.push(Task { key, part })?;
        }
        Ok(())
    }

    /// The same of a copy of the key.
    fn put_copy(&mut self, key: &Vec<u16>, part: Option<Part>) -> Result<(), AllocError>
        ensures jobs { OnOk result (jobs_left self.new ≡ onward key.now.items part ++ jobs_left self.old) }
        ensures pairs { pairs_read self.new ≡ pairs_read self.old }
    {
        if part.is_none() {
            return Ok(());
        }
        let copy = key.clone()?;
        self.put(copy, part)
    }

    /// The key has the value, if there is one.
    fn note(&mut self, key: &Vec<u16>, value: Option<u32>) -> Result<(), AllocError>
        ensures jobs { jobs_left self.new ≡ jobs_left self.old }
        ensures pairs { OnOk result (pairs_read self.new ≡ pairs_read self.old ++ noted key.now.items value) }
    {
        if let Some(value) = value {
            let entry = entry_of(key, value)?;
            self.entries.push(entry)?;
        }
        Ok(())
    }

    /// Reads what stands first in a part, and keeps what is left of it.
    fn take(
        &mut self,
        units: &PackedVec<'_, u16>,
        limit: usize,
        task: Task,
    ) -> Result<(), ReadUnitsError>
        ensures taken { IfOk result (λ _. IsTaken units.now limit task.key.items task.part (jobs_left self.old) (jobs_left self.new) (pairs_read self.old) (pairs_read self.new)) }
        ensures stuck { (index : ℕ) → result ≡ Err (BadUnits index) → IsStuck units.now limit task.key.items task.part index }
    {
        let Task { key, part } = task;
        let step = match part_step(units, part) {
            Ok(step) => step,
            Err(index) => return Err(ReadUnitsError::BadUnits(index)),
        };
        if !has_room(&key, step.unit, limit) {
            return Err(ReadUnitsError::BadUnits(part_index(part)));
        }
        self.put_copy(&key, step.rest)?;
        let key = extended(key, step.unit)?;
        self.note(&key, step.value)?;
        self.put(key, step.next)?;
        Ok(())
    }

    /// Reads all that is to be read.
    pub(super) fn take_all(
        &mut self,
        units: &PackedVec<'_, u16>,
        limit: usize,
    ) -> Result<(), ReadUnitsError>
        ensures read { IfOk result (λ _. HasRead units.now limit (jobs_left self.old) (pairs_read self.old) (pairs_read self.new)) }
        ensures stops { (index : ℕ) → result ≡ Err (BadUnits index) → StopsIn units.now limit (jobs_left self.old) index }
    {
        while let Some(task) = self.tasks.pop() {
            if let Err(error) = self.take(units, limit, task) {
                return Err(error);
            }
        }
        Ok(())
    }

    /// Whether the entry passes, if one was read, and all before it did. It is dropped.
    fn test_last<T: EntryTest>(&mut self, test: &T, all: bool) -> bool
        requires { length (pairs_read self.old) ≤ 1 }
        ensures jobs { jobs_left self.new ≡ jobs_left self.old }
        ensures pairs { pairs_read self.new ≡ [] }
        ensures all { result ≡ (all && passes_all (T.test test.now) (pairs_read self.old)) }
    {
        match self.entries.pop() {
            Some((key, value)) => all && test.passes(key.as_slice(), value),
            None => all,
        }
    }

    /// Reads all that is to be read, and tests each entry in place of keeping it.
    pub(super) fn test_all<T: EntryTest>(
        &mut self,
        units: &PackedVec<'_, u16>,
        limit: usize,
        test: &T,
    ) -> Result<bool, ReadUnitsError>
        requires { pairs_read self.old ≡ [] }
        ensures tested { IfOk result (λ all. HasTested units.now limit (jobs_left self.old) (T.test test.now) all) }
        ensures stops { (index : ℕ) → result ≡ Err (BadUnits index) → StopsIn units.now limit (jobs_left self.old) index }
    {
        let mut all = true;
        while let Some(task) = self.tasks.pop() {
            if let Err(error) = self.take(units, limit, task) {
                return Err(error);
            }
            all = self.test_last(test, all);
        }
        Ok(all)
    }

    /// What was read.
    pub(super) fn into_entries(self) -> Vec<(Vec<u16>, i32)>
        ensures { map (λ entry. (entry.0.items, entry.1)) result.items ≡ pairs_read self }
    {
        self.entries
    }
}

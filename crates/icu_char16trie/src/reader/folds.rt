//! Folds over the keys of a unit trie. A node that many jumps share is read once for each thing that the units before it
//! are folded to, however many keys that are.
ghost use Rattle.std.specs.Prelude.{◌≡◌, ◌+◌, ◌-◌, ◌^◌, ◌≤◌, ℕ, length, IsTrue, IfOk, OnOk, MatchOption, Some};
ghost use Rattle.std.specs.Int.{cast_signed, w32};
ghost use Rattle.std.specs.List.{Contains};
ghost use Rattle.icu_char16trie.specs.KeyFolds.{AreFolded, GrowsBy, HasEnded, HasTakenUp, IsFolding, folded_on, part_weight, weight};
ghost use Rattle.icu_char16trie.specs.UnitGrammar.{IsUnitTrie};
ghost use Rattle.icu_char16trie.specs.UnitPartSteps.{part_index};
ghost use Rattle.icu_char16trie.specs.declared.reader.folds.Job.{Job};

use super::super::cells::unit_at;
use super::part::{Part, part_index, part_step};
use icu_packed_vector::PackedVec;
use std::alloc::{AllocError, Global};

/// A fold over the units of a key.
pub trait KeyFold {
    ghost use Rattle.std.specs.Prelude.{◌≡◌, ℕ, IsTrue};

    /// What the units so far are folded to.
    type Folded: Copy;

    /// What a unit more makes of it.
    ghost onward: { Self → Self.Folded → ℕ → Self.Folded };

    /// What a unit more makes of it.
    fn fold_unit(&self, folded: Self::Folded, unit: u16) -> Self::Folded
        ensures { result ≡ onward self.now folded unit };

    /// Whether two are the same. A node to which both lead is then read once for them.
    fn is_same(&self, one: Self::Folded, other: Self::Folded) -> bool
        ensures { IsTrue result → one ≡ other };
}

/// A part that is still to be read, and what the units before it are folded to.
#[derive(Clone, Copy)]
struct Job<S> {
    part: Part,
    folded: S,
}

/// Whether two parts are the same.
fn is_same_part(one: Part, other: Part) -> bool
    ensures { IsTrue result → one ≡ other }
{
    match (one, other) {
        (Part::Node(index), Part::Node(index2)) => index == index2,
        (Part::Run(run), Part::Run(run2)) => run.left == run2.left && run.index == run2.index,
        (Part::Branch(b), Part::Branch(b2)) => {
            b.branch.count == b2.branch.count
                && b.branch.index == b2.branch.index
                && b.low == b2.low
                && b.high == b2.high
        }
        _ => false,
    }
}

/// Whether two jobs are the same.
fn is_same_job<F: KeyFold>(fold: &F, one: &Job<F::Folded>, other: &Job<F::Folded>) -> bool
    ensures { IsTrue result → one.now ≡ other.now }
{
    is_same_part(one.part, other.part) && fold.is_same(one.folded, other.folded)
}

/// Where a job is put in, behind those whose parts begin later; `None` if it is there already.
fn index_for<F: KeyFold>(jobs: &[Job<F::Folded>], fold: &F, job: &Job<F::Folded>) -> Option<usize>
    ensures { MatchOption result (Contains jobs.now job.now) (λ at. at ≤ length jobs.now) }
{
    let mut at = jobs.len();
    while at > 0 {
        let other = &jobs[at - 1];
        if is_same_job(fold, other, job) {
            return None;
        }
        if part_index(other.part) > part_index(job.part) {
            return Some(at);
        }
        at -= 1;
    }
    Some(0)
}

/// One job more, unless the same is there already. Jobs whose parts begin sooner stand further behind.
fn put_job<F: KeyFold>(
    jobs: &mut Vec<Job<F::Folded>>,
    fold: &F,
    job: Job<F::Folded>,
) -> Result<(), AllocError>
    ensures grown { OnOk result (GrowsBy (λ other. other ≡ job) jobs.old.items jobs.new.items) }
    ensures weight { OnOk result ((size : ℕ) → weight size jobs.new.items ≤ weight size jobs.old.items + 3 ^ (size - part_index job.part)) }
{
    match index_for(jobs.as_slice(), fold, &job) {
        Some(at) => {
            jobs.insert(at, job)?;
            Ok(())
        }
        None => Ok(()),
    }
}

/// The part is left to be read, if there is one.
fn put_part<F: KeyFold>(
    jobs: &mut Vec<Job<F::Folded>>,
    fold: &F,
    part: Option<Part>,
    folded: F::Folded,
) -> Result<(), AllocError>
    ensures grown { OnOk result (GrowsBy (λ other. (one : Part) × (part ≡ Some one) × (other ≡ record { part = one; folded = folded })) jobs.old.items jobs.new.items) }
    ensures weight { OnOk result ((size : ℕ) → weight size jobs.new.items ≤ weight size jobs.old.items + part_weight size part) }
{
    let Some(part) = part else {
        return Ok(());
    };
    put_job(jobs, fold, Job { part, folded })?;
    Ok(())
}

/// What a unit more makes of what the units so far are folded to, if there is one.
fn folded_on<F: KeyFold>(fold: &F, folded: F::Folded, unit: Option<u16>) -> F::Folded
    ensures { result ≡ folded_on (F.onward fold.now) folded unit }
{
    match unit {
        Some(unit) => fold.fold_unit(folded, unit),
        None => folded,
    }
}

/// The result with the value, if there is one.
fn note<S: Copy>(
    results: &mut Vec<(S, i32)>,
    folded: S,
    value: Option<u32>,
) -> Result<(), AllocError>
    ensures { OnOk result (GrowsBy (λ one. (number : ℕ) × (value ≡ Some number) × (one ≡ (folded, cast_signed w32 number))) results.old.items results.new.items) }
{
    if let Some(value) = value {
        results.push((folded, value.cast_signed()))?;
    }
    Ok(())
}

/// Reads what stands first in the part of a job, and keeps what is left of it: whether it can be read.
fn take_job<F: KeyFold>(
    jobs: &mut Vec<Job<F::Folded>>,
    results: &mut Vec<(F::Folded, i32)>,
    units: &PackedVec<'_, u16>,
    fold: &F,
    job: Job<F::Folded>,
) -> Result<bool, AllocError>
    ensures { IfOk result (HasTakenUp (F.onward fold.now) units.now job jobs.old.items jobs.new.items results.old.items results.new.items) }
{
    let step = match part_step(units, job.part) {
        Ok(step) => step,
        Err(_) => return Ok(false),
    };
    let longer = folded_on(fold, job.folded, step.unit);
    note(results, longer, step.value)?;
    put_part(jobs, fold, step.next, longer)?;
    put_part(jobs, fold, step.rest, job.folded)?;
    Ok(true)
}

/// Reads all that is left: whether it can be read.
fn take_jobs<F: KeyFold>(
    jobs: &mut Vec<Job<F::Folded>>,
    results: &mut Vec<(F::Folded, i32)>,
    units: &PackedVec<'_, u16>,
    fold: &F,
) -> Result<bool, AllocError>
    ensures { IfOk result (λ all. (first : Job F.Folded) → IsFolding (F.onward fold.now) units.now first jobs.old.items results.old.items
        → HasEnded (F.onward fold.now) units.now first results.new.items all) }
{
    while let Some(job) = jobs.pop() {
        let is_read = take_job(jobs, results, units, fold, job)?;
        if !is_read {
            return Ok(false);
        }
    }
    Ok(true)
}

/// What the units of each key of a unit trie are folded to, from this start on, with the value of the key, in any order.
/// `None` where the units break the grammar. Fails only when out of memory.
///
/// A node that many jumps share is read once for each thing that the units before it are folded to: the time goes by how
/// many those are, and not by how many keys there are.
pub fn fold_keys<F: KeyFold>(
    alloc: Global,
    units: &PackedVec<'_, u16>,
    fold: &F,
    start: F::Folded,
) -> Result<Option<Vec<(F::Folded, i32)>>, AllocError>
    ensures { IfOk result (λ found. MatchOption found (IsUnitTrie units.now → ⊥) (λ results. AreFolded (F.onward fold.now) start units.now results.items)) }
{
    let mut results = Vec::new(alloc);
    let Some(lead) = unit_at(units, 0) else {
        return Ok(Some(results));
    };
    if lead >= 0x40 {
        return Ok(None);
    }
    let mut jobs = Vec::new(alloc);
    put_part(&mut jobs, fold, Some(Part::Node(0)), start)?;
    let is_read = take_jobs(&mut jobs, &mut results, units, fold)?;
    if is_read { Ok(Some(results)) } else { Ok(None) }
}

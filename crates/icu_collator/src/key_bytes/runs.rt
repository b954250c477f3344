//! Levels whose runs of the common weight are written short, in one pass.

ghost use Rattle.std.specs.Prelude.{◌≡◌, ◌<◌, ◌≤◌, ◌+◌, ◌-◌, ◌%◌, ◌^◌, ◌/◌, ◌∷◌, ◌++◌, [], ℕ, Option, Some, false, true, cond, filter_map, replicate, All, IfOk, IfSome, OnOk};
ghost use Rattle.std.specs.List.{list_all};
ghost use Rattle.icu_collator.specs.KeyBytes.{run_bytes, with_runs};
ghost use Rattle.icu_collator.specs.KeyCodes.{AddsGiven, AddsWeight, code_of, rank_limit};
ghost use Rattle.icu_collator.specs.LevelLists.{counted_list, counted_of, has_sound_case};
ghost use Rattle.icu_collator.specs.Shifted.{Counted};
ghost use Rattle.icu_collator.specs.declared.levels.counted_elements.CountedElement.{CountedElement};

use super::buffer::KeyBytes;
use super::run_level::{RunBytes, RunLevel};
use crate::levels::counted_elements::{CountedElement, counted_element};
use icu_collator_types::elements::CollationElement;
use std::alloc::AllocError;

/// The byte that ends a run, where so many common weights are left for it.
#[inline(always)]
fn last_byte(bytes: RunBytes, is_below_next: bool, rest: u8) -> u8
    requires rest { rest < bytes.most }
    requires low { bytes.low + bytes.most ≤ 256 }
    requires high { bytes.most ≤ bytes.high }
    ensures { result ≡ cond is_below_next (bytes.high - rest) (bytes.low + rest) }
{
    if is_below_next {
        bytes.high - rest
    } else {
        bytes.low + rest
    }
}

/// Appends a run of one common weight and so many more. Fails only if memory is refused.
#[inline(always)]
fn write_filled_run(
    bytes: RunBytes,
    is_below_next: bool,
    more: usize,
    key: &mut KeyBytes,
) -> Result<(), AllocError>
    requires some { 0 < bytes.most }
    requires low { bytes.low + bytes.most ≤ 256 }
    requires high { bytes.most ≤ bytes.high }
    ensures { OnOk result (key.new.items ≡ key.old.items ++ replicate (more / bytes.most) bytes.middle
        ++ cond is_below_next (bytes.high - more % bytes.most) (bytes.low + more % bytes.most) ∷ []) }
{
    let most = usize::from(bytes.most);
    for _ in 0..more / most {
        key.push(bytes.middle)?;
    }
    let rest = (more % most) as u8;
    key.push(last_byte(bytes, is_below_next, rest))?;
    Ok(())
}

/// Appends a run of so many common weights, before a higher weight or before a lower one or the end. Fails only if
/// memory is refused.
#[inline(always)]
pub(super) fn write_run(
    level: RunLevel,
    is_below_next: bool,
    count: usize,
    key: &mut KeyBytes,
) -> Result<(), AllocError>
    ensures { OnOk result (key.new.items ≡ key.old.items ++ run_bytes (code_of level) is_below_next count) }
{
    if count == 0 {
        return Ok(());
    }
    write_filled_run(level.run_bytes(), is_below_next, count - 1, key)?;
    Ok(())
}

/// Takes one more weight, given by its rank, after so many common ones that aren't written yet; answers how many aren't
/// written then. Fails only if memory is refused.
#[inline(always)]
fn write_next(
    level: RunLevel,
    common: u64,
    rank: u64,
    pending: usize,
    key: &mut KeyBytes,
) -> Result<usize, AllocError>
    requires common { common ≡ (code_of level).common }
    requires rank { rank < rank_limit level }
    requires room { pending + 1 < 2 ^ 64 }
    ensures { IfOk result (λ now. AddsWeight (code_of level) rank pending key.old.items now key.new.items) }
{
    if rank == common {
        return Ok(pending + 1);
    }
    write_run(level, common < rank, pending, key)?;
    level.write_weight(rank, key)?;
    Ok(0)
}

/// The same of what an element gives, if it gives a weight.
#[inline(always)]
fn write_given(
    level: RunLevel,
    common: u64,
    rank: Option<u32>,
    pending: usize,
    key: &mut KeyBytes,
) -> Result<usize, AllocError>
    requires common { common ≡ (code_of level).common }
    requires rank { IfSome rank (λ r. r < rank_limit level) }
    requires room { pending + 1 < 2 ^ 64 }
    ensures { IfOk result (λ now. AddsGiven (code_of level) rank pending key.old.items now key.new.items) }
{
    let Some(rank) = rank else {
        return Ok(pending);
    };
    let now = write_next(level, common, u64::from(rank), pending, key)?;
    Ok(now)
}

/// The same of a rank that may pass 32 bits.
#[inline(always)]
pub(super) fn write_wide_given(
    level: RunLevel,
    common: u64,
    rank: Option<u64>,
    pending: usize,
    key: &mut KeyBytes,
) -> Result<usize, AllocError>
    requires common { common ≡ (code_of level).common }
    requires rank { IfSome rank (λ r. r < rank_limit level) }
    requires room { pending + 1 < 2 ^ 64 }
    ensures { IfOk result (λ now. AddsGiven (code_of level) rank pending key.old.items now key.new.items) }
{
    let Some(rank) = rank else {
        return Ok(pending);
    };
    let now = write_next(level, common, rank, pending, key)?;
    Ok(now)
}

/// Appends a level of the weights that elements give, by their ranks; a test tells the common weight by a look, or doesn't.
/// Fails only if memory is refused.
#[inline(always)]
pub(super) fn write_given_runs<F: Fn(CountedElement) -> Option<u32>, G: Fn(CountedElement) -> bool>(
    level: RunLevel,
    elements: &[CollationElement],
    variable_end: u32,
    given: F,
    is_common: G,
    key: &mut KeyBytes,
) -> Result<(), AllocError>
    requires callable { F.IsAlwaysCallable given }
    requires tested { G.IsAlwaysCallable is_common }
    requires cases { list_all has_sound_case (counted_list variable_end elements.now) ≡ true }
    requires small { (e : CountedElement) (w : Option ℕ) → F.post given e w → has_sound_case (counted_of e) ≡ true
        → IfSome w (λ rank. rank < rank_limit level) }
    ensures { OnOk result ((at : Counted → Option ℕ) → ((e : CountedElement) (w : Option ℕ) → F.post given e w → w ≡ at (counted_of e))
        → ((e : CountedElement) → G.post is_common e true → at (counted_of e) ≡ Some (code_of level).common)
        → key.new.items ≡ key.old.items ++ with_runs (code_of level) (filter_map at (counted_list variable_end elements.now))) }
{
    let common = level.common();
    let mut pending = 0;
    for element in elements {
        if is_common(counted_element(*element, variable_end)) {
            pending += 1;
            continue;
        }
        let rank = given(counted_element(*element, variable_end));
        pending = write_given(level, common, rank, pending, key)?;
    }
    write_run(level, false, pending, key)?;
    Ok(())
}

/// Appends a level of weights, given by their ranks. Fails only if memory is refused.
pub(super) fn write_runs(
    level: RunLevel,
    ranks: &[u32],
    key: &mut KeyBytes,
) -> Result<(), AllocError>
    requires { All (λ rank. rank < rank_limit level) ranks.now }
    ensures { OnOk result (key.new.items ≡ key.old.items ++ with_runs (code_of level) ranks.now) }
{
    let common = level.common();
    let mut pending = 0;
    for rank in ranks {
        pending = write_next(level, common, u64::from(*rank), pending, key)?;
    }
    write_run(level, false, pending, key)?;
    Ok(())
}

/// The same for ranks that may pass 32 bits.
pub(super) fn write_wide_runs(
    level: RunLevel,
    ranks: &[u64],
    key: &mut KeyBytes,
) -> Result<(), AllocError>
    requires { All (λ rank. rank < rank_limit level) ranks.now }
    ensures { OnOk result (key.new.items ≡ key.old.items ++ with_runs (code_of level) ranks.now) }
{
    let common = level.common();
    let mut pending = 0;
    for rank in ranks {
        pending = write_next(level, common, *rank, pending, key)?;
    }
    write_run(level, false, pending, key)?;
    Ok(())
}

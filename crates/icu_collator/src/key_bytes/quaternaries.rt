//! The quaternary level of a key.

ghost use Rattle.std.specs.Prelude.{◌≡◌, ◌<◌, ◌^◌, ◌==◌, ◌++◌, All, OnOk, filter_map, true};
ghost use Rattle.std.specs.List.{list_all};
ghost use Rattle.icu_collator.specs.Collators.{source_collation};
ghost use Rattle.icu_collator.specs.KeyCodes.{is_small_place, quaternaries_by_rank, rank_limit};
ghost use Rattle.icu_collator.specs.LevelLists.{counted_list, quaternary_ranks};
ghost use Rattle.icu_collator.specs.Levels.{quaternary_at};
ghost use Rattle.icu_collator.specs.declared.key_bytes.run_level.RunLevel.TheVariants.{Quaternaries};

use super::buffer::KeyBytes;
use super::run_level::RunLevel;
use super::runs::{write_run, write_wide_given, write_wide_runs};
use crate::levels::counted_elements::counted_element;
use crate::levels::weights::quaternary_rank_at;
use icu_collator_core::checked::CheckedTables;
use icu_collator_types::elements::CollationElement;
use std::alloc::AllocError;

/// Whether all quaternaries are common.
fn are_common(ranks: &[u64]) -> bool
    ensures { result ≡ list_all (λ rank. rank == 2 ^ 32) ranks.now }
{
    ranks.iter().all(|rank| *rank == 1 << 32)
}

/// Appends the quaternary level, given by ranks; common weights alone are written only where something can be shifted.
/// Fails only if memory is refused.
pub(super) fn write_quaternaries(
    is_shifted: bool,
    ranks: &[u64],
    key: &mut KeyBytes,
) -> Result<(), AllocError>
    requires { All (λ rank. rank < rank_limit Quaternaries) ranks.now }
    ensures { OnOk result (key.new.items ≡ key.old.items ++ quaternaries_by_rank is_shifted ranks.now) }
{
    if !is_shifted && are_common(ranks) {
        return Ok(());
    }
    write_wide_runs(RunLevel::Quaternaries, ranks, key)?;
    Ok(())
}

/// Appends the quaternaries that elements give, where something can be shifted. Fails only if memory is refused.
#[inline(never)]
pub(super) fn write_given_quaternaries(
    checked: &CheckedTables<'_>,
    elements: &[CollationElement],
    variable_end: u32,
    key: &mut KeyBytes,
) -> Result<(), AllocError>
    ensures written { OnOk result (key.new.items ≡ key.old.items ++ quaternaries_by_rank true (quaternary_ranks (source_collation checked.now) (counted_list variable_end elements.now))) }
    ensures small { OnOk result (list_all is_small_place (filter_map (quaternary_at (source_collation checked.now)) (counted_list variable_end elements.now)) ≡ true) }
{
    let level = RunLevel::Quaternaries;
    let common = level.common();
    let mut pending = 0;
    for element in elements {
        let rank = quaternary_rank_at(checked, counted_element(*element, variable_end));
        pending = write_wide_given(level, common, rank, pending, key)?;
    }
    write_run(level, false, pending, key)?;
    Ok(())
}

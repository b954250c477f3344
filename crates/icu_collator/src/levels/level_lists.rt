//! The list of each level.

ghost use Rattle.std.specs.Prelude.{◌≡◌, ◌+◌, ◌<◌, ◌≤◌, ◌^◌, All, Bool, IfOk, IfSome, Option, filter_map, map, true};
ghost use Rattle.std.specs.List.{list_all};
ghost use Rattle.icu_collator.specs.Collators.{source_collation};
ghost use Rattle.icu_collator.specs.Shifted.{Counted};
ghost use Rattle.icu_collator.specs.declared.levels.counted_elements.CountedElement.{CountedElement};
ghost use Rattle.icu_collator.specs.KeyCodes.{is_small_place};
ghost use Rattle.icu_collator.specs.LevelLists.{cases_by, counted_list, counted_of, has_sound_case, quaternary_ranks, secondary_ranks};
ghost use Rattle.icu_collator.specs.Levels.{quaternary_at, secondary_at};
ghost use Rattle.icu_collator.specs.Order.{secondary_rank};

use super::counted_elements::{CountedElement, counted_element};
use super::segments::backward_ranks;
use super::weights::{case_at, primary_at, quaternary_rank_at, secondary_rank_at, tertiary_at};
use icu_collator_core::checked::CheckedTables;
use icu_collator_types::elements::CollationElement;
use icu_collator_types::options::ResolvedCollatorOptions;
use smallvec::SmallVec;
use std::alloc::{AllocError, Global};

/// What elements give, in order. Fails only if memory is refused.
fn listed<W: Copy + Default, F: Fn(CountedElement) -> Option<W>>(
    alloc: Global,
    elements: &[CollationElement],
    variable_end: u32,
    given: F,
) -> Result<SmallVec<W, 32>, AllocError>
    requires { F.IsAlwaysCallable given }
    ensures list { IfOk result (λ list. (at : Counted → Option W)
        → ((e : CountedElement) (w : Option W) → F.post given e w → w ≡ at (counted_of e))
        → list.items ≡ filter_map at (counted_list variable_end elements.now)) }
    ensures each { IfOk result (λ list. (test : W → Bool)
        → ((e : CountedElement) (w : Option W) → F.post given e w → IfSome w (λ weight. test weight ≡ true))
        → list_all test list.items ≡ true) }
    ensures holds { IfOk result (λ list. (holds : Counted → Bool)
        → ((e : CountedElement) (w : Option W) → F.post given e w → holds (counted_of e) ≡ true)
        → list_all holds (counted_list variable_end elements.now) ≡ true) }
{
    let mut list = SmallVec::new(alloc);
    for element in elements {
        if let Some(weight) = given(counted_element(*element, variable_end)) {
            list.push(weight)?;
        }
    }
    Ok(list)
}

/// The ranks of the secondaries in the order of the text. Fails only if memory is refused.
fn forward_ranks(
    alloc: Global,
    elements: &[CollationElement],
    variable_end: u32,
) -> Result<SmallVec<u32, 32>, AllocError>
    ensures { IfOk result (λ list. list.items ≡ map secondary_rank (filter_map secondary_at (counted_list variable_end elements.now))) }
{
    let list = listed(alloc, elements, variable_end, secondary_rank_at)?;
    Ok(list)
}

/// The ranks of the secondaries, backward where the tables say so. Fails only if memory is refused.
fn secondary_ranks(
    alloc: Global,
    checked: &CheckedTables<'_>,
    elements: &[CollationElement],
    variable_end: u32,
) -> Result<SmallVec<u32, 32>, AllocError>
    ensures { IfOk result (λ list. list.items ≡ secondary_ranks (source_collation checked.now) (counted_list variable_end elements.now)) }
{
    if checked.tables().metadata.backward_second_level() {
        let list = backward_ranks(alloc, elements, variable_end)?;
        Ok(list)
    } else {
        let list = forward_ranks(alloc, elements, variable_end)?;
        Ok(list)
    }
}

/// The secondaries, backward where the tables say so, as ranks: 0 for the end of a segment, else one more than the
/// weight. Fails only if memory is refused.
pub(crate) fn secondaries(
    alloc: Global,
    checked: &CheckedTables<'_>,
    elements: &[CollationElement],
    variable_end: u32,
) -> Result<SmallVec<u32, 32>, AllocError>
    ensures ranks { IfOk result (λ list. list.items ≡ secondary_ranks (source_collation checked.now) (counted_list variable_end elements.now)) }
    ensures bound { IfOk result (λ list. All (λ rank. rank ≤ 2 ^ 16) list.items) }
{
    let list = secondary_ranks(alloc, checked, elements, variable_end)?;
    Ok(list)
}

/// The cases. Fails only if memory is refused.
pub(crate) fn cases(
    alloc: Global,
    options: &ResolvedCollatorOptions,
    elements: &[CollationElement],
    variable_end: u32,
) -> Result<SmallVec<u32, 32>, AllocError>
    ensures cases { IfOk result (λ list. list.items ≡ cases_by options.now (counted_list variable_end elements.now)) }
    ensures bound { IfOk result (λ list. list_all has_sound_case (counted_list variable_end elements.now) ≡ true → All (λ case. case ≤ 2) list.items) }
{
    let list = listed(
        alloc,
        elements,
        variable_end,
        |element| case_at(options, element),
    )?;
    Ok(list)
}

/// The ranks at the quaternary level: a shifted primary, or 2^32 and the quaternary. Fails only if memory is refused.
pub(crate) fn quaternaries(
    alloc: Global,
    checked: &CheckedTables<'_>,
    elements: &[CollationElement],
    variable_end: u32,
) -> Result<SmallVec<u64, 32>, AllocError>
    ensures ranks { IfOk result (λ list. list.items ≡ quaternary_ranks (source_collation checked.now) (counted_list variable_end elements.now)) }
    ensures bound { IfOk result (λ list. All (λ rank. rank < 2 ^ 32 + 4) list.items) }
    ensures shifted { IfOk result (λ list. list_all is_small_place (filter_map (quaternary_at (source_collation checked.now)) (counted_list variable_end elements.now)) ≡ true) }
{
    let list = listed(
        alloc,
        elements,
        variable_end,
        |element| quaternary_rank_at(checked, element),
    )?;
    Ok(list)
}

//! The levels of a key after the primary one, each with the bytes that separate and end it.

ghost use Rattle.std.specs.Prelude.{◌≡◌, ◌<◌, ◌≤◌, ◌+◌, ◌^◌, [], ◌∷◌, ◌++◌, List, false, filter_map, map, true, All, OnOk};
ghost use Rattle.std.specs.List.{list_all};
ghost use Rattle.icu_collator_types.specs.Options.{is_shifted, is_upper_first};
ghost use Rattle.icu_collator.specs.Collators.{source_collation};
ghost use Rattle.icu_collator.specs.KeyBytes.{case_halves, character_level, paired_halves, quaternary_level, secondary_code, tertiary_code_of, with_runs};
ghost use Rattle.icu_collator.specs.KeyCodes.{code_of, is_small_place, rank_limit};
ghost use Rattle.icu_collator.specs.LevelLists.{counted_list, has_sound_case, tertiaries_by, tertiary_bound};
ghost use Rattle.icu_collator.specs.Levels.{QuaternaryPlace, SecondaryPlace, quaternary_at, secondary_at};
ghost use Rattle.icu_collator.specs.Order.{quaternary_rank, secondary_rank};

use super::buffer::KeyBytes;
use super::cases::write_cases;
use super::identical_level::write_characters;
use super::quaternaries::{write_given_quaternaries, write_quaternaries};
use super::run_level::RunLevel;
use super::runs::{write_given_runs, write_runs};
use crate::levels::counted_elements::CountedElement;
use crate::levels::weights::{
    has_case_bits, has_common_secondary, has_common_tertiary, plain_tertiary_at, secondary_rank_at,
    tertiary_at,
};
use icu_collator_core::checked::CheckedTables;
use icu_collator_types::elements::CollationElement;
use icu_collator_types::options::{
    AlternateHandling, CaseLevel, CollationCaseFirst, ResolvedCollatorOptions,
};
use std::alloc::AllocError;

/// The byte that separates levels, and that ends some.
const LEVEL_SEPARATOR: u8 = 0x01;

/// Appends the secondary level, given by ranks. Fails only if memory is refused.
pub(super) fn write_secondary_level(ranks: &[u32], key: &mut KeyBytes) -> Result<(), AllocError>
    requires { All (λ rank. rank ≤ 2 ^ 16) ranks.now }
    ensures { OnOk result ((places : List SecondaryPlace) → map secondary_rank places ≡ ranks.now
        → key.new.items ≡ key.old.items ++ 0x01 ∷ (with_runs secondary_code places ++ 0x01 ∷ [])) }
{
    key.push(LEVEL_SEPARATOR)?;
    write_runs(RunLevel::Secondaries, ranks, key)?;
    key.push(LEVEL_SEPARATOR)?;
    Ok(())
}

/// Appends the secondary level in the order of the text. Fails only if memory is refused.
#[inline(always)]
pub(super) fn write_forward_level(
    elements: &[CollationElement],
    variable_end: u32,
    key: &mut KeyBytes,
) -> Result<(), AllocError>
    requires { list_all has_sound_case (counted_list variable_end elements.now) ≡ true }
    ensures { OnOk result (key.new.items ≡ key.old.items
        ++ 0x01 ∷ (with_runs secondary_code (filter_map secondary_at (counted_list variable_end elements.now)) ++ 0x01 ∷ [])) }
{
    key.push(LEVEL_SEPARATOR)?;
    write_given_runs(
        RunLevel::Secondaries,
        elements,
        variable_end,
        secondary_rank_at,
        has_common_secondary,
        key,
    )?;
    key.push(LEVEL_SEPARATOR)?;
    Ok(())
}

/// Whether upper case comes first.
fn is_upper_first(case_first: CollationCaseFirst) -> bool
    ensures { result ≡ is_upper_first case_first }
{
    match case_first {
        CollationCaseFirst::Upper => true,
        CollationCaseFirst::Lower | CollationCaseFirst::False => false,
    }
}

/// Appends the case level. Fails only if memory is refused.
pub(super) fn write_case_level(
    options: &ResolvedCollatorOptions,
    cases: &[u32],
    key: &mut KeyBytes,
) -> Result<(), AllocError>
    requires { All (λ case. case ≤ 2) cases.now }
    ensures { OnOk result (key.new.items ≡ key.old.items ++ 0x01 ∷ paired_halves (case_halves options.now cases.now)) }
{
    key.push(LEVEL_SEPARATOR)?;
    write_cases(is_upper_first(options.case_first), cases, key)?;
    Ok(())
}

/// How tertiaries are written.
#[tactic(auto, unfolding(crate::specs::KeyCodes::code_of, crate::specs::KeyCodes::rank_limit))]
fn tertiary_level(options: &ResolvedCollatorOptions) -> RunLevel
    ensures code { code_of result ≡ tertiary_code_of options.now }
    ensures limit { rank_limit result ≡ tertiary_bound options.now }
{
    match (options.case_first, options.case_level) {
        (CollationCaseFirst::False, _) | (_, CaseLevel::On) => RunLevel::Tertiaries,
        (CollationCaseFirst::Lower, CaseLevel::Off) => RunLevel::LowerFirst,
        (CollationCaseFirst::Upper, CaseLevel::Off) => RunLevel::UpperFirst,
    }
}

/// Tells no element's weight by a look: with its case none is common to most.
#[inline(always)]
fn tells_none(_element: CountedElement) -> bool
    ensures { result ≡ false }
{
    false
}

/// Appends the weights of the tertiary level. Fails only if memory is refused.
#[inline(always)]
fn write_tertiaries(
    options: &ResolvedCollatorOptions,
    elements: &[CollationElement],
    variable_end: u32,
    key: &mut KeyBytes,
) -> Result<(), AllocError>
    requires { list_all has_sound_case (counted_list variable_end elements.now) ≡ true }
    ensures { OnOk result (key.new.items ≡ key.old.items ++ with_runs (tertiary_code_of options.now) (tertiaries_by options.now (counted_list variable_end elements.now))) }
{
    if has_case_bits(options) {
        let level = tertiary_level(options);
        write_given_runs(
            level,
            elements,
            variable_end,
            |element| tertiary_at(options, element),
            tells_none,
            key,
        )?;
        return Ok(());
    }
    write_given_runs(
        RunLevel::Tertiaries,
        elements,
        variable_end,
        plain_tertiary_at,
        has_common_tertiary,
        key,
    )?;
    Ok(())
}

/// Appends the tertiary level. Fails only if memory is refused.
#[inline(always)]
pub(super) fn write_tertiary_level(
    options: &ResolvedCollatorOptions,
    elements: &[CollationElement],
    variable_end: u32,
    key: &mut KeyBytes,
) -> Result<(), AllocError>
    requires { list_all has_sound_case (counted_list variable_end elements.now) ≡ true }
    ensures { OnOk result (key.new.items ≡ key.old.items
        ++ 0x01 ∷ (with_runs (tertiary_code_of options.now) (tertiaries_by options.now (counted_list variable_end elements.now)) ++ 0x01 ∷ [])) }
{
    key.push(LEVEL_SEPARATOR)?;
    write_tertiaries(options, elements, variable_end, key)?;
    key.push(LEVEL_SEPARATOR)?;
    Ok(())
}

/// Whether something can be shifted.
pub(super) fn is_shifted(handling: AlternateHandling) -> bool
    ensures { result ≡ is_shifted handling }
{
    match handling {
        AlternateHandling::NonIgnorable => false,
        AlternateHandling::Shifted => true,
    }
}

/// Appends the quaternary level, given by ranks. Fails only if memory is refused.
pub(super) fn write_quaternary_level(
    options: &ResolvedCollatorOptions,
    ranks: &[u64],
    key: &mut KeyBytes,
) -> Result<(), AllocError>
    requires { All (λ rank. rank < 2 ^ 32 + 4) ranks.now }
    ensures { OnOk result ((places : List QuaternaryPlace) → map quaternary_rank places ≡ ranks.now → list_all is_small_place places ≡ true
        → key.new.items ≡ key.old.items ++ 0x01 ∷ (quaternary_level options.now places ++ 0x01 ∷ [])) }
{
    key.push(LEVEL_SEPARATOR)?;
    write_quaternaries(is_shifted(options.alternate_handling), ranks, key)?;
    key.push(LEVEL_SEPARATOR)?;
    Ok(())
}

/// Appends the quaternary level of elements, where something can be shifted. Fails only if memory is refused.
pub(super) fn write_shifted_quaternaries(
    checked: &CheckedTables<'_>,
    options: &ResolvedCollatorOptions,
    elements: &[CollationElement],
    variable_end: u32,
    key: &mut KeyBytes,
) -> Result<(), AllocError>
    requires { is_shifted options.now.alternate_handling ≡ true }
    ensures { OnOk result (key.new.items ≡ key.old.items
        ++ 0x01 ∷ (quaternary_level options.now (filter_map (quaternary_at (source_collation checked.now)) (counted_list variable_end elements.now)) ++ 0x01 ∷ [])) }
{
    key.push(LEVEL_SEPARATOR)?;
    write_given_quaternaries(checked, elements, variable_end, key)?;
    key.push(LEVEL_SEPARATOR)?;
    Ok(())
}

/// Appends the identical level. Fails only if memory is refused.
pub(super) fn write_identical_level(list: &[char], key: &mut KeyBytes) -> Result<(), AllocError>
    ensures { OnOk result (key.new.items ≡ key.old.items ++ 0x01 ∷ character_level list.now) }
{
    key.push(LEVEL_SEPARATOR)?;
    write_characters(list, key)?;
    Ok(())
}

//! A whole key, from the elements of a text that count and from its characters.
//!
//! The program has two copies of this code: where no element is variable none is asked, which spares 20 of the 100 instructions that
//! an element of a Latin key takes.

ghost use Rattle.std.specs.Prelude.{◌≡◌, [], ◌∷◌, ◌++◌, List, OnOk, filter_map, true};
ghost use Rattle.std.specs.List.{list_all};
ghost use Rattle.icu_collator_types.specs.Options.{has_case_level, is_at_least};
ghost use Rattle.icu_collator_types.specs.declared.elements.Element.{Element};
ghost use Rattle.icu_collator_types.specs.declared.options.Strength.TheVariants.{Identical, Quaternary, Secondary, Tertiary};
ghost use Rattle.icu_collator.specs.Collators.{source_collation};
ghost use Rattle.icu_collator.specs.KeyBytes.{case_halves, character_level, key_bytes, level_bytes, paired_halves, quaternary_level, secondary_code, tertiary_code_of, with_runs};
ghost use Rattle.icu_collator.specs.LevelLists.{cases_by, counted_list, has_sound_case, tertiaries_by};
ghost use Rattle.icu_collator.specs.Levels.{levels_of, quaternary_at, secondaries_of};
ghost use Rattle.icu_collator.specs.Shifted.{counted};

use super::buffer::KeyBytes;
use super::levels::{
    is_shifted, write_case_level, write_forward_level, write_identical_level,
    write_quaternary_level, write_secondary_level, write_shifted_quaternaries,
    write_tertiary_level,
};
use super::primaries::write_primaries;
use crate::levels::level_lists::{cases, quaternaries, secondaries};
use icu_collator_core::checked::CheckedTables;
use icu_collator_types::elements::CollationElement;
use icu_collator_types::options::{CaseLevel, ResolvedCollatorOptions, Strength};
use std::alloc::AllocError;

/// Appends the secondary level of tables that count secondaries from the end. Fails only if memory is refused.
#[inline(never)]
fn add_backward_secondaries(
    checked: &CheckedTables<'_>,
    elements: &[CollationElement],
    variable_end: u32,
    key: &mut KeyBytes,
) -> Result<(), AllocError>
    requires { list_all has_sound_case (counted_list variable_end elements.now) ≡ true }
    ensures { OnOk result (key.new.items ≡ key.old.items
        ++ 0x01 ∷ (with_runs secondary_code (secondaries_of (source_collation checked.now) (counted_list variable_end elements.now)) ++ 0x01 ∷ [])) }
{
    let ranks = secondaries(key.allocator(), checked, elements, variable_end)?;
    write_secondary_level(&ranks, key)?;
    Ok(())
}

/// Appends the secondary level, where it is in force. Fails only if memory is refused.
#[inline(always)]
fn add_secondaries(
    checked: &CheckedTables<'_>,
    options: &ResolvedCollatorOptions,
    elements: &[CollationElement],
    variable_end: u32,
    key: &mut KeyBytes,
) -> Result<(), AllocError>
    requires { list_all has_sound_case (counted_list variable_end elements.now) ≡ true }
    ensures { OnOk result (key.new.items ≡ key.old.items ++ level_bytes (is_at_least options.now.strength Secondary)
        (with_runs secondary_code (secondaries_of (source_collation checked.now) (counted_list variable_end elements.now)) ++ 0x01 ∷ [])) }
{
    if !options.strength.is_at_least(Strength::Secondary) {
        return Ok(());
    }
    if checked.tables().metadata.backward_second_level() {
        add_backward_secondaries(checked, elements, variable_end, key)?;
        return Ok(());
    }
    write_forward_level(elements, variable_end, key)?;
    Ok(())
}

/// Appends the case level. Fails only if memory is refused.
#[inline(never)]
fn add_listed_cases(
    options: &ResolvedCollatorOptions,
    elements: &[CollationElement],
    variable_end: u32,
    key: &mut KeyBytes,
) -> Result<(), AllocError>
    requires { list_all has_sound_case (counted_list variable_end elements.now) ≡ true }
    ensures { OnOk result (key.new.items ≡ key.old.items
        ++ 0x01 ∷ paired_halves (case_halves options.now (cases_by options.now (counted_list variable_end elements.now)))) }
{
    let list = cases(key.allocator(), options, elements, variable_end)?;
    write_case_level(options, &list, key)?;
    Ok(())
}

/// Appends the case level, where it is in force. Fails only if memory is refused.
#[inline(always)]
fn add_cases(
    options: &ResolvedCollatorOptions,
    elements: &[CollationElement],
    variable_end: u32,
    key: &mut KeyBytes,
) -> Result<(), AllocError>
    requires { list_all has_sound_case (counted_list variable_end elements.now) ≡ true }
    ensures { OnOk result (key.new.items ≡ key.old.items ++ level_bytes (has_case_level options.now.case_level)
        (paired_halves (case_halves options.now (cases_by options.now (counted_list variable_end elements.now))))) }
{
    match options.case_level {
        CaseLevel::Off => Ok(()),
        CaseLevel::On => {
            add_listed_cases(options, elements, variable_end, key)?;
            Ok(())
        }
    }
}

/// Appends the tertiary level, where it is in force. Fails only if memory is refused.
#[inline(always)]
fn add_tertiaries(
    options: &ResolvedCollatorOptions,
    elements: &[CollationElement],
    variable_end: u32,
    key: &mut KeyBytes,
) -> Result<(), AllocError>
    requires { list_all has_sound_case (counted_list variable_end elements.now) ≡ true }
    ensures { OnOk result (key.new.items ≡ key.old.items ++ level_bytes (is_at_least options.now.strength Tertiary)
        (with_runs (tertiary_code_of options.now) (tertiaries_by options.now (counted_list variable_end elements.now)) ++ 0x01 ∷ [])) }
{
    if !options.strength.is_at_least(Strength::Tertiary) {
        return Ok(());
    }
    write_tertiary_level(options, elements, variable_end, key)?;
    Ok(())
}

/// Appends the quaternary level. Fails only if memory is refused.
#[inline(never)]
fn add_listed_quaternaries(
    checked: &CheckedTables<'_>,
    options: &ResolvedCollatorOptions,
    elements: &[CollationElement],
    variable_end: u32,
    key: &mut KeyBytes,
) -> Result<(), AllocError>
    ensures { OnOk result (key.new.items ≡ key.old.items
        ++ 0x01 ∷ (quaternary_level options.now (filter_map (quaternary_at (source_collation checked.now)) (counted_list variable_end elements.now)) ++ 0x01 ∷ [])) }
{
    if is_shifted(options.alternate_handling) {
        write_shifted_quaternaries(checked, options, elements, variable_end, key)?;
        return Ok(());
    }
    let ranks = quaternaries(key.allocator(), checked, elements, variable_end)?;
    write_quaternary_level(options, &ranks, key)?;
    Ok(())
}

/// Appends the quaternary level, where it is in force. Fails only if memory is refused.
#[inline(always)]
fn add_quaternaries(
    checked: &CheckedTables<'_>,
    options: &ResolvedCollatorOptions,
    elements: &[CollationElement],
    variable_end: u32,
    key: &mut KeyBytes,
) -> Result<(), AllocError>
    ensures { OnOk result (key.new.items ≡ key.old.items ++ level_bytes (is_at_least options.now.strength Quaternary)
        (quaternary_level options.now (filter_map (quaternary_at (source_collation checked.now)) (counted_list variable_end elements.now)) ++ 0x01 ∷ [])) }
{
    if !options.strength.is_at_least(Strength::Quaternary) {
        return Ok(());
    }
    add_listed_quaternaries(checked, options, elements, variable_end, key)?;
    Ok(())
}

/// Appends the identical level, where it is in force. Fails only if memory is refused.
#[inline(always)]
fn add_characters(
    options: &ResolvedCollatorOptions,
    characters: &[char],
    key: &mut KeyBytes,
) -> Result<(), AllocError>
    ensures { OnOk result (key.new.items ≡ key.old.items ++ level_bytes (is_at_least options.now.strength Identical) (character_level characters.now)) }
{
    if !options.strength.is_at_least(Strength::Identical) {
        return Ok(());
    }
    write_identical_level(characters, key)?;
    Ok(())
}

/// Appends the key of a text's levels, given as the elements that count and, at `Identical`, the decomposed list of its
/// characters. Fails only if memory is refused.
#[inline(always)]
fn write_levels(
    checked: &CheckedTables<'_>,
    options: &ResolvedCollatorOptions,
    elements: &[CollationElement],
    variable_end: u32,
    characters: &[char],
    key: &mut KeyBytes,
) -> Result<(), AllocError>
    requires { list_all has_sound_case (counted_list variable_end elements.now) ≡ true }
    ensures { OnOk result ((es : List Element) → counted_list variable_end elements.now ≡ counted (source_collation checked.now) options.now es
        → key.new.items ≡ key.old.items ++ key_bytes (source_collation checked.now) options.now (levels_of (source_collation checked.now) options.now es characters.now)) }
{
    write_primaries(checked, elements, variable_end, key)?;
    add_secondaries(checked, options, elements, variable_end, key)?;
    add_cases(options, elements, variable_end, key)?;
    add_tertiaries(options, elements, variable_end, key)?;
    add_quaternaries(checked, options, elements, variable_end, key)?;
    add_characters(options, characters, key)?;
    Ok(())
}

/// The same: where no element is variable by a copy of the code that asks none.
#[inline(never)]
pub(crate) fn write_whole_key(
    checked: &CheckedTables<'_>,
    options: &ResolvedCollatorOptions,
    elements: &[CollationElement],
    variable_end: u32,
    characters: &[char],
    key: &mut KeyBytes,
) -> Result<(), AllocError>
    requires { list_all has_sound_case (counted_list variable_end elements.now) ≡ true }
    ensures { OnOk result ((es : List Element) → counted_list variable_end elements.now ≡ counted (source_collation checked.now) options.now es
        → key.new.items ≡ key.old.items ++ key_bytes (source_collation checked.now) options.now (levels_of (source_collation checked.now) options.now es characters.now)) }
{
    if variable_end == 0 {
        write_levels(checked, options, elements, 0, characters, key)?;
        return Ok(());
    }
    write_levels(checked, options, elements, variable_end, characters, key)?;
    Ok(())
}

//! The key of a text. Its elements are read into an array, flat or by stretches, or else it is read by its decomposed list.
//!
//! The array has one of three sizes, each with a copy of the code, in a function of its own: of an ordinary key's 1,800 instructions
//! 40 clear 64 elements, 240 would take 110, and 512 take 4,100.

ghost use Rattle.std.specs.Prelude.{◌≡◌, ◌≤◌, [], ◌++◌, All, List, IfErr, IfOk, OnOk, false, true};
ghost use Rattle.std.specs.Char.{IsScalar};
ghost use Rattle.std.specs.List.{list_all};
ghost use Rattle.icu_normalizer_core.specs.Canonical.{decomposed};
ghost use Rattle.icu_collator_types.specs.declared.elements.Element.{Element};
ghost use Rattle.icu_collator_core.specs.ElementLists.{unpacked};
ghost use Rattle.icu_collator.specs.Collators.{source_collation};
ghost use Rattle.icu_collator.specs.KeyBytes.{key_bytes, key_of_text};
ghost use Rattle.icu_collator.specs.LevelLists.{counted_list, has_sound_case, variable_end_of};
ghost use Rattle.icu_collator.specs.Levels.{elements_of_text, levels_of};
ghost use Rattle.icu_collator.specs.Shifted.{counted};
ghost use Rattle.icu_collator.specs.Sinks.{IsRefusedKey};

use super::buffer::KeyBytes;
use super::whole::write_whole_key;
use crate::encodings::Characters;
use crate::levels::counted_elements::{do_all_count, kept, variable_end};
use crate::read_texts::{numeric_lead, read_elements, read_text};
use crate::sinks::whole::write_key;
use crate::sinks::{CollationKeySink, KeyError};
use icu_collator_core::checked::CheckedTables;
use icu_collator_core::elements::whole_texts::decomposed_list;
use icu_collator_core::flat::FlatElements;
use icu_collator_types::elements::CollationElement;
use icu_collator_types::options::{ResolvedCollatorOptions, Strength};
use smallvec::SmallVec;
use std::alloc::{AllocError, Global};

/// A text of at most so many bytes or units is short.
const SHORT: usize = 60;

/// One of more, but at most so many, is of middle length.
const MIDDLE: usize = 220;

/// How many elements of a short text are kept without memory.
const FEW_ELEMENTS: usize = 64;

/// How many of one of middle length.
const SOME_ELEMENTS: usize = 240;

/// How many of a longer one.
const MANY_ELEMENTS: usize = 512;

/// The decomposed list of a text. Fails only if memory is refused.
fn listed_characters<T: Characters>(
    alloc: Global,
    checked: &CheckedTables<'_>,
    text: T,
) -> Result<SmallVec<char, 64>, AllocError>
    ensures { IfOk result (λ list. list.items ≡ decomposed (source_collation checked.now).canonical (T.characters text)) }
{
    let list = decomposed_list(alloc, checked.canonical(), text.chars())?;
    Ok(list)
}

/// Appends the key of a text of strength `Identical`, given as its elements that count. Fails only if memory is
/// refused.
#[inline(never)]
fn write_exact_key<T: Characters>(
    alloc: Global,
    checked: &CheckedTables<'_>,
    options: &ResolvedCollatorOptions,
    elements: &[CollationElement],
    variable_end: u32,
    text: T,
    key: &mut KeyBytes,
) -> Result<(), AllocError>
    requires { list_all has_sound_case (counted_list variable_end elements.now) ≡ true }
    ensures { OnOk result ((es : List Element) → counted_list variable_end elements.now ≡ counted (source_collation checked.now) options.now es
        → key.new.items ≡ key.old.items ++ key_bytes (source_collation checked.now) options.now
        (levels_of (source_collation checked.now) options.now es (decomposed (source_collation checked.now).canonical (T.characters text)))) }
{
    let characters = listed_characters(alloc, checked, text)?;
    write_whole_key(checked, options, elements, variable_end, &characters, key)?;
    Ok(())
}

/// Appends the key of a text, given as its elements that count, to no byte. Fails only if memory is refused.
#[inline(always)]
fn write_counted_key<T: Characters>(
    alloc: Global,
    checked: &CheckedTables<'_>,
    options: &ResolvedCollatorOptions,
    elements: &[CollationElement],
    variable_end: u32,
    text: T,
    key: &mut KeyBytes,
) -> Result<(), AllocError>
    requires empty { key.old.items ≡ [] }
    requires scalars { All IsScalar (T.characters text) }
    requires elements { counted_list variable_end elements.now
        ≡ counted (source_collation checked.now) options.now (elements_of_text (source_collation checked.now) options.now (T.characters text)) }
    ensures { OnOk result (key.new.items ≡ key_of_text (source_collation checked.now) options.now (T.characters text)) }
{
    checked.keep_promise();
    checked.canonical().keep_promise();
    if options.strength.is_at_least(Strength::Identical) {
        write_exact_key(alloc, checked, options, elements, variable_end, text, key)?;
        return Ok(());
    }
    write_whole_key(checked, options, elements, variable_end, &[], key)?;
    Ok(())
}

/// The same of all elements of a text, some of which count nowhere. Fails only if memory is refused.
#[inline(never)]
fn write_kept_key<T: Characters>(
    alloc: Global,
    checked: &CheckedTables<'_>,
    options: &ResolvedCollatorOptions,
    elements: &[CollationElement],
    variable_end: u32,
    text: T,
    key: &mut KeyBytes,
) -> Result<(), AllocError>
    requires empty { key.old.items ≡ [] }
    requires scalars { All IsScalar (T.characters text) }
    requires elements { unpacked elements.now ≡ elements_of_text (source_collation checked.now) options.now (T.characters text) }
    requires end { variable_end ≡ variable_end_of (source_collation checked.now) options.now }
    ensures { OnOk result (key.new.items ≡ key_of_text (source_collation checked.now) options.now (T.characters text)) }
{
    let counted = kept(alloc, elements, variable_end)?;
    write_counted_key(alloc, checked, options, &counted, variable_end, text, key)?;
    Ok(())
}

/// Appends the key of a text that is read flat or by stretches, with room for so many elements, to no byte; `false` for another
/// text, and then nothing. Fails only if memory is refused. For each room it is a function of its own: at its beginning one clears all
/// arrays that it has.
#[inline(never)]
fn write_noted_key<T: Characters, const N: usize>(
    alloc: Global,
    checked: &CheckedTables<'_>,
    options: &ResolvedCollatorOptions,
    text: T,
    key: &mut KeyBytes,
) -> Result<bool, AllocError>
    requires room { N ≤ 512 }
    requires empty { key.old.items ≡ [] }
    ensures written { IfOk result (λ is_written. is_written ≡ true
        → key.new.items ≡ key_of_text (source_collation checked.now) options.now (T.characters text)) }
    ensures unwritten { IfOk result (λ is_written. is_written ≡ false → key.new.items ≡ []) }
{
    let mut read = FlatElements::<N>::new();
    let numeric = numeric_lead(checked, options);
    let is_read = read_elements(alloc, checked, numeric, text, 0, &mut read)?;
    if !is_read {
        return Ok(false);
    }
    let elements = read.as_slice();
    let end = variable_end(checked, options);
    if do_all_count(elements, end) {
        write_counted_key(alloc, checked, options, elements, end, text, key)?;
        return Ok(true);
    }
    write_kept_key(alloc, checked, options, elements, end, text, key)?;
    Ok(true)
}

/// The same with as much room as the text wants.
fn write_read_key<T: Characters>(
    alloc: Global,
    checked: &CheckedTables<'_>,
    options: &ResolvedCollatorOptions,
    text: T,
    key: &mut KeyBytes,
) -> Result<bool, AllocError>
    requires { key.old.items ≡ [] }
    ensures written { IfOk result (λ is_written. is_written ≡ true
        → key.new.items ≡ key_of_text (source_collation checked.now) options.now (T.characters text)) }
    ensures unwritten { IfOk result (λ is_written. is_written ≡ false → key.new.items ≡ []) }
{
    let is_written = if text.size() <= SHORT {
        write_noted_key::<T, FEW_ELEMENTS>(alloc, checked, options, text, key)?
    } else if text.size() <= MIDDLE {
        write_noted_key::<T, SOME_ELEMENTS>(alloc, checked, options, text, key)?
    } else {
        write_noted_key::<T, MANY_ELEMENTS>(alloc, checked, options, text, key)?
    };
    Ok(is_written)
}

/// Appends the key of a text of any kind, by its decomposed list, to no byte. Fails only if memory is refused.
#[inline(never)]
fn write_listed_key<T: Characters>(
    alloc: Global,
    checked: &CheckedTables<'_>,
    options: &ResolvedCollatorOptions,
    text: T,
    key: &mut KeyBytes,
) -> Result<(), AllocError>
    requires { key.old.items ≡ [] }
    ensures { OnOk result (key.new.items ≡ key_of_text (source_collation checked.now) options.now (T.characters text)) }
{
    checked.keep_promise();
    checked.canonical().keep_promise();
    let read = read_text(alloc, checked, options, text.chars())?;
    write_whole_key(
        checked,
        options,
        &read.elements,
        read.variable_end,
        &read.characters,
        key,
    )?;
    Ok(())
}

/// Appends the key of a text to no byte. Fails only if memory is refused.
fn write_key_bytes<T: Characters>(
    alloc: Global,
    checked: &CheckedTables<'_>,
    options: &ResolvedCollatorOptions,
    text: T,
    key: &mut KeyBytes,
) -> Result<(), AllocError>
    requires { key.old.items ≡ [] }
    ensures { OnOk result (key.new.items ≡ key_of_text (source_collation checked.now) options.now (T.characters text)) }
{
    if write_read_key(alloc, checked, options, text, key)? {
        return Ok(());
    }
    write_listed_key(alloc, checked, options, text, key)?;
    Ok(())
}

/// Writes the key of a text to a sink. Where memory lacks the sink is as it was.
pub(crate) fn write_text_key<T: Characters, S: CollationKeySink>(
    alloc: Global,
    checked: &CheckedTables<'_>,
    options: &ResolvedCollatorOptions,
    text: T,
    sink: &mut S,
) -> Result<S::Output, KeyError<S::Error>>
    ensures written { IfOk result (λ output. S.has_written sink.old (key_of_text (source_collation checked.now) options.now (T.characters text)) sink.new output) }
    ensures refused { IfErr result (λ error. IsRefusedKey S.has_failed sink.old (key_of_text (source_collation checked.now) options.now (T.characters text)) sink.new error) }
{
    let mut key = KeyBytes::new(alloc);
    if let Err(AllocError) = write_key_bytes(alloc, checked, options, text, &mut key) {
        return Err(KeyError::Memory);
    }
    match write_key(sink, key.as_slice()) {
        Ok(output) => Ok(output),
        Err(error) => Err(KeyError::Sink(error)),
    }
}

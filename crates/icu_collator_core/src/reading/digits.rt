//! Numbers in a text: digits that stand together, read as one.

ghost use Rattle.std.specs.Prelude.{◌≡◌, ◌<◌, ◌≤◌, ◌++◌, None, Some, true, IfOk, OnOk, drop, is_some, length, slice_index};
ghost use Rattle.icu_collator_core.specs.DigitRuns.{leading_digits};
ghost use Rattle.icu_collator_core.specs.Elements.{number_reading, placed};
ghost use Rattle.icu_collator_core.specs.ReadSources.{canonical_by, weights_by};
ghost use Rattle.icu_collator_core.specs.ReadSteps.{IsReadAs};

use super::numbers::push_number;
use crate::reading::checked_words::checked_word;
use crate::sound::SoundTables;
use icu_collator_types::elements::CollationElement;
use smallvec::SmallVec;
use std::alloc::AllocError;

/// The value of the digit that a character is, if it is one.
fn digit_at(sound: &SoundTables<'_>, c: char) -> Option<u8>
    ensures { result ≡ (weights_by None sound.now).digit c }
{
    let digit = checked_word(sound, c).digit()?;
    Some(digit as u8)
}

/// Appends the values of the digits that stand together at an index of a list. Fails only if memory is refused.
fn push_digits(
    sound: &SoundTables<'_>,
    list: &[char],
    index: usize,
    digits: &mut SmallVec<u8, 32>,
) -> Result<(), AllocError>
    requires { index ≤ length list.now }
    ensures { OnOk result (digits.new.items ≡ digits.old.items ++ leading_digits (weights_by None sound.now).digit (drop index list.now)) }
{
    for i in index..list.len() {
        match digit_at(sound, list[i]) {
            Some(digit) => digits.push(digit)?,
            None => return Ok(()),
        }
    }
    Ok(())
}

/// Reads the number at an index of a list: appends the elements of the digits that stand there together, with this lead
/// byte; answers where what is left begins. Fails only if memory is refused.
pub(crate) fn read_number(
    sound: &SoundTables<'_>,
    lead: u8,
    list: &[char],
    index: usize,
    ready: &mut SmallVec<CollationElement, 32>,
) -> Result<usize, AllocError>
    requires inside { index < length list.now }
    requires digit { is_some ((weights_by (Some lead) sound.now).digit (slice_index list.now index)) ≡ true }
    ensures read { IfOk result (λ next. IsReadAs (canonical_by sound.now) (weights_by (Some lead) sound.now)
        (number_reading (weights_by (Some lead) sound.now) (drop index (placed list.now))) ready.old.items list.now next ready.new.items) }
    ensures onward { IfOk result (λ next. index < next) }
    ensures within { IfOk result (λ next. next ≤ length list.now) }
{
    sound.keep_promise();
    let mut digits: SmallVec<u8, 32> = SmallVec::new(*ready.allocator());
    push_digits(sound, list, index, &mut digits)?;
    push_number(lead, &digits, ready)?;
    Ok(index + digits.len())
}

//! The elements of numbers, appended to a list.

ghost use Rattle.std.specs.Prelude.{◌≡◌, ◌+◌, ◌/◌, ◌<◌, ◌≤◌, [], ◌∷◌, true, leb, length, OnOk, slice_index, take};
ghost use Rattle.std.specs.List.{list_all};
ghost use Rattle.icu_collator_core.specs.Defaults.{primary_element, primary_of};
ghost use Rattle.icu_collator_core.specs.ElementLists.{AddsElements};
ghost use Rattle.icu_collator_core.specs.NumberBytes.{AreDigitValues, evened, long_bytes};
ghost use Rattle.icu_collator_core.specs.Numbers.{long_number, number_elements, number_part, pairs_of, significant, value_of, without_last_zeros};

use icu_collator_types::elements::CollationElement;
use smallvec::SmallVec;
use std::alloc::AllocError;

/// How many digits have elements together; a number of more is read in parts.
const MOST_DIGITS: usize = 254;

/// Appends the element of the primary of four bytes. Fails only if memory is refused.
fn push_bytes(
    lead: u8,
    second: u8,
    third: u8,
    fourth: u8,
    elements: &mut SmallVec<CollationElement, 32>,
) -> Result<(), AllocError>
    ensures { OnOk result (AddsElements elements.old.items (primary_element (primary_of lead second third fourth) ∷ []) elements.new.items) }
{
    let primary = u32::from_be_bytes([lead, second, third, fourth]);
    elements.push(CollationElement::new_from_primary(primary))?;
    Ok(())
}

/// The value of at most seven digits.
fn value_of(digits: &[u8]) -> u32
    requires digits { AreDigitValues digits.now }
    requires few { length digits.now ≤ 7 }
    ensures { result ≡ value_of digits.now }
{
    let mut value = 0;
    for digit in digits {
        value = value * 10 + u32::from(*digit);
    }
    value
}

/// How many pairs digits make, the first beside a zero where their number is odd.
fn pair_count(digits: &[u8]) -> usize
    ensures { result ≡ (length digits.now + 1) / 2 }
{
    digits.len().div_ceil(2)
}

/// The value of a pair of digits.
fn pair_at(digits: &[u8], index: usize) -> u8
    requires digits { AreDigitValues digits.now }
    requires within { index < (length digits.now + 1) / 2 }
    ensures pair { result ≡ slice_index (pairs_of (evened digits.now)) index }
    ensures below { result < 100 }
{
    let second = 2 * index + 1 - digits.len() % 2;
    let first = if second == 0 { 0 } else { digits[second - 1] };
    first * 10 + digits[second]
}

/// How many pairs stay where those of zeros at the end go.
fn kept_pairs(digits: &[u8]) -> usize
    requires digits { AreDigitValues digits.now }
    ensures kept { take result (pairs_of (evened digits.now)) ≡ without_last_zeros (pairs_of (evened digits.now)) }
    ensures within { result ≤ (length digits.now + 1) / 2 }
{
    let mut kept = pair_count(digits);
    'pairs: while kept > 0 && pair_at(digits, kept - 1) == 0 {
        kept -= 1;
    }
    kept
}

/// The byte at an index after the lead byte of a number of many digits, of which so many pairs stay; 0 after the last.
fn byte_at(digits: &[u8], kept: usize, index: usize) -> u8
    requires digits { AreDigitValues digits.now }
    requires short { length digits.now ≤ 254 }
    requires kept { take kept (pairs_of (evened digits.now)) ≡ without_last_zeros (pairs_of (evened digits.now)) }
    requires within { kept ≤ (length digits.now + 1) / 2 }
    ensures { result ≡ slice_index (long_bytes digits.now) index }
{
    if index == 0 {
        return 128 + pair_count(digits) as u8;
    }
    if index > kept {
        return 0;
    }
    let pair = pair_at(digits, index - 1);
    if index == kept {
        10 + 2 * pair
    } else {
        11 + 2 * pair
    }
}

/// Appends the elements of a number of many digits. Fails only if memory is refused.
fn push_long(
    lead: u8,
    digits: &[u8],
    elements: &mut SmallVec<CollationElement, 32>,
) -> Result<(), AllocError>
    requires digits { AreDigitValues digits.now }
    requires short { length digits.now ≤ 254 }
    ensures { OnOk result (AddsElements elements.old.items (long_number lead digits.now) elements.new.items) }
{
    let kept = kept_pairs(digits);
    for index in 0..kept / 3 + 1 {
        let second = byte_at(digits, kept, 3 * index);
        let third = byte_at(digits, kept, 3 * index + 1);
        let fourth = byte_at(digits, kept, 3 * index + 2);
        push_bytes(lead, second, third, fourth, elements)?;
    }
    Ok(())
}

/// Appends the elements of a number of at most 254 digits. Fails only if memory is refused.
#[tactic(auto, unfolding(crate::specs::Numbers::number_part))]
fn push_part(
    lead: u8,
    digits: &[u8],
    elements: &mut SmallVec<CollationElement, 32>,
) -> Result<(), AllocError>
    requires digits { AreDigitValues digits.now }
    requires short { length digits.now ≤ 254 }
    ensures { OnOk result (AddsElements elements.old.items (number_part lead digits.now) elements.new.items) }
{
    if digits.len() > 7 {
        push_long(lead, digits, elements)?;
        return Ok(());
    }
    let value = value_of(digits);
    if value < 74 {
        push_bytes(lead, 2 + value as u8, 0, 0, elements)?;
        return Ok(());
    }
    if value < 10_234 {
        let above = value - 74;
        push_bytes(
            lead,
            76 + (above / 254) as u8,
            2 + (above % 254) as u8,
            0,
            elements,
        )?;
        return Ok(());
    }
    if value < 1_042_490 {
        let above = value - 10_234;
        let second = 116 + (above / 64_516) as u8;
        let third = 2 + (above / 254 % 254) as u8;
        push_bytes(lead, second, third, 2 + (above % 254) as u8, elements)?;
        return Ok(());
    }
    push_long(lead, digits, elements)?;
    Ok(())
}

/// The digits from the first that isn't 0 on, or the last digit.
fn significant(digits: &[u8]) -> &[u8]
    ensures { result.now ≡ significant digits.now }
{
    let mut rest = digits;
    'zeros: while rest.len() > 1 && rest[0] == 0 {
        let (_, behind) = rest.split_at(1);
        rest = behind;
    }
    rest
}

/// Appends the elements of a number: of its digits, the highest first, with this lead byte. Fails only if memory is
/// refused.
pub(crate) fn push_number(
    lead: u8,
    digits: &[u8],
    elements: &mut SmallVec<CollationElement, 32>,
) -> Result<(), AllocError>
    requires { list_all (λ d. leb d 9) digits.now ≡ true }
    ensures { OnOk result (AddsElements elements.old.items (number_elements lead digits.now) elements.new.items) }
{
    let mut rest = digits;
    'parts: while !rest.is_empty() {
        let counted = significant(rest);
        let (part, behind) = counted.split_at(counted.len().min(MOST_DIGITS));
        push_part(lead, part, elements)?;
        rest = behind;
    }
    Ok(())
}

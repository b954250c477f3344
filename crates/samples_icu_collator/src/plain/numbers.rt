//! The elements of numbers, digit by digit (`docs/RECORDS.md`).

use std::alloc::Global;

/// The most digits that are taken together.
const MOST: usize = 254;

/// The bits below a primary: common weights.
const COMMON_REST: u64 = 0x0500_0500;

/// Appends the element of a lead and up to three bytes.
fn push_bytes(elements: &mut Vec<u64>, lead: u8, bytes: &[u8]) -> Option<()> {
    let mut primary = [lead, 0, 0, 0];
    for (index, byte) in primary.iter_mut().skip(1).zip(bytes) {
        *index = *byte;
    }
    let primary = u32::from_be_bytes(primary);
    elements.push((u64::from(primary) << 32) | COMMON_REST).ok()
}

/// The byte that a number is, which fits.
fn byte(number: u32) -> u8 {
    (number & 0xff) as u8
}

/// Appends the element of a number by its value; whether it is small enough.
fn push_value(elements: &mut Vec<u64>, lead: u8, value: u32) -> Option<bool> {
    if value < 74 {
        push_bytes(elements, lead, &[byte(2 + value)])?;
        return Some(true);
    }
    let rest = value - 74;
    if rest < 10160 {
        let bytes = [byte(76 + rest / 254), byte(2 + rest % 254)];
        push_bytes(elements, lead, &bytes)?;
        return Some(true);
    }
    let rest = value - 10234;
    if rest < 1_032_256 {
        let third = byte(2 + rest % 254);
        let bytes = [byte(116 + rest / 64516), byte(2 + rest / 254 % 254), third];
        push_bytes(elements, lead, &bytes)?;
        return Some(true);
    }
    Some(false)
}

/// The value of at most seven digits.
fn value_of(digits: &[u32]) -> u32 {
    let mut value: u32 = 0;
    for digit in digits {
        value = value.wrapping_mul(10).wrapping_add(*digit);
    }
    value
}

/// The values of digits two by two, from the right, without those that are 0 at the end.
fn pairs_of(alloc: Global, digits: &[u32]) -> Option<Vec<u32>> {
    let mut even = Vec::new(alloc);
    if digits.len() % 2 == 1 {
        even.push(0).ok()?;
    }
    even.extend_from_slice(digits).ok()?;
    let (pairs, _) = even.as_slice().as_chunks::<2>();
    pairs
        .iter()
        .map(|pair| value_of(pair.as_slice()))
        .collect(alloc)
        .ok()
}

/// The number of pairs up to the last that isn't 0.
fn significant(pairs: &[u32]) -> usize {
    let zeros = pairs.iter().rev().take_while(|pair| **pair == 0).count();
    pairs.len().saturating_sub(zeros)
}

/// The bytes of pairs, the last one less, after the byte of their number.
fn bytes_of(alloc: Global, pairs: &[u32]) -> Option<Vec<u8>> {
    let count = significant(pairs);
    let mut bytes = Vec::new(alloc);
    bytes
        .push(u8::try_from(pairs.len()).ok()?.checked_add(128)?)
        .ok()?;
    for pair in pairs.get(..count)? {
        bytes
            .push(byte(pair.wrapping_mul(2).wrapping_add(11)))
            .ok()?;
    }
    if let Some(last) = bytes.as_mut_slice().last_mut() {
        *last = last.wrapping_sub(1);
    }
    Some(bytes)
}

/// Appends the elements of more digits.
fn push_pairs(alloc: Global, elements: &mut Vec<u64>, lead: u8, digits: &[u32]) -> Option<()> {
    let pairs = pairs_of(alloc, digits)?;
    let bytes = bytes_of(alloc, pairs.as_slice())?;
    for part in bytes.as_slice().chunks(3) {
        push_bytes(elements, lead, part)?;
    }
    Some(())
}

/// Appends the elements of at most 254 digits.
fn push_part(alloc: Global, elements: &mut Vec<u64>, lead: u8, digits: &[u32]) -> Option<()> {
    if digits.len() <= 7 && push_value(elements, lead, value_of(digits))? {
        return Some(());
    }
    push_pairs(alloc, elements, lead, digits)
}

/// The number of leading zeros, of which one stays if nothing is left.
fn zeros(digits: &[u32]) -> usize {
    let zeros = digits.iter().take_while(|digit| **digit == 0).count();
    zeros.min(digits.len().saturating_sub(1))
}

/// Appends the elements of a number with a lead.
pub fn push_number(alloc: Global, lead: u8, digits: &[u32], elements: &mut Vec<u64>) -> Option<()> {
    let mut left = digits;
    for _ in 0..digits.len() {
        if !left.is_empty() {
            left = left.get(zeros(left)..)?;
            let count = left.len().min(MOST);
            push_part(alloc, elements, lead, left.get(..count)?)?;
            left = left.get(count..)?;
        }
    }
    Some(())
}

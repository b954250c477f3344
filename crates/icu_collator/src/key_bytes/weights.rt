//! The bytes of single weights.

ghost use Rattle.std.specs.Prelude.{◌≡◌, ◌<◌, ◌≤◌, ◌/◌, ◌^◌, ◌∷◌, ◌++◌, [], bit_and, false, take, true, OnOk};
ghost use Rattle.icu_collator_core.specs.WeightRules.{primary_bytes, primary_rest, weight_bytes};

use super::buffer::KeyBytes;
use std::alloc::AllocError;

/// The second byte of a primary.
#[inline(always)]
fn second_byte(primary: u32) -> u8
    ensures { result ≡ bit_and (primary / 2 ^ 16) 0xff }
{
    ((primary >> 16) & 0xff) as u8
}

/// The third byte of a primary.
#[inline(always)]
fn third_byte(primary: u32) -> u8
    ensures { result ≡ bit_and (primary / 2 ^ 8) 0xff }
{
    ((primary >> 8) & 0xff) as u8
}

/// The last byte of a primary.
#[inline(always)]
fn last_byte(primary: u32) -> u8
    ensures { result ≡ bit_and primary 0xff }
{
    (primary & 0xff) as u8
}

/// How many bytes of a primary are written after its lead: all but those of 00 at the end.
#[inline(always)]
fn count_behind(primary: u32) -> usize
    ensures most { result ≤ 3 }
    ensures rest { take result (bit_and (primary / 2 ^ 16) 0xff ∷ bit_and (primary / 2 ^ 8) 0xff ∷ bit_and primary 0xff ∷ []) ≡ primary_rest primary }
    ensures padded { take result (bit_and (primary / 2 ^ 16) 0xff ∷ bit_and (primary / 2 ^ 8) 0xff ∷ bit_and primary 0xff ∷ 0 ∷ []) ≡ primary_rest primary }
{
    if primary & 0xff_ffff == 0 {
        0
    } else if primary & 0xffff == 0 {
        1
    } else if primary & 0xff == 0 {
        2
    } else {
        3
    }
}

/// Appends the bytes of a primary after its lead, one after another. Fails only if memory is refused.
#[inline(never)]
fn push_primary_rest(primary: u32, key: &mut KeyBytes) -> Result<(), AllocError>
    ensures { OnOk result (key.new.items ≡ key.old.items ++ primary_rest primary) }
{
    if primary & 0xff_ffff == 0 {
        return Ok(());
    }
    key.push(((primary >> 16) & 0xff) as u8)?;
    if primary & 0xffff == 0 {
        return Ok(());
    }
    key.push(((primary >> 8) & 0xff) as u8)?;
    if primary & 0xff == 0 {
        return Ok(());
    }
    key.push((primary & 0xff) as u8)?;
    Ok(())
}

/// Appends the bytes of a primary after its lead, without those of 00 at the end. Fails only if memory is refused.
#[inline(always)]
pub(super) fn write_primary_rest(primary: u32, key: &mut KeyBytes) -> Result<(), AllocError>
    ensures { OnOk result (key.new.items ≡ key.old.items ++ primary_rest primary) }
{
    let second = second_byte(primary);
    let third = third_byte(primary);
    if key.put(second, third, last_byte(primary), 0, count_behind(primary)) {
        return Ok(());
    }
    push_primary_rest(primary, key)?;
    Ok(())
}

/// Appends the bytes of a primary, one after another. Fails only if memory is refused.
#[inline(never)]
fn push_primary_bytes(primary: u32, key: &mut KeyBytes) -> Result<(), AllocError>
    ensures { OnOk result (key.new.items ≡ key.old.items ++ primary_bytes primary) }
{
    key.push((primary >> 24) as u8)?;
    push_primary_rest(primary, key)?;
    Ok(())
}

/// Whether a primary has two bytes.
#[inline(always)]
fn has_two_bytes(primary: u32) -> bool
    ensures { result ≡ true → primary_rest primary ≡ bit_and (primary / 2 ^ 16) 0xff ∷ [] }
{
    if primary & 0xff_ffff == 0 {
        return false;
    }
    primary & 0xffff == 0
}

/// Appends the bytes of a primary, where there is room for four without memory; else nothing.
#[inline(always)]
fn put_primary_bytes(primary: u32, key: &mut KeyBytes) -> bool
    ensures put { result ≡ true → key.new.items ≡ key.old.items ++ primary_bytes primary }
    ensures full { result ≡ false → key.new.items ≡ key.old.items }
{
    let first = (primary >> 24) as u8;
    let second = second_byte(primary);
    if has_two_bytes(primary) {
        return key.put_two(first, second);
    }
    let third = third_byte(primary);
    let count = count_behind(primary) + 1;
    key.put(first, second, third, last_byte(primary), count)
}

/// Appends the bytes of a primary. Fails only if memory is refused.
#[inline(always)]
pub(super) fn write_primary_bytes(primary: u32, key: &mut KeyBytes) -> Result<(), AllocError>
    ensures { OnOk result (key.new.items ≡ key.old.items ++ primary_bytes primary) }
{
    if put_primary_bytes(primary, key) {
        return Ok(());
    }
    push_primary_bytes(primary, key)?;
    Ok(())
}

/// Appends the bytes of a secondary or tertiary weight. Fails only if memory is refused.
pub(super) fn write_weight_bytes(weight: u32, key: &mut KeyBytes) -> Result<(), AllocError>
    requires { weight < 2 ^ 16 }
    ensures { OnOk result (key.new.items ≡ key.old.items ++ weight_bytes weight) }
{
    key.push((weight >> 8) as u8)?;
    if weight & 0xff == 0 {
        return Ok(());
    }
    key.push((weight & 0xff) as u8)?;
    Ok(())
}

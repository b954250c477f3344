//! The identical level of a key.

ghost use Rattle.std.specs.Prelude.{◌≡◌, ◌<◌, ◌≤◌, ◌+◌, ◌-◌, ◌*◌, ◌/◌, ◌^◌, ℕ, [], ◌∷◌, ◌++◌, OnOk};
ghost use Rattle.icu_collator.specs.KeyBytes.{character_code, character_level, difference_bytes, difference_digit, expected_near, last_character, moved_by};

use super::buffer::KeyBytes;
use std::alloc::AllocError;

/// Where the character after another is expected.
fn expected_near(last: u64) -> u64
    requires { last < 0x110000 }
    ensures near { result ≡ expected_near last }
    ensures bounded { result < 1114200 }
{
    if last >= 0x4e00 && last <= 0x9fff {
        return 0x9fff - 10_667;
    }
    last / 128 * 128 + 80
}

/// This byte and the difference of two characters divided by a unit.
fn moved_by(base: u64, unit: u64, near: u64, c: u64) -> u8
    requires some { 0 < unit }
    requires fits { base * unit + c < 2 ^ 64 }
    requires above { near ≤ base * unit + c }
    requires byte { (base * unit + c - near) / unit < 256 }
    ensures { result ≡ moved_by base unit near c }
{
    ((base * unit + c - near) / unit) as u8
}

/// The byte of the difference of two characters at a unit of base 253.
fn difference_digit(unit: u64, near: u64, c: u64) -> u8
    requires some { 0 < unit }
    requires few { unit ≤ 64009 }
    requires near { near < 1114200 }
    requires c { c < 0x110000 }
    ensures { result ≡ difference_digit unit near c }
{
    3 + ((16_194_277 * unit + c - near) / unit % 253) as u8
}

/// Appends the last two bytes of a difference. Fails only if memory is refused.
fn write_two_digits(near: u64, c: u64, key: &mut KeyBytes) -> Result<(), AllocError>
    requires near { near < 1114200 }
    requires c { c < 0x110000 }
    ensures { OnOk result (key.new.items ≡ key.old.items ++ difference_digit 253 near c ∷ difference_digit 1 near c ∷ []) }
{
    key.push(difference_digit(253, near, c))?;
    key.push(difference_digit(1, near, c))?;
    Ok(())
}

/// Appends the last three bytes of a difference. Fails only if memory is refused.
fn write_three_digits(near: u64, c: u64, key: &mut KeyBytes) -> Result<(), AllocError>
    requires near { near < 1114200 }
    requires c { c < 0x110000 }
    ensures { OnOk result (key.new.items ≡ key.old.items
        ++ difference_digit 64009 near c ∷ difference_digit 253 near c ∷ difference_digit 1 near c ∷ []) }
{
    key.push(difference_digit(64_009, near, c))?;
    write_two_digits(near, c, key)?;
    Ok(())
}

/// Appends the difference of a character from an expected one above it. Fails only if memory is refused.
fn write_below(near: u64, c: u64, key: &mut KeyBytes) -> Result<(), AllocError>
    requires near { near < 1114200 }
    requires c { c < 0x110000 }
    requires below { c + 80 < near }
    ensures { OnOk result (key.new.items ≡ key.old.items ++ difference_bytes near c) }
{
    if c + 192_786 < near {
        key.push(0x03)?;
        write_three_digits(near, c, key)?;
        return Ok(());
    }
    if c + 10_668 < near {
        key.push(moved_by(7, 64_009, near, c))?;
        write_two_digits(near, c, key)?;
        return Ok(());
    }
    key.push(moved_by(49, 253, near, c))?;
    key.push(difference_digit(1, near, c))?;
    Ok(())
}

/// Appends the difference of a character from an expected one near or below it. Fails only if memory is refused.
fn write_above(near: u64, c: u64, key: &mut KeyBytes) -> Result<(), AllocError>
    requires near { near < 1114200 }
    requires c { c < 0x110000 }
    requires above { near ≤ c + 80 }
    ensures { OnOk result (key.new.items ≡ key.old.items ++ difference_bytes near c) }
{
    if c <= near + 80 {
        key.push(moved_by(129, 1, near, c))?;
        return Ok(());
    }
    if c <= near + 10_667 {
        key.push(moved_by(210, 253, near, c))?;
        key.push(difference_digit(1, near, c))?;
        return Ok(());
    }
    if c <= near + 192_785 {
        key.push(moved_by(252, 64_009, near, c))?;
        write_two_digits(near, c, key)?;
        return Ok(());
    }
    key.push(0xff)?;
    write_three_digits(near, c, key)?;
    Ok(())
}

/// Appends a character after another. Fails only if memory is refused.
fn write_character(last: u64, c: u64, key: &mut KeyBytes) -> Result<(), AllocError>
    requires last { last < 0x110000 }
    requires c { c < 0x110000 }
    ensures { OnOk result (key.new.items ≡ key.old.items ++ character_code last c) }
{
    if c == 0xfffe {
        key.push(0x02)?;
        return Ok(());
    }
    let near = expected_near(last);
    if c + 80 < near {
        write_below(near, c, key)?;
        return Ok(());
    }
    write_above(near, c, key)?;
    Ok(())
}

/// The character that the next one is written after.
fn last_character(c: u64) -> u64
    requires { c < 0x110000 }
    ensures last { (before : ℕ) → result ≡ last_character before c }
    ensures bounded { result < 0x110000 }
{
    if c == 0xfffe { 0 } else { c }
}

/// Appends the identical level. Fails only if memory is refused.
pub(super) fn write_characters(list: &[char], key: &mut KeyBytes) -> Result<(), AllocError>
    ensures { OnOk result (key.new.items ≡ key.old.items ++ character_level list.now) }
{
    let mut last: u64 = 0;
    for c in list {
        let c = u64::from(u32::from(*c));
        write_character(last, c, key)?;
        last = last_character(c);
    }
    Ok(())
}

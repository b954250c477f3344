//! The numbers in the units of a unit trie. A final value, a jump, an intermediate value and a
//! delta each take one to three units; there is no number where the units end too soon.
ghost use Rattle.std.specs.Prelude.{◌≡◌, ◌+◌, ◌*◌, ◌^◌, ◌<◌, ◌≤◌, slice_get, IfSome, length};
ghost use Rattle.icu_char16trie.specs.UnitNumbers.{with_unit, two_units, final_number, intermediate_number, delta, landing};

use icu_packed_vector::PackedVec;

/// A number and the index after it.
#[derive(Clone, Copy)]
pub(super) struct Number {
    pub(super) value: u32,
    pub(super) end: usize,
}

/// The unit at an index, or `None` past the end.
#[inline(always)]
pub(super) fn unit_at(units: &PackedVec<'_, u16>, index: usize) -> Option<u16>
    ensures unit { result ≡ slice_get units.now index }
    ensures size { IfSome result (λ unit. unit < 2 ^ 16) }
    ensures room { IfSome result (λ unit. index + 1 < 2 ^ 64) }
{
    if index < units.len() {
        units.get(index)
    } else {
        None
    }
}

/// One unit more, below a number of high bits.
#[inline(always)]
fn with_unit(units: &PackedVec<'_, u16>, high: u16, index: usize) -> Option<Number>
    ensures { result ≡ with_unit units.now high index }
{
    let low = unit_at(units, index)?;
    Some(Number {
        value: high as u32 * 0x1_0000 + low as u32,
        end: index + 1,
    })
}

/// Two units, the high one first.
#[inline(always)]
fn two_units(units: &PackedVec<'_, u16>, index: usize) -> Option<Number>
    ensures { result ≡ two_units units.now index }
{
    let high = unit_at(units, index)?;
    with_unit(units, high, index + 1)
}

/// A final value or a jump, whose lead, without its highest bit, ends before the index.
#[inline(always)]
pub(super) fn final_number(units: &PackedVec<'_, u16>, lead: u16, index: usize) -> Option<Number>
    ensures { result ≡ final_number units.now lead index }
{
    if lead < 0x4000 {
        Some(Number {
            value: lead as u32,
            end: index,
        })
    } else if lead < 0x7fff {
        with_unit(units, lead - 0x4000, index)
    } else {
        two_units(units, index)
    }
}

/// An intermediate value, whose lead of 40 to 7FFF ends before the index.
#[inline(always)]
pub(super) fn intermediate_number(
    units: &PackedVec<'_, u16>,
    lead: u16,
    index: usize,
) -> Option<Number>
    requires { 0x40 ≤ lead }
    ensures { result ≡ intermediate_number units.now lead index }
{
    if lead < 0x4040 {
        Some(Number {
            value: (lead >> 6) as u32 - 1,
            end: index,
        })
    } else if lead < 0x7fc0 {
        with_unit(units, (lead >> 6) - 0x101, index)
    } else {
        two_units(units, index)
    }
}

/// How far a branch jumps to its first half.
#[inline(always)]
pub(super) fn delta(units: &PackedVec<'_, u16>, index: usize) -> Option<Number>
    ensures { result ≡ delta units.now index }
{
    let lead = unit_at(units, index)?;
    if lead < 0xfc00 {
        Some(Number {
            value: lead as u32,
            end: index + 1,
        })
    } else if lead < 0xffff {
        with_unit(units, lead - 0xfc00, index + 1)
    } else {
        two_units(units, index + 1)
    }
}

/// The index after a jump, or `None` where it leaves the units.
#[inline(always)]
pub(super) fn landing(units: &PackedVec<'_, u16>, jump: Number) -> Option<usize>
    ensures { result ≡ landing units.now jump }
{
    let length = units.len();
    if jump.end < length && (jump.value as usize) < length - jump.end {
        Some(jump.end + jump.value as usize)
    } else {
        None
    }
}

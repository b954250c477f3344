//! The levels that write runs of their common weight short, and in which bytes.

ghost use Rattle.std.specs.Prelude.{◌≡◌, ◌<◌, ◌+◌, ◌-◌, ◌^◌, ◌++◌, cond, ltb, OnOk};
ghost use Rattle.icu_collator_core.specs.WeightRules.{weight_bytes};
ghost use Rattle.icu_collator.specs.KeyBytes.{shifted_bytes};
ghost use Rattle.icu_collator.specs.KeyCodes.{HasRunBytes, code_of, quaternary_rank_bytes, rank_limit, secondary_rank_bytes};

use super::buffer::KeyBytes;
use super::weights::{write_primary_bytes, write_weight_bytes};
use std::alloc::AllocError;

/// A level that writes runs of its common weight short. Its weights are given by their ranks.
#[derive(Clone, Copy)]
pub(super) enum RunLevel {
    /// Secondary weights, and ends of segments.
    Secondaries,
    /// Cases in half bytes, lower case or none first.
    LowerCases,
    /// Cases in half bytes, upper case first.
    UpperCases,
    /// Tertiary weights without case bits.
    Tertiaries,
    /// Tertiary weights below case bits, lower case first.
    LowerFirst,
    /// Tertiary weights below case bits, upper case first.
    UpperFirst,
    /// Quaternary weights, and shifted primaries.
    Quaternaries,
}

/// The bytes of runs of a common weight.
#[derive(Clone, Copy)]
pub(super) struct RunBytes {
    /// The first of the bytes that end a run before a lower weight or at the end.
    pub low: u8,
    /// The byte that stands for as many common weights as one byte can.
    pub middle: u8,
    /// The last of the bytes that end a run before a higher weight.
    pub high: u8,
    /// How many common weights a middle byte stands for.
    pub most: u8,
}

/// Appends a secondary weight that isn't common, or the end of a segment. Fails only if memory is refused.
fn write_secondary(rank: u64, key: &mut KeyBytes) -> Result<(), AllocError>
    requires { rank < 2 ^ 16 + 1 }
    ensures { OnOk result (key.new.items ≡ key.old.items ++ secondary_rank_bytes rank) }
{
    if rank == 0 {
        key.push(0x02)?;
        return Ok(());
    }
    write_weight_bytes((rank - 1) as u32, key)?;
    Ok(())
}

/// Appends a tertiary weight, moved up by so much where it is above the common one. Fails only if memory is refused.
fn write_raised(weight: u32, by: u32, key: &mut KeyBytes) -> Result<(), AllocError>
    requires { weight + by < 2 ^ 16 }
    ensures { OnOk result (key.new.items ≡ key.old.items ++ weight_bytes (cond (ltb 0x500 weight) (weight + by) weight)) }
{
    if weight > 0x500 {
        write_weight_bytes(weight + by, key)?;
        return Ok(());
    }
    write_weight_bytes(weight, key)?;
    Ok(())
}

/// Appends a tertiary weight, moved down where it is below the common one of upper case. Fails only if memory is
/// refused.
fn write_lowered(weight: u32, key: &mut KeyBytes) -> Result<(), AllocError>
    requires { weight < 2 ^ 16 }
    ensures { OnOk result (key.new.items ≡ key.old.items ++ weight_bytes (cond (ltb weight 0xc500) (weight - 0x4000) weight)) }
{
    if weight < 0xc500 {
        write_weight_bytes(weight.saturating_sub(0x4000), key)?;
        return Ok(());
    }
    write_weight_bytes(weight, key)?;
    Ok(())
}

/// Appends a shifted primary. Fails only if memory is refused.
fn write_shifted(primary: u32, key: &mut KeyBytes) -> Result<(), AllocError>
    ensures { OnOk result (key.new.items ≡ key.old.items ++ shifted_bytes primary) }
{
    if primary >> 24 < 0x1b {
        write_primary_bytes(primary, key)?;
        return Ok(());
    }
    key.push(0x1b)?;
    write_primary_bytes(primary, key)?;
    Ok(())
}

/// Appends a shifted primary, or a quaternary weight that isn't common. Fails only if memory is refused.
fn write_quaternary(rank: u64, key: &mut KeyBytes) -> Result<(), AllocError>
    requires { rank < 2 ^ 32 + 4 }
    ensures { OnOk result (key.new.items ≡ key.old.items ++ quaternary_rank_bytes rank) }
{
    if rank >= 1 << 32 {
        key.push(0xfc + (rank - (1 << 32)) as u8)?;
        return Ok(());
    }
    write_shifted(rank as u32, key)?;
    Ok(())
}

impl RunLevel {
    /// The rank of the common weight.
    #[inline(always)]
    #[tactic(auto, unfolding(crate::specs::KeyCodes::code_of))]
    pub(super) fn common(self) -> u64
        ensures { result ≡ (code_of self).common }
    {
        match self {
            RunLevel::Secondaries => 0x501,
            RunLevel::LowerCases => 0,
            RunLevel::UpperCases => 2,
            RunLevel::Tertiaries | RunLevel::LowerFirst => 0x500,
            RunLevel::UpperFirst => 0xc500,
            RunLevel::Quaternaries => 1 << 32,
        }
    }

    /// The bytes of runs of the common weight.
    #[inline(always)]
    #[tactic(auto, unfolding(crate::specs::KeyCodes::code_of))]
    pub(super) fn run_bytes(self) -> RunBytes
        ensures { HasRunBytes (code_of self) result }
    {
        let (low, middle, high, most) = match self {
            RunLevel::Secondaries | RunLevel::LowerFirst => (0x05, 0x25, 0x45, 33),
            RunLevel::LowerCases => (1, 7, 13, 7),
            RunLevel::UpperCases => (3, 15, 27, 13),
            RunLevel::Tertiaries => (0x05, 0x65, 0xc5, 97),
            RunLevel::UpperFirst => (0x85, 0xa5, 0xc5, 33),
            RunLevel::Quaternaries => (0x1c, 0x8c, 0xfc, 113),
        };
        RunBytes {
            low,
            middle,
            high,
            most,
        }
    }

    /// Appends a weight that isn't common, given by its rank. Fails only if memory is refused.
    #[inline(never)]
    #[tactic(auto, unfolding(crate::specs::KeyCodes::code_of, crate::specs::KeyCodes::rank_limit))]
    pub(super) fn write_weight(self, rank: u64, key: &mut KeyBytes) -> Result<(), AllocError>
        requires { rank < rank_limit self }
        ensures { OnOk result (key.new.items ≡ key.old.items ++ (code_of self).bytes rank) }
    {
        match self {
            RunLevel::Secondaries => write_secondary(rank, key)?,
            RunLevel::LowerCases => key.push(13 + rank as u8)?,
            RunLevel::UpperCases => key.push(1 + rank as u8)?,
            RunLevel::Tertiaries => write_raised(rank as u32, 0xc000, key)?,
            RunLevel::LowerFirst => write_raised(rank as u32, 0x4000, key)?,
            RunLevel::UpperFirst => write_lowered(rank as u32, key)?,
            RunLevel::Quaternaries => write_quaternary(rank, key)?,
        }
        Ok(())
    }
}

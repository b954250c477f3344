//! The case level of a key: half bytes in pairs.

ghost use Rattle.std.specs.Prelude.{◌≡◌, ◌<◌, ◌≤◌, ◌==◌, ◌++◌, All, OnOk};
ghost use Rattle.std.specs.List.{list_all};
ghost use Rattle.icu_collator.specs.KeyBytes.{paired_halves};
ghost use Rattle.icu_collator.specs.KeyCodes.{halves_of};

use super::buffer::KeyBytes;
use super::run_level::RunLevel;
use super::runs::write_runs;
use std::alloc::AllocError;

/// Whether all cases are lower case or none.
fn are_lower(cases: &[u32]) -> bool
    ensures { result ≡ list_all (λ case. case == 0) cases.now }
{
    cases.iter().all(|case| *case == 0)
}

/// Appends the half bytes of cases. Fails only if memory is refused.
#[tactic(auto, unfolding(crate::specs::KeyCodes::code_of, crate::specs::KeyCodes::rank_limit))]
fn write_halves(
    is_upper_first: bool,
    cases: &[u32],
    halves: &mut KeyBytes,
) -> Result<(), AllocError>
    requires { All (λ case. case ≤ 2) cases.now }
    ensures { OnOk result (halves.new.items ≡ halves.old.items ++ halves_of is_upper_first cases.now) }
{
    if is_upper_first {
        write_runs(RunLevel::UpperCases, cases, halves)?;
        return Ok(());
    }
    if are_lower(cases) {
        return Ok(());
    }
    write_runs(RunLevel::LowerCases, cases, halves)?;
    Ok(())
}

/// Appends half bytes in pairs, the upper half first; a last odd one stands with 0. Fails only if memory is refused.
fn write_pairs(halves: &[u8], key: &mut KeyBytes) -> Result<(), AllocError>
    requires { All (λ half. half < 16) halves.now }
    ensures { OnOk result (key.new.items ≡ key.old.items ++ paired_halves halves.now) }
{
    let mut index = 0;
    'pairs: while halves.len() - index > 1 {
        key.push(halves[index] * 16 + halves[index + 1])?;
        index += 2;
    }
    if index < halves.len() {
        key.push(halves[index] * 16)?;
    }
    Ok(())
}

/// Appends the case level. Fails only if memory is refused.
pub(super) fn write_cases(
    is_upper_first: bool,
    cases: &[u32],
    key: &mut KeyBytes,
) -> Result<(), AllocError>
    requires { All (λ case. case ≤ 2) cases.now }
    ensures { OnOk result (key.new.items ≡ key.old.items ++ paired_halves (halves_of is_upper_first cases.now)) }
{
    let mut halves = KeyBytes::new(key.allocator());
    write_halves(is_upper_first, cases, &mut halves)?;
    write_pairs(halves.as_slice(), key)?;
    Ok(())
}

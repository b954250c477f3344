//! The rule on the weights of a level together, V5: in order, a weight that begins another one begins the next.

ghost use Rattle.std.specs.Prelude.{◌≡◌, ◌↔◌, ℕ, true, IsTrue, IfOk};
ghost use Rattle.std.specs.List.{Contains};
ghost use Rattle.icu_collator_core.specs.WeightLists.{are_steps_apart, begins};
ghost use Rattle.icu_collator_core.specs.WeightRules.{are_apart, primary_bytes};

use std::alloc::AllocError;

/// Whether the bytes of a weight begin those of a higher one.
fn begins(weight: u32, higher: u32) -> bool
    ensures { result ≡ begins weight higher }
{
    let room = higher.saturating_sub(weight);
    weight != 0
        && (weight < higher
            && ((weight % 0x100_0000 == 0 && room < 0x100_0000)
                || ((weight % 0x1_0000 == 0 && room < 0x1_0000)
                    || (weight % 0x100 == 0 && room < 0x100))))
}

/// Whether none of weights begins the next one.
fn are_steps_apart(weights: &[u32]) -> bool
    ensures { result ≡ are_steps_apart 0 weights.now }
{
    let mut before = 0;
    for index in 0..weights.len() {
        let weight = weights[index];
        if begins(before, weight) {
            return false;
        }
        before = weight;
    }
    true
}

/// Whether the bytes of no weight begin those of another one; a weight of 0 is none. A primary is given as it is, a
/// secondary or a tertiary with its lead where the lead of a primary is. Takes the time of sorting. Fails only if
/// memory is refused.
pub fn are_apart(mut weights: Vec<u32>) -> Result<bool, AllocError>
    ensures { IfOk result (λ yes. IsTrue yes ↔ ((v w : ℕ) → Contains weights.items v → Contains weights.items w → are_apart primary_bytes v w ≡ true)) }
{
    weights.sort()?;
    Ok(are_steps_apart(weights.as_slice()))
}

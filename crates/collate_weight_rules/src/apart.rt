//! The rule that no weight's bytes begin another's on its level (V5).

ghost use Rattle.std.specs.Prelude.{◌≡◌, ◌*◌, ◌^◌, ◌&&◌, map, IfOk, MatchOption};
ghost use Rattle.std.specs.List.Sorted.{IsPermutation};
ghost use Rattle.collate_lines.specs.Record.{said};
ghost use Rattle.collate_rules.specs.Offenders.{NoneOffends, IsFirstOffender};
ghost use Rattle.collate_weight_rules.specs.PlacedWeights.{HasPlaced, are_weights_apart, weights_to};

use crate::given::placed_elements;
use collate_lines::record::Record;
use collate_lines::rule::Rule;
use collate_rules::indices::{IndexTest, first_index};
use icu_collator_core::weight_rules::are_apart;
use icu_collator_types::elements::Element;
use std::alloc::{AllocError, Global};

/// The first line with a weight whose bytes begin those of one that it or an earlier line has, or the other way round
/// (rule V5, docs/RECORDS.md). Takes the time of sorting the weights of all lines, and where a line offends, of a few
/// passes over them. Lines count from 0; `None` where no line offends.
///
/// Errors: `AllocError` where memory is refused.
pub fn first_begun_weight(alloc: Global, records: &[Record]) -> Result<Option<usize>, AllocError>
    ensures { IfOk result (λ found. MatchOption found (NoneOffends Rule.V5 (map said records.now)) (λ i. IsFirstOffender Rule.V5 (map said records.now) i)) }
{
    let test = ApartTest::new(alloc, records)?;
    let found = first_index(alloc, &test, records.len())?;
    Ok(found)
}

/// The test for lines up to one of which a weight begins another: the weights of each level in order, each with its line.
#[derive(Drop)]
struct ApartTest {
    primaries: Vec<(u32, usize)>,
    secondaries: Vec<(u32, usize)>,
    tertiaries: Vec<(u32, usize)>,
    count: usize,
}

impl ApartTest {
    /// The test for these lines. Fails only if memory is refused.
    fn new(alloc: Global, records: &[Record]) -> Result<ApartTest, AllocError>
        ensures { IfOk result (λ test. HasPlaced (map said records.now) test) }
    {
        let placed = placed_elements(alloc, records)?;
        let primaries = in_order(primaries_of(alloc, &placed)?)?;
        let secondaries = in_order(secondaries_of(alloc, &placed)?)?;
        let tertiaries = in_order(tertiaries_of(alloc, &placed)?)?;
        Ok(ApartTest {
            primaries,
            secondaries,
            tertiaries,
            count: records.len(),
        })
    }
}

impl IndexTest for ApartTest {
    ghost use Rattle.std.specs.Prelude.{◌≡◌, false};
    ghost use Rattle.collate_weight_rules.specs.PlacedWeights.{are_apart_to};

    ghost count = { λ test. test.count };

    ghost Holds = { λ test line. are_apart_to test line ≡ false };

    fn holds(&self, alloc: Global, index: usize) -> Result<bool, AllocError> {
        let primaries = are_apart_to(alloc, &self.primaries, index)?;
        let secondaries = are_apart_to(alloc, &self.secondaries, index)?;
        let tertiaries = are_apart_to(alloc, &self.tertiaries, index)?;
        Ok(!are_all(primaries, secondaries, tertiaries))
    }
}

/// Whether none of the weights that lines up to one give begins another one. Fails only if memory is refused.
fn are_apart_to(alloc: Global, weights: &[(u32, usize)], line: usize) -> Result<bool, AllocError>
    ensures { IfOk result (λ apart. apart ≡ are_weights_apart (weights_to weights.now line)) }
{
    let apart = are_apart(weights_to(alloc, weights, line)?)?;
    Ok(apart)
}

/// The weights that lines up to one give, in the order of these. Fails only if memory is refused.
fn weights_to(alloc: Global, weights: &[(u32, usize)], line: usize) -> Result<Vec<u32>, AllocError>
    ensures { IfOk result (λ found. found.items ≡ weights_to weights.now line) }
{
    weights
        .iter()
        .filter(|placed| placed.1 <= line)
        .map(|placed| placed.0)
        .collect(alloc)
}

/// Weights in order, and those that are equal by their lines. Fails only if memory is refused.
fn in_order(mut weights: Vec<(u32, usize)>) -> Result<Vec<(u32, usize)>, AllocError>
    ensures { IfOk result (λ sorted. IsPermutation weights.items sorted.items) }
{
    weights.sort()?;
    Ok(weights)
}

/// Whether three answers are all yes.
fn are_all(primaries: bool, secondaries: bool, tertiaries: bool) -> bool
    ensures { result ≡ (primaries && secondaries && tertiaries) }
{
    primaries && secondaries && tertiaries
}

/// The primaries of elements, each with its line.
fn primaries_of(alloc: Global, placed: &[(Element, usize)]) -> Result<Vec<(u32, usize)>, AllocError>
    ensures { IfOk result (λ weights. weights.items ≡ map (λ p. (p.0.primary, p.1)) placed.now) }
{
    placed
        .iter()
        .map(|(e, line)| (e.primary, *line))
        .collect(alloc)
}

/// The secondaries of elements, each with its line, their leads where those of primaries are.
fn secondaries_of(
    alloc: Global,
    placed: &[(Element, usize)],
) -> Result<Vec<(u32, usize)>, AllocError>
    ensures { IfOk result (λ weights. weights.items ≡ map (λ p. (p.0.secondary * 2 ^ 16, p.1)) placed.now) }
{
    placed
        .iter()
        .map(|(e, line)| (e.secondary as u32 * 0x1_0000, *line))
        .collect(alloc)
}

/// The tertiaries of elements, each with its line, their leads where those of primaries are.
fn tertiaries_of(
    alloc: Global,
    placed: &[(Element, usize)],
) -> Result<Vec<(u32, usize)>, AllocError>
    ensures { IfOk result (λ weights. weights.items ≡ map (λ p. (p.0.tertiary * 2 ^ 16, p.1)) placed.now) }
{
    placed
        .iter()
        .map(|(e, line)| (e.tertiary as u32 * 0x1_0000, *line))
        .collect(alloc)
}

//! What lines give of weights: elements and ranges.

ghost use Rattle.std.specs.Prelude.{◌≡◌, ◌++◌, map, IfOk, OnOk};
ghost use Rattle.icu_collator_core.specs.PrimaryRanges.{range_of};
ghost use Rattle.collate_lines.specs.Record.{said};
ghost use Rattle.collate_rules.specs.GivenWeights.{elements_of, given_elements, given_ranges, ranges_of};
ghost use Rattle.collate_weight_rules.specs.PlacedWeights.{placed_elements};

use collate_lines::record::Record;
use icu_collator_core::weight_rules::PrimaryRange;
use icu_collator_types::elements::Element;
use std::alloc::{AllocError, Global};

/// The elements of a line.
pub(crate) fn elements_of(line: &Record) -> &[Element]
    ensures { result.now ≡ elements_of (said line.now) }
{
    match line {
        Record::Weights { elements, .. } => elements.as_slice(),
        _ => &[],
    }
}

/// The elements of lines.
///
/// Errors: `AllocError` where memory is refused.
pub(crate) fn given_elements(alloc: Global, lines: &[Record]) -> Result<Vec<Element>, AllocError>
    ensures { IfOk result (λ elements. elements.items ≡ given_elements (map said lines.now)) }
{
    let mut elements = Vec::new(alloc);
    for line in lines {
        elements.extend_from_slice(elements_of(line))?;
    }
    Ok(elements)
}

/// The elements of lines, each with its line, which counts from 0.
///
/// Errors: `AllocError` where memory is refused.
pub(crate) fn placed_elements(
    alloc: Global,
    lines: &[Record],
) -> Result<Vec<(Element, usize)>, AllocError>
    ensures { IfOk result (λ placed. placed.items ≡ placed_elements 0 (map said lines.now)) }
{
    let mut placed = Vec::new(alloc);
    for line in 0..lines.len() {
        push_placed(&mut placed, elements_of(&lines[line]), line)?;
    }
    Ok(placed)
}

/// Puts the elements of a line, each with the line, after others.
///
/// Errors: `AllocError` where memory is refused.
fn push_placed(
    placed: &mut Vec<(Element, usize)>,
    elements: &[Element],
    line: usize,
) -> Result<(), AllocError>
    ensures { OnOk result (placed.new.items ≡ placed.old.items ++ map (λ e. (e, line)) elements.now) }
{
    for e in elements {
        placed.push((*e, line))?;
    }
    Ok(())
}

/// The ranges of lines.
///
/// Errors: `AllocError` where memory is refused.
pub(crate) fn given_ranges(alloc: Global, lines: &[Record]) -> Result<Vec<PrimaryRange>, AllocError>
    ensures { IfOk result (λ ranges. map range_of ranges.items ≡ given_ranges (map said lines.now)) }
{
    let mut ranges = Vec::new(alloc);
    for line in lines {
        push_range(&mut ranges, line)?;
    }
    Ok(ranges)
}

/// Puts the range of a line, if it has one, after others.
///
/// Errors: `AllocError` where memory is refused.
fn push_range(ranges: &mut Vec<PrimaryRange>, line: &Record) -> Result<(), AllocError>
    ensures { OnOk result (map range_of ranges.new.items ≡ map range_of ranges.old.items ++ ranges_of (said line.now)) }
{
    match line {
        Record::Range(range) => {
            ranges.push(PrimaryRange {
                first: range.first,
                last: range.last,
                primary: range.primary,
                step: range.step,
            })?;
            Ok(())
        }
        _ => Ok(()),
    }
}

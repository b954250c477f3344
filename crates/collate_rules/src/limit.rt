//! The limits of a records file: how many code points its lines name, how many lines say something, how many characters
//! and elements a line lists, and what tables have room for.

ghost use Rattle.std.specs.Prelude.{map, IfOk, MatchOption};
ghost use Rattle.collate_rules.specs.Offenders.{IsFirstOffenderWithin, NoneOffendsWithin};
ghost use Rattle.collate_lines.specs.Record.{said};

use crate::counts::Counts;
use crate::mapped::Mapped;
use collate_lines::limits::Limits;
use collate_lines::record::Record;
use collate_lines::rule::Rule;
use std::alloc::{AllocError, Global};

/// The first line by which a limit is passed: the most code points that lines name, each range for one, the most lines that
/// say something, what tables have room for, or 8 characters or elements in a line (docs/RECORDS.md).
///
/// Errors: `AllocError` where memory is refused.
pub fn first_over_limit(
    alloc: Global,
    records: &[Record],
    limits: Limits,
) -> Result<Option<usize>, AllocError>
    ensures { IfOk result (λ found. MatchOption found (NoneOffendsWithin limits Rule.Limit (map said records.now)) (IsFirstOffenderWithin limits Rule.Limit (map said records.now))) }
{
    let mapped = Mapped::new(alloc, records)?;
    let mut counts = Counts::new(alloc);
    for (i, given) in records.iter().enumerate() {
        counts.add(&mapped, given)?;
        if counts.pass(limits, given) {
            return Ok(Some(i));
        }
    }
    Ok(None)
}

//! Rules that lines break together, and that no further line heals: the line with which they first do.

ghost use Rattle.std.specs.Prelude.{map, IfOk, MatchOption};
ghost use Rattle.collate_lines.specs.Record.{said};
ghost use Rattle.collate_rules.specs.Breaks.{IsFirstBreak, IsLasting, NoneBreak};

use crate::indices::next_index;
use collate_lines::record::Record;
use std::alloc::{AllocError, Global};

/// A test of the lines up to one.
pub trait LinesTest {
    ghost use Rattle.std.specs.Prelude.{◌≡◌, Bool, List, map, IfOk};
    ghost use Rattle.collate_lines.specs.Record.{Record as PlainRecord, said};

    /// Whether lines break the rule.
    ghost breach: { Self → List PlainRecord → Bool };

    /// Whether these lines break the rule. Fails only if memory is refused.
    fn breaks(&self, alloc: Global, lines: &[Record]) -> Result<bool, AllocError>
        ensures { IfOk result (λ yes. yes ≡ breach self.now (map said lines.now)) };
}

/// The first line with which those up to it break a rule that further lines don't heal. Lines count from 0; `None` where they never do. Fails only if
/// memory is refused.
///
/// Besides all lines few beginnings of them are tested: where one of the last two lines breaks the rule three, however
/// many lines there are, else at most three more than the number of lines has bits.
pub fn first_to_break<T: LinesTest>(
    alloc: Global,
    records: &[Record],
    test: &T,
) -> Result<Option<usize>, AllocError>
    ensures { IfOk result (λ found. IsLasting (T.breach test.now) → MatchOption found (NoneBreak (T.breach test.now) (map said records.now)) (IsFirstBreak (T.breach test.now) (map said records.now))) }
{
    let Some(last) = records.len().checked_sub(1) else {
        return Ok(None);
    };
    let is_broken = test.breaks(alloc, records)?;
    if !is_broken {
        return Ok(None);
    }
    let mut low = 0;
    let mut high = last;
    'narrowing: while low < high {
        let line = next_index(low, high, last);
        let is_broken = test.breaks(alloc, &records[..line + 1])?;
        if is_broken {
            high = line;
        } else {
            low = line + 1;
        }
    }
    Ok(Some(low))
}

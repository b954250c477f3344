//! The rules that classes and mappings break together: the line with which they first do.

ghost use Rattle.std.specs.Prelude.{ℕ, ◌+◌, ◌<◌, ◌≤◌, All, length, map, take, IfOk, MatchOption};
ghost use Rattle.std.specs.Fn.{FnReturnsAt};
ghost use Rattle.collate_lines.specs.Record.{said};
ghost use Rattle.collate_rules.specs.CanonicalParts.{IsShort};
ghost use Rattle.collate_rules.specs.Breaches.{AsksForSaid, Breach, IsFirstToBreak, NoneBreaks, TellsBreach, TellsClear};

use crate::canonical_part::canonical_part;
use crate::canonical_parts::CanonicalParts;
use crate::indices::next_index;
use collate_lines::record::Record;
use collate_lines::rule::Rule;
use std::alloc::{AllocError, Global};

/// The first line with which the classes and mappings so far break a rule. Lines count from 0; `None` where they never do.
///
/// `clears` may tell of classes and mappings that no beginning of them breaks the rule. As far as it tells so of the lines' own,
/// found by looking at a few beginnings of them, the lines aren't asked one by one. `breaks` is asked from there on, after
/// each line that adds a class or a mapping, which then stands last.
///
/// Errors: `AllocError` where memory is refused.
pub fn first_breach<
    C: Fn(&CanonicalParts) -> Result<bool, AllocError>,
    B: Fn(&CanonicalParts) -> Result<bool, AllocError>,
>(alloc: Global, records: &[Record], clears: C, breaks: B) -> Result<Option<usize>, AllocError>
    requires clears_callable { C.IsAlwaysCallable clears }
    requires breaks_callable { B.IsAlwaysCallable breaks }
    requires canonical { All IsShort (map said records.now) }
    ensures { IfOk result (λ found. (rule : Rule) → TellsClear rule (FnReturnsAt C.Fn clears) → TellsBreach rule (FnReturnsAt B.Fn breaks) → MatchOption found (NoneBreaks rule (map said records.now)) (IsFirstToBreak rule (map said records.now))) }
{
    let count = lines_cleared(alloc, records, clears)?;
    first_breach_from(alloc, records, count, breaks)
}

/// How many lines are cleared of a rule: all, or some that are cleared before one with which they aren't. Where that is one
/// of the last two, `clears` is asked of four beginnings, however many lines there are; else at most of three more than
/// the number of lines has bits.
fn lines_cleared<C: Fn(&CanonicalParts) -> Result<bool, AllocError>>(
    alloc: Global,
    records: &[Record],
    clears: C,
) -> Result<usize, AllocError>
    requires callable { C.IsAlwaysCallable clears }
    requires canonical { All IsShort (map said records.now) }
    ensures within { IfOk result (λ count. count ≤ length records.now) }
    ensures clear { IfOk result (λ count. (rule : Rule) → AsksForSaid rule → TellsClear rule (FnReturnsAt C.Fn clears) → (k : ℕ) → k < count → Breach rule (take (k + 1) (map said records.now)) → ⊥) }
{
    let parts = CanonicalParts::of_lines(alloc, records)?;
    let is_clear = clears(&parts)?;
    if is_clear {
        return Ok(records.len());
    }
    let mut low = 0;
    let mut high = records.len();
    'narrowing: while low + 1 < high {
        let count = next_index(low + 1, high, records.len());
        let front = CanonicalParts::of_lines(alloc, &records[..count])?;
        let is_front_clear = clears(&front)?;
        if is_front_clear {
            low = count;
        } else {
            high = count;
        }
    }
    Ok(low)
}

/// The first line with which the classes and mappings so far break a rule, where those of `count` lines don't. Lines count
/// from 0; `None` where they never do. `breaks` is asked after each further line that adds a class or a mapping, which then
/// stands last.
///
/// Errors: `AllocError` where memory is refused.
pub fn first_breach_from<B: Fn(&CanonicalParts) -> Result<bool, AllocError>>(
    alloc: Global,
    records: &[Record],
    count: usize,
    breaks: B,
) -> Result<Option<usize>, AllocError>
    requires callable { B.IsAlwaysCallable breaks }
    requires canonical { All IsShort (map said records.now) }
    requires within { count ≤ length records.now }
    ensures { IfOk result (λ found. (rule : Rule) → ((k : ℕ) → k < count → Breach rule (take (k + 1) (map said records.now)) → ⊥) → TellsBreach rule (FnReturnsAt B.Fn breaks) → MatchOption found (NoneBreaks rule (map said records.now)) (IsFirstToBreak rule (map said records.now))) }
{
    let mut parts = CanonicalParts::of_lines(alloc, &records[..count])?;
    for i in count..records.len() {
        if let Some(part) = canonical_part(&records[i]) {
            let more = parts.with(part)?;
            let is_broken = breaks(&more)?;
            if is_broken {
                return Ok(Some(i));
            }
            parts = more;
        }
    }
    Ok(None)
}

//! The rules on what has one lone record: digits (V11), and with `dotabove on` the marks U+0300 to U+0307 (V15).

ghost use Rattle.std.specs.Prelude.{◌≡◌, ◌==◌, ◌&&◌, ◌||◌, not, false, map, is_some, IfOk, MatchOption};
ghost use Rattle.std.specs.List.{list_any};
ghost use Rattle.icu_collator_core.specs.ContextRules.{is_recorded_in, may_be_digit};
ghost use Rattle.collate_lines.specs.Record.{said};
ghost use Rattle.collate_rules.specs.Meaning.{canonical_of, dot_above_in, first_found, set_to, weights_of};
ghost use Rattle.collate_rules.specs.NotedLines.{digit_line};
ghost use Rattle.collate_rules.specs.Offenders.{NoneOffends, IsFirstOffender};
ghost use Rattle.collate_rules.specs.RecordRules.{breaks_digits, breaks_dot_above, dotted_marks, is_bad_digit, is_bad_dotted, is_further};

use crate::further::{Further, Odd};
use collate_lines::record::{Record, Setting};
use collate_lines::rule::Rule;
use collate_rules::breaks::{LinesTest, first_to_break};
use collate_rules::noted::Characters;
use collate_rules::recorded::Recorded;
use icu_normalizer_core::built_in::is_jamo;
use std::alloc::{AllocError, Global};

/// The first line with which a digit is a mark or a jamo, has no record of its own, or has another that counts (rule V11,
/// docs/RECORDS.md). Lines count from 0; `None` where no line offends.
///
/// Errors: `AllocError` where memory is refused.
pub fn first_bad_digit(alloc: Global, records: &[Record]) -> Result<Option<usize>, AllocError>
    ensures { IfOk result (λ found. MatchOption found (NoneOffends Rule.V11 (map said records.now)) (λ i. IsFirstOffender Rule.V11 (map said records.now) i)) }
{
    if !have_digit(records) {
        return Ok(None);
    }
    let all = Characters::new(alloc, records)?;
    let recorded = Recorded::new(alloc, records)?;
    let found = first_to_break(alloc, records, &DigitTest { all, recorded })?;
    Ok(found)
}

/// The first line with which the dot above is on, and one of the marks U+0300 to U+0307 has no record of its own, one that
/// isn't a secondary alone, or another that counts (rule V15, docs/RECORDS.md). Lines count from 0; `None` where no line
/// offends.
///
/// Errors: `AllocError` where memory is refused.
pub fn first_bad_dotted(alloc: Global, records: &[Record]) -> Result<Option<usize>, AllocError>
    ensures { IfOk result (λ found. MatchOption found (NoneOffends Rule.V15 (map said records.now)) (λ i. IsFirstOffender Rule.V15 (map said records.now) i)) }
{
    if !has_dot_above(records) {
        return Ok(None);
    }
    let all = Characters::new(alloc, records)?;
    let recorded = Recorded::new(alloc, records)?;
    let found = first_to_break(alloc, records, &DotTest { all, recorded })?;
    Ok(found)
}

/// The test of digits.
#[derive(Drop)]
struct DigitTest<'r> {
    all: Characters<'r>,
    recorded: Recorded<'r>,
    ghost same: { recorded.lines.now ≡ all.lines.now },
}

impl<'r> LinesTest for DigitTest<'r> {
    ghost use Rattle.std.specs.Prelude.{map};
    ghost use Rattle.collate_lines.specs.Record.{said};
    ghost use Rattle.collate_rules.specs.RecordRules.{breaks_digits};

    ghost breach = { λ test. breaks_digits (map said test.all.lines.now) };

    fn breaks(&self, alloc: Global, lines: &[Record]) -> Result<bool, AllocError> {
        let given = Characters::new(alloc, lines)?;
        let further = Further::new(alloc, &self.recorded, lines)?;
        Ok(breaks_digits(&self.all, &given, &further, lines))
    }
}

/// The test of the marks that a dot above goes with.
#[derive(Drop)]
struct DotTest<'r> {
    all: Characters<'r>,
    recorded: Recorded<'r>,
    ghost same: { recorded.lines.now ≡ all.lines.now },
}

impl<'r> LinesTest for DotTest<'r> {
    ghost use Rattle.std.specs.Prelude.{map};
    ghost use Rattle.collate_lines.specs.Record.{said};
    ghost use Rattle.collate_rules.specs.RecordRules.{breaks_dot_above};

    ghost breach = { λ test. breaks_dot_above (map said test.all.lines.now) };

    fn breaks(&self, alloc: Global, lines: &[Record]) -> Result<bool, AllocError> {
        if !has_dot_above(lines) {
            return Ok(false);
        }
        let odd = Odd::new(alloc, &self.recorded, lines)?;
        Ok(has_bad_dotted(&self.all, &odd))
    }
}

/// Whether one of these lines says a digit.
fn have_digit(lines: &[Record]) -> bool
    ensures { result ≡ list_any (λ line. is_some (digit_line line)) (map said lines.now) }
{
    for line in lines {
        if says_digit(line) {
            return true;
        }
    }
    false
}

/// Whether this line does.
fn says_digit(line: &Record) -> bool
    ensures { result ≡ is_some (digit_line (said line.now)) }
{
    matches!(line, Record::Digit { .. })
}

/// Whether lines have a digit that may not be one, by the characters that all lines record alone, the classes that these
/// give, and the characters that they record with others.
fn breaks_digits(
    all: &Characters<'_>,
    given: &Characters<'_>,
    further: &Further<'_, '_>,
    lines: &[Record],
) -> bool
    requires given { given.now.lines.now ≡ lines.now }
    requires further { further.now.lines.now ≡ lines.now }
    requires all { further.now.records.now ≡ all.now.lines.now }
    ensures { result ≡ breaks_digits (map said all.now.lines.now) (map said lines.now) }
{
    for line in lines {
        if is_bad_digit(all, given, further, line) {
            return true;
        }
    }
    false
}

/// Whether a line says a digit that may not be one, or that is recorded with others.
fn is_bad_digit(
    all: &Characters<'_>,
    given: &Characters<'_>,
    further: &Further<'_, '_>,
    line: &Record,
) -> bool
    requires further { further.now.lines.now ≡ given.now.lines.now }
    requires all { further.now.records.now ≡ all.now.lines.now }
    ensures { result ≡ is_bad_digit (map said all.now.lines.now) (map said given.now.lines.now) (said line.now) }
{
    match line {
        Record::Digit { character, .. } => may_not_be_digit(all, given, further, *character),
        _ => false,
    }
}

/// Whether a character may not be a digit, or is recorded with others.
fn may_not_be_digit(
    all: &Characters<'_>,
    given: &Characters<'_>,
    further: &Further<'_, '_>,
    c: char,
) -> bool
    requires further { further.now.lines.now ≡ given.now.lines.now }
    requires all { further.now.records.now ≡ all.now.lines.now }
    ensures { result ≡ (not (may_be_digit (canonical_of (map said given.now.lines.now)) (is_recorded_in (weights_of (map said all.now.lines.now))) c) || list_any (is_further (map said all.now.lines.now) c) (map said given.now.lines.now)) }
{
    !may_be_digit(all, given, c) || further.contains(c)
}

/// Whether a character may be a digit: a starter by some lines, no jamo, and recorded by itself in all.
fn may_be_digit(all: &Characters<'_>, given: &Characters<'_>, c: char) -> bool
    ensures { result ≡ may_be_digit (canonical_of (map said given.now.lines.now)) (is_recorded_in (weights_of (map said all.now.lines.now))) c }
{
    given.class_of(c) == 0 && !is_jamo(c as u32) && all.is_recorded(c)
}

/// Whether lines turn the dot above on.
fn has_dot_above(lines: &[Record]) -> bool
    ensures { result ≡ set_to dot_above_in false (map said lines.now) }
{
    said_dot_above(lines).unwrap_or(false)
}

/// What lines set the dot above to.
fn said_dot_above(lines: &[Record]) -> Option<bool>
    ensures { result ≡ first_found dot_above_in (map said lines.now) }
{
    for line in lines {
        if let Some(is_on) = dot_above_in(line) {
            return Some(is_on);
        }
    }
    None
}

/// What a line sets the dot above to, if it does.
fn dot_above_in(line: &Record) -> Option<bool>
    ensures { result ≡ dot_above_in (said line.now) }
{
    match line {
        Record::Set(Setting::DotAbove(is_on)) => Some(*is_on),
        _ => None,
    }
}

/// Whether one of the marks lacks its record, or lines record it otherwise.
fn has_bad_dotted(all: &Characters<'_>, odd: &Odd<'_, '_>) -> bool
    requires { odd.now.records.now ≡ all.now.lines.now }
    ensures { result ≡ list_any (is_bad_dotted (map said all.now.lines.now) (map said odd.now.lines.now)) dotted_marks }
{
    is_bad_dotted(all, odd, '\u{300}')
        || is_bad_dotted(all, odd, '\u{301}')
        || is_bad_dotted(all, odd, '\u{302}')
        || is_bad_dotted(all, odd, '\u{303}')
        || is_bad_dotted(all, odd, '\u{304}')
        || is_bad_dotted(all, odd, '\u{305}')
        || is_bad_dotted(all, odd, '\u{306}')
        || is_bad_dotted(all, odd, '\u{307}')
}

/// Whether a mark has no record of its own, or these lines record it otherwise.
fn is_bad_dotted(all: &Characters<'_>, odd: &Odd<'_, '_>, c: char) -> bool
    requires { odd.now.records.now ≡ all.now.lines.now }
    ensures { result ≡ is_bad_dotted (map said all.now.lines.now) (map said odd.now.lines.now) c }
{
    !all.is_recorded(c) || odd.contains(c)
}

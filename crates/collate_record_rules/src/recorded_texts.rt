//! The rules on texts: after a mark stand only marks (V8), and what ends in a mark is recorded without it too (V9).

ghost use Rattle.std.specs.Prelude.{◌≡◌, ◌&&◌, not, [], map, IfOk, MatchOption};
ghost use Rattle.std.specs.List.{list_any};
ghost use Rattle.collate_lines.specs.Record.{said};
ghost use Rattle.collate_rules.specs.NotedLines.{lacks_record};
ghost use Rattle.collate_rules.specs.Offenders.{NoneOffends, IsFirstOffender};
ghost use Rattle.collate_rules.specs.RecordRules.{breaks_marks_last, has_late_starter, has_starter_behind, is_mark, lacks_shorter};

use collate_lines::record::Record;
use collate_lines::rule::Rule;
use collate_rules::breaks::{LinesTest, first_to_break};
use collate_rules::noted::Characters;
use collate_rules::recorded::Recorded;
use std::alloc::{AllocError, Global};

/// The first line with which a text has a starter after a mark (rule V8, docs/RECORDS.md). Lines count from 0; `None` where
/// no line offends.
///
/// Errors: `AllocError` where memory is refused.
pub fn first_late_starter(alloc: Global, records: &[Record]) -> Result<Option<usize>, AllocError>
    ensures { IfOk result (λ found. MatchOption found (NoneOffends Rule.V8 (map said records.now)) (λ i. IsFirstOffender Rule.V8 (map said records.now) i)) }
{
    let all = Characters::new(alloc, records)?;
    let found = first_to_break(alloc, records, &MarksLastTest { all })?;
    Ok(found)
}

/// The first line with a text over two characters that ends in a mark, where no line records it without the mark and without
/// prefix (rule V9, docs/RECORDS.md). Lines count from 0; `None` where no line offends.
///
/// Errors: `AllocError` where memory is refused.
pub fn first_lacking_shorter(alloc: Global, records: &[Record]) -> Result<Option<usize>, AllocError>
    ensures { IfOk result (λ found. MatchOption found (NoneOffends Rule.V9 (map said records.now)) (λ i. IsFirstOffender Rule.V9 (map said records.now) i)) }
{
    let all = Characters::new(alloc, records)?;
    let recorded = Recorded::new(alloc, records)?;
    for (i, line) in records.iter().enumerate() {
        let lacks = lacks_shorter(&all, &recorded, line)?;
        if lacks {
            return Ok(Some(i));
        }
    }
    Ok(None)
}

/// Whether the text of a line ends in a mark, and isn't recorded without it.
fn lacks_shorter(
    all: &Characters<'_>,
    recorded: &Recorded<'_>,
    line: &Record,
) -> Result<bool, AllocError>
    requires { recorded.now.lines.now ≡ all.now.lines.now }
    ensures { IfOk result (λ lacks. lacks ≡ lacks_shorter (map said all.now.lines.now) (said line.now)) }
{
    match line {
        Record::Weights { text, .. } => match text.split_last() {
            Some((last, shorter)) => {
                let lacks = lacks_record(all, recorded, shorter, *last)?;
                Ok(lacks)
            }
            None => Ok(false),
        },
        _ => Ok(false),
    }
}

/// Whether a text of two characters or more isn't recorded by itself, where a mark stands after it.
fn lacks_record(
    all: &Characters<'_>,
    recorded: &Recorded<'_>,
    shorter: &[char],
    last: char,
) -> Result<bool, AllocError>
    requires { recorded.now.lines.now ≡ all.now.lines.now }
    ensures { IfOk result (λ lacks. lacks ≡ lacks_record (map said all.now.lines.now) shorter.now last) }
{
    if shorter.len() <= 1 {
        return Ok(false);
    }
    if !all.is_mark(last) {
        return Ok(false);
    }
    let is_recorded = recorded.is_recorded(&[], shorter)?;
    Ok(!is_recorded)
}

/// The test of texts for starters after marks.
#[derive(Drop)]
struct MarksLastTest<'r> {
    all: Characters<'r>,
}

impl<'r> LinesTest for MarksLastTest<'r> {
    ghost use Rattle.std.specs.Prelude.{map};
    ghost use Rattle.collate_lines.specs.Record.{said};
    ghost use Rattle.collate_rules.specs.RecordRules.{breaks_marks_last};

    ghost breach = { λ test. breaks_marks_last (map said test.all.lines.now) };

    fn breaks(&self, alloc: Global, lines: &[Record]) -> Result<bool, AllocError> {
        let given = Characters::new(alloc, lines)?;
        Ok(breaks_marks_last(&self.all, &given, lines))
    }
}

/// Whether a text of these lines has a starter after a mark: a mark by the classes that they give, and a starter by the
/// classes of all lines.
fn breaks_marks_last(all: &Characters<'_>, given: &Characters<'_>, lines: &[Record]) -> bool
    requires { given.now.lines.now ≡ lines.now }
    ensures { result ≡ breaks_marks_last (map said all.now.lines.now) (map said lines.now) }
{
    for line in lines {
        if has_late_starter(all, given, line) {
            return true;
        }
    }
    false
}

/// Whether the text of a line has.
fn has_late_starter(all: &Characters<'_>, given: &Characters<'_>, line: &Record) -> bool
    ensures { result ≡ has_late_starter (map said all.now.lines.now) (map said given.now.lines.now) (said line.now) }
{
    match line {
        Record::Weights { text, .. } => has_starter_behind(all, given, text),
        _ => false,
    }
}

/// Whether a text has.
fn has_starter_behind(all: &Characters<'_>, given: &Characters<'_>, text: &[char]) -> bool
    ensures { result ≡ has_starter_behind (is_mark (map said given.now.lines.now)) (λ c. not (is_mark (map said all.now.lines.now) c)) text.now }
{
    for i in 0..text.len() {
        if is_before_starter(all, given, text[i], &text[i + 1..]) {
            return true;
        }
    }
    false
}

/// Whether a character is a mark, and a starter stands in what is after it.
fn is_before_starter(all: &Characters<'_>, given: &Characters<'_>, c: char, behind: &[char]) -> bool
    ensures { result ≡ (is_mark (map said given.now.lines.now) c && list_any (λ d. not (is_mark (map said all.now.lines.now) d)) behind.now) }
{
    given.is_mark(c) && has_starter(all, behind)
}

/// Whether a starter stands in a list.
fn has_starter(all: &Characters<'_>, list: &[char]) -> bool
    ensures { result ≡ list_any (λ c. not (is_mark (map said all.now.lines.now) c)) list.now }
{
    for c in list {
        if !all.is_mark(*c) {
            return true;
        }
    }
    false
}

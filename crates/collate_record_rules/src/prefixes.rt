//! The rule on prefixes (V10).

ghost use Rattle.std.specs.Prelude.{◌≡◌, ◌&&◌, map, IfOk, MatchOption};
ghost use Rattle.std.specs.List.{list_all};
ghost use Rattle.icu_collator_core.specs.ContextRules.{is_prefix_character, is_recorded_in, may_have_prefix};
ghost use Rattle.collate_lines.specs.Record.{said};
ghost use Rattle.collate_rules.specs.Meaning.{canonical_of, weights_of};
ghost use Rattle.collate_rules.specs.Offenders.{NoneOffends, IsFirstOffender};
ghost use Rattle.collate_rules.specs.RecordRules.{breaks_prefixes, digit_of, is_badly_prefixed, may_follow_prefix};

use collate_lines::record::Record;
use collate_lines::rule::Rule;
use collate_rules::breaks::{LinesTest, first_to_break};
use collate_rules::noted::Characters;
use icu_normalizer_core::built_in::is_jamo;
use std::alloc::{AllocError, Global};

/// The first line with which a prefix has a mark, a digit, a jamo or U+0000 in it, or stands before other than one starter
/// that is no digit and no jamo and is recorded without prefix too (rule V10, docs/RECORDS.md). Lines count from 0; `None`
/// where no line offends.
///
/// Errors: `AllocError` where memory is refused.
pub fn first_bad_prefix(alloc: Global, records: &[Record]) -> Result<Option<usize>, AllocError>
    ensures { IfOk result (λ found. MatchOption found (NoneOffends Rule.V10 (map said records.now)) (λ i. IsFirstOffender Rule.V10 (map said records.now) i)) }
{
    let all = Characters::new(alloc, records)?;
    let found = first_to_break(alloc, records, &PrefixTest { all })?;
    Ok(found)
}

/// The test of prefixes.
#[derive(Drop)]
struct PrefixTest<'r> {
    all: Characters<'r>,
}

impl<'r> LinesTest for PrefixTest<'r> {
    ghost use Rattle.std.specs.Prelude.{map};
    ghost use Rattle.collate_lines.specs.Record.{said};
    ghost use Rattle.collate_rules.specs.RecordRules.{breaks_prefixes};

    ghost breach = { λ test. breaks_prefixes (map said test.all.lines.now) };

    fn breaks(&self, alloc: Global, lines: &[Record]) -> Result<bool, AllocError> {
        let given = Characters::new(alloc, lines)?;
        Ok(breaks_prefixes(&self.all, &given, lines))
    }
}

/// Whether one of these lines has a prefix that it may not have, by the characters that all lines record alone, and the
/// classes and digits that these give.
fn breaks_prefixes(all: &Characters<'_>, given: &Characters<'_>, lines: &[Record]) -> bool
    requires { given.now.lines.now ≡ lines.now }
    ensures { result ≡ breaks_prefixes (map said all.now.lines.now) (map said lines.now) }
{
    for line in lines {
        if is_badly_prefixed(all, given, line) {
            return true;
        }
    }
    false
}

/// Whether a line has a prefix that it may not have.
fn is_badly_prefixed(all: &Characters<'_>, given: &Characters<'_>, line: &Record) -> bool
    ensures { result ≡ is_badly_prefixed (map said all.now.lines.now) (map said given.now.lines.now) (said line.now) }
{
    match line {
        Record::Weights { prefix, text, .. } => {
            !prefix.is_empty()
                && !(are_prefix_characters(given, prefix) && may_follow_prefix(all, given, text))
        }
        _ => false,
    }
}

/// Whether characters may stand in a prefix.
fn are_prefix_characters(given: &Characters<'_>, prefix: &[char]) -> bool
    ensures { result ≡ list_all (is_prefix_character (canonical_of (map said given.now.lines.now)) (digit_of (map said given.now.lines.now))) prefix.now }
{
    for c in prefix {
        if !is_prefix_character(given, *c) {
            return false;
        }
    }
    true
}

/// Whether a character may stand in a prefix: a starter, no digit, no jamo, and not U+0000.
fn is_prefix_character(given: &Characters<'_>, c: char) -> bool
    ensures { result ≡ is_prefix_character (canonical_of (map said given.now.lines.now)) (digit_of (map said given.now.lines.now)) c }
{
    !given.is_mark(c) && !given.is_digit(c) && !is_jamo(c as u32) && c != '\0'
}

/// Whether a text may stand after a prefix.
fn may_follow_prefix(all: &Characters<'_>, given: &Characters<'_>, text: &[char]) -> bool
    ensures { result ≡ may_follow_prefix (map said all.now.lines.now) (map said given.now.lines.now) text.now }
{
    match text {
        [c] => may_have_prefix(all, given, *c),
        _ => false,
    }
}

/// Whether a character may have prefixes: a starter, no digit, no jamo, and recorded alone.
fn may_have_prefix(all: &Characters<'_>, given: &Characters<'_>, c: char) -> bool
    ensures { result ≡ may_have_prefix (canonical_of (map said given.now.lines.now)) (digit_of (map said given.now.lines.now)) (is_recorded_in (weights_of (map said all.now.lines.now))) c }
{
    !given.is_mark(c) && !given.is_digit(c) && !is_jamo(c as u32) && all.is_recorded(c)
}

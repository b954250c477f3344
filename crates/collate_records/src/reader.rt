//! A records file, from its bytes to what its lines say.

ghost use Rattle.std.specs.Prelude.{◌≡◌, ℕ, ◌+◌, ◌<◌, ◌↔◌, List, All, Some, IsTrue, map, length, IfOk, IfSome, MatchOption, MatchResult, None, OnOk};
ghost use Rattle.collate_lines.specs.declared.limits.Limits.{Limits as PlainLimits};
ghost use Rattle.collate_lines.specs.Lines.{PassesSize, line_at, lines_of, records_of};
ghost use Rattle.collate_lines.specs.Record.{Record as PlainRecord, said};
ghost use Rattle.collate_rules.specs.CanonicalParts.{IsShort};
ghost use Rattle.collate_rules.specs.Offenders.{IsFirstOffender, NoneOffends};
ghost use Rattle.collate_rules.specs.Rules.{rank};
ghost use Rattle.collate_records.specs.Files.{IsAcceptedWithin, RefusesWithin};
ghost use Rattle.collate_records.specs.Phases.{AreOfFile, AreSound, AsksRule, AsksRules, IsReadTo, KeepsBelow};

use collate_lines::limits::Limits;
use collate_lines::line::parse_line;
use collate_lines::lines::{line_past_size, split_line};
use collate_lines::record::Record;
use collate_lines::rule::{RecordFault, RecordsError, Rule};
use collate_lines::seen::Seen;
use collate_mapping_rules::below_marks::first_bad_low;
use collate_mapping_rules::full_lists::first_bad_list;
use collate_mapping_rules::lines::{first_bad_class, first_contradiction, first_mapped_hangul};
use collate_mapping_rules::loops::first_loop;
use collate_mapping_rules::marks::first_mapped_mark;
use collate_mapping_rules::pairs::{first_bad_second, first_repeated_pair};
use collate_record_rules::decomposed::first_undecomposed;
use collate_record_rules::digits::{first_bad_digit, first_bad_dotted};
use collate_record_rules::named::{first_bad_jamo, first_special};
use collate_record_rules::prefixes::first_bad_prefix;
use collate_record_rules::recorded_texts::{first_lacking_shorter, first_late_starter};
use collate_record_rules::settings::first_bad_setting;
use collate_rules::limit::first_over_limit;
use collate_weight_rules::apart::first_begun_weight;
use collate_weight_rules::primaries::first_bad_primary;
use collate_weight_rules::ranges::first_bad_range;
use collate_weight_rules::weights::{first_bad_kind, first_bad_secondary, first_bad_tertiary};
use std::alloc::{AllocError, Global};

/// Reads a records file (docs/RECORDS.md): what its lines say that say something, in their order.
///
/// Errors: the first fault of a file that is not accepted, in the order of faults; `Memory` where memory is refused.
pub(crate) fn read_records(
    alloc: Global,
    bytes: &[u8],
    limits: Limits,
) -> Result<Vec<Record>, RecordsError>
    ensures { MatchResult result (λ records. IsAcceptedWithin limits bytes.now × (map said records.items ≡ records_of bytes.now)) (RefusesWithin limits bytes.now) }
{
    let reading = read_lines(alloc, bytes, limits)?;
    keep_rules(alloc, &reading.records, &reading.numbers, limits)?;
    Ok(reading.records)
}

/// The lines read so far: what those say that say something, the number of each such line, which counts from 1, and what
/// they were for.
#[derive(Drop)]
struct Reading {
    records: Vec<Record>,
    numbers: Vec<usize>,
    seen: Seen,
}

/// Reads all lines of a file, in the order of faults.
fn read_lines(alloc: Global, bytes: &[u8], limits: Limits) -> Result<Reading, RecordsError>
    ensures { MatchResult result (λ reading. KeepsBelow limits 1 bytes.now × AreOfFile bytes.now (map said reading.records.items) reading.numbers.items) (RefusesWithin limits bytes.now) }
{
    let past = line_past_size(bytes, limits.bytes);
    let mut reading = Reading::new(alloc);
    let mut left = Some(bytes);
    let mut number = 0;
    while let Some(rest) = left {
        if is_at(past, number) {
            return Err(fault(number + 1, Rule::Grammar));
        }
        let (line, rest) = split_line(rest);
        reading.read_line(alloc, line, number)?;
        left = rest;
        number += 1;
    }
    Ok(reading)
}

/// Whether a line that is looked for, if any is, is this one.
fn is_at(line: Option<usize>, number: usize) -> bool
    ensures { IsTrue result ↔ (line ≡ Some number) }
{
    match line {
        Some(line) => line == number,
        None => false,
    }
}

impl Reading {
    /// No line is read yet.
    fn new(alloc: Global) -> Reading
        ensures { (file : List ℕ) → IsReadTo file 0 result }
    {
        Reading {
            records: Vec::new(alloc),
            numbers: Vec::new(alloc),
            seen: Seen::new(alloc),
        }
    }

    /// Reads the next line, which is within the file's size.
    fn read_line(&mut self, alloc: Global, line: &[u8], number: usize) -> Result<(), RecordsError>
        requires { number + 1 < 0x10000000000000000 }
        ensures { (limits : PlainLimits) (file : List ℕ) → number < length (lines_of file) → line.now ≡ line_at (lines_of file) number
            → (PassesSize limits.bytes file number → ⊥) → IsReadTo file number self.old → AreSound limits file number
            → MatchResult result (λ _. IsReadTo file (number + 1) self.new × AreSound limits file (number + 1)) (RefusesWithin limits file) }
    {
        let Some(given) = parse_line(alloc, line)? else {
            return Err(fault(number + 1, Rule::Grammar));
        };
        if !given.says_something() {
            return Ok(());
        }
        let is_new = self.seen.insert(&given)?;
        if !is_new {
            return Err(fault(number + 1, Rule::V14));
        }
        if self.records.push(given).is_err() {
            return Err(RecordsError::Memory);
        }
        if self.numbers.push(number + 1).is_err() {
            return Err(RecordsError::Memory);
        }
        Ok(())
    }
}

/// Asks the rules in the order of faults, from the limits on.
fn keep_rules(
    alloc: Global,
    records: &[Record],
    numbers: &[usize],
    limits: Limits,
) -> Result<(), RecordsError>
    requires { length records.now ≡ length numbers.now }
    ensures { (file : List ℕ) → AreOfFile file (map said records.now) numbers.now → AsksRules limits file result }
{
    keep_limits(alloc, records, numbers, limits)?;
    for rank in 2..26 {
        keep_rule(alloc, rule_of_rank(rank), records, numbers)?;
    }
    Ok(())
}

/// Asks the limits.
fn keep_limits(
    alloc: Global,
    records: &[Record],
    numbers: &[usize],
    limits: Limits,
) -> Result<(), RecordsError>
    requires { length records.now ≡ length numbers.now }
    ensures asks { (file : List ℕ) → AreOfFile file (map said records.now) numbers.now → KeepsBelow limits 1 file
        → MatchResult result (λ _. KeepsBelow limits 2 file) (RefusesWithin limits file) }
    ensures short { OnOk result (All IsShort (map said records.now)) }
{
    let over = first_over_limit(alloc, records, limits)?;
    refuse(Rule::Limit, over, numbers)
}

/// Asks one rule from C1 on.
fn keep_rule(
    alloc: Global,
    rule: Rule,
    records: &[Record],
    numbers: &[usize],
) -> Result<(), RecordsError>
    requires after_limit { 1 < rank rule }
    requires short { All IsShort (map said records.now) }
    requires numbered { length records.now ≡ length numbers.now }
    ensures { (limits : PlainLimits) (file : List ℕ) → AreOfFile file (map said records.now) numbers.now → KeepsBelow limits (rank rule) file
        → MatchResult result (λ _. KeepsBelow limits (rank rule + 1) file) (RefusesWithin limits file) }
{
    let found = first_offender(alloc, rule, records)?;
    refuse(rule, found, numbers)
}

/// The rule of a rank in the order of faults, from C1 on.
fn rule_of_rank(number: u8) -> Rule
    requires after_limit { 1 < number }
    requires within { number < 26 }
    ensures { rank result ≡ number }
{
    match number {
        2 => Rule::C1,
        3 => Rule::C2,
        4 => Rule::C3,
        5 => Rule::C4,
        6 => Rule::C5,
        7 => Rule::C6,
        8 => Rule::C7,
        9 => Rule::C8,
        10 => Rule::C9,
        11 => Rule::V1,
        12 => Rule::V2,
        13 => Rule::V3,
        14 => Rule::V4,
        15 => Rule::V5,
        16 => Rule::V6,
        17 => Rule::V7,
        18 => Rule::V8,
        19 => Rule::V9,
        20 => Rule::V10,
        21 => Rule::V11,
        22 => Rule::V12,
        23 => Rule::V13,
        24 => Rule::V15,
        _ => Rule::Set,
    }
}

/// The first record that offends against a rule from C1 on, if one does. `AllocError` where memory is refused.
fn first_offender(
    alloc: Global,
    rule: Rule,
    records: &[Record],
) -> Result<Option<usize>, AllocError>
    requires after_limit { 1 < rank rule }
    requires short { All IsShort (map said records.now) }
    ensures { IfOk result (λ found. MatchOption found (NoneOffends rule (map said records.now)) (IsFirstOffender rule (map said records.now))) }
{
    match rule {
        Rule::C1 => first_mapped_mark(alloc, records),
        Rule::C2 => first_loop(alloc, records),
        Rule::C3 => Ok(first_bad_class(records)),
        Rule::C4 => first_bad_list(alloc, records),
        Rule::C5 => first_repeated_pair(alloc, records),
        Rule::C6 => Ok(first_bad_second(records)),
        Rule::C7 => first_bad_low(alloc, records),
        Rule::C8 => Ok(first_contradiction(records)),
        Rule::C9 => Ok(first_mapped_hangul(records)),
        Rule::V1 => Ok(first_bad_kind(records)),
        Rule::V2 => first_bad_primary(alloc, records),
        Rule::V3 => Ok(first_bad_secondary(records)),
        Rule::V4 => Ok(first_bad_tertiary(records)),
        Rule::V5 => first_begun_weight(alloc, records),
        Rule::V6 => first_bad_range(alloc, records),
        Rule::V7 => first_undecomposed(alloc, records),
        Rule::V8 => first_late_starter(alloc, records),
        Rule::V9 => first_lacking_shorter(alloc, records),
        Rule::V10 => first_bad_prefix(alloc, records),
        Rule::V11 => first_bad_digit(alloc, records),
        Rule::V12 => first_bad_jamo(alloc, records),
        Rule::V13 => Ok(first_special(records)),
        Rule::V15 => first_bad_dotted(alloc, records),
        Rule::Set => first_bad_setting(alloc, records),
        Rule::Grammar | Rule::V14 | Rule::Limit => unreachable!(),
    }
}

/// Refuses a file for the first record that offends against a rule, if there is one.
fn refuse(rule: Rule, found: Option<usize>, numbers: &[usize]) -> Result<(), RecordsError>
    requires { IfSome found (λ index. index < length numbers.now) }
    ensures asks { (limits : PlainLimits) (file : List ℕ) (records : List PlainRecord) → AsksRule limits rule file records numbers.now found result }
    ensures none { OnOk result (found ≡ None) }
{
    match found {
        Some(index) => Err(fault(numbers[index], rule)),
        None => Ok(()),
    }
}

/// The fault of a line, which counts from 1.
fn fault(line: usize, rule: Rule) -> RecordsError
    ensures { result ≡ RecordsError.Fault (record { line = line; rule = rule }) }
{
    RecordsError::Fault(RecordFault { line, rule })
}

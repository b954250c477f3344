//! The rule on ranges (V6): each by itself, two ranges, and a range beside an element.

ghost use Rattle.std.specs.Prelude.{◌≡◌, ◌==◌, ◌+◌, ◌/◌, ◌^◌, ◌<◌, ◌||◌, ◌↔◌, ℕ, not, true, leb, length, map, slice_index_or, IsTrue, IfOk, MatchOption, OnOk};
ghost use Rattle.std.specs.List.{list_all, list_any};
ghost use Rattle.std.specs.Ordering.{nat_cmp};
ghost use Rattle.std.specs.BTreeSet.{contains};
ghost use Rattle.icu_collator_core.specs.PlainLeads.{plain_leads};
ghost use Rattle.icu_collator_core.specs.PrimaryRanges.{range_of};
ghost use Rattle.icu_collator_core.specs.WeightRules.{is_of_other_lead, is_sound_range};
ghost use Rattle.collate_lines.specs.Record.{said};
ghost use Rattle.collate_rules.specs.GivenWeights.{BreakRanges, are_all_disjoint, are_sound_ranges, has_lead};
ghost use Rattle.collate_rules.specs.Offenders.{NoneOffends, IsFirstOffender};

use crate::given::{given_elements, given_ranges};
use crate::leads::leads_to;
use collate_lines::record::Record;
use collate_lines::rule::Rule;
use collate_rules::indices::{IndexTest, first_index};
use icu_collator_core::weight_rules::{Leads, PrimaryRange, is_sound_range};
use icu_collator_types::elements::Element;
use std::alloc::{AllocError, Global};
use std::collections::BTreeSet;

/// The first line with which a range isn't sound, two ranges share a character, or an element has the lead of a range
/// (rule V6, docs/RECORDS.md). Lines count from 0; `None` where no line offends.
///
/// Errors: `AllocError` where memory is refused.
pub fn first_bad_range(alloc: Global, records: &[Record]) -> Result<Option<usize>, AllocError>
    ensures { IfOk result (λ found. MatchOption found (NoneOffends Rule.V6 (map said records.now)) (λ i. IsFirstOffender Rule.V6 (map said records.now) i)) }
{
    let found = first_index(alloc, &RangeTest { records }, records.len())?;
    Ok(found)
}

/// The test for lines up to one whose ranges break the rule.
#[derive(Drop)]
struct RangeTest<'r> {
    records: &'r [Record],
}

impl IndexTest for RangeTest<'_> {
    ghost use Rattle.std.specs.Prelude.{◌+◌, length, map, take};
    ghost use Rattle.collate_lines.specs.Record.{said};
    ghost use Rattle.collate_rules.specs.GivenWeights.{BreakRanges};

    ghost count = { λ test. length test.records.now };

    ghost Holds = { λ test i. BreakRanges (map said test.records.now) (take (i + 1) (map said test.records.now)) };

    fn holds(&self, alloc: Global, index: usize) -> Result<bool, AllocError> {
        let yes = break_ranges(alloc, self.records, &self.records[..index + 1])?;
        Ok(yes)
    }
}

/// Whether the ranges of lines of a file break the rule, by what the lines tell of leads.
fn break_ranges(alloc: Global, file: &[Record], lines: &[Record]) -> Result<bool, AllocError>
    ensures { IfOk result (λ yes. IsTrue yes ↔ BreakRanges (map said file.now) (map said lines.now)) }
{
    let ranges = given_ranges(alloc, lines)?;
    let elements = given_elements(alloc, lines)?;
    let leads = leads_to(file, lines);
    let are_sound = are_sound_ranges(alloc, &leads, ranges.as_slice(), elements.as_slice())?;
    Ok(!are_sound)
}

/// Whether each range is sound, no two share a character, and no element has the lead of one.
fn are_sound_ranges(
    alloc: Global,
    leads: &Leads,
    ranges: &[PrimaryRange],
    elements: &[Element],
) -> Result<bool, AllocError>
    ensures { IfOk result (λ yes. yes ≡ are_sound_ranges (plain_leads leads.now) (map range_of ranges.now) elements.now) }
{
    if !are_each_sound(leads, ranges) {
        return Ok(false);
    }
    let are_disjoint = are_all_disjoint(alloc, ranges)?;
    if !are_disjoint {
        return Ok(false);
    }
    let are_beside = are_of_other_leads(alloc, ranges, elements)?;
    Ok(are_beside)
}

/// Whether each range by itself is sound.
fn are_each_sound(leads: &Leads, ranges: &[PrimaryRange]) -> bool
    ensures { result ≡ list_all (is_sound_range (plain_leads leads.now)) (map range_of ranges.now) }
{
    for range in ranges {
        if !is_sound_range(leads, *range) {
            return false;
        }
    }
    true
}

/// Whether no two ranges share a character, where none ends before it begins. Takes the time of sorting: in the order of
/// their first characters, each ends before the next begins.
fn are_all_disjoint(alloc: Global, ranges: &[PrimaryRange]) -> Result<bool, AllocError>
    requires { list_all (λ r. leb r.first r.last) (map range_of ranges.now) ≡ true }
    ensures { IfOk result (λ yes. yes ≡ are_all_disjoint (map range_of ranges.now)) }
{
    let mut spans = spans_of(alloc, ranges)?;
    spans.sort()?;
    Ok(are_steps_apart(spans.as_slice()))
}

/// The first and the last character of ranges. Fails only if memory is refused.
fn spans_of(alloc: Global, ranges: &[PrimaryRange]) -> Result<Vec<(char, char)>, AllocError>
    ensures { IfOk result (λ spans. spans.items ≡ map (λ r. (r.first, r.last)) ranges.now) }
{
    ranges
        .iter()
        .map(|range| (range.first, range.last))
        .collect(alloc)
}

/// Whether each of some spans ends before the next begins.
fn are_steps_apart(spans: &[(char, char)]) -> bool
    ensures { IsTrue result ↔ ((k : ℕ) (d : ℕ × ℕ) → k + 1 < length spans.now → (slice_index_or spans.now k d).1 < (slice_index_or spans.now (k + 1) d).0) }
{
    let mut index = 0;
    while index + 1 < spans.len() {
        if spans[index].1 >= spans[index + 1].0 {
            return false;
        }
        index += 1;
    }
    true
}

/// Whether no element has the lead of a range.
fn are_of_other_leads(
    alloc: Global,
    ranges: &[PrimaryRange],
    elements: &[Element],
) -> Result<bool, AllocError>
    ensures { IfOk result (λ yes. yes ≡ list_all (λ r. list_all (is_of_other_lead r) elements.now) (map range_of ranges.now)) }
{
    let taken = leads_of(alloc, ranges)?;
    Ok(have_other_leads(&taken, elements))
}

/// The leads of ranges. Fails only if memory is refused.
fn leads_of(alloc: Global, ranges: &[PrimaryRange]) -> Result<BTreeSet<u8>, AllocError>
    ensures { IfOk result (λ taken. (lead : ℕ) → contains nat_cmp taken lead ≡ list_any (has_lead lead) (map range_of ranges.now)) }
{
    let mut taken = BTreeSet::new(alloc);
    for range in ranges {
        put_lead(&mut taken, *range)?;
    }
    Ok(taken)
}

/// Notes the lead of a range.
fn put_lead(taken: &mut BTreeSet<u8>, range: PrimaryRange) -> Result<(), AllocError>
    ensures { OnOk result ((lead : ℕ) → contains nat_cmp taken.new lead ≡ (contains nat_cmp taken.old lead || has_lead lead (range_of range))) }
{
    taken.insert((range.primary >> 24) as u8)?;
    Ok(())
}

/// Whether no element has one of these leads.
fn have_other_leads(taken: &BTreeSet<u8>, elements: &[Element]) -> bool
    ensures { result ≡ list_all (λ e. (e.primary == 0) || not (contains nat_cmp taken.now (e.primary / 2 ^ 24))) elements.now }
{
    elements.iter().all(|e| has_other_lead(taken, *e))
}

/// Whether the primary of an element, if it has one, has none of these leads.
fn has_other_lead(taken: &BTreeSet<u8>, element: Element) -> bool
    ensures { result ≡ ((element.primary == 0) || not (contains nat_cmp taken.now (element.primary / 2 ^ 24))) }
{
    element.primary == 0 || !taken.contains(&((element.primary >> 24) as u8))
}

//! The rule on primaries (V2): it asks for what the file sets of leads too.

ghost use Rattle.std.specs.Prelude.{◌≡◌, ◌<◌, ◌↔◌, length, map, take, IsTrue, IfOk, MatchOption};
ghost use Rattle.std.specs.List.{list_all};
ghost use Rattle.icu_collator_core.specs.PlainLeads.{plain_leads};
ghost use Rattle.collate_lines.specs.Record.{said};
ghost use Rattle.collate_rules.specs.GivenWeights.{BreakPrimaries, has_sound_primary};
ghost use Rattle.collate_rules.specs.Offenders.{NoneOffends, IsFirstOffender};

use crate::given::given_elements;
use crate::leads::leads_to;
use collate_lines::record::Record;
use collate_lines::rule::Rule;
use collate_rules::indices::{IndexTest, first_index};
use icu_collator_core::weight_rules::{Leads, is_sound_primary};
use icu_collator_types::elements::Element;
use std::alloc::{AllocError, Global};

/// The first line with a primary that letters may not have, or that sets a lead so that an earlier line has one (rule
/// V2, docs/RECORDS.md). Lines count from 0; `None` where no line offends.
///
/// Errors: `AllocError` where memory is refused.
pub fn first_bad_primary(alloc: Global, records: &[Record]) -> Result<Option<usize>, AllocError>
    ensures { IfOk result (λ found. MatchOption found (NoneOffends Rule.V2 (map said records.now)) (λ i. IsFirstOffender Rule.V2 (map said records.now) i)) }
{
    let found = first_index(alloc, &PrimaryTest { records }, records.len())?;
    Ok(found)
}

/// The test for lines up to one that have a primary which isn't sound.
#[derive(Drop)]
struct PrimaryTest<'r> {
    records: &'r [Record],
}

impl IndexTest for PrimaryTest<'_> {
    ghost use Rattle.std.specs.Prelude.{◌+◌, length, map, take};
    ghost use Rattle.collate_lines.specs.Record.{said};
    ghost use Rattle.collate_rules.specs.GivenWeights.{BreakPrimaries};

    ghost count = { λ test. length test.records.now };

    ghost Holds = { λ test i. BreakPrimaries (map said test.records.now) (take (i + 1) (map said test.records.now)) };

    fn holds(&self, alloc: Global, index: usize) -> Result<bool, AllocError> {
        let yes = break_primaries(alloc, self.records, &self.records[..index + 1])?;
        Ok(yes)
    }
}

/// Whether lines of a file have a primary that isn't sound, by what they tell of leads.
fn break_primaries(alloc: Global, file: &[Record], lines: &[Record]) -> Result<bool, AllocError>
    ensures { IfOk result (λ yes. IsTrue yes ↔ BreakPrimaries (map said file.now) (map said lines.now)) }
{
    let elements = given_elements(alloc, lines)?;
    let leads = leads_to(file, lines);
    Ok(!have_sound_primaries(&leads, elements.as_slice()))
}

/// Whether the primaries of elements are sound.
fn have_sound_primaries(leads: &Leads, elements: &[Element]) -> bool
    ensures { result ≡ list_all (has_sound_primary (plain_leads leads.now)) elements.now }
{
    elements.iter().all(|e| has_sound_primary(leads, *e))
}

/// Whether the primary of an element, if it has one, is sound.
fn has_sound_primary(leads: &Leads, element: Element) -> bool
    ensures { result ≡ has_sound_primary (plain_leads leads.now) element }
{
    element.primary == 0 || is_sound_primary(leads, element.primary)
}

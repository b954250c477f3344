//! The rules on one element: its kind (V1), its secondary (V3) and its tertiary (V4).

ghost use Rattle.std.specs.Prelude.{◌≡◌, ◌↔◌, map, IsTrue, MatchOption};
ghost use Rattle.std.specs.List.{list_all};
ghost use Rattle.icu_collator_core.specs.WeightRules.{is_sound_kind};
ghost use Rattle.collate_lines.specs.Record.{said};
ghost use Rattle.collate_rules.specs.GivenWeights.{HasRefused, has_sound_secondary, has_sound_tertiary};
ghost use Rattle.collate_rules.specs.Offenders.{NoneOffends, IsFirstOffender};

use crate::given::elements_of;
use collate_lines::record::Record;
use collate_lines::rule::Rule;
use icu_collator_core::weight_rules::{is_sound_kind, is_sound_secondary, is_sound_tertiary};
use icu_collator_types::elements::Element;

/// The first line with an element that is neither primary, secondary nor tertiary (rule V1, docs/RECORDS.md). Lines count
/// from 0; `None` where no line offends.
pub fn first_bad_kind(records: &[Record]) -> Option<usize>
    ensures { MatchOption result (NoneOffends Rule.V1 (map said records.now)) (λ i. IsFirstOffender Rule.V1 (map said records.now) i) }
{
    records.iter().position(has_bad_kind)
}

/// The first line with a secondary that isn't common and has a lead that accents may not have (rule V3,
/// docs/RECORDS.md). Lines count from 0; `None` where no line offends.
pub fn first_bad_secondary(records: &[Record]) -> Option<usize>
    ensures { MatchOption result (NoneOffends Rule.V3 (map said records.now)) (λ i. IsFirstOffender Rule.V3 (map said records.now) i) }
{
    records.iter().position(has_bad_secondary)
}

/// The first line with a tertiary that isn't common and has a lead or a low byte that forms may not have (rule V4,
/// docs/RECORDS.md). Lines count from 0; `None` where no line offends.
pub fn first_bad_tertiary(records: &[Record]) -> Option<usize>
    ensures { MatchOption result (NoneOffends Rule.V4 (map said records.now)) (λ i. IsFirstOffender Rule.V4 (map said records.now) i) }
{
    records.iter().position(has_bad_tertiary)
}

/// Whether an element of a line is neither primary, secondary nor tertiary.
fn has_bad_kind(line: &Record) -> bool
    ensures { IsTrue result ↔ HasRefused is_sound_kind (said line.now) }
{
    !are_sound_kinds(elements_of(line))
}

/// Whether elements are each primary, secondary or tertiary.
fn are_sound_kinds(elements: &[Element]) -> bool
    ensures { result ≡ list_all is_sound_kind elements.now }
{
    elements.iter().all(|e| is_sound_kind(*e))
}

/// Whether an element of a line has a bad secondary.
fn has_bad_secondary(line: &Record) -> bool
    ensures { IsTrue result ↔ HasRefused has_sound_secondary (said line.now) }
{
    !have_sound_secondaries(elements_of(line))
}

/// Whether the secondaries of elements are sound.
fn have_sound_secondaries(elements: &[Element]) -> bool
    ensures { result ≡ list_all has_sound_secondary elements.now }
{
    elements.iter().all(|e| has_sound_secondary(*e))
}

/// Whether an element of a line has a bad tertiary.
fn has_bad_tertiary(line: &Record) -> bool
    ensures { IsTrue result ↔ HasRefused has_sound_tertiary (said line.now) }
{
    !have_sound_tertiaries(elements_of(line))
}

/// Whether the tertiaries of elements are sound.
fn have_sound_tertiaries(elements: &[Element]) -> bool
    ensures { result ≡ list_all has_sound_tertiary elements.now }
{
    elements.iter().all(|e| has_sound_tertiary(*e))
}

/// Whether the secondary of an element, if it has one, is sound.
fn has_sound_secondary(element: Element) -> bool
    ensures { result ≡ has_sound_secondary element }
{
    element.secondary == 0 || is_sound_secondary(element.secondary)
}

/// Whether the tertiary of an element, if it has one, is sound.
fn has_sound_tertiary(element: Element) -> bool
    ensures { result ≡ has_sound_tertiary element }
{
    element.tertiary == 0 || is_sound_tertiary(element.tertiary)
}

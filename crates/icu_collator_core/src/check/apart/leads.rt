//! The leads of the primaries that ranges give, in a list, and what primaries may stand under them.

ghost use Rattle.std.specs.Prelude.{◌≡◌, OnOk};
ghost use Rattle.std.specs.List.{list_all};
ghost use Rattle.icu_collator_core.specs.ElementLists.{unpacked};
ghost use Rattle.icu_collator_core.specs.Pools.{element_of};
ghost use Rattle.icu_collator_core.specs.WeightLists.{Grows, HasLead, HaveLead, is_beside_lead};

use super::character_words::gather_word;
use crate::table_words::fields::{entry_at, has_tag, index_of};
use crate::tables::CollationData;
use icu_collator_types::elements::{CollationElement, Tag};
use std::alloc::AllocError;

/// The lead of the primaries that a word gives, if it is one of a range.
fn gather_lead(
    leads: &mut Vec<u32>,
    source: &CollationData<'_>,
    word: u32,
) -> Result<(), AllocError>
    ensures { OnOk result (Grows (HasLead source.now word) leads.old.items leads.new.items) }
{
    if !has_tag(word, Tag::Offset) {
        return Ok(());
    }
    let entry = entry_at(&source.ces, index_of(word));
    gather_word(leads, (entry >> 56) as u32)?;
    Ok(())
}

/// The leads of the primaries that words give.
pub(super) fn gather_leads(
    leads: &mut Vec<u32>,
    source: &CollationData<'_>,
    words: &[u32],
) -> Result<(), AllocError>
    ensures { OnOk result (Grows (HaveLead source.now words.now) leads.old.items leads.new.items) }
{
    for index in 0..words.len() {
        gather_lead(leads, source, words[index])?;
    }
    Ok(())
}

/// Whether the primary of an element has another lead, or three bytes.
fn is_beside_lead(lead: u32, element: CollationElement) -> bool
    ensures { result ≡ is_beside_lead lead (element_of element) }
{
    let primary = element.primary();
    primary >> 24 != lead || (primary & 0xff == 0 && (primary >> 8) & 0xff != 0)
}

/// Whether the primaries of all elements have.
fn are_beside_lead(lead: u32, elements: &[CollationElement]) -> bool
    ensures { result ≡ list_all (is_beside_lead lead) (unpacked elements.now) }
{
    for index in 0..elements.len() {
        if !is_beside_lead(lead, elements[index]) {
            return false;
        }
    }
    true
}

/// Whether they have for each lead.
pub(super) fn are_beside(leads: &[u32], elements: &[CollationElement]) -> bool
    ensures { result ≡ list_all (λ lead. list_all (is_beside_lead lead) (unpacked elements.now)) leads.now }
{
    for index in 0..leads.len() {
        if !are_beside_lead(leads[index], elements) {
            return false;
        }
    }
    true
}

//! All that tables spell, and whether it keeps apart.

ghost use Rattle.std.specs.Prelude.{◌↔◌, IsTrue, IfOk, OnOk};
ghost use Rattle.icu_collator_core.specs.ElementLists.{unpacked};
ghost use Rattle.icu_collator_core.specs.PrefixFaults.{AreWeightsApart, IsSpelled, IsSpelledIn};
ghost use Rattle.icu_collator_core.specs.WeightLists.{Grows, IsLeadOf, IsLeadOfTailoring, IsRangedLead, IsSpelledByTables, IsSpelledByTailoring, Lists};

use super::character_words::{gather_diacritics, gather_jamo, words_of};
use super::leads::{are_beside, gather_leads};
use super::levels::are_apart;
use super::spelled_elements::gather_spelled;
use crate::tables::{CollationData, CollationTables};
use icu_collator_types::elements::CollationElement;
use smallvec::SmallVec;
use std::alloc::{AllocError, Global};

/// The elements that tables spell, and the leads of ranges.
struct Gathered {
    elements: SmallVec<CollationElement, 32>,
    leads: Vec<u32>,
}

// (let go of as one, and not part by part, so that what owns one is proved sooner)
impl Drop for Gathered {
    fn drop(self) {
        let Gathered {
            elements: _,
            leads: _,
        } = self;
    }
}

/// What the words of data spell.
fn gather_data(
    alloc: Global,
    gathered: &mut Gathered,
    source: &CollationData<'_>,
) -> Result<(), AllocError>
    ensures elements { OnOk result (Grows (IsSpelledIn source.now) (unpacked gathered.old.elements.items) (unpacked gathered.new.elements.items)) }
    ensures leads { OnOk result (Grows (IsLeadOf source.now) gathered.old.leads.items gathered.new.leads.items) }
{
    let words = words_of(alloc, source)?;
    gather_leads(&mut gathered.leads, source, words.as_slice())?;
    gather_spelled(&mut gathered.elements, source, words.as_slice())?;
    Ok(())
}

/// What the words of the tailoring spell, if there is one.
fn gather_tailoring(
    alloc: Global,
    gathered: &mut Gathered,
    tables: &CollationTables<'_>,
) -> Result<(), AllocError>
    ensures elements { OnOk result (Grows (IsSpelledByTailoring tables.now) (unpacked gathered.old.elements.items) (unpacked gathered.new.elements.items)) }
    ensures leads { OnOk result (Grows (IsLeadOfTailoring tables.now) gathered.old.leads.items gathered.new.leads.items) }
{
    let Some(source) = &tables.tailoring else {
        return Ok(());
    };
    gather_data(alloc, gathered, source)?;
    Ok(())
}

/// What the table of diacritics and that of jamo spell.
fn gather_fixed(
    alloc: Global,
    elements: &mut SmallVec<CollationElement, 32>,
    tables: &CollationTables<'_>,
) -> Result<(), AllocError>
    ensures { OnOk result (Grows (IsSpelledByTables tables.now) (unpacked elements.old.items) (unpacked elements.new.items)) }
{
    let mut words = Vec::new(alloc);
    gather_diacritics(&mut words, tables)?;
    gather_jamo(&mut words, tables)?;
    gather_spelled(elements, &tables.root, words.as_slice())?;
    Ok(())
}

/// All that tables spell.
fn gather(alloc: Global, tables: &CollationTables<'_>) -> Result<Gathered, AllocError>
    ensures elements { IfOk result (λ gathered. Lists (IsSpelled tables.now) (unpacked gathered.elements.items)) }
    ensures leads { IfOk result (λ gathered. Lists (IsRangedLead tables.now) gathered.leads.items) }
{
    let elements = SmallVec::new(alloc);
    let leads = Vec::new(alloc);
    let mut gathered = Gathered { elements, leads };
    gather_data(alloc, &mut gathered, &tables.root)?;
    gather_tailoring(alloc, &mut gathered, tables)?;
    gather_fixed(alloc, &mut gathered.elements, tables)?;
    Ok(gathered)
}

/// Whether no weight that tables spell begins another one on its level, and no primary but of three bytes stands under
/// a lead of ranges. Fails only if memory is refused.
pub(crate) fn are_weights_apart(
    alloc: Global,
    tables: &CollationTables<'_>,
) -> Result<bool, AllocError>
    ensures { IfOk result (λ yes. IsTrue yes ↔ AreWeightsApart tables.now) }
{
    let gathered = gather(alloc, tables)?;
    let elements = gathered.elements.as_slice();
    let leads = gathered.leads.as_slice();
    if !are_beside(leads, elements) {
        return Ok(false);
    }
    let apart = are_apart(alloc, elements)?;
    Ok(apart)
}

//! Whether the secondaries of marks keep the rules.

ghost use Rattle.std.specs.List.{list_all};
ghost use Rattle.std.specs.Prelude.{◌≡◌};
ghost use Rattle.icu_collator_core.specs.WeightFaults.{are_sound_diacritics, is_diacritic_count, is_sound_diacritic};

use crate::tables::{CollationMetadata, CollationTables};
use crate::weight_rules::is_sound_secondary;
use icu_packed_vector::PackedVec;

/// How many marks have a secondary in the table of the root.
const DIACRITIC_COUNT: usize = 79;

/// Whether there may be so many secondaries: those of a tailoring may be fewer than the root's.
fn is_diacritic_count(metadata: CollationMetadata, count: usize) -> bool
    ensures { result ≡ is_diacritic_count metadata count }
{
    count <= DIACRITIC_COUNT && (metadata.tailored_diacritics() || count == DIACRITIC_COUNT)
}

/// Whether the secondary of a mark keeps the rule on secondaries.
#[tactic(auto, unfolding(crate::specs::WeightFaults::is_sound_diacritic))]
fn is_sound_diacritic(secondary: u16) -> bool
    ensures { result ≡ is_sound_diacritic secondary }
{
    is_sound_secondary(secondary)
}

/// Whether each of the secondaries keeps the rule.
fn are_all_sound(secondaries: &PackedVec<'_, u16>) -> bool
    ensures { result ≡ list_all is_sound_diacritic secondaries.now }
{
    for index in 0..secondaries.len() {
        if !is_sound_diacritic(secondaries.at(index)) {
            return false;
        }
    }
    true
}

/// Whether there are as many secondaries as there may be, and each keeps the rule on secondaries.
pub(crate) fn are_sound_diacritics(tables: &CollationTables<'_>) -> bool
    ensures { result ≡ are_sound_diacritics tables.now }
{
    let secondaries = &tables.diacritics.secondaries;
    is_diacritic_count(tables.metadata, secondaries.len()) && are_all_sound(secondaries)
}

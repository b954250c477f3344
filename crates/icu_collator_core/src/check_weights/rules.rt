//! The rules on one element (docs/RECORDS.md, V1 to V4), of elements that tables spell.

ghost use Rattle.std.specs.Prelude.{◌≡◌};
ghost use Rattle.icu_collator_core.specs.WeightFaults.{is_sound_spelled};

use crate::tables::CollationSpecialPrimaries;
use crate::weight_rules::is_sound_element;
use icu_collator_types::elements::Element;

/// Whether an element that tables spell keeps the rules on elements, and its case is one of the three.
#[tactic(auto, unfolding(crate::specs::WeightFaults::is_sound_spelled))]
pub(super) fn is_sound_spelled(special: &CollationSpecialPrimaries<'_>, element: Element) -> bool
    ensures { result ≡ is_sound_spelled special.now element }
{
    element.case <= 2 && is_sound_element(special, element)
}

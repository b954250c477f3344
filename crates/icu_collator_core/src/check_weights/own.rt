//! The elements that characters have by themselves.

ghost use Rattle.std.specs.Prelude.{◌≡◌};
ghost use Rattle.icu_collator_core.specs.TableMeaning.{own_primary};
ghost use Rattle.icu_collator_core.specs.WeightFaults.{is_own_element, is_primary_element};

use crate::table_words::defaults::{special_primary, unranged_primary};
use icu_collator_types::elements::{COMMON_WEIGHT, Element};

/// The primary of a character by itself, in no range: special, a jamo's, or implicit.
pub(crate) fn own_primary(c: u32) -> u32
    ensures { result ≡ own_primary c }
{
    match special_primary(c) {
        Some(primary) => primary,
        None => unranged_primary(c),
    }
}

/// Whether an element is this primary with common weights on the other levels.
#[tactic(auto, unfolding(crate::specs::WeightFaults::is_primary_element))]
fn is_primary_element(primary: u32, element: Element) -> bool
    ensures { result ≡ is_primary_element primary element }
{
    element.primary == primary
        && element.secondary == COMMON_WEIGHT
        && element.case == 0
        && element.tertiary == COMMON_WEIGHT
        && element.quaternary == 0
}

/// Whether an element is the one that a character has by itself, by its primary; `None` where that may not stand.
pub(super) fn is_own_element(own: Option<u32>, element: Element) -> bool
    ensures { result ≡ is_own_element own element }
{
    match own {
        Some(primary) => is_primary_element(primary, element),
        None => false,
    }
}

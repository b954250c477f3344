//! The order of two texts, where their first difference decides it.

ghost use Rattle.std.specs.Char.{IsScalar};
ghost use Rattle.std.specs.Prelude.{◌≡◌, ℕ, All, IfSome, List};
ghost use Rattle.icu_collator.specs.Collators.{source_collation};
ghost use Rattle.icu_collator.specs.Fronts.{PartAt};
ghost use Rattle.icu_collator.specs.Order.{collation_order};

use super::deciding::order_of_next;
use super::differences::FirstDifference;
use super::next::next_character;
use super::syllables::by_letters;
use crate::levels::counted_elements::variable_end;
use icu_collator_core::checked::CheckedTables;
use icu_collator_types::options::ResolvedCollatorOptions;
use icu_normalizer_core::built_in::is_syllable;
use std::cmp::Ordering;

/// Whether both texts go on with a Hangul syllable.
fn are_syllables(difference: FirstDifference) -> bool {
    let (Some(left), Some(right)) = (difference.left, difference.right) else {
        return false;
    };
    is_syllable(left as u32) && is_syllable(right as u32)
}

/// The order of two texts, if it is decided by where they first differ: there both end, or one does and the other goes
/// on with a plain character, or both go on with plain characters whose primaries differ. Of two Hangul syllables the first
/// letters that differ count. No memory is taken.
pub(crate) fn order_by_difference(
    checked: &CheckedTables<'_>,
    options: &ResolvedCollatorOptions,
    difference: FirstDifference,
) -> Option<Ordering>
    ensures { IfSome result (λ order. (a b : List ℕ) → All IsScalar a → All IsScalar b
        → PartAt a b difference.common difference.left difference.right → order ≡ collation_order (source_collation checked.now) options.now a b) }
{
    checked.canonical().keep_promise();
    let spelled = by_letters(difference);
    if are_syllables(spelled) {
        return None;
    }
    let left = next_character(checked, spelled.left);
    let right = next_character(checked, spelled.right);
    let order = order_of_next(checked, variable_end(checked, options), left, right)?;
    Some(order)
}

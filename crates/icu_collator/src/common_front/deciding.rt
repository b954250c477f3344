//! What the elements of two characters decide, where texts first differ in these.

ghost use Rattle.std.specs.Prelude.{◌≡◌, ◌&&◌, ◌==◌, false, ltb, true, IfSome};
ghost use Rattle.icu_collator_types.specs.declared.options.ResolvedCollatorOptions.{ResolvedCollatorOptions};
ghost use Rattle.icu_collator.specs.Boundaries.{CountsWhole, Decide, EndsVariable, reordered_primary};
ghost use Rattle.icu_collator.specs.Collators.{source_collation};
ghost use Rattle.icu_collator.specs.NextCharacters.{IsOrderOfNext};
ghost use Rattle.icu_collator.specs.declared.common_front.deciding.NextCharacter.TheVariants.{End, Plain};

use crate::levels::counted_elements::SEGMENT_END_PRIMARY;
use crate::levels::weights::reordered;
use icu_collator_core::checked::CheckedTables;
use icu_collator_types::elements::CollationElement;
use std::cmp::Ordering;

/// What stands next in a text.
#[derive(Clone, Copy, Debug)]
pub(crate) enum NextCharacter {
    /// The text ends.
    End,
    /// A plain character, with its element.
    Plain(CollationElement),
    /// Another character.
    Other,
}

/// Whether an element with this primary counts whole: it is none, or that of a variable element.
fn counts_whole(primary: u32, variable_end: u32) -> bool
    ensures { result ≡ true → ((ltb 0x02000000 primary && ltb primary variable_end) ≡ false) × ((primary == 0) ≡ false) }
{
    primary != 0 && (primary <= SEGMENT_END_PRIMARY || primary >= variable_end)
}

/// The primary of an element that counts whole, as it is reordered; `None` of another.
#[tactic(auto, using(crate::proofs::boundaries::CountingLemmas::whole_by))]
fn whole_primary(
    checked: &CheckedTables<'_>,
    variable_end: u32,
    element: CollationElement,
) -> Option<u32>
    ensures counts { IfSome result (λ _. (options : ResolvedCollatorOptions)
        → EndsVariable (source_collation checked.now) options variable_end
        → CountsWhole (source_collation checked.now) options element) }
    ensures primary { IfSome result (λ primary. primary ≡ reordered_primary (source_collation checked.now) element) }
{
    let primary = element.primary();
    if counts_whole(primary, variable_end) {
        Some(reordered(checked.tables(), primary))
    } else {
        None
    }
}

/// How two elements decide between texts that first differ in the characters of these: by their primaries, where both
/// count whole and the primaries differ. Variable elements end before a primary, 0 where none is variable.
pub(crate) fn decide(
    checked: &CheckedTables<'_>,
    variable_end: u32,
    left: CollationElement,
    right: CollationElement,
) -> Option<Ordering>
    ensures { IfSome result (λ answer. (options : ResolvedCollatorOptions)
        → EndsVariable (source_collation checked.now) options variable_end
        → Decide (source_collation checked.now) options left right answer) }
{
    let first = whole_primary(checked, variable_end, left)?;
    let second = whole_primary(checked, variable_end, right)?;
    if first < second {
        Some(Ordering::Less)
    } else if second < first {
        Some(Ordering::Greater)
    } else {
        None
    }
}

/// How texts compare of which the left one ends, by what stands next in the other.
fn order_behind_end(
    checked: &CheckedTables<'_>,
    variable_end: u32,
    right: NextCharacter,
) -> Option<Ordering>
    ensures { IfSome result (λ answer. (options : ResolvedCollatorOptions)
        → EndsVariable (source_collation checked.now) options variable_end
        → IsOrderOfNext (source_collation checked.now) options End right answer) }
{
    match right {
        NextCharacter::End => Some(Ordering::Equal),
        NextCharacter::Plain(element) => {
            let _primary = whole_primary(checked, variable_end, element)?;
            Some(Ordering::Less)
        }
        NextCharacter::Other => None,
    }
}

/// How texts compare of which the left one goes on with a plain character, by what stands next in the other.
fn order_behind_plain(
    checked: &CheckedTables<'_>,
    variable_end: u32,
    left: CollationElement,
    right: NextCharacter,
) -> Option<Ordering>
    ensures { IfSome result (λ answer. (options : ResolvedCollatorOptions)
        → EndsVariable (source_collation checked.now) options variable_end
        → IsOrderOfNext (source_collation checked.now) options (Plain left) right answer) }
{
    match right {
        NextCharacter::End => {
            let _primary = whole_primary(checked, variable_end, left)?;
            Some(Ordering::Greater)
        }
        NextCharacter::Plain(element) => decide(checked, variable_end, left, element),
        NextCharacter::Other => None,
    }
}

/// How two texts compare, by what stands next in each after what they have in common; `None` where that doesn't decide.
pub(crate) fn order_of_next(
    checked: &CheckedTables<'_>,
    variable_end: u32,
    left: NextCharacter,
    right: NextCharacter,
) -> Option<Ordering>
    ensures { IfSome result (λ answer. (options : ResolvedCollatorOptions)
        → EndsVariable (source_collation checked.now) options variable_end
        → IsOrderOfNext (source_collation checked.now) options left right answer) }
{
    match left {
        NextCharacter::End => order_behind_end(checked, variable_end, right),
        NextCharacter::Plain(element) => order_behind_plain(checked, variable_end, element, right),
        NextCharacter::Other => None,
    }
}

//! The elements that count under alternate shifted (UTS 10, variable weighting).

ghost use Rattle.std.specs.Prelude.{◌≡◌, ◌*◌, ◌^◌, ◌&&◌, ◌==◌, IfOk, get_or, ltb, true};
ghost use Rattle.icu_collator_types.specs.Options.{group_index};
ghost use Rattle.icu_collator_types.specs.declared.options.ResolvedCollatorOptions.{ResolvedCollatorOptions};
ghost use Rattle.icu_collator_core.specs.Collation.{Collation};
ghost use Rattle.icu_collator_core.specs.ElementLists.{unpacked};
ghost use Rattle.icu_collator.specs.Collators.{source_collation};
ghost use Rattle.icu_collator.specs.LevelLists.{counted_by, counted_list, counted_of, variable_end_of};
ghost use Rattle.icu_collator.specs.Shifted.{counted};

use icu_collator_core::checked::CheckedTables;
use icu_collator_types::elements::CollationElement;
use icu_collator_types::options::{AlternateHandling, MaxVariable, ResolvedCollatorOptions};
use smallvec::SmallVec;
use std::alloc::{AllocError, Global};

/// The primary of U+FFFE: no element up to it is variable.
pub(crate) const SEGMENT_END_PRIMARY: u32 = 0x0200_0000;

/// An element that counts, as the levels look at it.
#[derive(Clone, Copy, Debug)]
pub(crate) enum CountedElement {
    /// It counts whole.
    Whole(CollationElement),
    /// It is variable: its primary alone counts, at the quaternary level.
    Variable(u32),
}

/// The index of the last variable group among the four groups of tables.
fn group_index(group: MaxVariable) -> usize
    ensures { result ≡ group_index group }
{
    match group {
        MaxVariable::Space => 0,
        MaxVariable::Punctuation => 1,
        MaxVariable::Symbol => 2,
        MaxVariable::Currency => 3,
    }
}

/// Where the primaries of variable elements end, by a collation's tables; 0 where no element is variable.
pub(crate) fn variable_end(checked: &CheckedTables<'_>, options: &ResolvedCollatorOptions) -> u32
    ensures { result ≡ variable_end_of (source_collation checked.now) options.now }
{
    match options.alternate_handling {
        AlternateHandling::NonIgnorable => 0,
        AlternateHandling::Shifted => group_end(checked, options.max_variable),
    }
}

/// The first primary after a group.
fn group_end(checked: &CheckedTables<'_>, group: MaxVariable) -> u32
    ensures { result ≡ get_or (source_collation checked.now).groups (group_index group) 0 * 2 ^ 16 }
{
    match checked
        .tables()
        .special_primaries
        .last_primaries
        .get(group_index(group))
    {
        Some(half) => u32::from(half) << 16,
        None => 0,
    }
}

/// Whether an element with this primary is variable.
pub(crate) fn is_variable(primary: u32, variable_end: u32) -> bool
    ensures { result ≡ (ltb 0x02000000 primary && ltb primary variable_end) }
{
    SEGMENT_END_PRIMARY < primary && primary < variable_end
}

/// Whether an element that isn't variable counts nowhere: it stands after a variable one, and has no primary.
fn is_ignored(is_behind: bool, primary: u32) -> bool
    ensures { result ≡ (is_behind && (primary == 0)) }
{
    is_behind && primary == 0
}

/// An element that counts, where variable ones end before a primary.
#[inline(always)]
#[tactic(auto, unfolding(crate::specs::LevelLists::counted_by))]
pub(crate) fn counted_element(element: CollationElement, variable_end: u32) -> CountedElement
    ensures { counted_of result ≡ counted_by variable_end element }
{
    let primary = element.primary();
    if is_variable(primary, variable_end) {
        CountedElement::Variable(primary)
    } else {
        CountedElement::Whole(element)
    }
}

/// Whether all elements count, as they do where none is variable.
#[inline(always)]
pub(crate) fn do_all_count(elements: &[CollationElement], variable_end: u32) -> bool
    ensures { result ≡ true → (collation : Collation) (options : ResolvedCollatorOptions) → variable_end ≡ variable_end_of collation options
        → counted_list variable_end elements.now ≡ counted collation options (unpacked elements.now) }
{
    if variable_end == 0 {
        return true;
    }
    let mut is_behind = false;
    for element in elements {
        let primary = element.primary();
        if is_variable(primary, variable_end) {
            is_behind = true;
        } else if is_ignored(is_behind, primary) {
            return false;
        } else {
            is_behind = false;
        }
    }
    true
}

/// The elements that count, where some may be variable. After a variable element, those without a primary count nowhere, up
/// to the next that has one. Fails only if memory is refused.
pub(crate) fn kept(
    alloc: Global,
    elements: &[CollationElement],
    variable_end: u32,
) -> Result<SmallVec<CollationElement, 32>, AllocError>
    ensures { IfOk result (λ list. (collation : Collation) (options : ResolvedCollatorOptions) → variable_end ≡ variable_end_of collation options
        → counted_list variable_end list.items ≡ counted collation options (unpacked elements.now)) }
{
    let mut list = SmallVec::new(alloc);
    let mut is_behind = false;
    for element in elements {
        let primary = element.primary();
        if is_variable(primary, variable_end) {
            is_behind = true;
            list.push(*element)?;
        } else if !is_ignored(is_behind, primary) {
            is_behind = false;
            list.push(*element)?;
        }
    }
    Ok(list)
}

/// The elements that count: all, where none is variable. Fails only if memory is refused.
pub(crate) fn counted(
    alloc: Global,
    elements: SmallVec<CollationElement, 32>,
    variable_end: u32,
) -> Result<SmallVec<CollationElement, 32>, AllocError>
    ensures { IfOk result (λ list. (collation : Collation) (options : ResolvedCollatorOptions) → variable_end ≡ variable_end_of collation options
        → counted_list variable_end list.items ≡ counted collation options (unpacked elements.items)) }
{
    if variable_end == 0 {
        return Ok(elements);
    }
    let list = kept(alloc, &elements, variable_end)?;
    Ok(list)
}

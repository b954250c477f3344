//! The comparison of two texts that are read by stretches side by side, as far as their primaries are the same; where these are so
//! to the end, by the elements that were read.

ghost use Rattle.std.specs.Char.{IsScalar};
ghost use Rattle.std.specs.Iterator.{IsFinite};
ghost use Rattle.std.specs.Prelude.{◌≡◌, ◌≤◌, ◌∷◌, ◌++◌, ℕ, [], All, IfNone, IfOk, IfSome, List, false, length, take};
ghost use Rattle.icu_normalizer_core.specs.Iter.{Spells};
ghost use Rattle.icu_collator_core.specs.Stretched.{EndsApart, IsUnread, settled_in};
ghost use Rattle.icu_collator_core.specs.declared.flat.steps.FlatStep.TheVariants.{Primary};
ghost use Rattle.icu_collator.specs.Collators.{source_collation};
ghost use Rattle.icu_collator.specs.CommonBoundaries.{BeginAt};
ghost use Rattle.icu_collator.specs.FlatOrders.{counted_primaries};
ghost use Rattle.icu_collator.specs.Order.{collation_order};
ghost use Rattle.icu_collator.specs.StretchedOrders.{IsNextSettled, IsRun};
ghost use Rattle.icu_collator.specs.TextsRead.{numeric_by};

use super::common::counts;
use super::flat::{Meeting, meet};
use super::fronts::CommonBoundary;
use super::listed::compare_elements_behind;
use crate::levels::counted_elements::variable_end;
use crate::read_texts::numeric_lead;
use icu_collator_core::checked::CheckedTables;
use icu_collator_core::flat::{FlatStep, StretchedElements};
use icu_collator_types::elements::CollationElement;
use icu_collator_types::options::ResolvedCollatorOptions;
use std::alloc::{AllocError, Global};
use std::cmp::Ordering;

/// How many elements of each text are read so.
const KEPT: usize = 64;

/// The first primary from an index on that counts, and the index after its element.
#[inline(always)]
fn first_primary(elements: &[CollationElement], index: usize, end: u32) -> Option<(u32, usize)>
    requires { index ≤ length elements.now }
    ensures within { IfSome result (λ found. found.1 ≤ length elements.now) }
    ensures primary { IfSome result (λ found. counted_primaries end (take found.1 elements.now) ≡ counted_primaries end (take index elements.now) ++ found.0 ∷ []) }
    ensures none { IfNone result (counted_primaries end elements.now ≡ counted_primaries end (take index elements.now)) }
{
    for at in index..elements.len() {
        let primary = elements[at].primary();
        if counts(primary, end) {
            return Some((primary, at + 1));
        }
    }
    None
}

/// Reads on in a text, of whose elements so many were met, up to the next with a primary that counts: answers that, what is left of
/// the text, and how many elements were met then. Fails only if memory is refused.
#[inline(never)]
fn next_settled<I: Iterator<Item = char> + Drop>(
    checked: &CheckedTables<'_>,
    numeric: Option<u8>,
    end: u32,
    chars: I,
    text: &mut StretchedElements,
    met: usize,
) -> Result<(FlatStep, I, usize), AllocError>
    requires met { met ≤ length (settled_in text.old) }
    requires can { text.old.is_ended ≡ false → I.can_next chars }
    requires finite { text.old.is_ended ≡ false → IsFinite (I.remaining chars) }
    ensures next { IfOk result (λ answer. IsNextSettled checked.now numeric I.next_gives end chars text.old met answer.0 answer.1 text.new answer.2) }
    ensures can { IfOk result (λ answer. (p : ℕ) → answer.0 ≡ Primary p → text.new.is_ended ≡ false → I.can_next answer.1) }
    ensures finite { IfOk result (λ answer. (p : ℕ) → answer.0 ≡ Primary p → text.new.is_ended ≡ false → IsFinite (I.remaining answer.1)) }
    ensures within { IfOk result (λ answer. (p : ℕ) → answer.0 ≡ Primary p → answer.2 ≤ length (settled_in text.new)) }
{
    let mut chars = chars;
    for _turn in 0..KEPT {
        let settled = text.settled();
        if met > settled.len() {
            return Ok((FlatStep::Other, chars, met));
        }
        if let Some((primary, index)) = first_primary(settled, met, end) {
            return Ok((FlatStep::Primary(primary), chars, index));
        }
        if text.is_ended() {
            return Ok((FlatStep::End, chars, met));
        }
        let (is_read, left) = checked.read_on(numeric, chars, text)?;
        chars = left;
        if !is_read {
            return Ok((FlatStep::Other, chars, met));
        }
    }
    Ok((FlatStep::Other, chars, met))
}

/// Reads two texts side by side, of which nothing was read, as far as their primaries are the same: how they part, that both end, or
/// that one can't be read so. Fails only if memory is refused.
#[inline(always)]
fn race<I: Iterator<Item = char> + Drop, J: Iterator<Item = char> + Drop>(
    checked: &CheckedTables<'_>,
    options: &ResolvedCollatorOptions,
    left: I,
    right: J,
    lefts: &mut StretchedElements,
    rights: &mut StretchedElements,
) -> Result<Meeting, AllocError>
    requires left { I.can_next left }
    requires left_ends { IsFinite (I.remaining left) }
    requires right { J.can_next right }
    requires right_ends { IsFinite (J.remaining right) }
    requires left_unread { IsUnread lefts.old }
    requires right_unread { IsUnread rights.old }
    ensures { IfOk result (λ meeting. (front a b : List ℕ) → All IsScalar (front ++ a) → All IsScalar (front ++ b)
        → EndsApart checked.now (numeric_by checked.now options.now) front a → EndsApart checked.now (numeric_by checked.now options.now) front b
        → Spells I.next_gives left a → Spells J.next_gives right b
        → IsRun checked.now options.now front a b lefts.new rights.new meeting) }
{
    checked.canonical().keep_promise();
    let numeric = numeric_lead(checked, options);
    let end = variable_end(checked, options);
    let mut left = left;
    let mut right = right;
    let mut left_met = 0;
    let mut right_met = 0;
    for _turn in 0..KEPT + 1 {
        let (first, left_rest, left_next) = next_settled(
            checked, numeric, end, left, lefts, left_met,
        )?;
        let (second, right_rest, right_next) = next_settled(
            checked, numeric, end, right, rights, right_met,
        )?;
        let meeting = meet(checked, first, second);
        left = left_rest;
        right = right_rest;
        left_met = left_next;
        right_met = right_next;
        match meeting {
            Meeting::Alike => {}
            Meeting::Parted(order) => return Ok(Meeting::Parted(order)),
            Meeting::Stopped => return Ok(Meeting::Stopped),
            Meeting::BothEnd => return Ok(Meeting::BothEnd),
        }
    }
    Ok(Meeting::Stopped)
}

/// The order of two texts with a boundary in common, if both can be read by stretches from it as far as it takes, and have few
/// elements: `None` for others, and for some whose primaries are the same. Fails only if memory is refused.
#[inline(never)]
pub(super) fn compare_stretched<I: Iterator<Item = char> + Drop, J: Iterator<Item = char> + Drop>(
    alloc: Global,
    checked: &CheckedTables<'_>,
    options: &ResolvedCollatorOptions,
    boundary: CommonBoundary<I, J>,
) -> Result<Option<Ordering>, AllocError>
    requires left { I.can_next boundary.left }
    requires left_ends { IsFinite (I.remaining boundary.left) }
    requires right { J.can_next boundary.right }
    requires right_ends { IsFinite (J.remaining boundary.right) }
    ensures { IfOk result (λ answer. IfSome answer (λ order. (a b : List ℕ) → All IsScalar a → All IsScalar b
        → BeginAt checked.now I.next_gives J.next_gives a b boundary.index boundary.left boundary.right
        → order ≡ collation_order (source_collation checked.now) options.now a b)) }
{
    let mut lefts = StretchedElements::new(alloc);
    let mut rights = StretchedElements::new(alloc);
    let left = boundary.left;
    let right = boundary.right;
    match race(checked, options, left, right, &mut lefts, &mut rights)? {
        Meeting::Parted(order) => Ok(Some(order)),
        Meeting::BothEnd => {
            let is_whole = boundary.index == 0;
            let answer = compare_elements_behind(
                alloc,
                checked,
                options,
                lefts.settled(),
                rights.settled(),
                is_whole,
            )?;
            Ok(answer)
        }
        Meeting::Alike => Ok(None),
        Meeting::Stopped => Ok(None),
    }
}

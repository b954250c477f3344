//! Primaries that count, and characters that two texts have in common, passed by one look at each.

ghost use Rattle.std.specs.Char.{IsScalar};
ghost use Rattle.std.specs.Iterator.{IsFinite, IsNearerEnd, size};
ghost use Rattle.std.specs.Ordering.{nat_cmp};
ghost use Rattle.std.specs.Prelude.{◌≡◌, ◌≤◌, ℕ, All, IfSome, List, Option};
ghost use Rattle.icu_collator.specs.FlatOrders.{AreAlikeSoFar, IsByPrimaries, does_count, reordered_by};
ghost use Rattle.icu_collator.specs.declared.compare.flat.ByPrimaries.TheVariants.{Decided};

use crate::encodings::PeekLow;
use crate::levels::counted_elements::is_variable;
use crate::levels::weights::reordered;
use icu_collator_core::checked::CheckedTables;
use std::cmp::Ordering;

/// Whether a primary counts where variable ones end before this one: it is none of these, nor 0.
#[inline(always)]
pub(super) fn counts(primary: u32, end: u32) -> bool
    ensures { result ≡ does_count end primary }
{
    primary != 0 && !is_variable(primary, end)
}

/// The order of two primaries, as they are reordered.
#[inline(always)]
fn order_of_primaries(checked: &CheckedTables<'_>, first: u32, second: u32) -> Ordering
    ensures { result ≡ nat_cmp (reordered_by checked.now first) (reordered_by checked.now second) }
{
    if first == second {
        return Ordering::Equal;
    }
    reordered(checked.tables(), first).cmp(&reordered(checked.tables(), second))
}

/// Reads the next character of two texts, after one of a class in both, if it is the same in both, as far as looks tell, and read
/// flat there: answers what is left of both, and the class of the last character. No memory is taken.
#[inline(always)]
fn pass_same<I: PeekLow + Drop, J: PeekLow + Drop>(
    checked: &CheckedTables<'_>,
    numeric: Option<u8>,
    left: &I,
    right: &J,
    class: u32,
) -> Option<(I, J, u32)>
    requires left { I.can_next left.now }
    requires left_ends { IsFinite (I.remaining left.now) }
    requires right { J.can_next right.now }
    requires right_ends { IsFinite (J.remaining right.now) }
    ensures alike { IfSome result (λ rest. (end : ℕ) (a b : List ℕ) → AreAlikeSoFar checked.now end numeric I.next_gives J.next_gives a b left.now right.now class class
        → AreAlikeSoFar checked.now end numeric I.next_gives J.next_gives a b rest.0 rest.1 rest.2 rest.2) }
    ensures left_nearer { IfSome result (λ rest. IsNearerEnd I.can_next I.remaining left.now rest.0) }
    ensures right_nearer { IfSome result (λ rest. IsNearerEnd J.can_next J.remaining right.now rest.1) }
{
    if left.peek_low() != right.peek_low() {
        return None;
    }
    let mut left = left.again();
    let mut right = right.again();
    let first = left.next()?;
    let second = right.next()?;
    if first != second {
        return None;
    }
    let (_primary, trail) = checked.flat_primary(numeric, first, class)?;
    Some((left, right, trail))
}

/// Reads two texts, after a character of a class in both, side by side as long as looks tell that their next characters are the
/// same boundary below U+0080; answers what is left of both, and the class of the last character. No memory is taken.
#[inline(always)]
pub(super) fn pass_low<I: PeekLow + Drop, J: PeekLow + Drop>(
    checked: &CheckedTables<'_>,
    left: I,
    right: J,
    class: u32,
) -> (I, J, u32)
    requires left { I.can_next left }
    requires left_ends { IsFinite (I.remaining left) }
    requires right { J.can_next right }
    requires right_ends { IsFinite (J.remaining right) }
    ensures alike { (numeric : Option ℕ) (end : ℕ) (a b : List ℕ) → AreAlikeSoFar checked.now end numeric I.next_gives J.next_gives a b left right class class
        → AreAlikeSoFar checked.now end numeric I.next_gives J.next_gives a b result.0 result.1 result.2 result.2 }
    ensures left { I.can_next result.0 }
    ensures left_ends { IsFinite (I.remaining result.0) }
    ensures left_nearer { size (I.remaining result.0) ≤ size (I.remaining left) }
    ensures right { J.can_next result.1 }
    ensures right_ends { IsFinite (J.remaining result.1) }
{
    let mut left = left;
    let mut right = right;
    let mut class = class;
    'common: loop {
        let low = left.peek_low();
        if low >= 0x80 || right.peek_low() != low {
            return (left, right, class);
        }
        if checked.boundary_primary(low as char) == 0 {
            return (left, right, class);
        }
        let _first = left.next();
        let _second = right.next();
        class = 0;
    }
}

/// Reads two texts, each after a character of a class, side by side as long as their next characters are the same, after the same
/// class, and read flat. No memory is taken.
#[inline(always)]
pub(super) fn pass_common<I: PeekLow + Drop, J: PeekLow + Drop>(
    checked: &CheckedTables<'_>,
    numeric: Option<u8>,
    left: I,
    right: J,
    left_class: u32,
    right_class: u32,
) -> (I, J, u32, u32)
    requires left { I.can_next left }
    requires left_ends { IsFinite (I.remaining left) }
    requires right { J.can_next right }
    requires right_ends { IsFinite (J.remaining right) }
    ensures alike { (end : ℕ) (a b : List ℕ) → AreAlikeSoFar checked.now end numeric I.next_gives J.next_gives a b left right left_class right_class
        → AreAlikeSoFar checked.now end numeric I.next_gives J.next_gives a b result.0 result.1 result.2 result.3 }
    ensures left { I.can_next result.0 }
    ensures left_ends { IsFinite (I.remaining result.0) }
    ensures left_nearer { size (I.remaining result.0) ≤ size (I.remaining left) }
    ensures right { J.can_next result.1 }
    ensures right_ends { IsFinite (J.remaining result.1) }
{
    if left_class != right_class {
        return (left, right, left_class, right_class);
    }
    let mut left = left;
    let mut right = right;
    let mut class = left_class;
    'common: loop {
        let (left_here, right_here, class_here) = pass_low(checked, left, right, class);
        let Some((left_rest, right_rest, trail)) = pass_same(
            checked,
            numeric,
            &left_here,
            &right_here,
            class_here,
        ) else {
            return (left_here, right_here, class_here, class_here);
        };
        left = left_rest;
        right = right_rest;
        class = trail;
    }
}

/// The order of two texts that were read up to primaries that are alike, where looks tell the next characters of both, and these
/// are boundaries with primaries that count and differ; `None` for others.
#[inline(always)]
pub(super) fn order_by_low<I: PeekLow + Drop, J: PeekLow + Drop>(
    checked: &CheckedTables<'_>,
    end: u32,
    left: &I,
    right: &J,
) -> Option<Ordering>
    requires left { I.can_next left.now }
    requires right { J.can_next right.now }
    ensures { IfSome result (λ order. (numeric : Option ℕ) (a b : List ℕ) (left_class right_class : ℕ) → All IsScalar a → All IsScalar b
        → AreAlikeSoFar checked.now end numeric I.next_gives J.next_gives a b left.now right.now left_class right_class
        → IsByPrimaries checked.now end numeric a b (Decided order)) }
{
    checked.canonical().keep_promise();
    let low = left.peek_low();
    let other = right.peek_low();
    if low >= 0x80 || other >= 0x80 {
        return None;
    }
    let first = checked.boundary_primary(low as char);
    let second = checked.boundary_primary(other as char);
    if !counts(first, end) || !counts(second, end) {
        return None;
    }
    let order = order_of_primaries(checked, first, second);
    if order == Ordering::Equal {
        return None;
    }
    let mut left = left.again();
    let mut right = right.again();
    let _first = left.next();
    let _second = right.next();
    Some(order)
}

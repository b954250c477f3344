//! The comparison of texts that are read flat by their primaries, while they are read.

ghost use Rattle.std.specs.Char.{IsScalar};
ghost use Rattle.std.specs.Iterator.{IsFinite, IsNearerEnd};
ghost use Rattle.std.specs.Prelude.{◌≡◌, ℕ, All, List, IfSome, Some, true};
ghost use Rattle.icu_normalizer_core.specs.Iter.{Spells};
ghost use Rattle.icu_collator_core.specs.FlatSteps.{IsNextPrimary, IsReadUpTo, IsSettled, StepsTo};
ghost use Rattle.icu_collator_core.specs.declared.flat.steps.FlatStep.TheVariants.{Primary};
ghost use Rattle.icu_collator.specs.FlatOrders.{AreAlikeSoFar, AreSettled, IsByPrimaries, IsMeeting, IsMet, IsNextCounted, does_count};
ghost use Rattle.icu_collator.specs.declared.compare.flat.Meeting.TheVariants.{Alike};

use super::common::{counts, order_by_low, pass_common, pass_low};
use crate::encodings::PeekLow;
use crate::levels::weights::reordered;
use icu_collator_core::checked::CheckedTables;
use icu_collator_core::flat::FlatStep;
use std::cmp::Ordering;

/// What the next primaries of two texts say.
#[derive(Clone, Copy)]
pub(super) enum Meeting {
    /// They are alike, as they are reordered.
    Alike,
    /// Both texts end.
    BothEnd,
    /// They differ, or one text ends: this is the order.
    Parted(Ordering),
    /// A text isn't read flat.
    Stopped,
}

/// What the next primaries say, each as it is before reordering, by these as they are reordered.
#[inline(always)]
fn meet_reordered(checked: &CheckedTables<'_>, first: u32, second: u32) -> Meeting
    ensures { IsMeeting checked.now (Primary first) (Primary second) result }
{
    let first = reordered(checked.tables(), first);
    let second = reordered(checked.tables(), second);
    if first < second {
        Meeting::Parted(Ordering::Less)
    } else if second < first {
        Meeting::Parted(Ordering::Greater)
    } else {
        Meeting::Alike
    }
}

/// What the next primaries say, each as it is before reordering.
#[inline(always)]
fn meet_primaries(checked: &CheckedTables<'_>, first: u32, second: u32) -> Meeting
    ensures { IsMeeting checked.now (Primary first) (Primary second) result }
{
    if first == second {
        Meeting::Alike
    } else {
        meet_reordered(checked, first, second)
    }
}

/// What comes next in two texts, as it is before reordering.
#[inline(always)]
pub(super) fn meet(checked: &CheckedTables<'_>, first: FlatStep, second: FlatStep) -> Meeting
    ensures { IsMeeting checked.now first second result }
{
    match first {
        FlatStep::Primary(primary) => match second {
            FlatStep::Primary(other) => meet_primaries(checked, primary, other),
            FlatStep::End => Meeting::Parted(Ordering::Greater),
            FlatStep::Other => Meeting::Stopped,
        },
        FlatStep::End => match second {
            FlatStep::Primary(_other) => Meeting::Parted(Ordering::Less),
            FlatStep::End => Meeting::BothEnd,
            FlatStep::Other => Meeting::Stopped,
        },
        FlatStep::Other => Meeting::Stopped,
    }
}

/// What the primaries of two texts say.
#[derive(Clone, Copy)]
pub(super) enum ByPrimaries {
    /// Those that count differ: this is the order.
    Decided(Ordering),
    /// Those that count are the same.
    Same,
    /// A text isn't read flat, as far as it was read.
    NotFlat,
}

/// Reads a text flat, from the index to which it was read so, after a character of a class, up to its next primary that counts, where
/// variable ones end before this one: answers that, the text after it, and the class of the last character that was read, 256 where a
/// boundary has to follow. No memory is taken.
#[inline(always)]
fn next_primary<I: Iterator<Item = char> + Drop>(
    checked: &CheckedTables<'_>,
    end: u32,
    numeric: Option<u8>,
    chars: I,
    class: u32,
) -> (FlatStep, I, u32)
    requires can { I.can_next chars }
    requires finite { IsFinite (I.remaining chars) }
    ensures next { (text items : List ℕ) → IsReadUpTo checked.now numeric I.next_gives text chars class items
        → IsNextCounted checked.now end numeric I.next_gives text items result.0 result.1 result.2 }
    ensures counts { (p : ℕ) → result.0 ≡ Primary p → does_count end p ≡ true }
    ensures nearer { (p : ℕ) → result.0 ≡ Primary p → IsNearerEnd I.can_next I.remaining chars result.1 }
{
    checked.canonical().keep_promise();
    let mut chars = chars;
    let mut class = class;
    'reading: while let Some(c) = chars.next() {
        let boundary = checked.boundary_primary(c);
        if counts(boundary, end) {
            return (FlatStep::Primary(boundary), chars, 0);
        }
        let Some((primary, trail)) = checked.flat_primary(numeric, c, class) else {
            return (FlatStep::Other, chars, class);
        };
        class = trail;
        if counts(primary, end) {
            return (FlatStep::Primary(primary), chars, class);
        }
    }
    (FlatStep::End, chars, class)
}

/// Whether two texts that were read to what comes next in both part there: whether what they were read to stands, whatever else
/// they hold.
#[inline(always)]
fn part<I: Iterator<Item = char> + Drop, J: Iterator<Item = char> + Drop>(
    checked: &CheckedTables<'_>,
    numeric: Option<u8>,
    first: FlatStep,
    second: FlatStep,
    left: I,
    right: J,
    left_class: u32,
    right_class: u32,
) -> bool
    requires left { (p : ℕ) → first ≡ Primary p → I.can_next left }
    requires right { (p : ℕ) → second ≡ Primary p → J.can_next right }
    ensures { result ≡ true → (a b lefts rights : List ℕ)
        → IsNextPrimary checked.now numeric I.next_gives a lefts first left left_class
        → IsNextPrimary checked.now numeric J.next_gives b rights second right right_class
        → IsSettled checked.now numeric a lefts first × IsSettled checked.now numeric b rights second }
{
    let mut left = left;
    let mut right = right;
    if !checked.is_settled(numeric, first, &mut left, left_class) {
        return false;
    }
    checked.is_settled(numeric, second, &mut right, right_class)
}

/// What comes next in two texts, as it is before reordering, where both were read to after it, each after a character of a class:
/// they part only if both primaries stand, whatever else the texts hold.
#[inline(always)]
fn meet_settled<I: PeekLow + Drop, J: PeekLow + Drop>(
    checked: &CheckedTables<'_>,
    numeric: Option<u8>,
    first: FlatStep,
    second: FlatStep,
    left: &I,
    right: &J,
    left_class: u32,
    right_class: u32,
) -> Meeting
    requires left { (p : ℕ) → first ≡ Primary p → I.can_next left.now }
    requires right { (p : ℕ) → second ≡ Primary p → J.can_next right.now }
    ensures meets { IsMeeting checked.now first second result }
    ensures settled { (a b lefts rights : List ℕ) → IsNextPrimary checked.now numeric I.next_gives a lefts first left.now left_class
        → IsNextPrimary checked.now numeric J.next_gives b rights second right.now right_class
        → AreSettled checked.now numeric a b lefts rights first second result }
{
    let meeting = meet(checked, first, second);
    if let Meeting::Parted(_order) = meeting {
        if left_class < 256 && right_class < 256 {
            return meeting;
        }
        let stands = part(
            checked,
            numeric,
            first,
            second,
            left.again(),
            right.again(),
            left_class,
            right_class,
        );
        if !stands {
            return Meeting::Stopped;
        }
    }
    meeting
}

/// What the next primaries that count say of two texts that were read up to such that are alike, each after a character of a class;
/// with the texts after these primaries, and the classes of the last characters. No memory is taken.
#[inline(always)]
fn meet_next<I: PeekLow + Drop, J: PeekLow + Drop>(
    checked: &CheckedTables<'_>,
    end: u32,
    numeric: Option<u8>,
    left: I,
    right: J,
    left_class: u32,
    right_class: u32,
) -> (Meeting, I, J, u32, u32)
    requires left { I.can_next left }
    requires left_ends { IsFinite (I.remaining left) }
    requires right { J.can_next right }
    requires right_ends { IsFinite (J.remaining right) }
    ensures next { (a b : List ℕ) → All IsScalar a → All IsScalar b
        → AreAlikeSoFar checked.now end numeric I.next_gives J.next_gives a b left right left_class right_class
        → IsMet checked.now end numeric I.next_gives J.next_gives a b result.0 result.1 result.2 result.3 result.4 }
    ensures left_nearer { result.0 ≡ Alike → IsNearerEnd I.can_next I.remaining left result.1 }
    ensures right_nearer { result.0 ≡ Alike → IsNearerEnd J.can_next J.remaining right result.2 }
{
    let (one, left_rest, left_last) = next_primary(checked, end, numeric, left, left_class);
    let (two, right_rest, right_last) = next_primary(checked, end, numeric, right, right_class);
    let meeting = meet_settled(
        checked,
        numeric,
        one,
        two,
        &left_rest,
        &right_rest,
        left_last,
        right_last,
    );
    (meeting, left_rest, right_rest, left_last, right_last)
}

/// The step of a character after one of a class, where that of another is known: the same character after the same class is looked
/// up once.
#[inline(always)]
fn step_of_second(
    checked: &CheckedTables<'_>,
    numeric: Option<u8>,
    first: char,
    before: u32,
    step: (u32, u32),
    second: char,
    class: u32,
) -> Option<(u32, u32)>
    requires { StepsTo checked.now numeric first before step.0 step.1 }
    ensures { IfSome result (λ found. StepsTo checked.now numeric second class found.0 found.1) }
{
    if first == second && before == class {
        return Some(step);
    }
    checked.flat_primary(numeric, second, class)
}

/// What the next characters of two texts say, that were read up to primaries that are alike, each after a character of a class, where
/// one look at each tells; with the texts after them, and their classes. `None` tells nothing. No memory is taken.
#[inline(always)]
fn meet_characters<I: PeekLow + Drop, J: PeekLow + Drop>(
    checked: &CheckedTables<'_>,
    end: u32,
    numeric: Option<u8>,
    left: &I,
    right: &J,
    left_class: u32,
    right_class: u32,
) -> (Option<Meeting>, I, J, u32, u32)
    requires left { I.can_next left.now }
    requires left_ends { IsFinite (I.remaining left.now) }
    requires right { J.can_next right.now }
    requires right_ends { IsFinite (J.remaining right.now) }
    ensures next { IfSome result.0 (λ meeting. (a b : List ℕ) → All IsScalar a → All IsScalar b
        → AreAlikeSoFar checked.now end numeric I.next_gives J.next_gives a b left.now right.now left_class right_class
        → IsMet checked.now end numeric I.next_gives J.next_gives a b meeting result.1 result.2 result.3 result.4) }
    ensures left_nearer { result.0 ≡ Some Alike → IsNearerEnd I.can_next I.remaining left.now result.1 }
    ensures right_nearer { result.0 ≡ Some Alike → IsNearerEnd J.can_next J.remaining right.now result.2 }
{
    checked.canonical().keep_promise();
    let mut left = left.again();
    let mut right = right.again();
    let Some(c) = left.next() else {
        return (None, left, right, left_class, right_class);
    };
    let Some(d) = right.next() else {
        return (None, left, right, left_class, right_class);
    };
    let Some(first) = checked.flat_primary(numeric, c, left_class) else {
        return (Some(Meeting::Stopped), left, right, left_class, right_class);
    };
    let Some(second) = step_of_second(checked, numeric, c, left_class, first, d, right_class) else {
        return (Some(Meeting::Stopped), left, right, left_class, right_class);
    };
    if first.0 == second.0 {
        return (Some(Meeting::Alike), left, right, first.1, second.1);
    }
    if !counts(first.0, end) || !counts(second.0, end) {
        return (None, left, right, left_class, right_class);
    }
    let one = FlatStep::Primary(first.0);
    let two = FlatStep::Primary(second.0);
    let meeting = meet_settled(checked, numeric, one, two, &left, &right, first.1, second.1);
    (Some(meeting), left, right, first.1, second.1)
}

/// The same, by all that has to be read up to the next primaries that count, where those characters don't tell.
#[inline(always)]
fn meet_either<I: PeekLow + Drop, J: PeekLow + Drop>(
    checked: &CheckedTables<'_>,
    end: u32,
    numeric: Option<u8>,
    left: I,
    right: J,
    left_class: u32,
    right_class: u32,
) -> (Meeting, I, J, u32, u32)
    requires left { I.can_next left }
    requires left_ends { IsFinite (I.remaining left) }
    requires right { J.can_next right }
    requires right_ends { IsFinite (J.remaining right) }
    ensures next { (a b : List ℕ) → All IsScalar a → All IsScalar b
        → AreAlikeSoFar checked.now end numeric I.next_gives J.next_gives a b left right left_class right_class
        → IsMet checked.now end numeric I.next_gives J.next_gives a b result.0 result.1 result.2 result.3 result.4 }
    ensures left_nearer { result.0 ≡ Alike → IsNearerEnd I.can_next I.remaining left result.1 }
    ensures right_nearer { result.0 ≡ Alike → IsNearerEnd J.can_next J.remaining right result.2 }
{
    let (told, left_rest, right_rest, left_last, right_last) = meet_characters(
        checked,
        end,
        numeric,
        &left,
        &right,
        left_class,
        right_class,
    );
    match told {
        Some(meeting) => (meeting, left_rest, right_rest, left_last, right_last),
        None => meet_next(checked, end, numeric, left, right, left_class, right_class),
    }
}

/// Reads two texts, that were read up to primaries that are alike, each after a character of a class, on side by side as long as their
/// primaries that count are alike. No memory is taken.
#[inline(always)]
fn by_further_primaries<I: PeekLow + Drop, J: PeekLow + Drop>(
    checked: &CheckedTables<'_>,
    end: u32,
    numeric: Option<u8>,
    left: I,
    right: J,
    left_class: u32,
    right_class: u32,
) -> ByPrimaries
    requires left { I.can_next left }
    requires left_ends { IsFinite (I.remaining left) }
    requires right { J.can_next right }
    requires right_ends { IsFinite (J.remaining right) }
    ensures { (a b : List ℕ) → All IsScalar a → All IsScalar b
        → AreAlikeSoFar checked.now end numeric I.next_gives J.next_gives a b left right left_class right_class
        → IsByPrimaries checked.now end numeric a b result }
{
    let mut left = left;
    let mut right = right;
    let mut left_class = left_class;
    let mut right_class = right_class;
    'primaries: loop {
        let (meeting, left_rest, right_rest, left_last, right_last) = meet_next(
            checked,
            end,
            numeric,
            left,
            right,
            left_class,
            right_class,
        );
        match meeting {
            Meeting::Alike => {}
            Meeting::BothEnd => return ByPrimaries::Same,
            Meeting::Parted(order) => return ByPrimaries::Decided(order),
            Meeting::Stopped => return ByPrimaries::NotFlat,
        }
        let (left_here, right_here, left_before, right_before) = pass_common(
            checked, numeric, left_rest, right_rest, left_last, right_last,
        );
        left = left_here;
        right = right_here;
        left_class = left_before;
        right_class = right_before;
    }
}

/// Whether a look tells that a character of three or four bytes of UTF-8 comes next: those of many scripts are read faster with a look
/// at the next one (Thai names 1.3 to 1.5 times as fast).
#[inline(always)]
fn is_long(low: u8) -> bool {
    (0xE0..0xF8).contains(&low)
}

/// Reads two texts side by side as long as their primaries that count are alike, if they don't go on with long characters after what
/// a look tells. No memory is taken.
#[inline(always)]
pub(super) fn by_primaries<I: PeekLow + Drop, J: PeekLow + Drop>(
    checked: &CheckedTables<'_>,
    end: u32,
    numeric: Option<u8>,
    left: I,
    right: J,
) -> ByPrimaries
    requires left { I.can_next left }
    requires left_ends { IsFinite (I.remaining left) }
    requires right { J.can_next right }
    requires right_ends { IsFinite (J.remaining right) }
    ensures { (a b : List ℕ) → All IsScalar a → All IsScalar b → Spells I.next_gives left a → Spells J.next_gives right b
        → IsByPrimaries checked.now end numeric a b result }
{
    let (left, right, class) = pass_low(checked, left, right, 0);
    if let Some(order) = order_by_low(checked, end, &left, &right) {
        return ByPrimaries::Decided(order);
    }
    if is_long(left.peek_low()) || is_long(right.peek_low()) {
        return ByPrimaries::NotFlat;
    }
    by_further_primaries(checked, end, numeric, left, right, class, class)
}

/// Reads two texts, that were read up to primaries that are alike, each after a character of a class, on character by character as
/// long as their primaries that count are alike. No memory is taken.
#[inline(always)]
fn by_further_characters<I: PeekLow + Drop, J: PeekLow + Drop>(
    checked: &CheckedTables<'_>,
    end: u32,
    numeric: Option<u8>,
    left: I,
    right: J,
    class: u32,
) -> ByPrimaries
    requires left { I.can_next left }
    requires left_ends { IsFinite (I.remaining left) }
    requires right { J.can_next right }
    requires right_ends { IsFinite (J.remaining right) }
    ensures { (a b : List ℕ) → All IsScalar a → All IsScalar b
        → AreAlikeSoFar checked.now end numeric I.next_gives J.next_gives a b left right class class
        → IsByPrimaries checked.now end numeric a b result }
{
    let mut left = left;
    let mut right = right;
    let mut left_class = class;
    let mut right_class = class;
    'primaries: loop {
        let (meeting, left_rest, right_rest, left_last, right_last) = meet_either(
            checked,
            end,
            numeric,
            left,
            right,
            left_class,
            right_class,
        );
        match meeting {
            Meeting::Alike => {}
            Meeting::BothEnd => return ByPrimaries::Same,
            Meeting::Parted(order) => return ByPrimaries::Decided(order),
            Meeting::Stopped => return ByPrimaries::NotFlat,
        }
        left = left_rest;
        right = right_rest;
        left_class = left_last;
        right_class = right_last;
    }
}

/// The same as `by_primaries`, for texts in which primaries that don't count are rare.
#[inline(always)]
pub(super) fn by_characters<I: PeekLow + Drop, J: PeekLow + Drop>(
    checked: &CheckedTables<'_>,
    end: u32,
    numeric: Option<u8>,
    left: I,
    right: J,
) -> ByPrimaries
    requires left { I.can_next left }
    requires left_ends { IsFinite (I.remaining left) }
    requires right { J.can_next right }
    requires right_ends { IsFinite (J.remaining right) }
    ensures { (a b : List ℕ) → All IsScalar a → All IsScalar b → Spells I.next_gives left a → Spells J.next_gives right b
        → IsByPrimaries checked.now end numeric a b result }
{
    let (left, right, class) = pass_low(checked, left, right, 0);
    if let Some(order) = order_by_low(checked, end, &left, &right) {
        return ByPrimaries::Decided(order);
    }
    by_further_characters(checked, end, numeric, left, right, class)
}

//! The comparison of texts by their primaries, each read with a look at the next character: two that are noted as a pair are read
//! together.

ghost use Rattle.std.specs.Char.{IsScalar};
ghost use Rattle.std.specs.Iterator.{IsFinite};
ghost use Rattle.std.specs.Prelude.{◌≡◌, ◌++◌, ℕ, [], All, IfSome, List, MatchOption, Some, true};
ghost use Rattle.icu_normalizer_core.specs.Iter.{Spells};
ghost use Rattle.icu_collator_core.specs.FlatSteps.{BeginsWithPrimaries, primaries_in};
ghost use Rattle.icu_collator_core.specs.NextPrimaries.{primaries_listed};
ghost use Rattle.icu_collator_core.specs.declared.flat.steps.FlatStep.TheVariants.{Primary};
ghost use Rattle.icu_collator.specs.Aheads.{HasPrimary, IsLeft, IsMetAhead, IsNextAhead, IsReadAhead, without_first};
ghost use Rattle.icu_collator.specs.FlatOrders.{IsByPrimaries};

use super::common::counts;
use super::flat::{ByPrimaries, Meeting, meet};
use crate::encodings::PeekLow;
use icu_collator_core::checked::CheckedTables;
use icu_collator_core::flat::{FlatStep, NextPrimaries};

/// How many primaries of a text are met, and up to each how many characters are read.
const MOST: usize = 256;

/// A text that is read with a look at the next character.
#[derive(Drop)]
struct Ahead<I> {
    /// The text after what was read, and after the character that is held.
    chars: I,
    /// The next character, where it was taken.
    held: Option<char>,
    /// The primaries that were read and come next, and the class of the last character that was read.
    read: NextPrimaries,
}

/// Whether a primary is left of those that were read.
#[inline(always)]
fn is_any_left(read: NextPrimaries) -> bool
    ensures { HasPrimary read result }
{
    if read.first != 0 {
        return true;
    }
    if read.second != 0 {
        return true;
    }
    if read.third != 0 {
        return true;
    }
    false
}

/// Those that are left behind the first.
#[inline(always)]
fn behind_first(read: NextPrimaries) -> NextPrimaries
    ensures { result ≡ without_first read }
{
    NextPrimaries {
        first: read.second,
        second: read.third,
        third: 0,
        class: read.class,
    }
}

/// Takes the next character of a text, `None` at its end.
#[inline(always)]
fn take_next<I: PeekLow + Drop>(held: Option<char>, chars: I) -> (Option<char>, I)
    requires can { I.can_next chars }
    requires finite { IsFinite (I.remaining chars) }
    ensures taken { (rest : List ℕ) → IsLeft I.next_gives held chars rest → MatchOption result.0 (rest ≡ []) (λ c. IsLeft I.next_gives (Some c) result.1 rest) }
    ensures can { IfSome result.0 (λ _. I.can_next result.1) }
    ensures finite { IfSome result.0 (λ _. IsFinite (I.remaining result.1)) }
{
    let mut chars = chars;
    match held {
        Some(c) => (Some(c), chars),
        None => {
            let next = chars.next();
            (next, chars)
        }
    }
}

/// Reads a character after one of a class, together with the next of the text where both are noted as a pair; `None` where it isn't
/// read flat there.
#[inline(always)]
fn read_ahead<I: PeekLow + Drop>(
    checked: &CheckedTables<'_>,
    numeric: Option<u8>,
    c: char,
    class: u32,
    chars: &I,
) -> Option<Ahead<I>>
    requires can { I.can_next chars.now }
    requires finite { IsFinite (I.remaining chars.now) }
    ensures read { IfSome result (λ text. (t items : List ℕ) → IsReadAhead checked.now numeric I.next_gives t (Some c) chars.now class items
        → (new : List ℕ) × IsReadAhead checked.now numeric I.next_gives t text.held text.chars text.read.class new
        × (primaries_in new ≡ primaries_in items ++ primaries_listed text.read)) }
    ensures can { IfSome result (λ text. I.can_next text.chars) }
    ensures finite { IfSome result (λ text. IsFinite (I.remaining text.chars)) }
{
    let read = checked.flat_primaries(numeric, c, class)?;
    if read.class < 256 && !checked.are_high_prefixed() {
        return Some(Ahead {
            chars: chars.again(),
            held: None,
            read,
        });
    }
    let mut rest = chars.again();
    let Some(next) = rest.next() else {
        return Some(Ahead {
            chars: chars.again(),
            held: None,
            read,
        });
    };
    if read.class < 256 && !checked.may_join(next) {
        return Some(Ahead {
            chars: rest,
            held: Some(next),
            read,
        });
    }
    match checked.pair_primaries(c, next) {
        Some(pair) => Some(Ahead {
            chars: rest,
            held: None,
            read: pair,
        }),
        None => Some(Ahead {
            chars: rest,
            held: Some(next),
            read,
        }),
    }
}

/// Reads a text on up to its next primary that counts, where variable ones end before this one.
#[inline(always)]
fn next_ahead<I: PeekLow + Drop>(
    checked: &CheckedTables<'_>,
    end: u32,
    numeric: Option<u8>,
    text: Ahead<I>,
) -> (FlatStep, Ahead<I>)
    requires can { I.can_next text.chars }
    requires finite { IsFinite (I.remaining text.chars) }
    ensures next { (t ps : List ℕ) → IsMetAhead checked.now end numeric I.next_gives t text.held text.chars text.read ps
        → IsNextAhead checked.now end numeric I.next_gives t ps result.0 result.1.held result.1.chars result.1.read }
    ensures can { (p : ℕ) → result.0 ≡ Primary p → I.can_next result.1.chars }
    ensures finite { (p : ℕ) → result.0 ≡ Primary p → IsFinite (I.remaining result.1.chars) }
{
    let mut chars = text.chars;
    let mut held = text.held;
    let mut read = text.read;
    for _turn in 0..MOST {
        if is_any_left(read) {
            let primary = read.first;
            read = behind_first(read);
            if counts(primary, end) {
                return (FlatStep::Primary(primary), Ahead { chars, held, read });
            }
            continue;
        }
        let (taken, rest) = take_next(held, chars);
        let Some(c) = taken else {
            return (
                FlatStep::End,
                Ahead {
                    chars: rest,
                    held: None,
                    read,
                },
            );
        };
        let Some(next) = read_ahead(checked, numeric, c, read.class, &rest) else {
            return (
                FlatStep::Other,
                Ahead {
                    chars: rest,
                    held: None,
                    read,
                },
            );
        };
        chars = next.chars;
        held = next.held;
        read = next.read;
    }
    (FlatStep::Other, Ahead { chars, held, read })
}

/// Whether what was read of a text stands, whatever else it holds: nothing that follows can stand before its last character, or next
/// comes a starter that may stand there, or the end.
#[inline(always)]
fn stands<I: PeekLow + Drop>(
    checked: &CheckedTables<'_>,
    numeric: Option<u8>,
    text: Ahead<I>,
) -> bool
    requires can { I.can_next text.chars }
    requires finite { IsFinite (I.remaining text.chars) }
    ensures { result ≡ true → (t items : List ℕ) → All IsScalar t → IsReadAhead checked.now numeric I.next_gives t text.held text.chars text.read.class items
        → BeginsWithPrimaries checked.now numeric t (primaries_in items) }
{
    checked.canonical().keep_promise();
    let class = text.read.class;
    if class == 0 {
        return true;
    }
    let (taken, _rest) = take_next(text.held, text.chars);
    match taken {
        Some(c) => checked.starts_behind(numeric, c, class),
        None => true,
    }
}

/// The same of a text that was read up to a primary; of another `true`.
#[inline(always)]
fn stands_at<I: PeekLow + Drop>(
    checked: &CheckedTables<'_>,
    numeric: Option<u8>,
    step: FlatStep,
    text: Ahead<I>,
) -> bool
    requires can { (p : ℕ) → step ≡ Primary p → I.can_next text.chars }
    requires finite { (p : ℕ) → step ≡ Primary p → IsFinite (I.remaining text.chars) }
    ensures { result ≡ true → (p : ℕ) → step ≡ Primary p → (t items : List ℕ) → All IsScalar t
        → IsReadAhead checked.now numeric I.next_gives t text.held text.chars text.read.class items
        → BeginsWithPrimaries checked.now numeric t (primaries_in items) }
{
    match step {
        FlatStep::Primary(_primary) => stands(checked, numeric, text),
        FlatStep::End => true,
        FlatStep::Other => true,
    }
}

/// Reads two texts side by side as long as their primaries that count are alike, each with a look at the next character; up to 256
/// primaries. No memory is taken.
#[inline(always)]
pub(super) fn by_aheads<I: PeekLow + Drop, J: PeekLow + Drop>(
    checked: &CheckedTables<'_>,
    end: u32,
    numeric: Option<u8>,
    left: I,
    right: J,
) -> ByPrimaries
    requires left { I.can_next left }
    requires left_ends { IsFinite (I.remaining left) }
    requires right { J.can_next right }
    requires right_ends { IsFinite (J.remaining right) }
    ensures { (a b : List ℕ) → All IsScalar a → All IsScalar b → Spells I.next_gives left a → Spells J.next_gives right b
        → IsByPrimaries checked.now end numeric a b result }
{
    let mut left = Ahead {
        chars: left,
        held: None,
        read: NextPrimaries::one(0, 0),
    };
    let mut right = Ahead {
        chars: right,
        held: None,
        read: NextPrimaries::one(0, 0),
    };
    for _turn in 0..MOST {
        let (first, left_rest) = next_ahead(checked, end, numeric, left);
        let (second, right_rest) = next_ahead(checked, end, numeric, right);
        match meet(checked, first, second) {
            Meeting::Alike => {}
            Meeting::BothEnd => return ByPrimaries::Same,
            Meeting::Stopped => return ByPrimaries::NotFlat,
            Meeting::Parted(order) => {
                if !stands_at(checked, numeric, first, left_rest) {
                    return ByPrimaries::NotFlat;
                }
                if !stands_at(checked, numeric, second, right_rest) {
                    return ByPrimaries::NotFlat;
                }
                return ByPrimaries::Decided(order);
            }
        }
        left = left_rest;
        right = right_rest;
    }
    ByPrimaries::NotFlat
}

//! Where two texts first differ, and the last boundary before that.

ghost use Rattle.std.specs.Iterator.{IsFinite};
ghost use Rattle.std.specs.Prelude.{◌≡◌, ◌⊎◌, ℕ, List, Option};
ghost use Rattle.icu_normalizer_core.specs.Iter.{Spells};
ghost use Rattle.icu_collator_core.specs.FlatNotes.{BeginsApart};
ghost use Rattle.icu_collator.specs.Fronts.{PartAt};
ghost use Rattle.icu_collator.specs.CommonBoundaries.{BeginAt};

use crate::common_front::FirstDifference;
use crate::encodings::PeekLow;
use icu_collator_core::checked::CheckedTables;

/// Two texts from a boundary on that they have in common, or from their beginnings.
#[derive(Drop)]
pub(super) struct CommonBoundary<I, J> {
    /// How many characters of both stand before it.
    pub(super) index: usize,
    /// The left text from there on.
    pub(super) left: I,
    /// The right text from there on.
    pub(super) right: J,
}

/// Of two boundaries the later one, if a note tells that the full list of the character there begins with one. No memory is taken.
#[inline(always)]
fn later_boundary<I: PeekLow + Drop, J: PeekLow + Drop>(
    checked: &CheckedTables<'_>,
    c: char,
    later: CommonBoundary<I, J>,
    earlier: CommonBoundary<I, J>,
) -> CommonBoundary<I, J>
    ensures { ((result ≡ later) × ((numeric : Option ℕ) → BeginsApart checked.now numeric c)) ⊎ (result ≡ earlier) }
{
    if checked.begins_apart(c) {
        return later;
    }
    earlier
}

/// Where two texts first differ, and the last boundary before that on which a note tells. No memory is taken.
#[inline(always)]
pub(super) fn difference_and_boundary<I: PeekLow + Drop, J: PeekLow + Drop>(
    checked: &CheckedTables<'_>,
    left: I,
    right: J,
) -> (FirstDifference, CommonBoundary<I, J>)
    requires left { I.can_next left }
    requires left_ends { IsFinite (I.remaining left) }
    requires right { J.can_next right }
    requires right_ends { IsFinite (J.remaining right) }
    ensures parts { (a b : List ℕ) → Spells I.next_gives left a → Spells J.next_gives right b → PartAt a b result.0.common result.0.left result.0.right }
    ensures boundary { (a b : List ℕ) → Spells I.next_gives left a → Spells J.next_gives right b
        → BeginAt checked.now I.next_gives J.next_gives a b result.1.index result.1.left result.1.right }
    ensures left { I.can_next result.1.left }
    ensures left_ends { IsFinite (I.remaining result.1.left) }
    ensures right { J.can_next result.1.right }
    ensures right_ends { IsFinite (J.remaining result.1.right) }
{
    let mut boundary = CommonBoundary {
        index: 0,
        left: left.again(),
        right: right.again(),
    };
    let mut left = left;
    let mut right = right;
    let mut common = 0usize;
    'common: loop {
        let here = CommonBoundary {
            index: common,
            left: left.again(),
            right: right.again(),
        };
        let second = right.next();
        match left.next() {
            Some(c) => match second {
                Some(d) => {
                    if c != d {
                        return (
                            FirstDifference {
                                common,
                                left: Some(c),
                                right: Some(d),
                            },
                            boundary,
                        );
                    }
                    boundary = later_boundary(checked, c, here, boundary);
                }
                None => {
                    return (
                        FirstDifference {
                            common,
                            left: Some(c),
                            right: None,
                        },
                        boundary,
                    );
                }
            },
            None => {
                return (
                    FirstDifference {
                        common,
                        left: None,
                        right: second,
                    },
                    boundary,
                );
            }
        }
        common = common.saturating_add(1);
    }
}

//! Where two texts first differ, and from where they have to be read to be compared.

ghost use Rattle.std.specs.Prelude.{◌≤◌, ℕ, List, drop, length};
ghost use Rattle.std.specs.Iterator.{IsFinite};
ghost use Rattle.icu_normalizer_core.specs.Iter.{Spells};

mod deciding;
mod differences;
mod next;
mod ordering;
mod passage;
mod places;
mod syllables;

pub(crate) use differences::{FirstDifference, first_difference};
pub(crate) use ordering::order_by_difference;
pub(crate) use passage::reading_start;

/// What an iterator has yet to give after so many characters. No memory is taken.
pub(crate) fn behind<I: Iterator<Item = char> + Drop>(chars: I, count: usize) -> I
    requires can { I.can_next chars }
    requires finite { IsFinite (I.remaining chars) }
    ensures text { (text : List ℕ) → Spells I.next_gives chars text → count ≤ length text → Spells I.next_gives result (drop count text) }
    ensures can { (text : List ℕ) → Spells I.next_gives chars text → count ≤ length text → I.can_next result }
    ensures finite { IsFinite (I.remaining result) }
{
    let mut chars = chars;
    for _ in 0..count {
        match chars.next() {
            Some(_passed) => {}
            None => return chars,
        }
    }
    chars
}

//! The search for an index from which texts may be read, by a test of characters.

ghost use Rattle.std.specs.Prelude.{◌≡◌, ℕ, List};
ghost use Rattle.std.specs.Iterator.{IsFinite};
ghost use Rattle.icu_normalizer_core.specs.Iter.{Spells};
ghost use Rattle.icu_collator.specs.Fronts.{IsPlaceToBegin};
ghost use Rattle.icu_collator.specs.declared.common_front.places.PassageKind.TheVariants.{GoesOn, Open};

/// What a character is to a search for an index from which texts may be read.
#[derive(Clone, Copy, Debug, PartialEq, Eq)]
pub(crate) enum PassageKind {
    /// Texts may be read from it, where two more such follow.
    Open,
    /// Nothing that stands before it counts for it.
    GoesOn,
    /// What stands before it may count.
    Closed,
}

/// A test of characters, for such a search.
pub(crate) trait PassageTest {
    ghost use Rattle.std.specs.Prelude.{◌≡◌, ℕ};
    ghost use Rattle.icu_collator.specs.declared.common_front.places.PassageKind.TheVariants.{GoesOn, Open};

    /// What an open character is.
    ghost passes: { Self → ℕ → Type 0 };

    /// What one is that goes on.
    ghost goes_on: { Self → ℕ → Type 0 };

    /// What a character is.
    fn passage(&self, c: char) -> PassageKind
        ensures open { result ≡ Open → passes self.now c }
        ensures goes_on { result ≡ GoesOn → goes_on self.now c };
}

/// What a character is, and closed before the first index that is looked at.
fn passage_at<T: PassageTest>(test: &T, c: char, read: usize, from: usize) -> PassageKind
    ensures open { result ≡ Open → T.passes test.now c }
    ensures goes_on { result ≡ GoesOn → T.goes_on test.now c }
{
    if read < from {
        return PassageKind::Closed;
    }
    test.passage(c)
}

/// The last index within the first `common` characters from which on three open characters stand, and between them none
/// that is closed; 0 where there is none among the last `searched` of these. No memory is taken.
pub(crate) fn place_to_begin<I: Iterator<Item = char> + Drop, T: PassageTest>(
    chars: I,
    common: usize,
    searched: usize,
    test: &T,
) -> usize
    requires can { I.can_next chars }
    requires finite { IsFinite (I.remaining chars) }
    ensures { (text : List ℕ) → Spells I.next_gives chars text → IsPlaceToBegin (T.passes test.now) (T.goes_on test.now) text common result }
{
    let from = common.saturating_sub(searched);
    let mut index = 0usize;
    let mut read = 0usize;
    let mut earlier = None;
    let mut latest = None;
    for c in chars {
        if read >= common {
            break;
        }
        match passage_at(test, c, read, from) {
            PassageKind::Open => {
                index = earlier.unwrap_or(index);
                earlier = latest;
                latest = Some(read);
            }
            PassageKind::GoesOn => {}
            PassageKind::Closed => {
                earlier = None;
                latest = None;
            }
        }
        read += 1;
    }
    index
}

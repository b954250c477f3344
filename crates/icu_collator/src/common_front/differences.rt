//! Where two texts first differ.

ghost use Rattle.std.specs.Prelude.{ℕ, List};
ghost use Rattle.std.specs.Iterator.{IsFinite};
ghost use Rattle.icu_normalizer_core.specs.Iter.{Spells};
ghost use Rattle.icu_collator.specs.Fronts.{PartAt};

/// How many characters two texts have in common at their beginnings, and the next one of each.
#[derive(Clone, Copy, Debug)]
pub(crate) struct FirstDifference {
    /// How many they have in common.
    pub(crate) common: usize,
    /// The next character of the left text, `None` at its end.
    pub(crate) left: Option<char>,
    /// The next character of the right text, `None` at its end.
    pub(crate) right: Option<char>,
}

/// Where two texts first differ. No memory is taken.
pub(crate) fn first_difference<I: Iterator<Item = char> + Drop, J: Iterator<Item = char> + Drop>(
    left: I,
    right: J,
) -> FirstDifference
    requires left_can { I.can_next left }
    requires left_finite { IsFinite (I.remaining left) }
    requires right_can { J.can_next right }
    ensures { (a b : List ℕ) → Spells I.next_gives left a → Spells J.next_gives right b → PartAt a b result.common result.left result.right }
{
    let mut right = right;
    let mut common = 0usize;
    for c in left {
        match right.next() {
            Some(d) => {
                if c != d {
                    return FirstDifference {
                        common,
                        left: Some(c),
                        right: Some(d),
                    };
                }
            }
            None => {
                return FirstDifference {
                    common,
                    left: Some(c),
                    right: None,
                };
            }
        }
        common = common.saturating_add(1);
    }
    FirstDifference {
        common,
        left: None,
        right: right.next(),
    }
}

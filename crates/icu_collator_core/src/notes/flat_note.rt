//! What is noted of a character by which texts are read flat.

ghost use Rattle.std.specs.Prelude.{◌≡◌, ◌&&◌, ℕ, true, IfSome, Option, None};
ghost use Rattle.icu_collator_core.specs.Acceptance.{CollationSource};
ghost use Rattle.icu_collator_core.specs.FlatNotes.{BeginsApart, IsBoundaryNote, IsFlatNote, IsPushed};

use super::flat_elements::FlatElements;
use icu_collator_types::elements::CollationElement;

/// In place of a class: after the character a boundary has to follow, or the end of the text.
pub(crate) const BEFORE_BOUNDARY: u16 = 256;

/// What is noted of a character: the elements of its full list, whatever stands before it; after them the highest canonical
/// combining class after which it may stand, 256 for a boundary, and the class of the last of the full list. Each character
/// of that is read alone, whatever stands after it, but where the last class is 256: there a boundary has to follow.
#[derive(Clone, Copy, Debug)]
pub(crate) enum FlatNote {
    /// Nothing: it isn't read so.
    Other,
    /// There is one element, whatever stands beside the character, which is a boundary and its own full list.
    Boundary(CollationElement),
    /// There is one element.
    One(CollationElement, u16, u16),
    /// The same, of a digit, where numbers aren't read.
    Digit(CollationElement, u16, u16),
    /// There are two elements.
    Two(CollationElement, CollationElement, u16, u16),
}

impl FlatNote {
    /// Appends the elements of a character that stands after one of this class, if it is read so, its marks stand in order, and
    /// there is room; answers the class of the last character of its full list. Where it isn't, the first may be appended.
    #[inline(always)]
    pub(crate) fn push<const N: usize>(
        &self,
        numeric: Option<u8>,
        before: u16,
        elements: &mut FlatElements<N>,
    ) -> Option<u16>
        ensures { IfSome result (λ trail. (source : CollationSource) (c : ℕ) → IsFlatNote source c self.now
            → IsPushed source numeric c before elements.old.items trail elements.new.items) }
    {
        if let FlatNote::Boundary(element) = *self {
            if elements.push(element) {
                return Some(0);
            }
            return None;
        }
        self.push_other(numeric, before, elements)
    }

    /// The element of a boundary that is its own full list, whatever stands beside it; `None` for another character.
    #[inline(always)]
    pub(crate) fn boundary_element(&self) -> Option<CollationElement>
        ensures { IfSome result (λ bits. (source : CollationSource) (c : ℕ) → IsFlatNote source c self.now → IsBoundaryNote source c bits) }
    {
        match *self {
            FlatNote::Boundary(element) => Some(element),
            _ => None,
        }
    }

    /// Whether the full list of the character begins with a boundary, as far as is noted; of a digit nothing is.
    #[inline(always)]
    pub(crate) fn is_boundary(&self) -> bool
        ensures { result ≡ true → (source : CollationSource) (numeric : Option ℕ) (c : ℕ) → IsFlatNote source c self.now → BeginsApart source numeric c }
    {
        match *self {
            FlatNote::Boundary(_element) => true,
            FlatNote::One(_element, lead, _trail) => lead >= BEFORE_BOUNDARY,
            FlatNote::Two(_first, _second, lead, _trail) => lead >= BEFORE_BOUNDARY,
            _ => false,
        }
    }

    /// Whether after the character a boundary has to follow, as far as is noted.
    pub(super) fn asks_boundary(&self) -> bool {
        match *self {
            FlatNote::One(_element, _lead, trail) => trail >= BEFORE_BOUNDARY,
            FlatNote::Two(_first, _second, _lead, trail) => trail >= BEFORE_BOUNDARY,
            _ => false,
        }
    }

    /// Whether the character is read flat after one of this class.
    #[inline(always)]
    pub(crate) fn is_flat_behind(&self, numeric: Option<u8>, before: u16) -> bool {
        match *self {
            FlatNote::Other => false,
            FlatNote::Boundary(_element) => true,
            FlatNote::One(_element, lead, _trail) => before <= lead,
            FlatNote::Two(_first, _second, lead, _trail) => before <= lead,
            FlatNote::Digit(_element, lead, _trail) => numeric.is_none() && before <= lead,
        }
    }

    /// The same, whatever is noted.
    #[inline(never)]
    fn push_other<const N: usize>(
        &self,
        numeric: Option<u8>,
        before: u16,
        elements: &mut FlatElements<N>,
    ) -> Option<u16>
        ensures { IfSome result (λ trail. (source : CollationSource) (c : ℕ) → IsFlatNote source c self.now
            → IsPushed source numeric c before elements.old.items trail elements.new.items) }
    {
        match *self {
            FlatNote::Two(first, second, lead, trail) => {
                if before <= lead && elements.push(first) && elements.push(second) {
                    Some(trail)
                } else {
                    None
                }
            }
            FlatNote::Digit(element, lead, trail) => {
                if numeric.is_none() && before <= lead && elements.push(element) {
                    Some(trail)
                } else {
                    None
                }
            }
            FlatNote::One(element, lead, trail) => {
                if before <= lead && elements.push(element) {
                    Some(trail)
                } else {
                    None
                }
            }
            _ => None,
        }
    }
}

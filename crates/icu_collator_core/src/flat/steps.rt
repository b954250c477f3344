//! Flat reading, one primary after another.

ghost use Rattle.std.specs.Prelude.{◌≡◌, ◌≤◌, ◌==◌, ℕ, false, true, List, IfSome, Option};
ghost use Rattle.icu_normalizer_core.specs.Canonical.{IsDecomposing};
ghost use Rattle.icu_collator_core.specs.Acceptance.{CollationSource};
ghost use Rattle.icu_collator_core.specs.FlatNotes.{IsFlatNote};
ghost use Rattle.icu_collator_core.specs.FlatSteps.{IsFollowed, IsNextPrimary, IsSettled, StepsTo};
ghost use Rattle.icu_collator_core.specs.Pools.{element_of};
ghost use Rattle.icu_collator_core.specs.ReadSources.{canonical_by};
ghost use Rattle.icu_collator_core.specs.declared.flat.steps.FlatStep.TheVariants.{Primary};

use crate::checked::CheckedTables;
use crate::notes::flat_note::{BEFORE_BOUNDARY, FlatNote};
use crate::notes::pages::unpaged_note;
use icu_collator_types::elements::CollationElement;

/// The note of a starter: it may stand after any class, which is at most this.
const STARTER: u16 = 255;

/// What comes next of a text that is read flat.
#[derive(Clone, Copy, Debug)]
pub enum FlatStep {
    /// The next primary that isn't 0, before it is reordered.
    Primary(u32),
    /// The end of the text.
    End,
    /// A character that isn't read flat where it stands.
    Other,
}

/// The primary of an element, the only one of a character, if it may stand after one of a class; a primary only where it is a
/// starter's.
#[inline(always)]
fn primary_of_one(element: CollationElement, lead: u16, before: u32) -> Option<u32>
    ensures primary { IfSome result (λ p. (element_of element).primary ≡ p) }
    ensures follows { IfSome result (λ p. before ≤ lead) }
    ensures starter { IfSome result (λ p. (p == 0) ≡ false → 255 ≤ lead) }
{
    let primary = element.primary();
    if before <= lead as u32 && (primary == 0 || lead >= STARTER) {
        Some(primary)
    } else {
        None
    }
}

/// The primary of the first of two elements of a character, if it may stand after one of a class; a primary only where the
/// first is that of a starter, and none of the second.
#[inline(always)]
fn primary_of_two(
    first: CollationElement,
    second: CollationElement,
    lead: u16,
    before: u32,
) -> Option<u32>
    ensures primary { IfSome result (λ p. (element_of first).primary ≡ p) }
    ensures none { IfSome result (λ p. (element_of second).primary ≡ 0) }
    ensures follows { IfSome result (λ p. before ≤ lead) }
    ensures starter { IfSome result (λ p. (p == 0) ≡ false → 255 ≤ lead) }
{
    let primary = first.primary();
    if before > lead as u32 || (primary != 0 && lead < STARTER) || second.primary() != 0 {
        return None;
    }
    Some(primary)
}

impl FlatNote {
    /// The primary of a boundary of one element; 0 for another character.
    #[inline(always)]
    fn boundary_primary(&self) -> u32
        ensures { (result == 0) ≡ false → (source : CollationSource) (c : ℕ) → IsFlatNote source c self.now
            → (numeric : Option ℕ) (before : ℕ) → StepsTo source numeric c before result 0 }
    {
        if let FlatNote::Boundary(element) = *self {
            return element.primary();
        }
        0
    }

    /// The primary of a character that stands after one of this class, 0 for none, and the class of the last character of its
    /// full list, if it is read flat, its marks stand in order, and none of its elements but the first, of a starter, has a
    /// primary.
    #[inline(always)]
    fn step(&self, numeric: Option<u8>, before: u32) -> Option<(u32, u32)>
        ensures { IfSome result (λ step. (source : CollationSource) (c : ℕ) → IsDecomposing (canonical_by source) → IsFlatNote source c self.now
            → StepsTo source numeric c before step.0 step.1) }
    {
        if let FlatNote::Boundary(element) = *self {
            return Some((element.primary(), 0));
        }
        if let FlatNote::One(element, lead, trail) = *self {
            let primary = primary_of_one(element, lead, before)?;
            return Some((primary, trail as u32));
        }
        self.step_other(numeric, before)
    }

    /// The same, whatever is noted.
    #[inline(always)]
    fn step_other(&self, numeric: Option<u8>, before: u32) -> Option<(u32, u32)>
        ensures { IfSome result (λ step. (source : CollationSource) (c : ℕ) → IsDecomposing (canonical_by source) → IsFlatNote source c self.now
            → StepsTo source numeric c before step.0 step.1) }
    {
        match *self {
            FlatNote::Two(first, second, lead, trail) => {
                let primary = primary_of_two(first, second, lead, before)?;
                Some((primary, trail as u32))
            }
            FlatNote::Digit(element, lead, trail) => {
                if numeric.is_some() {
                    return None;
                }
                let primary = primary_of_one(element, lead, before)?;
                Some((primary, trail as u32))
            }
            _ => None,
        }
    }
}

impl FlatNote {
    /// Whether nothing is noted.
    #[inline(always)]
    fn is_none(&self) -> bool {
        match *self {
            FlatNote::Other => true,
            _ => false,
        }
    }

    /// Whether no reading may begin at the character, or a boundary has to follow, as far as is noted.
    #[inline(always)]
    fn is_dependent(&self) -> bool {
        match *self {
            FlatNote::One(_element, _lead, _trail) => true,
            FlatNote::Digit(_element, _lead, _trail) => true,
            FlatNote::Two(_first, _second, lead, trail) => {
                lead < BEFORE_BOUNDARY || trail >= BEFORE_BOUNDARY
            }
            _ => false,
        }
    }
}

impl CheckedTables<'_> {
    /// Whether a page notes a character that depends on what stands beside it: no reading may begin at it, or a boundary has to
    /// follow. `false` for others, and for some that do. It takes two reads and no memory.
    #[inline(always)]
    pub fn is_noted_dependent(&self, c: char) -> bool {
        match self.paged_note(c) {
            Some(note) => note.is_dependent(),
            None => false,
        }
    }

    /// Whether a character may be read together with one before it after which anything may stand: its page notes nothing of it alone.
    /// `false` for some that may. It takes two reads and no memory.
    #[inline(always)]
    pub fn may_join(&self, c: char) -> bool {
        match self.paged_note(c) {
            Some(note) => note.is_none(),
            None => false,
        }
    }

    /// The primary of a boundary of one element that is read flat after any character, be numbers read or not; 0 for another,
    /// for some that are so, and for all from U+0800 on. It takes one read and no memory.
    #[inline(always)]
    pub fn boundary_primary(&self, c: char) -> u32
        ensures { (result == 0) ≡ false → (numeric : Option ℕ) (before : ℕ) → StepsTo self.now numeric c before result 0 }
    {
        match self.flat_note(c) {
            Some(note) => note.boundary_primary(),
            None => 0,
        }
    }

    /// The primary of a character that stands after one of this class, 0 for none, and the class of the last character of its
    /// full list (UAX 15), 256 where a boundary has to follow, if it is read flat there: its marks stand in order, and none of
    /// its elements but the first, a starter's, has a primary. `None` for another, and for some that are so. Where a lead byte of
    /// numbers is given, no digit is read so. A character below U+0800 takes one read; no memory is taken.
    #[inline(always)]
    pub fn flat_primary(&self, numeric: Option<u8>, c: char, before: u32) -> Option<(u32, u32)>
        ensures { IfSome result (λ step. StepsTo self.now numeric c before step.0 step.1) }
    {
        self.canonical().keep_promise();
        match self.flat_note(c) {
            Some(note) => {
                let (primary, trail) = note.step(numeric, before)?;
                Some((primary, trail))
            }
            None => self.find_flat_primary(numeric, c, before),
        }
    }

    /// The same of a character after the low ones.
    #[inline(always)]
    fn find_flat_primary(&self, numeric: Option<u8>, c: char, before: u32) -> Option<(u32, u32)>
        ensures { IfSome result (λ step. StepsTo self.now numeric c before step.0 step.1) }
    {
        self.canonical().keep_promise();
        if let Some(note) = self.paged_note(c) {
            let (primary, trail) = note.step(numeric, before)?;
            return Some((primary, trail));
        }
        self.find_unpaged_primary(numeric, c, before)
    }

    /// The same of a character in no page.
    #[inline(never)]
    fn find_unpaged_primary(&self, numeric: Option<u8>, c: char, before: u32) -> Option<(u32, u32)>
        ensures { IfSome result (λ step. StepsTo self.now numeric c before step.0 step.1) }
    {
        self.canonical().keep_promise();
        let note = unpaged_note(self.sound(), c);
        let step = note.step(numeric, before)?;
        Some(step)
    }

    /// Whether a primary to which a text was read so stands, whatever else the text holds: where what was read asks for a
    /// boundary after it, one stands there, or the text ends. Then the next character is taken from the text, and after another
    /// step the text isn't touched. No memory is taken.
    #[inline(always)]
    pub fn is_settled<I: Iterator<Item = char> + Drop>(
        &self,
        numeric: Option<u8>,
        step: FlatStep,
        chars: &mut I,
        class: u32,
    ) -> bool
        requires { (p : ℕ) → step ≡ Primary p → I.can_next chars.old }
        ensures { result ≡ true → (text items : List ℕ) → IsNextPrimary self.now numeric I.next_gives text items step chars.old class
            → IsSettled self.now numeric text items step }
    {
        if class <= STARTER as u32 {
            return true;
        }
        self.canonical().keep_promise();
        match step {
            FlatStep::Primary(_primary) => self.is_followed(numeric, chars.next(), class),
            FlatStep::End => true,
            FlatStep::Other => true,
        }
    }

    /// Whether what was read of a text, after which a boundary has to follow, is followed by one, or by the end: this character
    /// was taken next, `None` at the end.
    #[inline(never)]
    fn is_followed(&self, numeric: Option<u8>, next: Option<char>, class: u32) -> bool
        ensures { result ≡ true → IsFollowed self.now numeric class next }
    {
        match next {
            Some(c) => self.flat_primary(numeric, c, class).is_some(),
            None => true,
        }
    }
}

//! The primaries of characters that are read flat, and of two that are read together.

ghost use Rattle.std.specs.Prelude.{◌≡◌, ◌≤◌, ℕ, IfSome, true};
ghost use Rattle.icu_normalizer_core.specs.BuiltIn.{is_syllable};
ghost use Rattle.icu_collator_core.specs.Acceptance.{CollationSource};
ghost use Rattle.icu_collator_core.specs.FlatNotes.{IsFlatNote};
ghost use Rattle.icu_collator_core.specs.FlatSteps.{primaries_in};
ghost use Rattle.icu_collator_core.specs.NextPrimaries.{HasPrimaries, HavePrimaries, StartsBehind, primaries_listed};
ghost use Rattle.icu_collator_core.specs.Pairs.{noted_elements};

use super::syllables::letter;
use crate::checked::CheckedTables;
use crate::notes::flat_note::{BEFORE_BOUNDARY, FlatNote};
use crate::notes::pages::unpaged_note;
use crate::notes::pairs::PairNote;
use icu_normalizer_core::built_in::is_syllable;

/// The primaries of a character, or of two that are read together, in their order, as they are before reordering.
#[derive(Clone, Copy, Debug)]
pub struct NextPrimaries {
    /// The first; 0 for none.
    pub first: u32,
    /// The second; 0 for none.
    pub second: u32,
    /// The third; 0 for none.
    pub third: u32,
    /// The class of the last character of the full list (UAX 15), 256 where a boundary has to follow.
    pub class: u32,
}

impl NextPrimaries {
    /// One primary, 0 for none, and the class.
    #[inline(always)]
    pub fn one(first: u32, class: u32) -> Self
        ensures { result ≡ record { first = first; second = 0; third = 0; class = class } }
    {
        NextPrimaries {
            first,
            second: 0,
            third: 0,
            class,
        }
    }
}

impl FlatNote {
    /// The primaries of a character that stands after one of this class, if it is read flat there.
    #[inline(always)]
    fn primaries(&self, numeric: Option<u8>, before: u32) -> Option<NextPrimaries>
        ensures { IfSome result (λ next. (source : CollationSource) (c : ℕ) → IsFlatNote source c self.now → HasPrimaries source numeric c before next) }
    {
        if let FlatNote::Boundary(element) = *self {
            return Some(NextPrimaries::one(element.primary(), 0));
        }
        if let FlatNote::One(element, lead, trail) = *self {
            if before > lead as u32 {
                return None;
            }
            return Some(NextPrimaries::one(element.primary(), trail as u32));
        }
        self.other_primaries(numeric, before)
    }

    /// The same, whatever is noted.
    #[inline(always)]
    fn other_primaries(&self, numeric: Option<u8>, before: u32) -> Option<NextPrimaries>
        ensures { IfSome result (λ next. (source : CollationSource) (c : ℕ) → IsFlatNote source c self.now → HasPrimaries source numeric c before next) }
    {
        match *self {
            FlatNote::Two(first, second, lead, trail) => {
                if before > lead as u32 {
                    return None;
                }
                Some(NextPrimaries {
                    first: first.primary(),
                    second: second.primary(),
                    third: 0,
                    class: trail as u32,
                })
            }
            FlatNote::Digit(element, lead, trail) => {
                if numeric.is_some() || before > lead as u32 {
                    return None;
                }
                Some(NextPrimaries::one(element.primary(), trail as u32))
            }
            _ => None,
        }
    }
}

impl PairNote {
    /// The primaries of both characters.
    #[inline(always)]
    fn primaries(&self) -> Option<NextPrimaries>
        ensures class { IfSome result (λ next. next.class ≡ self.now.trail) }
        ensures primaries { IfSome result (λ next. primaries_in (noted_elements self.now) ≡ primaries_listed next) }
    {
        let elements = self.elements();
        let class = self.trail() as u32;
        if elements.len() == 1 {
            return Some(NextPrimaries::one(elements[0].primary(), class));
        }
        if elements.len() == 2 {
            return Some(NextPrimaries {
                first: elements[0].primary(),
                second: elements[1].primary(),
                third: 0,
                class,
            });
        }
        if elements.len() == 3 {
            return Some(NextPrimaries {
                first: elements[0].primary(),
                second: elements[1].primary(),
                third: elements[2].primary(),
                class,
            });
        }
        None
    }
}

impl CheckedTables<'_> {
    /// The primaries of a character that stands after one of this class, each 0 for none, and the class of the last character of its
    /// full list (UAX 15), 256 where a boundary has to follow, if it is read flat there: its marks stand in order. `None` for
    /// another, and for some that are so. Where a lead byte of numbers is given, no digit is read so. It takes few reads and no
    /// memory.
    #[inline(always)]
    pub fn flat_primaries(&self, numeric: Option<u8>, c: char, before: u32) -> Option<NextPrimaries>
        ensures { IfSome result (λ next. HasPrimaries self.now numeric c before next) }
    {
        if let Some(note) = self.flat_note(c) {
            let next = note.primaries(numeric, before)?;
            return Some(next);
        }
        if let Some(note) = self.paged_note(c) {
            let next = note.primaries(numeric, before)?;
            return Some(next);
        }
        self.find_primaries(numeric, c, before)
    }

    /// The same of a character after the low ones, in no page.
    #[inline(never)]
    fn find_primaries(&self, numeric: Option<u8>, c: char, before: u32) -> Option<NextPrimaries>
        ensures { IfSome result (λ next. HasPrimaries self.now numeric c before next) }
    {
        if is_syllable(c as u32) {
            return self.syllable_primaries(numeric, c, before);
        }
        let note = unpaged_note(self.sound(), c);
        let next = note.primaries(numeric, before)?;
        Some(next)
    }

    /// The primary of a letter that stands after a character of this class, by its note, if it is read alone and has no other; and
    /// its class.
    #[inline(always)]
    fn letter_primary(&self, numeric: Option<u8>, c: char, before: u32) -> Option<NextPrimaries>
        ensures alone { IfSome result (λ next. next.class ≤ 255) }
        ensures second { IfSome result (λ next. next.second ≡ 0) }
        ensures third { IfSome result (λ next. next.third ≡ 0) }
        ensures primary { IfSome result (λ next. HasPrimaries self.now numeric c before next) }
    {
        let note = self.paged_note(c)?;
        let next = note.primaries(numeric, before)?;
        if next.second != 0 || next.third != 0 || next.class >= BEFORE_BOUNDARY as u32 {
            return None;
        }
        Some(next)
    }

    /// The primaries of a syllable that stands after a character of this class, if each of its letters is read alone, and the class
    /// of the last letter.
    #[inline(never)]
    fn syllable_primaries(&self, numeric: Option<u8>, c: char, before: u32) -> Option<NextPrimaries>
        requires { is_syllable c ≡ true }
        ensures { IfSome result (λ next. HasPrimaries self.now numeric c before next) }
    {
        self.canonical().keep_promise();
        let index = c as u32 - 0xac00;
        let leading = letter(0x1100 + index / 588);
        let first = self.letter_primary(numeric, leading, before)?;
        let vowel = letter(0x1161 + index % 588 / 28);
        let second = self.letter_primary(numeric, vowel, first.class)?;
        if index % 28 == 0 {
            return Some(NextPrimaries {
                first: first.first,
                second: second.first,
                third: 0,
                class: second.class,
            });
        }
        let trailing = letter(0x11a7 + index % 28);
        let third = self.letter_primary(numeric, trailing, second.class)?;
        Some(NextPrimaries {
            first: first.first,
            second: second.first,
            third: third.first,
            class: third.class,
        })
    }

    /// The primaries of two characters that are read together, whatever stands before them, each 0 for none, and the class of the
    /// second, 256 where a boundary has to follow; `None` where nothing is noted of both. It takes few reads and no memory.
    #[inline(always)]
    pub fn pair_primaries(&self, first: char, second: char) -> Option<NextPrimaries>
        ensures { IfSome result (λ next. HavePrimaries self.now first second next) }
    {
        let pair = self.pair(first, second)?;
        let next = pair.primaries()?;
        Some(next)
    }

    /// Whether a note tells that a character is read flat after one of this class, and its full list (UAX 15) begins with a starter.
    /// It takes few reads and no memory.
    #[inline(never)]
    pub fn starts_behind(&self, numeric: Option<u8>, c: char, class: u32) -> bool
        ensures { result ≡ true → StartsBehind self.now numeric c class }
    {
        self.canonical().keep_promise();
        if class < 255 {
            return self.flat_primaries(numeric, c, 255).is_some();
        }
        self.flat_primaries(numeric, c, class).is_some()
    }
}

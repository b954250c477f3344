//! Full lists of characters, as far as they are looked at.

ghost use Rattle.std.specs.Prelude.{◌≡◌, ℕ, ◌∷◌, ◌++◌, List, [], map};
ghost use Rattle.collate_rules.specs.CanonicalParts.{in_full, step_items};
ghost use Rattle.collate_rules.specs.Lists.{steps_by, IsFront};

use crate::canonical_parts::CanonicalParts;
use crate::step::Step;

/// The mappings whose steps make a full list.
#[derive(Clone, Copy)]
pub enum Mappings {
    /// Canonical mappings.
    Canonical,
    /// Canonical and compatibility mappings.
    All,
}

/// How a list begins, and how many characters it has, those past nine aside.
#[derive(Clone, Copy)]
pub struct Front {
    /// The first character, if there is one.
    pub first: Option<char>,
    /// How many there are, at most nine.
    pub count: u8,
}

impl Mappings {
    /// The mapping of a character.
    pub fn step(self, parts: &CanonicalParts, c: char) -> Step
        ensures { step_items result ≡ steps_by self (map in_full parts.now.list.items) c }
    {
        match self {
            Mappings::Canonical => Step::of(parts.step_of(c)),
            Mappings::All => parts.any_step(c),
        }
    }
}

impl Front {
    /// The list with one character more.
    pub fn with(self, c: char) -> Front
        ensures { (list : List ℕ) → IsFront self list → IsFront result (list ++ c ∷ []) }
    {
        Front {
            first: self.first.or(Some(c)),
            count: if self.count < 9 { self.count + 1 } else { 9 },
        }
    }
}

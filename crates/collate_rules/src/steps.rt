//! Mappings made of what lines and tables say.

ghost use Rattle.std.specs.Prelude.{◌≡◌, ◌<◌, ◌≤◌, ◌↔◌, ◌+◌, ◌++◌, ◌∷◌, [], length, IsTrue};
ghost use Rattle.icu_normalizer_core.specs.Properties.{mapped_to};
ghost use Rattle.collate_rules.specs.CanonicalParts.{step_items};

use crate::step::Step;
use icu_normalizer_core::properties::Decomposed;

impl Step {
    /// No mapping.
    pub(crate) fn none() -> Step
        ensures items { step_items result ≡ [] }
        ensures count { result.count ≡ 0 }
    {
        Step {
            characters: ['\0'; 8],
            count: 0,
        }
    }

    /// With one more character.
    fn with(self, c: char) -> Step
        requires { self.count < 8 }
        ensures items { step_items result ≡ step_items self ++ c ∷ [] }
        ensures count { result.count ≡ self.count + 1 }
    {
        let mut characters = self.characters;
        characters[self.count] = c;
        Step {
            characters,
            count: self.count + 1,
        }
    }

    /// A canonical or a built-in mapping.
    pub fn of(step: Decomposed) -> Step
        ensures { step_items result ≡ mapped_to step }
    {
        match step {
            Decomposed::Default => Step::none(),
            Decomposed::Singleton(c) => Step::none().with(c),
            Decomposed::Expansion(c, d) => Step::none().with(c).with(d),
        }
    }

    /// A compatibility mapping of at most eight characters.
    pub(crate) fn of_list(mapping: &[char]) -> Step
        requires { length mapping.now ≤ 8 }
        ensures { step_items result ≡ mapping.now }
    {
        let mut step = Step::none();
        for c in mapping {
            step = step.with(*c);
        }
        step
    }

    /// The characters, in their order.
    pub fn characters(&self) -> &[char]
        ensures { result.now ≡ step_items self.now }
    {
        &self.characters[..self.count]
    }

    /// Whether there is no mapping.
    pub fn is_none(&self) -> bool
        ensures { IsTrue result ↔ (step_items self.now ≡ []) }
    {
        self.characters().is_empty()
    }
}

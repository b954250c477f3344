//! Stretches of a text whose characters are all in a set, or all out of it.
ghost use Rattle.std.specs.Prelude.{◌≡◌, ◌≢◌, ℕ, List, [], ◌∷◌, ◌++◌, ◌↔◌, IsTrue, take, drop, All};
ghost use Rattle.std.specs.Char.{IsScalar};
ghost use Rattle.std.specs.Str.{IsCharBoundary, chars};
ghost use Rattle.icu_collections_sets.specs.CodePoints.{holds};

use super::inversion_list::CodePointInversionList;

impl CodePointInversionList<'_> {
    /// Whether the set holds a character; where `held` is false, whether it doesn't.
    fn is_so(&self, character: char, held: bool) -> bool
        ensures so { IsTrue result ↔ (holds self.now character ≡ held) }
        ensures scalar { IsScalar character }
    {
        self.contains(character) == held
    }

    /// Where, in bytes, the longest prefix of the text ends that has only characters of the set, or,
    /// where `held` is false, none of them. It allocates nothing.
    pub fn span(&self, text: &str, held: bool) -> usize
        ensures boundary { IsCharBoundary text.now result }
        ensures prefix { All (λ c. holds self.now c ≡ held) (chars (take result text.now)) }
        ensures longest { (c : ℕ) (behind : List ℕ) → chars (drop result text.now) ≡ c ∷ behind → holds self.now c ≢ held }
    {
        for (index, character) in text.char_indices() {
            if !self.is_so(character, held) {
                return index;
            }
        }
        text.len()
    }

    /// Where, in bytes, the longest suffix of the text begins that has only characters of the set,
    /// or, where `held` is false, none of them. It allocates nothing.
    pub fn span_back(&self, text: &str, held: bool) -> usize
        ensures boundary { IsCharBoundary text.now result }
        ensures suffix { All (λ c. holds self.now c ≡ held) (chars (drop result text.now)) }
        ensures longest { (c : ℕ) (before : List ℕ) → chars (take result text.now) ≡ before ++ c ∷ [] → holds self.now c ≢ held }
    {
        let mut start = text.len();
        for (index, character) in text.char_indices().rev() {
            if !self.is_so(character, held) {
                return start;
            }
            start = index;
        }
        start
    }
}

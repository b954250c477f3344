//! What a text is that is read from the front.

ghost use Rattle.std.specs.Prelude.{◌≡◌, ◌↔◌, IsTrue, ℕ, ◌<◌, ◌≤◌, List, ◌++◌, length, drop, take, slice_index, MatchOption, IfSome, IfNone};
ghost use Rattle.icu_normalizer.specs.TextCuts.{IsBehind};
ghost use Rattle.icu_normalizer.specs.Texts.{Text as Spelled, IsEncoding, AreCharacters, BeginsWith, BeginsDamaged, IsAtEnd};

/// A text in some encoding, which is read from the front. What is damaged reads as U+FFFD.
pub(crate) trait Text: Copy {
    ghost spelled: { Self → Spelled };

    ghost encode: { List ℕ → List ℕ };

    /// How many units it has.
    fn len(self) -> usize
        ensures { result ≡ length (spelled self).units };

    /// Whether nothing is left.
    fn is_at_end(self) -> bool
        ensures { IsTrue result ↔ IsAtEnd (spelled self) };

    /// How many ASCII characters it begins with.
    fn plain_len(self) -> usize
        ensures within { result ≤ length (spelled self).units }
        ensures plain { (k : ℕ) → k < result → slice_index (spelled self).units k < 0x80 };

    /// What stands after its first `count` characters, which are ASCII.
    fn behind_plain(self, count: usize) -> Self
        requires within { count ≤ length (spelled self).units }
        requires plain { (k : ℕ) → k < count → slice_index (spelled self).units k < 0x80 }
        ensures units { (spelled result).units ≡ drop count (spelled self).units }
        ensures characters { (spelled self).characters ≡ take count (spelled self).units ++ (spelled result).characters };

    /// What it reads as is characters. It computes nothing.
    fn keep_promise(self)
        ensures { AreCharacters (spelled self).characters };

    /// Its first character and what stands after it; `None` in place of the character where that is damaged.
    fn split_char(self) -> Option<(Option<char>, Self)>
        ensures none { IfNone result (IsAtEnd (spelled self)) }
        ensures some { IfSome result (λ r. MatchOption r.0 (BeginsDamaged encode (spelled self) (spelled r.1)) (λ c. BeginsWith encode (spelled self) c (spelled r.1))) }
        ensures fewer { IfSome result (λ r. length (spelled r.1).units < length (spelled self).units) };

    /// The text in two parts: undamaged text, and `rest`, which stands after it.
    fn split_before(self, rest: Self) -> (Self, Self)
        requires { (prefix : List ℕ) × IsBehind encode (spelled self) prefix (spelled rest) }
        ensures front { (prefix : List ℕ) → IsBehind encode (spelled self) prefix (spelled rest) → ((spelled result.0).units ≡ encode prefix) × ((spelled result.0).characters ≡ prefix) }
        ensures back { ((spelled result.1).units ≡ (spelled rest).units) × ((spelled result.1).characters ≡ (spelled rest).characters) };

    ghost encoding: { IsEncoding encode };
}

//! Texts that can be read more than once, and the characters that they give.

ghost use Rattle.std.specs.Prelude.{◌≡◌, ◌<◌, ℕ, All, List, Option, Some};
ghost use Rattle.std.specs.Char.{IsScalar};
ghost use Rattle.std.specs.Iterator.{IsFinite};
ghost use Rattle.icu_normalizer_core.specs.Iter.{Spells};

/// Characters one after another, the next of which may be told by a look, and that can be given more than once.
pub(crate) trait PeekLow: Iterator<Item = char> {
    ghost use Rattle.std.specs.Prelude.{◌≡◌, ◌<◌, ℕ, Option, Some};

    /// The same characters.
    fn again(&self) -> Self
        ensures { result ≡ self.now };

    /// The next character if it is below U+0080 and a look tells it; from 80 (hex) on for another, at the end, and where none
    /// tells. Nothing is taken.
    fn peek_low(&self) -> u8
        ensures { result < 0x80 → (next : Option ℕ) (rest : Self) → Self.next_gives self.now next rest → next ≡ Some result };
}

/// A text that can be read more than once: it gives its characters anew each time.
pub(crate) trait Characters: Copy {
    /// Gives the characters one after another.
    type Chars: PeekLow + Drop;

    /// The characters that the text decodes to.
    ghost characters: { Self → List ℕ };

    /// The characters, from the first on.
    fn chars(self) -> Self::Chars
        ensures spelled { Spells Self.Chars.next_gives result (characters self) }
        ensures ready { Self.Chars.can_next result }
        ensures ends { IsFinite (Self.Chars.remaining result) }
        ensures scalars { All IsScalar (characters self) };

    /// How many bytes or units it has: by this it is told how much room is made for what is read, and nothing else.
    fn size(self) -> usize;
}

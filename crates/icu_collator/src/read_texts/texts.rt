//! What is read of a text: with its memory, and as a comparison looks at it.

ghost use Rattle.std.specs.Prelude.{◌≡◌};

use icu_collator_types::elements::CollationElement;
use smallvec::SmallVec;

/// What is read of a text, as a comparison looks at it.
#[derive(Clone, Copy)]
pub(crate) struct ReadText<'r> {
    /// The elements that count.
    pub(crate) elements: &'r [CollationElement],
    /// Where the primaries of variable elements end; 0 where no element is variable.
    pub(crate) variable_end: u32,
    /// At strength `Identical` the decomposed list, else nothing.
    pub(crate) characters: &'r [char],
}

/// What is read of a text, with the memory that it takes.
pub(crate) struct OwnedText {
    /// The elements that count.
    pub(crate) elements: SmallVec<CollationElement, 32>,
    /// Where the primaries of variable elements end; 0 where no element is variable.
    pub(crate) variable_end: u32,
    /// At strength `Identical` the decomposed list, else nothing.
    pub(crate) characters: SmallVec<char, 64>,
}

// (let go of as one, and not part by part, so that what owns one is proved sooner)
impl Drop for OwnedText {
    fn drop(self) {
        let OwnedText {
            elements: _,
            variable_end: _,
            characters: _,
        } = self;
    }
}

impl OwnedText {
    /// As a comparison looks at it.
    pub(crate) fn as_read(&self) -> ReadText<'_>
        ensures elements { result.elements.now ≡ self.now.elements.items }
        ensures variable_end { result.variable_end ≡ self.now.variable_end }
        ensures characters { result.characters.now ≡ self.now.characters.items }
    {
        ReadText {
            elements: &self.elements,
            variable_end: self.variable_end,
            characters: &self.characters,
        }
    }
}

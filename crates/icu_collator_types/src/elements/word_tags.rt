//! What a word of the tables is that isn't the weights of an element themselves.

/// The form of a word whose low byte is from C0 (hex): the low four bits of the word.
#[derive(Clone, Copy, PartialEq, Eq, Debug)]
pub enum Tag {
    /// The tailoring says nothing of the character: the root's word counts.
    Fallback = 0,
    /// A primary of three bytes, with common weights at the other levels.
    LongPrimary = 1,
    /// No primary; a secondary of two bytes and a tertiary of one.
    LongSecondary = 2,
    /// In no table.
    Reserved3 = 3,
    /// In no table of this project.
    LatinExpansion = 4,
    /// Elements that stand as words in a list of the tables.
    Expansion32 = 5,
    /// Elements that stand in a list of the tables.
    Expansion = 6,
    /// In no table.
    BuilderData = 7,
    /// What the word says depends on the characters before.
    Prefix = 8,
    /// What the word says depends on the characters after.
    Contraction = 9,
    /// A digit, with the word that counts where numbers aren't compared by value.
    Digit = 10,
    /// In no table of this project.
    U0000 = 11,
    /// In no table of this project.
    Hangul = 12,
    /// In no table of this project.
    LeadSurrogate = 13,
    /// A primary that goes up from character to character of a range.
    Offset = 14,
    /// A primary that the code point gives.
    Implicit = 15,
}

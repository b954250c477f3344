//! A mapping of a character.

/// The mapping of a character: to nothing else, to one character, or to two (ICU4X).
#[derive(Clone, Copy, Debug, PartialEq, Eq)]
pub enum Decomposed {
    /// There is no mapping.
    Default,
    /// The character is mapped to this one.
    Singleton(char),
    /// The character is mapped to these two, one after the other.
    Expansion(char, char),
}

//! Collation elements: unpacked, one field a weight, and as ICU4X packs them, 64 bits an element
//! and 32 bits a word of the tables; and characters as the reading of a text carries them.

pub mod character_words;
pub mod classed_characters;
pub mod element_bits;
pub mod element_words;
pub mod non_primaries;
pub mod quaternaries;
mod trie_values;
pub mod word_tags;

pub use character_words::CharacterAndClassAndTrieValue;
pub use classed_characters::CharacterAndClass;
pub use element_bits::CollationElement;
pub use element_words::CollationElement32;
pub use non_primaries::NonPrimary;
pub use quaternaries::AnyQuaternaryAccumulator;
pub use word_tags::Tag;

/// The common secondary weight, and the common tertiary weight: that of a letter without accent,
/// and of a letter in its plain form (ICU4X).
pub const COMMON_WEIGHT: u16 = 0x0500;

/// A collation element: the weights of UTS 10, with ICU4X's case bits and quaternary.
///
/// The default has no weight at any level, as an ignorable character.
#[derive(Clone, Copy, PartialEq, Eq, Debug, Default)]
pub struct Element {
    /// What sets letters apart; 0 for an accent, which has none.
    pub primary: u32,
    /// What sets accents apart; 0 for none.
    pub secondary: u16,
    /// Case: 0 for lower case or none, 1 for mixed, 2 for upper.
    pub case: u8,
    /// What sets further forms of a letter apart; 0 for none.
    pub tertiary: u16,
    /// The quaternary of the file, 0 to 3.
    pub quaternary: u8,
}

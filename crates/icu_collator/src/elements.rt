//! Collation elements: the elements of a text, and the words that they are made of.

pub use icu_collator_core::elements::CollationElements;
pub use icu_collator_types::elements::{
    AnyQuaternaryAccumulator, CharacterAndClass, CharacterAndClassAndTrieValue, CollationElement,
    CollationElement32, NonPrimary, Tag,
};

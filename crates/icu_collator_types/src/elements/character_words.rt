//! Characters with their class and the word that canonical tables have for them, as the reading of
//! a text carries them.

ghost use Rattle.std.specs.Prelude.{◌≡◌, ◌+◌, cond, false};
ghost use Rattle.icu_collator_types.specs.TrieValues.{ccc_from_trie_value, has_ccc, is_special_decomposition};

use super::classed_characters::CharacterAndClass;
use super::trie_values::{has_ccc, is_special_decomposition};

/// A character, its class, and its word in canonical tables.
#[derive(Clone, Copy, PartialEq, Eq, Debug)]
pub struct CharacterAndClassAndTrieValue {
    pub(super) character_and_class: CharacterAndClass,
    /// The character's word in canonical tables.
    pub trie_val: u32,
}

impl CharacterAndClassAndTrieValue {
    /// A starter that has no decomposition.
    pub fn new_with_non_decomposing_starter(character: char) -> Self
        ensures { result ≡ record { character_and_class = record { character = character; ccc = 0 }; trie_val = 0 } }
    {
        CharacterAndClassAndTrieValue {
            character_and_class: CharacterAndClass::new(character, 0),
            trie_val: 0,
        }
    }

    /// A character of this class that has no decomposition.
    pub fn new_with_non_zero_ccc(character: char, ccc: u8) -> Self
        ensures { result ≡ record { character_and_class = record { character = character; ccc = ccc }; trie_val = 0xd800 + ccc } }
    {
        CharacterAndClassAndTrieValue {
            character_and_class: CharacterAndClass::new(character, ccc),
            trie_val: 0xd800 + ccc as u32,
        }
    }

    /// A character with this word, which isn't that of a built-in decomposition.
    pub fn new_with_non_special_decomposition_trie_val(character: char, trie_val: u32) -> Self
        requires { is_special_decomposition trie_val ≡ false }
        ensures { result ≡ record { character_and_class = record { character = character; ccc = ccc_from_trie_value trie_val }; trie_val = trie_val } }
    {
        CharacterAndClassAndTrieValue {
            character_and_class: CharacterAndClass::new_with_trie_value(character, trie_val),
            trie_val,
        }
    }

    /// A character with this word, its class not known yet if the word is that of a built-in
    /// decomposition.
    pub fn new_with_trie_val(character: char, trie_val: u32) -> Self
        ensures character { result.character_and_class.character ≡ character }
        ensures ccc { result.character_and_class.ccc ≡ cond (is_special_decomposition trie_val) 0xff (ccc_from_trie_value trie_val) }
        ensures trie_val { result.trie_val ≡ trie_val }
    {
        if is_special_decomposition(trie_val) {
            CharacterAndClassAndTrieValue {
                character_and_class: CharacterAndClass::new_with_placeholder(character),
                trie_val,
            }
        } else {
            Self::new_with_non_special_decomposition_trie_val(character, trie_val)
        }
    }

    /// Whether the character's decomposition begins with a mark.
    pub fn decomposition_starts_with_non_starter(&self) -> bool
        ensures { result ≡ has_ccc self.now.trie_val }
    {
        has_ccc(self.trie_val)
    }

    /// The character.
    pub fn character(&self) -> char
        ensures { result ≡ self.now.character_and_class.character }
    {
        self.character_and_class.character()
    }
}

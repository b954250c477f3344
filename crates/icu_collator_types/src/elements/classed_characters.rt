//! Characters with their class, as the reading of a text carries them.

ghost use Rattle.std.specs.Prelude.{◌≡◌, ◌==◌, cond};
ghost use Rattle.std.specs.Option.{unwrap_or};
ghost use Rattle.icu_codepointtrie.specs.Slots.{value_at};
ghost use Rattle.icu_collator_types.specs.TrieValues.{ccc_from_trie_value};

use super::trie_values::ccc_from_trie_value;
use icu_codepointtrie::CodePointTrie;

/// The class that stands for one that isn't known yet.
const PLACEHOLDER: u8 = 0xff;

/// A character and its canonical combining class, which may not be known yet.
#[derive(Clone, Copy, PartialEq, Eq, Debug)]
pub struct CharacterAndClass {
    character: char,
    ccc: u8,
}

impl CharacterAndClass {
    /// The character with this class.
    pub fn new(character: char, ccc: u8) -> Self
        ensures { result ≡ record { character = character; ccc = ccc } }
    {
        CharacterAndClass { character, ccc }
    }

    /// The character with FF (hex) for its class, which isn't known yet.
    pub fn new_with_placeholder(character: char) -> Self
        ensures { result ≡ record { character = character; ccc = 0xff } }
    {
        CharacterAndClass {
            character,
            ccc: PLACEHOLDER,
        }
    }

    /// The character with the class that its word in canonical tables says.
    pub fn new_with_trie_value(character: char, trie_value: u32) -> Self
        ensures { result ≡ record { character = character; ccc = ccc_from_trie_value trie_value } }
    {
        CharacterAndClass {
            character,
            ccc: ccc_from_trie_value(trie_value),
        }
    }

    /// The character.
    pub fn character(&self) -> char
        ensures { result ≡ self.now.character }
    {
        self.character
    }

    /// The class, FF (hex) where it isn't known yet.
    pub fn ccc(&self) -> u8
        ensures { result ≡ self.now.ccc }
    {
        self.ccc
    }

    /// The character and its class.
    pub fn character_and_ccc(&self) -> (char, u8)
        ensures character { result.0 ≡ self.now.character }
        ensures ccc { result.1 ≡ self.now.ccc }
    {
        (self.character, self.ccc)
    }

    /// Gives a character whose class isn't known yet the class that the trie's word of it says.
    pub fn set_ccc_from_trie_if_not_already_set(&mut self, trie: &CodePointTrie<'_, u32>)
        ensures character { self.new.character ≡ self.old.character }
        ensures ccc { self.new.ccc ≡ cond (self.old.ccc == 0xff)
            (ccc_from_trie_value (unwrap_or (value_at trie.now self.old.character) 0)) self.old.ccc }
    {
        if self.ccc == PLACEHOLDER {
            self.ccc = ccc_from_trie_value(trie.get(self.character));
        }
    }
}

//! What one read of canonical data tells of a character.

ghost use Rattle.std.specs.Prelude.{◌≡◌, [], ◌∷◌, true, IfSome};
ghost use Rattle.icu_normalizer_core.specs.CanonicalMeaning.{meaning};
ghost use Rattle.icu_normalizer_core.specs.CanonicalWords.{is_list_word, list_at};
ghost use Rattle.icu_normalizer_core.specs.Readings.{IsTold, IsToldBy};
ghost use Rattle.icu_normalizer_core.specs.Words.{word_lists};

use super::canonical_words::{Words, is_list_word, is_mark_word, is_pair_word};
use super::full_list::character;
use super::tables::CanonicalTables;

/// What one read of canonical data tells of a character.
#[derive(Clone, Copy, Debug)]
pub enum Reading {
    /// It is its own full list, and has this class.
    Itself(u8),
    /// Its full list has these two characters.
    Two(char, char),
    /// Its full list has these three characters.
    Three(char, char, char),
    /// Nothing: its class and its full list have to be asked for.
    Other,
}

/// What the character's word tells.
#[inline(always)]
pub(super) fn read_character(tables: &CanonicalTables<'_>, c: char) -> Reading
    ensures { IsTold (meaning tables.now) c result }
{
    tables.words().reading(c)
}

impl Words<'_> {
    /// What the character's word tells, with a list of three that it names an index of.
    #[inline(always)]
    #[tactic(auto, unfolding(crate::specs::CanonicalWords::class_of_word, crate::specs::CanonicalWords::full_of_word))]
    pub(crate) fn reading(self, c: char) -> Reading
        ensures { IsToldBy (word_lists self.entry) c result }
    {
        let word = self.word(c);
        if word == 0 {
            Reading::Itself(0)
        } else if is_pair_word(word) {
            Reading::Two(character(word % 0x8000), character(word / 0x8000))
        } else if is_mark_word(word) {
            Reading::Itself((word - 0xd800) as u8)
        } else if is_list_word(word) {
            match three_listed(self, word) {
                Some((first, second, third)) => Reading::Three(first, second, third),
                None => Reading::Other,
            }
        } else {
            Reading::Other
        }
    }
}

/// The three characters of the list that a word names an index of, `None` of a list of any other length, and of one in
/// `scalars16`.
#[inline]
fn three_listed(words: Words<'_>, word: u32) -> Option<(char, char, char)>
    requires { is_list_word word ≡ true }
    ensures { IfSome result (λ three. list_at words.entry.scalars16.now words.entry.scalars24.now word ≡ three.0 ∷ three.1 ∷ three.2 ∷ []) }
{
    let offset = (word / 0x1_0000) as usize - 1;
    let in_16 = words.scalars16.len();
    if word % 16 != 2 || offset < in_16 {
        return None;
    }
    let index = offset - in_16;
    if words.scalars24.len() < index + 3 {
        return None;
    }
    let first = words.scalars24.at(index);
    let second = words.scalars24.at(index + 1);
    let third = words.scalars24.at(index + 2);
    Some((first, second, third))
}

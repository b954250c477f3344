//! The compatibility words of characters.

ghost use Rattle.std.specs.Prelude.{◌≡◌, ◌≢◌, ◌++◌, ◌-◌, ◌^◌, ◌<◌, ◌≤◌, ◌∷◌, ◌⊎◌, ℕ, List, [], false, true, length, IfOk, IfErr, MatchBool, OnOk, All};
ghost use Rattle.std.specs.Option.{is_some};
ghost use Rattle.std.specs.Char.{IsScalar};
ghost use Rattle.icu_normalizer_core.specs.declared.builder.given.CanonicalDataBuildError.TheVariants.{Rules, Memory};
ghost use Rattle.icu_normalizer_core.specs.BuiltIn.{built_in_step, is_syllable};
ghost use Rattle.icu_normalizer_core.specs.Canonical.{IsFree};
ghost use Rattle.icu_normalizer_core.specs.CanonicalMeaning.{meaning};
ghost use Rattle.icu_normalizer_core.specs.FirstMappings.{HasFirstIndices};
ghost use Rattle.icu_normalizer_core.specs.Settled.{left_items};
ghost use Rattle.icu_normalizer_core.specs.SettledMappings.{AreMappingStarts, AreRightSoFar, IsAllSettled, IsSound, KeepsFullWord, LacksWords, StartsLeft, full_room, steps_in};

use super::built_words::unlisted_word;
use super::full_list_words::{PLACE_LIMIT, list_word};
use super::given::CanonicalDataBuildError;
use super::mappings::Mappings;
use super::numbers::is_fixed;
use super::trie::{set_word, unnamed_words};
use crate::canonical::check::left::Left;
use icu_codepointtrie::CodePointTrieBuilder;
use std::alloc::{AllocError, Global};
use std::collections::BTreeMap;

/// The compatibility words of characters, and the characters of lists that stand apart from their words.
#[derive(Drop)]
pub(super) struct CompatibilityWords {
    pub(super) scalars24: Vec<char>,
    pub(super) words: CodePointTrieBuilder<u32>,
}

/// Whether the mapping of a character is built in, or steps leave but the character itself.
fn is_unlisted(c: char, left: &Left) -> bool
    ensures { MatchBool result ((is_some (built_in_step c) ≡ true) ⊎ (left_items left.now ≡ c ∷ [])) (IsFree c × (left_items left.now ≢ c ∷ [])) }
{
    is_fixed(c) || Left::one(c as u32).is(left)
}

impl Mappings<'_> {
    /// The word of a character of which steps leave a list: the list's, unless its mapping is built in, or it has none.
    /// Fails only if memory is refused.
    fn full_word(self, scalars24: &mut Vec<char>, c: char, left: &Left) -> Result<u32, AllocError>
        requires sound { IsSound self }
        requires starts { StartsLeft (steps_in self) (c ∷ []) left.now }
        requires few { length (left_items left.now) ≤ 8 }
        requires room { length scalars24.old.items < 2 ^ 14 - 1 }
        ensures grows { OnOk result ((more : List ℕ) × (scalars24.new.items ≡ scalars24.old.items ++ more) × (length more ≤ full_room (steps_in self.entry) c)) }
        ensures says { IfOk result (KeepsFullWord (steps_in self.entry) ((meaning self.entry.tables.now).class c) scalars24.new.items c) }
        ensures syllable { IfOk result (λ word. word ≡ 0 → is_syllable c ≡ false) }
    {
        if is_unlisted(c, left) {
            return Ok(unlisted_word(c as u32, self.tables.class(c)));
        }
        let word = list_word(scalars24, 0, &left.characters[..left.count])?;
        Ok(word)
    }

    /// The words of characters. `Rules` where steps from one don't end or leave more than eight characters, or what they
    /// leave takes more slots than words name.
    pub(super) fn full_words(
        self,
        alloc: Global,
        indices: &BTreeMap<char, usize>,
        settled: &[Option<Left>],
        named: &[char],
    ) -> Result<CompatibilityWords, CanonicalDataBuildError>
        requires sound { IsSound self }
        requires indices { HasFirstIndices self.given.now indices.now }
        requires starts { AreMappingStarts (steps_in self) self.given.now settled.now }
        requires done { IsAllSettled (meaning self.tables.now).full self.given.now settled.now }
        requires scalars { All IsScalar named.now }
        ensures words { IfOk result (λ made. AreRightSoFar (steps_in self.entry) (meaning self.entry.tables.now).class made.scalars24.items named.now made.words) }
        ensures refused { IfErr result (λ e. (e ≡ Memory) ⊎ ((e ≡ Rules) × LacksWords (steps_in self.entry) named.now)) }
    {
        let mut words = unnamed_words(alloc)?;
        let mut scalars24 = Vec::new(alloc);
        for c in named {
            let Some(left) = self.left_of(indices, settled, *c) else {
                return Err(CanonicalDataBuildError::Rules);
            };
            if left.characters[..left.count].len() > 8 {
                return Err(CanonicalDataBuildError::Rules);
            }
            if scalars24.len() >= PLACE_LIMIT {
                return Err(CanonicalDataBuildError::Rules);
            }
            let word = self.full_word(&mut scalars24, *c, &left)?;
            set_word(&mut words, *c as u32, word);
        }
        Ok(CompatibilityWords { scalars24, words })
    }
}

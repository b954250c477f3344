//! The trie of the words of characters.

ghost use Rattle.std.specs.Prelude.{◌≤◌, ◌<◌, ◌==◌, IfOk, All};
ghost use Rattle.std.specs.Char.{IsScalar};
ghost use Rattle.icu_codepointtrie.specs.Blocks.{different_blocks, upper_blocks};
ghost use Rattle.icu_codepointtrie.specs.BuiltTries.{IsTrieOf};
ghost use Rattle.icu_codepointtrie.specs.CodePointMaps.{IsWritten};
ghost use Rattle.icu_normalizer_core.specs.CanonicalLists.{AreTriples};
ghost use Rattle.icu_normalizer_core.specs.CharacterWords.{AreListWords, AreStarters, AreUnnamed, HasWords, class_with};

use super::built_words::word_of;
use super::classes::Classes;
use super::list_words::ListWords;
use icu_codepointtrie::{CodePointTrie, CodePointTrieBuildError, CodePointTrieBuilder, TrieType};
use icu_packed_vector::PackedVec;
use std::alloc::{AllocError, Global};

/// Sets the word of a character, unless it is 0.
pub(super) fn set_word(words: &mut CodePointTrieBuilder<u32>, c: u32, word: u32)
    requires { c ≤ 0x10_FFFF }
    ensures { IsWritten (λ n. n) words.old (λ x. x == c) word words.new }
{
    words.set_value(c, word).unwrap();
}

/// The words as none are set, 1 for each Hangul syllable. Fails only if memory is refused.
pub(super) fn unnamed_words(alloc: Global) -> Result<CodePointTrieBuilder<u32>, AllocError>
    ensures { IfOk result AreUnnamed }
{
    let mut words = CodePointTrieBuilder::new(alloc, 0, 0, TrieType::Fast)?;
    words.set_range_value(0xac00..=0xd7a3, 1).unwrap();
    Ok(words)
}

/// The words of characters. Fails only if memory is refused.
pub(super) fn words_of(
    alloc: Global,
    classes: &Classes<'_>,
    steps: &PackedVec<'_, u32>,
    lists: &ListWords,
    characters: &[char],
) -> Result<CodePointTrieBuilder<u32>, AllocError>
    requires classes { All (λ c. class_with classes.now.given.now c < 255) characters.now }
    requires triples { AreTriples steps.now }
    requires starters { AreStarters classes.now.given.now steps.now }
    requires lists { AreListWords steps.now lists.now }
    requires scalars { All IsScalar characters.now }
    ensures { IfOk result (HasWords classes.now.given.now steps.now lists.now.scalars24.items characters.now) }
{
    let mut words = unnamed_words(alloc)?;
    for c in characters {
        let word = word_of(classes, steps, lists, *c as u32);
        set_word(&mut words, *c as u32, word);
    }
    Ok(words)
}

/// The trie of words. Fails only if memory is refused.
pub(super) fn trie_of(
    words: &CodePointTrieBuilder<u32>,
) -> Result<CodePointTrie<'static, u32>, AllocError>
    requires wide { different_blocks (λ n. n) 512 words.now.values ≤ 800 }
    requires narrow { upper_blocks (λ n. n) words.now.values ≤ 12000 }
    ensures { IfOk result (IsTrieOf words.now) }
{
    match words.build() {
        Ok(trie) => Ok(trie),
        Err(CodePointTrieBuildError::Memory) => Err(AllocError),
        Err(CodePointTrieBuildError::TooLarge) => unreachable!(),
    }
}

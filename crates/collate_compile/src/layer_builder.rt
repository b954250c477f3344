//! A layer in the making: the words of characters, and the lists that they name indices in.

ghost use Rattle.std.specs.Prelude.{◌≡◌, ℕ, ◌+◌, ◌≤◌, ◌==◌, true, [], length, IfOk, OnOk};
ghost use Rattle.std.specs.Char.{IsScalar};
ghost use Rattle.icu_codepointtrie.specs.Blocks.{different_blocks, upper_blocks};
ghost use Rattle.icu_codepointtrie.specs.BuiltTries.{IsTrieOf};
ghost use Rattle.icu_codepointtrie.specs.Slots.{has_cell};
ghost use Rattle.icu_normalizer_core.specs.BuiltIn.{is_within};
ghost use Rattle.icu_collator_core.specs.TableMeaning.{pools_of, word_at};
ghost use Rattle.collate_words.specs.Entries.{saying_of};
ghost use Rattle.collate_words.specs.Fits.{HasRoom, IsFit};
ghost use Rattle.collate_words.specs.Growth.{GrowsFor};
ghost use Rattle.collate_words.specs.Sayings.{element_count, text_count};
ghost use Rattle.collate_compile.specs.LayerBuilds.{GivesWord, word_of};
ghost use Rattle.collate_compile.specs.Layers.{HasTrieType};

use collate_words::entry::Entry;
use collate_words::pools::Pools;
use icu_codepointtrie::{CodePointTrie, CodePointTrieBuildError, CodePointTrieBuilder, TrieType};
use icu_collator_core::tables::CollationData;
use icu_packed_vector::PackedVec;
use std::alloc::{AllocError, Global};

/// A layer in the making.
#[derive(Drop)]
pub(crate) struct LayerBuilder {
    /// The words.
    pub(crate) words: CodePointTrieBuilder<u32>,
    /// The lists that words name indices in.
    pub(crate) pools: Pools,
}

impl LayerBuilder {
    /// A layer in which every character has this word, over a trie of this type.
    ///
    /// Errors: `AllocError` where memory is refused.
    pub(crate) fn new(
        alloc: Global,
        unwritten: u32,
        trie_type: TrieType,
    ) -> Result<LayerBuilder, AllocError>
        ensures unwritten { IfOk result (λ layer. layer.words.default ≡ unwritten) }
        ensures words { IfOk result (λ layer. (c : ℕ) → word_of layer c ≡ unwritten) }
        ensures blocks { IfOk result (λ layer. (width : ℕ) → different_blocks (λ n. n) width layer.words.values ≤ 1) }
        ensures count { IfOk result (λ layer. length layer.words.values ≡ 0x110000) }
        ensures trie_type { IfOk result (λ layer. layer.words.trie_type ≡ trie_type) }
        ensures pools { IfOk result (λ layer. layer.pools ≡ record { ces = []; ce32s = []; contexts = [] }) }
    {
        Ok(LayerBuilder {
            words: CodePointTrieBuilder::new(alloc, unwritten, unwritten, trie_type)?,
            pools: Pools::new(alloc),
        })
    }

    /// Gives a character a word that says what an entry does.
    ///
    /// Errors: `AllocError` where memory is refused.
    pub(crate) fn write_character(
        &mut self,
        alloc: Global,
        character: char,
        entry: &Entry<'_>,
    ) -> Result<(), AllocError>
        requires fit { IsFit (saying_of entry.now) }
        requires room { HasRoom self.old.pools (element_count (saying_of entry.now)) (text_count (saying_of entry.now)) }
        ensures word { OnOk result (GivesWord self.old self.new (λ c. c == character) (saying_of entry.now)) }
        ensures size { OnOk result (GrowsFor (element_count (saying_of entry.now)) (text_count (saying_of entry.now)) self.old.pools self.new.pools) }
    {
        let word = self.pools.write_entry(alloc, entry)?;
        self.words.set_value(u32::from(character), word).unwrap();
        Ok(())
    }

    /// Gives the characters from the first to the last a word that says what an entry does.
    ///
    /// Errors: `AllocError` where memory is refused.
    pub(crate) fn write_range(
        &mut self,
        alloc: Global,
        first: char,
        last: char,
        entry: &Entry<'_>,
    ) -> Result<(), AllocError>
        requires fit { IsFit (saying_of entry.now) }
        requires room { HasRoom self.old.pools (element_count (saying_of entry.now)) (text_count (saying_of entry.now)) }
        ensures word { OnOk result (GivesWord self.old self.new (is_within first last) (saying_of entry.now)) }
        ensures size { OnOk result (GrowsFor (element_count (saying_of entry.now)) (text_count (saying_of entry.now)) self.old.pools self.new.pools) }
        ensures blocks { OnOk result ((width : ℕ)
            → different_blocks (λ n. n) width self.new.words.values ≤ different_blocks (λ n. n) width self.old.words.values + 3) }
    {
        let word = self.pools.write_entry(alloc, entry)?;
        let range = u32::from(first)..=u32::from(last);
        self.words.set_range_value(range, word).unwrap();
        Ok(())
    }

    /// The layer's data.
    ///
    /// Errors: `AllocError` where memory is refused.
    pub(crate) fn build(self, alloc: Global) -> Result<CollationData<'static>, AllocError>
        requires wide { different_blocks (λ n. n) 512 self.words.values ≤ 800 }
        requires narrow { upper_blocks (λ n. n) self.words.values ≤ 12000 }
        ensures trie_type { IfOk result (HasTrieType self.words.trie_type) }
        ensures cells { IfOk result (λ source. (c : ℕ) → has_cell source.trie c ≡ true) }
        ensures words { IfOk result (λ source. (c : ℕ) → IsScalar c → word_at source c ≡ word_of self c) }
        ensures pools { IfOk result (λ source. pools_of source ≡ self.pools) }
    {
        let LayerBuilder { words, pools } = self;
        let trie = build_trie(&words)?;
        let (ces, ce32s, contexts) = pools.into_lists();
        let ces = PackedVec::from_slice(alloc, ces.as_slice())?;
        let ce32s = PackedVec::from_slice(alloc, ce32s.as_slice())?;
        let contexts = PackedVec::from_slice(alloc, contexts.as_slice())?;
        Ok(CollationData {
            trie,
            ces,
            ce32s,
            contexts,
        })
    }
}

/// The trie of a map of few different blocks, of 512 code points, and of 16 from U+10000 on.
///
/// Errors: `AllocError` where memory is refused.
fn build_trie(words: &CodePointTrieBuilder<u32>) -> Result<CodePointTrie<'static, u32>, AllocError>
    requires wide { different_blocks (λ n. n) 512 words.now.values ≤ 800 }
    requires narrow { upper_blocks (λ n. n) words.now.values ≤ 12000 }
    ensures { IfOk result (IsTrieOf words.now) }
{
    match words.build() {
        Ok(trie) => Ok(trie),
        Err(CodePointTrieBuildError::Memory) => Err(AllocError),
        Err(CodePointTrieBuildError::TooLarge) => unreachable!(),
    }
}

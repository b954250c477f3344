//! Tries whose type is known, and with it the fast limit.
ghost use Rattle.std.specs.Prelude.{◌≡◌, ◌≢◌, Some, MatchResult};
ghost use Rattle.icu_codepointtrie.specs.Slots.{TrieTables, value_at};
ghost use Rattle.icu_codepointtrie.specs.declared.trie.TrieType.TheVariants.{Fast, Small};

use super::trie::{CodePointTrie, TrieType};
use super::value::TrieValue;

/// A trie whose type is known.
pub trait TypedCodePointTrie<T: TrieValue> {
    ghost use Rattle.icu_codepointtrie.specs.declared.trie.TrieType.{TrieType};

    /// The trie's tables.
    ghost tables: { Self → TrieTables T };

    /// The trie's type.
    ghost trie_type: { TrieType };

    /// The value of a character.
    fn get(&self, character: char) -> T
        ensures value { Some result ≡ value_at (tables self.now) character }
        ensures is_value { T.is_value result };

    /// The value of a number, the last cell's past 10FFFF (hex) and where the trie has no cell.
    fn get32(&self, code_point: u32) -> T
        ensures value { Some result ≡ value_at (tables self.now) code_point }
        ensures is_value { T.is_value result };

    /// The trie as one of either type.
    fn as_untyped_ref(&self) -> &CodePointTrie<'_, T>
        ensures { result.now ≡ tables self.now };

    ghost type_known: { (trie : Self) → (tables trie).header.trie_type ≡ trie_type };
}

/// A trie of type `Fast`.
#[derive(Debug, Drop)]
pub struct FastCodePointTrie<'a, T: TrieValue> {
    trie: CodePointTrie<'a, T>,
    ghost is_fast: { trie.header.trie_type ≡ Fast },
}

/// A trie of type `Small`.
#[derive(Debug, Drop)]
pub struct SmallCodePointTrie<'a, T: TrieValue> {
    trie: CodePointTrie<'a, T>,
    ghost is_small: { trie.header.trie_type ≡ Small },
}

impl<'a, T: TrieValue> TryFrom<CodePointTrie<'a, T>> for FastCodePointTrie<'a, T> {
    type Error = CodePointTrie<'a, T>;

    ghost try_from_gives = { λ trie answer. MatchResult answer (λ fast. fast.trie ≡ trie) (λ back. (back ≡ trie) × (trie.header.trie_type ≢ Fast)) };

    fn try_from(trie: CodePointTrie<'a, T>) -> Result<Self, Self::Error> {
        match trie.trie_type() {
            TrieType::Fast => Ok(FastCodePointTrie { trie }),
            TrieType::Small => Err(trie),
        }
    }
}

impl<'a, T: TrieValue> TryFrom<CodePointTrie<'a, T>> for SmallCodePointTrie<'a, T> {
    type Error = CodePointTrie<'a, T>;

    ghost try_from_gives = { λ trie answer. MatchResult answer (λ small. small.trie ≡ trie) (λ back. (back ≡ trie) × (trie.header.trie_type ≢ Small)) };

    fn try_from(trie: CodePointTrie<'a, T>) -> Result<Self, Self::Error> {
        match trie.trie_type() {
            TrieType::Fast => Err(trie),
            TrieType::Small => Ok(SmallCodePointTrie { trie }),
        }
    }
}

impl<'a, T: TrieValue> TypedCodePointTrie<T> for FastCodePointTrie<'a, T> {
    ghost tables = { λ fast. fast.trie };

    ghost trie_type = { Fast };

    #[inline]
    fn get(&self, character: char) -> T {
        self.get32(character as u32)
    }

    #[inline]
    fn get32(&self, code_point: u32) -> T {
        self.trie.typed_value(TrieType::Fast, code_point)
    }

    fn as_untyped_ref(&self) -> &CodePointTrie<'_, T> {
        &self.trie
    }

    ghost type_known = { λ fast. fast.is_fast };
}

impl<'a, T: TrieValue> TypedCodePointTrie<T> for SmallCodePointTrie<'a, T> {
    ghost tables = { λ small. small.trie };

    ghost trie_type = { Small };

    #[inline]
    fn get(&self, character: char) -> T {
        self.get32(character as u32)
    }

    #[inline]
    fn get32(&self, code_point: u32) -> T {
        self.trie.typed_value(TrieType::Small, code_point)
    }

    fn as_untyped_ref(&self) -> &CodePointTrie<'_, T> {
        &self.trie
    }

    ghost type_known = { λ small. small.is_small };
}

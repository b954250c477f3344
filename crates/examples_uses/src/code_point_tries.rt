//! Maps from code points to values: building a trie, and reading it.
ghost use Rattle.std.specs.Prelude.{◌≡◌, ◌≢◌, ◌≤◌, ℕ, Some, true, IfOk};
ghost use Rattle.icu_collections.specs.CodePointMaps.{mapped};
ghost use Rattle.icu_collections.specs.Slots.{value_at};

use icu_collections::codepointtrie::{
    CodePointTrie, CodePointTrieBuildError, CodePointTrieBuilder, TrieType,
};
use std::alloc::{AllocError, Global};

/// A map that has this value for one character, and 0 for all others.
pub fn map_of_char(
    alloc: Global,
    character: char,
    value: u16,
) -> Result<CodePointTrieBuilder<u16>, AllocError>
    ensures there { IfOk result (λ map. mapped map character ≡ value) }
    ensures elsewhere { IfOk result (λ map. (c : ℕ) → c ≤ 0x10FFFF → c ≢ character → mapped map c ≡ 0) }
{
    let mut map = CodePointTrieBuilder::new(alloc, 0u16, 0, TrieType::Fast)?;
    map.set_value(character as u32, value).unwrap();
    Ok(map)
}

/// A trie that has this value for one character, and 0 for all others.
pub fn trie_of_char(
    alloc: Global,
    character: char,
    value: u16,
) -> Result<CodePointTrie<'static, u16>, CodePointTrieBuildError>
    ensures there { IfOk result (λ trie. value_at trie character ≡ Some value) }
    ensures elsewhere { IfOk result (λ trie. (c : ℕ) → c ≤ 0x10FFFF → c ≢ character → value_at trie c ≡ Some 0) }
{
    let map = map_of_char(alloc, character, value)?;
    map.build()
}

/// What the trie that is built from a map reads for a character: what the map has.
pub fn read_through(
    map: &CodePointTrieBuilder<u16>,
    character: char,
) -> Result<u16, CodePointTrieBuildError>
    ensures { IfOk result (λ value. value ≡ mapped map.now character) }
{
    let trie = map.build()?;
    Ok(trie.get32(character as u32))
}

/// Whether a trie has the same value for both code points. It takes no memory.
pub fn reads_alike(trie: &CodePointTrie<'_, u16>, first: u32, second: u32) -> bool
    ensures { result ≡ true → value_at trie.now first ≡ value_at trie.now second }
{
    trie.get32(first) == trie.get32(second)
}

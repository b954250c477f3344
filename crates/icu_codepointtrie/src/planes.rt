//! The planes of Unicode: the 17 blocks of 65,536 code points.
ghost use Rattle.std.specs.Prelude.{◌≡◌, ℕ, ◌*◌, ◌/◌, ◌<◌, ◌≤◌, Some, length, IfOk};
ghost use Rattle.icu_codepointtrie.specs.CodePointMaps.{mapped};
ghost use Rattle.icu_codepointtrie.specs.Slots.{value_at};

use super::builder::{CodePointTrieBuildError, CodePointTrieBuilder};
use super::trie::{CodePointTrie, TrieType};
use std::alloc::{AllocError, Global};

/// The map from code points to their planes.
fn plane_map(alloc: Global) -> Result<CodePointTrieBuilder<u8>, AllocError>
    ensures all { IfOk result (λ map. length map.values ≡ 0x110000) }
    ensures planes { IfOk result (λ map. (c : ℕ) → c ≤ 0x10FFFF → mapped map c ≡ c / 0x10000) }
    ensures error { IfOk result (λ map. map.error ≡ 0) }
{
    let mut map = CodePointTrieBuilder::new(alloc, 0u8, 0, TrieType::Fast)?;
    for plane in 0..17u8 {
        let first = u32::from(plane) * 0x1_0000;
        match map.set_range_value(first..=first + 0xffff, plane) {
            Ok(()) => (),
            Err(_) => unreachable!(),
        }
    }
    Ok(map)
}

/// The trie of the planes: each code point has the number of its plane, from 0 to 16, and numbers
/// past 10FFFF (hex) have 0. The only error is `AllocError`.
pub fn get_planes_trie(alloc: Global) -> Result<CodePointTrie<'static, u8>, AllocError>
    ensures planes { IfOk result (λ trie. (c : ℕ) → c ≤ 0x10FFFF → value_at trie c ≡ Some (c / 0x10000)) }
    ensures past { IfOk result (λ trie. (c : ℕ) → 0x10FFFF < c → value_at trie c ≡ Some 0) }
{
    let map = plane_map(alloc)?;
    match map.build() {
        Ok(trie) => Ok(trie),
        Err(CodePointTrieBuildError::Memory) => Err(AllocError),
        Err(CodePointTrieBuildError::TooLarge) => unreachable!(),
    }
}

//! The trie of a map.
ghost use Rattle.std.specs.Prelude.{◌≡◌, ◌+◌, ◌*◌, ◌<◌, ◌≤◌, ◌⊎◌, length, map, take, drop, IfOk, IfErr};
ghost use Rattle.icu_codepointtrie.specs.Slots.{fast_limit};
ghost use Rattle.icu_codepointtrie.specs.Blocks.{different_blocks, upper_blocks};
ghost use Rattle.icu_codepointtrie.specs.BuiltTries.{IsTrieOf, AreAllCells};
ghost use Rattle.icu_codepointtrie.specs.declared.builder.compaction.CodePointTrieBuildError.TheVariants.{TooLarge, Memory};

use super::super::trie::CodePointTrie;
use super::super::value::TrieValue;
use super::CodePointTrieBuilder;
use super::compaction::CodePointTrieBuildError;
use super::layout::Layout;
use icu_packed_vector::PackedVec;
use std::alloc::AllocError;

/// Puts the last code point's value and the error value after the cells. The only error is
/// `AllocError`.
fn put_last_two<T: TrieValue>(cells: &mut Vec<T>, values: &[T], error: T) -> Result<(), AllocError>
    requires { length values.now ≡ 0x110000 }
    ensures { IfOk result (λ _. AreAllCells T.number (map T.number values.now) cells.old.items error cells.new.items) }
{
    cells.push(values[0x10_FFFF])?;
    cells.push(error)?;
    Ok(())
}

impl<T: TrieValue> CodePointTrieBuilder<T> {
    /// The trie that reads the map: for each code point the map's value, and the error value past
    /// 10FFFF (hex). Equal blocks of 64 code points below the fast limit, but the first two, and of
    /// 16 from there on share their data cells, and blocks overlap where their ends agree. From the
    /// last run of one value on there are no blocks. Refused as `TooLarge` where the map has more
    /// than 800 different aligned blocks of 512 code points, or more than 12,000 of 16 from U+10000
    /// on, or as `Memory`. The map is as before in any case.
    pub fn build(&self) -> Result<CodePointTrie<'static, T>, CodePointTrieBuildError>
        ensures reads { IfOk result (IsTrieOf self.now) }
        ensures cells { IfOk result (λ trie. length trie.cells ≤ 64 * different_blocks T.number 64 (take (fast_limit self.now.trie_type) self.now.values) + 16 * different_blocks T.number 16 (drop (fast_limit self.now.trie_type) self.now.values) + 160) }
        ensures refused { IfErr result (λ error. (error ≡ Memory) ⊎ ((error ≡ TooLarge) × ((800 < different_blocks T.number 512 self.now.values) ⊎ (12000 < upper_blocks T.number self.now.values)))) }
    {
        let alloc = *self.values.allocator();
        let values = self.values.as_slice();
        let mut cells = Vec::new(alloc);
        let layout = match Layout::new(alloc, &mut cells, values, self.trie_type) {
            Ok(layout) => layout,
            Err(error) => return Err(error),
        };
        let index = layout.index()?;
        put_last_two(&mut cells, values, self.error_value)?;
        let index = PackedVec::from_slice(alloc, index.as_slice())?;
        let cells = PackedVec::from_slice(alloc, cells.as_slice())?;
        let header = layout.header(self.default_value.to_u32());
        Ok(CodePointTrie::from_tables(header, index, cells))
    }
}

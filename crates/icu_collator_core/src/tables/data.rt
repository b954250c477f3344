//! The words of characters, and the lists that words name indices in.

ghost use Rattle.std.specs.Prelude.{◌≡◌, IfOk};

use icu_codepointtrie::CodePointTrie;
use icu_packed_vector::PackedVec;
use std::alloc::{AllocError, Global};

/// The word of each character, and the lists that words name indices in. There is one of the root, and one
/// of a tailoring, which names indices in its own lists.
#[derive(Debug, PartialEq)]
pub struct CollationData<'a> {
    /// The words. In a tailoring the fallback, C0 (hex), is the word of a character that it leaves to the root.
    pub trie: CodePointTrie<'a, u32>,
    /// The elements of expansions, 64 bits each, and the primaries of ranges with what moves them.
    pub ces: PackedVec<'a, u64>,
    /// The words of expansions, and of digits where numbers aren't compared by value.
    pub ce32s: PackedVec<'a, u32>,
    /// Contexts: each a default word in two units, the upper first, and a unit trie of what may stand after a character
    /// or before it. A prefix stands there the nearest character first.
    pub contexts: PackedVec<'a, u16>,
}

// (let go of as one, and not part by part, so that what owns one is proved sooner)
impl Drop for CollationData<'_> {
    fn drop(self) {
        let CollationData {
            trie: _,
            ces: _,
            ce32s: _,
            contexts: _,
        } = self;
    }
}

impl<'a> CollationData<'a> {
    /// The same data: borrowed lists are borrowed again, others copied. Fails only if memory is refused.
    pub fn clone(&self, alloc: Global) -> Result<CollationData<'a>, AllocError>
        ensures { IfOk result (λ copy. copy ≡ self.now) }
    {
        let trie = self.trie.clone(alloc)?;
        let ces = self.ces.clone(alloc)?;
        let ce32s = self.ce32s.clone(alloc)?;
        let contexts = self.contexts.clone(alloc)?;
        Ok(CollationData {
            trie,
            ces,
            ce32s,
            contexts,
        })
    }
}

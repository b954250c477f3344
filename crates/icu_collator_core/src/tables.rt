//! The tables of a collation, as ICU4X packs them, not yet checked. What they say of characters and texts
//! stands in `specs/TableMeaning.antt`.

ghost use Rattle.std.specs.Prelude.{◌≡◌, IfOk};

mod data;
mod metadata;
mod reordering;
mod special_primaries;

pub use data::CollationData;
use icu_packed_vector::PackedVec;
pub use metadata::CollationMetadata;
pub use reordering::CollationReordering;
pub use special_primaries::CollationSpecialPrimaries;
use std::alloc::{AllocError, Global};

/// The secondaries of marks.
#[derive(Debug, PartialEq, Drop)]
pub struct CollationDiacritics<'a> {
    /// The secondary of each mark from U+0300 on, whatever word it has.
    pub secondaries: PackedVec<'a, u16>,
}

/// The words of Hangul jamo.
#[derive(Debug, PartialEq, Drop)]
pub struct CollationJamo<'a> {
    /// The word of each character from U+1100 to U+11FF, whatever word it has elsewhere.
    pub ce32s: PackedVec<'a, u32>,
}

/// The tables of a collation.
#[derive(Debug, PartialEq)]
pub struct CollationTables<'a> {
    /// The data of all characters.
    pub root: CollationData<'a>,
    /// Data that count before the root's.
    pub tailoring: Option<CollationData<'a>>,
    /// The secondaries of marks.
    pub diacritics: CollationDiacritics<'a>,
    /// The words of Hangul jamo.
    pub jamo: CollationJamo<'a>,
    /// What primaries stand in the place of others; none where each stands in its own.
    pub reordering: Option<CollationReordering<'a>>,
    /// The settings. That they say whether there is a tailoring, or a reordering, serves those who load
    /// tables; here the two fields decide.
    pub metadata: CollationMetadata,
    /// Groups, compressible leads, and the lead of numbers.
    pub special_primaries: CollationSpecialPrimaries<'a>,
}

// (let go of as one, and not part by part, so that what owns one is proved sooner)
impl Drop for CollationTables<'_> {
    fn drop(self) {
        let CollationTables {
            root: _,
            tailoring: _,
            diacritics: _,
            jamo: _,
            reordering: _,
            metadata: _,
            special_primaries: _,
        } = self;
    }
}

impl<'a> CollationDiacritics<'a> {
    /// The same secondaries: borrowed again, or copied. Fails only if memory is refused.
    pub fn clone(&self, alloc: Global) -> Result<CollationDiacritics<'a>, AllocError>
        ensures { IfOk result (λ copy. copy ≡ self.now) }
    {
        let secondaries = self.secondaries.clone(alloc)?;
        Ok(CollationDiacritics { secondaries })
    }
}

impl<'a> CollationJamo<'a> {
    /// The same words: borrowed again, or copied. Fails only if memory is refused.
    pub fn clone(&self, alloc: Global) -> Result<CollationJamo<'a>, AllocError>
        ensures { IfOk result (λ copy. copy ≡ self.now) }
    {
        let ce32s = self.ce32s.clone(alloc)?;
        Ok(CollationJamo { ce32s })
    }
}

impl<'a> CollationTables<'a> {
    /// The same tables: borrowed lists are borrowed again, others copied. Fails only if memory is refused.
    pub fn clone(&self, alloc: Global) -> Result<CollationTables<'a>, AllocError>
        ensures { IfOk result (λ copy. copy ≡ self.now) }
    {
        let root = self.root.clone(alloc)?;
        let tailoring = self.clone_tailoring(alloc)?;
        let diacritics = self.diacritics.clone(alloc)?;
        let jamo = self.jamo.clone(alloc)?;
        let reordering = self.clone_reordering(alloc)?;
        let special_primaries = self.special_primaries.clone(alloc)?;
        Ok(CollationTables {
            root,
            tailoring,
            diacritics,
            jamo,
            reordering,
            metadata: self.metadata,
            special_primaries,
        })
    }

    /// The same tailoring, if there is one.
    fn clone_tailoring(&self, alloc: Global) -> Result<Option<CollationData<'a>>, AllocError>
        ensures { IfOk result (λ copy. copy ≡ self.now.tailoring) }
    {
        match &self.tailoring {
            Some(tailoring) => {
                let tailoring = tailoring.clone(alloc)?;
                Ok(Some(tailoring))
            }
            None => Ok(None),
        }
    }

    /// The same reordering, if there is one.
    fn clone_reordering(&self, alloc: Global) -> Result<Option<CollationReordering<'a>>, AllocError>
        ensures { IfOk result (λ copy. copy ≡ self.now.reordering) }
    {
        match &self.reordering {
            Some(reordering) => {
                let reordering = reordering.clone(alloc)?;
                Ok(Some(reordering))
            }
            None => Ok(None),
        }
    }
}

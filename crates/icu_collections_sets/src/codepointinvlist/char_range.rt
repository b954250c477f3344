//! Ranges of characters, and the set of one.
ghost use Rattle.std.specs.Prelude.{◌≡◌, ℕ, ◌+◌, ◌<◌, ◌≤◌, [], ◌∷◌, MatchResult, ◌&&◌, nat_le, if◌then◌else◌};
ghost use Rattle.std.specs.Range.{range_inclusive_start, range_inclusive_end, range_inclusive_exhausted};
ghost use Rattle.icu_collections_sets.specs.RangeErrors.{IsRefusedRange};

use super::inversion_list::CodePointInversionList;
use crate::packed_vector::PackedVec;
use std::alloc::{AllocError, Global};
use std::ops::{Range, RangeFrom, RangeFull, RangeInclusive, RangeTo, RangeToInclusive};
use thiserror::Error;

/// A range of characters, of one of the six types of the standard library.
pub trait CharRange {
    /// The code point that the range begins with, and the one past its last.
    ghost code_points: { Self → ℕ × ℕ };

    /// The code point that the range begins with, and the one past its last.
    fn bounds(self) -> (u32, u32)
        ensures from { result.0 ≡ (code_points self).0 }
        ensures till { result.1 ≡ (code_points self).1 }
        ensures end { result.1 ≤ 0x110000 };
}

impl CharRange for Range<char> {
    ghost code_points = { λ range. (range.start, range.end) };

    fn bounds(self) -> (u32, u32) {
        (self.start as u32, self.end as u32)
    }
}

impl CharRange for RangeInclusive<char> {
    ghost code_points = { λ range. (range_inclusive_start range, range_inclusive_end range + (if range_inclusive_exhausted range && nat_le (range_inclusive_start range) (range_inclusive_end range) then 0 else 1)) };

    fn bounds(self) -> (u32, u32) {
        let is_spent = self.is_empty() && self.start() <= self.end();
        let (start, end) = self.into_inner();
        (
            start as u32,
            if is_spent { end as u32 } else { end as u32 + 1 },
        )
    }
}

impl CharRange for RangeFrom<char> {
    ghost code_points = { λ range. (range.start, 0x110000) };

    fn bounds(self) -> (u32, u32) {
        (self.start as u32, 0x11_0000)
    }
}

impl CharRange for RangeTo<char> {
    ghost code_points = { λ range. (0, range.end) };

    fn bounds(self) -> (u32, u32) {
        (0, self.end as u32)
    }
}

impl CharRange for RangeToInclusive<char> {
    ghost code_points = { λ range. (0, range.end + 1) };

    fn bounds(self) -> (u32, u32) {
        (0, self.end as u32 + 1)
    }
}

impl CharRange for RangeFull {
    ghost code_points = { λ _. (0, 0x110000) };

    fn bounds(self) -> (u32, u32) {
        (0, 0x11_0000)
    }
}

/// A range that holds nothing: where it begins, and one past its last, which isn't above that.
#[derive(Clone, Copy, Debug, PartialEq, Eq, Error)]
#[error("Invalid range: {0}..{1}")]
pub struct RangeError(pub u32, pub u32);

/// Why there is no set of a range.
#[derive(Clone, Copy, Debug, PartialEq, Eq, Error)]
pub enum FromRangeError {
    /// The range holds nothing.
    #[error(transparent)]
    Range(RangeError),
    /// Memory was refused.
    #[error("out of memory")]
    Memory,
}

impl From<AllocError> for FromRangeError {
    ghost use Rattle.std.specs.Prelude.{◌≡◌};
    ghost use Rattle.icu_collections_sets.specs.declared.codepointinvlist.char_range.FromRangeError.TheVariants.{Memory};

    ghost from_gives = { λ _ error. error ≡ Memory };

    fn from(_: AllocError) -> FromRangeError {
        FromRangeError::Memory
    }
}

impl CodePointInversionList<'static> {
    /// The set of the code points of a range of characters, surrogates between them too, in memory
    /// of its own. Refused for an empty range, or when out of memory.
    pub fn try_from_range<R: CharRange>(
        alloc: Global,
        range: R,
    ) -> Result<CodePointInversionList<'static>, FromRangeError>
        ensures { MatchResult result
            (λ set. ((R.code_points range).0 < (R.code_points range).1) × (set ≡ (R.code_points range).0 ∷ (R.code_points range).1 ∷ []))
            (IsRefusedRange (R.code_points range).0 (R.code_points range).1) }
    {
        let (from, till) = range.bounds();
        if from >= till {
            return Err(FromRangeError::Range(RangeError(from, till)));
        }
        let edges = PackedVec::from_slice(alloc, &[from, till])?;
        Ok(CodePointInversionList::of_edges(edges))
    }
}

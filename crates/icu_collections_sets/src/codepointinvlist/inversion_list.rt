//! Sets of code points as sorted lists of the numbers at which the set begins and ends in turn.
ghost use Rattle.std.specs.Prelude.{◌≡◌, ℕ, ◌+◌, ◌-◌, ◌*◌, ◌/◌, ◌%◌, ◌<◌, ◌≤◌, ◌↔◌, IsTrue, true, false, length, [], ◌∷◌, slice_get, ◌==◌, ◌&&◌, nat_lt, not, Some, None, IfOk, IfSome, MatchOption, MatchResult, if◌then◌else◌};
ghost use Rattle.std.proofs.Common.{rules};
ghost use Rattle.std.specs.Hash as fed;
ghost use Rattle.std.specs.Cmp.Rules.{hashing};
ghost use Rattle.std.specs.Cmp.{partial_equiv_from_equiv, nat_eq_equiv};
ghost use Rattle.std.specs.Cmp.Lexicographic.{pointwise, lists_per, nat_list_eq_equiv};
ghost use Rattle.std.specs.Range.{range_inclusive_start, range_inclusive_end, range_inclusive_exhausted};
ghost use Rattle.icu_collections_sets.specs.CodePoints.{IsInversionList, Rises, IsCountUpTo, holds, is_in, count_below, ranges_of, in_ranges};
ghost use Rattle.icu_collections_sets.specs.Characters.{characters_of};
ghost use Rattle.icu_collections_sets.specs.Gaps.{AreGapsOf};
ghost use Rattle.icu_collections_sets.specs.SetErrors.{IsRefusedSlice};

use super::gaps::ComplementedRanges;
use super::ranges::CodePointRanges;
use super::set_characters::Chars;
use crate::packed_vector::PackedVec;
use std::alloc::{AllocError, Global};
use std::hash::{Hash, Hasher};
use std::marker::Model;
use std::ops::RangeInclusive;
use thiserror::Error;

/// A set of code points, seen as its inversion list: the numbers, each above the one before, at
/// which the set begins and ends in turn, none past 110000 hex, one past the last code point.
#[derive(Debug, Drop)]
pub struct CodePointInversionList<'a> {
    edges: PackedVec<'a, u32>,
}

impl<'a> Model for CodePointInversionList<'a> {
    ghost use Rattle.std.specs.Prelude.{ℕ, List};
    ghost use Rattle.icu_collections_sets.specs.CodePoints.{IsInversionList};

    ghost Value = { List ℕ };

    ghost view = { λ inside. inside.edges };

    ghost invariant = { λ inside. IsInversionList inside.edges };
}

/// A list of numbers that is not an inversion list: it has an odd length, doesn't rise, or goes
/// past 110000 hex.
#[derive(Debug, PartialEq, Eq, Drop, Error)]
#[error("Invalid set: {0:?}")]
pub struct InvalidSetError<'a>(pub PackedVec<'a, u32>);

/// Why a slice is not a set of code points.
#[derive(Debug, PartialEq, Eq, Drop, Error)]
pub enum SetError {
    /// The numbers are not an inversion list.
    #[error(transparent)]
    Invalid(InvalidSetError<'static>),
    /// Memory was refused.
    #[error("out of memory")]
    Memory,
}

impl From<AllocError> for SetError {
    ghost use Rattle.std.specs.Prelude.{◌≡◌};
    ghost use Rattle.icu_collections_sets.specs.declared.codepointinvlist.inversion_list.SetError.TheVariants.{Memory};

    ghost from_gives = { λ _ error. error ≡ Memory };

    fn from(_: AllocError) -> SetError {
        SetError::Memory
    }
}

/// Whether numbers are an inversion list.
fn is_inversion_list(edges: &PackedVec<'_, u32>) -> bool
    ensures { IsTrue result ↔ IsInversionList edges.now }
{
    if edges.len() % 2 != 0 {
        return false;
    }
    let mut least = 0;
    for edge in edges.iter() {
        if edge < least || edge > 0x11_0000 {
            return false;
        }
        least = edge + 1;
    }
    true
}

/// A count, plus the length of a stretch where the stretch is held.
fn grown(count: usize, held: bool, length: u32) -> usize
    requires { count ≤ 0x110000 }
    ensures { result ≡ count + (if held then length else 0) }
{
    if held { count + length as usize } else { count }
}

/// How many edges are at most this code point.
fn edges_up_to(edges: &PackedVec<'_, u32>, code_point: u32) -> usize
    requires { Rises 0 edges.now }
    ensures { IsCountUpTo edges.now code_point result }
{
    let mut low = 0;
    let mut high = edges.len();
    while low < high {
        let middle = low + (high - low) / 2;
        if edges.at(middle) <= code_point {
            low = middle + 1;
        } else {
            high = middle;
        }
    }
    low
}

impl<'a> CodePointInversionList<'a> {
    /// The set of this inversion list. A list that is not one is refused and handed back.
    pub fn try_from_inversion_list(
        list: PackedVec<'a, u32>,
    ) -> Result<CodePointInversionList<'a>, InvalidSetError<'a>>
        ensures { MatchResult result (λ set. IsInversionList list.entry × (set ≡ list.entry)) (λ error. (¬ IsInversionList list.entry) × (error.0 ≡ list.entry)) }
    {
        if is_inversion_list(&list) {
            Ok(CodePointInversionList { edges: list })
        } else {
            Err(InvalidSetError(list))
        }
    }

    /// The set of a list that is an inversion list.
    pub(super) fn of_edges(edges: PackedVec<'a, u32>) -> CodePointInversionList<'a>
        requires { IsInversionList edges }
        ensures { result ≡ edges.entry }
    {
        CodePointInversionList { edges }
    }

    /// Whether the set holds a code point; no number past 10FFFF hex is one. A binary search, which
    /// allocates nothing.
    pub fn contains32(&self, code_point: u32) -> bool
        ensures { result ≡ holds self.now code_point }
    {
        edges_up_to(&self.edges, code_point) % 2 == 1
    }

    /// Whether the set holds a character.
    pub fn contains(&self, character: char) -> bool
        ensures { result ≡ holds self.now character }
    {
        self.contains32(character as u32)
    }

    /// The inversion list, in a vector. The only error is `AllocError`.
    pub fn get_inversion_list_vec(&self, alloc: Global) -> Result<Vec<u32>, AllocError>
        ensures list { IfOk result (λ edges. edges.items ≡ self.now) }
        ensures valid { IfOk result (λ edges. IsInversionList edges.items) }
    {
        self.edges.iter().collect(alloc)
    }

    /// The same set in memory of its own. The only error is `AllocError`; then the set is dropped.
    pub fn into_owned(self, alloc: Global) -> Result<CodePointInversionList<'static>, AllocError>
        ensures { IfOk result (λ set. set ≡ self.entry) }
    {
        let edges = self.edges.into_owned(alloc)?;
        Ok(CodePointInversionList { edges })
    }

    /// The same set: a borrowed list is borrowed again, another copied. The only error is
    /// `AllocError`.
    pub fn clone(&self, alloc: Global) -> Result<CodePointInversionList<'a>, AllocError>
        ensures { IfOk result (λ set. set ≡ self.now) }
    {
        let edges = self.edges.clone(alloc)?;
        Ok(CodePointInversionList { edges })
    }

    /// Whether the set holds nothing.
    pub fn is_empty(&self) -> bool
        ensures list { IsTrue result ↔ (self.now ≡ []) }
    {
        self.edges.is_empty()
    }

    /// The number of ranges.
    pub fn get_range_count(&self) -> usize
        ensures { result ≡ length (ranges_of self.now) }
    {
        self.edges.len() / 2
    }

    /// The range at an index, both ends included, or `None` past the last.
    pub fn get_nth_range(&self, index: usize) -> Option<RangeInclusive<u32>>
        ensures { MatchOption result (length (ranges_of self.now) ≤ index) (λ range. slice_get (ranges_of self.now) index ≡ Some (range_inclusive_start range, range_inclusive_end range) × (range_inclusive_exhausted range ≡ false)) }
    {
        if index >= self.edges.len() / 2 {
            return None;
        }
        let start = self.edges.at(2 * index);
        let end = self.edges.at(2 * index + 1);
        Some(start..=end - 1)
    }

    /// The characters that the set holds, in order; surrogates are not characters.
    pub fn iter_chars(&self) -> Chars<'_>
        ensures characters { result ≡ characters_of self.now }
        ensures count { length result ≤ 0x110000 }
    {
        Chars::new(self.edges.iter())
    }

    /// The ranges in order, both ends included.
    pub fn iter_ranges(&self) -> CodePointRanges<'_>
        ensures ranges { result ≡ ranges_of self.now }
        ensures members { (c : ℕ) → in_ranges result c ≡ holds self.now c }
        ensures valid { IsInversionList self.now }
    {
        CodePointRanges::new(self.edges.iter())
    }

    /// The ranges of code points that the set doesn't hold, in order, both ends included: those of
    /// the complement.
    pub fn iter_ranges_complemented(&self) -> ComplementedRanges<'_>
        ensures members { (c : ℕ) → in_ranges result c ≡ (nat_lt c 0x110000 && not (holds self.now c)) }
        ensures ranges { AreGapsOf self.now result }
    {
        let edges = self.edges.iter();
        ComplementedRanges::new(edges, self.contains32(0), self.contains32(0x10_FFFF))
    }

    /// How many code points below this one the set holds.
    fn count_before(&self, code_point: u32) -> usize
        ensures { result ≡ count_below (holds self.now) code_point }
    {
        let mut count = 0;
        let mut inside = false;
        let mut last = 0;
        for edge in self.edges.iter() {
            if edge >= code_point {
                return grown(count, inside, code_point - last);
            }
            count = grown(count, inside, edge - last);
            inside = !inside;
            last = edge;
        }
        grown(count, inside, code_point - last)
    }

    /// The number of code points that the set holds.
    pub fn size(&self) -> usize
        ensures { result ≡ count_below (holds self.now) 0x110000 }
    {
        self.count_before(0x11_0000)
    }

    /// How many code points of the set are below one that it holds; `None` for one that it doesn't.
    pub fn position32(&self, code_point: u32) -> Option<usize>
        ensures { result ≡ (if holds self.now code_point then Some (count_below (holds self.now) code_point) else None) }
    {
        if self.contains32(code_point) {
            Some(self.count_before(code_point))
        } else {
            None
        }
    }

    /// Whether the set holds every code point from the first to the last.
    fn holds_all(&self, first: u32, last: u32) -> bool
        ensures { IsTrue result ↔ ((c : ℕ) → first ≤ c → c ≤ last → holds self.now c ≡ true) }
    {
        if first > last {
            return true;
        }
        let index = edges_up_to(&self.edges, first);
        index % 2 == 1 && last < self.edges.at(index)
    }

    /// Whether the set holds every code point from the start of the range to its end, surrogates
    /// between them too. False for an empty range.
    pub fn contains_range(&self, range: RangeInclusive<char>) -> bool
        ensures { IsTrue result ↔ ((range_inclusive_exhausted range ≡ false) × (range_inclusive_start range ≤ range_inclusive_end range)
            × ((c : ℕ) → range_inclusive_start range ≤ c → c ≤ range_inclusive_end range → holds self.now c ≡ true)) }
    {
        if range.is_empty() {
            return false;
        }
        self.holds_all(*range.start() as u32, *range.end() as u32)
    }

    /// Whether the set holds every code point that the other holds.
    pub fn contains_set(&self, other: &CodePointInversionList<'_>) -> bool
        ensures { IsTrue result ↔ ((c : ℕ) → holds other.now c ≡ true → holds self.now c ≡ true) }
    {
        for range in other.iter_ranges() {
            if !self.holds_all(*range.start(), *range.end()) {
                return false;
            }
        }
        true
    }
}

impl PartialEq for CodePointInversionList<'_> {
    ghost eq = { pointwise ◌==◌ };

    ghost laws = { lists_per (partial_equiv_from_equiv nat_eq_equiv) };

    fn eq(&self, other: &Self) -> bool {
        self.edges == other.edges
    }
}

impl Eq for CodePointInversionList<'_> {
    ghost laws = { nat_list_eq_equiv };
}

impl Hash for CodePointInversionList<'_> {
    ghost hash_input = { λ edges. fed.slice fed.u32 edges };

    ghost respects_eq = { Prim.search (hashing, rules) };

    fn hash<H: Hasher>(&self, state: &mut H) {
        state.write_usize(self.edges.len());
        for edge in self.edges.iter() {
            edge.hash(state);
        }
    }
}

/// The numbers 0 and 110000 hex, packed.
const ALL: &[u8] = &[0, 0, 0, 0, 0, 0, 0x11, 0];

/// The numbers 0 and 10000 hex, packed.
const BMP: &[u8] = &[0, 0, 0, 0, 0, 0, 1, 0];

impl CodePointInversionList<'static> {
    /// The set of all code points. It takes no memory.
    #[tactic(auto, unfolding(icu_packed_vector::specs::Items::items_of))]
    pub fn all() -> CodePointInversionList<'static>
        ensures { result ≡ 0 ∷ 0x110000 ∷ [] }
    {
        match PackedVec::try_from_bytes(ALL) {
            Ok(edges) => CodePointInversionList { edges },
            Err(_) => unreachable!(),
        }
    }

    /// The set of the code points up to FFFF hex. It takes no memory.
    #[tactic(auto, unfolding(icu_packed_vector::specs::Items::items_of))]
    pub fn bmp() -> CodePointInversionList<'static>
        ensures { result ≡ 0 ∷ 0x10000 ∷ [] }
    {
        match PackedVec::try_from_bytes(BMP) {
            Ok(edges) => CodePointInversionList { edges },
            Err(_) => unreachable!(),
        }
    }

    /// The set of the inversion list in a slice, in memory of its own. Refused where the numbers
    /// are not one, or when out of memory.
    pub fn try_from_u32_inversion_list_slice(
        alloc: Global,
        list: &[u32],
    ) -> Result<CodePointInversionList<'static>, SetError>
        ensures { MatchResult result (λ set. IsInversionList list.now × (set ≡ list.now)) (IsRefusedSlice list.now) }
    {
        let list = PackedVec::from_slice(alloc, list)?;
        match CodePointInversionList::try_from_inversion_list(list) {
            Ok(set) => Ok(set),
            Err(error) => Err(SetError::Invalid(error)),
        }
    }
}

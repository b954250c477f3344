//! The calls of the builder that keep, complement and take whole sets.
ghost use Rattle.std.specs.Prelude.{◌≡◌, ℕ, ◌<◌, ◌≤◌, OnOk, OnErr, nat_lt};
ghost use Rattle.icu_collections_sets.specs.CodePoints.{holds};
ghost use Rattle.icu_collections_sets.specs.Operations.{IsOperated, IsUnion, IsDifference, IsIntersection, IsSymmetricDifference};
ghost use Rattle.icu_collections_sets.specs.SetEdits.{in_range, is_code_point, is_within};

use super::CodePointInversionListBuilder;
use crate::codepointinvlist::inversion_list::CodePointInversionList;
use crate::codepointinvlist::operation::Operation;
use std::alloc::AllocError;
use std::ops::RangeInclusive;

impl CodePointInversionListBuilder {
    /// Applies an operation to the set and another one.
    fn combine_set(
        &mut self,
        operation: Operation,
        set: &CodePointInversionList<'_>,
    ) -> Result<(), AllocError>
        ensures ok { OnOk result (IsOperated operation (holds self.old) (holds set.now) self.new) }
        ensures err { OnErr result (self.new ≡ self.old) }
    {
        let others = set.get_inversion_list_vec(*self.edges.allocator())?;
        self.combine(operation, others.as_slice())
    }

    /// The same with the code points from one character to another.
    fn combine_chars(
        &mut self,
        operation: Operation,
        range: RangeInclusive<char>,
    ) -> Result<(), AllocError>
        ensures ok { OnOk result (IsOperated operation (holds self.old) (in_range range) self.new) }
        ensures err { OnErr result (self.new ≡ self.old) }
    {
        if range.is_empty() {
            return self.combine_range(operation, 0, 0);
        }
        self.combine_range(operation, *range.start() as u32, *range.end() as u32 + 1)
    }

    /// Adds what another set holds.
    pub fn add_set(&mut self, set: &CodePointInversionList<'_>) -> Result<(), AllocError>
        ensures ok { OnOk result (IsUnion (holds self.old) (holds set.now) self.new) }
        ensures err { OnErr result (self.new ≡ self.old) }
    {
        self.combine_set(Operation::Union, set)
    }

    /// Removes what another set holds.
    pub fn remove_set(&mut self, set: &CodePointInversionList<'_>) -> Result<(), AllocError>
        ensures ok { OnOk result (IsDifference (holds self.old) (holds set.now) self.new) }
        ensures err { OnErr result (self.new ≡ self.old) }
    {
        self.combine_set(Operation::Difference, set)
    }

    /// Keeps only the code points of a range; none for an empty range.
    pub fn retain_range32(&mut self, range: RangeInclusive<u32>) -> Result<(), AllocError>
        ensures ok { OnOk result (IsIntersection (holds self.old) (in_range range) self.new) }
        ensures err { OnErr result (self.new ≡ self.old) }
    {
        self.combine_range32(Operation::Intersection, range)
    }

    /// Keeps only the code points from one character to another; none for an empty range.
    pub fn retain_range(&mut self, range: RangeInclusive<char>) -> Result<(), AllocError>
        ensures ok { OnOk result (IsIntersection (holds self.old) (in_range range) self.new) }
        ensures err { OnErr result (self.new ≡ self.old) }
    {
        self.combine_chars(Operation::Intersection, range)
    }

    /// Keeps only a code point; none for a number past 10FFFF hex.
    pub fn retain32(&mut self, code_point: u32) -> Result<(), AllocError>
        ensures ok { OnOk result (IsIntersection (holds self.old) (is_code_point code_point) self.new) }
        ensures err { OnErr result (self.new ≡ self.old) }
    {
        self.combine_code_point(Operation::Intersection, code_point)
    }

    /// Keeps only a character.
    pub fn retain_char(&mut self, character: char) -> Result<(), AllocError>
        ensures ok { OnOk result (IsIntersection (holds self.old) (is_code_point character) self.new) }
        ensures err { OnErr result (self.new ≡ self.old) }
    {
        self.combine_code_point(Operation::Intersection, character as u32)
    }

    /// Keeps only what another set holds too.
    pub fn retain_set(&mut self, set: &CodePointInversionList<'_>) -> Result<(), AllocError>
        ensures ok { OnOk result (IsIntersection (holds self.old) (holds set.now) self.new) }
        ensures err { OnErr result (self.new ≡ self.old) }
    {
        self.combine_set(Operation::Intersection, set)
    }

    /// Complements within a range: what was held of it no longer is, and the other way round. An
    /// empty range changes nothing.
    pub fn complement_range32(&mut self, range: RangeInclusive<u32>) -> Result<(), AllocError>
        ensures ok { OnOk result (IsSymmetricDifference (holds self.old) (in_range range) self.new) }
        ensures err { OnErr result (self.new ≡ self.old) }
    {
        self.combine_range32(Operation::SymmetricDifference, range)
    }

    /// Complements from one character to another. An empty range changes nothing.
    pub fn complement_range(&mut self, range: RangeInclusive<char>) -> Result<(), AllocError>
        ensures ok { OnOk result (IsSymmetricDifference (holds self.old) (in_range range) self.new) }
        ensures err { OnErr result (self.new ≡ self.old) }
    {
        self.combine_chars(Operation::SymmetricDifference, range)
    }

    /// Complements a code point; a number past 10FFFF hex changes nothing.
    pub fn complement32(&mut self, code_point: u32) -> Result<(), AllocError>
        ensures ok { OnOk result (IsSymmetricDifference (holds self.old) (is_code_point code_point) self.new) }
        ensures err { OnErr result (self.new ≡ self.old) }
    {
        self.combine_code_point(Operation::SymmetricDifference, code_point)
    }

    /// Complements a character.
    pub fn complement_char(&mut self, character: char) -> Result<(), AllocError>
        ensures ok { OnOk result (IsSymmetricDifference (holds self.old) (is_code_point character) self.new) }
        ensures err { OnErr result (self.new ≡ self.old) }
    {
        self.combine_code_point(Operation::SymmetricDifference, character as u32)
    }

    /// Complements what another set holds: then the set holds what was in exactly one of the two.
    pub fn complement_set(&mut self, set: &CodePointInversionList<'_>) -> Result<(), AllocError>
        ensures ok { OnOk result (IsSymmetricDifference (holds self.old) (holds set.now) self.new) }
        ensures err { OnErr result (self.new ≡ self.old) }
    {
        self.combine_set(Operation::SymmetricDifference, set)
    }

    /// Complements the whole set: it then holds exactly the code points that it didn't.
    pub fn complement(&mut self) -> Result<(), AllocError>
        ensures ok { OnOk result (IsSymmetricDifference (holds self.old) (is_within 0 0x110000) self.new) }
        ensures err { OnErr result (self.new ≡ self.old) }
    {
        self.combine_range(Operation::SymmetricDifference, 0, 0x11_0000)
    }
}

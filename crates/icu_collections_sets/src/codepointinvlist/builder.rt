//! The builder of sets of code points.
ghost use Rattle.std.specs.Prelude.{◌≡◌, ℕ, ◌+◌, ◌-◌, ◌*◌, ◌%◌, ◌<◌, ◌≤◌, ◌↔◌, ◌&&◌, ◌==◌, nat_lt, nat_le, not, IsTrue, true, false, List, length, [], ◌∷◌, ◌++◌, take, drop, vec_len, OnOk, OnErr, IfOk};
ghost use Rattle.icu_collections_sets.specs.CodePoints.{Rises, IsInversionList, holds};
ghost use Rattle.icu_collections_sets.specs.Operations.{IsOperated};
ghost use Rattle.icu_collections_sets.specs.SetEdits.{IsSetTo, is_within, stretch, IsCountBelow, in_range, is_code_point};

mod combining;
mod within;

use super::inversion_list::CodePointInversionList;
use super::operation::{Operation, combine};
use crate::packed_vector::PackedVec;
use std::alloc::{AllocError, Global};
use std::marker::Model;
use std::ops::{Range, RangeInclusive};

/// Builds a set of code points by adding, removing, keeping and complementing others. After an
/// error, which is only ever `AllocError`, it is as before.
#[derive(Debug, Drop)]
pub struct CodePointInversionListBuilder {
    edges: Vec<u32>,
}

impl Model for CodePointInversionListBuilder {
    ghost use Rattle.std.specs.Prelude.{ℕ, List};
    ghost use Rattle.icu_collections_sets.specs.CodePoints.{IsInversionList};

    ghost Value = { List ℕ };

    ghost view = { λ inside. inside.edges.items };

    ghost invariant = { λ inside. IsInversionList inside.edges.items };
}

/// How many edges are below a bound.
fn index_of(edges: &[u32], bound: u32) -> usize
    requires { Rises 0 edges.now }
    ensures { IsCountBelow edges.now bound result }
{
    let mut low = 0;
    let mut high = edges.len();
    while low < high {
        let middle = low + (high - low) / 2;
        if edges[middle] < bound {
            low = middle + 1;
        } else {
            high = middle;
        }
    }
    low
}

/// Puts edges in the place of others. The edges are as before after an error.
fn put(edges: &mut Vec<u32>, indices: Range<usize>, with: &[u32]) -> Result<(), AllocError>
    requires start { indices.start ≤ indices.end }
    requires end { indices.end ≤ vec_len edges.old }
    ensures ok { OnOk result (edges.new.items ≡ take indices.start edges.old.items ++ (with.now ++ drop indices.end edges.old.items)) }
    ensures err { OnErr result (edges.new.items ≡ edges.old.items) }
{
    let _ = edges.splice(indices, with.iter().copied())?;
    Ok(())
}

/// Puts the edges of a stretch, each if it is one, in the place of others. The edges are as before
/// after an error.
fn put_stretch(
    edges: &mut Vec<u32>,
    indices: Range<usize>,
    opens: bool,
    from: u32,
    closes: bool,
    till: u32,
) -> Result<(), AllocError>
    requires start { indices.start ≤ indices.end }
    requires end { indices.end ≤ vec_len edges.old }
    ensures ok { OnOk result (edges.new.items ≡ take indices.start edges.old.items ++ (stretch opens from closes till ++ drop indices.end edges.old.items)) }
    ensures err { OnErr result (edges.new.items ≡ edges.old.items) }
{
    if opens && closes {
        put(edges, indices, &[from, till])
    } else if opens {
        put(edges, indices, &[from])
    } else if closes {
        put(edges, indices, &[till])
    } else {
        put(edges, indices, &[])
    }
}

impl CodePointInversionListBuilder {
    /// A builder of the empty set. It takes no memory.
    pub fn new(alloc: Global) -> CodePointInversionListBuilder
        ensures { result ≡ [] }
    {
        CodePointInversionListBuilder {
            edges: Vec::new(alloc),
        }
    }

    /// Puts the code points from one number up to another, exclusive, in or takes them out.
    fn set_range(&mut self, from: u32, till: u32, held: bool) -> Result<(), AllocError>
        requires rise { from < till }
        requires end { till ≤ 0x110000 }
        ensures ok { OnOk result (IsSetTo held (is_within from till) self.old self.new) }
        ensures err { OnErr result (self.new ≡ self.old) }
    {
        let front = index_of(self.edges.as_slice(), from);
        let back = index_of(self.edges.as_slice(), till + 1);
        let opens = (front % 2 == 1) != held;
        let closes = (back % 2 == 1) != held;
        put_stretch(&mut self.edges, front..back, opens, from, closes, till)?;
        Ok(())
    }

    /// Puts the code points of a range in or takes them out.
    fn set_range32(&mut self, range: RangeInclusive<u32>, held: bool) -> Result<(), AllocError>
        ensures ok { OnOk result (IsSetTo held (in_range range) self.old self.new) }
        ensures err { OnErr result (self.new ≡ self.old) }
    {
        if range.is_empty() || *range.start() > 0x10_FFFF {
            return Ok(());
        }
        let last = (*range.end()).min(0x10_FFFF);
        self.set_range(*range.start(), last + 1, held)
    }

    /// Adds the code points of a range; what is past 10FFFF hex is cut off, and an empty range adds
    /// nothing.
    pub fn add_range32(&mut self, range: RangeInclusive<u32>) -> Result<(), AllocError>
        ensures ok { OnOk result (IsSetTo true (in_range range) self.old self.new) }
        ensures err { OnErr result (self.new ≡ self.old) }
    {
        self.set_range32(range, true)
    }

    /// Adds the code points from one character to another. An empty range adds nothing.
    pub fn add_range(&mut self, range: RangeInclusive<char>) -> Result<(), AllocError>
        ensures ok { OnOk result (IsSetTo true (in_range range) self.old self.new) }
        ensures err { OnErr result (self.new ≡ self.old) }
    {
        if range.is_empty() {
            return Ok(());
        }
        self.set_range(*range.start() as u32, *range.end() as u32 + 1, true)
    }

    /// Adds a code point; a number past 10FFFF hex adds nothing.
    pub fn add32(&mut self, code_point: u32) -> Result<(), AllocError>
        ensures ok { OnOk result (IsSetTo true (is_code_point code_point) self.old self.new) }
        ensures err { OnErr result (self.new ≡ self.old) }
    {
        self.set_code_point(code_point, true)
    }

    /// Adds a character.
    pub fn add_char(&mut self, character: char) -> Result<(), AllocError>
        ensures ok { OnOk result (IsSetTo true (is_code_point character) self.old self.new) }
        ensures err { OnErr result (self.new ≡ self.old) }
    {
        self.set_code_point(character as u32, true)
    }

    /// Puts a code point in or takes it out.
    fn set_code_point(&mut self, code_point: u32, held: bool) -> Result<(), AllocError>
        ensures ok { OnOk result (IsSetTo held (is_code_point code_point) self.old self.new) }
        ensures err { OnErr result (self.new ≡ self.old) }
    {
        if code_point > 0x10_FFFF {
            return Ok(());
        }
        self.set_range(code_point, code_point + 1, held)
    }

    /// Removes the code points of a range; an empty range removes nothing.
    pub fn remove_range32(&mut self, range: RangeInclusive<u32>) -> Result<(), AllocError>
        ensures ok { OnOk result (IsSetTo false (in_range range) self.old self.new) }
        ensures err { OnErr result (self.new ≡ self.old) }
    {
        self.set_range32(range, false)
    }

    /// Removes the code points from one character to another. An empty range removes nothing.
    pub fn remove_range(&mut self, range: RangeInclusive<char>) -> Result<(), AllocError>
        ensures ok { OnOk result (IsSetTo false (in_range range) self.old self.new) }
        ensures err { OnErr result (self.new ≡ self.old) }
    {
        if range.is_empty() {
            return Ok(());
        }
        self.set_range(*range.start() as u32, *range.end() as u32 + 1, false)
    }

    /// Removes a code point; a number past 10FFFF hex removes nothing.
    pub fn remove32(&mut self, code_point: u32) -> Result<(), AllocError>
        ensures ok { OnOk result (IsSetTo false (is_code_point code_point) self.old self.new) }
        ensures err { OnErr result (self.new ≡ self.old) }
    {
        self.set_code_point(code_point, false)
    }

    /// Removes a character.
    pub fn remove_char(&mut self, character: char) -> Result<(), AllocError>
        ensures ok { OnOk result (IsSetTo false (is_code_point character) self.old self.new) }
        ensures err { OnErr result (self.new ≡ self.old) }
    {
        self.set_code_point(character as u32, false)
    }

    /// Applies an operation to the set and another one, given by its edges.
    fn combine(&mut self, operation: Operation, others: &[u32]) -> Result<(), AllocError>
        requires { IsInversionList others.now }
        ensures ok { OnOk result (IsOperated operation (holds self.old) (holds others.now) self.new) }
        ensures err { OnErr result (self.new ≡ self.old) }
    {
        let edges = combine(
            *self.edges.allocator(),
            operation,
            self.edges.as_slice(),
            others,
        )?;
        self.edges = edges;
        Ok(())
    }

    /// The same with the code points from one number up to another, exclusive, if there are any.
    fn combine_range(
        &mut self,
        operation: Operation,
        from: u32,
        till: u32,
    ) -> Result<(), AllocError>
        requires { till ≤ 0x110000 }
        ensures ok { OnOk result (IsOperated operation (holds self.old) (is_within from till) self.new) }
        ensures err { OnErr result (self.new ≡ self.old) }
    {
        match operation {
            Operation::Intersection => self.retain_within(from, till),
            Operation::SymmetricDifference => self.complement_within(from, till),
            Operation::Union if from < till => self.set_range(from, till, true),
            Operation::Difference if from < till => self.set_range(from, till, false),
            Operation::Union | Operation::Difference => Ok(()),
        }
    }

    /// The same with the code points of a range.
    fn combine_range32(
        &mut self,
        operation: Operation,
        range: RangeInclusive<u32>,
    ) -> Result<(), AllocError>
        ensures ok { OnOk result (IsOperated operation (holds self.old) (in_range range) self.new) }
        ensures err { OnErr result (self.new ≡ self.old) }
    {
        if range.is_empty() {
            return self.combine_range(operation, 0, 0);
        }
        let last = (*range.end()).min(0x10_FFFF);
        self.combine_range(operation, *range.start(), last + 1)
    }

    /// The same with a code point, or with none for a number past the last.
    fn combine_code_point(
        &mut self,
        operation: Operation,
        code_point: u32,
    ) -> Result<(), AllocError>
        ensures ok { OnOk result (IsOperated operation (holds self.old) (is_code_point code_point) self.new) }
        ensures err { OnErr result (self.new ≡ self.old) }
    {
        if code_point > 0x10_FFFF {
            return self.combine_range(operation, 0, 0);
        }
        self.combine_range(operation, code_point, code_point + 1)
    }

    /// Whether the set holds nothing.
    pub fn is_empty(&self) -> bool
        ensures { IsTrue result ↔ (self.now ≡ []) }
    {
        self.edges.is_empty()
    }

    /// The set, in memory of its own. The builder is as before. The only error is `AllocError`.
    pub fn build(&self) -> Result<CodePointInversionList<'static>, AllocError>
        ensures { IfOk result (λ set. set ≡ self.now) }
    {
        let edges = PackedVec::from_slice(*self.edges.allocator(), self.edges.as_slice())?;
        Ok(CodePointInversionList::of_edges(edges))
    }
}

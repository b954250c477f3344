//! Changes of a set within a range of code points, in place.
ghost use Rattle.std.specs.Prelude.{◌≡◌, ℕ, ◌+◌, ◌%◌, ◌<◌, ◌≤◌, false, length, vec_len, vec_capacity, OnOk, OnErr};
ghost use Rattle.icu_collections_sets.specs.CodePoints.{Rises, IsInversionList, holds};
ghost use Rattle.icu_collections_sets.specs.Operations.{IsIntersection, IsSymmetricDifference};
ghost use Rattle.icu_collections_sets.specs.SetEdits.{IsSetTo, IsToggled, is_within};

use super::{CodePointInversionListBuilder, index_of};
use std::alloc::AllocError;

/// Puts an edge where there is none, or takes the one that is there: from there on each code point
/// that was in is out, and the other way round.
fn toggle(edges: &mut Vec<u32>, edge: u32)
    requires rises { Rises 0 edges.old.items }
    requires end { edge ≤ 0x110000 }
    requires room { vec_len edges.old < vec_capacity edges.old }
    ensures rises { Rises 0 edges.new.items }
    ensures toggled { IsToggled edge edges.old.items edges.new.items }
    ensures parity { length edges.new.items % 2 ≡ (length edges.old.items + 1) % 2 }
    ensures len { vec_len edges.new ≤ vec_len edges.old + 1 }
    ensures capacity { vec_capacity edges.new ≡ vec_capacity edges.old }
{
    let index = index_of(edges.as_slice(), edge);
    if index < edges.len() && edges[index] == edge {
        let _ = edges.remove(index);
    } else {
        match edges.insert(index, edge) {
            Ok(()) => (),
            Err(_) => unreachable!(),
        }
    }
}

/// Takes the code points from a number on out of the set.
fn cut(edges: &mut Vec<u32>, till: u32)
    requires list { IsInversionList edges.old.items }
    requires end { till < 0x110000 }
    ensures list { IsInversionList edges.new.items }
    ensures cut { IsSetTo false (is_within till 0x110000) edges.old.items edges.new.items }
{
    let index = index_of(edges.as_slice(), till);
    edges.truncate(index);
    if index % 2 == 1 {
        match edges.push(till) {
            Ok(()) => (),
            Err(_) => unreachable!(),
        }
    }
}

impl CodePointInversionListBuilder {
    /// Complements from one number up to another, exclusive.
    pub(super) fn complement_within(&mut self, from: u32, till: u32) -> Result<(), AllocError>
        requires { till ≤ 0x110000 }
        ensures ok { OnOk result (IsSymmetricDifference (holds self.old) (is_within from till) self.new) }
        ensures err { OnErr result (self.new ≡ self.old) }
    {
        if from < till {
            self.edges.reserve(2)?;
            toggle(&mut self.edges, from);
            toggle(&mut self.edges, till);
        }
        Ok(())
    }

    /// Takes the code points below a number out of the set.
    fn remove_below(&mut self, from: u32) -> Result<(), AllocError>
        requires { from ≤ 0x110000 }
        ensures ok { OnOk result (IsSetTo false (is_within 0 from) self.old self.new) }
        ensures err { OnErr result (self.new ≡ self.old) }
    {
        if from > 0 {
            self.set_range(0, from, false)?;
        }
        Ok(())
    }

    /// Takes the code points from a number on out of the set.
    fn remove_from(&mut self, till: u32)
        ensures removed { IsSetTo false (is_within till 0x110000) self.old self.new }
        ensures list { IsInversionList self.new }
    {
        if till < 0x11_0000 {
            cut(&mut self.edges, till);
        }
    }

    /// Keeps only the code points from one number up to another, exclusive.
    pub(super) fn retain_within(&mut self, from: u32, till: u32) -> Result<(), AllocError>
        requires { till ≤ 0x110000 }
        ensures ok { OnOk result (IsIntersection (holds self.old) (is_within from till) self.new) }
        ensures err { OnErr result (self.new ≡ self.old) }
    {
        if from >= till {
            self.edges.clear();
            return Ok(());
        }
        self.remove_below(from)?;
        self.remove_from(till);
        Ok(())
    }
}

//! The first index from which on a test answers yes, found by looking at a few.

ghost use Rattle.std.specs.Prelude.{◌≡◌, ◌<◌, ◌≤◌, IfOk};
ghost use Rattle.collate_rules.specs.Indices.{TellsFirstIndex};

use std::alloc::{AllocError, Global};

/// A test of indices that, once it answers yes, does so at all later indices.
pub trait IndexTest {
    ghost use Rattle.std.specs.Prelude.{ℕ, ◌<◌, ◌↔◌, IsTrue, IfOk};

    /// How many indices there are.
    ghost count: { Self → ℕ };

    /// What holds at an index.
    ghost Holds: { Self → ℕ → Type 0 };

    /// Whether it holds at an index. Fails only if memory is refused.
    fn holds(&self, alloc: Global, index: usize) -> Result<bool, AllocError>
        requires { index < count self.now }
        ensures { IfOk result (λ yes. IsTrue yes ↔ Holds self.now index) };
}

/// The first index at which a test answers yes, `None` where it does at none. The test is asked of the last index, and
/// where it answers yes there, of a few others where the first index is one of the last two, and else at most of three
/// more than the number of indices has bits.
///
/// Errors: `AllocError` where memory is refused.
pub fn first_index<T: IndexTest>(
    alloc: Global,
    test: &T,
    count: usize,
) -> Result<Option<usize>, AllocError>
    requires { count ≡ T.count test.now }
    ensures { IfOk result (TellsFirstIndex (T.Holds test.now) count) }
{
    if count == 0 {
        return Ok(None);
    }
    let last = count - 1;
    let at_end = test.holds(alloc, last)?;
    if !at_end {
        return Ok(None);
    }
    let mut low = 0;
    let mut high = last;
    while low < high {
        let index = next_index(low, high, last);
        let holds = test.holds(alloc, index)?;
        if holds {
            high = index;
        } else {
            low = index + 1;
        }
    }
    Ok(Some(low))
}

/// The index to be asked next of those from `low` to before `high`, where a test answers no before `low`, and yes from
/// `high` to `last`: the middle one. But where the first half answered no, and all after `high` are asked, the one 2
/// before it is asked first, and then the one 32 before that: so it takes as many questions for one of the last two
/// indices, however many there are.
pub(crate) fn next_index(low: usize, high: usize, last: usize) -> usize
    requires between { low < high }
    requires within { high ≤ last }
    ensures from { low ≤ result }
    ensures below { result < high }
{
    let half = (high - low) / 2;
    let back = match last - high {
        0 => 2,
        2 => 32,
        _ => 0,
    };
    if 0 < back && back <= half && half < low {
        high - back
    } else {
        low + half
    }
}

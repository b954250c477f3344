//! The set operations on inversion lists.
ghost use Rattle.std.specs.Prelude.{◌≡◌, ℕ, ◌+◌, ◌<◌, ◌≤◌, Bool, true, false, List, length, [], ◌∷◌, MatchOption, IfOk};
ghost use Rattle.icu_collections_sets.specs.CodePoints.{Rises, IsInversionList, holds, is_in};
ghost use Rattle.icu_collections_sets.specs.Operations.{operated, IsOperated, PassesEdge, IsNextEdge};

use std::alloc::{AllocError, Global};

/// What two sets are combined to.
#[derive(Clone, Copy)]
pub(super) enum Operation {
    /// What is in one of them.
    Union,
    /// What is in the first and not in the second.
    Difference,
    /// What is in both.
    Intersection,
    /// What is in one of them and not in the other.
    SymmetricDifference,
}

impl Operation {
    /// Whether a code point is in the result, by whether it is in each of the two.
    fn apply(self, in_first: bool, in_second: bool) -> bool
        ensures { result ≡ operated self in_first in_second }
    {
        match self {
            Operation::Union => in_first || in_second,
            Operation::Difference => in_first && !in_second,
            Operation::Intersection => in_first && in_second,
            Operation::SymmetricDifference => in_first != in_second,
        }
    }
}

/// The lesser of the next edges of two lists, or `None` where neither has one.
fn next_edge(first: &[u32], second: &[u32]) -> Option<u32>
    ensures { IsNextEdge first.now second.now result }
{
    match (first.first(), second.first()) {
        (Some(a), Some(b)) => Some((*a).min(*b)),
        (Some(a), None) => Some(*a),
        (None, Some(b)) => Some(*b),
        (None, None) => None,
    }
}

/// Passes an edge, where it is the next of the list: what is left of the list, and whether the code
/// points from the edge on are in.
fn pass_edge(rest: &[u32], inside: bool, edge: u32) -> (&[u32], bool)
    requires { Rises edge rest.now }
    ensures { PassesEdge rest.now inside edge result.0.now result.1 }
{
    match rest {
        [next, others @ ..] if *next == edge => (others, !inside),
        _ => (rest, inside),
    }
}

/// The edges of the result of an operation on two sets, both given by their edges. The only error
/// is `AllocError`.
pub(super) fn combine(
    alloc: Global,
    operation: Operation,
    first: &[u32],
    second: &[u32],
) -> Result<Vec<u32>, AllocError>
    requires first { IsInversionList first.now }
    requires second { IsInversionList second.now }
    ensures { IfOk result (λ edges. IsInversionList edges.items × IsOperated operation (holds first.now) (holds second.now) edges.items) }
{
    let mut edges = Vec::new(alloc);
    let (mut first_rest, mut in_first) = (first, false);
    let (mut second_rest, mut in_second) = (second, false);
    let mut held = false;
    while let Some(edge) = next_edge(first_rest, second_rest) {
        (first_rest, in_first) = pass_edge(first_rest, in_first, edge);
        (second_rest, in_second) = pass_edge(second_rest, in_second, edge);
        if operation.apply(in_first, in_second) != held {
            edges.push(edge)?;
            held = !held;
        }
    }
    Ok(edges)
}

//! Which end of an order comes first.

/// Which end of an order comes first.
#[derive(Clone, Copy, Debug, PartialEq, Eq)]
pub enum Direction {
    /// The least line comes first.
    Ascending,
    /// The greatest line comes first; equal ones stand as they came.
    Descending,
}

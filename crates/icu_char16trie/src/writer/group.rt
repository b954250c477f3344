//! Keys that go on with the same unit.

/// Pairs of a key and its value, whose keys go on with the unit.
#[derive(Clone, Copy)]
pub(super) struct Group<'a> {
    pub(super) unit: u16,
    pub(super) pairs: &'a [(&'a [u16], i32)],
}

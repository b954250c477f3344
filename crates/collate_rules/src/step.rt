//! Mappings of either kind, as the characters that they give.

ghost use Rattle.std.specs.Prelude.{◌≤◌};

/// The characters that a mapping gives, at most eight; none where there is no mapping.
#[derive(Clone, Copy, Debug)]
pub struct Step {
    pub(crate) characters: [char; 8],
    pub(crate) count: usize,
    ghost fits: { count ≤ 8 },
}

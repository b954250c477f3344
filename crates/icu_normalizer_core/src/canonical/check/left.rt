//! What mapping steps leave, cut to nine characters.

ghost use Rattle.std.specs.Prelude.{◌≤◌};

/// The first nine characters of what mapping steps leave: one more than a full list may have.
#[derive(Clone, Copy, Debug)]
pub(crate) struct Left {
    pub(crate) characters: [u32; 9],
    pub(crate) count: usize,
    ghost fits: { count ≤ 9 },
}

//! Tests of keys and their values.
ghost use Rattle.std.specs.Prelude.{◌≡◌, ℕ, ℤ, List, Bool};

/// A test of keys and their values.
pub trait EntryTest {
    /// Whether a key with its value passes.
    ghost test: { Self → List ℕ → ℤ → Bool };

    /// Whether a key with its value passes.
    fn passes(&self, key: &[u16], value: i32) -> bool
        ensures { result ≡ test self.now key.now value };
}

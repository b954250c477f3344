//! What sort keys are written to.

ghost use Rattle.std.specs.Prelude.{◌≡◌, ℕ, List, [], ◌∷◌, ◌++◌, OnOk, IfOk, IfErr};

mod list_sinks;
mod slices;
pub(crate) mod whole;

use std::fmt::Display;
use thiserror::Error;

/// A sink of the bytes of a key.
///
/// A key is handed over in pieces: a state that begins as its default goes with it from the first `write` to `finish`.
/// What a sink has to keep is said by relations between the sink as it was at the first piece, all bytes that were
/// handed to it since, and the sink as it is: `has_taken` while the key is written, `has_written` when `finish` took it,
/// and `has_failed` after an error. An error at a piece stands for the whole key, whatever was to follow.
pub trait CollationKeySink {
    /// Why a key can't be taken.
    type Error: Drop;

    /// What the sink remembers from one piece of a key to the next.
    type State: Default + Drop;

    /// What the sink answers when it has a key.
    type Output;

    /// A state in which no piece was taken yet, as its default is.
    ghost is_start: { Self.State → Type 0 };

    /// The sink at the first piece took these bytes, and is now this one, with this state.
    ghost has_taken: { Self → List ℕ → Self → Self.State → Type 0 };

    /// The sink at the first piece took this whole key, and is now this one, with what `finish` answered.
    ghost has_written: { Self → List ℕ → Self → Self.Output → Type 0 };

    /// The sink at the first piece can't take this whole key, for this error, and is now this one.
    ghost has_failed: { Self → List ℕ → Self → Self.Error → Type 0 };

    /// What was written since the first piece, read back.
    ghost read_back: { Self → Self → Self.Output → List ℕ };

    /// Takes a piece of a key.
    fn write(&mut self, state: &mut Self::State, bytes: &[u8]) -> Result<(), Self::Error>
        ensures ok { (first : Self) (before : List ℕ) → has_taken first before self.old state.old
            → OnOk result (has_taken first (before ++ bytes.now) self.new state.new) }
        ensures err { (first : Self) (before after : List ℕ) → has_taken first before self.old state.old
            → IfErr result (λ error. has_failed first (before ++ bytes.now ++ after) self.new error) };

    /// Takes one byte of a key.
    fn write_byte(&mut self, state: &mut Self::State, byte: u8) -> Result<(), Self::Error>
        ensures ok { (first : Self) (before : List ℕ) → has_taken first before self.old state.old
            → OnOk result (has_taken first (before ++ byte ∷ []) self.new state.new) }
        ensures err { (first : Self) (before after : List ℕ) → has_taken first before self.old state.old
            → IfErr result (λ error. has_failed first (before ++ byte ∷ [] ++ after) self.new error) }
    {
        self.write(state, &[byte])?;
        Ok(())
    }

    /// Takes the end of a key. It answers `Ok` only where the whole key is there.
    fn finish(&mut self, state: Self::State) -> Result<Self::Output, Self::Error>
        ensures ok { (first : Self) (key : List ℕ) → has_taken first key self.old state
            → IfOk result (λ output. has_written first key self.new output) }
        ensures err { (first : Self) (key : List ℕ) → has_taken first key self.old state
            → IfErr result (λ error. has_failed first key self.new error) };

    /// A key begins in the default state.
    ghost starts: { (state : Self.State) → Self.State.is_default state → is_start state };

    /// Before the first piece nothing was taken.
    ghost begins: { (sink : Self) (state : Self.State) → is_start state → has_taken sink [] sink state };

    /// What is read back is the key: no byte is lost, and none is in another place.
    ghost keeps: { (first : Self) (key : List ℕ) (now : Self) (output : Self.Output)
        → has_written first key now output → read_back first now output ≡ key };
}

/// A slice is shorter than the key that was written to it.
#[derive(Debug, PartialEq, Eq, Drop, Error)]
#[error("the key has {length} bytes, too many for the slice")]
pub struct TooSmall {
    /// How many bytes the key has; the greatest `usize` stands for more too.
    pub length: usize,
}

impl TooSmall {
    /// The error of a slice too short for a key of this length.
    pub fn new(length: usize) -> Self
        ensures { result.length ≡ length }
    {
        Self { length }
    }
}

/// Why a key can't be written.
#[derive(Debug, Drop, Error)]
#[error_bound(E: Display)]
pub enum KeyError<E> {
    /// The sink took no more.
    #[error("{0}")]
    Sink(E),
    /// Memory was refused.
    #[error("out of memory")]
    Memory,
}

//! How the program is set up, whatever its words and its file.

ghost use Rattle.std.specs.Prelude.{◌≡◌};

pub use collate_index::FIXED_SEED;
pub use collate_lines::limits::Limits;
use std::random::RandomSource;

/// How the program is set up.
#[derive(Clone, Copy, Debug, PartialEq, Eq)]
pub struct Setup {
    /// The limits within which its records files are read, reloaded ones too.
    pub limits: Limits,
    /// What the hashes of names depend on, which no reply shows (`Index::with_seed`).
    pub seed: u64,
}

impl Setup {
    /// Within `Limits::STANDARD`, by the fixed seed.
    pub const STANDARD: Setup = Setup {
        limits: Limits::STANDARD,
        seed: FIXED_SEED,
    };

    /// Within `Limits::UNICODE`, by the fixed seed.
    pub const UNICODE: Setup = Setup {
        limits: Limits::UNICODE,
        seed: FIXED_SEED,
    };

    /// The same with a seed that a source of random bytes gives; where the source fails, with the seed that it has.
    pub fn seeded(self, source: &impl RandomSource) -> Setup
        ensures { result.limits ≡ self.limits }
    {
        let mut bytes = [0; 8];
        match source.fill_bytes(&mut bytes) {
            Ok(()) => Setup {
                limits: self.limits,
                seed: u64::from_le_bytes(bytes),
            },
            Err(_) => self,
        }
    }
}

//! Whether any of a text's elements has a quaternary.

ghost use Rattle.std.specs.Prelude.{◌≡◌, ℕ, not, ◌==◌, bit_and, bit_or};

use super::non_primaries::{NonPrimary, QUATERNARY_MASK};
use std::marker::Model;

/// The bits that any of some elements has in its lower half.
#[derive(Clone, Copy, PartialEq, Eq, Debug)]
pub struct AnyQuaternaryAccumulator {
    bits: u32,
}

impl Model for AnyQuaternaryAccumulator {
    ghost Value = { ℕ };

    ghost view = { λ inside. inside.bits };

    ghost inverse = { λ bits. record { bits = bits } };
}

impl AnyQuaternaryAccumulator {
    /// That of no elements.
    pub fn new() -> Self
        ensures { result ≡ 0 }
    {
        AnyQuaternaryAccumulator { bits: 0 }
    }

    /// Adds the bits of one more element.
    pub fn accumulate(&mut self, non_primary: NonPrimary)
        ensures { self.new ≡ bit_or self.old non_primary }
    {
        self.bits |= non_primary.bits();
    }

    /// Whether one of the elements has a quaternary.
    pub fn has_quaternary(&self) -> bool
        ensures { result ≡ not (bit_and self.now 0xc0 == 0) }
    {
        self.bits & QUATERNARY_MASK != 0
    }
}

//! Long chains of mappings, each to the next character, which are judged in time: a check that looks at all mappings again
//! for each that it settles takes minutes for one of these.

use icu_normalizer_core::canonical::{CanonicalData, CanonicalDataError, CanonicalFault};
use samples_icu_normalizer::tables::{PAIRS, STEPS, tables};
use std::alloc::{AllocError, Global};

/// The first character of a chain, its middle, and what is after its last.
const FIRST: u32 = 0x2_0000;

const MIDDLE: u32 = 0x2_c000;

const END: u32 = 0x3_8000;

/// A chain from each character to the one above it, or below it, at the end of which stands the letter a; or, where it
/// loops, the middle one is mapped to itself.
#[derive(Clone, Copy)]
struct Chain {
    rises: bool,
    loops: bool,
}

impl Chain {
    /// What a character of the chain is mapped to.
    fn target(self, c: u32) -> u32 {
        if self.loops && c == MIDDLE {
            return c;
        }
        let next = if self.rises {
            c.wrapping_add(1)
        } else {
            c.wrapping_sub(1)
        };
        if (FIRST..END).contains(&next) {
            next
        } else {
            0x61
        }
    }

    /// The mappings of the worked rows, and those of the chain after them.
    fn steps(self, alloc: Global) -> Result<Vec<u32>, AllocError> {
        let mut steps = STEPS.to_vec(alloc)?;
        for c in FIRST..END {
            steps.push(c)?;
            steps.push(self.target(c))?;
            steps.push(0x11_0000)?;
        }
        Ok(steps)
    }

    /// Whether tables with the chain, whose words say of each of its characters that the letter a is left of it, are
    /// refused for this, or accepted where it is `None`.
    fn is_judged(self, alloc: Global, expected: Option<CanonicalFault>) -> bool {
        let Ok(words) = words(alloc) else {
            return false;
        };
        let Ok(steps) = self.steps(alloc) else {
            return false;
        };
        let Some(tables) = tables(alloc, &words, &steps, &PAIRS) else {
            return false;
        };
        match CanonicalData::try_new(alloc, tables) {
            Ok(_) => expected.is_none(),
            Err(CanonicalDataError::Fault(fault)) => expected == Some(fault),
            Err(CanonicalDataError::Memory) => false,
        }
    }
}

/// The words of the characters of a chain.
fn words(alloc: Global) -> Result<Vec<(u32, u32)>, AllocError> {
    let mut words = Vec::new(alloc);
    for c in FIRST..END {
        words.push((c, 0x61))?;
    }
    Ok(words)
}

#[test]
fn rising_chain(rt: HostRuntime) {
    let chain = Chain {
        rises: true,
        loops: false,
    };
    assert!(rt; chain.is_judged(rt.alloc(), None));
}

#[test]
fn falling_chain(rt: HostRuntime) {
    let chain = Chain {
        rises: false,
        loops: false,
    };
    assert!(rt; chain.is_judged(rt.alloc(), None));
}

#[test]
fn rising_chain_with_a_loop(rt: HostRuntime) {
    let chain = Chain {
        rises: true,
        loops: true,
    };
    // Each from the first to the middle leads into the loop.
    let loops = CanonicalFault::Loop('\u{20000}');
    assert!(rt; chain.is_judged(rt.alloc(), Some(loops)));
}

#[test]
fn falling_chain_with_a_loop(rt: HostRuntime) {
    let chain = Chain {
        rises: false,
        loops: true,
    };
    // Each from the middle on leads into the loop.
    let loops = CanonicalFault::Loop('\u{2c000}');
    assert!(rt; chain.is_judged(rt.alloc(), Some(loops)));
}

//! Weights of a level, by public calls: whether one begins another.

use assertions::assert_same;
use icu_collator_core::weight_rules::are_apart;
use std::alloc::Global;

/// Whether weights keep apart; `None` where memory is refused.
fn told(alloc: Global, weights: &[u32]) -> Option<bool> {
    let list = Vec::from_slice(alloc, weights).ok()?;
    are_apart(list).ok()
}

#[test]
fn ok_are_apart(rt: HostRuntime) {
    // 2A 10 begins 2A 10 20, which stands before it.
    let begun = [0x2a10_2000, 0x2b00_0000, 0x2a10_0000];
    assert_same!(rt; told(rt.alloc(), &begun), Some(false));
    // A weight and itself keep apart, and so do 2A 10 and 2A 11 20; 0 is none.
    let apart = [0x2a11_2000, 0x2a10_0000, 0x2a10_0000, 0];
    assert_same!(rt; told(rt.alloc(), &apart), Some(true));
}

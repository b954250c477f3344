//! The processor's time.

use std::time::CpuClock;

/// The nanoseconds that the process has used of a processor.
pub fn nanoseconds(rt: &HostRuntime) -> Option<u64> {
    let used = rt.process_cpu_time().ok()?;
    u64::try_from(used.as_nanos()).ok()
}

/// The nanoseconds from one time to another.
pub fn time_between(before: Option<u64>, after: Option<u64>) -> Option<u64> {
    let before = before?;
    let after = after?;
    after.checked_sub(before)
}

/// How many things were done in a second, of so many in so many nanoseconds.
pub fn a_second(count: usize, nanoseconds: u64) -> Option<u64> {
    (count as u64)
        .checked_mul(1_000_000_000)?
        .checked_div(nanoseconds)
}

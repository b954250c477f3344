//! How far a run is, for who asks.

/// How many lines come before it is said again how many were read.
const OFTEN: usize = 1_000_000;

/// Says how far a run is, if that is asked for.
#[derive(Clone, Copy)]
pub struct Progress<'r> {
    pub rt: &'r HostRuntime,
    /// Whether anything is said.
    pub told: bool,
}

impl Progress<'_> {
    /// So many lines were read, which is said at every million.
    pub fn read(&self, lines: usize) {
        if self.told && lines % OFTEN == 0 {
            let _ = eprintln!(self.rt; "sort_names: {lines} lines read");
        }
    }

    /// What is done now, with so many lines.
    pub fn step(&self, step: &str, lines: usize) {
        if self.told {
            let _ = eprintln!(self.rt; "sort_names: {step} {lines} lines");
        }
    }
}

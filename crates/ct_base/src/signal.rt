//! Signals, which give one of their phases green at a time.

use listed::{Duplicate, Listed, Memory};

/// A signal. Phases are numbered from 0.
#[derive(Debug, Drop)]
pub struct Signal {
    /// The phase of the first run.
    pub start: u8,
    pub phases: Listed<Phase>,
}

/// A phase of a signal: how long its green lasts, in steps, and which phases may follow it.
#[derive(Clone, Copy, Debug, PartialEq, Eq)]
pub struct Phase {
    /// The least number of green steps of a run.
    pub min: u32,
    /// The greatest number of green steps of a run.
    pub max: u32,
    /// The number of clearing steps after the green, in which no cell is open.
    pub clear: u32,
    /// A set of the signal's phases: bit p is 1 where phase p may follow.
    pub next: u8,
}

impl Duplicate for Phase {
    fn copy(&self) -> Result<Phase, Memory> {
        Ok(*self)
    }
}

impl Duplicate for Signal {
    fn copy(&self) -> Result<Signal, Memory> {
        Ok(Signal {
            start: self.start,
            phases: self.phases.copy()?,
        })
    }
}

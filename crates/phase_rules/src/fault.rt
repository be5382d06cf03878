//! Why runs make no word.

ghost use Rattle.std.specs.Prelude.{◌≡◌};
ghost use Rattle.phase_rules.specs.declared.fault.RunFault.TheVariants.{Memory as WantOfMemory};

use ct_base::Memory;
use std::alloc::AllocError;
use thiserror::Error;

/// Why runs make no word. Runs are counted from 0. At each run `Surplus`, `Start` or `Order`, and `Green` are judged in this order, and `Short`
/// after the last run.
#[derive(Clone, Copy, Debug, PartialEq, Eq, Error)]
pub enum RunFault {
    /// The run begins at or after the horizon.
    #[error("run {run} begins at or behind the horizon")]
    Surplus { run: u32 },
    /// The first run is not of the starting phase.
    #[error("the first run is not of the starting phase")]
    Start,
    /// A later run is of a phase that may not follow the one before.
    #[error("run {run} is of a phase that may not follow the one before")]
    Order { run: u32 },
    /// The green is none, longer than its maximum or than what is left of the horizon, or shorter than its minimum
    /// without being cut by the horizon.
    #[error("the green of run {run} is none, too long or too short")]
    Green { run: u32 },
    /// The runs have fewer letters than the horizon has steps.
    #[error("the runs have {letters} letters, fewer than the horizon has steps")]
    Short { letters: u32 },
    /// There was not enough memory.
    #[error("there was not enough memory")]
    Memory,
}

impl From<AllocError> for RunFault {
    ghost from_gives = { λ _ fault. fault ≡ WantOfMemory };

    fn from(_error: AllocError) -> RunFault {
        RunFault::Memory
    }
}

impl From<Memory> for RunFault {
    ghost from_gives = { λ _ fault. fault ≡ WantOfMemory };

    fn from(_error: Memory) -> RunFault {
        RunFault::Memory
    }
}

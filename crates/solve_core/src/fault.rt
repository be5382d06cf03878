//! Why there is no search.

ghost use Rattle.std.specs.Prelude.{◌≡◌};
ghost use Rattle.solve_core.specs.declared.fault.SolveFault.TheVariants.{Memory as WantOfMemory};

use ct_base::Memory;
use thiserror::Error;

/// Why there is no search.
#[derive(Clone, Copy, Debug, PartialEq, Eq, Error)]
pub enum SolveFault {
    /// The network's program has so many rows, more than a program holds.
    #[error("the program has {0} rows, more than are held")]
    TooLarge(u64),
    /// The network's program has so many rows, too many for the budget.
    #[error("the program has {0} rows, too many for the budget")]
    Budget(u64),
    /// There was not enough memory.
    #[error("there was not enough memory")]
    Memory,
}

impl From<Memory> for SolveFault {
    ghost from_gives = { λ _ fault. fault ≡ WantOfMemory };

    fn from(_error: Memory) -> SolveFault {
        SolveFault::Memory
    }
}

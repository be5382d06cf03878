//! Why a text spells no plan.

ghost use Rattle.std.specs.Prelude.{◌≡◌};
ghost use Rattle.plan_file.specs.declared.fault.PlanFault.TheVariants.{Memory as WantOfMemory};

use ct_base::Memory;
use phase_rules::RunFault;
use std::alloc::AllocFailed;
use thiserror::Error;

/// Why a text spells no plan. Lines are counted from 1, signals from 0.
#[derive(Clone, Copy, Debug, PartialEq, Eq, Error)]
pub enum PlanFault {
    /// The line is of no form, stands where none of its form may, lacks its line feed, or is missing.
    #[error("line {0} is of no form, stands where none of its form may, lacks its line feed or is missing")]
    Form(u64),
    /// The line begins the block of another signal than the next one.
    #[error("line {0} begins the block of another signal than the next one")]
    Signal(u64),
    /// The line is a run at fault, or ends a block that is too short.
    #[error("line {0}: {1}")]
    Run(u64, RunFault),
    /// The text ends without a block for this signal.
    #[error("there is no block for signal {0}")]
    Missing(u32),
    /// There was not enough memory.
    #[error("there was not enough memory")]
    Memory,
}

impl From<Memory> for PlanFault {
    ghost from_gives = { λ _ fault. fault ≡ WantOfMemory };

    fn from(_error: Memory) -> PlanFault {
        PlanFault::Memory
    }
}

impl<T: Drop> From<AllocFailed<T>> for PlanFault {
    ghost from_gives = { λ _ fault. fault ≡ WantOfMemory };

    fn from(_error: AllocFailed<T>) -> PlanFault {
        PlanFault::Memory
    }
}

//! Why pieces make no demand.

ghost use Rattle.std.specs.Prelude.{◌≡◌};
ghost use Rattle.demand.specs.declared.fault.DemandFault.TheVariants.{Memory as WantOfMemory};

use std::alloc::AllocError;
use thiserror::Error;

/// Why pieces of demand are refused. Pieces and steps are counted from 0.
#[derive(Clone, Copy, Debug, PartialEq, Eq, Error)]
pub enum DemandFault {
    /// A piece holds no step, or ends past the horizon.
    #[error("piece {piece} of demand holds no step or ends past the horizon")]
    Range { piece: u32 },
    /// More than 1000 units arrive in a step.
    #[error("more than 1000 units arrive in step {step}")]
    Heavy { step: u32 },
    /// There was not enough memory.
    #[error("there was not enough memory")]
    Memory,
}

impl From<AllocError> for DemandFault {
    ghost from_gives = { λ _ fault. fault ≡ WantOfMemory };

    fn from(_error: AllocError) -> DemandFault {
        DemandFault::Memory
    }
}

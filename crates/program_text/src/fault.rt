//! Why a text spells no point.

ghost use Rattle.std.specs.Prelude.{◌≡◌};
ghost use Rattle.program_text.specs.declared.fault.PointFault.TheVariants.{Memory as WantOfMemory};

use listed::Memory;
use std::alloc::AllocFailed;
use thiserror::Error;

/// Why a text spells no point. Lines are counted from 1.
#[derive(Clone, Copy, Debug, PartialEq, Eq, Error)]
pub enum PointFault {
    /// The line is of no form, lacks its line feed, is missing, or stands behind the end.
    #[error("line {0} is of no form, lacks its line feed, is missing or stands behind the end")]
    Form(u64),
    /// There was not enough memory.
    #[error("there was not enough memory")]
    Memory,
}

impl From<Memory> for PointFault {
    ghost from_gives = { λ _ fault. fault ≡ WantOfMemory };

    fn from(_error: Memory) -> PointFault {
        PointFault::Memory
    }
}

impl<T: Drop> From<AllocFailed<T>> for PointFault {
    ghost from_gives = { λ _ fault. fault ≡ WantOfMemory };

    fn from(_error: AllocFailed<T>) -> PointFault {
        PointFault::Memory
    }
}

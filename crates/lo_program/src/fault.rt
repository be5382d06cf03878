//! Why a network has no program.

ghost use Rattle.std.specs.Prelude.{◌≡◌};
ghost use Rattle.lo_program.specs.declared.fault.CompileFault.TheVariants.{Memory as WantOfMemory};

use ct_base::Memory;
use std::alloc::AllocFailed;
use thiserror::Error;

/// Why a network has no program.
#[derive(Clone, Copy, Debug, PartialEq, Eq, Error)]
pub enum CompileFault {
    /// Its program has so many rows, more than a program holds.
    #[error("the program has {0} rows, more than are held")]
    TooLarge(u64),
    /// There was not enough memory.
    #[error("there was not enough memory")]
    Memory,
}

impl From<Memory> for CompileFault {
    ghost from_gives = { λ _ fault. fault ≡ WantOfMemory };

    fn from(_error: Memory) -> CompileFault {
        CompileFault::Memory
    }
}

impl<T: Drop> From<AllocFailed<T>> for CompileFault {
    ghost from_gives = { λ _ fault. fault ≡ WantOfMemory };

    fn from(_error: AllocFailed<T>) -> CompileFault {
        CompileFault::Memory
    }
}

//! Why a command was not done, and the status that it ends with.

ghost use Rattle.std.specs.Prelude.{◌≡◌};
ghost use Rattle.signal_cli.specs.Faults.{uncompiled_of, unplanned_of, unsolved_of, unspelled_of};
ghost use Rattle.signal_cli.specs.Faults.{status_of};
ghost use Rattle.signal_cli.specs.declared.fault.Fault.TheVariants as fault;

use cell_build::NetworkFault;
use ct_base::Memory;
use lo_program::CompileFault;
use plan_file::PlanFault;
use solve_core::SolveFault;
use std::alloc::AllocError;

/// A cause that ends a command before its answer is written.
#[derive(Clone, Copy, Debug, PartialEq, Eq)]
pub enum Fault {
    /// The network file is longer than its limit.
    NetworkLong,
    /// The network file spells no network.
    Network(NetworkFault),
    /// The plan file is longer than its limit.
    PlanLong,
    /// The plan file spells no plan for the network, or the network wants a plan.
    Plan(PlanFault),
    /// The network's program has so many rows, more than are held, or too many for the budget of a search.
    TooLarge(u64),
    /// A read failed, or a file is not there.
    Read,
    /// Memory was wanting.
    Memory,
}

impl Fault {
    /// The status of the program.
    pub fn status(self) -> u8
        ensures { result ≡ status_of self }
    {
        match self {
            Fault::NetworkLong | Fault::Network(_) => 3,
            Fault::PlanLong | Fault::Plan(_) => 4,
            Fault::TooLarge(_) => 5,
            Fault::Read => 6,
            Fault::Memory => 8,
        }
    }
}

impl From<NetworkFault> for Fault {
    ghost from_gives = { λ fault made. made ≡ unspelled_of fault };

    fn from(fault: NetworkFault) -> Fault {
        match fault {
            NetworkFault::Memory => Fault::Memory,
            fault => Fault::Network(fault),
        }
    }
}

impl From<PlanFault> for Fault {
    ghost from_gives = { λ fault made. made ≡ unplanned_of fault };

    fn from(fault: PlanFault) -> Fault {
        match fault {
            PlanFault::Memory => Fault::Memory,
            fault => Fault::Plan(fault),
        }
    }
}

impl From<CompileFault> for Fault {
    ghost from_gives = { λ fault made. made ≡ uncompiled_of fault };

    fn from(fault: CompileFault) -> Fault {
        match fault {
            CompileFault::TooLarge(rows) => Fault::TooLarge(rows),
            CompileFault::Memory => Fault::Memory,
        }
    }
}

impl From<SolveFault> for Fault {
    ghost from_gives = { λ fault made. made ≡ unsolved_of fault };

    fn from(fault: SolveFault) -> Fault {
        match fault {
            SolveFault::TooLarge(rows) | SolveFault::Budget(rows) => Fault::TooLarge(rows),
            SolveFault::Memory => Fault::Memory,
        }
    }
}

impl From<Memory> for Fault {
    ghost from_gives = { λ _ made. made ≡ fault.Memory };

    fn from(_wanting: Memory) -> Fault {
        Fault::Memory
    }
}

impl From<AllocError> for Fault {
    ghost from_gives = { λ _ made. made ≡ fault.Memory };

    fn from(_wanting: AllocError) -> Fault {
        Fault::Memory
    }
}

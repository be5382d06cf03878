//! Why no part was done, or no further one.

use cell_build::NetworkFault;
use ct_base::Memory;
use lo_program::CompileFault;
use std::alloc::AllocError;
use std::io;

/// Why no part was done, or no further one.
#[derive(Clone, Copy)]
pub enum Fault {
    /// There was not enough memory.
    Memory,
    /// Standard input has no network, or one that is too large.
    Network,
    /// The words are not those of parts, each with a number.
    Words,
    /// Reading or printing failed.
    Host,
}

impl From<Memory> for Fault {
    fn from(_fault: Memory) -> Fault {
        Fault::Memory
    }
}

impl From<AllocError> for Fault {
    fn from(_fault: AllocError) -> Fault {
        Fault::Memory
    }
}

impl From<NetworkFault> for Fault {
    fn from(_fault: NetworkFault) -> Fault {
        Fault::Network
    }
}

impl From<CompileFault> for Fault {
    fn from(_fault: CompileFault) -> Fault {
        Fault::Network
    }
}

impl From<io::Error> for Fault {
    fn from(_fault: io::Error) -> Fault {
        Fault::Host
    }
}

//! Why bytes spell no network.

ghost use Rattle.std.specs.Prelude.{◌≡◌};
ghost use Rattle.cell_build.specs.Spelled.{unbuilt_of, unread_of};

use crate::fault::BuildFault;
use network_file::NetFault;
use thiserror::Error;

/// Why bytes spell no network, in the order in which they are judged.
#[derive(Clone, Copy, Debug, PartialEq, Eq, Error)]
pub enum NetworkFault {
    /// They are no network file: no document, another format, or a key, a number or a name that is not as it should be.
    #[error("{0}")]
    File(NetFault),
    /// The links and signals of the file make no network of cells.
    #[error("{0}")]
    Build(BuildFault),
    /// There was not enough memory.
    #[error("there was not enough memory")]
    Memory,
}

impl From<NetFault> for NetworkFault {
    ghost from_gives = { λ fault made. made ≡ unread_of fault };

    fn from(fault: NetFault) -> NetworkFault {
        match fault {
            NetFault::Memory => NetworkFault::Memory,
            fault => NetworkFault::File(fault),
        }
    }
}

impl From<BuildFault> for NetworkFault {
    ghost from_gives = { λ fault made. made ≡ unbuilt_of fault };

    fn from(fault: BuildFault) -> NetworkFault {
        match fault {
            BuildFault::Memory => NetworkFault::Memory,
            fault => NetworkFault::Build(fault),
        }
    }
}

//! From the bytes of a network file to the network that they spell.

ghost use Rattle.cell_build.specs.Spelled.{spelled_network};
ghost use Rattle.refusals.specs.Memory.{OrMemory};

use crate::builder::build;
use crate::network_fault::NetworkFault;
use named_net::NamedNet;
use std::alloc::Global;

/// The network that the bytes of a file spell, or the first fault: the file is read and judged whole before its links and
/// signals are. Want of memory may come with any bytes, and says nothing of them.
#[tactic(auto, unfolding(crate::specs::Spelled::spelled_network))]
pub fn read(alloc: Global, bytes: &[u8]) -> Result<NamedNet, NetworkFault>
    ensures { OrMemory NetworkFault.Memory (spelled_network bytes.now) result }
{
    let raw = network_file::read(alloc, bytes)?;
    let named = build(alloc, raw)?;
    Ok(named)
}

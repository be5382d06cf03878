//! The building of a network: its rules are judged first, and only a network without a fault is built.

ghost use Rattle.cell_build.specs.Built.{built, named_of};
ghost use Rattle.cell_build.specs.Refusals.{faults_of};
ghost use Rattle.network_file.specs.Range.{IsInRange};
ghost use Rattle.refusals.specs.Faults.{unless};
ghost use Rattle.refusals.specs.Memory.{OrMemory};

use crate::by_name::Numbered;
use crate::fault::BuildFault;
use crate::judge::judge;
use crate::naming::names_of;
use crate::network::net_of;
use ct_base::Net;
use named_net::NamedNet;
use network_file::RawNet;
use std::alloc::Global;

/// The network of cells of a file's links and signals, or the first of its faults.
#[tactic(auto, unfolding(crate::specs::Built::built))]
pub fn build(alloc: Global, raw: RawNet) -> Result<NamedNet, BuildFault>
    requires { IsInRange raw }
    ensures { OrMemory BuildFault.Memory (built raw) result }
{
    let net = judged_net(alloc, &raw)?;
    let names = names_of(alloc, raw)?;
    Ok(NamedNet::new(net, names))
}

/// The cells and signals of a file, where it has no fault. Its names are numbered once, for judging and for building.
fn judged_net(alloc: Global, raw: &RawNet) -> Result<Net, BuildFault>
    requires { IsInRange raw.now }
    ensures { OrMemory BuildFault.Memory (unless (faults_of raw.now) (named_of raw.now).net) result }
{
    let raw = Numbered::of(alloc, raw)?;
    let mut demands = judge(alloc, &raw)?.into_vec();
    Ok(net_of(alloc, &raw, demands.as_mut_slice())?)
}

//! The rule `demand`: the demand of each link is summed step by step, where it is in range.

ghost use Rattle.std.specs.Prelude.{◌≡◌, ◌≤◌, length, map, All};
ghost use Rattle.cell_build.specs.inner.Queues.{demands_of, fault_of, queue_demand};
ghost use Rattle.cell_build.specs.Refusals.{demand, demand_at};
ghost use Rattle.cell_build.specs.declared.fault.BuildFault.TheVariants.{Demand as DemandOf};
ghost use Rattle.demand.specs.Spread.{faults_of as demand_faults, rates_of};
ghost use Rattle.refusals.specs.Faults.{unless};
ghost use Rattle.refusals.specs.Memory.{OrMemory};
ghost use Rattle.network_file.specs.Range.{IsLinkInRange, IsPieceInRange};

use crate::fault::BuildFault;
use ct_base::{Listed, Units};
use demand::{DemandFault, Piece, spread};
use network_file::RawLink;
use std::alloc::Global;

/// The demand of the queue of each link, none where the link has no piece, or the first fault.
#[tactic(auto, using(crate::proofs::Walks::memory_steps), unfolding(crate::specs::Refusals::demand))]
pub(super) fn demand(
    alloc: Global,
    links: &[RawLink],
    steps: u32,
) -> Result<Listed<Option<Units>>, BuildFault>
    requires few { length links.now ≤ 64 }
    requires in_range { All IsLinkInRange links.now }
    requires horizon { steps ≤ 240 }
    ensures { OrMemory BuildFault.Memory (unless (demand steps links.now) (demands_of steps links.now)) result }
{
    let mut demands = Listed::new(alloc);
    for (k, link) in links.iter().enumerate() {
        demands.push(demand_at(alloc, k as u32, link, steps)?)?;
    }
    Ok(demands)
}

/// The demand of the link's queue.
fn demand_at(alloc: Global, k: u32, link: &RawLink, steps: u32) -> Result<Option<Units>, BuildFault>
    requires in_range { IsLinkInRange link.now }
    requires horizon { steps ≤ 240 }
    ensures { OrMemory BuildFault.Memory (unless (demand_at steps k link.now) (queue_demand steps link.now.pieces)) result }
{
    demand_of(alloc, k, link.pieces.as_slice(), steps)
}

/// The demand of these pieces. Where there is none, there is no look at the steps.
#[tactic(auto, using(crate::proofs::DemandLaws::part_steps))]
fn demand_of(
    alloc: Global,
    k: u32,
    pieces: &[Piece],
    steps: u32,
) -> Result<Option<Units>, BuildFault>
    requires few { length pieces.now ≤ 480 }
    requires in_range { All IsPieceInRange pieces.now }
    requires horizon { steps ≤ 240 }
    ensures { OrMemory BuildFault.Memory (unless (map (DemandOf k) (demand_faults pieces.now steps)) (queue_demand steps pieces.now)) result }
{
    match pieces {
        [] => Ok(None),
        _ => Ok(Some(sum_of(alloc, k, pieces, steps)?)),
    }
}

/// The sum of the pieces in each step.
fn sum_of(alloc: Global, k: u32, pieces: &[Piece], steps: u32) -> Result<Units, BuildFault>
    requires few { length pieces.now ≤ 480 }
    requires in_range { All IsPieceInRange pieces.now }
    requires horizon { steps ≤ 240 }
    ensures { OrMemory BuildFault.Memory (unless (map (DemandOf k) (demand_faults pieces.now steps)) (rates_of pieces.now steps)) result }
{
    match spread(alloc, pieces, steps) {
        Ok(demand) => Ok(demand),
        Err(fault) => Err(fault_of(k, fault)),
    }
}

/// A fault of the demand of link k. Want of memory is no fault of the link.
fn fault_of(k: u32, fault: DemandFault) -> BuildFault
    ensures { result ≡ fault_of k fault }
{
    match fault {
        DemandFault::Memory => BuildFault::Memory,
        _ => BuildFault::Demand { link: k, fault },
    }
}

//! What has arrived at the cells before a step, kept from step to step.

ghost use Rattle.std.specs.Prelude.{◌≡◌, ◌+◌, ◌<◌, IfOk, length};
ghost use Rattle.listed.specs.Below.{table_of};
ghost use Rattle.ct_base.specs.Validity.{IsValid};
ghost use Rattle.program_columns.specs.Columns.{arrived_before};
ghost use Rattle.traffic_model.specs.Occupancy.{demand_at};

use ct_base::{Cell, Listed, Memory, Net};
use std::alloc::Global;

/// What has arrived at each cell before step 0.
pub fn none_arrived(alloc: Global, net: &Net) -> Result<Listed<u32>, Memory>
    ensures { IfOk result (λ arrived. arrived ≡ table_of (length net.now.cells) (arrived_before net.now.cells 0)) }
{
    let mut arrived = Listed::new(alloc);
    for i in 0..net.cells.len() {
        let _ = i;
        arrived.push(0)?;
    }
    Ok(arrived)
}

/// What has arrived at each cell before the step after step t.
pub fn more_arrived(
    alloc: Global,
    net: &Net,
    arrived: &[u32],
    t: u32,
) -> Result<Listed<u32>, Memory>
    requires valid { IsValid net.now }
    requires before { t < net.now.steps }
    requires arrived { arrived.now ≡ table_of (length net.now.cells) (arrived_before net.now.cells t) }
    ensures { IfOk result (λ more. more ≡ table_of (length net.now.cells) (arrived_before net.now.cells (t + 1))) }
{
    let mut more = Listed::new(alloc);
    for i in 0..net.cells.len() {
        more.push(arrived[i] + demand_at(net.cell(i), t))?;
    }
    Ok(more)
}

/// The units that arrive at a cell at the end of a step.
pub fn demand_at(cell: &Cell, t: u32) -> u32
    ensures { result ≡ demand_at cell.now t }
{
    match cell.demand.as_slice().get(t as usize) {
        Some(units) => *units,
        None => 0,
    }
}

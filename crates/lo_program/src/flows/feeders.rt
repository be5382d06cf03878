//! Which moves lead into which cells, and where the flows stand, which is found once for all steps.

ghost use Rattle.std.specs.Prelude.{◌≡◌, ◌+◌, ◌*◌, ◌<◌, ◌≤◌, ◌==◌, if◌then◌else◌, [], ◌∷◌, ◌++◌, filter, length, All, IfOk, OnOk};
ghost use Rattle.listed.specs.Below.{table_of};
ghost use Rattle.ct_base.specs.Access.{cell_of};
ghost use Rattle.ct_base.specs.Validity.{IsSplit, IsValid};
ghost use Rattle.traffic_model.specs.Flow.{parcel_to, share};
ghost use Rattle.cell_replay.specs.Asked.{AreBranches};
ghost use Rattle.program_model.specs.Numbers.{cells_before};
ghost use Rattle.lo_program.specs.inner.Flows.{IsMoves, brings, feeders_of, flow_place};
ghost use Rattle.program_layout.specs.Layout.{IsLayout};

use ct_base::{Listed, Memory, Net, Out};
use program_layout::{Layout, term_count};
use std::alloc::Global;

/// A move into a cell: the place of its flow among the columns of a step, and the units that it brings with one unit of
/// flow.
pub(crate) type Feeder = (u32, u32);

/// The moves of a network as its rows need them.
#[derive(Drop)]
pub(crate) struct Moves {
    /// For each cell the place of the flow out of it among the columns of a step.
    pub(crate) flows: Listed<u32>,
    /// For each cell the moves into it.
    pub(crate) feeders: Listed<Listed<Feeder>>,
}

/// The moves of a network.
pub(crate) fn moves_of(alloc: Global, net: &Net, layout: &Layout) -> Result<Moves, Memory>
    requires valid { IsValid net.now }
    requires layout { IsLayout net.now layout.now }
    ensures { IfOk result (IsMoves net.now) }
{
    let flows = flow_places(alloc, net, layout)?;
    let feeders = feeders_of_cells(alloc, net, flows.as_slice())?;
    Ok(Moves { flows, feeders })
}

/// The place of the flow out of each cell among the columns of a step.
fn flow_places(alloc: Global, net: &Net, layout: &Layout) -> Result<Listed<u32>, Memory>
    requires valid { IsValid net.now }
    requires layout { IsLayout net.now layout.now }
    ensures { IfOk result (λ flows. flows ≡ table_of (length net.now.cells) (flow_place net.now.cells)) }
{
    let mut flows = Listed::new(alloc);
    for i in 0..net.cells.len() {
        flows.push(flow_place(net, layout, i))?;
    }
    Ok(flows)
}

/// The place of the flow out of a cell among the columns of a step: the switches of the cell stand behind it, and then the
/// columns of the next cell.
fn flow_place(net: &Net, layout: &Layout, i: usize) -> u32
    requires valid { IsValid net.now }
    requires layout { IsLayout net.now layout.now }
    requires inside { i < length net.now.cells }
    ensures { result ≡ flow_place net.now.cells i }
{
    columns_through(net, layout, i) - term_count(&net.cell(i).out) - 1
}

/// The columns of a step of a cell and of the cells before it.
fn columns_through(net: &Net, layout: &Layout, i: usize) -> u32
    requires valid { IsValid net.now }
    requires layout { IsLayout net.now layout.now }
    requires inside { i < length net.now.cells }
    ensures { result ≡ cells_before net.now.cells (i + 1) }
{
    let _ = net;
    let before = layout.cells_before.as_slice();
    if i + 1 < before.len() {
        return before[i + 1];
    }
    layout.cells_of_step
}

/// The moves into each cell.
fn feeders_of_cells(
    alloc: Global,
    net: &Net,
    flows: &[u32],
) -> Result<Listed<Listed<Feeder>>, Memory>
    requires valid { IsValid net.now }
    requires flows { flows.now ≡ table_of (length net.now.cells) (flow_place net.now.cells) }
    ensures { IfOk result (λ feeders. feeders ≡ table_of (length net.now.cells) (feeders_of net.now.cells)) }
{
    let mut feeders = Listed::new(alloc);
    for i in 0..flows.len() {
        let of_cell = feeders_of(alloc, net, flows, i as u32)?;
        feeders.push(of_cell)?;
    }
    Ok(feeders)
}

/// The moves into a cell.
fn feeders_of(alloc: Global, net: &Net, flows: &[u32], i: u32) -> Result<Listed<Feeder>, Memory>
    requires valid { IsValid net.now }
    requires flows { flows.now ≡ table_of (length net.now.cells) (flow_place net.now.cells) }
    ensures { IfOk result (λ feeders. feeders ≡ feeders_of net.now.cells i) }
{
    let mut feeders = Listed::new(alloc);
    for (j, flow) in flows.iter().enumerate() {
        let share = share(&net.cell(j).out, i);
        add_feeder(&mut feeders, (*flow, share))?;
    }
    Ok(feeders)
}

/// Adds a move where it brings units.
fn add_feeder(feeders: &mut Listed<Feeder>, feeder: Feeder) -> Result<(), Memory>
    ensures { OnOk result (feeders.new ≡ feeders.old ++ filter brings (feeder ∷ [])) }
{
    if feeder.1 != 0 {
        feeders.push(feeder)?;
    }
    Ok(())
}

/// How many units enter a cell with one unit of flow.
fn share(out: &Out, i: u32) -> u32
    requires { IsSplit out.now }
    ensures { result ≡ share out.now i }
{
    match out {
        Out::Exit => 0,
        Out::To(target) => u32::from(*target == i),
        Out::Turns(turns) => parcel_to(i, turns.as_slice()),
    }
}

/// How many units of a parcel go to a cell.
fn parcel_to(i: u32, turns: &[(u32, u32)]) -> u32
    requires { AreBranches turns.now }
    ensures { result ≡ parcel_to i turns.now }
{
    let mut units = 0;
    for turn in turns {
        units += units_to(i, *turn);
    }
    units
}

/// How many units of a parcel a branch takes to a cell.
fn units_to(i: u32, turn: (u32, u32)) -> u32
    ensures { result ≡ (if turn.0 == i then turn.1 else 0) }
{
    if turn.0 == i { turn.1 } else { 0 }
}

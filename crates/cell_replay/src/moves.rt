//! One step of all cells: first what leaves each of them, and then what each of them holds.

ghost use Rattle.std.specs.Prelude.{◌≡◌, ◌≢◌, ℕ, ◌+◌, ◌*◌, ◌<◌, ◌≤◌, ◌^◌, All, length, slice_index};
ghost use Rattle.cell_replay.specs.Asked.{AreBranches, Fit};
ghost use Rattle.cell_replay.specs.inner.Moves.{AskSignals, HasDemand, HaveDemand, LeadOn, held_after, passed};
ghost use Rattle.ct_base.specs.Access.{targets};
ghost use Rattle.listed.specs.Below.{table_of};
ghost use Rattle.ct_base.specs.Validity.{IsSplit, IsValid};
ghost use Rattle.traffic_model.specs.Delay.{step_delay};
ghost use Rattle.traffic_model.specs.Flow.{outflow, parcel_to};
ghost use Rattle.traffic_model.specs.Occupancy.{AreHeld, demand_at, next_units};

use crate::flow::{parcel, units_leaving};
use ct_base::{Cell, Kind, Letter, Net, Out};

/// Moves the units of all cells one step, and answers the delay of the step. What left each cell is in
/// `outflows` then. It is never inlined, so that its two loops have the registers to themselves.
#[inline(never)]
pub(crate) fn advance(
    net: &Net,
    step: u32,
    letters: &[Letter],
    units: &mut [u32],
    outflows: &mut [u32],
) -> u64
    requires valid { IsValid net.now }
    requires in_time { step < net.now.steps }
    requires letters { length letters.now ≡ length net.now.signals }
    requires held { AreHeld net.now.cells step units.old }
    requires outflows { length outflows.old ≡ length net.now.cells }
    ensures units { units.new ≡ next_units net.now.cells letters.now step units.old }
    ensures outflows { outflows.new
        ≡ table_of (length net.now.cells) (outflow net.now.cells letters.now units.old) }
    ensures delay { result ≡ step_delay net.now.cells letters.now units.old }
{
    let cells = net.cells.as_slice();
    let delay = send(cells, letters, units, outflows);
    receive(cells, step, outflows, units);
    delay
}

/// Fills in what leaves each cell in a step, and answers the delay of the step: the units that stay.
fn send(cells: &[Cell], letters: &[Letter], units: &[u32], outflows: &mut [u32]) -> u64
    requires few { length cells.now ≤ 256 }
    requires fit { Fit cells.now units.now }
    requires gates { AskSignals cells.now (length letters.now) }
    requires lead { LeadOn cells.now }
    requires outflows { length outflows.old ≡ length cells.now }
    ensures outflows { outflows.new ≡ table_of (length cells.now) (outflow cells.now letters.now units.now) }
    ensures delay { result ≡ step_delay cells.now letters.now units.now }
{
    let mut delay = 0;
    for (number, cell) in cells.iter().enumerate() {
        let held = units[number];
        let leaving = units_leaving(cells, letters, units, number, cell);
        outflows[number] = leaving;
        delay += u64::from(held - leaving);
    }
    delay
}

/// Takes from each cell what leaves it, adds that to the cells that it leads to, and lets in the demand of
/// the step.
fn receive(cells: &[Cell], step: u32, outflows: &[u32], units: &mut [u32])
    requires few { length cells.now ≤ 256 }
    requires fit { Fit cells.now units.old }
    requires demand { HaveDemand cells.now step }
    requires lead { LeadOn cells.now }
    requires outflows { length outflows.now ≡ length cells.now }
    requires held { (i : ℕ) → i < length cells.now → slice_index outflows.now i ≤ slice_index units.old i }
    requires small { (i : ℕ) → i < length cells.now → slice_index outflows.now i ≤ 1000 }
    ensures { units.new ≡ table_of (length cells.now) (held_after cells.now step units.old outflows.now) }
{
    for (number, cell) in cells.iter().enumerate() {
        let leaving = outflows[number];
        units[number] -= leaving;
        pass_on(&cell.out, leaving, units);
        let_in(cell, step, &mut units[number]);
    }
}

/// Lets in the units that arrive at a cell from outside at the end of a step.
fn let_in(cell: &Cell, step: u32, held: &mut u32)
    requires demand { HasDemand cell.now.kind step cell.now }
    requires room { held.old ≤ 2 ^ 30 }
    ensures value { held.new ≡ held.old + demand_at cell.now step }
    ensures small { held.new ≤ held.old + 1000 }
{
    if cell.kind == Kind::Queue {
        *held += cell.demand.as_slice()[step as usize];
    }
}

/// Moves what leaves a cell into the cells that it leads to.
fn pass_on(out: &Out, leaving: u32, units: &mut [u32])
    requires within { All (λ k. k < length units.old) (targets out.now) }
    requires split { IsSplit out.now }
    requires small { leaving ≤ 1000 }
    requires room { (j : ℕ) → slice_index units.old j ≤ 2 ^ 30 }
    ensures { (j : ℕ) → j < length units.old →
        slice_index units.new j ≡ slice_index units.old j + passed out.now leaving j }
{
    if let Out::To(target) = out {
        units[*target as usize] += leaving;
    } else {
        pass_on_apart(out, leaving, units);
    }
}

/// Moves what leaves a cell by an exit or a diverge. A function of its own keeps the loop over the cells
/// short for the move into one cell.
#[inline(never)]
fn pass_on_apart(out: &Out, leaving: u32, units: &mut [u32])
    requires within { All (λ k. k < length units.old) (targets out.now) }
    requires split { IsSplit out.now }
    requires small { leaving ≤ 1000 }
    requires room { (j : ℕ) → slice_index units.old j ≤ 2 ^ 30 }
    requires apart { (b : ℕ) → out.now ≢ Out.To b }
    ensures { (j : ℕ) → j < length units.old →
        slice_index units.new j ≡ slice_index units.old j + passed out.now leaving j }
{
    if let Out::Turns(turns) = out {
        let turns = turns.as_slice();
        spread(turns, leaving / parcel(turns), units);
    }
}

/// Moves some parcels into the cells of a diverge's branches.
fn spread(turns: &[(u32, u32)], parcels: u32, units: &mut [u32])
    requires within { All (λ (branch : ℕ × ℕ). branch.0 < length units.old) turns.now }
    requires branches { AreBranches turns.now }
    requires small { parcels ≤ 1000 }
    requires room { (j : ℕ) → slice_index units.old j ≤ 2 ^ 30 }
    ensures { (j : ℕ) → j < length units.old →
        slice_index units.new j ≡ slice_index units.old j + parcel_to j turns.now * parcels }
{
    for (target, share) in turns {
        units[*target as usize] += *share * parcels;
    }
}

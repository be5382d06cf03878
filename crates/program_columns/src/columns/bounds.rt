//! The greatest values of the columns of a cell.

ghost use Rattle.std.specs.Prelude.{◌≡◌, ◌/◌, ◌≤◌, ◌<◌, ℕ, All, length};
ghost use Rattle.listed.specs.Below.{sum_below};
ghost use Rattle.ct_base.specs.Access.{parcel, targets};
ghost use Rattle.ct_base.specs.Validity.{IsBetween, IsSplit};
ghost use Rattle.cell_replay.specs.Asked.{AreBranches};
ghost use Rattle.program_columns.specs.inner.Bounds.{cap_up_to};
ghost use Rattle.program_model.specs.Values.{least_units, most_room, most_units};
ghost use Rattle.traffic_model.specs.Flow.{cap_of, units_of_flow};
ghost use Rattle.traffic_model.specs.Occupancy.{demand_at};

use ct_base::{Cell, Kind, Out};

/// The least units that a cell may hold at step t.
pub fn least_units(cell: &Cell, t: u32) -> u32
    ensures { result ≡ least_units cell.now t }
{
    if t == 0 { cell.initial } else { 0 }
}

/// The greatest units that a cell may hold at step t, where so many have arrived at it before.
pub fn most_units(cell: &Cell, arrived: u32, t: u32) -> u32
    requires { arrived ≡ sum_below t (demand_at cell.now) }
    ensures { result ≡ most_units cell.now t }
{
    if t == 0 {
        cell.initial
    } else {
        match cell.kind {
            Kind::Road => cell.store,
            Kind::Queue => arrived,
        }
    }
}

/// The greatest room of a cell.
pub fn most_room(cell: &Cell) -> u32
    requires store { cell.now.store ≤ 10000 }
    requires wave { cell.now.wave_p ≤ 100 }
    requires some { 1 ≤ cell.now.wave_q }
    ensures { result ≡ most_room cell.now }
{
    cell.wave_p * cell.store / cell.wave_q
}

/// The units of one parcel of a diverge.
fn parcel(turns: &[(u32, u32)]) -> u32
    requires { AreBranches turns.now }
    ensures value { result ≡ parcel turns.now }
    ensures some { 1 ≤ result }
    ensures few { result ≤ 400 }
{
    let mut units = 0;
    for turn in turns {
        units += turn.1;
    }
    units
}

/// How many units leave a cell with one unit of flow.
pub fn units_of_flow(out: &Out) -> u32
    requires { IsSplit out.now }
    ensures value { result ≡ units_of_flow out.now }
    ensures some { 1 ≤ result }
    ensures few { result ≤ 400 }
{
    if let Out::Turns(turns) = out {
        parcel(turns.as_slice())
    } else {
        1
    }
}

/// The most parcels that may pass, for so many that the cell itself and for each branch as many as its cell lets enter.
fn cap_of_branches(cells: &[Cell], turns: &[(u32, u32)], most: u32) -> u32
    requires there { All (λ (branch : ℕ × ℕ). branch.0 < length cells.now) turns.now }
    requires shares { All (λ (branch : ℕ × ℕ). IsBetween 1 100 branch.1) turns.now }
    ensures value { result ≡ cap_up_to cells.now most turns.now }
    ensures few { result ≤ most }
{
    let mut cap = most;
    for (target, share) in turns {
        cap = cap.min(cells[*target as usize].cap / *share);
    }
    cap
}

/// The most that may leave a cell in a step: units, or at a diverge parcels.
pub fn cap_of(cells: &[Cell], cell: &Cell) -> u32
    requires cap { cell.now.cap ≤ 1000 }
    requires targets { All (λ k. k < length cells.now) (targets cell.now.out) }
    requires split { IsSplit cell.now.out }
    ensures value { result ≡ cap_of cells.now cell.now cell.now.out }
    ensures few { result ≤ 1000 }
{
    match &cell.out {
        Out::Exit => cell.cap,
        Out::To(target) => cell.cap.min(cells[*target as usize].cap),
        Out::Turns(turns) => cap_of_split(cells, turns.as_slice(), cell.cap),
    }
}

/// The most parcels that may leave a diverge in a step.
fn cap_of_split(cells: &[Cell], turns: &[(u32, u32)], cap: u32) -> u32
    requires cap { cap ≤ 1000 }
    requires there { All (λ (branch : ℕ × ℕ). branch.0 < length cells.now) turns.now }
    requires branches { AreBranches turns.now }
    ensures value { result ≡ cap_up_to cells.now (cap / parcel turns.now) turns.now }
    ensures few { result ≤ 1000 }
{
    cap_of_branches(cells, turns, cap / parcel(turns))
}

//! What the columns of cells count, from what they hold as a step begins and what the signals show in it.

ghost use Rattle.std.specs.Prelude.{◌≡◌, ◌++◌, ◌∷◌, [], ◌<◌, ◌%◌, ◌*◌, ◌-◌, ◌==◌, All, OnOk, flat_map, length, pos, slice_index, true};
ghost use Rattle.cell_replay.specs.Asked.{AreBranches, Fit, LeadToRoads};
ghost use Rattle.ct_base.specs.Access.{cell_of, targets};
ghost use Rattle.ct_base.specs.Validity.{IsSplit, IsValid};
ghost use Rattle.ct_base.specs.declared.cell.Kind.TheVariants.{Road};
ghost use Rattle.listed.specs.Below.{join_below, table_of};
ghost use Rattle.plan_point.specs.inner.Points.{branch_counts, cell_counts, counts, move_counts, room_counts, split_counts, unit_counts};
ghost use Rattle.program_layout.specs.Layout.{IsLayout};
ghost use Rattle.program_model.specs.Columns.{columns_of_cells};
ghost use Rattle.program_model.specs.Values.{one_where};
ghost use Rattle.traffic_model.specs.Runs.{HasWords};

use crate::encoding::bits::one_where;
use crate::encoding::terms::{first_place, least, move_terms};
use cell_replay::{Replay, parcel, receiving, show};
use ct_base::{Cell, Letter, Memory, Net, Out, Plan};
use program_layout::{Layout, has_room};
use std::alloc::Global;

/// Adds what the columns of all cells count at each step.
pub(super) fn push_steps(
    alloc: Global,
    values: &mut Vec<i64>,
    net: &Net,
    layout: &Layout,
    plan: &Plan,
) -> Result<(), Memory>
    requires valid { IsValid net.now }
    requires layout { IsLayout net.now layout.now }
    requires words { HasWords net.now plan.now }
    ensures { OnOk result (values.new.items ≡ values.old.items
        ++ counts net.now plan.now.words (join_below net.now.steps (columns_of_cells net.now.cells))) }
{
    let mut letters = vec![in alloc; Letter::Clear(0); plan.words.len()]?;
    let mut terms = Vec::new(alloc);
    let mut replay = Replay::start(alloc, net)?;
    for step in 0..net.steps {
        let shown = letters.as_mut_slice();
        show(plan.words.as_slice(), step, shown);
        push_cells(values, &mut terms, net, layout, shown, replay.units())?;
        let _delay = replay.step(net, shown);
    }
    Ok(())
}

/// Adds what the columns of each cell count in a step. The terms of each move are written into `terms`.
fn push_cells(
    values: &mut Vec<i64>,
    terms: &mut Vec<u32>,
    net: &Net,
    layout: &Layout,
    letters: &[Letter],
    units: &[u32],
) -> Result<(), Memory>
    requires valid { IsValid net.now }
    requires layout { IsLayout net.now layout.now }
    requires letters { length letters.now ≡ length net.now.signals }
    requires fit { Fit net.now.cells units.now }
    ensures { OnOk result (values.new.items ≡ values.old.items
        ++ join_below (length net.now.cells) (cell_counts net.now.cells letters.now units.now)) }
{
    for number in 0..net.cells.len() {
        push_cell(values, terms, net, layout, letters, units, number)?;
    }
    Ok(())
}

/// Adds what the columns of a cell count.
fn push_cell(
    values: &mut Vec<i64>,
    terms: &mut Vec<u32>,
    net: &Net,
    layout: &Layout,
    letters: &[Letter],
    units: &[u32],
    number: usize,
) -> Result<(), Memory>
    requires valid { IsValid net.now }
    requires layout { IsLayout net.now layout.now }
    requires letters { length letters.now ≡ length net.now.signals }
    requires fit { Fit net.now.cells units.now }
    requires there { number < length net.now.cells }
    ensures { OnOk result (values.new.items ≡ values.old.items ++ cell_counts net.now.cells letters.now units.now number) }
{
    let cells = net.cells.as_slice();
    let cell = net.cell(number);
    push_units(values, net, layout, units, number)?;
    push_split(values, cells, units, units[number], &cell.out)?;
    move_terms(terms, cells, letters, units, number, cell)?;
    push_move(values, terms.as_slice())?;
    Ok(())
}

/// Adds the units of a cell, and its room where that is a column.
fn push_units(
    values: &mut Vec<i64>,
    net: &Net,
    layout: &Layout,
    units: &[u32],
    number: usize,
) -> Result<(), Memory>
    requires valid { IsValid net.now }
    requires layout { IsLayout net.now layout.now }
    requires fit { Fit net.now.cells units.now }
    requires there { number < length net.now.cells }
    ensures { OnOk result (values.new.items ≡ values.old.items ++ unit_counts net.now.cells units.now number) }
{
    values.push(i64::from(units[number]))?;
    if has_room(net, layout, number as u32) {
        push_room(values, net.cells.as_slice(), units, number)?;
    }
    Ok(())
}

/// Adds the units that a road cell has room for, and the rest of their division.
fn push_room(
    values: &mut Vec<i64>,
    cells: &[Cell],
    units: &[u32],
    number: usize,
) -> Result<(), Memory>
    requires fit { Fit cells.now units.now }
    requires there { number < length cells.now }
    requires road { (cell_of cells.now number).kind ≡ Road }
    ensures { OnOk result (values.new.items ≡ values.old.items
        ++ room_counts (cell_of cells.now number) (slice_index units.now number)) }
{
    values.push(i64::from(receiving(cells, units, number)))?;
    values.push(i64::from(room_rest(cells, units, number)))?;
    Ok(())
}

/// What is left of a road cell's free storage where its room is taken from it in whole units.
fn room_rest(cells: &[Cell], units: &[u32], number: usize) -> u32
    requires fit { Fit cells.now units.now }
    requires there { number < length cells.now }
    requires road { (cell_of cells.now number).kind ≡ Road }
    ensures { result ≡ ((cell_of cells.now number).wave_p * ((cell_of cells.now number).store - slice_index units.now number)) % (cell_of cells.now number).wave_q }
{
    let cell = cell_at(cells, number);
    cell.wave_p * (cell.store - units[number]) % cell.wave_q
}

/// The cell with a number.
fn cell_at(cells: &[Cell], number: usize) -> &Cell
    requires { number < length cells.now }
    ensures { result.now ≡ cell_of cells.now number }
{
    &cells[number]
}

/// Adds the parcels in a diverge that holds so many units, and the rest, and the same of its branches.
fn push_split(
    values: &mut Vec<i64>,
    cells: &[Cell],
    units: &[u32],
    held: u32,
    out: &Out,
) -> Result<(), Memory>
    requires fit { Fit cells.now units.now }
    requires targets { All (λ k. (k < length cells.now) × ((cell_of cells.now k).kind ≡ Road)) (targets out.now) }
    requires split { IsSplit out.now }
    ensures { OnOk result (values.new.items ≡ values.old.items ++ split_counts cells.now units.now held out.now) }
{
    match out {
        Out::Exit => Ok(()),
        Out::To(_) => Ok(()),
        Out::Turns(turns) => {
            let turns = turns.as_slice();
            let parcel = parcel(turns);
            values.push(i64::from(held / parcel))?;
            values.push(i64::from(held % parcel))?;
            push_branches(values, cells, units, turns)
        }
    }
}

/// Adds the parcels that the cells of a diverge's branches have room for, and the rests.
fn push_branches(
    values: &mut Vec<i64>,
    cells: &[Cell],
    units: &[u32],
    turns: &[(u32, u32)],
) -> Result<(), Memory>
    requires fit { Fit cells.now units.now }
    requires branches { AreBranches turns.now }
    requires roads { LeadToRoads cells.now turns.now }
    ensures { OnOk result (values.new.items ≡ values.old.items ++ flat_map (branch_counts cells.now units.now) turns.now) }
{
    for (target, share) in turns {
        push_branch(values, cells, units, *target, *share)?;
    }
    Ok(())
}

/// Adds the parcels that the cell of a branch has room for, and the rest, where the parcel has more than one unit.
fn push_branch(
    values: &mut Vec<i64>,
    cells: &[Cell],
    units: &[u32],
    target: u32,
    share: u32,
) -> Result<(), Memory>
    requires fit { Fit cells.now units.now }
    requires there { target < length cells.now }
    requires road { (cell_of cells.now target).kind ≡ Road }
    ensures { OnOk result (values.new.items ≡ values.old.items ++ branch_counts cells.now units.now (target, share)) }
{
    if share > 1 {
        let room = receiving(cells, units, target as usize);
        values.push(i64::from(room / share))?;
        values.push(i64::from(room % share))?;
    }
    Ok(())
}

/// Adds the flow of a move with these terms, and a switch for each of them.
fn push_move(values: &mut Vec<i64>, terms: &[u32]) -> Result<(), Memory>
    requires { 0 < length terms.now }
    ensures { OnOk result (values.new.items ≡ values.old.items ++ move_counts terms.now) }
{
    let flow = least(terms);
    values.push(i64::from(flow))?;
    push_switches(values, terms.len(), first_place(terms, flow))?;
    Ok(())
}

/// Adds so many switches, of which the one at a place is on.
fn push_switches(values: &mut Vec<i64>, count: usize, place: usize) -> Result<(), Memory>
    ensures { OnOk result (values.new.items ≡ values.old.items ++ table_of count (λ m. pos (one_where (m == place)))) }
{
    for number in 0..count {
        values.push(one_where(number == place))?;
    }
    Ok(())
}

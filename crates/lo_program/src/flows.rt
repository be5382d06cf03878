//! The flow rows of a network: step by step and cell by cell the floors, the rows of the move and the row of what the
//! cell holds in the next step.

ghost use Rattle.std.specs.Prelude.{◌≡◌, ◌<◌, ◌≤◌, ◌+◌, ◌++◌, length, map, OnOk};
ghost use Rattle.ct_base.specs.Access.{cell_of};
ghost use Rattle.ct_base.specs.Validity.{IsValid};
ghost use Rattle.listed.specs.Below.{join_below, sum_below, table_of};
ghost use Rattle.lo_program.specs.inner.Adding.{Adds, Fits};
ghost use Rattle.program_columns.specs.Columns.{arrived_before};
ghost use Rattle.lo_program.specs.inner.Floors.{rows_of_step};
ghost use Rattle.lo_program.specs.inner.Flows.{IsMoves};
ghost use Rattle.program_layout.specs.Layout.{IsLayout};
ghost use Rattle.program_model.specs.Columns.{columns};
ghost use Rattle.program_model.specs.FlowRows.{flow_rows, flow_rows_at};
ghost use Rattle.program_model.specs.Numbers.{number_of};
ghost use Rattle.program_model.specs.Sparse.{sparse};
ghost use Rattle.sparse_program.specs.declared.limits.TheConstants.{MAX_ROWS};
ghost use Rattle.traffic_model.specs.Occupancy.{demand_at};

mod conservation;
mod feeders;
mod floors;
mod moves;
mod rooms;
mod terms;

use conservation::add_conservation_rows;
use ct_base::{Memory, Net};
use feeders::{Moves, moves_of};
use floors::{add_room_rows, add_split_rows};
use moves::add_move_rows;
use program_columns::{more_arrived, none_arrived};
use program_layout::Layout;
use sparse_program::Builder;

/// Adds the flow rows of a network: step by step, and of each cell by cell.
pub(crate) fn add_flow_rows(builder: &mut Builder, net: &Net, layout: &Layout) -> Result<(), Memory>
    requires valid { IsValid net.now }
    requires layout { IsLayout net.now layout.now }
    requires all_columns { length builder.old.columns ≡ length (columns net.now) }
    requires few { length builder.old.rows + length (flow_rows net.now) ≤ MAX_ROWS }
    ensures { OnOk result (builder.new ≡ record builder.old { rows = builder.old.rows ++ map (sparse (number_of net.now)) (flow_rows net.now) }) }
{
    let moves = moves_of(builder.alloc(), net, layout)?;
    add_rows_of_steps(builder, net, layout, &moves)?;
    Ok(())
}

/// Adds the flow rows of all steps, from one to the next with what has arrived at each cell.
fn add_rows_of_steps(
    builder: &mut Builder,
    net: &Net,
    layout: &Layout,
    moves: &Moves,
) -> Result<(), Memory>
    requires valid { IsValid net.now }
    requires layout { IsLayout net.now layout.now }
    requires moves { IsMoves net.now moves.now }
    requires all_columns { length builder.old.columns ≡ length (columns net.now) }
    requires fits { Fits net.now builder.old (join_below net.now.steps (rows_of_step net.now)) }
    ensures { OnOk result (Adds net.now builder.old builder.new (join_below net.now.steps (rows_of_step net.now))) }
{
    let mut arrived = none_arrived(builder.alloc(), net)?;
    for t in 0..net.steps {
        add_rows_of_step(builder, net, layout, moves, t, arrived.as_slice())?;
        arrived = more_arrived(builder.alloc(), net, arrived.as_slice(), t)?;
    }
    Ok(())
}

/// Adds the flow rows of all cells at step t, where so many units have arrived at each before.
fn add_rows_of_step(
    builder: &mut Builder,
    net: &Net,
    layout: &Layout,
    moves: &Moves,
    t: u32,
    arrived: &[u32],
) -> Result<(), Memory>
    requires valid { IsValid net.now }
    requires layout { IsLayout net.now layout.now }
    requires moves { IsMoves net.now moves.now }
    requires before { t < net.now.steps }
    requires arrived { arrived.now ≡ table_of (length net.now.cells) (arrived_before net.now.cells t) }
    requires all_columns { length builder.old.columns ≡ length (columns net.now) }
    requires fits { Fits net.now builder.old (rows_of_step net.now t) }
    ensures { OnOk result (Adds net.now builder.old builder.new (rows_of_step net.now t)) }
{
    for i in 0..net.cells.len() as u32 {
        add_rows_of_cell(builder, net, layout, moves, t, i, arrived[i as usize])?;
    }
    Ok(())
}

/// Adds the flow rows of cell i at step t, where so many units have arrived at it before.
fn add_rows_of_cell(
    builder: &mut Builder,
    net: &Net,
    layout: &Layout,
    moves: &Moves,
    t: u32,
    i: u32,
    arrived: u32,
) -> Result<(), Memory>
    requires valid { IsValid net.now }
    requires layout { IsLayout net.now layout.now }
    requires moves { IsMoves net.now moves.now }
    requires before { t < net.now.steps }
    requires inside { i < length net.now.cells }
    requires arrived { arrived ≡ sum_below t (demand_at (cell_of net.now.cells i)) }
    requires all_columns { length builder.old.columns ≡ length (columns net.now) }
    requires fits { Fits net.now builder.old (flow_rows_at net.now t i) }
    ensures { OnOk result (Adds net.now builder.old builder.new (flow_rows_at net.now t i)) }
{
    add_room_rows(builder, net, layout, t, i)?;
    add_split_rows(builder, net, layout, t, i)?;
    add_move_rows(builder, net, layout, moves, t, i, arrived)?;
    add_conservation_rows(builder, net, layout, moves, t, i)?;
    Ok(())
}

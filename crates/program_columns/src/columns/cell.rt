//! The columns of one cell at one step: its units, its room, the parcels of a diverge, its flow and its switches.

ghost use Rattle.std.specs.Prelude.{◌≡◌, ◌+◌, ◌≤◌, ◌<◌, [], ◌∷◌, OnOk, if◌then◌else◌, length};
ghost use Rattle.listed.specs.Below.{sum_below, table_of};
ghost use Rattle.ct_base.specs.Access.{cell_of};
ghost use Rattle.ct_base.specs.Validity.{IsValid};
ghost use Rattle.program_columns.specs.Columns.{with_columns};
ghost use Rattle.program_layout.specs.Layout.{IsLayout};
ghost use Rattle.program_model.specs.Columns.{Flow, Room, RoomRest, Switch, Units, columns_of_cell, has_room};
ghost use Rattle.sparse_program.specs.declared.limits.TheConstants.{MAX_COLUMNS};
ghost use Rattle.traffic_model.specs.Occupancy.{demand_at};

use super::add;
use super::bounds::{cap_of, least_units, most_room, most_units, units_of_flow};
use super::diverge::add_diverge;
use ct_base::{Memory, Net};
use program_layout::{Layout, has_room, term_count};
use sparse_program::Builder;

/// Adds the columns of cell i at step t, where so many units have arrived at it before.
pub(super) fn add_columns_of_cell(
    builder: &mut Builder,
    net: &Net,
    layout: &Layout,
    t: u32,
    i: usize,
    arrived: u32,
) -> Result<(), Memory>
    requires valid { IsValid net.now }
    requires layout { IsLayout net.now layout.now }
    requires before { t < net.now.steps }
    requires inside { i < length net.now.cells }
    requires arrived { arrived ≡ sum_below t (demand_at (cell_of net.now.cells i)) }
    requires room { length builder.old.columns + length (columns_of_cell net.now.cells t i) ≤ MAX_COLUMNS }
    ensures { OnOk result (builder.new ≡ with_columns net.now builder.old (columns_of_cell net.now.cells t i)) }
{
    add_units(builder, net, t, i, arrived)?;
    add_room(builder, net, layout, t, i)?;
    add_diverge(builder, net, t, i, arrived)?;
    add_flow(builder, net, t, i)?;
    add_switches(builder, net, t, i, term_count(&net.cell(i).out))?;
    Ok(())
}

/// Adds the units of cell i at step t, where so many have arrived at it before.
fn add_units(builder: &mut Builder, net: &Net, t: u32, i: usize, arrived: u32) -> Result<(), Memory>
    requires valid { IsValid net.now }
    requires before { t < net.now.steps }
    requires inside { i < length net.now.cells }
    requires arrived { arrived ≡ sum_below t (demand_at (cell_of net.now.cells i)) }
    requires room { length builder.old.columns < MAX_COLUMNS }
    ensures { OnOk result (builder.new ≡ with_columns net.now builder.old (Units t i ∷ [])) }
{
    let cell = net.cell(i);
    add(
        builder,
        least_units(cell, t),
        most_units(cell, arrived, t),
        1,
    )
}

/// Adds the room of cell i at step t where it is a column.
fn add_room(
    builder: &mut Builder,
    net: &Net,
    layout: &Layout,
    t: u32,
    i: usize,
) -> Result<(), Memory>
    requires valid { IsValid net.now }
    requires layout { IsLayout net.now layout.now }
    requires inside { i < length net.now.cells }
    requires room { length builder.old.columns + length (if has_room net.now.cells i then Room t i ∷ RoomRest t i ∷ [] else []) ≤ MAX_COLUMNS }
    ensures { OnOk result (builder.new ≡ with_columns net.now builder.old (if has_room net.now.cells i then Room t i ∷ RoomRest t i ∷ [] else [])) }
{
    if has_room(net, layout, i as u32) {
        add_room_and_rest(builder, net, t, i)
    } else {
        Ok(())
    }
}

/// Adds the room of cell i at step t, and the rest of its division.
fn add_room_and_rest(builder: &mut Builder, net: &Net, t: u32, i: usize) -> Result<(), Memory>
    requires valid { IsValid net.now }
    requires inside { i < length net.now.cells }
    requires room { length builder.old.columns + 2 ≤ MAX_COLUMNS }
    ensures { OnOk result (builder.new ≡ with_columns net.now builder.old (Room t i ∷ RoomRest t i ∷ [])) }
{
    let cell = net.cell(i);
    add(builder, 0, most_room(cell), 0)?;
    add(builder, 0, cell.wave_q - 1, 0)
}

/// Adds the flow of cell i at step t. What leaves the cell gives its cost back.
fn add_flow(builder: &mut Builder, net: &Net, t: u32, i: usize) -> Result<(), Memory>
    requires valid { IsValid net.now }
    requires inside { i < length net.now.cells }
    requires room { length builder.old.columns < MAX_COLUMNS }
    ensures { OnOk result (builder.new ≡ with_columns net.now builder.old (Flow t i ∷ [])) }
{
    let cell = net.cell(i);
    let cost = -i64::from(units_of_flow(&cell.out));
    add(builder, 0, cap_of(net.cells.as_slice(), cell), cost)
}

/// Adds the switches of cell i at step t, one a term of its move.
fn add_switches(
    builder: &mut Builder,
    net: &Net,
    t: u32,
    i: usize,
    terms: u32,
) -> Result<(), Memory>
    requires room { length builder.old.columns + terms ≤ MAX_COLUMNS }
    ensures { OnOk result (builder.new ≡ with_columns net.now builder.old (table_of terms (Switch t i))) }
{
    let _ = net;
    for _m in 0..terms {
        add(builder, 0, 1, 0)?;
    }
    Ok(())
}

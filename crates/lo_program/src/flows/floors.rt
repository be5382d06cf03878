//! The rows of quotients that are rounded down: the units that a cell has room for, and at a diverge the parcels that it
//! holds and those that its branches have room for.

ghost use Rattle.std.specs.Prelude.{◌≡◌, ◌<◌, ◌≤◌, [], ◌∷◌, pos, length, slice_index_or, IfOk, OnOk};
ghost use Rattle.ct_base.specs.Access.{cell_of};
ghost use Rattle.ct_base.specs.Validity.{IsValid};
ghost use Rattle.ct_base.specs.declared.cell.Out.TheVariants.{Turns};
ghost use Rattle.lo_program.specs.inner.Adding.{Adds, Fits};
ghost use Rattle.lo_program.specs.inner.Floors.{branch_row, free_storage, parcels_row, room_row};
ghost use Rattle.program_layout.specs.Layout.{IsLayout};
ghost use Rattle.program_model.specs.Columns.{Units};
ghost use Rattle.program_model.specs.FlowRows.{branch_rows, branches_rows, room_rows, split_rows};
ghost use Rattle.program_model.specs.Numbers.{number_of};
ghost use Rattle.program_model.specs.Sparse.{by_number};

use crate::flows::rooms::room;
use cell_replay::parcel;
use ct_base::{Memory, Net, Out};
use flow_switches::floor_row;
use program_layout::{Layout, branch_column, first_column, has_room, parcels_column};
use sparse_program::{Builder, Linear, Terms};
use std::alloc::Global;

/// Adds the row of the room of cell i at step t, where that is a column.
pub(crate) fn add_room_rows(
    builder: &mut Builder,
    net: &Net,
    layout: &Layout,
    t: u32,
    i: u32,
) -> Result<(), Memory>
    requires valid { IsValid net.now }
    requires layout { IsLayout net.now layout.now }
    requires before { t < net.now.steps }
    requires inside { i < length net.now.cells }
    requires fits { Fits net.now builder.old (room_rows net.now.cells t i) }
    ensures { OnOk result (Adds net.now builder.old builder.new (room_rows net.now.cells t i)) }
{
    if has_room(net, layout, i) {
        add_room_row(builder, net, layout, t, i)
    } else {
        Ok(())
    }
}

/// Adds the row of the room of cell i at step t.
fn add_room_row(
    builder: &mut Builder,
    net: &Net,
    layout: &Layout,
    t: u32,
    i: u32,
) -> Result<(), Memory>
    requires valid { IsValid net.now }
    requires layout { IsLayout net.now layout.now }
    requires before { t < net.now.steps }
    requires inside { i < length net.now.cells }
    requires fits { Fits net.now builder.old (room_row net.now.cells t i ∷ []) }
    ensures { OnOk result (Adds net.now builder.old builder.new (room_row net.now.cells t i ∷ [])) }
{
    let units = first_column(net, layout, t, i);
    let free = free_storage(builder.alloc(), net, layout, t, i)?;
    let wave_q = net.cell(i as usize).wave_q;
    floor_row(builder, units + 1, units + 2, i64::from(wave_q), &free)?;
    Ok(())
}

/// The free storage of a cell, as many times as the numerator of its wave ratio.
fn free_storage(alloc: Global, net: &Net, layout: &Layout, t: u32, i: u32) -> Result<Linear, Memory>
    requires valid { IsValid net.now }
    requires layout { IsLayout net.now layout.now }
    requires before { t < net.now.steps }
    requires inside { i < length net.now.cells }
    ensures constant { IfOk result (λ linear. linear.constant ≡ (free_storage net.now.cells t i).constant) }
    ensures terms { IfOk result (λ linear. linear.terms ≡ by_number (number_of net.now) (free_storage net.now.cells t i).terms) }
{
    let cell = net.cell(i as usize);
    let mut terms = Terms::new(alloc);
    terms.push((first_column(net, layout, t, i), -i64::from(cell.wave_p)))?;
    Ok(Linear {
        constant: i64::from(cell.wave_p * cell.store),
        terms,
    })
}

/// Adds the rows of the parcels in cell i at step t, where it is a diverge.
pub(crate) fn add_split_rows(
    builder: &mut Builder,
    net: &Net,
    layout: &Layout,
    t: u32,
    i: u32,
) -> Result<(), Memory>
    requires valid { IsValid net.now }
    requires layout { IsLayout net.now layout.now }
    requires before { t < net.now.steps }
    requires inside { i < length net.now.cells }
    requires fits { Fits net.now builder.old (split_rows net.now.cells t i (cell_of net.now.cells i).out) }
    ensures { OnOk result (Adds net.now builder.old builder.new (split_rows net.now.cells t i (cell_of net.now.cells i).out)) }
{
    match &net.cell(i as usize).out {
        Out::Exit | Out::To(_) => Ok(()),
        Out::Turns(branches) => {
            add_diverge_rows(builder, net, layout, t, i, branches.as_slice())
        }
    }
}

/// Adds the rows of the parcels in a diverge with these branches, and of those that the branches have room for.
fn add_diverge_rows(
    builder: &mut Builder,
    net: &Net,
    layout: &Layout,
    t: u32,
    i: u32,
    branches: &[(u32, u32)],
) -> Result<(), Memory>
    requires valid { IsValid net.now }
    requires layout { IsLayout net.now layout.now }
    requires before { t < net.now.steps }
    requires inside { i < length net.now.cells }
    requires branches { (cell_of net.now.cells i).out ≡ Turns branches.now }
    requires fits { Fits net.now builder.old (parcels_row t i branches.now ∷ branches_rows net.now.cells t i 0 branches.now) }
    ensures { OnOk result (Adds net.now builder.old builder.new (parcels_row t i branches.now ∷ branches_rows net.now.cells t i 0 branches.now)) }
{
    add_parcels_row(builder, net, layout, t, i, branches)?;
    add_branches_rows(builder, net, layout, t, i, branches)
}

/// Adds the row of the parcels in a diverge.
fn add_parcels_row(
    builder: &mut Builder,
    net: &Net,
    layout: &Layout,
    t: u32,
    i: u32,
    branches: &[(u32, u32)],
) -> Result<(), Memory>
    requires valid { IsValid net.now }
    requires layout { IsLayout net.now layout.now }
    requires before { t < net.now.steps }
    requires inside { i < length net.now.cells }
    requires branches { (cell_of net.now.cells i).out ≡ Turns branches.now }
    requires fits { Fits net.now builder.old (parcels_row t i branches.now ∷ []) }
    ensures { OnOk result (Adds net.now builder.old builder.new (parcels_row t i branches.now ∷ [])) }
{
    let parcels = parcels_column(net, layout, t, i);
    let units = units(builder.alloc(), net, layout, t, i)?;
    floor_row(
        builder,
        parcels,
        parcels + 1,
        i64::from(parcel(branches)),
        &units,
    )?;
    Ok(())
}

/// The units in a cell.
fn units(alloc: Global, net: &Net, layout: &Layout, t: u32, i: u32) -> Result<Linear, Memory>
    requires valid { IsValid net.now }
    requires layout { IsLayout net.now layout.now }
    requires before { t < net.now.steps }
    requires inside { i < length net.now.cells }
    ensures constant { IfOk result (λ linear. linear.constant ≡ pos 0) }
    ensures terms { IfOk result (λ linear. linear.terms ≡ (number_of net.now (Units t i), pos 1) ∷ []) }
{
    let mut terms = Terms::new(alloc);
    terms.push((first_column(net, layout, t, i), 1))?;
    Ok(Linear { constant: 0, terms })
}

/// Adds the rows of the parcels that the branches of a diverge have room for.
fn add_branches_rows(
    builder: &mut Builder,
    net: &Net,
    layout: &Layout,
    t: u32,
    i: u32,
    branches: &[(u32, u32)],
) -> Result<(), Memory>
    requires valid { IsValid net.now }
    requires layout { IsLayout net.now layout.now }
    requires before { t < net.now.steps }
    requires inside { i < length net.now.cells }
    requires branches { (cell_of net.now.cells i).out ≡ Turns branches.now }
    requires fits { Fits net.now builder.old (branches_rows net.now.cells t i 0 branches.now) }
    ensures { OnOk result (Adds net.now builder.old builder.new (branches_rows net.now.cells t i 0 branches.now)) }
{
    for k in 0..branches.len() {
        add_branch_rows(builder, net, layout, t, i, branches, k)?;
    }
    Ok(())
}

/// Adds the row of the parcels that branch k of a diverge has room for, where it takes more than one unit of a parcel.
fn add_branch_rows(
    builder: &mut Builder,
    net: &Net,
    layout: &Layout,
    t: u32,
    i: u32,
    branches: &[(u32, u32)],
    k: usize,
) -> Result<(), Memory>
    requires valid { IsValid net.now }
    requires layout { IsLayout net.now layout.now }
    requires before { t < net.now.steps }
    requires inside { i < length net.now.cells }
    requires branches { (cell_of net.now.cells i).out ≡ Turns branches.now }
    requires there { k < length branches.now }
    requires fits { Fits net.now builder.old (branch_rows net.now.cells t i k (slice_index_or branches.now k (0, 0))) }
    ensures { OnOk result (Adds net.now builder.old builder.new (branch_rows net.now.cells t i k (slice_index_or branches.now k (0, 0)))) }
{
    if 1 < branches[k].1 {
        add_branch_row(builder, net, layout, t, i, branches, k)
    } else {
        Ok(())
    }
}

/// Adds the row of the parcels that branch k of a diverge has room for.
fn add_branch_row(
    builder: &mut Builder,
    net: &Net,
    layout: &Layout,
    t: u32,
    i: u32,
    branches: &[(u32, u32)],
    k: usize,
) -> Result<(), Memory>
    requires valid { IsValid net.now }
    requires layout { IsLayout net.now layout.now }
    requires before { t < net.now.steps }
    requires inside { i < length net.now.cells }
    requires branches { (cell_of net.now.cells i).out ≡ Turns branches.now }
    requires there { k < length branches.now }
    requires fits { Fits net.now builder.old (branch_row net.now.cells t i k (slice_index_or branches.now k (0, 0)) ∷ []) }
    ensures { OnOk result (Adds net.now builder.old builder.new (branch_row net.now.cells t i k (slice_index_or branches.now k (0, 0)) ∷ [])) }
{
    let (target, units) = branches[k];
    let parcels = branch_column(net, layout, t, i, branches, k);
    let room = room(builder.alloc(), net, layout, t, target)?;
    floor_row(builder, parcels, parcels + 1, i64::from(units), &room)?;
    Ok(())
}

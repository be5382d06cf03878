//! The columns of a diverge at one step: its parcels, and the room that its branches have for parcels.

ghost use Rattle.std.specs.Prelude.{◌≡◌, ◌+◌, ◌≤◌, ◌<◌, [], ◌∷◌, ℕ, All, OnOk, drop, length};
ghost use Rattle.listed.specs.Below.{sum_below};
ghost use Rattle.ct_base.specs.Access.{cell_of};
ghost use Rattle.ct_base.specs.Validity.{IsBetween, IsValid};
ghost use Rattle.program_columns.specs.Columns.{with_columns};
ghost use Rattle.program_model.specs.Columns.{BranchRest, BranchRoom, Parcels, ParcelsRest, columns_of_branch, columns_of_branches, columns_of_split};
ghost use Rattle.program_model.specs.Numbers.{branches_of};
ghost use Rattle.program_model.specs.Values.{branch_of};
ghost use Rattle.sparse_program.specs.declared.limits.TheConstants.{MAX_COLUMNS};
ghost use Rattle.traffic_model.specs.Occupancy.{demand_at};

use super::add;
use super::bounds::{most_room, most_units, units_of_flow};
use ct_base::{Memory, Net, Out};
use sparse_program::Builder;

/// Adds the columns of the diverge out of cell i at step t, where so many units have arrived at the cell before it. Another
/// move has none.
pub(super) fn add_diverge(
    builder: &mut Builder,
    net: &Net,
    t: u32,
    i: usize,
    arrived: u32,
) -> Result<(), Memory>
    requires valid { IsValid net.now }
    requires before { t < net.now.steps }
    requires inside { i < length net.now.cells }
    requires arrived { arrived ≡ sum_below t (demand_at (cell_of net.now.cells i)) }
    requires room { length builder.old.columns + length (columns_of_split t i (cell_of net.now.cells i).out) ≤ MAX_COLUMNS }
    ensures { OnOk result (builder.new ≡ with_columns net.now builder.old (columns_of_split t i (cell_of net.now.cells i).out)) }
{
    match &net.cell(i).out {
        Out::Exit => Ok(()),
        Out::To(_) => Ok(()),
        Out::Turns(turns) => {
            add_parcels(builder, net, t, i, arrived)?;
            add_branches(builder, net, t, i, 0, turns.as_slice())?;
            Ok(())
        }
    }
}

/// Adds the columns of the branches that are left, of which the first has number k.
fn add_branches(
    builder: &mut Builder,
    net: &Net,
    t: u32,
    i: usize,
    k: usize,
    left: &[(u32, u32)],
) -> Result<(), Memory>
    requires valid { IsValid net.now }
    requires left { left.now ≡ drop k (branches_of (cell_of net.now.cells i).out) }
    requires few { k + length left.now ≤ 4 }
    requires there { All (λ (branch : ℕ × ℕ). branch.0 < length net.now.cells) left.now }
    requires units { All (λ (branch : ℕ × ℕ). IsBetween 1 100 branch.1) left.now }
    requires room { length builder.old.columns + length (columns_of_branches t i k left.now) ≤ MAX_COLUMNS }
    ensures { OnOk result (builder.new ≡ with_columns net.now builder.old (columns_of_branches t i k left.now)) }
{
    match left {
        [] => Ok(()),
        [branch, later @ ..] => {
            add_branch(builder, net, t, i, k, *branch)?;
            add_branches(builder, net, t, i, k + 1, later)?;
            Ok(())
        }
    }
}

/// Adds the columns of branch k of cell i at step t: none where its parcel has one unit.
fn add_branch(
    builder: &mut Builder,
    net: &Net,
    t: u32,
    i: usize,
    k: usize,
    branch: (u32, u32),
) -> Result<(), Memory>
    requires valid { IsValid net.now }
    requires there { branch.0 < length net.now.cells }
    requires units { IsBetween 1 100 branch.1 }
    requires branch { branch_of (cell_of net.now.cells i).out k ≡ branch }
    requires room { length builder.old.columns + length (columns_of_branch t i k branch.1) ≤ MAX_COLUMNS }
    ensures { OnOk result (builder.new ≡ with_columns net.now builder.old (columns_of_branch t i k branch.1)) }
{
    if 1 < branch.1 {
        add_branch_room(builder, net, t, i, k, branch)
    } else {
        Ok(())
    }
}

/// Adds the parcels that branch k of cell i has room for at step t, and the units of room beside them.
fn add_branch_room(
    builder: &mut Builder,
    net: &Net,
    t: u32,
    i: usize,
    k: usize,
    branch: (u32, u32),
) -> Result<(), Memory>
    requires valid { IsValid net.now }
    requires there { branch.0 < length net.now.cells }
    requires units { IsBetween 1 100 branch.1 }
    requires branch { branch_of (cell_of net.now.cells i).out k ≡ branch }
    requires room { length builder.old.columns + 2 ≤ MAX_COLUMNS }
    ensures { OnOk result (builder.new ≡ with_columns net.now builder.old (BranchRoom t i k ∷ BranchRest t i k ∷ [])) }
{
    let (target, units) = branch;
    let most = most_room(net.cell(target as usize));
    add(builder, 0, most / units, 0)?;
    add(builder, 0, units - 1, 0)
}

/// Adds the parcels of cell i at step t, where so many units have arrived at it before, and the units beside them.
fn add_parcels(
    builder: &mut Builder,
    net: &Net,
    t: u32,
    i: usize,
    arrived: u32,
) -> Result<(), Memory>
    requires valid { IsValid net.now }
    requires before { t < net.now.steps }
    requires inside { i < length net.now.cells }
    requires arrived { arrived ≡ sum_below t (demand_at (cell_of net.now.cells i)) }
    requires room { length builder.old.columns + 2 ≤ MAX_COLUMNS }
    ensures { OnOk result (builder.new ≡ with_columns net.now builder.old (Parcels t i ∷ ParcelsRest t i ∷ [])) }
{
    let cell = net.cell(i);
    let units = units_of_flow(&cell.out);
    add(builder, 0, most_units(cell, arrived, t) / units, 0)?;
    add(builder, 0, units - 1, 0)
}

//! The numbers of the columns of a diverge.

ghost use Rattle.std.specs.Prelude.{◌≡◌, ◌<◌, ◌≤◌, length};
ghost use Rattle.ct_base.specs.Access.{cell_of};
ghost use Rattle.ct_base.specs.Validity.{IsValid};
ghost use Rattle.ct_base.specs.declared.cell.Out.TheVariants.{Turns};
ghost use Rattle.program_layout.specs.Layout.{IsLayout};
ghost use Rattle.program_model.specs.Columns.{BranchRoom, Parcels};
ghost use Rattle.program_model.specs.Numbers.{branches_before, number_of};

use super::making::{after_room, columns_of_branch};
use super::{Layout, first_column, has_room};
use ct_base::Net;

/// The column of the parcels in a diverge. Behind it stand the units beside them, and the columns of the branches.
pub fn parcels_column(net: &Net, layout: &Layout, t: u32, i: u32) -> u32
    requires valid { IsValid net.now }
    requires layout { IsLayout net.now layout.now }
    requires before { t < net.now.steps }
    requires inside { i < length net.now.cells }
    ensures { result ≡ number_of net.now (Parcels t i) }
{
    first_column(net, layout, t, i) + after_room(has_room(net, layout, i))
}

/// The column of the parcels that branch k of a diverge has room for. Behind it stand the units beside them.
pub fn branch_column(
    net: &Net,
    layout: &Layout,
    t: u32,
    i: u32,
    branches: &[(u32, u32)],
    k: usize,
) -> u32
    requires valid { IsValid net.now }
    requires layout { IsLayout net.now layout.now }
    requires before { t < net.now.steps }
    requires inside { i < length net.now.cells }
    requires branches { (cell_of net.now.cells i).out ≡ Turns branches.now }
    requires there { k < length branches.now }
    ensures { result ≡ number_of net.now (BranchRoom t i k) }
{
    parcels_column(net, layout, t, i) + 2 + columns_of_branches(branches, k)
}

/// How many columns the branches before branch k have.
fn columns_of_branches(branches: &[(u32, u32)], k: usize) -> u32
    requires there { k ≤ length branches.now }
    requires few { length branches.now ≤ 4 }
    ensures value { result ≡ branches_before branches.now k }
    ensures few { result ≤ 8 }
{
    let mut columns = 0;
    for j in 0..k {
        columns += columns_of_branch(branches[j].1);
    }
    columns
}

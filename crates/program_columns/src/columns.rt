//! The columns of the program of a network, in their order.

ghost use Rattle.std.specs.Prelude.{◌≡◌, ◌+◌, ◌≤◌, ◌<◌, [], ◌∷◌, ◌++◌, length, pos, OnErr, OnOk};
ghost use Rattle.listed.specs.Below.{join_below, table_of};
ghost use Rattle.ct_base.specs.Validity.{IsValid};
ghost use Rattle.program_columns.specs.Columns.{arrived_before, with_columns};
ghost use Rattle.program_layout.specs.Layout.{IsLayout};
ghost use Rattle.program_model.specs.Columns.{columns, columns_of_cells};
ghost use Rattle.sparse_program.specs.Terms.{IsSmall};
ghost use Rattle.sparse_program.specs.declared.limits.TheConstants.{MAX_COLUMNS, MAX_NUMBER};

pub mod arrivals;
mod bits;
pub mod bounds;
mod cell;
mod diverge;

use arrivals::{more_arrived, none_arrived};
use bits::add_bits;
pub use bits::plan_cols;
use cell::add_columns_of_cell;
use ct_base::{Memory, Net};
use program_layout::Layout;
use sparse_program::Builder;

/// Adds all columns of a network: those of the plan, and then those of the cells, step by step.
pub fn add_columns(builder: &mut Builder, net: &Net, layout: &Layout) -> Result<(), Memory>
    requires valid { IsValid net.now }
    requires layout { IsLayout net.now layout.now }
    requires room { length builder.old.columns + length (columns net.now) ≤ MAX_COLUMNS }
    ensures { OnOk result (builder.new ≡ with_columns net.now builder.old (columns net.now)) }
{
    add_bits(builder, net)?;
    add_columns_of_steps(builder, net, layout)?;
    Ok(())
}

/// Adds the columns of all cells, step by step.
fn add_columns_of_steps(builder: &mut Builder, net: &Net, layout: &Layout) -> Result<(), Memory>
    requires valid { IsValid net.now }
    requires layout { IsLayout net.now layout.now }
    requires room { length builder.old.columns + length (join_below net.now.steps (columns_of_cells net.now.cells)) ≤ MAX_COLUMNS }
    ensures { OnOk result (builder.new ≡ with_columns net.now builder.old (join_below net.now.steps (columns_of_cells net.now.cells))) }
{
    let alloc = builder.alloc();
    let mut arrived = none_arrived(alloc, net)?;
    for t in 0..net.steps {
        add_columns_of_cells(builder, net, layout, t, arrived.as_slice())?;
        arrived = more_arrived(alloc, net, arrived.as_slice(), t)?;
    }
    Ok(())
}

/// Adds the columns of all cells at step t, where so many units have arrived at each before it.
fn add_columns_of_cells(
    builder: &mut Builder,
    net: &Net,
    layout: &Layout,
    t: u32,
    arrived: &[u32],
) -> Result<(), Memory>
    requires valid { IsValid net.now }
    requires layout { IsLayout net.now layout.now }
    requires before { t < net.now.steps }
    requires arrived { arrived.now ≡ table_of (length net.now.cells) (arrived_before net.now.cells t) }
    requires room { length builder.old.columns + length (columns_of_cells net.now.cells t) ≤ MAX_COLUMNS }
    ensures { OnOk result (builder.new ≡ with_columns net.now builder.old (columns_of_cells net.now.cells t)) }
{
    for i in 0..net.cells.len() {
        add_columns_of_cell(builder, net, layout, t, i, arrived[i])?;
    }
    Ok(())
}

/// Adds a column, by its bounds and what one unit of it costs. Where memory is wanting the builder stays as it was.
fn add(builder: &mut Builder, low: u32, high: u32, cost: i64) -> Result<(), Memory>
    requires bounds { low ≤ high }
    requires small { high ≤ MAX_NUMBER }
    requires cost { IsSmall cost }
    requires room { length builder.old.columns < MAX_COLUMNS }
    ensures ok { OnOk result (builder.new ≡ record builder.old { columns = builder.old.columns ++ record { low = pos low; high = pos high; cost = cost } ∷ [] }) }
    ensures err { OnErr result (builder.new ≡ builder.old) }
{
    builder.col(i64::from(low), i64::from(high), cost)?;
    Ok(())
}

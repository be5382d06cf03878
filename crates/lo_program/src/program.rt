//! The program of a network: its columns, then its rule rows, then its flow rows.

ghost use Rattle.std.specs.Prelude.{◌≡◌, ◌<◌, ◌≤◌, [], Err, IfOk, OnOk, length, map};
ghost use Rattle.refusals.specs.Faults.{unless};
ghost use Rattle.refusals.specs.Memory.{OrMemory};
ghost use Rattle.ct_base.specs.Validity.{IsValid};
ghost use Rattle.program_model.specs.Columns.{columns};
ghost use Rattle.program_model.specs.Numbers.{number_of};
ghost use Rattle.program_model.specs.Points.{col, program_of, rows};
ghost use Rattle.program_model.specs.Sparse.{sparse};
ghost use Rattle.sparse_program.specs.declared.limits.TheConstants.{MAX_ROWS};
ghost use Rattle.lo_program.specs.Compiled.{compiled, size_faults};
ghost use Rattle.lo_program.specs.declared.fault.CompileFault.TheVariants.{Memory as WantOfMemory, TooLarge};
ghost use Rattle.program_layout.specs.Layout.{IsLayout};

use crate::count::row_count;
use crate::fault::CompileFault;
use crate::flows::add_flow_rows;
use crate::rules::add_rule_rows;
use ct_base::{Memory, Net};
use program_columns::add_columns;
use program_layout::{Layout, layout_of};
use sparse_program::limits::MAX_ROWS;
use sparse_program::{Builder, Program};
use std::alloc::Global;

/// Refuses a network whose program has more rows than a program holds. It takes no memory.
pub fn judge_size(net: &Net) -> Result<(), CompileFault>
    requires { IsValid net.now }
    ensures { result ≡ unless (size_faults net.now) tt }
{
    let rows = row_count(net);
    if rows > MAX_ROWS as u64 {
        return Err(CompileFault::TooLarge(rows));
    }
    Ok(())
}

/// The program of a network. One that is too large is refused before anything of it is made.
pub fn compile(alloc: Global, net: &Net) -> Result<Program, CompileFault>
    requires { IsValid net.now }
    ensures value { OrMemory WantOfMemory (compiled net.now) result }
    ensures large { MAX_ROWS < length (rows net.now) → result ≡ Err (TooLarge (length (rows net.now))) }
{
    judge_size(net)?;
    Ok(program_of(alloc, net)?)
}

/// The program of a network whose rows are few enough.
fn program_of(alloc: Global, net: &Net) -> Result<Program, Memory>
    requires valid { IsValid net.now }
    requires few { length (rows net.now) ≤ MAX_ROWS }
    ensures { IfOk result (λ program. program ≡ program_of net.now) }
{
    let layout = layout_of(alloc, net)?;
    let mut builder = Builder::new(alloc);
    add_all(&mut builder, net, &layout)?;
    builder.finish(layout.plan)
}

/// Adds the columns and rows of a network to a builder that has none.
fn add_all(builder: &mut Builder, net: &Net, layout: &Layout) -> Result<(), Memory>
    requires valid { IsValid net.now }
    requires layout { IsLayout net.now layout.now }
    requires empty { builder.old ≡ record { columns = []; rows = [] } }
    requires few { length (rows net.now) ≤ MAX_ROWS }
    ensures { OnOk result (builder.new ≡ record { columns = map (col net.now) (columns net.now); rows = map (sparse (number_of net.now)) (rows net.now) }) }
{
    add_columns(builder, net, layout)?;
    add_rule_rows(builder, net, layout)?;
    add_flow_rows(builder, net, layout)
}

//! `program NET OUT`: the program in whole numbers of a network, written to a file.

ghost use Rattle.std.specs.Prelude.{◌≡◌, [], Ok, IfOk};
ghost use Rattle.ct_base.specs.Validity.{IsValid};
ghost use Rattle.lo_program.specs.Compiled.{size_faults};
ghost use Rattle.program_model.specs.Points.{program_of};
ghost use Rattle.signal_cli.specs.Answers.{program_in, program_lines, program_reply};
ghost use Rattle.signal_cli.specs.inner.Causes.{Finds, Gives};

use crate::fault::Fault;
use crate::input::read_sized;
use crate::reply::Reply;
use ct_base::{Listed, Net, Text};
use lo_program::compile;
use program_text::{Program, write_program};
use shelf_io::Shelf;
use std::alloc::{AllocError, Global};

/// The text of a network's program for a file, and how many rows and columns it has.
pub fn program<F: Shelf>(
    alloc: Global,
    network: &str,
    text: &str,
    shelf: &mut F,
) -> Result<Reply, Fault>
    ensures { Finds (λ files outcome. program_in files network.now text.now ≡ outcome) result (F.state shelf.old) (F.state shelf.new) }
{
    let named = read_sized(alloc, shelf, network)?;
    let reply = reply_with(alloc, named.net(), text)?;
    Ok(reply)
}

/// What a network deserves whose program is not too large.
fn reply_with(alloc: Global, net: &Net, text: &str) -> Result<Reply, Fault>
    requires valid { IsValid net.now }
    requires small { size_faults net.now ≡ [] }
    ensures { Gives result (Ok (program_reply text.now (program_of net.now))) }
{
    let program = compile(alloc, net)?;
    let lines = lines_of(alloc, &program)?;
    let bytes = Listed::of(write_program(alloc, &program)?);
    let reply = Reply::filed(alloc, text, bytes, lines)?;
    Ok(reply)
}

/// How many rows and columns a program has, and how many of the columns are the plan's.
#[tactic(auto, unfolding(crate::specs::Answers::program_lines))]
fn lines_of(alloc: Global, program: &Program) -> Result<Text, AllocError>
    ensures { IfOk result (λ lines. lines ≡ program_lines program.now) }
{
    let rows = program.rows();
    let columns = program.cols();
    let plan = program.plan_cols();
    Ok(Text::of(format!(in alloc; "rows {rows}\ncolumns {columns}\nplan {plan}\n")?))
}

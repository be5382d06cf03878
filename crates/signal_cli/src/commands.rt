//! What each command answers: one function a command.

ghost use Rattle.std.specs.Prelude.{◌≡◌, ◌++◌, true};
ghost use Rattle.signal_cli.specs.Answers.{Deserves};
ghost use Rattle.signal_cli.specs.inner.Causes.{Finds};
ghost use Rattle.signal_cli.specs.Commands.{are_names, inputs_of, outputs_of};
ghost use Rattle.signal_cli.specs.inner.CommandViews.{HasNumber, view_of};

mod check;
mod demo;
mod encode;
mod gap;
mod point;
mod program;
mod rejection;
mod replay;
mod solve;
mod trace;

use crate::command::Command;
use crate::fault::Fault;
use crate::reply::Reply;
use shelf_io::Shelf;
use std::alloc::Global;

/// What the files of a command deserve. It reads them, each judged before the next is read, and writes nothing.
pub fn answer<F: Shelf>(alloc: Global, command: Command<'_>, shelf: &mut F) -> Result<Reply, Fault>
    requires names { are_names (inputs_of (view_of command) ++ outputs_of (view_of command)) ≡ true }
    requires number { HasNumber command }
    ensures { Finds (Deserves (view_of command.entry)) result (F.state shelf.old) (F.state shelf.new) }
{
    match command {
        Command::Replay { network, plan } => replay::replay(alloc, network, plan, shelf),
        Command::Trace {
            network,
            plan,
            table,
        } => trace::trace(alloc, network, plan, table, shelf),
        Command::Program { network, text } => program::program(alloc, network, text, shelf),
        Command::Encode {
            network,
            plan,
            text,
        } => encode::encode(alloc, network, plan, text, shelf),
        Command::Point { network, point } => point::point(alloc, network, point, shelf),
        Command::Check {
            network,
            certificate,
        } => check::check(alloc, network, certificate, shelf),
        Command::Gap {
            network,
            plan,
            certificate,
        } => gap::gap(alloc, network, plan, certificate, shelf),
        Command::Solve {
            network,
            budget,
            plan,
            certificate,
        } => solve::solve(alloc, network, budget, plan, certificate, shelf),
        Command::Demo { number } => demo::demo(alloc, number),
    }
}

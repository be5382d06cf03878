//! The planner of signal timings: reads the words of the command line and runs the command that they name.
#![tactic(auto)]

mod certificate;
mod command;
mod commands;
mod fault;
mod fault_line;
mod input;
mod output;
mod program;
mod reply;
#[cfg(test)]
mod tests;
mod top_call;

use program::planner;
use shelf_io::{HostShelf, HostSink};
use std::env;
use std::process::ExitCode;

fn main(rt: HostRuntime) -> ExitCode {
    planner(
        rt.alloc(),
        env::args(&rt),
        &mut HostShelf::new(&rt),
        &mut HostSink::new(rt.stdout()),
    )
}

//! Does parts of a search on the network that standard input has, each as often as the words say, so that what one costs can be
//! counted (bench/parts.py). Behind each part stands whether what was kept is what comes out anew.
#![tactic(auto)]

mod ascents;
mod changes;
mod fault;
mod kept;
mod moves;
mod part;
mod plans;

use fault::Fault;
use part::Part;
use std::env;
use std::io::Read;
use std::process::ExitCode;

/// Of so many parts none is left out.
const MOST_PARTS: u32 = 64;

fn main(rt: HostRuntime) -> ExitCode {
    match perform(&rt) {
        Ok(()) => ExitCode::SUCCESS,
        Err(_) => ExitCode::FAILURE,
    }
}

/// Does the parts that the words name, one after the other, and prints a line for each.
fn perform(rt: &HostRuntime) -> Result<(), Fault> {
    let mut text = Vec::new(rt.alloc());
    rt.stdin().read_to_end(&mut text)?;
    let named = cell_build::read(rt.alloc(), text.as_slice())?;
    let mut words = env::args(rt)?;
    let _ = words.next();
    for _ in 0..MOST_PARTS {
        match words.next() {
            Some(name) => {
                let count = words.next();
                let part = part::read(&name, count.as_ref())?;
                let line = part.line(rt.alloc(), named.net())?;
                println!(rt; "{line}")?;
            }
            None => break,
        }
    }
    Ok(())
}

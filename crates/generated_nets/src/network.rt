//! The whole text of a generated network.

ghost use Rattle.std.specs.Prelude.{◌≡◌, ◌≤◌, ◌++◌, IfOk, OnOk, string_bytes};
ghost use Rattle.listed.specs.Below.{join_below};
ghost use Rattle.generated_nets.specs.Generated.{generated_text, junction_text, junctions_of, signal_text, steps_of, street_text, top_text};

use crate::links::{push_side, push_street, push_way_off};
use crate::signals::push_signal;
use listed::Memory;
use std::alloc::Global;

/// The bytes of the longest text, for which room is taken at once.
const MOST_BYTES: usize = 2341;

/// The text of the network of a number: 2 to 4 signals along a street, over 30 to 40 steps (`docs/network-file.md`, "Generated
/// networks").
pub fn generate(alloc: Global, number: u16) -> Result<Vec<u8>, Memory>
    requires { number ≤ 9999 }
    ensures { IfOk result (λ text. text.items ≡ generated_text number) }
{
    let mut text = String::with_capacity(alloc, MOST_BYTES)?;
    push_top(&mut text, number)?;
    push_links(&mut text, number)?;
    push_signals(&mut text, number)?;
    Ok(text.into_bytes())
}

/// How many junctions the network of a number has.
pub(crate) fn junctions(number: u16) -> u16
    ensures { result ≡ junctions_of number }
{
    2 + number % 3
}

/// How many steps.
pub(crate) fn steps(number: u16) -> u16
    ensures { result ≡ steps_of number }
{
    30 + number % 11
}

/// Adds the keys that belong to no link and no signal.
fn push_top(text: &mut String, number: u16) -> Result<(), Memory>
    ensures { OnOk result (string_bytes text.new ≡ string_bytes text.old ++ top_text number) }
{
    let steps = steps(number);
    write!(text, "format = 1\nsteps = {steps}\n")?;
    Ok(())
}

/// Adds the links: the head of the street, and then what stands at each junction.
fn push_links(text: &mut String, number: u16) -> Result<(), Memory>
    requires { number ≤ 9999 }
    ensures { OnOk result (string_bytes text.new ≡ string_bytes text.old ++ (street_text number 0 ++ join_below (junctions_of number) (junction_text number))) }
{
    push_street(text, number, 0)?;
    for junction in 0..junctions(number) {
        push_side(text, number, junction)?;
        push_way_off(text, junction)?;
        push_street(text, number, junction + 1)?;
    }
    Ok(())
}

/// Adds the signals.
fn push_signals(text: &mut String, number: u16) -> Result<(), Memory>
    ensures { OnOk result (string_bytes text.new ≡ string_bytes text.old ++ join_below (junctions_of number) signal_text) }
{
    for junction in 0..junctions(number) {
        push_signal(text, junction)?;
    }
    Ok(())
}

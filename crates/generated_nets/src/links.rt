//! The links of a generated network: the stretches of the street, the side streets and the ways off.

ghost use Rattle.std.specs.Prelude.{◌≡◌, ◌<◌, ◌≤◌, ◌∷◌, ◌++◌, [], OnOk, string_bytes};
ghost use Rattle.texts.specs.Lines.{text_of_lines};
ghost use Rattle.generated_nets.specs.Generated.{demand_line, gate_lines, link_lines, named, side_text, street_text, turns_line, way_off_text};

use crate::network::{junctions, steps};
use listed::Memory;

/// Adds the stretch of the street before a junction, or the one behind the last junction.
pub(crate) fn push_street(text: &mut String, number: u16, junction: u16) -> Result<(), Memory>
    requires number { number ≤ 9999 }
    requires junction { junction ≤ 4 }
    ensures { OnOk result (string_bytes text.new ≡ string_bytes text.old ++ street_text number junction) }
{
    if junction >= junctions(number) {
        return push_link(text, "m", junction, 2);
    }
    push_link(text, "m", junction, 3)?;
    push_turns(text, number, junction)?;
    push_gate(text, junction, "main")?;
    if junction == 0 {
        push_demand(text, number, 5 + number % 4)?;
    }
    Ok(())
}

/// Adds the side street of a junction.
pub(crate) fn push_side(text: &mut String, number: u16, junction: u16) -> Result<(), Memory>
    requires number { number ≤ 9999 }
    requires junction { junction < 4 }
    ensures { OnOk result (string_bytes text.new ≡ string_bytes text.old ++ side_text number junction) }
{
    push_link(text, "s", junction, 2)?;
    let next = junction + 1;
    write!(text, "to = \"m{next}\"\n")?;
    push_gate(text, junction, "side")?;
    push_demand(text, number, 2 + (number + 2 * junction) % 4)?;
    Ok(())
}

/// Adds the way off at a junction.
pub(crate) fn push_way_off(text: &mut String, junction: u16) -> Result<(), Memory>
    ensures { OnOk result (string_bytes text.new ≡ string_bytes text.old ++ way_off_text junction) }
{
    push_link(text, "o", junction, 1)
}

/// Adds the keys that each link has. Its name is a letter and the number of its junction.
fn push_link(text: &mut String, letter: &str, junction: u16, cells: u16) -> Result<(), Memory>
    ensures { OnOk result (string_bytes text.new ≡ string_bytes text.old ++ text_of_lines (link_lines (named letter.now junction) cells)) }
{
    write!(text, "[[link]]\nname = \"{letter}{junction}\"\n")?;
    write!(
        text,
        "cells = {cells}\ncap = 10\nstore = 40\nwave = [1, 3]\n"
    )?;
    Ok(())
}

/// Adds the branches of the street at a junction.
fn push_turns(text: &mut String, number: u16, junction: u16) -> Result<(), Memory>
    requires number { number ≤ 9999 }
    requires junction { junction < 4 }
    ensures { OnOk result (string_bytes text.new ≡ string_bytes text.old ++ text_of_lines (turns_line number junction ∷ [])) }
{
    let next = junction + 1;
    let parcel = 2 + (number + junction) % 3;
    write!(
        text,
        "turns = [{{ link = \"m{next}\", parcel = {parcel} }}, "
    )?;
    write!(text, "{{ link = \"o{junction}\", parcel = 1 }}]\n")?;
    Ok(())
}

/// Adds the signal of a junction and the phase that opens a link there.
fn push_gate(text: &mut String, junction: u16, phase: &str) -> Result<(), Memory>
    ensures { OnOk result (string_bytes text.new ≡ string_bytes text.old ++ text_of_lines (gate_lines junction phase.now)) }
{
    write!(text, "signal = \"k{junction}\"\ngreens = [\"{phase}\"]\n")?;
    Ok(())
}

/// Adds one piece of demand, which ends ten steps before the last.
fn push_demand(text: &mut String, number: u16, rate: u16) -> Result<(), Memory>
    ensures { OnOk result (string_bytes text.new ≡ string_bytes text.old ++ text_of_lines (demand_line number rate ∷ [])) }
{
    let until = steps(number) - 10;
    write!(
        text,
        "demand = [{{ from = 0, until = {until}, rate = {rate} }}]\n"
    )?;
    Ok(())
}

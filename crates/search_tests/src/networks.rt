//! Networks with one signal that tests share.

ghost use Rattle.std.specs.Prelude.{◌≤◌};

use ct_base::{Cell, Gate, Kind, Listed, Memory, Net, Out, Phase, Signal};
use std::alloc::Global;

/// A queue before the next cell.
fn queue(next: u32, demand: Listed<u32>) -> Cell {
    Cell {
        kind: Kind::Queue,
        cap: 10,
        store: 0,
        wave_p: 1,
        wave_q: 1,
        gate: None,
        out: Out::To(next),
        initial: 0,
        demand,
    }
}

/// A road cell.
fn road(alloc: Global, cap: u32, store: u32, wave_q: u32, out: Out) -> Cell {
    Cell {
        kind: Kind::Road,
        cap,
        store,
        wave_p: 1,
        wave_q,
        gate: None,
        out,
        initial: 0,
        demand: Listed::new(alloc),
    }
}

/// The units that arrive over sixty steps: so many in each of the first twenty, then so many in each of twenty more.
fn demand(alloc: Global, early: u32, late: u32) -> Result<Listed<u32>, Memory> {
    let mut demand = Listed::new(alloc);
    for step in 0..60 {
        let units = if step < 20 {
            early
        } else if step < 40 {
            late
        } else {
            0
        };
        demand.push(units)?;
    }
    Ok(demand)
}

/// Adds an arm of the intersection: a queue with the number `first` and five cells, of which the last is open where its phase is green.
fn add_arm(
    alloc: Global,
    cells: &mut Listed<Cell>,
    first: u32,
    demand: Listed<u32>,
    greens: u8,
    out: Out,
) -> Result<(), Memory>
    requires { first ≤ 100 }
{
    cells.push(queue(first + 1, demand))?;
    for number in 2..6 {
        cells.push(road(alloc, 10, 40, 3, Out::To(first + number)))?;
    }
    let mut last = road(alloc, 10, 40, 3, out);
    last.gate = Some(Gate { signal: 0, greens });
    cells.push(last)
}

/// Adds a way out of the intersection: two cells, of which the first has a number.
fn add_exit(alloc: Global, cells: &mut Listed<Cell>, first: u32) -> Result<(), Memory>
    requires { first ≤ 100 }
{
    cells.push(road(alloc, 10, 40, 3, Out::To(first + 1)))?;
    cells.push(road(alloc, 10, 40, 3, Out::Exit))
}

/// Where an arm of the intersection leads that splits: three of four units to one way out, the fourth to another.
fn split(alloc: Global, most: u32, few: u32) -> Result<Out, Memory> {
    Ok(Out::Turns(Listed::of(vec![in alloc; (most, 3), (few, 1)]?)))
}

/// The arms and the ways out of the intersection.
fn intersection_cells(alloc: Global) -> Result<Listed<Cell>, Memory> {
    let mut cells = Listed::new(alloc);
    add_arm(alloc, &mut cells, 0, demand(alloc, 4, 4)?, 1, Out::To(24))?;
    add_arm(alloc, &mut cells, 6, demand(alloc, 3, 3)?, 1, Out::To(26))?;
    add_arm(
        alloc,
        &mut cells,
        12,
        demand(alloc, 3, 3)?,
        2,
        split(alloc, 28, 26)?,
    )?;
    add_arm(
        alloc,
        &mut cells,
        18,
        demand(alloc, 4, 2)?,
        2,
        split(alloc, 30, 24)?,
    )?;
    for exit in 0..4 {
        add_exit(alloc, &mut cells, 24 + 2 * exit)?;
    }
    Ok(cells)
}

/// A signal of two phases that follow each other.
fn two_phases(alloc: Global, min: u32, max: u32, clear: u32) -> Result<Listed<Signal>, Memory> {
    let phase = |next: u8| Phase {
        min,
        max,
        clear,
        next,
    };
    let signal = Signal {
        start: 0,
        phases: Listed::of(vec![in alloc; phase(2), phase(1)]?),
    };
    Ok(Listed::of(vec![in alloc; signal]?))
}

/// Four arms that meet at a signal, of which two split, over sixty steps.
pub fn intersection(alloc: Global) -> Result<Net, Memory> {
    Ok(Net {
        steps: 60,
        cells: intersection_cells(alloc)?,
        signals: two_phases(alloc, 4, 20, 2)?,
    })
}

/// A road cell with some units that a phase of the signal lets into the cell 2.
fn approach(alloc: Global, units: u32, greens: u8) -> Cell {
    let mut cell = road(alloc, 1, 2, 1, Out::To(2));
    cell.initial = units;
    cell.gate = Some(Gate { signal: 0, greens });
    cell
}

/// Two units and one that a signal lets into one cell in turn, over four steps.
pub fn crossing(alloc: Global) -> Result<Net, Memory> {
    let first = approach(alloc, 2, 1);
    let second = approach(alloc, 1, 2);
    let exit = road(alloc, 1, 2, 1, Out::Exit);
    Ok(Net {
        steps: 4,
        cells: Listed::of(vec![in alloc; first, second, exit]?),
        signals: two_phases(alloc, 1, 3, 1)?,
    })
}

/// One cell over eight steps, and a signal that starts with its last phase and lets two phases follow each one.
pub fn three_phases(alloc: Global) -> Result<Net, Memory> {
    let phase = |min: u32, max: u32, clear: u32, next: u8| Phase {
        min,
        max,
        clear,
        next,
    };
    let phases = vec![in alloc; phase(2, 3, 1, 6), phase(1, 2, 0, 5), phase(1, 4, 2, 3)]?;
    let signal = Signal {
        start: 2,
        phases: Listed::of(phases),
    };
    Ok(Net {
        steps: 8,
        cells: Listed::of(vec![in alloc; road(alloc, 1, 2, 1, Out::Exit)]?),
        signals: Listed::of(vec![in alloc; signal]?),
    })
}

//! Small networks that are worked by hand, and plans for them.

use ct_base::{Cell, Gate, Kind, Letter, Listed, Memory, Net, Out, Phase, Plan, Signal};
use std::alloc::Global;

/// A queue before the cell with number 1.
fn queue(alloc: Global, cap: u32, demand: Vec<u32>) -> Cell {
    Cell {
        kind: Kind::Queue,
        cap,
        store: 0,
        wave_p: 1,
        wave_q: 1,
        gate: None,
        out: Out::To(1),
        initial: 0,
        demand: Listed::of(demand),
    }
}

/// A road cell with no gate, whose waves run back at `1 / wave_q` of the free-flow speed.
fn road(alloc: Global, cap: u32, store: u32, wave_q: u32, initial: u32, out: Out) -> Cell {
    Cell {
        kind: Kind::Road,
        cap,
        store,
        wave_p: 1,
        wave_q,
        gate: None,
        out,
        initial,
        demand: Listed::new(alloc),
    }
}

/// One link of two cells, into which two units come in each of the steps 0 and 1.
pub fn one_link(alloc: Global) -> Result<Net, Memory> {
    let queue = queue(alloc, 2, vec![in alloc; 2, 2, 0, 0, 0]?);
    let first = road(alloc, 2, 4, 1, 0, Out::To(2));
    let last = road(alloc, 2, 4, 1, 0, Out::Exit);
    Ok(Net {
        steps: 5,
        cells: Listed::of(vec![in alloc; queue, first, last]?),
        signals: Listed::new(alloc),
    })
}

/// A cell that lets in one unit a step, behind one that lets in two.
pub fn bottleneck(alloc: Global) -> Result<Net, Memory> {
    let queue = queue(alloc, 2, vec![in alloc; 2, 0, 0, 0, 0, 0]?);
    let first = road(alloc, 2, 4, 1, 0, Out::To(2));
    let last = road(alloc, 1, 2, 2, 0, Out::Exit);
    Ok(Net {
        steps: 6,
        cells: Listed::of(vec![in alloc; queue, first, last]?),
        signals: Listed::new(alloc),
    })
}

/// Five units before a diverge that sends whole parcels of three.
pub fn diverge(alloc: Global) -> Result<Net, Memory> {
    let turns = Out::Turns(Listed::of(vec![in alloc; (1, 2), (2, 1)]?));
    let first = road(alloc, 6, 9, 1, 5, turns);
    let left = road(alloc, 6, 9, 1, 0, Out::Exit);
    let right = road(alloc, 6, 9, 1, 0, Out::Exit);
    Ok(Net {
        steps: 2,
        cells: Listed::of(vec![in alloc; first, left, right]?),
        signals: Listed::new(alloc),
    })
}

/// A road cell with one unit, which a set of phases of the signal 0 lets into the cell 2.
fn approach(alloc: Global, greens: u8) -> Cell {
    let mut cell = road(alloc, 1, 2, 1, 1, Out::To(2));
    cell.gate = Some(Gate { signal: 0, greens });
    cell
}

/// Two approaches that a signal of two phases lets into one cell in turn.
pub fn crossing(alloc: Global) -> Result<Net, Memory> {
    let phase = |next: u8| Phase {
        min: 1,
        max: 2,
        clear: 0,
        next,
    };
    let signal = Signal {
        start: 0,
        phases: Listed::of(vec![in alloc; phase(2), phase(1)]?),
    };
    let exit = road(alloc, 1, 2, 1, 0, Out::Exit);
    Ok(Net {
        steps: 3,
        cells: Listed::of(vec![in alloc; approach(alloc, 1), approach(alloc, 2), exit]?),
        signals: Listed::of(vec![in alloc; signal]?),
    })
}

/// One cell that holds three units over one step, of which two may leave.
pub fn one_cell(alloc: Global) -> Result<Net, Memory> {
    let cell = road(alloc, 2, 3, 1, 3, Out::Exit);
    Ok(Net {
        steps: 1,
        cells: Listed::of(vec![in alloc; cell]?),
        signals: Listed::new(alloc),
    })
}

/// A plan for a network without signals.
pub fn no_plan(alloc: Global) -> Plan {
    Plan {
        words: Listed::new(alloc),
    }
}

/// A plan of three steps for one signal, by the phases that are green.
pub fn green(alloc: Global, phases: [u8; 3]) -> Result<Plan, Memory> {
    let [a, b, c] = phases;
    let word = vec![in alloc; Letter::Green(a), Letter::Green(b), Letter::Green(c)]?;
    Ok(Plan {
        words: Listed::of(vec![in alloc; Listed::of(word)]?),
    })
}

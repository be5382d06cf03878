//! Networks that tests share.

use ct_base::{Cell, Gate, Kind, Listed, Memory, Net, Out, Phase, Signal};
use std::alloc::Global;

/// A road cell with no gate, whose waves run back at `1 / wave_q` of the free-flow speed.
fn road(alloc: Global, cap: u32, store: u32, wave_q: u32, initial: u32, out: Out) -> Cell {
    Cell {
        kind: Kind::Road,
        cap,
        store,
        wave_p: 1,
        wave_q,
        gate: None,
        out,
        initial,
        demand: Listed::new(alloc),
    }
}

/// One cell over one step, in which 3 units wait, of which 2 leave.
pub fn one_cell(alloc: Global) -> Result<Net, Memory> {
    Ok(Net {
        steps: 1,
        cells: Listed::of(vec![in alloc; road(alloc, 2, 3, 1, 3, Out::Exit)]?),
        signals: Listed::new(alloc),
    })
}

/// A road cell with one unit, which a set of phases of the signal 0 lets into the cell 2.
fn approach(alloc: Global, greens: u8) -> Cell {
    let mut cell = road(alloc, 1, 2, 1, 1, Out::To(2));
    cell.gate = Some(Gate { signal: 0, greens });
    cell
}

/// Two approaches that a signal of two phases lets into one cell in turn.
pub fn crossing(alloc: Global) -> Result<Net, Memory> {
    let phase = |next: u8| Phase {
        min: 1,
        max: 2,
        clear: 0,
        next,
    };
    let signal = Signal {
        start: 0,
        phases: Listed::of(vec![in alloc; phase(2), phase(1)]?),
    };
    let exit = road(alloc, 1, 2, 1, 0, Out::Exit);
    Ok(Net {
        steps: 3,
        cells: Listed::of(vec![in alloc; approach(alloc, 1), approach(alloc, 2), exit]?),
        signals: Listed::of(vec![in alloc; signal]?),
    })
}

//! Networks written down in one piece, for the tests.

use ct_base::{Cell, Duplicate, Gate, Kind, Listed, Memory, Net, Out, Phase, Signal};
use std::alloc::Global;

/// Where the units go that leave a cell, as `Out`.
#[derive(Clone, Copy)]
pub enum GivenOut<'a> {
    Exit,
    To(u32),
    Turns(&'a [(u32, u32)]),
}

/// A cell, as `Cell`.
#[derive(Clone, Copy)]
pub struct GivenCell<'a> {
    pub kind: Kind,
    pub cap: u32,
    pub store: u32,
    /// The two numbers of the wave ratio.
    pub wave: (u32, u32),
    /// The signal and the greens of the gate.
    pub gate: Option<(u32, u8)>,
    pub out: GivenOut<'a>,
    pub initial: u32,
    pub demand: &'a [u32],
}

/// A signal, as `Signal`: of each phase the least and the greatest green, the clearing steps, and what may follow.
#[derive(Clone, Copy)]
pub struct GivenSignal<'a> {
    pub start: u8,
    pub phases: &'a [(u32, u32, u32, u8)],
}

/// A list of some items.
pub fn list_of<T: Duplicate + Copy + Drop>(
    alloc: Global,
    items: &[T],
) -> Result<Listed<T>, Memory> {
    let mut list = Listed::new(alloc);
    for item in items {
        list.push(*item)?;
    }
    Ok(list)
}

/// The network of some cells and signals.
pub fn net_of(
    alloc: Global,
    steps: u32,
    cells: &[GivenCell],
    signals: &[GivenSignal],
) -> Result<Net, Memory> {
    let mut net = Net {
        steps,
        cells: Listed::new(alloc),
        signals: Listed::new(alloc),
    };
    for cell in cells {
        net.cells.push(cell_of(alloc, cell)?)?;
    }
    for signal in signals {
        net.signals.push(signal_of(alloc, signal)?)?;
    }
    Ok(net)
}

fn cell_of(alloc: Global, cell: &GivenCell) -> Result<Cell, Memory> {
    let gate = match cell.gate {
        Some((signal, greens)) => Some(Gate { signal, greens }),
        None => None,
    };
    Ok(Cell {
        kind: cell.kind,
        cap: cell.cap,
        store: cell.store,
        wave_p: cell.wave.0,
        wave_q: cell.wave.1,
        gate,
        out: out_of(alloc, cell.out)?,
        initial: cell.initial,
        demand: list_of(alloc, cell.demand)?,
    })
}

fn out_of(alloc: Global, out: GivenOut) -> Result<Out, Memory> {
    match out {
        GivenOut::Exit => Ok(Out::Exit),
        GivenOut::To(cell) => Ok(Out::To(cell)),
        GivenOut::Turns(turns) => Ok(Out::Turns(list_of(alloc, turns)?)),
    }
}

fn signal_of(alloc: Global, signal: &GivenSignal) -> Result<Signal, Memory> {
    let mut phases = Listed::new(alloc);
    for (min, max, clear, next) in signal.phases {
        phases.push(Phase {
            min: *min,
            max: *max,
            clear: *clear,
            next: *next,
        })?;
    }
    Ok(Signal {
        start: signal.start,
        phases,
    })
}

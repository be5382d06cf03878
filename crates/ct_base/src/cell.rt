//! The cells of a network, in which its traffic stands (Daganzo 1994, 1995).

use listed::{Duplicate, Listed, Memory};

/// What a cell holds its units in.
#[derive(Clone, Copy, Debug, PartialEq, Eq)]
pub enum Kind {
    /// Units that wait to enter a link. It has no limit of storage.
    Queue,
    /// A stretch of road whose length a vehicle at free flow covers in one step.
    Road,
}

/// A cell of a network. All quantities are whole units, and a time is a number of steps.
#[derive(Debug, Drop)]
pub struct Cell {
    pub kind: Kind,
    /// The most units that enter or leave in a step.
    pub cap: u32,
    /// The most units that a road cell holds; 0 for a queue.
    pub store: u32,
    /// The backward wave speed is `wave_p / wave_q` of the free-flow speed; 1 and 1 for a queue.
    pub wave_p: u32,
    pub wave_q: u32,
    /// The signal that lets units leave. A cell with none is always open.
    pub gate: Option<Gate>,
    /// Where units go that leave.
    pub out: Out,
    /// The units at step 0.
    pub initial: u32,
    /// For a queue the units that arrive at the end of each step, one number per step; none for a road cell.
    pub demand: Listed<u32>,
}

/// The signal of a cell, and the phases whose green opens it.
#[derive(Clone, Copy, Debug, PartialEq, Eq)]
pub struct Gate {
    /// The signal's number.
    pub signal: u32,
    /// A set of the signal's phases: bit p is 1 where phase p is in it.
    pub greens: u8,
}

/// Where the units go that leave a cell.
#[derive(Debug, Drop)]
pub enum Out {
    /// They leave the network.
    Exit,
    /// They enter the cell with this number.
    To(u32),
    /// They are split over several cells in fixed proportions.
    Turns(Turns),
}

/// The branches of a diverge: the number of each cell, and how many units of a parcel go there.
pub type Turns = Listed<(u32, u32)>;

impl Duplicate for Gate {
    fn copy(&self) -> Result<Gate, Memory> {
        Ok(*self)
    }
}

impl Duplicate for Out {
    fn copy(&self) -> Result<Out, Memory> {
        match self {
            Out::Exit => Ok(Out::Exit),
            Out::To(cell) => Ok(Out::To(*cell)),
            Out::Turns(turns) => Ok(Out::Turns(turns.copy()?)),
        }
    }
}

impl Duplicate for Cell {
    fn copy(&self) -> Result<Cell, Memory> {
        Ok(Cell {
            kind: self.kind,
            cap: self.cap,
            store: self.store,
            wave_p: self.wave_p,
            wave_q: self.wave_q,
            gate: self.gate,
            out: self.out.copy()?,
            initial: self.initial,
            demand: self.demand.copy()?,
        })
    }
}

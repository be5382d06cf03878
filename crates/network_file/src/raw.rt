//! A network as its file spells it: names are texts, and nothing is joined yet.

use ct_base::{Duplicate, Listed, Memory, Units};
use demand::Piece;
use texts::Name;

/// A network file's content.
#[derive(Debug, Drop)]
pub struct RawNet {
    /// The number of steps of the horizon.
    pub steps: u32,
    /// One per link, in the order of the file.
    pub links: Listed<RawLink>,
    /// One per signal, in the order of the file.
    pub signals: Listed<RawSignal>,
}

/// A link of the file.
#[derive(Debug, Drop)]
pub struct RawLink {
    pub name: Name,
    /// The number of its road cells.
    pub cells: u32,
    /// The most units that enter or leave a cell in a step.
    pub cap: u32,
    /// The most units that a cell holds.
    pub store: u32,
    /// The backward wave speed is `wave_p / wave_q` of the free-flow speed.
    pub wave_p: u32,
    pub wave_q: u32,
    /// The link that its last cell leads to.
    pub to: Option<Name>,
    /// The links that its last cell leads to, each with its units of a parcel.
    pub turns: Listed<(Name, u32)>,
    /// The signal that gates its last cell.
    pub signal: Option<Name>,
    /// The phases whose green opens it.
    pub greens: Listed<Name>,
    /// The units of each cell at step 0, from upstream to downstream.
    pub initial: Option<Units>,
    /// The demand that arrives at its queue, as pieces of which several may hold a step.
    pub pieces: Listed<Piece>,
}

/// A signal of the file.
#[derive(Debug, Drop)]
pub struct RawSignal {
    pub name: Name,
    /// The phase of the first run; none is the first phase.
    pub start: Option<Name>,
    pub phases: Listed<RawPhase>,
}

/// A phase of a signal of the file.
#[derive(Debug, Drop)]
pub struct RawPhase {
    pub name: Name,
    /// The least and the greatest number of green steps of a run.
    pub min: u32,
    pub max: u32,
    /// The number of clearing steps after the green.
    pub clear: u32,
    /// The phases that may follow.
    pub next: Listed<Name>,
}

impl Duplicate for RawPhase {
    fn copy(&self) -> Result<RawPhase, Memory> {
        let name = self.name.copy()?;
        let next = self.next.copy()?;
        Ok(RawPhase {
            name,
            min: self.min,
            max: self.max,
            clear: self.clear,
            next,
        })
    }
}

impl Duplicate for RawSignal {
    fn copy(&self) -> Result<RawSignal, Memory> {
        let name = self.name.copy()?;
        let start = self.start.copy()?;
        let phases = self.phases.copy()?;
        Ok(RawSignal {
            name,
            start,
            phases,
        })
    }
}

impl Duplicate for RawLink {
    fn copy(&self) -> Result<RawLink, Memory> {
        let name = self.name.copy()?;
        let to = self.to.copy()?;
        let turns = self.turns.copy()?;
        let signal = self.signal.copy()?;
        let greens = self.greens.copy()?;
        let initial = self.initial.copy()?;
        let pieces = self.pieces.copy()?;
        Ok(RawLink {
            name,
            cells: self.cells,
            cap: self.cap,
            store: self.store,
            wave_p: self.wave_p,
            wave_q: self.wave_q,
            to,
            turns,
            signal,
            greens,
            initial,
            pieces,
        })
    }
}

impl Duplicate for RawNet {
    fn copy(&self) -> Result<RawNet, Memory> {
        let links = self.links.copy()?;
        let signals = self.signals.copy()?;
        Ok(RawNet {
            steps: self.steps,
            links,
            signals,
        })
    }
}

//! What is changed in a cell of a network that is valid.

use super::given::{GivenCell, GivenOut};

/// What is changed.
#[derive(Clone, Copy)]
pub enum Change {
    Nothing,
    Cap(u32),
    Store(u32),
    Wave(u32, u32),
    Gate(u32, u8),
    Exit,
    To(u32),
    Turns(&'static [(u32, u32)]),
    Initial(u32),
    Demand(&'static [u32]),
}

/// The cell after a change.
pub fn changed(cell: GivenCell<'static>, change: Change) -> GivenCell<'static> {
    let mut changed = cell;
    match change {
        Change::Nothing => {}
        Change::Cap(cap) => changed.cap = cap,
        Change::Store(store) => changed.store = store,
        Change::Wave(p, q) => changed.wave = (p, q),
        Change::Gate(signal, greens) => changed.gate = Some((signal, greens)),
        Change::Exit => changed.out = GivenOut::Exit,
        Change::To(cell) => changed.out = GivenOut::To(cell),
        Change::Turns(turns) => changed.out = GivenOut::Turns(turns),
        Change::Initial(units) => changed.initial = units,
        Change::Demand(demand) => changed.demand = demand,
    }
    changed
}

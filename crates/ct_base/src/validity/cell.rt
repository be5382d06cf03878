//! The rules of a cell.

ghost use Rattle.std.specs.Prelude.{◌≡◌, ◌≤◌, ◌↔◌, ℕ, All, IfSome, IsTrue};
ghost use Rattle.ct_base.specs.Validity.{IsBetween, IsCell, IsGate, IsOfKind, IsQueue, IsRoad};

use super::moves::{are_targets, is_split};
use super::signal::is_set_of_phases;
use crate::cell::{Cell, Gate, Kind, Out};
use crate::net::Net;
use crate::signal::Signal;
use limits::{MAX_CAPACITY, MAX_DEMAND, MAX_STORAGE, MAX_WAVE};

/// Whether a cell obeys the rules of the place with its number in a network.
pub fn is_cell(net: &Net, number: usize, cell: &Cell) -> bool
    ensures { IsTrue result ↔ IsCell net.now number cell.now }
{
    1 <= cell.cap
        && cell.cap <= MAX_CAPACITY
        && is_of_kind(net.steps, cell)
        && has_gate_of(net.signals.as_slice(), cell)
        && is_split(&cell.out)
        && are_targets(net.cells.as_slice(), number, &cell.out)
}

/// Whether a cell obeys the rules of its kind.
fn is_of_kind(steps: u32, cell: &Cell) -> bool
    ensures { IsTrue result ↔ IsOfKind cell.now.kind steps cell.now }
{
    match cell.kind {
        Kind::Queue => is_queue(steps, cell),
        Kind::Road => is_road(cell),
    }
}

/// Whether a queue has no storage, no gate, nothing at the start, one way on, and its demand for each step.
pub fn is_queue(steps: u32, cell: &Cell) -> bool
    ensures { IsTrue result ↔ IsQueue steps cell.now }
{
    cell.store == 0
        && cell.wave_p == 1
        && cell.wave_q == 1
        && cell.gate.is_none()
        && cell.initial == 0
        && is_ordinary(&cell.out)
        && cell.demand.len() == steps as usize
        && is_demand(cell.demand.as_slice())
}

/// Whether a move leads into one cell.
fn is_ordinary(out: &Out) -> bool
    ensures { IsTrue result ↔ ((target : ℕ) × (out.now ≡ Out.To target)) }
{
    matches!(out, Out::To(_))
}

/// Whether at most 1000 units arrive in each step.
fn is_demand(demand: &[u32]) -> bool
    ensures { IsTrue result ↔ All (λ units. units ≤ 1000) demand.now }
{
    demand.iter().all(|units| *units <= MAX_DEMAND)
}

/// Whether a road cell has storage, a wave that is no faster than free flow, no more at the start than it holds, and no
/// demand.
pub fn is_road(cell: &Cell) -> bool
    ensures { IsTrue result ↔ IsRoad cell.now }
{
    1 <= cell.store
        && cell.store <= MAX_STORAGE
        && 1 <= cell.wave_p
        && cell.wave_p <= cell.wave_q
        && cell.wave_q <= MAX_WAVE
        && cell.initial <= cell.store
        && cell.demand.len() == 0
}

/// Whether a cell's gate, where it has one, obeys its rules.
fn has_gate_of(signals: &[Signal], cell: &Cell) -> bool
    ensures { IsTrue result ↔ IfSome cell.now.gate (IsGate signals.now) }
{
    match &cell.gate {
        Some(gate) => is_gate(signals, gate),
        None => true,
    }
}

/// Whether a gate names a signal, and some of its phases and no others.
pub fn is_gate(signals: &[Signal], gate: &Gate) -> bool
    ensures { IsTrue result ↔ IsGate signals.now gate.now }
{
    match signals.get(gate.signal as usize) {
        Some(signal) => 1 <= gate.greens && is_set_of_phases(signal.phases.len(), gate.greens),
        None => false,
    }
}

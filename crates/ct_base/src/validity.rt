//! Whether a network is valid. The counts are looked at before the parts that they count, so that no network
//! costs more than one pass over it and, for each two of its at most 256 cells, a look at their branches.

ghost use Rattle.std.specs.Prelude.{◌≡◌, ◌≢◌, ◌≤◌, ◌↔◌, length, All, EachIndex, IsTrue};
ghost use Rattle.ct_base.specs.Access.{cell_of};
ghost use Rattle.ct_base.specs.Validity.{IsValid, IsBetween, IsSignal, IsCell, AreSeparated};

mod cell;
mod merge;
mod moves;
mod signal;

use crate::net::Net;
use crate::signal::Signal;
use cell::is_cell;
use limits::{MAX_CELLS, MAX_SIGNALS, MAX_STEPS};
use merge::are_merges_separated;
use signal::is_signal;

/// Whether a network is valid: within the limits, each part by its own rules, and each merge separated by a
/// signal. It takes no memory.
pub fn valid(net: &Net) -> bool
    ensures { IsTrue result ↔ IsValid net.now }
{
    is_within_limits(net)
        && are_signals(net.signals.as_slice())
        && are_cells(net)
        && are_merges_separated(net.cells.as_slice())
}

/// Whether the network has a horizon, cells and signals in the numbers that are allowed.
fn is_within_limits(net: &Net) -> bool
    ensures { IsTrue result ↔ (IsBetween 1 240 net.now.steps × IsBetween 1 256 (length net.now.cells) × (length net.now.signals ≤ 16)) }
{
    1 <= net.steps
        && net.steps <= MAX_STEPS
        && 1 <= net.cells.len()
        && net.cells.len() <= MAX_CELLS as usize
        && net.signals.len() <= MAX_SIGNALS
}

/// Whether each signal obeys its rules.
fn are_signals(signals: &[Signal]) -> bool
    ensures { IsTrue result ↔ All IsSignal signals.now }
{
    signals.iter().all(|signal| is_signal(signal))
}

/// Whether each cell obeys the rules of its place in the network.
fn are_cells(net: &Net) -> bool
    ensures { IsTrue result ↔ EachIndex net.now.cells (λ i. IsCell net.now i (cell_of net.now.cells i)) }
{
    let cells = net.cells.as_slice();
    for number in 0..cells.len() {
        if !is_cell(net, number, &cells[number]) {
            return false;
        }
    }
    true
}
